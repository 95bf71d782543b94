ghost use Rattle.std.specs.Prelude.{◌≡◌, ◌≤◌, OnOk, OnErr, is_ok};
ghost use Rattle.lsvd_device.specs.Device.{IsDisk, HoldsNow};
ghost use Rattle.lsvd_device.specs.Memory.{IsSynced};
ghost use Rattle.commit_body.specs.Body.{MayStand, HasNumbersOf64Bits};
ghost use Rattle.commit_slot.specs.Slots.{log_of};
ghost use Rattle.commit_slot.specs.Commits.{first_half_cost, second_half_cost};
ghost use Rattle.commit_slot.specs.States.{IsSettled};
ghost use Rattle.commit_slot.specs.Sequence.{Costs};
ghost use Rattle.commit_slot.specs.Formatting.{clear_bytes, clear_cost, format_cost, clear_calls};
ghost use Rattle.commit_slot.specs.Formatting.{first_body_calls, first_open_calls, format_calls};
ghost use Rattle.commit_slot.specs.Clearing.{IsClear, WritesFirst, OpensFirst};

use crate::slot::{CLOSED, OPEN, SLOTS_BYTES, body_at, gate_at};
use commit_body::{CommitBody, write_body};
use lsvd_base::SECTOR_BYTES;
use lsvd_device::Disk;
use lsvd_fault::Failed;

// Clears the three slots, and makes the first commit, with the number 0 and this body.
pub(crate) fn format_slots<D: Disk>(disk: &mut D, body: CommitBody) -> Result<(), Failed>
    requires size { 4096 ≤ (D.state disk.old).size }
    requires is_disk { IsDisk (D.state disk.old) }
    requires numbers { HasNumbersOf64Bits body 0 }
    requires may_stand { MayStand body (log_of (D.state disk.old).size) }
    ensures ok { OnOk result (
        HoldsNow (IsSettled (log_of (D.state disk.old).size) 0 body) (D.state disk.new).moments) }
    ensures costs { Costs format_cost (format_calls body) (is_ok result) (D.state disk.old)
        (D.state disk.new) }
    ensures synced { OnOk result (HoldsNow IsSynced (D.state disk.new).moments) }
    ensures is_disk { IsDisk (D.state disk.new) }
{
    clear_slots(disk)?;
    write_first_body(disk, &body)?;
    open_first_slot(disk)
}

// Fills the three slots with zeros, which makes them closed and of no body.
fn clear_slots<D: Disk>(disk: &mut D) -> Result<(), Failed>
    requires size { 4096 ≤ (D.state disk.old).size }
    requires is_disk { IsDisk (D.state disk.old) }
    ensures ok { OnOk result (HoldsNow IsClear (D.state disk.new).moments) }
    ensures costs { Costs clear_cost clear_calls (is_ok result) (D.state disk.old) (D.state disk.new) }
    ensures is_disk { IsDisk (D.state disk.new) }
{
    disk.write(0, &clear_bytes())?;
    disk.sync()
}

// The bytes of the three slots, all of them zeros.
#[tactic(auto, unfolding(crate::specs::Formatting::clear_bytes))]
fn clear_bytes() -> [u8; SLOTS_BYTES]
    ensures { result ≡ clear_bytes }
{
    [0; SLOTS_BYTES]
}

// The first half of the first commit.
fn write_first_body<D: Disk>(disk: &mut D, body: &CommitBody) -> Result<(), Failed>
    requires size { 4096 ≤ (D.state disk.old).size }
    requires is_disk { IsDisk (D.state disk.old) }
    requires numbers { HasNumbersOf64Bits body.now 0 }
    requires may_stand { MayStand body.now (log_of (D.state disk.old).size) }
    ensures ok { OnOk result (WritesFirst body.now (D.state disk.old) (D.state disk.new)) }
    ensures costs { Costs first_half_cost (first_body_calls body.now) (is_ok result) (D.state disk.old)
        (D.state disk.new) }
    ensures is_disk { IsDisk (D.state disk.new) }
{
    let mut sector = [0; SECTOR_BYTES as usize];
    write_body(body, 0, &mut sector);
    disk.write(body_at(0), &sector)?;
    disk.write(gate_at(1), &[CLOSED])?;
    disk.sync()
}

// Its second half.
fn open_first_slot<D: Disk>(disk: &mut D) -> Result<(), Failed>
    requires size { 4096 ≤ (D.state disk.old).size }
    requires is_disk { IsDisk (D.state disk.old) }
    ensures ok { OnOk result (OpensFirst (D.state disk.old) (D.state disk.new)) }
    ensures costs { Costs second_half_cost first_open_calls (is_ok result) (D.state disk.old)
        (D.state disk.new) }
    ensures synced { OnOk result (HoldsNow IsSynced (D.state disk.new).moments) }
    ensures is_disk { IsDisk (D.state disk.new) }
{
    disk.write(gate_at(0), &[OPEN])?;
    disk.sync()
}
