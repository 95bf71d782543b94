ghost use Rattle.std.specs.Prelude.{◌≡◌, ◌+◌, ◌^◌, ◌<◌, ◌≤◌, OnOk, OnErr, is_ok};
ghost use Rattle.lsvd_device.specs.Device.{IsDisk, HoldsNow};
ghost use Rattle.lsvd_device.specs.Memory.{IsSynced};
ghost use Rattle.commit_body.specs.Body.{MayStand, HasNumbersOf64Bits};
ghost use Rattle.commit_slot.specs.Slots.{log_of};
ghost use Rattle.commit_slot.specs.Commits.{first_half_cost, second_half_cost};
ghost use Rattle.commit_slot.specs.States.{IsFirstHalf, FailsFirstHalf, IsSecondHalf, FailsSecondHalf};
ghost use Rattle.commit_slot.specs.LogArea.{KeepsLogAreaSince, MakesLogAreaDurable};
ghost use Rattle.commit_slot.specs.Sequence.{Costs, first_half_calls, second_half_calls};

use crate::slot::{CLOSED, OPEN, body_at, gate_at, slot_after, slot_of};
use commit_body::{CommitBody, write_body};
use lsvd_base::SECTOR_BYTES;
use lsvd_device::Disk;
use lsvd_fault::Failed;

// The first half of the commit after the one with this number: its body is written into its slot, which is
// closed, and the slot after that is closed.
pub(crate) fn write_body_and_close<D: Disk>(
    disk: &mut D,
    number: u64,
    body: &CommitBody,
) -> Result<(), Failed>
    requires size { 4096 ≤ (D.state disk.old).size }
    requires is_disk { IsDisk (D.state disk.old) }
    requires number { number + 1 < 2 ^ 64 }
    requires numbers { HasNumbersOf64Bits body.now (number + 1) }
    requires may_stand { MayStand body.now (log_of (D.state disk.old).size) }
    ensures ok { OnOk result (IsFirstHalf number body.now (D.state disk.old) (D.state disk.new)) }
    ensures err { OnErr result (FailsFirstHalf number (D.state disk.old) (D.state disk.new)) }
    ensures log_area { KeepsLogAreaSince (D.state disk.old).moments (D.state disk.new).moments }
    ensures durable { OnOk result (MakesLogAreaDurable (D.state disk.old).moments
        (D.state disk.new).moments) }
    ensures costs { Costs first_half_cost (first_half_calls number body.now) (is_ok result) (D.state disk.old)
        (D.state disk.new) }
    ensures is_disk { IsDisk (D.state disk.new) }
{
    let slot = slot_of(number + 1);
    let mut sector = [0; SECTOR_BYTES as usize];
    write_body(body, number + 1, &mut sector);
    disk.write(body_at(slot), &sector)?;
    disk.write(gate_at(slot_after(slot)), &[CLOSED])?;
    disk.sync()
}

// The second half of the commit after the one with this number: its slot is opened.
pub(crate) fn open_and_sync<D: Disk>(disk: &mut D, number: u64) -> Result<(), Failed>
    requires size { 4096 ≤ (D.state disk.old).size }
    requires is_disk { IsDisk (D.state disk.old) }
    requires number { number + 1 < 2 ^ 64 }
    ensures ok { OnOk result (IsSecondHalf number (D.state disk.old) (D.state disk.new)) }
    ensures err { OnErr result (FailsSecondHalf number (D.state disk.old) (D.state disk.new)) }
    ensures log_area { KeepsLogAreaSince (D.state disk.old).moments (D.state disk.new).moments }
    ensures costs { Costs second_half_cost (second_half_calls number) (is_ok result) (D.state disk.old)
        (D.state disk.new) }
    ensures synced { OnOk result (HoldsNow IsSynced (D.state disk.new).moments) }
    ensures is_disk { IsDisk (D.state disk.new) }
{
    disk.write(gate_at(slot_of(number + 1)), &[OPEN])?;
    disk.sync()
}
