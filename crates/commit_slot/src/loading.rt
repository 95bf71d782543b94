ghost use Rattle.std.specs.Prelude.{◌≡◌, ℕ, ◌+◌, ◌%◌, ◌<◌, ◌≤◌, true, false, length, IfOk, IfErr, OnOk};
ghost use Rattle.std.specs.Prelude.{IsTrue, is_ok};
ghost use Rattle.lsvd_device.specs.Device.{IsDisk, HoldsNow};
ghost use Rattle.lsvd_device.specs.Memory.{IsSynced};
ghost use Rattle.commit_body.specs.declared.body.CommitBody.{CommitBody as Body};
ghost use Rattle.commit_body.specs.Body.{IsBody, MayStand};
ghost use Rattle.commit_slot.specs.Slots.{log_of};
ghost use Rattle.commit_slot.specs.States.{IsSettled};
ghost use Rattle.commit_slot.specs.LogArea.{KeepsLogAreaSince, MakesLogAreaDurable, HasDurableLogArea};
ghost use Rattle.commit_slot.specs.Loading.{MakesAtMost, load_cost, AreRead, FailsToLoad, IsCrashSafeLoad};
ghost use Rattle.commit_slot.specs.Loading.{LeavesSettled};
ghost use Rattle.commit_slot.specs.Mending.{KeepsNewest, NextIsClosed, ThirdIsOlder, Mends, close_cost};
ghost use Rattle.commit_slot.specs.Mending.{clear_third_cost, mend_cost};
ghost use Rattle.commit_slot.specs.Mending.{LeavesClosed, LeavesOlder, LeavesMended, HoldsNotNow};

use crate::error::LoadError;
use crate::reading::read_newest;
use crate::slot::{CLOSED, OPEN, body_at, gate_at, log_of, slot_after, slot_of};
use commit_body::{CommitBody, read_body};
use lsvd_base::SECTOR_BYTES;
use lsvd_device::Disk;
use lsvd_fault::Failed;

// Syncs the device, reads its newest commit, and mends the other slots.
pub(crate) fn load_slots<D: Disk>(disk: &mut D) -> Result<(CommitBody, u64), LoadError>
    requires size { 4096 ≤ (D.state disk.old).size }
    requires is_disk { IsDisk (D.state disk.old) }
    ensures read { IfOk result (λ found. AreRead found.1 found.0 (D.state disk.old)) }
    ensures may_stand { IfOk result (λ found. MayStand found.0 (log_of (D.state disk.old).size)) }
    ensures settled { IfOk result (λ found.
        HoldsNow (IsSettled (log_of (D.state disk.old).size) found.1 found.0)
        (D.state disk.new).moments) }
    ensures costs { OnOk result (MakesAtMost load_cost true (D.state disk.old) (D.state disk.new)) }
    ensures err { IfErr result (λ error. FailsToLoad error (D.state disk.old) (D.state disk.new)) }
    ensures crash_safe { IsCrashSafeLoad (D.state disk.old) (D.state disk.new) }
    ensures leaves_settled { LeavesSettled (D.state disk.old) (D.state disk.new) }
    ensures durable { OnOk result (MakesLogAreaDurable (D.state disk.old).moments
        (D.state disk.new).moments) }
    ensures durable_now { OnOk result (HasDurableLogArea (D.state disk.new).moments) }
    ensures synced { OnOk result (HoldsNow IsSynced (D.state disk.new).moments) }
    ensures is_disk { IsDisk (D.state disk.new) }
{
    disk.sync()?;
    let Some((body, number)) = read_newest(disk)? else {
        return Err(LoadError::NoSlot {
            log: log_of(disk.len()),
        });
    };
    mend_slots(disk, number)?;
    Ok((body, number))
}

// Leaves the slots as between two commits, the last of which is the newest one, with this number. It writes
// to no gate that is closed, since a write that fails might open it.
fn mend_slots<D: Disk>(disk: &mut D, number: u64) -> Result<(), Failed>
    requires size { 4096 ≤ (D.state disk.old).size }
    requires is_disk { IsDisk (D.state disk.old) }
    ensures mended { OnOk result (Mends number (D.state disk.old) (D.state disk.new)) }
    ensures synced { OnOk result (
        HoldsNow IsSynced (D.state disk.old).moments
        → HoldsNow IsSynced (D.state disk.new).moments) }
    ensures unwritten { LeavesMended number (D.state disk.old) (D.state disk.new) }
    ensures newest { KeepsNewest number (D.state disk.old) (D.state disk.new) }
    ensures log_area { KeepsLogAreaSince (D.state disk.old).moments (D.state disk.new).moments }
    ensures costs { MakesAtMost mend_cost (is_ok result) (D.state disk.old) (D.state disk.new) }
    ensures is_disk { IsDisk (D.state disk.new) }
{
    let closed = close_next(disk, number)?;
    let cleared = clear_third(disk, number)?;
    if !closed && !cleared {
        return Ok(());
    }
    disk.sync()
}

// Closes the slot after that of the newest commit, and answers whether it was open.
fn close_next<D: Disk>(disk: &mut D, number: u64) -> Result<bool, Failed>
    requires size { 4096 ≤ (D.state disk.old).size }
    requires is_disk { IsDisk (D.state disk.old) }
    ensures closed { OnOk result (HoldsNow (NextIsClosed number) (D.state disk.new).moments) }
    ensures same { IfOk result (λ written.
        written ≡ false → (D.state disk.new).moments ≡ (D.state disk.old).moments) }
    ensures written { IfOk result (λ written.
        written ≡ true → HoldsNotNow (NextIsClosed number) (D.state disk.old).moments) }
    ensures unwritten { LeavesClosed number (D.state disk.old) (D.state disk.new) }
    ensures newest { KeepsNewest number (D.state disk.old) (D.state disk.new) }
    ensures log_area { KeepsLogAreaSince (D.state disk.old).moments (D.state disk.new).moments }
    ensures costs { MakesAtMost close_cost (is_ok result) (D.state disk.old) (D.state disk.new) }
    ensures is_disk { IsDisk (D.state disk.new) }
{
    let at = gate_at(slot_after(slot_of(number)));
    let mut gate = [CLOSED];
    disk.read(at, &mut gate)?;
    if gate[0] != OPEN {
        return Ok(false);
    }
    disk.write(at, &[CLOSED])?;
    Ok(true)
}

// Fills the body of the third slot with zeros where it is newer, and answers whether it was.
fn clear_third<D: Disk>(disk: &mut D, number: u64) -> Result<bool, Failed>
    requires size { 4096 ≤ (D.state disk.old).size }
    requires is_disk { IsDisk (D.state disk.old) }
    ensures older { OnOk result (
        HoldsNow (ThirdIsOlder (log_of (D.state disk.old).size) number) (D.state disk.new).moments) }
    ensures same { IfOk result (λ written.
        written ≡ false → (D.state disk.new).moments ≡ (D.state disk.old).moments) }
    ensures written { IfOk result (λ written.
        written ≡ true
        → HoldsNotNow (ThirdIsOlder (log_of (D.state disk.old).size) number) (D.state disk.old).moments) }
    ensures unwritten { LeavesOlder number (D.state disk.old) (D.state disk.new) }
    ensures closed { OnOk result (
        HoldsNow (NextIsClosed number) (D.state disk.old).moments
        → HoldsNow (NextIsClosed number) (D.state disk.new).moments) }
    ensures newest { KeepsNewest number (D.state disk.old) (D.state disk.new) }
    ensures log_area { KeepsLogAreaSince (D.state disk.old).moments (D.state disk.new).moments }
    ensures costs { MakesAtMost clear_third_cost (is_ok result) (D.state disk.old) (D.state disk.new) }
    ensures is_disk { IsDisk (D.state disk.new) }
{
    let log = log_of(disk.len());
    let slot = slot_after(slot_after(slot_of(number)));
    let mut sector = [0; SECTOR_BYTES as usize];
    disk.read(body_at(slot), &mut sector)?;
    if !is_newer(&sector, log, slot, number) {
        return Ok(false);
    }
    disk.write(body_at(slot), &[0; SECTOR_BYTES as usize])?;
    Ok(true)
}

// Whether a sector is the body of a commit in this slot that is newer than the one with this number.
fn is_newer(sector: &[u8], log: u64, slot: u64, number: u64) -> bool
    requires { length sector.now ≡ 512 }
    ensures newer { result ≡ true → (body : Body) × (n : ℕ) × IsBody sector.now log slot body n
        × (number < n) }
    ensures older { result ≡ false → (body : Body) (n : ℕ) → IsBody sector.now log slot body n → n ≤ number }
{
    match read_body(sector, log, slot) {
        Some((_, n)) => number < n,
        None => false,
    }
}
