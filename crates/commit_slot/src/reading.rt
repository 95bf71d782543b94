ghost use Rattle.std.specs.Prelude.{◌≡◌, ◌<◌, ◌≤◌, IfOk, is_ok};
ghost use Rattle.lsvd_device.specs.Device.{IsDisk, HoldsNow, MakesCalls};
ghost use Rattle.commit_slot.specs.Slots.{log_of};
ghost use Rattle.commit_slot.specs.Reading.{MayStandFor, ReadsAs, reading_cost};
ghost use Rattle.commit_slot.specs.Newer.{SlotHas, IsNewer, slot_cost};

use crate::slot::{CLOSED, OPEN, body_at, gate_at, log_of};
use commit_body::{CommitBody, read_body};
use lsvd_base::SECTOR_BYTES;
use lsvd_device::Disk;
use lsvd_fault::Failed;

/// The commit, with its number, that a device of at least 4,096 bytes (a condition) reads as: that of the
/// open slot with the greatest number. None is for a device that has no open slot. `Failed` comes where a
/// call of the device failed.
pub fn read_newest<D: Disk>(disk: &mut D) -> Result<Option<(CommitBody, u64)>, Failed>
    requires { 4096 ≤ (D.state disk.old).size }
    ensures ok { IfOk result (λ found.
        HoldsNow (λ now. ReadsAs (log_of (D.state disk.old).size) now.bytes found)
        (D.state disk.old).moments) }
    ensures may_stand { IfOk result (λ found. MayStandFor (log_of (D.state disk.old).size) found) }
    ensures moments { (D.state disk.new).moments ≡ (D.state disk.old).moments }
    ensures costs { MakesCalls reading_cost (is_ok result) (D.state disk.old) (D.state disk.new) }
    ensures is_disk { IsDisk (D.state disk.new) }
{
    let log = log_of(disk.len());
    let first = read_slot(disk, log, 0)?;
    let second = read_slot(disk, log, 1)?;
    let third = read_slot(disk, log, 2)?;
    Ok(newer_of(first, newer_of(second, third)))
}

// The commit of a slot, or none where it is not open.
fn read_slot<D: Disk>(
    disk: &mut D,
    log: u64,
    slot: u64,
) -> Result<Option<(CommitBody, u64)>, Failed>
    requires size { 4096 ≤ (D.state disk.old).size }
    requires slot { slot < 3 }
    ensures ok { IfOk result (λ found.
        HoldsNow (λ now. SlotHas log now.bytes slot found) (D.state disk.old).moments) }
    ensures may_stand { IfOk result (λ found. MayStandFor log found) }
    ensures moments { (D.state disk.new).moments ≡ (D.state disk.old).moments }
    ensures costs { MakesCalls slot_cost (is_ok result) (D.state disk.old) (D.state disk.new) }
    ensures is_disk { IsDisk (D.state disk.new) }
{
    let mut sector = [0; SECTOR_BYTES as usize];
    disk.read(body_at(slot), &mut sector)?;
    let mut gate = [CLOSED];
    disk.read(gate_at(slot), &mut gate)?;
    if gate[0] != OPEN {
        return Ok(None);
    }
    Ok(read_body(&sector, log, slot))
}

// The newer of two commits, where there are some.
fn newer_of(
    first: Option<(CommitBody, u64)>,
    second: Option<(CommitBody, u64)>,
) -> Option<(CommitBody, u64)>
    ensures { IsNewer first second result }
{
    match (first, second) {
        (Some(one), Some(other)) => Some(if one.1 < other.1 { other } else { one }),
        (Some(one), None) => Some(one),
        (None, other) => other,
    }
}
