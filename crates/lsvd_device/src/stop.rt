ghost use Rattle.std.specs.Prelude.{◌≡◌, ◌+◌, ◌-◌, ◌≤◌, ◌^◌, ℕ, [], ◌∷◌, length, replicate, IfOk, OnOk, Some};
ghost use Rattle.std.specs.Prelude.{None};
ghost use Rattle.std.specs.List.{AllByRecursion};
ghost use Rattle.lsvd_device.specs.Medium.{MayLeave, durable, after_write, after_sync};
ghost use Rattle.lsvd_device.specs.Calls.{fuse_of};
ghost use Rattle.lsvd_device.specs.Device.{IsDisk, HoldsNow, moments_after};
ghost use Rattle.lsvd_device.specs.Memory.{IsWrite, LiesInside, LieInside, bytes_written, moments_of};
ghost use Rattle.lsvd_device.specs.Memory.{contents_from};
ghost use Rattle.lsvd_device.specs.Stop.{put_by, change_by, left_in_order, IsStopped, HasNow, Rewrites};
ghost use Rattle.lsvd_device.specs.Stop.{LeavesBy, MayStop};

use crate::change::Change;
use crate::disk::Disk;
use crate::fate::Fate;
use crate::memory::{MemDisk, replay};
use lsvd_fault::Failed;
use std::alloc::{AllocError, Global};

/// The disk that a stop leaves of these changes, of which the first `synced` are those up to the last sync,
/// and each write after them has met its fate. The one error is that memory ran out.
pub(crate) fn stop(
    alloc: Global,
    size: u64,
    changes: &[Change],
    synced: usize,
    written: &[u8],
    fates: &[Fate],
) -> Result<MemDisk, AllocError>
    requires { MayStop size synced changes.now written.now fates.now }
    ensures size { IfOk result (λ disk. disk.size ≡ size) }
    ensures left { IfOk result (λ disk. IsStopped fates.now (moments_of size changes.now written.now)
        disk.moments) }
    ensures may_leave { OnOk result (HoldsNow
        (λ now. MayLeave now (left_in_order fates.now (moments_of size changes.now written.now)))
        (moments_of size changes.now written.now)) }
    ensures fuse { IfOk result (λ disk. fuse_of disk.budget ≡ Some None) }
    ensures is_disk { IfOk result IsDisk }
{
    let mut disk = MemDisk::new(alloc, size)?;
    let used = make_at_once(alloc, &mut disk, &changes[..synced], written)?;
    make_by_fates(
        alloc,
        &mut disk,
        &changes[synced..],
        &written[used..],
        fates,
    )?;
    sync(&mut disk)?;
    disk.has_no_fuse();
    Ok(disk)
}

// Writes on a disk of zeros, as one piece, what changes left of such a disk, and answers how many bytes they
// wrote, which are the first of `written`. So no stop makes again what the stops before it made.
fn make_at_once(
    alloc: Global,
    disk: &mut MemDisk,
    changes: &[Change],
    written: &[u8],
) -> Result<usize, AllocError>
    requires counted { bytes_written changes.now ≤ length written.now }
    requires inside { LieInside disk.old.size changes.now }
    requires ends { LieInside (2 ^ 64 - 1) changes.now }
    requires zeros { disk.old.moments ≡ durable (replicate disk.old.size 0) ∷ [] }
    ensures used { IfOk result (λ used. used ≡ bytes_written changes.now) }
    ensures bytes { OnOk result (HasNow
        (λ now. now.bytes ≡ contents_from (replicate disk.old.size 0) changes.now written.now)
        disk.new.moments) }
    ensures size { disk.new.size ≡ disk.old.size }
{
    let mut bytes = vec![in alloc; 0; end_of(changes) as usize]?;
    make_as(disk, changes, written, &mut bytes)
}

// The same where `piece` is as long as the changes reach, or longer; what they left stands in it then.
fn make_as(
    disk: &mut MemDisk,
    changes: &[Change],
    written: &[u8],
    piece: &mut [u8],
) -> Result<usize, AllocError>
    requires counted { bytes_written changes.now ≤ length written.now }
    requires inside { LieInside disk.old.size changes.now }
    requires ends { LieInside (2 ^ 64 - 1) changes.now }
    requires zeros { disk.old.moments ≡ durable (replicate disk.old.size 0) ∷ [] }
    requires piece { LieInside (length piece.old) changes.now }
    requires fits { length piece.old ≤ disk.old.size }
    ensures used { IfOk result (λ used. used ≡ bytes_written changes.now) }
    ensures bytes { OnOk result (HasNow
        (λ now. now.bytes ≡ contents_from (replicate disk.old.size 0) changes.now written.now)
        disk.new.moments) }
    ensures size { disk.new.size ≡ disk.old.size }
{
    let used = replay(changes, written, 0, piece);
    put(disk, 0, piece)?;
    Ok(used)
}

// Where the last of the bytes ends that these changes wrote.
fn end_of(changes: &[Change]) -> u64
    requires ends { LieInside (2 ^ 64 - 1) changes.now }
    ensures inside { LieInside result changes.now }
    ensures least { (size : ℕ) → LieInside size changes.now → result ≤ size }
{
    let mut end = 0;
    for change in changes {
        end = end_with(*change).max(end);
    }
    end
}

// Where the bytes end that this change wrote.
fn end_with(change: Change) -> u64
    requires ends { LiesInside (2 ^ 64 - 1) change }
    ensures inside { LiesInside result change }
    ensures least { (size : ℕ) → LiesInside size change → result ≤ size }
{
    match change {
        Change::Write { at, count } => at + count as u64,
        Change::Sync => 0,
    }
}

// Lets each of these writes meet its fate on a disk that holds what stood at the last sync before them. Their
// bytes are the first of `written`.
fn make_by_fates(
    alloc: Global,
    disk: &mut MemDisk,
    changes: &[Change],
    written: &[u8],
    fates: &[Fate],
) -> Result<(), AllocError>
    requires counted { bytes_written changes.now ≤ length written.now }
    requires inside { LieInside disk.old.size changes.now }
    requires writes { AllByRecursion IsWrite changes.now }
    requires count { length fates.now ≡ length changes.now }
    ensures left { OnOk result (LeavesBy disk.old.size fates.now changes.now written.now disk.old.moments
        disk.new.moments) }
    ensures size { disk.new.size ≡ disk.old.size }
{
    let mut used = 0;
    for index in 0..changes.len() {
        used += make_by_fate(alloc, disk, changes[index], &written[used..], fates[index])?;
    }
    Ok(())
}

// Lets a write meet its fate, and answers how many bytes it has.
fn make_by_fate(
    alloc: Global,
    disk: &mut MemDisk,
    change: Change,
    written: &[u8],
    fate: Fate,
) -> Result<usize, AllocError>
    requires fits { bytes_written (change ∷ []) ≤ length written.now }
    requires inside { LiesInside disk.old.size change }
    requires write { IsWrite change }
    ensures count { IfOk result (λ count. count ≡ bytes_written (change ∷ [])) }
    ensures bytes { OnOk result (Rewrites (change_by fate change written.now) disk.old.moments
        disk.new.moments) }
    ensures size { disk.new.size ≡ disk.old.size }
{
    match change {
        Change::Write { at, count } => {
            put_by(alloc, disk, at, &written[..count], fate)?;
            Ok(count)
        }
        Change::Sync => Ok(0),
    }
}

// Lets the write of a piece meet its fate.
fn put_by(
    alloc: Global,
    disk: &mut MemDisk,
    at: u64,
    piece: &[u8],
    fate: Fate,
) -> Result<(), AllocError>
    requires inside { at + length piece.now ≤ disk.old.size }
    ensures bytes { OnOk result (Rewrites (put_by fate at piece.now) disk.old.moments disk.new.moments) }
    ensures size { disk.new.size ≡ disk.old.size }
{
    match fate {
        Fate::Kept => put(disk, at, piece),
        Fate::Old => Ok(()),
        Fate::Zeros => {
            let zeros = vec![in alloc; 0; piece.len()]?;
            put(disk, at, zeros.as_slice())
        }
        Fate::Torn => put(disk, at, &piece[..piece.len() / 2]),
    }
}

// A write, which fails only where memory runs out.
fn put(disk: &mut MemDisk, at: u64, piece: &[u8]) -> Result<(), AllocError>
    requires inside { at + length piece.now ≤ disk.old.size }
    ensures moments { OnOk result (disk.new.moments ≡ moments_after (after_write at piece.now)
        disk.old.moments) }
    ensures size { disk.new.size ≡ disk.old.size }
{
    match disk.write(at, piece) {
        Ok(()) => Ok(()),
        Err(Failed) => Err(AllocError),
    }
}

// A sync, which fails only where memory runs out.
fn sync(disk: &mut MemDisk) -> Result<(), AllocError>
    ensures moments { OnOk result (disk.new.moments ≡ moments_after after_sync disk.old.moments) }
    ensures size { disk.new.size ≡ disk.old.size }
{
    match disk.sync() {
        Ok(()) => Ok(()),
        Err(Failed) => Err(AllocError),
    }
}
