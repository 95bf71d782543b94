ghost use Rattle.std.specs.Prelude.{◌≡◌, ◌+◌, ◌-◌, ◌<◌, ◌≤◌, ◌∷◌, ◌++◌, [], None, Some, IfOk, OnOk, OnErr};
ghost use Rattle.std.specs.Prelude.{IsOk, IfSome, length, replicate, take, drop, vec_capacity, ◌^◌, List, ℕ};
ghost use Rattle.lsvd_fault.specs.Faults.{CountsOne};
ghost use Rattle.lsvd_device.specs.Medium.{MayLeave, durable};
ghost use Rattle.lsvd_bytes.specs.Places.{with_bytes};
ghost use Rattle.lsvd_device.specs.Calls.{fuse_of};
ghost use Rattle.lsvd_device.specs.Device.{DiskState, HoldsNow};
ghost use Rattle.lsvd_device.specs.Stop.{left_in_order, IsStopped};
ghost use Rattle.lsvd_device.specs.Memory.{HasRoom, IsFrontOf, LiesInside, LieInside, bytes_written};
ghost use Rattle.lsvd_device.specs.Memory.{contents_from};

use crate::change::Change;
use crate::disk::{Disk, StoppedDisk};
use crate::fate::Fate;
use crate::stop::stop;
use lsvd_bytes::paste;
use lsvd_fault::Failed;
use std::alloc::{AllocError, Global};
use std::marker::Model;

/// A disk in memory, which keeps its changes in order. It fails only where it has no memory for a change.
///
/// It takes memory for what is written to it and, where the writes go on from its beginning, for that once
/// more, so that a read need not go over the changes.
#[derive(Drop)]
pub struct MemDisk {
    size: u64,
    /// The first bytes, as a read gives them.
    front: Vec<u8>,
    changes: Vec<Change>,
    /// The data of the changes, one after the other.
    written: Vec<u8>,
    /// How many of the changes are those up to the last sync.
    synced: usize,
    faults: u64,
}

impl Model for MemDisk {
    ghost use Rattle.std.specs.Prelude.{◌-◌, None, Some, length, vec_capacity};
    ghost use Rattle.lsvd_device.specs.Device.{DiskState, IsDisk};
    ghost use Rattle.lsvd_device.specs.Memory.{moments_of, IsKept};

    ghost Value = { DiskState };

    ghost view = { λ d. record {
      size = d.size;
      moments = moments_of d.size d.changes.items d.written.items;
      faults = d.faults;
      budget = Some (record {
        fuse = None;
        calls = vec_capacity d.changes - length d.changes.items;
        bytes = vec_capacity d.written - length d.written.items;
      });
    } };

    ghost invariant = { λ d. IsKept d.size d.synced d.changes.items d.written.items d.front.items };
}

// The first bytes of a disk that was made, for which memory is taken at once.
const FRONT_BYTES: u64 = 4_096;

impl MemDisk {
    /// A disk of `len` bytes, all of them zeros. The one error is that memory ran out.
    pub fn new(alloc: Global, len: u64) -> Result<MemDisk, AllocError>
        ensures size { IfOk result (λ disk. disk.size ≡ len) }
        ensures moments { IfOk result (λ disk. disk.moments ≡ durable (replicate len 0) ∷ []) }
        ensures faults { IfOk result (λ disk. disk.faults ≡ 0) }
        ensures fuse { IfOk result (λ disk. fuse_of disk.budget ≡ Some None) }
    {
        Ok(MemDisk {
            size: len,
            front: vec![in alloc; 0; len.min(FRONT_BYTES) as usize]?,
            changes: Vec::new(alloc),
            written: Vec::new(alloc),
            synced: 0,
            faults: 0,
        })
    }
}

impl MemDisk {
    /// Makes room for `calls` more writes and syncs, and for `bytes` bytes of writes, so that none of them
    /// fails. The one error is that memory ran out, which comes only where that room is missing. What the
    /// disk holds, and its count, are as before.
    pub fn reserve(&mut self, calls: u64, bytes: u64) -> Result<(), AllocError>
        ensures room { OnOk result (HasRoom calls bytes self.new.budget) }
        ensures succeeds { HasRoom calls bytes self.old.budget → IsOk result }
        ensures fuse { fuse_of self.new.budget ≡ fuse_of self.old.budget }
        ensures rest { self.new ≡ record self.old { budget = self.new.budget } }
    {
        self.changes.reserve(calls as usize)?;
        self.written.reserve(bytes as usize)
    }

    // It has no fuse of its own.
    pub(crate) fn has_no_fuse(&self)
        ensures { fuse_of self.now.budget ≡ Some None }
    {
        let _faults = self.faults;
    }
}

impl StoppedDisk for MemDisk {
    fn pending(&self) -> usize {
        self.changes.len() - self.synced
    }

    fn stopped(&self, alloc: Global, fates: &[Fate]) -> Result<MemDisk, AllocError> {
        stop(
            alloc,
            self.size,
            &self.changes,
            self.synced,
            &self.written,
            fates,
        )
    }
}

impl Disk for MemDisk {
    ghost state = { λ d. d };

    fn len(&self) -> u64 {
        self.size
    }

    fn read(&mut self, at: u64, buf: &mut [u8]) -> Result<(), Failed> {
        read_kept(&self.front, &self.changes, &self.written, at, buf);
        Ok(())
    }

    fn write(&mut self, at: u64, piece: &[u8]) -> Result<(), Failed> {
        if keep_write(&mut self.changes, &mut self.written, at, piece).is_err() {
            return Err(counted(&mut self.faults));
        }
        put_in_front(&mut self.front, at as usize, piece);
        Ok(())
    }

    fn sync(&mut self) -> Result<(), Failed> {
        if self.changes.push(Change::Sync).is_err() {
            return Err(counted(&mut self.faults));
        }
        self.synced = self.changes.len();
        Ok(())
    }

    fn hand_over(&mut self) {}

    fn faults(&self) -> u64 {
        self.faults
    }
}

// Keeps a write; where memory runs out, it keeps nothing.
fn keep_write(
    changes: &mut Vec<Change>,
    written: &mut Vec<u8>,
    at: u64,
    piece: &[u8],
) -> Result<(), AllocError>
    ensures ok { OnOk result ((changes.new.items ≡ changes.old.items ++ Change.Write at
        (length piece.now) ∷ [])
        × (written.new.items ≡ written.old.items ++ piece.now)) }
    ensures err { OnErr result ((changes.new.items ≡ changes.old.items)
        × (written.new.items ≡ written.old.items)) }
    ensures capacity { (vec_capacity changes.old ≤ vec_capacity changes.new)
        × (vec_capacity written.old ≤ vec_capacity written.new) }
    ensures succeeds { length changes.old.items < vec_capacity changes.old
        → length written.old.items + length piece.now ≤ vec_capacity written.old → IsOk result }
{
    changes.reserve(1)?;
    written.extend_from_slice(piece)?;
    let count = piece.len();
    changes.push(Change::Write { at, count })?;
    Ok(())
}

// Counts a fault.
fn counted(faults: &mut u64) -> Failed
    ensures { CountsOne faults.old faults.new }
{
    *faults = faults.saturating_add(1);
    Failed
}

// Puts a piece in place of the bytes from `at` on, as far as the front has them or ends there. Where memory
// runs out for a longer front it ends before the piece.
fn put_in_front(front: &mut Vec<u8>, at: usize, piece: &[u8])
    requires { at + length piece.now < 2 ^ 64 }
    ensures { (bytes : List ℕ) → at + length piece.now ≤ length bytes → IsFrontOf bytes front.old.items
        → IsFrontOf (with_bytes at piece.now bytes) front.new.items }
{
    if at + piece.len() <= front.len() {
        put_inside(front, at, piece);
    } else if at <= front.len() {
        front.truncate(at);
        let _ = front.extend_from_slice(piece);
    }
}

// Puts a piece in place of the bytes from `at` on.
fn put_inside(bytes: &mut Vec<u8>, at: usize, piece: &[u8])
    requires { at + length piece.now ≤ length bytes.old.items }
    ensures { bytes.new.items ≡ with_bytes at piece.now bytes.old.items }
{
    bytes[at..at + piece.len()].copy_from_slice(piece);
}

// Reads the bytes from `at` on: from the front where it has them, and else by the changes.
fn read_kept(front: &[u8], changes: &[Change], written: &[u8], at: u64, buf: &mut [u8])
    requires counted { bytes_written changes.now ≡ length written.now }
    requires ends { LieInside (2 ^ 64 - 1) changes.now }
    requires range { at + length buf.old < 2 ^ 64 }
    ensures { (size : ℕ) → at + length buf.old ≤ size → LieInside size changes.now
        → IsFrontOf (contents_from (replicate size 0) changes.now written.now) front.now
        → buf.new ≡ take (length buf.old)
        (drop at (contents_from (replicate size 0) changes.now written.now)) }
{
    let (from, end) = (at as usize, at as usize + buf.len());
    if end <= front.len() {
        buf.copy_from_slice(&front[from..end]);
        return;
    }
    replay(changes, written, at, buf);
}

/// Makes the bytes from `at` on of zeros and of these changes, in order, and answers how many bytes the
/// changes wrote, which are the first of `written`.
pub(crate) fn replay(changes: &[Change], written: &[u8], at: u64, buf: &mut [u8]) -> usize
    requires counted { bytes_written changes.now ≤ length written.now }
    requires ends { LieInside (2 ^ 64 - 1) changes.now }
    ensures count { result ≡ bytes_written changes.now }
    ensures shown { (size : ℕ) → at + length buf.old ≤ size → LieInside size changes.now
        → buf.new ≡ take (length buf.old)
        (drop at (contents_from (replicate size 0) changes.now written.now)) }
{
    buf.fill(0);
    let mut from = 0;
    for change in changes {
        from += put_change(*change, &written[from..], at, buf);
    }
    from
}

// Makes the bytes from `at` on of what they were and of a change, and answers how many bytes the change
// wrote, which are the first of `written`.
fn put_change(change: Change, written: &[u8], at: u64, buf: &mut [u8]) -> usize
    requires fits { bytes_written (change ∷ []) ≤ length written.now }
    requires ends { LiesInside (2 ^ 64 - 1) change }
    ensures count { result ≡ bytes_written (change ∷ []) }
    ensures shown { (bytes : List ℕ) → at + length buf.old ≤ length bytes → LiesInside (length bytes) change
        → buf.old ≡ take (length buf.old) (drop at bytes)
        → buf.new ≡ take (length buf.old) (drop at (contents_from bytes (change ∷ []) written.now)) }
{
    match change {
        Change::Write { at: place, count } => {
            paste(buf, at, place, &written[..count]);
            count
        }
        Change::Sync => 0,
    }
}
