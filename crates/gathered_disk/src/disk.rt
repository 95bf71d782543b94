ghost use Rattle.std.specs.Prelude.{◌≡◌, ◌+◌, ◌≤◌, ◌⊎◌, [], length, false, IfOk, OnOk};
ghost use Rattle.std.specs.Prelude.{OnErr, IsTrue, is_err, vec_len, vec_capacity};
ghost use Rattle.lsvd_fault.specs.Faults.{Counts};
ghost use Rattle.lsvd_device.specs.Medium.{after_write};
ghost use Rattle.lsvd_device.specs.Device.{IsDisk, moments_after, FailsToWrite};
ghost use Rattle.gathered_disk.specs.Gathered.{AreCovered, IsAboveNow, gathered_disk};

use crate::moments::{Moments, Untold};
use lsvd_device::Disk;
use lsvd_fault::Failed;
use std::alloc::{AllocError, Global};
use std::marker::Model;

// How many bytes are gathered at most.
const ROOM: usize = 1 << 18;

// A write of so many bytes is not gathered: to copy them takes longer than a call does.
const LONG: usize = 1 << 16;

/// A disk over another one that gathers short writes, as long as each goes on where the last one ended, and
/// makes one write of them: at a sync, at a read that meets them, where a write does not go on there, where
/// they would be more than 256 KiB, and at `hand_over`. A write of 64 KiB or more goes to the disk below at
/// once, behind what was gathered.
///
/// A gathered write that fails is kept, and made again with the next call. That call fails where it fails
/// again. So a call that fails may be one that asked for something else.
///
/// What was gathered and not handed over is lost where the program ends, as a stop of the machine loses what
/// was not synced.
#[derive(Drop)]
pub struct GatheredDisk<D: Disk, M: Moments = Untold> {
    disk: D,
    /// Where the bytes stand that are not handed over yet.
    at: u64,
    gathered: Vec<u8>,
    /// Whether the last write of them failed. Then nothing is put behind them before one succeeds.
    has_failed: bool,
    faults: u64,
    moments: M,
}

impl<D: Disk, M: Moments> Model for GatheredDisk<D, M> {
    ghost use Rattle.gathered_disk.specs.Gathered.{GatheredState, IsGathering};

    ghost Value = { GatheredState };

    ghost view = { λ d. record {
      below = D.state d.disk;
      at = d.at;
      gathered = d.gathered.items;
      told = M.told d.moments;
      faults = d.faults;
    } };

    ghost invariant = { λ d. IsGathering (record {
      below = D.state d.disk;
      at = d.at;
      gathered = d.gathered.items;
      told = M.told d.moments;
      faults = d.faults;
    }) };
}

impl<D: Disk, M: Moments> GatheredDisk<D, M> {
    /// A disk over this one. Where moments are kept, they are those that it tells (a condition). The one
    /// error is that memory ran out.
    pub fn new(alloc: Global, disk: D, moments: M) -> Result<GatheredDisk<D, M>, AllocError>
    where
        D: Drop,
        requires { (M.told moments ≡ []) ⊎ (M.told moments ≡ (D.state disk).moments) }
        ensures below { IfOk result (λ made. made.below ≡ D.state disk) }
        ensures gathered { IfOk result (λ made. made.gathered ≡ []) }
        ensures told { IfOk result (λ made. made.told ≡ M.told moments) }
        ensures faults { IfOk result (λ made. made.faults ≡ 0) }
    {
        let _len = disk.len();
        let gathered = Vec::with_capacity(alloc, ROOM)?;
        Ok(GatheredDisk {
            disk,
            at: 0,
            gathered,
            has_failed: false,
            faults: 0,
            moments,
        })
    }

    /// The disk below, which may lack what was gathered last.
    pub fn disk(&self) -> &D
        ensures { D.state result.now ≡ self.now.below }
    {
        &self.disk
    }

    /// The disk below. What was gathered is handed over to it, unless that fails, which it counted; then it
    /// lacks that.
    pub fn into_disk(mut self) -> (D, Result<(), Failed>)
        ensures size { (D.state result.0).size ≡ self.below.size }
        ensures whole { OnOk result.1 (IsAboveNow 0 [] (D.state result.0).moments self.told) }
        ensures covered { AreCovered self.told (D.state result.0).moments }
    {
        let handed = self.pass_on();
        let GatheredDisk {
            disk,
            at: _,
            gathered,
            has_failed: _,
            faults: _,
            moments,
        } = self;
        drop(gathered);
        drop(moments);
        (disk, handed)
    }

    /// What is so of each, as a fact for the proofs of callers: whatever a stop may leave of the disk below,
    /// it may leave of this one. Nothing is done.
    pub fn is_covered(&self)
        ensures { AreCovered self.now.told self.now.below.moments }
    {
        let _at = self.at;
    }

    // Makes one write of what was gathered. Where it fails it stays gathered. It is not counted here.
    fn pass_on(&mut self) -> Result<(), Failed>
        ensures size { self.new.below.size ≡ self.old.below.size }
        ensures told { self.new.told ≡ self.old.told }
        ensures faults { self.new.faults ≡ self.old.faults }
        ensures ok { OnOk result (self.new.gathered ≡ []) }
        ensures err { OnErr result ((self.new.at ≡ self.old.at) × (self.new.gathered ≡ self.old.gathered)) }
    {
        if self.gathered.is_empty() {
            return Ok(());
        }
        self.has_failed = true;
        self.disk.write(self.at, &self.gathered)?;
        self.has_failed = false;
        self.gathered.clear();
        Ok(())
    }

    // Makes one write of what was gathered, and counts where it fails.
    fn settle(&mut self) -> Result<(), Failed>
        ensures size { self.new.below.size ≡ self.old.below.size }
        ensures told { self.new.told ≡ self.old.told }
        ensures faults { Counts (is_err result) self.old.faults self.new.faults }
        ensures ok { OnOk result (self.new.gathered ≡ []) }
        ensures disk { IsDisk (gathered_disk self.new) }
    {
        let outcome = self.pass_on();
        judge(&mut self.faults, outcome)
    }

    // Whether a piece that is written from `at` on goes on where what was gathered ends, and may be put
    // behind it.
    fn goes_on(&self, at: u64, count: usize) -> bool
        ensures { IsTrue result → at ≡ self.now.at + length self.now.gathered }
    {
        let len = self.gathered.len();
        !self.has_failed && at == self.at + len as u64 && count <= ROOM.saturating_sub(len)
    }

    // Whether some of the bytes from `at` on are gathered.
    fn meets(&self, at: u64, count: usize) -> bool
        requires { at + count ≤ self.now.below.size }
        ensures { (result ≡ false)
            → (at + count ≤ self.now.at) ⊎ (self.now.at + length self.now.gathered ≤ at) }
    {
        let end = self.at + self.gathered.len() as u64;
        at < end && self.at < at + count as u64
    }

    // Sees to it that none of the bytes from `at` on are gathered.
    fn give_way(&mut self, at: u64, count: usize) -> Result<(), Failed>
        requires { at + count ≤ self.old.below.size }
        ensures size { self.new.below.size ≡ self.old.below.size }
        ensures told { self.new.told ≡ self.old.told }
        ensures faults { Counts (is_err result) self.old.faults self.new.faults }
        ensures ok { OnOk result ((self.new.gathered ≡ [])
            ⊎ ((at + count ≤ self.new.at) ⊎ (self.new.at + length self.new.gathered ≤ at))) }
        ensures err { OnErr result (IsDisk (gathered_disk self.new)) }
    {
        if self.meets(at, count) {
            return self.settle();
        }
        Ok(())
    }

    // Sees to it that what is gathered ends where a piece will stand that is written from `at` on.
    fn make_way(&mut self, at: u64, count: usize) -> Result<(), Failed>
        requires { at + count ≤ self.old.below.size }
        ensures size { self.new.below.size ≡ self.old.below.size }
        ensures told { self.new.told ≡ self.old.told }
        ensures faults { Counts (is_err result) self.old.faults self.new.faults }
        ensures ok { OnOk result (self.new.at + length self.new.gathered ≡ at) }
        ensures err { OnErr result (IsDisk (gathered_disk self.new)) }
    {
        if self.goes_on(at, count) {
            return Ok(());
        }
        self.settle()?;
        self.at = at;
        Ok(())
    }

    // Gathers a short write.
    fn gather(&mut self, at: u64, piece: &[u8]) -> Result<(), Failed>
        requires { at + length piece.now ≤ self.old.below.size }
        ensures size { self.new.below.size ≡ self.old.below.size }
        ensures ok { OnOk result (self.new.told ≡ moments_after (after_write at piece.now) self.old.told) }
        ensures err { OnErr result (self.new.told ≡ self.old.told) }
        ensures faults { Counts (is_err result) self.old.faults self.new.faults }
        ensures disk { IsDisk (gathered_disk self.new) }
    {
        self.make_way(at, piece.len())?;
        if self.gathered.extend_from_slice(piece).is_err() {
            return judge(&mut self.faults, Err(Failed));
        }
        self.moments.note_write(at, piece);
        Ok(())
    }

    // Makes a long write at once. Where it fails it is kept as a gathered one.
    fn write_long(&mut self, at: u64, piece: &[u8]) -> Result<(), Failed>
        requires { at + length piece.now ≤ self.old.below.size }
        ensures size { self.new.below.size ≡ self.old.below.size }
        ensures ok { OnOk result (self.new.told ≡ moments_after (after_write at piece.now) self.old.told) }
        ensures err { OnErr result (FailsToWrite at (length piece.now) self.old.told self.new.told) }
        ensures faults { Counts (is_err result) self.old.faults self.new.faults }
        ensures disk { IsDisk (gathered_disk self.new) }
    {
        self.settle()?;
        if self.gathered.reserve(piece.len()).is_err() {
            return judge(&mut self.faults, Err(Failed));
        }
        if let Err(failed) = self.disk.write(at, piece) {
            self.has_failed = true;
            self.at = at;
            keep(&mut self.gathered, piece);
            self.moments.note_write(at, piece);
            return judge(&mut self.faults, Err(failed));
        }
        self.moments.note_write(at, piece);
        Ok(())
    }
}

impl<D: Disk, M: Moments> Disk for GatheredDisk<D, M> {
    ghost use Rattle.gathered_disk.specs.Gathered.{gathered_disk};

    ghost state = { gathered_disk };

    fn len(&self) -> u64 {
        self.disk.len()
    }

    fn read(&mut self, at: u64, buf: &mut [u8]) -> Result<(), Failed> {
        self.give_way(at, buf.len())?;
        let outcome = self.disk.read(at, buf);
        judge(&mut self.faults, outcome)
    }

    fn write(&mut self, at: u64, piece: &[u8]) -> Result<(), Failed> {
        if piece.len() < LONG {
            self.gather(at, piece)
        } else {
            self.write_long(at, piece)
        }
    }

    fn sync(&mut self) -> Result<(), Failed> {
        self.settle()?;
        let outcome = self.disk.sync();
        judge(&mut self.faults, outcome)?;
        self.moments.note_sync();
        Ok(())
    }

    fn hand_over(&mut self) {
        let _ = self.pass_on();
    }

    fn faults(&self) -> u64 {
        self.faults
    }
}

// Gathers a piece where nothing is gathered, and there is room for it.
fn keep(gathered: &mut Vec<u8>, piece: &[u8])
    requires empty { gathered.old.items ≡ [] }
    requires room { vec_len gathered.old + length piece.now ≤ vec_capacity gathered.old }
    ensures { gathered.new.items ≡ piece.now }
{
    let _ = gathered.extend_from_slice(piece);
}

// Counts a call that failed.
fn judge(faults: &mut u64, outcome: Result<(), Failed>) -> Result<(), Failed>
    ensures same { result ≡ outcome }
    ensures count { Counts (is_err outcome) faults.old faults.new }
{
    if outcome.is_err() {
        *faults = faults.saturating_add(1);
    }
    outcome
}
