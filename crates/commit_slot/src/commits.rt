ghost use Rattle.std.specs.Prelude.{◌≡◌, ◌+◌, ◌-◌, ◌^◌, ◌<◌, ◌≤◌, ◌∷◌, [], length, take, drop, None, Some};
ghost use Rattle.std.specs.Prelude.{true, false, IfSome, IfOk, IfErr, OnOk, OnErr, is_ok};
ghost use Rattle.std.specs.Fn.{FnOnceReturnsAtMut};
ghost use Rattle.lsvd_device.specs.Medium.{after_write};
ghost use Rattle.lsvd_device.specs.Calls.{read_cost, write_cost, PassesNone};
ghost use Rattle.lsvd_device.specs.Device.{IsDisk, HoldsNow, moments_after, FailsToWrite, MakesCalls};
ghost use Rattle.lsvd_device.specs.Device.{FailsAlone};
ghost use Rattle.lsvd_device.specs.Memory.{IsSynced};
ghost use Rattle.lsvd_device.specs.Sequence.{Write};
ghost use Rattle.commit_body.specs.Body.{MayStand};
ghost use Rattle.commit_slot.specs.Slots.{log_of};
ghost use Rattle.commit_slot.specs.Commits.{with_budget, first_half_cost, finish_cost, commit_cost, IsCommit};
ghost use Rattle.commit_slot.specs.Commits.{IsLast, IsAsBefore, IsFinished, IsBegun, LeavesSince, LeavesNow};
ghost use Rattle.commit_slot.specs.LogArea.{KeepsLogAreaSince, KeepsLogArea, MakesLogAreaDurable};
ghost use Rattle.commit_slot.specs.OnDisk.{AreOnDisk};
ghost use Rattle.commit_slot.specs.Sequence.{Costs, first_half_calls, finish_calls, commit_calls};
ghost use Rattle.commit_slot.specs.Committing.{IsCommitted, FailsToCommit, IsCrashSafeCommit};
ghost use Rattle.commit_slot.specs.Formatting.{IsFormatted, format_cost, format_calls};
ghost use Rattle.commit_slot.specs.Loading.{MakesAtMost, load_cost, AreLoaded, IsCrashSafeLoad};
ghost use Rattle.commit_slot.specs.Loading.{LeavesSettled, FailsToLoad};
ghost use Rattle.commit_slot.specs.Lending.{ChangesBudgetAlone};

use crate::error::LoadError;
use crate::formatting::format_slots;
use crate::halves::{open_and_sync, write_body_and_close};
use crate::loading::load_slots;
use crate::slot::log_of;
use commit_body::CommitBody;
use lsvd_device::Disk;
use lsvd_fault::Failed;
use std::marker::Model;

/// The commits on a cache device.
#[derive(Drop)]
pub struct Commits<D: Disk> {
    disk: D,
    /// The number of the last commit made.
    number: u64,
    /// Its body.
    body: CommitBody,
    /// The body of the next commit, where its first half was made and its second half failed.
    unfinished: Option<CommitBody>,
}

impl<D: Disk> Model for Commits<D> {
    ghost use Rattle.commit_slot.specs.Commits.{CommitsState};
    ghost use Rattle.commit_slot.specs.States.{AreCommits};

    ghost Value = { CommitsState };

    ghost view = { λ c. record {
      number = c.number;
      body = c.body;
      unfinished = c.unfinished;
      disk = D.state c.disk;
    } };

    ghost invariant = { λ c. AreCommits c.number c.body c.unfinished (D.state c.disk) };
}

impl<D: Disk> Commits<D> {
    /// Formats a device of at least 4,096 bytes (a condition): clears its slots, and makes the first commit,
    /// with the number 0 and this body, which may stand for the device's log (a condition). The device is a
    /// disk (a condition, which its `len` tells). `Failed` comes with the device where a call of it failed;
    /// its slots may have any bytes then, and it is to be formatted again.
    pub fn format(mut disk: D, body: CommitBody) -> Result<Commits<D>, (D, Failed)>
        requires size { 4096 ≤ (D.state disk).size }
        requires is_disk { IsDisk (D.state disk) }
        requires may_stand { MayStand body (log_of (D.state disk).size) }
        ensures ok { IfOk result (λ commits. IsFormatted body commits) }
        ensures on_disk { IfOk result (λ commits. AreOnDisk commits) }
        ensures costs { IfOk result (λ commits.
            Costs format_cost (format_calls body) true (D.state disk) commits.disk) }
        ensures err { IfErr result (λ error.
            Costs format_cost (format_calls body) false (D.state disk) (D.state error.0)) }
        ensures is_disk { IfErr result (λ error. IsDisk (D.state error.0)) }
    {
        match format_slots(&mut disk, body) {
            Ok(()) => Ok(Commits {
                disk,
                number: 0,
                body,
                unfinished: None,
            }),
            Err(failed) => Err((disk, failed)),
        }
    }

    /// The commits of a device of at least 4,096 bytes (a condition) that was stopped, or of one of which
    /// only the program was: the last one is what the device reads as. The device is a disk (a condition,
    /// which its `len` tells).
    ///
    /// It is synced first. Where the other slots are not as between two commits they are mended: the next one
    /// is closed, and a newer body of the third is filled with zeros. Where they are, the device is not
    /// written, even if a call fails. Whenever the device stops while nothing was pending on it before, it
    /// reads as the same commit, with the same bytes past the slots.
    ///
    /// An error comes with the device. `NoSlot`, with the sectors of its log, comes where no slot is open;
    /// nothing but a sync was done then. `DeviceFault` comes where a call of the device failed; it may be
    /// loaded again.
    pub fn load(mut disk: D) -> Result<Commits<D>, (D, LoadError)>
        requires size { 4096 ≤ (D.state disk).size }
        requires is_disk { IsDisk (D.state disk) }
        ensures ok { IfOk result (λ commits. AreLoaded (D.state disk) commits) }
        ensures on_disk { IfOk result (λ commits. AreOnDisk commits) }
        ensures costs { IfOk result (λ commits. MakesAtMost load_cost true (D.state disk) commits.disk) }
        ensures crash_safe { IfOk result (λ commits. IsCrashSafeLoad (D.state disk) commits.disk) }
        ensures settled { IfOk result (λ commits. LeavesSettled (D.state disk) commits.disk) }
        ensures err { IfErr result (λ error. FailsToLoad error.1 (D.state disk) (D.state error.0)) }
        ensures err_crash_safe { IfErr result (λ error. IsCrashSafeLoad (D.state disk) (D.state error.0)) }
        ensures err_settled { IfErr result (λ error. LeavesSettled (D.state disk) (D.state error.0)) }
        ensures is_disk { IfErr result (λ error. IsDisk (D.state error.0)) }
    {
        match load_slots(&mut disk) {
            Ok((body, number)) => Ok(Commits {
                disk,
                number,
                body,
                unfinished: None,
            }),
            Err(error) => Err((disk, error)),
        }
    }

    /// Commits this body, which may stand for the device's log (a condition), under the next number; the
    /// number of the last commit is below 2^64 - 2 (a condition). A second half that was left is made first.
    ///
    /// Whenever the device stops it reads as the last commit, as the one that was left, or as this one; after
    /// `Ok`, as this one. `Failed` comes where a call of the device failed. A commit whose first half failed
    /// is begun anew by the next call; where its second half failed it is left, and the next call makes that
    /// first.
    pub fn commit(&mut self, body: CommitBody) -> Result<(), Failed>
        requires number { self.old.number < 2 ^ 64 - 2 }
        requires may_stand { MayStand body (log_of self.old.disk.size) }
        ensures ok { OnOk result (IsCommitted body self.old self.new) }
        ensures err { OnErr result (FailsToCommit body self.old self.new) }
        ensures crash_safe { IsCrashSafeCommit body self.old self.new }
        ensures log_area { KeepsLogArea self.old.disk.moments self.new.disk.moments }
        ensures costs { Costs (commit_cost self.old.unfinished)
            (commit_calls self.old.number self.old.unfinished body) (is_ok result) self.old.disk
            self.new.disk }
        ensures on_disk { AreOnDisk self.new }
    {
        self.finish()?;
        self.begin(body)?;
        self.finish()
    }

    // Makes the second half that was left, if one was.
    fn finish(&mut self) -> Result<(), Failed>
        ensures ok { OnOk result (IsFinished self.old self.new) }
        ensures err { OnErr result (IsAsBefore self.old self.new) }
        ensures crash_safe { LeavesSince (IsLast self.old) self.old.disk self.new.disk }
        ensures stands { OnOk result (LeavesNow (IsCommit self.new.number self.new.body) self.new.disk) }
        ensures costs { Costs (finish_cost self.old.unfinished)
            (finish_calls self.old.number self.old.unfinished) (is_ok result) self.old.disk
            self.new.disk }
        ensures synced { OnOk result (
            IfSome self.old.unfinished (λ more. HoldsNow IsSynced self.new.disk.moments)) }
        ensures log_area { KeepsLogAreaSince self.old.disk.moments self.new.disk.moments }
        ensures on_disk { AreOnDisk self.new }
    {
        let Some(body) = self.unfinished else {
            return Ok(());
        };
        open_and_sync(&mut self.disk, self.number)?;
        self.number += 1;
        self.body = body;
        self.unfinished = None;
        Ok(())
    }

    // Makes the first half of the next commit, where no second half is left.
    fn begin(&mut self, body: CommitBody) -> Result<(), Failed>
        requires number { self.old.number + 1 < 2 ^ 64 }
        requires none { self.old.unfinished ≡ None }
        requires may_stand { MayStand body (log_of self.old.disk.size) }
        ensures ok { OnOk result (IsBegun body self.old self.new) }
        ensures err { OnErr result (IsAsBefore self.old self.new) }
        ensures crash_safe { LeavesSince (IsCommit self.old.number self.old.body) self.old.disk
            self.new.disk }
        ensures costs { Costs first_half_cost (first_half_calls self.old.number body) (is_ok result)
            self.old.disk self.new.disk }
        ensures log_area { KeepsLogAreaSince self.old.disk.moments self.new.disk.moments }
        ensures durable { OnOk result (MakesLogAreaDurable self.old.disk.moments self.new.disk.moments) }
        ensures on_disk { AreOnDisk self.new }
    {
        write_body_and_close(&mut self.disk, self.number, &body)?;
        self.unfinished = Some(body);
        Ok(())
    }

    /// The number of the last commit made.
    pub fn number(&self) -> u64
        ensures number { result ≡ self.now.number }
        ensures on_disk { AreOnDisk self.now }
    {
        self.number
    }

    /// The body of the last commit made.
    pub fn body(&self) -> CommitBody
        ensures body { result ≡ self.now.body }
        ensures may_stand { MayStand result (log_of self.now.disk.size) }
    {
        self.body
    }

    /// The sectors of the device's log, which are the whole ones from byte 4,096 on.
    pub fn log(&self) -> u64
        ensures log { result ≡ log_of self.now.disk.size }
        ensures on_disk { AreOnDisk self.now }
    {
        log_of(self.disk.len())
    }

    /// Reads the bytes of the device from `at` on into the whole of `buf`. The range lies inside the device
    /// (a condition). `Failed` comes where the device could not be read; any bytes stand in `buf` then.
    pub fn read(&mut self, at: u64, buf: &mut [u8]) -> Result<(), Failed>
        requires { at + length buf.old ≤ self.old.disk.size }
        ensures ok { OnOk result (
            HoldsNow (λ now. buf.new ≡ take (length buf.old) (drop at now.bytes))
            self.old.disk.moments) }
        ensures same { IsAsBefore self.old self.new }
        ensures moments { self.new.disk.moments ≡ self.old.disk.moments }
        ensures costs { MakesCalls read_cost (is_ok result) self.old.disk self.new.disk }
        ensures blown { PassesNone self.old.disk.budget
            → FailsAlone (is_ok result) self.old.disk self.new.disk }
        ensures on_disk { AreOnDisk self.new }
    {
        self.disk.read(at, buf)
    }

    /// Writes the whole of `piece` to the device from `at` on, which lies past the slots, from byte 4,096 on
    /// (a condition). The range lies inside the device (a condition). `Failed` comes where the device could
    /// not be written; any bytes may stand in the range then. Whenever the device stops it reads as before.
    pub fn write(&mut self, at: u64, piece: &[u8]) -> Result<(), Failed>
        requires log_area { 4096 ≤ at }
        requires inside { at + length piece.now ≤ self.old.disk.size }
        ensures ok { OnOk result (
            self.new.disk.moments ≡ moments_after (after_write at piece.now) self.old.disk.moments) }
        ensures err { OnErr result (
            FailsToWrite at (length piece.now) self.old.disk.moments self.new.disk.moments) }
        ensures same { IsAsBefore self.old self.new }
        ensures crash_safe { LeavesSince (IsLast self.old) self.old.disk self.new.disk }
        ensures costs { Costs (write_cost (length piece.now)) (Write at piece.now ∷ []) (is_ok result)
            self.old.disk self.new.disk }
        ensures blown { PassesNone self.old.disk.budget
            → FailsAlone (is_ok result) self.old.disk self.new.disk }
        ensures on_disk { AreOnDisk self.new }
    {
        self.disk.write(at, piece)
    }

    /// The device.
    pub fn disk(&self) -> &D
        ensures { D.state result.now ≡ self.now.disk }
    {
        &self.disk
    }

    /// Lends the device to a closure, as one that takes room in it or sets its fuse. The closure may be
    /// called, and changes nothing that the device tells but the calls that it still passes (conditions). Its
    /// answer is returned.
    pub fn with_disk<R, F: FnOnce(&mut D) -> R>(&mut self, change: F) -> R
        requires callable { F.IsAlwaysCallable change }
        requires keeps { (disk left : D) (answer : R)
            → FnOnceReturnsAtMut F.FnOnce change disk answer left
            → ChangesBudgetAlone (D.state disk) (D.state left) }
        ensures rest { self.new ≡ with_budget self.new.disk.budget self.old }
        ensures answer { (disk left : D) × (D.state disk ≡ self.old.disk) × (D.state left ≡ self.new.disk) ×
            FnOnceReturnsAtMut F.FnOnce change disk result left }
    {
        change(&mut self.disk)
    }

    /// Gives the device back.
    pub fn into_disk(self) -> D
        ensures same { D.state result ≡ self.disk }
        ensures is_disk { IsDisk (D.state result) }
        ensures size { 4096 ≤ (D.state result).size }
    {
        self.disk
    }
}
