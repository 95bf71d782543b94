ghost use Rattle.std.specs.Prelude.{◌≡◌, ℕ, ◌+◌, ◌<◌, true, false, IsTrue};
ghost use Rattle.std.specs.Fn.{FnOnceReturnsAtMut};
ghost use Rattle.lsvd_base.specs.Limits.{is_within_limits};
ghost use Rattle.lsvd_device.specs.Device.{IsDisk};
ghost use Rattle.commit_slot.specs.Lending.{ChangesBudgetAlone};
ghost use Rattle.cache_log.specs.Committed.{IsOnDisk};
ghost use Rattle.object_uploads.specs.Image.{TellAlike};
ghost use Rattle.stopped_volume.specs.Device.{CacheOwner};
ghost use Rattle.stopped_volume.specs.Store.{TellsBytes};
ghost use Rattle.plain_disk.specs.State.{PlainState};
ghost use Rattle.refine_log.specs.Fuses.{fuse_in};
ghost use Rattle.vol_core.specs.Volume.{volume_of, with_budget_of};
ghost use Rattle.vol_core.specs.declared.event.Event.TheVariants as events;
ghost use Rattle.vol_core.specs.Shows.{Shows, IsVolume, IsSound, IsSmall, max_number};
ghost use Rattle.vol_core.specs.Step.{passing, HasItsReceipt, StepOf, CountedStep};
ghost use Rattle.vol_core.specs.Stops.{HasOwnCommits, KeepsNow};
ghost use Rattle.vol_core.specs.Calls.{IsReadyForStep, event_of};

use crate::collecting::{drop_plan, plan_copy, seal_copy};
use crate::committing::commit;
use crate::entering::enter;
use crate::event::Event;
use crate::putting::{job_done, job_failed, seal, seal_checkpoint, take_job};
use crate::removing::{remove_done, remove_failed, take_remove};
use crate::reply::Reply;
use cache_log::CacheLog;
use gc_copier::{Copied, GcPlan};
use lsvd_base::{Entry, Geometry};
use lsvd_device::Disk;
use lsvd_fault::Failed;
use lsvd_objstore::Receipt;
use obj_log::ObjLog;
use object_uploads::Job;
use read_plan::{LookError, Plan, look, release};
use std::alloc::Global;
use std::marker::Model;
use uuid::Uuid;

/// A volume: its entries and objects, the log on its cache device `D`, and the plan of a copy that is out. A
/// store gives receipts `R` for its objects.
#[derive(Drop)]
pub struct Volume<D: Disk, R: Receipt> {
    alloc: Global,
    objects: ObjLog<R>,
    log: CacheLog<D>,
    plan: Option<GcPlan<R>>,
    steps: u64,
}

impl<D: Disk, R: Receipt> Model for Volume<D, R> {
    ghost use Rattle.vol_core.specs.Volume.{SteppedVolume, volume_with};
    ghost use Rattle.vol_core.specs.Shows.{IsVolume};

    ghost Value = { SteppedVolume };

    ghost view = { λ v. record { volume = volume_with v.objects v.log v.plan; steps = v.steps } };

    ghost invariant = { λ v. IsVolume (record {
      volume = volume_with v.objects v.log v.plan;
      steps = v.steps;
    }) };
}

impl<D: Disk, R: Receipt> Volume<D, R> {
    /// The volume of these entries and objects and this log, which together show a plain volume, and whose
    /// numbers are below 2^60, with no object pinned (conditions). It has made no step, and no plan of a copy
    /// is out.
    pub fn new(alloc: Global, objects: ObjLog<R>, log: CacheLog<D>) -> Volume<D, R>
        requires shows { (plain : PlainState) × Shows (volume_of objects log) plain }
        requires small { IsSmall (volume_of objects log) 0 }
        ensures { result ≡ record { volume = volume_of objects log; steps = 0 } }
    {
        Volume {
            alloc,
            objects,
            log,
            plan: None,
            steps: 0,
        }
    }

    /// One step: what the event asks for. Fewer than 2^60 were made, and a receipt that comes with a put that
    /// is done stands for just the bytes of the job (conditions).
    ///
    /// The reply is that of the plain volume which this one shows, and this one then shows what that becomes.
    /// A device that fails a call without being told to stop does as one whose fuse ends there. Want of
    /// memory comes where the plain volume does not refuse the event, and then the volume shows what it
    /// showed. A step makes at most the device calls of one commit and one record, or one read for each run
    /// of sectors that a write past the frontier's end wrote last; `Fault` is told exactly where one of them
    /// failed, which the device counted once. Where the device has room for them, as many writes are pending
    /// on it after the step as on the plain volume's cache, if so many were before. A step adds an entry and
    /// an object at most, makes two commits at most, and pins each object once at most. The plan of a copy
    /// that is out changes as the reply tells. What is so of every volume is told of the one before the step,
    /// with the order of its log and its uploads and with what its receipts tell, and of the one after it.
    pub fn step(&mut self, event: Event<R>) -> Reply<R>
        requires steps { self.old.steps < max_number }
        requires receipt { HasItsReceipt R.state event }
        ensures { CountedStep R.state event result self.old self.new }
    {
        self.count_step();
        self.answer(event)
    }

    /// How many steps it made since it was mounted.
    pub fn steps(&self) -> u64
        ensures { result ≡ self.now.steps }
    {
        self.steps
    }

    /// Its geometry, which no step changes. Each size keeps its limits.
    pub fn geometry(&self) -> Geometry
        ensures is { result ≡ self.now.volume.objects.batch.geometry }
        ensures limits { IsTrue (is_within_limits result) }
    {
        self.objects.batch().geometry()
    }

    /// The uuid of the volume, which no step changes.
    pub fn uuid(&self) -> Uuid
        ensures { result ≡ self.now.volume.objects.uploads.uuid }
    {
        self.objects.uploads().uuid()
    }

    /// What is so of every volume, as facts for the proofs of callers: it shows a plain volume, its numbers
    /// are bounded by its steps, its log and its uploads are in order, and where all receipts tell bytes,
    /// those that it knows do. Nothing is done.
    pub fn is_volume(&self)
        ensures shown { IsVolume self.now }
        ensures order { IsSound self.now.volume }
        ensures told { TellsBytes R.state → TellAlike true self.now.volume.objects.uploads.queue }
    {
        self.log.on_disk();
        self.objects.uploads().frontier();
        self.objects.uploads().tell_alike();
    }

    /// The device.
    pub fn disk(&self) -> &D
        ensures { D.state result.now ≡ self.now.volume.log.commits.disk }
    {
        self.log.disk()
    }

    /// The device, which is a disk. What is not on it or in the store is let go. The volume was one that
    /// shows a plain volume, and, where its commits are its own, whatever a stop leaves of the device now
    /// reads as the last commit, or as the unfinished one.
    pub fn into_disk(self) -> D
        ensures same { D.state result ≡ self.volume.log.commits.disk }
        ensures is_disk { IsDisk (D.state result) }
        ensures is_volume { IsVolume self }
        ensures on_disk { IsOnDisk self.volume.log }
        ensures stands { (owner : CacheOwner) → HasOwnCommits owner self.volume → KeepsNow owner self.volume }
    {
        let Volume { objects, log, .. } = self;
        drop(objects);
        log.into_disk()
    }

    /// Lends the device to a closure, which may be called, and changes no more of it than the calls that it
    /// still passes and its room (conditions). What the closure answers is answered. The volume shows what it
    /// showed, but for these calls.
    pub fn with_disk<T, F: FnOnce(&mut D) -> T>(&mut self, change: F) -> T
        requires callable { F.IsAlwaysCallable change }
        requires keeps { (disk left : D) (answer : T)
            → FnOnceReturnsAtMut F.FnOnce change disk answer left
            → ChangesBudgetAlone (D.state disk) (D.state left) }
        ensures rest { self.new ≡ record self.old {
          volume = with_budget_of self.new.volume.log.commits.disk
              self.old.volume;
        } }
        ensures shows { (plain : PlainState) → Shows self.old.volume plain
            → Shows self.new.volume (passing (fuse_in self.new.volume.log.commits.disk.budget) plain) }
        ensures answer { (disk left : D)
            × (D.state disk ≡ self.old.volume.log.commits.disk)
            × (D.state left ≡ self.new.volume.log.commits.disk)
            × FnOnceReturnsAtMut F.FnOnce change disk result left }
    {
        self.log.with_disk(change)
    }

    // Counts a step, of which fewer than 2^60 were made (a condition).
    fn count_step(&mut self)
        requires { self.old.steps < max_number }
        ensures was { IsVolume self.old }
        ensures told { TellsBytes R.state → TellAlike true self.old.volume.objects.uploads.queue }
        ensures ready { IsReadyForStep self.new }
        ensures counted { self.new ≡ record self.old { steps = self.old.steps + 1 } }
    {
        self.is_volume();
        self.steps += 1;
    }

    // Does what an event asks for.
    fn answer(&mut self, event: Event<R>) -> Reply<R>
        requires ready { IsReadyForStep self.old }
        requires receipt { HasItsReceipt R.state event }
        ensures step { StepOf R.state event result self.old.volume self.new.volume }
        ensures steps { self.new.steps ≡ self.old.steps }
    {
        match event {
            Event::Write { lba, body } => self.enter(Entry::Write { lba, body }),
            Event::Zero { lba, sectors } => self.enter(Entry::Zero { lba, sectors }),
            Event::Flush => self.flush(),
            Event::Look { lba, sectors } => self.look(lba, sectors),
            Event::Release(plan) => self.release(plan),
            Event::Seal => self.seal(),
            Event::TakeJob => self.take_job(),
            Event::JobDone { job, receipt } => self.job_done(job, receipt),
            Event::JobFailed(job) => self.job_failed(job),
            Event::SealCheckpoint => self.seal_checkpoint(),
            Event::TakeRemove => self.take_remove(),
            Event::RemoveDone { number } => self.remove_done(number),
            Event::RemoveFailed(receipt) => self.remove_failed(receipt),
            Event::PlanCopy => self.plan_copy(),
            Event::SealCopy(copied) => self.seal_copy(copied),
            Event::DropPlan => self.drop_plan(),
            Event::Status => self.status(),
        }
    }

    // Enters an entry.
    fn enter(&mut self, entry: Entry) -> Reply<R>
        requires { IsReadyForStep self.old }
        ensures step { StepOf R.state (event_of entry) result self.old.volume self.new.volume }
        ensures steps { self.new.steps ≡ self.old.steps }
    {
        let reply = enter(&mut self.objects, &mut self.log, entry);
        self.log.on_disk();
        reply
    }

    // Commits all entries so far, with the log's tail at the frontier's end.
    fn flush(&mut self) -> Reply<R>
        requires { IsReadyForStep self.old }
        ensures step { StepOf R.state events.Flush result self.old.volume self.new.volume }
        ensures steps { self.new.steps ≡ self.old.steps }
    {
        match commit(&mut self.log, self.objects.uploads().end()) {
            Ok(()) => Reply::Flushed(self.objects.batch().next_seq()),
            Err(Failed) => Reply::Fault,
        }
    }

    // Plans a read.
    fn look(&mut self, lba: u64, sectors: u64) -> Reply<R>
        requires { IsReadyForStep self.old }
        ensures step { StepOf R.state (events.Look lba sectors) result self.old.volume self.new.volume }
        ensures steps { self.new.steps ≡ self.old.steps }
    {
        let alloc = self.alloc;
        if !self.geometry().may_transfer(lba, sectors) {
            return Reply::Range;
        }
        match look(alloc, &mut self.objects, &mut self.log, lba, sectors) {
            Ok(plan) => Reply::Planned(plan),
            Err(LookError::Fault) => Reply::Fault,
            Err(LookError::OutOfMemory) => Reply::OutOfMemory,
        }
    }

    // Gives the plan of a read back.
    fn release(&mut self, plan: Plan<R>) -> Reply<R>
        requires { IsReadyForStep self.old }
        ensures step { StepOf R.state (events.Release plan) result self.old.volume self.new.volume }
        ensures steps { self.new.steps ≡ self.old.steps }
    {
        match release(&mut self.objects, plan) {
            Ok(()) => Reply::Released,
            Err(plan) => Reply::NotReleased(plan),
        }
    }

    // Seals the next data object.
    fn seal(&mut self) -> Reply<R>
        requires { IsReadyForStep self.old }
        ensures step { StepOf R.state events.Seal result self.old.volume self.new.volume }
        ensures steps { self.new.steps ≡ self.old.steps }
    {
        seal(self.alloc, &mut self.objects)
    }

    // Begins the put of the lowest ready object.
    fn take_job(&mut self) -> Reply<R>
        requires { IsReadyForStep self.old }
        ensures step { StepOf R.state events.TakeJob result self.old.volume self.new.volume }
        ensures steps { self.new.steps ≡ self.old.steps }
    {
        take_job(&mut self.objects)
    }

    // Counts a put as acknowledged.
    fn job_done(&mut self, job: Job, receipt: R) -> Reply<R>
        requires ready { IsReadyForStep self.old }
        requires receipt { HasItsReceipt R.state (events.JobDone job receipt) }
        ensures step { StepOf R.state (events.JobDone job receipt) result self.old.volume self.new.volume }
        ensures steps { self.new.steps ≡ self.old.steps }
    {
        job_done(&mut self.objects, job, receipt)
    }

    // Makes the object of a put that failed ready again.
    fn job_failed(&mut self, job: Job) -> Reply<R>
        requires { IsReadyForStep self.old }
        ensures step { StepOf R.state (events.JobFailed job) result self.old.volume self.new.volume }
        ensures steps { self.new.steps ≡ self.old.steps }
    {
        job_failed(&mut self.objects, job)
    }

    // Seals a checkpoint.
    fn seal_checkpoint(&mut self) -> Reply<R>
        requires { IsReadyForStep self.old }
        ensures step { StepOf R.state events.SealCheckpoint result self.old.volume self.new.volume }
        ensures steps { self.new.steps ≡ self.old.steps }
    {
        seal_checkpoint(self.alloc, &mut self.objects)
    }

    // Begins the removal of the lowest object that may be removed.
    fn take_remove(&mut self) -> Reply<R>
        requires { IsReadyForStep self.old }
        ensures step { StepOf R.state events.TakeRemove result self.old.volume self.new.volume }
        ensures steps { self.new.steps ≡ self.old.steps }
    {
        take_remove(&mut self.objects)
    }

    // Counts an object as removed.
    fn remove_done(&mut self, number: u64) -> Reply<R>
        requires { IsReadyForStep self.old }
        ensures step { StepOf R.state (events.RemoveDone number) result self.old.volume self.new.volume }
        ensures steps { self.new.steps ≡ self.old.steps }
    {
        remove_done(&mut self.objects, number)
    }

    // Takes an object back whose removal failed.
    fn remove_failed(&mut self, receipt: R) -> Reply<R>
        requires { IsReadyForStep self.old }
        ensures step { StepOf R.state (events.RemoveFailed receipt) result self.old.volume self.new.volume }
        ensures steps { self.new.steps ≡ self.old.steps }
    {
        remove_failed(&mut self.objects, receipt)
    }

    // Plans a copy.
    fn plan_copy(&mut self) -> Reply<R>
        requires { IsReadyForStep self.old }
        ensures step { StepOf R.state events.PlanCopy result self.old.volume self.new.volume }
        ensures steps { self.new.steps ≡ self.old.steps }
    {
        plan_copy(self.alloc, &mut self.objects, &mut self.plan)
    }

    // Seals what was copied by the plan that is out.
    fn seal_copy(&mut self, copied: Copied<R>) -> Reply<R>
        requires { IsReadyForStep self.old }
        ensures step { StepOf R.state (events.SealCopy copied) result self.old.volume self.new.volume }
        ensures steps { self.new.steps ≡ self.old.steps }
    {
        seal_copy(self.alloc, &mut self.objects, &mut self.plan, copied)
    }

    // Gives up the plan that is out.
    fn drop_plan(&mut self) -> Reply<R>
        requires { IsReadyForStep self.old }
        ensures step { StepOf R.state events.DropPlan result self.old.volume self.new.volume }
        ensures steps { self.new.steps ≡ self.old.steps }
    {
        drop_plan(&mut self.objects, &mut self.plan)
    }

    // Tells the counts.
    fn status(&self) -> Reply<R>
        ensures { StepOf R.state events.Status result self.now.volume self.now.volume }
    {
        let uploads = self.objects.uploads();
        Reply::Told {
            writes: self.objects.batch().next_seq(),
            sealed: uploads.last(),
            frontier: uploads.frontier(),
            checkpoint: uploads.newest_checkpoint(),
        }
    }
}
