ghost use Rattle.std.specs.Prelude.{◌≡◌, ◌+◌, ◌*◌, ◌^◌, ◌<◌, ◌≤◌, [], true, false, is_some, length};
ghost use Rattle.std.specs.Prelude.{replicate, IsTrue, IfOk, OnOk, OnErr, Some, None};
ghost use Rattle.lsvd_base.specs.Limits.{is_within_limits};
ghost use Rattle.lsvd_device.specs.Memory.{HasRoom};
ghost use Rattle.upload_window.specs.Window.{is_started};
ghost use Rattle.plain_disk.specs.declared.event.PlainEvent.TheVariants as events;
ghost use Rattle.plain_disk.specs.State.{PlainState, created_volume};
ghost use Rattle.vol_core.specs.Step.{most_of_step};
ghost use Rattle.vol_core.specs.View.{volume_disk};
ghost use Rattle.transcript.specs.Letters.{under_way};
ghost use Rattle.replay_rig.specs.Steps.{AnswersEvent, is_counted, AnswersAsked, AnswersRead, AnswersRemoval};
ghost use Rattle.replay_rig.specs.Steps.{FailsPut};
ghost use Rattle.read_plan.specs.Plan.{GivesNoOther};
ghost use Rattle.replay_rig.specs.Puts.{is_put_out, put_of, lowest_started};
ghost use Rattle.gc_copier.specs.Copying.{IsCopyOf};
ghost use Rattle.replay_rig.specs.Crash.{IsPutAs};
ghost use Rattle.replay_rig.specs.Steps.{IsUntouched, StopsAfter, MountsKeptRig, MountsLostRig};
ghost use Rattle.replay_rig.specs.Rig.{rig_of, owner_at, ShowsPlain, IsKeptByRig};

use crate::answer::{Answer, answer_of, answer_of_seal};
use crate::crash::{
    MountedVolume, ScriptVolume, blank_disk, create_volume, land, mount_again, mount_anew,
    put_object, remove_object, stopped_device,
};
use crate::puts::Puts;
use commit_slot::LOG_START;
use gc_copier::{Copied, GcPlan, copy};
use lsvd_base::{Body, Geometry, SECTOR_BYTES};
use lsvd_device::{Fate, StoppedDisk};
use lsvd_objstore::{MemReceipt, MemStore, Receipt};
use read_cache::ReadCache;
use std::alloc::{AllocError, Global};
use std::marker::Model;
use vol_core::{Event, Plan, Reply, SealRefusal};

// The writes and syncs that a step asks for at most: those of a commit that makes first what was left of
// another, and those of a record and of the pad before it.
const STEP_CALLS: u64 = 7 + 2;

// The bytes that they write beside a record's data.
const STEP_BYTES: u64 = 512 + 3 + 2 * SECTOR_BYTES;

// How many blocks of objects a rig keeps for its reads: few, so that scripts make it let go of some.
const CACHE_BLOCKS: usize = 4;

/// A volume on a disk in memory with a fuse before it, and its store in memory, whose machine can be stopped.
///
/// Each call that changes it answers one line of a script. It has answered fewer than 2^40 (a condition), and
/// the one error is out of memory. Addresses and sizes are in sectors.
#[derive(Drop)]
pub struct Rig {
    volume: ScriptVolume,
    store: MemStore,
    /// Blocks of the objects that were read since the last mount.
    cache: ReadCache<MemReceipt>,
    /// The objects under way.
    puts: Puts,
    /// What was copied by the plan of a copy that is out.
    copied: Option<Copied<MemReceipt>>,
    /// Whether the device was told to stop since the last mount.
    is_stopping: bool,
    /// How many lines it has answered.
    lines: u64,
}

impl Model for Rig {
    ghost use Rattle.replay_rig.specs.Rig.{RigState};

    ghost Value = { RigState };

    ghost use Rattle.plain_disk.specs.State.{PlainState};
    ghost use Rattle.replay_rig.specs.Rig.{rig_of, ShowsPlain};
    ghost use Rattle.replay_rig.specs.Held.{IsHeldCopy};

    ghost view = { λ r. rig_of r.volume r.store r.puts.list r.is_stopping r.lines };

    ghost invariant = { λ r. ((plain : PlainState)
        × ShowsPlain (rig_of r.volume r.store r.puts.list r.is_stopping r.lines) plain)
        × IsHeldCopy r.volume.volume.plan r.copied };
}

impl Rig {
    /// A volume that was just created, whose geometry is within the limits (a condition). The one error is
    /// out of memory.
    pub fn new(alloc: Global, geometry: Geometry) -> Result<Rig, AllocError>
        requires { IsTrue (is_within_limits geometry) }
        ensures shows { IfOk result (λ rig. ShowsPlain rig (created_volume geometry)) }
        ensures lines { IfOk result (λ rig. rig.lines ≡ 0) }
    {
        let cache = ReadCache::new(alloc, CACHE_BLOCKS)?;
        let mut store = MemStore::new(alloc);
        let disk = blank_disk(alloc, LOG_START + SECTOR_BYTES * geometry.log)?;
        let volume = create_volume(alloc, disk, &mut store, geometry)?;
        Ok(Rig {
            volume,
            store,
            cache,
            puts: Puts::new(alloc),
            copied: None,
            is_stopping: false,
            lines: 0,
        })
    }

    /// Writes `sectors` sectors of one byte. No data is made for a request that is out of range.
    pub fn write(
        &mut self,
        alloc: Global,
        lba: u64,
        sectors: u64,
        byte: u8,
    ) -> Result<Answer, AllocError>
        requires { self.old.lines < 2 ^ 40 }
        ensures ok { IfOk result (λ answer. AnswersEvent (events.Write lba (replicate (512 * sectors) byte))
            answer self.old self.new) }
        ensures lines { self.new.lines ≤ self.old.lines + 1 }
    {
        if !self.volume.geometry().may_transfer(lba, sectors) {
            self.lines += 1;
            return Ok(Answer::Range);
        }
        let body = Body::filled(alloc, sectors, byte)?;
        self.answer(Event::Write { lba, body })
    }

    /// Puts zeros at `sectors` sectors.
    pub fn zero(&mut self, lba: u64, sectors: u64) -> Result<Answer, AllocError>
        requires { self.old.lines < 2 ^ 40 }
        ensures ok { IfOk result (λ answer. AnswersEvent (events.Zero lba sectors) answer self.old self.new) }
        ensures lines { self.new.lines ≤ self.old.lines + 1 }
    {
        self.answer(Event::Zero { lba, sectors })
    }

    /// Reads `sectors` sectors: looks, fetches, and gives the plan back.
    pub fn read(&mut self, alloc: Global, lba: u64, sectors: u64) -> Result<Answer, AllocError>
        requires { self.old.lines < 2 ^ 40 }
        ensures ok { IfOk result (λ answer. AnswersRead lba sectors answer self.old self.new) }
        ensures lines { self.new.lines ≤ self.old.lines + 1 }
    {
        self.lines += 1;
        let mut plan = match self.volume.step(Event::Look { lba, sectors }) {
            Reply::Planned(plan) => plan,
            reply => return answer_of(reply),
        };
        let outcome = fetched(alloc, &mut plan, &mut self.store, &mut self.cache);
        drop(self.volume.step(Event::Release(plan)));
        let bytes = outcome?;
        Ok(Answer::Sectors(bytes))
    }

    /// Makes each entry so far durable.
    pub fn flush(&mut self) -> Result<Answer, AllocError>
        requires { self.old.lines < 2 ^ 40 }
        ensures ok { IfOk result (λ answer. AnswersEvent events.Flush answer self.old self.new) }
        ensures lines { self.new.lines ≤ self.old.lines + 1 }
    {
        self.answer(Event::Flush)
    }

    /// Seals the next object.
    pub fn seal(&mut self) -> Result<Answer, AllocError>
        requires { self.old.lines < 2 ^ 40 }
        ensures ok { IfOk result (λ answer. AnswersEvent events.Seal answer self.old self.new) }
        ensures lines { self.new.lines ≤ self.old.lines + 1 }
    {
        self.answer(Event::Seal)
    }

    /// Seals a checkpoint.
    pub fn seal_checkpoint(&mut self) -> Result<Answer, AllocError>
        requires { self.old.lines < 2 ^ 40 }
        ensures ok { IfOk result (λ answer. AnswersEvent events.SealCheckpoint answer self.old self.new) }
        ensures lines { self.new.lines ≤ self.old.lines + 1 }
    {
        self.answer(Event::SealCheckpoint)
    }

    /// Removes the lowest object that may be removed from the store.
    pub fn remove(&mut self) -> Result<Answer, AllocError>
        requires { self.old.lines < 2 ^ 40 }
        ensures ok { IfOk result (λ answer. AnswersRemoval answer self.old self.new) }
        ensures lines { self.new.lines ≤ self.old.lines + 1 }
    {
        self.lines += 1;
        let receipt = match self.volume.step(Event::TakeRemove) {
            Reply::Removing(receipt) => receipt,
            reply => {
                drop(reply);
                return Ok(Answer::Nothing);
            }
        };
        let number = receipt.name().number;
        remove_object(&mut self.store, &receipt);
        drop(receipt);
        drop(self.volume.step(Event::RemoveDone { number }));
        Ok(Answer::Gone(number))
    }

    /// Begins the put of the lowest ready object.
    pub fn begin_put(&mut self) -> Result<Answer, AllocError>
        requires { self.old.lines < 2 ^ 40 }
        ensures ok { IfOk result (λ answer. AnswersEvent events.TakeJob answer self.old self.new) }
        ensures lines { self.new.lines ≤ self.old.lines + 1 }
    {
        self.lines += 1;
        self.puts.reserve()?;
        let job = match self.volume.step(Event::TakeJob) {
            Reply::Taken(job) => job,
            reply => {
                drop(reply);
                return Ok(Answer::Nothing);
            }
        };
        let number = job.name().number;
        self.puts.begin(job);
        Ok(Answer::Put(number))
    }

    /// Whether the put of this number is out.
    pub fn is_out(&self, number: u64) -> bool
        ensures { (plain : PlainState) → ShowsPlain self.now plain
            → result ≡ is_started number plain.window.objects }
    {
        self.puts.is_out(number)
    }

    /// The lowest number whose put is out, if one is.
    pub fn lowest_out(&self) -> Option<u64>
        ensures { (plain : PlainState) → ShowsPlain self.now plain
            → result ≡ lowest_started plain.window.objects }
    {
        self.puts.lowest_out()
    }

    /// Makes the put of this number, which is out (a condition).
    pub fn finish_put(&mut self, alloc: Global, number: u64) -> Result<Answer, AllocError>
        requires lines { self.old.lines < 2 ^ 40 }
        requires out { (plain : PlainState) → ShowsPlain self.old plain
            → IsTrue (is_started number plain.window.objects) }
        ensures ok { IfOk result (λ answer. AnswersEvent (events.JobDone (Some number)) answer self.old
            self.new) }
        ensures lines { self.new.lines ≤ self.old.lines + 1 }
    {
        self.lines += 1;
        let receipt = put_out(alloc, &self.puts, &mut self.store, number)?;
        let job = self.puts.finish(number);
        answer_of(self.volume.step(Event::JobDone { job, receipt }))
    }

    /// Fails the put of this number, which is out (a condition).
    pub fn fail_put(&mut self, number: u64) -> Result<Answer, AllocError>
        requires lines { self.old.lines < 2 ^ 40 }
        requires out { (plain : PlainState) → ShowsPlain self.old plain
            → IsTrue (is_started number plain.window.objects) }
        ensures ok { IfOk result (λ answer. FailsPut number answer self.old self.new) }
        ensures lines { self.new.lines ≤ self.old.lines + 1 }
    {
        self.lines += 1;
        let job = self.puts.fail(number)?;
        drop(self.volume.step(Event::JobFailed(job)));
        Ok(Answer::Failed(number))
    }

    /// Plans a copy, and copies what it takes out of the store.
    pub fn plan_copy(&mut self, alloc: Global) -> Result<Answer, AllocError>
        requires { self.old.lines < 2 ^ 40 }
        ensures ok { IfOk result (λ answer. AnswersEvent events.PlanCopy answer self.old self.new) }
        ensures lines { self.new.lines ≤ self.old.lines + 1 }
    {
        self.lines += 1;
        let plan = match self.volume.step(Event::PlanCopy) {
            Reply::Copying(plan) => plan,
            reply => return answer_of(reply),
        };
        match copied_by(alloc, &plan, &mut self.store) {
            Ok(copied) => {
                self.copied = Some(copied);
                Ok(Answer::Copied(plan.sectors()))
            }
            Err(error) => {
                drop(self.volume.step(Event::DropPlan));
                Err(error)
            }
        }
    }

    /// Whether the plan of a copy is out.
    pub fn has_copy(&self) -> bool
        ensures { (plain : PlainState) → ShowsPlain self.now plain → result ≡ is_some plain.plan }
    {
        self.copied.is_some()
    }

    /// Seals what was copied by the plan that is out (a condition).
    pub fn seal_copy(&mut self) -> Result<Answer, AllocError>
        requires lines { self.old.lines < 2 ^ 40 }
        requires out { (plain : PlainState) → ShowsPlain self.old plain → IsTrue (is_some plain.plan) }
        ensures ok { IfOk result (λ answer. AnswersEvent (events.SealCopy true) answer self.old self.new) }
        ensures lines { self.new.lines ≤ self.old.lines + 1 }
    {
        self.lines += 1;
        let copied = self.copied.take().unwrap();
        match self.volume.step(Event::SealCopy(copied)) {
            Reply::Sealed(number) => Ok(Answer::Sealed(number)),
            Reply::NotSealed { copied, why } => {
                self.copied = Some(copied);
                answer_of_seal(why)
            }
            _ => unreachable!(),
        }
    }

    /// Gives up the plan of a copy that is out (a condition).
    pub fn drop_plan(&mut self) -> Result<Answer, AllocError>
        requires lines { self.old.lines < 2 ^ 40 }
        requires out { (plain : PlainState) → ShowsPlain self.old plain → IsTrue (is_some plain.plan) }
        ensures ok { IfOk result (λ answer. AnswersEvent events.DropPlan answer self.old self.new) }
        ensures lines { self.new.lines ≤ self.old.lines + 1 }
    {
        self.lines += 1;
        self.copied = None;
        answer_of(self.volume.step(Event::DropPlan))
    }

    /// Asks for the counts.
    pub fn status(&mut self) -> Result<Answer, AllocError>
        requires { self.old.lines < 2 ^ 40 }
        ensures ok { IfOk result (λ answer. AnswersEvent events.Status answer self.old self.new) }
        ensures lines { self.new.lines ≤ self.old.lines + 1 }
    {
        self.answer(Event::Status)
    }

    // Answers an event that hands nothing out but counts, with room on the device for what it may ask for.
    fn answer(&mut self, event: Event<MemReceipt>) -> Result<Answer, AllocError>
        requires counted { is_counted event ≡ true }
        requires lines { self.old.lines < 2 ^ 40 }
        ensures ok { IfOk result (λ answer. AnswersAsked event answer self.old self.new) }
        ensures lines { self.new.lines ≤ self.old.lines + 1 }
    {
        self.lines += 1;
        match make_room(&mut self.volume, &event) {
            Ok(()) => answer_of(self.volume.step(event)),
            Err(error) => {
                drop(event);
                Err(error)
            }
        }
    }

    /// Whether its device was told to stop since the last mount.
    pub fn is_stopping(&self) -> bool
        ensures { (plain : PlainState) → ShowsPlain self.now plain → result ≡ is_some plain.cache.left }
    {
        self.is_stopping
    }

    /// Lets the device pass `calls` calls more, and fail each later one. It was not told so since the last
    /// mount (a condition).
    pub fn stop(&mut self, calls: u64) -> Answer
        requires lines { self.old.lines < 2 ^ 40 }
        requires once { (plain : PlainState) → ShowsPlain self.old plain → plain.cache.left ≡ None }
        ensures answer { result ≡ Answer.Stopping calls }
        ensures stops { StopsAfter calls self.old self.new }
        ensures lines { self.new.lines ≤ self.old.lines + 1 }
    {
        self.lines += 1;
        self.volume.with_disk(|disk| disk.set_fuse(Some(calls)));
        self.is_stopping = true;
        Answer::Stopping(calls)
    }

    /// How many writes were made since the last sync.
    pub fn pending(&self) -> usize
        ensures { (plain : PlainState) → ShowsPlain self.now plain → result ≡ length plain.cache.pending }
    {
        self.volume.disk().pending()
    }

    /// How many objects are under way.
    pub fn under_way(&self) -> usize
        ensures { (plain : PlainState) → ShowsPlain self.now plain
            → result ≡ length (under_way plain.window) }
    {
        self.puts.len()
    }

    /// Stops the machine, where each write that was not synced meets its fate, and each object under way with
    /// the letter `y` has landed, and mounts the volume with its cache. The fates are as many as `pending`
    /// says (a condition).
    pub fn crash_keep(
        mut self,
        alloc: Global,
        fates: &[Fate],
        letters: &[u8],
    ) -> Result<(Rig, Answer), AllocError>
        requires lines { self.lines < 2 ^ 40 }
        requires fates { (plain : PlainState) → ShowsPlain self plain
            → length fates.now ≡ length plain.cache.pending }
        ensures ok { IfOk result (λ made. MountsKeptRig fates.now letters.now made.1 self made.0) }
        ensures lines { IfOk result (λ made. made.0.lines ≤ self.lines + 1) }
    {
        let cache = ReadCache::new(alloc, CACHE_BLOCKS)?;
        self.volume.is_volume();
        let disk = stopped_device(alloc, self.volume, fates)?;
        land(alloc, &mut self.store, self.puts.as_slice(), letters)?;
        let mounted = mount_again(alloc, disk, &mut self.store)?;
        Ok(go_on(alloc, mounted, self.store, cache, self.lines))
    }

    /// The same without its cache, on a new device of the same length.
    pub fn crash_lost(mut self, alloc: Global, letters: &[u8]) -> Result<(Rig, Answer), AllocError>
        requires { self.lines < 2 ^ 40 }
        ensures ok { IfOk result (λ made. MountsLostRig letters.now made.1 self made.0) }
        ensures lines { IfOk result (λ made. made.0.lines ≤ self.lines + 1) }
    {
        let cache = ReadCache::new(alloc, CACHE_BLOCKS)?;
        let log = self.volume.geometry().log;
        drop(self.volume);
        let disk = blank_disk(alloc, LOG_START + SECTOR_BYTES * log)?;
        land(alloc, &mut self.store, self.puts.as_slice(), letters)?;
        let mounted = mount_anew(alloc, disk, &mut self.store)?;
        Ok(go_on(alloc, mounted, self.store, cache, self.lines))
    }

    /// What is so of every volume with its store, as a fact for the proofs of callers. Nothing is done.
    pub fn stands(&self)
        ensures { (plain : PlainState) → (shows : ShowsPlain self.now plain)
            → IsKeptByRig (owner_at shows.epoch) self.now plain }
    {
        self.volume.is_volume();
    }
}

// What a plan reads, through a cache. A store in memory fails no call.
fn fetched(
    alloc: Global,
    plan: &mut Plan<MemReceipt>,
    store: &mut MemStore,
    cache: &mut ReadCache<MemReceipt>,
) -> Result<Vec<u8>, AllocError>
    ensures gives { IfOk result (λ bytes. GivesNoOther plan.old bytes.items) }
    ensures objects { plan.new.objects ≡ plan.old.objects }
    ensures store { store.new ≡ store.old }
{
    match plan.fetch(alloc, store, cache) {
        Ok(bytes) => Ok(bytes),
        Err(_) => Err(AllocError),
    }
}

// What the plan of a copy takes. The one error is out of memory: a store in memory fails no call.
fn copied_by(
    alloc: Global,
    plan: &GcPlan<MemReceipt>,
    store: &mut MemStore,
) -> Result<Copied<MemReceipt>, AllocError>
    ensures copied { IfOk result (IsCopyOf plan.now) }
    ensures store { store.new ≡ store.old }
{
    match copy(alloc, plan, store) {
        Ok(copied) => Ok(copied),
        Err(_) => Err(AllocError),
    }
}

// Puts the object of this number, whose put is out (a condition), into the store. The one error is out of
// memory, after which nothing changed.
fn put_out(
    alloc: Global,
    puts: &Puts,
    store: &mut MemStore,
    number: u64,
) -> Result<MemReceipt, AllocError>
    requires { is_put_out (put_of number puts.now.list) ≡ true }
    ensures ok { IfOk result (IsPutAs number puts.now.list store.old store.new) }
    ensures err { OnErr result (store.new ≡ store.old) }
{
    let object = puts.object(number)?;
    put_object(alloc, store, number, &object)
}

// Makes room on the device of a volume for what an event may ask for.
fn make_room(volume: &mut ScriptVolume, event: &Event<MemReceipt>) -> Result<(), AllocError>
    ensures room { OnOk result (HasRoom (most_of_step event.now).changes (most_of_step event.now).bytes
        (volume_disk volume.new.volume).budget) }
    ensures same { IsUntouched volume.old volume.new }
{
    let bytes = match event {
        Event::Write { body, .. } => body.as_bytes().len() as u64,
        _ => 0,
    };
    volume.with_disk(|disk| disk.reserve(STEP_CALLS, STEP_BYTES + bytes))
}

// Goes on with a volume that was mounted, a new cache, and one line more.
fn go_on(
    alloc: Global,
    mounted: MountedVolume,
    store: MemStore,
    cache: ReadCache<MemReceipt>,
    lines: u64,
) -> (Rig, Answer)
    requires shows { (plain : PlainState)
        × ShowsPlain (rig_of mounted.volume store [] false (lines + 1)) plain }
    requires plan { mounted.volume.volume.plan ≡ None }
    requires lines { lines < 2 ^ 40 }
    ensures rig { result.0 ≡ rig_of mounted.volume store [] false (lines + 1) }
    ensures answer { result.1 ≡ Answer.Mounted mounted.entries mounted.number }
{
    let answer = Answer::Mounted {
        entries: mounted.entries,
        number: mounted.number,
    };
    let rig = Rig {
        volume: mounted.volume,
        store,
        cache,
        puts: Puts::new(alloc),
        copied: None,
        is_stopping: false,
        lines: lines + 1,
    };
    (rig, answer)
}
