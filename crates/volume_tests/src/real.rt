ghost use Rattle.lsvd_objstore.specs.Memory.{told_receipt};
ghost use Rattle.vol_core.specs.Step.{HasItsReceipt};

use crate::answer::{Answer, Objects, Sectors};
use crate::creating::{MemVolume, created};
use crate::step::{Byte, Step};
use batcher::Full;
use lsvd_base::{Body, Entry, Geometry};
use lsvd_objstore::{MemReceipt, MemStore, Receipt, Store};
use read_cache::ReadCache;
use std::alloc::Global;
use test_output::TestError;
use vol_core::{EntryRefusal, Event, Job, Plan, Reply};

/// The volume of the rows.
pub const GEOMETRY: Geometry = Geometry {
    sectors: 64,
    max_write: 8,
    batch: 16,
    log: 64,
};

// How many blocks of objects are kept for reads.
const CACHE_BLOCKS: usize = 4;

// No run here makes as many steps.
const MOST: u64 = 1_000;

/// The real volume with its store, the puts and the removal that are out, and the read that is planned.
#[derive(Drop)]
pub struct Real {
    volume: MemVolume,
    store: MemStore,
    cache: ReadCache<MemReceipt>,
    jobs: Vec<Job>,
    removal: Option<MemReceipt>,
    plan: Option<Plan<MemReceipt>>,
}

impl Real {
    /// A new one.
    pub fn new(alloc: Global) -> Result<Real, TestError> {
        let cache = ReadCache::new(alloc, CACHE_BLOCKS)?;
        let mut store = MemStore::new(alloc);
        let volume = created(alloc, &mut store, GEOMETRY)?;
        Ok(Real {
            volume,
            store,
            cache,
            jobs: Vec::new(alloc),
            removal: None,
            plan: None,
        })
    }

    /// Makes a step, and once more where memory ran out for it.
    pub fn make(&mut self, alloc: Global, made: Step) -> Result<Answer, TestError> {
        match self.make_once(alloc, made)? {
            Answer::OutOfMemory => self.make_once(alloc, made),
            answer => Ok(answer),
        }
    }

    fn make_once(&mut self, alloc: Global, made: Step) -> Result<Answer, TestError> {
        match made {
            Step::Write(lba, sectors, Byte(byte)) => {
                write(alloc, &mut self.volume, lba, sectors, byte)
            }
            Step::Look(lba, sectors) => look(&mut self.volume, &mut self.plan, lba, sectors),
            Step::Fetch => fetch(alloc, &mut self.plan, &mut self.store, &mut self.cache),
            Step::Release => release(&mut self.volume, &mut self.plan),
            Step::Read(lba, sectors) => self.read(alloc, lba, sectors),
            Step::Take => take(&mut self.volume, &mut self.jobs),
            Step::Done(number) => self.done(alloc, number),
            Step::Failed(number) => failed(&mut self.volume, &mut self.jobs, number),
            Step::Remove => remove(&mut self.volume, &mut self.removal),
            Step::Removed(number) => self.removed(number),
            Step::NotRemoved(number) => self.not_removed(number),
            _ => make(&mut self.volume, made),
        }
    }

    fn read(&mut self, alloc: Global, lba: u64, sectors: u64) -> Result<Answer, TestError> {
        let looked = look(&mut self.volume, &mut self.plan, lba, sectors)?;
        if !matches!(looked, Answer::Planned(..)) {
            return Ok(looked);
        }
        let read = fetch(alloc, &mut self.plan, &mut self.store, &mut self.cache)?;
        release(&mut self.volume, &mut self.plan)?;
        Ok(read)
    }

    fn done(&mut self, alloc: Global, number: u64) -> Result<Answer, TestError> {
        match job_of(&mut self.jobs, number) {
            Some(job) => put(alloc, &mut self.volume, &mut self.store, job),
            None => Ok(Answer::NotAsked),
        }
    }

    fn removed(&mut self, number: u64) -> Result<Answer, TestError> {
        match receipt_of(&mut self.removal, number) {
            Some(receipt) => {
                let outcome = self.store.remove(&receipt);
                drop(receipt);
                outcome?;
                answered(&mut self.volume, Event::RemoveDone { number })
            }
            None => Ok(Answer::NotAsked),
        }
    }

    fn not_removed(&mut self, number: u64) -> Result<Answer, TestError> {
        match receipt_of(&mut self.removal, number) {
            Some(receipt) => answered(&mut self.volume, Event::RemoveFailed(receipt)),
            None => Ok(Answer::NotAsked),
        }
    }
}

fn step(volume: &mut MemVolume, event: Event<MemReceipt>) -> Result<Reply<MemReceipt>, TestError>
    requires { HasItsReceipt told_receipt event }
{
    if MOST < volume.steps() {
        return Err(TestError::Refused);
    }
    Ok(volume.step(event))
}

// Makes a step of no owned parts.
fn make(volume: &mut MemVolume, made: Step) -> Result<Answer, TestError> {
    match made {
        Step::Zero(lba, sectors) => answered(volume, Event::Zero { lba, sectors }),
        Step::Flush => answered(volume, Event::Flush),
        Step::Seal => answered(volume, Event::Seal),
        Step::Checkpoint => answered(volume, Event::SealCheckpoint),
        Step::Status => answered(volume, Event::Status),
        _ => Ok(Answer::NotAsked),
    }
}

fn answered(volume: &mut MemVolume, event: Event<MemReceipt>) -> Result<Answer, TestError>
    requires { HasItsReceipt told_receipt event }
{
    Ok(answered_by(step(volume, event)?))
}

// What a reply says that is needed no longer.
fn answered_by(reply: Reply<MemReceipt>) -> Answer {
    let answer = answer_of(&reply);
    drop(reply);
    answer
}

fn write(
    alloc: Global,
    volume: &mut MemVolume,
    lba: u64,
    sectors: u64,
    byte: u8,
) -> Result<Answer, TestError> {
    let body = Body::filled(alloc, sectors, byte)?;
    answered(volume, Event::Write { lba, body })
}

fn look(
    volume: &mut MemVolume,
    plan: &mut Option<Plan<MemReceipt>>,
    lba: u64,
    sectors: u64,
) -> Result<Answer, TestError> {
    match step(volume, Event::Look { lba, sectors })? {
        Reply::Planned(planned) => {
            let answer = Answer::Planned(planned.history_length(), Objects::of(planned.objects()));
            *plan = Some(planned);
            Ok(answer)
        }
        reply => Ok(answered_by(reply)),
    }
}

fn fetch(
    alloc: Global,
    plan: &mut Option<Plan<MemReceipt>>,
    store: &mut MemStore,
    cache: &mut ReadCache<MemReceipt>,
) -> Result<Answer, TestError> {
    let Some(plan) = plan else {
        return Ok(Answer::Nothing);
    };
    let read = plan.fetch(alloc, store, cache)?;
    Ok(Answer::Data(Sectors::of(read.as_slice())))
}

fn release(
    volume: &mut MemVolume,
    plan: &mut Option<Plan<MemReceipt>>,
) -> Result<Answer, TestError> {
    match plan.take() {
        Some(plan) => answered(volume, Event::Release(plan)),
        None => Ok(Answer::Nothing),
    }
}

// Begins a put, which is kept until it is done.
fn take(volume: &mut MemVolume, jobs: &mut Vec<Job>) -> Result<Answer, TestError> {
    jobs.reserve(1)?;
    match step(volume, Event::TakeJob)? {
        Reply::Taken(job) => {
            let number = job.name().number;
            jobs.push_reserved(job);
            Ok(Answer::Taken(number))
        }
        reply => Ok(answered_by(reply)),
    }
}

// The put of an object, where it is out.
fn job_of(jobs: &mut Vec<Job>, number: u64) -> Option<Job> {
    for index in 0..jobs.len() {
        if jobs[index].name().number == number {
            return Some(jobs.swap_remove(index));
        }
    }
    None
}

// Makes a put.
fn put(
    alloc: Global,
    volume: &mut MemVolume,
    store: &mut MemStore,
    job: Job,
) -> Result<Answer, TestError> {
    let receipt = job.put(alloc, store)?;
    answered(volume, Event::JobDone { job, receipt })
}

fn failed(volume: &mut MemVolume, jobs: &mut Vec<Job>, number: u64) -> Result<Answer, TestError> {
    match job_of(jobs, number) {
        Some(job) => answered(volume, Event::JobFailed(job)),
        None => Ok(Answer::NotAsked),
    }
}

// Begins a removal, which is kept until it is done.
fn remove(volume: &mut MemVolume, removal: &mut Option<MemReceipt>) -> Result<Answer, TestError> {
    match step(volume, Event::TakeRemove)? {
        Reply::Removing(receipt) => {
            let number = receipt.name().number;
            *removal = Some(receipt);
            Ok(Answer::Removing(number))
        }
        reply => Ok(answered_by(reply)),
    }
}

// The receipt of an object, where its removal is out.
fn receipt_of(removal: &mut Option<MemReceipt>, number: u64) -> Option<MemReceipt> {
    let receipt = removal.take()?;
    if receipt.name().number == number {
        return Some(receipt);
    }
    *removal = Some(receipt);
    None
}

// What a reply says.
fn answer_of(reply: &Reply<MemReceipt>) -> Answer {
    match reply {
        Reply::Entered(count) => Answer::Entered(*count),
        Reply::NotEntered { why, .. } => refusal_of(*why),
        Reply::Flushed(count) => Answer::Flushed(*count),
        Reply::Released => Answer::Released,
        Reply::Sealed(number) => Answer::Sealed(*number),
        Reply::Done(frontier) => Answer::Done(*frontier),
        Reply::Returned => Answer::Returned,
        Reply::Removed => Answer::Removed,
        Reply::GivenBack => Answer::GivenBack,
        Reply::Told {
            writes,
            sealed,
            frontier,
            checkpoint,
        } => Answer::Told {
            writes: *writes,
            sealed: *sealed,
            frontier: *frontier,
            checkpoint: *checkpoint,
        },
        _ => other_answer_of(reply),
    }
}

fn other_answer_of(reply: &Reply<MemReceipt>) -> Answer {
    match reply {
        Reply::Range => Answer::Range,
        Reply::Nothing => Answer::Nothing,
        Reply::Busy => Answer::Busy,
        Reply::Fault => Answer::Fault,
        Reply::OutOfMemory => Answer::OutOfMemory,
        _ => Answer::Back,
    }
}

// Why an entry was not entered.
fn refusal_of(why: EntryRefusal) -> Answer {
    match why {
        EntryRefusal::Range => Answer::Range,
        EntryRefusal::Full(Full::Sectors(sectors)) => Answer::BatchFull(sectors),
        EntryRefusal::Full(Full::Entries(entries)) => Answer::EntriesFull(entries),
        EntryRefusal::NoRoom { need, free } => Answer::NoRoom { need, free },
        EntryRefusal::Fault => Answer::Fault,
        EntryRefusal::OutOfMemory => Answer::OutOfMemory,
    }
}
