ghost use Rattle.std.specs.Prelude.{IfOk};
ghost use Rattle.replay_rig.specs.Answers.{SaysRefusal, SaysSealRefusal, SaysCounts};

use batcher::Full;
use lsvd_objstore::Receipt;
use std::alloc::AllocError;
use vol_core::{EntryRefusal, Reply, SealRefusal};

/// What a line is answered.
#[derive(Drop)]
pub enum Answer {
    /// The volume of `new` has this many sectors.
    Created(u64),
    /// An entry was entered, or all are durable: the history has this length.
    Entries(u64),
    /// The sectors of a read.
    Sectors(Vec<u8>),
    /// The object of this number was sealed.
    Sealed(u64),
    /// The put of this object began.
    Put(u64),
    /// A put is done: the frontier.
    Done(u64),
    /// The put of this object failed.
    Failed(u64),
    /// This object was removed.
    Gone(u64),
    /// A copy of this many sectors was planned, and they were copied.
    Copied(u64),
    /// The plan of a copy was given up.
    Dropped,
    /// The counts: of the entries, the last object that was sealed, and the frontier.
    Counts {
        entries: u64,
        sealed: u64,
        frontier: u64,
    },
    /// The device passes this many calls more.
    Stopping(u64),
    /// A volume was mounted: how many entries it has, and the number of the object before the first missing
    /// one.
    Mounted {
        entries: u64,
        number: u64,
    },
    /// The entry was not entered: the unsealed entries have this many sectors of data, at least those of a
    /// batch.
    BatchFull(u64),
    /// The entry was not entered: there are this many unsealed entries, the most of a batch.
    EntriesFull(u64),
    /// The entry was not entered: its record, with the pad before it, needs `need` sectors of the log, and
    /// `free` are free.
    NoRoom {
        need: u64,
        free: u64,
    },
    /// The volume does not take a request for these sectors.
    Range,
    /// There is nothing to seal, to put, to remove or to copy.
    Nothing,
    /// No object was sealed: 16 objects are not acknowledged. Or no copy was planned: the plan of one is out.
    Busy,
    /// The device failed a call of the request.
    Fault,
}

// Why an entry was not entered, as an answer.
fn answer_of_refusal(refusal: &EntryRefusal) -> Result<Answer, AllocError>
    ensures { IfOk result (SaysRefusal refusal.now) }
{
    match refusal {
        EntryRefusal::Range => Ok(Answer::Range),
        EntryRefusal::Full(Full::Sectors(sectors)) => Ok(Answer::BatchFull(*sectors)),
        EntryRefusal::Full(Full::Entries(count)) => Ok(Answer::EntriesFull(*count)),
        EntryRefusal::NoRoom { need, free } => Ok(Answer::NoRoom {
            need: *need,
            free: *free,
        }),
        EntryRefusal::Fault => Ok(Answer::Fault),
        EntryRefusal::OutOfMemory => Err(AllocError),
    }
}

/// Why what was copied was not sealed, as an answer. The one error is out of memory.
pub(crate) fn answer_of_seal(refusal: SealRefusal) -> Result<Answer, AllocError>
    ensures { IfOk result (SaysSealRefusal refusal) }
{
    match refusal {
        SealRefusal::NotPlanned => Ok(Answer::Nothing),
        SealRefusal::Busy => Ok(Answer::Busy),
        SealRefusal::OutOfMemory => Err(AllocError),
    }
}

/// The answer that tells a reply of the volume to an event that hands nothing out but counts. The one error
/// is out of memory.
pub(crate) fn answer_of<R: Receipt>(reply: Reply<R>) -> Result<Answer, AllocError>
    ensures { IfOk result (SaysCounts reply) }
{
    let answer = told(&reply);
    drop(reply);
    answer
}

// What tells a reply.
fn told<R: Receipt>(reply: &Reply<R>) -> Result<Answer, AllocError>
    ensures { IfOk result (SaysCounts reply.now) }
{
    match reply {
        Reply::Entered(count) | Reply::Flushed(count) => Ok(Answer::Entries(*count)),
        Reply::NotEntered { why, .. } => answer_of_refusal(why),
        Reply::Sealed(number) => Ok(Answer::Sealed(*number)),
        Reply::Done(frontier) => Ok(Answer::Done(*frontier)),
        Reply::Dropped => Ok(Answer::Dropped),
        Reply::NotSealed { why, .. } => answer_of_seal(*why),
        Reply::Told {
            writes,
            sealed,
            frontier,
            ..
        } => Ok(Answer::Counts {
            entries: *writes,
            sealed: *sealed,
            frontier: *frontier,
        }),
        Reply::Range => Ok(Answer::Range),
        Reply::Busy => Ok(Answer::Busy),
        Reply::Fault => Ok(Answer::Fault),
        Reply::OutOfMemory => Err(AllocError),
        _ => Ok(Answer::Nothing),
    }
}
