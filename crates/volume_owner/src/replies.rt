ghost use Rattle.std.specs.Prelude.{◌≡◌};
ghost use Rattle.volume_owner.specs.Replies.{attempt_in, job_in, plan_in, count_in, seal_in};
ghost use Rattle.volume_owner.specs.Replies.{tells_checkpoint, receipt_in, copying_in, turn_in};

use crate::collecting::Turn;
use crate::error::OwnerError;
use gc_copier::GcPlan;
use lsvd_base::Entry;
use lsvd_objstore::Receipt;
use vol_core::{EntryRefusal, Job, Plan, Reply, SealRefusal};

/// What came of one attempt to enter an entry.
#[derive(Drop)]
pub(crate) enum Attempt {
    /// The entry was entered; the history has this length now.
    Entered(u64),
    /// The batch or the log has no room for the entry, which is handed back. An object is to be sealed or put
    /// first.
    Again(Entry),
    /// A call of the disk failed.
    Failed,
    /// Memory ran out.
    OutOfMemory,
}

/// What a reply tells of the attempt to enter an entry that is in range.
pub(crate) fn attempt_of<R: Receipt>(reply: Reply<R>) -> Attempt
    ensures { result ≡ attempt_in reply }
{
    match reply {
        Reply::Entered(count) => Attempt::Entered(count),
        Reply::NotEntered { entry, why } => match why {
            EntryRefusal::Full(_) | EntryRefusal::NoRoom { .. } => Attempt::Again(entry),
            EntryRefusal::Fault => {
                drop(entry);
                Attempt::Failed
            }
            EntryRefusal::Range | EntryRefusal::OutOfMemory => {
                drop(entry);
                Attempt::OutOfMemory
            }
        },
        Reply::Fault => Attempt::Failed,
        other => {
            drop(other);
            Attempt::OutOfMemory
        }
    }
}

/// The job that a reply hands out, if it does.
pub(crate) fn job_of<R: Receipt>(reply: Reply<R>) -> Option<Job>
    ensures { result ≡ job_in reply }
{
    match reply {
        Reply::Taken(job) => Some(job),
        other => {
            drop(other);
            None
        }
    }
}

/// The plan of a read in range that a reply hands out, or why it does not.
pub(crate) fn plan_of<R: Receipt>(reply: Reply<R>) -> Result<Plan<R>, OwnerError>
    ensures { result ≡ plan_in reply }
{
    match reply {
        Reply::Planned(plan) => Ok(plan),
        Reply::NotEntered {
            entry,
            why: EntryRefusal::Fault,
        } => {
            drop(entry);
            Err(OwnerError::Eio)
        }
        Reply::Fault => Err(OwnerError::Eio),
        other => {
            drop(other);
            Err(OwnerError::OutOfMemory)
        }
    }
}

/// How long the history is that a reply tells to be durable, if it does.
pub(crate) fn count_of<R: Receipt>(reply: Reply<R>) -> Option<u64>
    ensures { result ≡ count_in reply }
{
    match reply {
        Reply::Flushed(count) => Some(count),
        other => {
            drop(other);
            None
        }
    }
}

/// Whether a reply tells that an object was sealed, where none is on its way, or that there was nothing to
/// seal.
pub(crate) fn seal_of<R: Receipt>(reply: Reply<R>) -> Result<bool, OwnerError>
    ensures { result ≡ seal_in reply }
{
    match reply {
        Reply::Sealed(_) => Ok(true),
        Reply::Nothing => Ok(false),
        other => {
            drop(other);
            Err(OwnerError::OutOfMemory)
        }
    }
}

/// Whether a reply to the question for the status tells that the newest object that was sealed is a
/// checkpoint.
pub(crate) fn is_newest_checkpoint<R: Receipt>(reply: Reply<R>) -> bool
    ensures { result ≡ tells_checkpoint reply }
{
    match reply {
        Reply::Told {
            sealed,
            checkpoint,
            ..
        } => sealed == checkpoint,
        other => {
            drop(other);
            false
        }
    }
}

/// What the store gave for the object that a reply hands out for removal, if it does.
pub(crate) fn receipt_of<R: Receipt>(reply: Reply<R>) -> Option<R>
    ensures { result ≡ receipt_in reply }
{
    match reply {
        Reply::Removing(receipt) => Some(receipt),
        other => {
            drop(other);
            None
        }
    }
}

/// The plan of a copy that a reply hands out, or None where there is nothing to copy, or a plan is out.
pub(crate) fn copying_of<R: Receipt>(reply: Reply<R>) -> Result<Option<GcPlan<R>>, OwnerError>
    ensures { result ≡ copying_in reply }
{
    match reply {
        Reply::Copying(plan) => Ok(Some(plan)),
        Reply::Nothing | Reply::Busy => Ok(None),
        other => {
            drop(other);
            Err(OwnerError::OutOfMemory)
        }
    }
}

/// Whether a reply tells that so many sectors that were copied were sealed, or that they were refused.
pub(crate) fn turn_of<R: Receipt>(sectors: u64, reply: Reply<R>) -> Result<Turn, OwnerError>
    ensures { result ≡ turn_in sectors reply }
{
    match reply {
        Reply::Sealed(_) => Ok(Turn::Did { sectors }),
        Reply::NotSealed { copied, why } => {
            drop(copied);
            match why {
                SealRefusal::NotPlanned | SealRefusal::Busy => Ok(Turn::Idle),
                SealRefusal::OutOfMemory => Err(OwnerError::OutOfMemory),
            }
        }
        other => {
            drop(other);
            Err(OwnerError::OutOfMemory)
        }
    }
}
