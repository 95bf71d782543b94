use batcher::Full;
use cache_log::AppendError;
use gc_copier::{Copied, GcPlan};
use lsvd_base::Entry;
use lsvd_objstore::Receipt;
use object_uploads::Job;
use read_plan::Plan;
use std::alloc::AllocError;

/// Why an entry was not entered.
#[derive(Clone, Copy, Debug, PartialEq, Eq)]
pub enum EntryRefusal {
    /// The volume does not take an entry for these sectors.
    Range,
    /// The entries that are in no object are full: an object is to be sealed first.
    Full(Full),
    /// The record, with the pad before it, needs `need` sectors of the log, and `free` are free, even after a
    /// commit whose tail is at the frontier's end: an object is to be acknowledged first.
    NoRoom { need: u64, free: u64 },
    /// A call of the device failed.
    Fault,
    /// Memory ran out; nothing was done.
    OutOfMemory,
}

impl From<AllocError> for EntryRefusal {
    ghost use Rattle.std.specs.Prelude.{◌≡◌};
    ghost use Rattle.vol_core.specs.declared.reply.EntryRefusal.TheVariants.{OutOfMemory};

    ghost from_gives = { λ error refusal. refusal ≡ OutOfMemory };

    fn from(_error: AllocError) -> EntryRefusal {
        EntryRefusal::OutOfMemory
    }
}

impl From<AppendError> for EntryRefusal {
    ghost use Rattle.std.specs.Prelude.{◌≡◌};
    ghost use Rattle.vol_core.specs.Refusals.{refusal_of};

    ghost from_gives = { λ error refusal. refusal ≡ refusal_of error };

    fn from(error: AppendError) -> EntryRefusal {
        match error {
            AppendError::NoRoom { need, free } => EntryRefusal::NoRoom { need, free },
            AppendError::DeviceFault => EntryRefusal::Fault,
        }
    }
}

/// Why what was copied was not sealed.
#[derive(Clone, Copy, Debug, PartialEq, Eq)]
pub enum SealRefusal {
    /// It was not copied by the plan that is out, or none is out.
    NotPlanned,
    /// 16 objects are on their way to the store.
    Busy,
    /// Memory ran out; nothing was done.
    OutOfMemory,
}

/// What a volume answers. What the event owned is handed back where it was not carried out.
#[derive(Drop)]
pub enum Reply<R: Receipt> {
    /// The entry was entered; the history has this length now.
    Entered(u64),
    /// The entry was not entered.
    NotEntered {
        entry: Entry,
        why: EntryRefusal,
    },
    /// Each entry so far is durable; the history has this length.
    Flushed(u64),
    /// The plan of a read, whose objects are pinned until it is given back.
    Planned(Plan<R>),
    /// The plan was given back.
    Released,
    /// One of the plan's objects is not pinned.
    NotReleased(Plan<R>),
    /// The object of this number was sealed.
    Sealed(u64),
    /// A put that is to be made.
    Taken(Job),
    /// The put is acknowledged; the frontier is this number now.
    Done(u64),
    /// The put is not out: its number is not started, the bytes are not the sealed ones, or the receipt names
    /// another object.
    NotDone {
        job: Job,
        receipt: R,
    },
    /// The object is ready again.
    Returned,
    /// The put is not out.
    NotReturned(Job),
    /// The removal of the object that this names is to be made.
    Removing(R),
    /// The object is removed.
    Removed,
    /// The object may be removed again.
    GivenBack,
    /// The removal of the object that this names is not out.
    NotGivenBack(R),
    /// The plan of a copy. The objects that it takes sectors from are not removed until its copy is sealed or
    /// it is given up.
    Copying(GcPlan<R>),
    /// What was copied was not sealed.
    NotSealed {
        copied: Copied<R>,
        why: SealRefusal,
    },
    /// The plan is given up.
    Dropped,
    /// How many entries the history has, and the numbers of the last object that was sealed, of the frontier,
    /// and of the newest checkpoint that was sealed.
    Told {
        writes: u64,
        sealed: u64,
        frontier: u64,
        checkpoint: u64,
    },
    /// The volume does not take a read of these sectors.
    Range,
    /// There is nothing to seal, to put, to remove, to copy or to give up, or the removal is not out.
    Nothing,
    /// 16 objects are on their way to the store, or, for a plan of a copy, one is out.
    Busy,
    /// A call of the device failed.
    Fault,
    /// Memory ran out; nothing was done.
    OutOfMemory,
}
