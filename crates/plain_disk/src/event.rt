use crate::numbers::ObjectNumbers;
use lsvd_base::Body;
use object_stream::CopiedSectors;

/// What is asked of the plain volume: numbers and sectors alone.
#[derive(Drop)]
pub enum PlainEvent {
    /// Writes the data at the sectors from `lba` on.
    Write { lba: u64, body: Body },
    /// Puts zeros at `sectors` sectors from `lba` on.
    Zero { lba: u64, sectors: u64 },
    /// Makes each entry so far durable.
    Flush,
    /// Plans a read of `sectors` sectors from `lba` on.
    Look { lba: u64, sectors: u64 },
    /// Gives back the plan of a read, which pinned these objects.
    Release { objects: ObjectNumbers },
    /// Seals the next data object.
    Seal,
    /// Begins the put of the lowest ready object.
    TakeJob,
    /// A put is done: that of the object with this number; None where its bytes, or what the store gave for
    /// it, are not those of the sealed object.
    JobDone { job: Option<u64> },
    /// A put failed: that of the object with this number; None where its bytes are not those of the sealed
    /// object.
    JobFailed { job: Option<u64> },
    /// Seals a checkpoint.
    SealCheckpoint,
    /// Begins the removal of the lowest object that may be removed.
    TakeRemove,
    /// The removal of the object with this number is done.
    RemoveDone { number: u64 },
    /// The removal of the object with this number failed.
    RemoveFailed { number: u64 },
    /// Plans a copy of sectors out of objects that few sectors are live in.
    PlanCopy,
    /// Seals what was copied, which is that of the plan that is out, or is not.
    SealCopy { is_planned: bool },
    /// Gives the plan of a copy up.
    DropPlan,
    /// Asks for the counts.
    Status,
}

/// What a plan of a read says.
#[derive(Drop)]
pub struct PlannedRead {
    /// How many entries the history has.
    pub history_length: u64,
    /// The data of the sectors of the read, in the image that this history makes.
    pub data: Body,
    /// The numbers of the objects that the plan pins, in ascending order.
    pub objects: ObjectNumbers,
}

/// What the plain volume answers.
#[derive(Drop)]
pub enum PlainReply {
    /// The entry was entered; the history has this length now.
    Entered(u64),
    /// Each entry so far is durable; the history has this length.
    Flushed(u64),
    /// The read was planned.
    Planned(PlannedRead),
    /// The plan was given back.
    Released,
    /// The object with this number was sealed.
    Sealed(u64),
    /// The put of the object with this number began.
    Taken(u64),
    /// The put is acknowledged; the frontier is this number now.
    Done(u64),
    /// The object of the put that failed is ready again.
    Returned,
    /// The removal of the object with this number began.
    Removing(u64),
    /// The object is removed.
    Removed,
    /// The object of the removal that failed may be removed again.
    GivenBack,
    /// A plan copies these sectors.
    Copying(CopiedSectors),
    /// The plan of a copy was given up.
    Dropped,
    /// How many entries the history has, and the numbers of the last object that was sealed, of the frontier,
    /// and of the newest checkpoint that was sealed.
    Told {
        writes: u64,
        sealed: u64,
        frontier: u64,
        checkpoint: u64,
    },
    /// The unsealed entries have this many sectors of data, at least those of a batch.
    BatchFull(u64),
    /// There are this many unsealed entries, the most of a batch.
    EntriesFull(u64),
    /// The log has no room: the record of the entry, with the pad before it, needs `need` sectors, and `free`
    /// are free.
    NoRoom {
        need: u64,
        free: u64,
    },
    /// The volume does not take a request for these sectors.
    Range,
    /// There is nothing to seal, to put, to remove, to copy, or to give back.
    Nothing,
    /// 16 objects are on their way to the store, or a plan of a copy is out.
    Busy,
    /// The device failed a call of the request.
    Fault,
}
