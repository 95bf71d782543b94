use gc_copier::Copied;
use lsvd_base::Body;
use lsvd_objstore::Receipt;
use object_uploads::Job;
use read_plan::Plan;

/// What is asked of a volume.
#[derive(Drop)]
pub enum Event<R: Receipt> {
    /// Writes the data at the sectors from `lba` on: 1 to `max_write` sectors.
    Write { lba: u64, body: Body },
    /// Puts zeros at `sectors` sectors from `lba` on, at least one.
    Zero { lba: u64, sectors: u64 },
    /// Makes each entry so far durable.
    Flush,
    /// Plans a read of `sectors` sectors from `lba` on: 1 to `max_write`.
    Look { lba: u64, sectors: u64 },
    /// Gives the plan of a read back, so that its objects are pinned once less.
    Release(Plan<R>),
    /// Seals the next data object.
    Seal,
    /// Begins the put of the lowest ready object.
    TakeJob,
    /// The put of a job is done, and the store gave this receipt. It stands for just the bytes of the job (a
    /// condition of `step`).
    JobDone { job: Job, receipt: R },
    /// The put of a job failed.
    JobFailed(Job),
    /// Seals a checkpoint.
    SealCheckpoint,
    /// Begins the removal of the lowest object that may be removed.
    TakeRemove,
    /// The removal of the object of this number is done: the store has it no more.
    RemoveDone { number: u64 },
    /// The removal of the object that the receipt names failed. The receipt serves a later removal of it.
    RemoveFailed(R),
    /// Plans a copy: which live sectors a collection takes from which objects.
    PlanCopy,
    /// Seals what was copied by the plan that is out, which ends.
    SealCopy(Copied<R>),
    /// Gives up the plan that is out.
    DropPlan,
    /// Asks for the counts.
    Status,
}
