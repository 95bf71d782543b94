ghost use Rattle.std.specs.Prelude.{◌≡◌};
ghost use Rattle.refusals.specs.Numbers.{refusal_number, refusal_values};

use crate::bad_super::BadSuper;
use log_record::Reason;
use object_format::BadObject;
use thiserror::Error;
use uuid::Uuid;

/// Why a volume is not created, not cloned or not mounted. Each has a number, which is told with its values.
#[derive(Clone, Copy, Debug, PartialEq, Eq, Error)]
pub enum Refusal {
    /// 1: the store has no super object of the volume.
    #[error("the store has no such volume")]
    NoVolume,
    /// 2: the volume's super object, its newest epoch or a hold is not of the grammar, or there is no epoch.
    #[error("bad volume: {reason}")]
    BadSuper { reason: BadSuper },
    /// 3: no object of the volume is a checkpoint. Its objects have numbers from 1 on.
    #[error("the store has no checkpoint of the volume")]
    NoCheckpoint,
    /// 4: the object of this number, past the newest checkpoint, is not of the grammar, or is before the
    /// first missing number and does not go on where the object before it ends. It is the greatest such
    /// number. Or none is, and a hold names the object of this number, which is no checkpoint.
    #[error("bad object {number}: {reason}")]
    BadObject { number: u64, reason: BadObject },
    /// 4, with the reason 9, which no bytes of an object have: the newest checkpoint maps a sector to the
    /// object of this number, which does not have it there. It is absent, is no data object or copy of the
    /// grammar, or its payload has no such place; an ancestor's object is one that is there. Or a hold names
    /// the checkpoint of this number, which is absent.
    #[error("object {number} is absent, or does not have what the newest checkpoint maps to it")]
    MissingObject { number: u64 },
    /// 5: the device is the cache of this volume in another epoch than the newest that the store has: a mount
    /// without the cache came between.
    #[error("the device is of epoch {cache}, and the store of epoch {store}")]
    StaleCache { cache: u64, store: u64 },
    /// 6: the device is the cache of the volume with this uuid, which is another one.
    #[error("the device is of the volume {found}")]
    WrongVolume { found: Uuid },
    /// 7: no slot is open: the device, whose log has this many sectors, was not formatted to its end. Or the
    /// log is too short or too long for the volume.
    #[error("a log of {log} sectors with no open slot, or of no fitting length")]
    NoSlot { log: u64 },
    /// 8: of the ancestor with this uuid, the store lacks the super object, the checkpoint that was cloned,
    /// or an object that the newest checkpoint maps a sector to. Of several ancestors it is the nearest; but
    /// objects are told of only after all that is bad.
    #[error("the store lacks something of the ancestor {ancestor}")]
    BaseMissing { ancestor: Uuid },
    /// 9: the volume has as many levels as a volume may have, its own included: no clone can be made of it.
    #[error("the volume has {levels} levels, so no clone of it can be made")]
    TooDeep { levels: u32 },
    /// 10: the record with this seq, or the pad before it, is none: the first test that its header fails.
    /// Where the log begins past the end of the objects, the seq is that end, and the reason is that of
    /// another seq.
    #[error("bad record {seq}: {reason}")]
    BadRecord { seq: u64, reason: Reason },
    /// 11: the volume that was to be created exists.
    #[error("the volume exists")]
    Exists,
    /// 12: a number is 2^60 or more: the first of that of the last commit (where the cache is kept), the
    /// newest epoch, the greatest number of an object, and the count of entries. The volume is worn out.
    #[error("{value}: the volume is worn out")]
    Worn { value: u64 },
}

// The reason that is told of a missing object: those of bad objects go to 8.
const MISSING: u64 = 9;

/// What is told with the number of a refusal.
#[derive(Clone, Copy, Debug, PartialEq, Eq)]
pub enum Values {
    /// No value.
    Nothing,
    /// One number.
    One(u64),
    /// Two numbers.
    Two(u64, u64),
    /// The uuid of a volume.
    Volume(Uuid),
}

impl Refusal {
    /// Its number, 1 to 12.
    pub fn number(&self) -> u32
        ensures { result ≡ refusal_number self.now }
    {
        match self {
            Refusal::NoVolume => 1,
            Refusal::BadSuper { .. } => 2,
            Refusal::NoCheckpoint => 3,
            Refusal::BadObject { .. } | Refusal::MissingObject { .. } => 4,
            Refusal::StaleCache { .. } => 5,
            Refusal::WrongVolume { .. } => 6,
            Refusal::NoSlot { .. } => 7,
            Refusal::BaseMissing { .. } => 8,
            Refusal::TooDeep { .. } => 9,
            Refusal::BadRecord { .. } => 10,
            Refusal::Exists => 11,
            Refusal::Worn { .. } => 12,
        }
    }

    /// Its values, in the order in which they are told. A reason is told by its number.
    pub fn values(&self) -> Values
        ensures { result ≡ refusal_values self.now }
    {
        match *self {
            Refusal::NoVolume | Refusal::NoCheckpoint | Refusal::Exists => Values::Nothing,
            Refusal::BadSuper { reason } => Values::One(u64::from(reason.code())),
            Refusal::BadObject { number, reason } => {
                Values::Two(number, u64::from(reason.code()))
            }
            Refusal::MissingObject { number } => Values::Two(number, MISSING),
            Refusal::StaleCache { cache, store } => Values::Two(cache, store),
            Refusal::WrongVolume { found } => Values::Volume(found),
            Refusal::NoSlot { log } => Values::One(log),
            Refusal::BaseMissing { ancestor } => Values::Volume(ancestor),
            Refusal::TooDeep { levels } => Values::One(u64::from(levels)),
            Refusal::BadRecord { seq, reason } => Values::Two(seq, u64::from(reason.code())),
            Refusal::Worn { value } => Values::One(value),
        }
    }
}
