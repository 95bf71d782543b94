// Stores and devices of the volume that were changed, and what a mount answers.
use crate::answer::Answer;
use crate::bytes::OTHER;
use crate::cache::{Cache, LEFT, SHORT, SIZE, device};
use crate::scene::{Mount, mounted};
use crate::store::Change::{
    BaseObject, BaseSuper, Clone, Epoch, Hold, NoEpoch, NoObject, NoSuper, Object, OtherVolume,
};
use crate::store::Stored::{Checkpoint, Copy, Cut, Data, Foreign, Mapping, Misnamed};
use crate::store::{Change, change_all, put_volume};
use crate::telling::tell_found;
use lsvd_objstore::MemStore;
use std::alloc::Global;
use test_output::TestError;

/// One mount.
pub struct Row {
    what: &'static str,
    changes: &'static [Change],
    mount: Mount,
    // The bytes of the device.
    size: u64,
    cache: Option<Cache>,
}

// A mount without the cache, of a store without changes.
const LOST: Row = Row {
    what: "as it was left",
    changes: &[],
    mount: Mount::Lost,
    size: SIZE,
    cache: None,
};

// A mount with the cache.
const KEPT: Row = Row {
    what: "as it was left",
    changes: &[],
    mount: Mount::Kept,
    size: SIZE,
    cache: Some(LEFT),
};

// A number that is too great for a volume.
const GREAT: u64 = 1 << 60;

const LAST: u64 = u64::MAX;

/// Objects.
pub static OBJECTS: [Row; 26] = [
    LOST,
    Row {
        what: "a checkpoint alone",
        changes: &[NoObject(2)],
        ..LOST
    },
    Row {
        what: "one more object",
        changes: &[Object(3, Data(2, 3))],
        ..LOST
    },
    Row {
        what: "a newer checkpoint past a gap",
        changes: &[Object(4, Checkpoint(0)), Object(5, Data(0, 1))],
        ..LOST
    },
    Row {
        what: "no checkpoint",
        changes: &[NoObject(1)],
        ..LOST
    },
    Row {
        what: "a bad object before the newest checkpoint",
        changes: &[Object(1, Misnamed), Object(2, Checkpoint(3))],
        ..LOST
    },
    Row {
        what: "good objects past the first missing number",
        changes: &[
            Object(4, Data(9, 10)),
            Object(5, Data(3, 4)),
            Object(6, Copy(7)),
        ],
        ..LOST
    },
    Row {
        what: "an object that does not go on",
        changes: &[Object(3, Data(0, 1))],
        ..LOST
    },
    Row {
        what: "one past the gap that says another number",
        changes: &[Object(5, Misnamed)],
        ..LOST
    },
    Row {
        what: "two that say another number, and a good one",
        changes: &[
            Object(2, Misnamed),
            Object(4, Misnamed),
            Object(6, Data(0, 1)),
        ],
        ..LOST
    },
    Row {
        what: "two that do not go on",
        changes: &[Object(2, Data(7, 8)), Object(3, Data(9, 10))],
        ..LOST
    },
    Row {
        what: "one that does not go on, and one that goes on from it",
        changes: &[Object(2, Data(7, 8)), Object(3, Data(8, 9))],
        ..LOST
    },
    Row {
        what: "one that says another number, and one after it",
        changes: &[Object(2, Misnamed), Object(3, Data(9, 10))],
        ..LOST
    },
    Row {
        what: "two copies before the gap",
        changes: &[
            Object(2, Copy(0)),
            Object(3, Copy(0)),
            Object(5, Data(4, 5)),
        ],
        ..LOST
    },
    Row {
        what: "a copy, and one after it that does not go on",
        changes: &[Object(2, Copy(0)), Object(3, Data(5, 6))],
        ..LOST
    },
    Row {
        what: "a copy, and a bad object past the gap",
        changes: &[Object(2, Copy(0)), Object(4, Misnamed)],
        ..LOST
    },
    Row {
        what: "a checkpoint that maps an object which is absent",
        changes: &[NoObject(2), Object(3, Mapping(2, 2))],
        ..LOST
    },
    Row {
        what: "one that maps a place which the object does not have",
        changes: &[Object(3, Mapping(2, 2))],
        ..LOST
    },
    Row {
        what: "one that maps such a place, and a bad object past the gap",
        changes: &[Object(3, Mapping(2, 2)), Object(5, Misnamed)],
        ..LOST
    },
    Row {
        what: "an object that says another volume",
        changes: &[Object(3, Foreign)],
        ..LOST
    },
    Row {
        what: "an object that was cut off",
        changes: &[Object(3, Cut)],
        ..LOST
    },
    Row {
        what: "a number that is too great",
        changes: &[NoObject(1), NoObject(2), Object(GREAT + 5, Checkpoint(0))],
        ..LOST
    },
    Row {
        what: "too many entries",
        changes: &[Object(3, Checkpoint(GREAT + 7))],
        ..LOST
    },
    Row {
        what: "an object of the last number of all",
        changes: &[
            NoObject(1),
            Object(LAST - 1, Checkpoint(0)),
            Object(LAST, Data(0, 1)),
        ],
        ..LOST
    },
    Row {
        what: "one of that number that does not go on",
        changes: &[Object(LAST - 1, Checkpoint(0)), Object(LAST, Data(5, 6))],
        ..LOST
    },
    Row {
        what: "another volume in the same store",
        changes: &[OtherVolume],
        ..LOST
    },
];

/// Super objects, epochs and holds.
pub static VOLUMES: [Row; 21] = [
    Row {
        what: "no super object",
        changes: &[NoSuper],
        ..LOST
    },
    Row {
        what: "a clone",
        changes: &[Clone(35, 0x40), BaseSuper, BaseObject(3)],
        ..LOST
    },
    Row {
        what: "one whose ancestor is absent",
        changes: &[Clone(35, 0x40)],
        ..LOST
    },
    Row {
        what: "one whose ancestor has no super object",
        changes: &[Clone(35, 0x40), BaseObject(3)],
        ..LOST
    },
    Row {
        what: "one whose ancestor has another object alone",
        changes: &[Clone(35, 0x40), BaseSuper, BaseObject(2)],
        ..LOST
    },
    Row {
        what: "another count of ancestors",
        changes: &[Clone(47, 2)],
        ..LOST
    },
    Row {
        what: "another magic",
        changes: &[Clone(7, b'2')],
        ..LOST
    },
    Row {
        what: "another version",
        changes: &[Clone(11, 2)],
        ..LOST
    },
    Row {
        what: "another uuid",
        changes: &[Clone(27, 4)],
        ..LOST
    },
    Row {
        what: "seven sectors",
        changes: &[Clone(35, 7)],
        ..LOST
    },
    Row {
        what: "its own ancestor",
        changes: &[Clone(63, 1)],
        ..LOST
    },
    Row {
        what: "no epoch",
        changes: &[NoEpoch(0)],
        ..LOST
    },
    Row {
        what: "a newest epoch that says another number",
        changes: &[Epoch(3, 2)],
        ..LOST
    },
    Row {
        what: "an older one that says another number",
        changes: &[Epoch(0, 7), Epoch(3, 3)],
        ..LOST
    },
    Row {
        what: "an epoch that is too great",
        changes: &[Epoch(GREAT, GREAT)],
        ..LOST
    },
    Row {
        what: "the last epoch of all",
        changes: &[Epoch(LAST, LAST)],
        ..LOST
    },
    Row {
        what: "a hold on a checkpoint, and one on none",
        changes: &[Hold(1, 1), Hold(LAST, LAST)],
        ..LOST
    },
    Row {
        what: "a hold that says another number",
        changes: &[Hold(1, 2)],
        ..LOST
    },
    Row {
        what: "two of three that say another number",
        changes: &[Hold(9, 0), Hold(2, 3), Hold(1, 1)],
        ..LOST
    },
    Row {
        what: "a hold and a newest epoch that say another number",
        changes: &[Hold(1, 2), Epoch(3, 2)],
        ..LOST
    },
    Row {
        what: "a log that is too short",
        size: SHORT,
        ..LOST
    },
];

/// Caches.
pub static CACHES: [Row; 11] = [
    KEPT,
    Row {
        what: "objects past the first missing number",
        changes: &[Object(4, Data(9, 10))],
        ..KEPT
    },
    Row {
        what: "objects with more entries than the cache",
        changes: &[Object(3, Data(2, 5))],
        ..KEPT
    },
    Row {
        what: "a blank device",
        cache: None,
        ..KEPT
    },
    Row {
        what: "the cache of another volume",
        cache: Some(Cache {
            uuid: OTHER,
            ..LEFT
        }),
        ..KEPT
    },
    Row {
        what: "the cache of an older epoch",
        changes: &[Epoch(3, 3)],
        ..KEPT
    },
    Row {
        what: "the cache of a newer epoch",
        cache: Some(Cache { epoch: 5, ..LEFT }),
        ..KEPT
    },
    Row {
        what: "a log that begins past the objects",
        changes: &[NoObject(2)],
        ..KEPT
    },
    Row {
        what: "a record of another seq",
        cache: Some(Cache { seq: 9, ..LEFT }),
        ..KEPT
    },
    Row {
        what: "a record of an unknown kind",
        cache: Some(Cache { kind: 4, ..LEFT }),
        ..KEPT
    },
    Row {
        what: "a commit whose number is too great",
        cache: Some(Cache {
            commit: GREAT,
            ..LEFT
        }),
        ..KEPT
    },
];

/// Tells what each of these mounts answers.
pub fn tell_all(rt: &HostRuntime, rows: &[Row]) -> Result<(), TestError> {
    for row in rows {
        tell(rt, row)?;
    }
    Ok(())
}

fn tell(rt: &HostRuntime, row: &Row) -> Result<(), TestError> {
    print!(rt; "{}: ", row.what)?;
    tell_found(rt, answer_of(rt.alloc(), row))
}

// What the mount answers, in a store of its own.
fn answer_of(alloc: Global, row: &Row) -> Result<Answer, TestError> {
    let mut store = MemStore::new(alloc);
    let answer = answer_in(alloc, &mut store, row);
    drop(store);
    answer
}

// What the mount answers, in a store where nothing is yet.
fn answer_in(alloc: Global, store: &mut MemStore, row: &Row) -> Result<Answer, TestError> {
    put_volume(alloc, store)?;
    change_all(alloc, store, row.changes)?;
    let disk = device(alloc, row.size, row.cache)?;
    let (disk, answer) = mounted(alloc, row.mount, disk, store);
    drop(disk);
    Ok(answer)
}
