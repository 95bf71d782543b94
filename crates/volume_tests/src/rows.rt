use crate::step::Step::{
    Checkpoint, Done, Failed, Fetch, Flush, Look, NotRemoved, Read, Release, Remove, Removed, Seal,
    Status, Take, Write, Zero,
};
use crate::step::{Byte, Row, Step};

const A: Byte = Byte(0x41);

const B: Byte = Byte(0x42);

const C: Byte = Byte(0x43);

/// Rows of both volumes, of 64 sectors, with a log of 64, requests of at most 8, and batches of 16.
pub const ROWS: &[Row] = &[
    Row {
        name: "A write is read, and a zeroing over it",
        before: &[],
        steps: &[
            Write(0, 1, A),
            Read(0, 2),
            Write(0, 8, B),
            Zero(7, 57),
            Read(0, 8),
        ],
    },
    Row {
        name: "Requests out of range change nothing",
        before: &[],
        steps: &[
            Write(63, 2, A),
            Write(0, 0, A),
            Write(0, 9, A),
            Zero(63, 2),
            Read(0, 9),
            Read(63, 1),
            Status,
        ],
    },
    Row {
        name: "Puts are done out of order",
        before: &[],
        steps: OUT_OF_ORDER,
    },
    Row {
        name: "A put fails once",
        before: &[Write(0, 1, A), Seal],
        steps: &[Take, Failed(2), Take, Done(2), Flush, Status],
    },
    // Seven records of 9 sectors take 63 of 64; the eighth needs a pad of one and 9.
    Row {
        name: "A log is full until an object is acknowledged",
        before: SIX_RECORDS,
        steps: &[
            Write(0, 8, A),
            Write(0, 8, A),
            Take,
            Done(2),
            Write(0, 8, A),
            Read(0, 8),
        ],
    },
    Row {
        name: "A read has sectors of objects and of the log",
        before: TWO_OBJECTS,
        steps: &[
            Read(0, 4),
            Look(0, 1),
            Release,
            Look(0, 3),
            Release,
            Look(1, 1),
            Release,
            Look(1, 2),
            Release,
            Look(2, 1),
            Release,
        ],
    },
    Row {
        name: "A read is fetched later than it was planned",
        before: &[Write(0, 1, A), Seal, Take, Done(2), Write(1, 1, A)],
        steps: &[
            Look(0, 2),
            Write(0, 2, B),
            Seal,
            Take,
            Done(3),
            Write(0, 1, C),
            Flush,
            Fetch,
            Release,
            Read(0, 2),
        ],
    },
    Row {
        name: "An object is removed once a later checkpoint is acknowledged, which does not map it",
        before: TWO_WRITES,
        steps: &[
            Remove,
            Checkpoint,
            Checkpoint,
            Remove,
            Take,
            Status,
            Done(4),
            Remove,
            Remove,
            NotRemoved(1),
            Remove,
            Removed(1),
            Remove,
            Removed(2),
            Remove,
            Take,
            Done(5),
            Remove,
            Removed(4),
            Read(0, 1),
            Status,
        ],
    },
    Row {
        name: "An object is removed once no read has it planned",
        before: &[Write(0, 1, A), Seal, Take, Done(2)],
        steps: &[
            Look(0, 1),
            Write(0, 1, B),
            Seal,
            Checkpoint,
            Take,
            Done(3),
            Take,
            Done(4),
            Remove,
            Removed(1),
            Remove,
            Fetch,
            Release,
            Remove,
            Removed(2),
            Read(0, 1),
        ],
    },
];

// Two objects, of which the second has all sectors of the first.
const TWO_WRITES: &[Step] = &[
    Write(0, 1, A),
    Seal,
    Take,
    Done(2),
    Write(0, 1, B),
    Seal,
    Take,
    Done(3),
];

/// Two objects, of which the second is acknowledged first.
pub const OUT_OF_ORDER: &[Step] = &[
    Write(0, 1, A),
    Seal,
    Write(0, 1, B),
    Seal,
    Seal,
    Take,
    Take,
    Take,
    Done(3),
    Status,
];

/// Six writes of eight sectors, in three objects.
pub const SIX_RECORDS: &[Step] = &[
    Write(0, 8, A),
    Write(0, 8, A),
    Seal,
    Write(0, 8, A),
    Write(0, 8, A),
    Seal,
    Write(0, 8, A),
    Write(0, 8, A),
    Seal,
];

// Two sectors are in object 2, and one of them also in object 3; the third is in no object.
const TWO_OBJECTS: &[Step] = &[
    Write(0, 2, A),
    Seal,
    Write(1, 1, B),
    Seal,
    Take,
    Take,
    Done(2),
    Done(3),
    Write(2, 1, C),
];
