use crate::rows::OUT_OF_ORDER;
use crate::step::Step::{
    Done, Flush, Keep, Lose, Open, Pending, Read, Seal, Status, Stop, Take, Write, Zero,
};
use crate::step::{Byte, Row, Step};

const A: Byte = Byte(0x41);

const B: Byte = Byte(0x42);

const C: Byte = Byte(0x43);

const D: Byte = Byte(0x44);

// The numbers that have landed, the first being 0.
const FIRST: &[bool] = &[false, true];

const FIRST_TWO: &[bool] = &[false, true, true];

const FIRST_THREE: &[bool] = &[false, true, true, true];

const FIRST_AND_THIRD: &[bool] = &[false, true, false, true];

// All writes are kept.
const ALL: &[bool] = &[true; 4];

/// Rows of the plain volume alone, of the same geometry.
pub const PLAIN_ROWS: &[Row] = &[
    Row {
        name: "What was flushed is kept",
        before: &[],
        steps: &[
            Write(0, 1, A),
            Flush,
            Write(0, 1, B),
            Keep(FIRST, &[false]),
            Read(0, 1),
        ],
    },
    Row {
        name: "A commit whose body is torn is none",
        before: &[Write(0, 1, A)],
        steps: &[Stop(1), Flush, Pending, Keep(FIRST, &[true, false])],
    },
    Row {
        name: "A commit whose last write is kept is one",
        before: BROKEN_OFF,
        steps: &[Pending, Keep(FIRST, &[true])],
    },
    Row {
        name: "A commit whose last write is lost is none",
        before: BROKEN_OFF,
        steps: &[Pending, Keep(FIRST, &[false])],
    },
    Row {
        name: "An object past a missing one is lost",
        before: OUT_OF_ORDER,
        steps: &[Open, Lose(FIRST_AND_THIRD), Read(0, 1), Status],
    },
    Row {
        name: "What it has is kept in the log",
        before: OUT_OF_ORDER,
        steps: &[Flush, Keep(FIRST_AND_THIRD, ALL), Read(0, 1), Seal, Seal],
    },
    Row {
        name: "No object is missing",
        before: OUT_OF_ORDER,
        steps: &[Lose(FIRST_THREE), Read(0, 1), Status],
    },
    Row {
        name: "A put that was under way is lost",
        before: &[Write(0, 1, A), Seal, Take],
        steps: &[Lose(FIRST), Read(0, 1)],
    },
    Row {
        name: "The same put has landed",
        before: &[Write(0, 1, A), Seal, Take],
        steps: &[Lose(FIRST_TWO), Read(0, 1)],
    },
    Row {
        name: "An object passes the head of the log",
        before: &[Write(0, 1, A), Seal, Take, Done(2)],
        steps: &[
            Keep(FIRST_TWO, &[false]),
            Read(0, 1),
            Write(0, 1, B),
            Keep(FIRST_TWO, ALL),
        ],
    },
    Row {
        name: "Entries of the log are unsealed after a mount",
        before: &[Write(0, 8, A), Write(8, 8, B), Seal, Write(16, 8, C), Flush],
        steps: &[
            Keep(FIRST, ALL),
            Write(24, 1, D),
            Seal,
            Write(24, 1, D),
            Read(16, 1),
        ],
    },
    Row {
        name: "A read takes a call for each run that the log has",
        before: &[Write(0, 2, A), Write(1, 1, B), Zero(3, 1)],
        steps: &[Stop(2), Read(0, 4), Read(0, 1), Read(2, 2)],
    },
    Row {
        name: "A read takes no call for what objects have",
        before: &[Write(0, 2, A), Seal, Take, Done(2), Write(1, 1, B)],
        steps: &[
            Stop(1),
            Read(0, 2),
            Read(0, 1),
            Read(1, 1),
            Write(2, 1, C),
            Status,
        ],
    },
];

const BROKEN_OFF: &[Step] = &[Write(0, 1, A), Stop(4), Flush];
