use crate::case::Case;
use crate::lines::tell_bytes;
use commit_body::{CommitBody, Mark, read_body, write_body};
use test_output::{TestError, head, tell};

// A commit, with the length of a log that it may be one of, in sectors, and its slot.
struct Commit {
    what: &'static str,
    body: CommitBody,
    number: u64,
    log: u64,
    slot: u64,
}

const FIRST: Commit = Commit {
    what: "The first commit of a new volume",
    body: CommitBody {
        uuid: [0, 0, 0, 0, 0, 0, 0x40, 0, 0x80, 0, 0, 0, 0, 0, 0, 1],
        epoch: 0,
        tail: Mark {
            position: 0,
            seq: 0,
        },
        head: Mark {
            position: 0,
            seq: 0,
        },
    },
    number: 0,
    log: 1,
    slot: 0,
};

const DISTINCT: Commit = Commit {
    what: "A commit with another byte at each place, in slot 2",
    body: CommitBody {
        uuid: [
            0xf0, 0xf1, 0xf2, 0xf3, 0xf4, 0xf5, 0xf6, 0xf7, 0xf8, 0xf9, 0xfa, 0xfb, 0xfc, 0xfd,
            0xfe, 0xff,
        ],
        epoch: 0x0102_0304_0506_0708,
        tail: Mark {
            position: 0x2122_2324_2526_2728,
            seq: 0x3132_3334_3536_3738,
        },
        head: Mark {
            position: 0x4142_4344_4546_4748,
            seq: 0x5152_5354_5556_5758,
        },
    },
    number: 0x1112_1314_1516_1718,
    log: 0x4142_4344_4546_4749,
    slot: 2,
};

const SEVENTH: Commit = Commit {
    what: "Commit 7, with its tail at 5 with the seq 9 and its head at 11 with the seq 12",
    body: CommitBody {
        uuid: [0xa1, 1, 2, 3, 4, 5, 6, 7, 8, 9, 10, 11, 12, 13, 14, 15],
        epoch: 2,
        tail: Mark {
            position: 5,
            seq: 9,
        },
        head: Mark {
            position: 11,
            seq: 12,
        },
    },
    number: 7,
    log: 64,
    slot: 1,
};

/// Writes what bodies of commits are, and which are refused.
pub fn tell_all(rt: &HostRuntime) -> Result<(), TestError> {
    for commit in [&FIRST, &DISTINCT, &SEVENTH] {
        tell_commit(rt, commit)?;
    }
    tell_refused(rt)
}

fn tell_commit(rt: &HostRuntime, commit: &Commit) -> Result<(), TestError> {
    head(rt, commit.what)?;
    let sector = sector_of(commit);
    tell_bytes(rt, &sector, 72)?;
    let found = read_body(&sector, commit.log, commit.slot);
    tell(
        rt,
        "read again",
        &(found == Some((commit.body, commit.number))),
    )
}

fn sector_of(commit: &Commit) -> [u8; 512] {
    let mut sector = [0xff; 512];
    write_body(&commit.body, commit.number, &mut sector);
    sector
}

const CASES: &[Case] = &[
    Case {
        what: "as it is",
        changes: &[],
    },
    Case {
        what: "another magic",
        changes: &[(7, b'2')],
    },
    Case {
        what: "the number 8",
        changes: &[(39, 8)],
    },
    Case {
        what: "the number 10",
        changes: &[(39, 10)],
    },
    Case {
        what: "the tail at 63",
        changes: &[(47, 63)],
    },
    Case {
        what: "the tail at 64",
        changes: &[(47, 64)],
    },
    Case {
        what: "the head at 63",
        changes: &[(63, 63)],
    },
    Case {
        what: "the head at 64",
        changes: &[(63, 64)],
    },
    Case {
        what: "an empty log",
        changes: &[(47, 11), (55, 12)],
    },
    Case {
        what: "an empty log with its tail and its head at two places",
        changes: &[(55, 12)],
    },
    Case {
        what: "a full log",
        changes: &[(63, 5)],
    },
    Case {
        what: "the tail's seq past the head's",
        changes: &[(47, 11), (55, 13)],
    },
    Case {
        what: "a byte behind the head's seq",
        changes: &[(72, 1)],
    },
    Case {
        what: "a byte at the sector's end",
        changes: &[(511, 1)],
    },
];

fn tell_refused(rt: &HostRuntime) -> Result<(), TestError> {
    head(
        rt,
        "That commit, changed, and whether it is a body of slot 1 for a log of 64 sectors",
    )?;
    for case in CASES {
        tell_case(rt, case)?;
    }
    for slot in [0, 1, 2, 7] {
        let found = read_body(&sector_of(&SEVENTH), 64, slot).is_some();
        println!(rt; "  in slot {slot}: {found}")?;
    }
    Ok(())
}

fn tell_case(rt: &HostRuntime, case: &Case) -> Result<(), TestError> {
    let sector = case.bytes(rt.alloc(), &sector_of(&SEVENTH))?;
    if sector.len() != 512 {
        return Err(TestError::Refused);
    }
    tell(
        rt,
        case.what,
        &read_body(sector.as_slice(), 64, 1).is_some(),
    )
}
