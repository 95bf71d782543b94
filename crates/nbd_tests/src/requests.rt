use crate::dump::tell_bytes;
use crate::greeting::{Asking, ENTERED_BYTES};
use crate::volume::{link_with, serve};
use lsvd_fault::MemLink;
use test_output::TestError;

const READ: u16 = 0;

const WRITE: u16 = 1;

const FLUSH: u16 = 3;

const TRIM: u16 = 4;

const ZERO: u16 = 6;

// A request for the first sector.
const FIRST: Asking = Asking {
    flags: 0,
    kind: READ,
    offset: 0,
    length: 512,
    byte: 0,
};

/// Requests of one session. Flags are 1, to be durable, and 2, to make no hole.
pub static ASKINGS: [Asking; 27] = [
    Asking {
        offset: 32_768,
        ..FIRST
    },
    Asking {
        kind: WRITE,
        offset: 32_768,
        byte: 0x55,
        ..FIRST
    },
    Asking {
        kind: TRIM,
        offset: 32_768,
        ..FIRST
    },
    Asking {
        kind: ZERO,
        offset: 32_768,
        ..FIRST
    },
    Asking {
        offset: 0xffff_ffff_ffff_fe00,
        ..FIRST
    },
    Asking { offset: 1, ..FIRST },
    Asking {
        length: 511,
        ..FIRST
    },
    Asking {
        offset: 33_280,
        length: 0,
        ..FIRST
    },
    Asking {
        offset: 32_768,
        length: 0,
        ..FIRST
    },
    Asking {
        kind: WRITE,
        flags: 1,
        byte: 0x41,
        ..FIRST
    },
    Asking {
        length: 1_024,
        ..FIRST
    },
    Asking {
        kind: WRITE,
        offset: 512,
        length: 2_048,
        byte: 0x42,
        ..FIRST
    },
    Asking {
        kind: WRITE,
        flags: 4,
        byte: 0x66,
        ..FIRST
    },
    Asking {
        kind: WRITE,
        flags: 0x8000,
        byte: 0x66,
        ..FIRST
    },
    Asking {
        kind: TRIM,
        offset: 512,
        ..FIRST
    },
    Asking {
        length: 2_560,
        ..FIRST
    },
    Asking {
        kind: FLUSH,
        offset: 7,
        length: 7,
        ..FIRST
    },
    Asking {
        kind: FLUSH,
        flags: 4,
        ..FIRST
    },
    Asking {
        kind: ZERO,
        flags: 3,
        ..FIRST
    },
    FIRST,
    Asking { kind: 5, ..FIRST },
    Asking { kind: 7, ..FIRST },
    Asking {
        kind: 0xffff,
        ..FIRST
    },
    Asking {
        length: 4_608,
        ..FIRST
    },
    Asking {
        kind: WRITE,
        length: 4_608,
        byte: 0x77,
        ..FIRST
    },
    Asking {
        kind: WRITE,
        flags: 1,
        length: 0,
        ..FIRST
    },
    Asking {
        flags: 3,
        offset: 1_024,
        length: 1_024,
        ..FIRST
    },
];

// The calls of a disk that make a new volume.
const CREATING: u64 = 7;

// Requests on a disk of which one call more passes, which writes the first one's record.
static FAILING: [Asking; 6] = [
    Asking {
        kind: WRITE,
        byte: 0x41,
        ..FIRST
    },
    Asking {
        kind: FLUSH,
        length: 0,
        ..FIRST
    },
    Asking {
        kind: WRITE,
        offset: 512,
        byte: 0x42,
        ..FIRST
    },
    FIRST,
    Asking {
        offset: 512,
        ..FIRST
    },
    Asking {
        kind: TRIM,
        offset: 512,
        ..FIRST
    },
];

/// Tells the requests of a session, how it ends, and the replies.
pub fn tell_all(rt: &HostRuntime) -> Result<(), TestError> {
    tell_session(rt, &ASKINGS, None)
}

/// Tells those of a session on a disk that fails.
pub fn tell_failing(rt: &HostRuntime) -> Result<(), TestError> {
    tell_session(rt, &FAILING, Some(CREATING + 1))
}

fn tell_session(rt: &HostRuntime, askings: &[Asking], fuse: Option<u64>) -> Result<(), TestError> {
    for (cookie, asking) in askings.iter().enumerate() {
        tell_asking(rt, cookie, asking)?;
    }
    let mut link = link_with(rt.alloc(), askings)?;
    let told = tell_replies(rt, &mut link, fuse);
    drop(link);
    told
}

fn tell_replies(rt: &HostRuntime, link: &mut MemLink, fuse: Option<u64>) -> Result<(), TestError> {
    let end = serve(rt.alloc(), link, fuse)?;
    println!(rt; "{end:?}")?;
    tell_bytes(rt, link.bytes().get(ENTERED_BYTES..).unwrap_or(b""))
}

fn tell_asking(rt: &HostRuntime, cookie: usize, asking: &Asking) -> Result<(), TestError> {
    let Asking {
        flags,
        kind,
        offset,
        length,
        ..
    } = asking;
    println!(rt; "{cookie:02x}: type {kind}, flags {flags:x}, {length} bytes at {offset}")?;
    Ok(())
}
