use crate::dump::tell_bytes;
use crate::greeting::GREETING_BYTES;
use crate::volume::{link_of, serve};
use lsvd_fault::MemLink;
use nbd_session::SessionEnd;
use std::alloc::{AllocError, Global};
use test_output::TestError;

// What a client sends.
struct Input {
    what: &'static str,
    bytes: &'static [u8],
}

// Each of them ends before the first request, or with the request to disconnect, which has no reply.
const INPUTS: &[Input] = &[
    Input {
        what: "nothing",
        bytes: b"",
    },
    Input {
        what: "an unknown flag",
        bytes: b"\x00\x00\x00\x07IHAV",
    },
    Input {
        what: "another magic",
        bytes: b"\x00\x00\x00\x03IHAVEOPS\x00\x00\x00\x03\x00\x00\x00\x00",
    },
    Input {
        what: "the option 1, with zeros after the export",
        bytes: b"\x00\x00\x00\x01IHAVEOPT\x00\x00\x00\x01\x00\x00\x00\x00",
    },
    Input {
        what: "the option 1, without them, by the uuid",
        bytes: b"\x00\x00\x00\x02IHAVEOPT\x00\x00\x00\x01\x00\x00\x00\x24\
            00000000-0000-4000-8000-000000000001",
    },
    Input {
        what: "the option 1 for another export",
        bytes: b"\x00\x00\x00\x03IHAVEOPT\x00\x00\x00\x01\x00\x00\x00\x24\
            00000000-0000-4000-8000-000000000002",
    },
    Input {
        what: "the option 2 with data",
        bytes: b"\x00\x00\x00\x00IHAVEOPT\x00\x00\x00\x02\x00\x00\x00\x03byeIHAV",
    },
    Input {
        what: "the option 3, without and with data",
        bytes: b"\x00\x00\x00\x03IHAVEOPT\x00\x00\x00\x03\x00\x00\x00\x00\
            IHAVEOPT\x00\x00\x00\x03\x00\x00\x00\x01\x00",
    },
    Input {
        what: "the option 6, and then 7",
        bytes: b"\x00\x00\x00\x03IHAVEOPT\x00\x00\x00\x06\x00\x00\x00\x06\x00\x00\x00\x00\x00\x00\
            IHAVEOPT\x00\x00\x00\x07\x00\x00\x00\x06\x00\x00\x00\x00\x00\x00",
    },
    Input {
        what: "the option 7 by the uuid, which asks for the blocks, and a request to disconnect",
        bytes: b"\x00\x00\x00\x01IHAVEOPT\x00\x00\x00\x07\x00\x00\x00\x2c\
            \x00\x00\x00\x2400000000-0000-4000-8000-000000000001\x00\x01\x00\x03\
            \x25\x60\x95\x13\xff\xff\x00\x02\x00\x00\x00\x00\x00\x00\x00\x09\
            \x00\x00\x00\x00\x00\x00\x00\x01\x00\x00\x00\x01",
    },
    Input {
        what: "the option 7, which asks for two other types",
        bytes: b"\x00\x00\x00\x03IHAVEOPT\x00\x00\x00\x07\x00\x00\x00\x0a\
            \x00\x00\x00\x00\x00\x02\x01\x00\x03\x01",
    },
    Input {
        what: "the option 7 with too few types, too many, no count, a name past the data, and no data",
        bytes: b"\x00\x00\x00\x03\
            IHAVEOPT\x00\x00\x00\x07\x00\x00\x00\x08\x00\x00\x00\x00\x00\x02\x00\x03\
            IHAVEOPT\x00\x00\x00\x07\x00\x00\x00\x08\x00\x00\x00\x00\x00\x00\x00\x03\
            IHAVEOPT\x00\x00\x00\x07\x00\x00\x00\x05\x00\x00\x00\x00\x00\
            IHAVEOPT\x00\x00\x00\x07\x00\x00\x00\x07\xff\xff\xff\xffa\x00\x00\
            IHAVEOPT\x00\x00\x00\x07\x00\x00\x00\x00",
    },
    Input {
        what: "the option 7 for another export, and the options 0, 5, 8 and 2^32 - 1",
        bytes: b"\x00\x00\x00\x03\
            IHAVEOPT\x00\x00\x00\x07\x00\x00\x00\x07\x00\x00\x00\x01a\x00\x00\
            IHAVEOPT\x00\x00\x00\x00\x00\x00\x00\x00\
            IHAVEOPT\x00\x00\x00\x05\x00\x00\x00\x00\
            IHAVEOPT\x00\x00\x00\x08\x00\x00\x00\x00\
            IHAVEOPT\xff\xff\xff\xff\x00\x00\x00\x03any",
    },
    Input {
        what: "the option 7 with more data than ever come",
        bytes: b"\x00\x00\x00\x03IHAVEOPT\x00\x00\x00\x07\xff\xff\xff\xff\x00\x00\x00\x00\x00\x00",
    },
];

/// Tells how each of them ends, and what is sent after the greeting.
pub fn tell_all(rt: &HostRuntime) -> Result<(), TestError> {
    let mut link = link_of(rt.alloc(), b"")?;
    let told = tell_greeting(rt, &mut link);
    drop(link);
    told?;
    for input in INPUTS {
        tell(rt, input)?;
    }
    Ok(())
}

fn tell_greeting(rt: &HostRuntime, link: &mut MemLink) -> Result<(), TestError> {
    serve(rt.alloc(), link, None)?;
    tell_bytes(rt, link.bytes())
}

fn tell(rt: &HostRuntime, input: &Input) -> Result<(), TestError> {
    let mut link = link_of(rt.alloc(), input.bytes)?;
    let told = tell_session(rt, input.what, &mut link);
    drop(link);
    told
}

fn tell_session(rt: &HostRuntime, what: &str, link: &mut MemLink) -> Result<(), TestError> {
    let end = serve(rt.alloc(), link, None)?;
    tell_end(rt, what, end)?;
    tell_bytes(rt, link.bytes().get(GREETING_BYTES..).unwrap_or(b""))
}

fn tell_end(rt: &HostRuntime, what: &str, end: SessionEnd) -> Result<(), TestError> {
    println!(rt; "{what}: {end:?}")?;
    Ok(())
}

// The option to abort.
const ABORT: &[u8] = b"IHAVEOPT\x00\x00\x00\x02\x00\x00\x00\x00";

// An option with so many bytes of data, all 0, and then the option to abort.
const LONG: &[(u8, u32)] = &[
    (3, 65_536),
    (3, 65_537),
    (2, 65_536),
    (2, 70_000),
    (1, 65_536),
    (1, 65_537),
];

// So many unknown options, and then the option to abort.
const MANY: &[u64] = &[1_023, 1_024];

/// Tells how a negotiation with long data ends, or one with many options, and the last bytes that are sent.
pub fn tell_long(rt: &HostRuntime) -> Result<(), TestError> {
    for (option, size) in LONG {
        println!(rt; "the option {option} with {size} bytes, and the option 2")?;
        tell_last(rt, long_option(rt.alloc(), *option, *size)?)?;
    }
    for count in MANY {
        println!(rt; "{count} options, and the option 2")?;
        tell_last(rt, many_options(rt.alloc(), *count)?)?;
    }
    Ok(())
}

// The end, how many bytes are sent after the greeting, and the last of them.
fn tell_last(rt: &HostRuntime, input: Vec<u8>) -> Result<(), TestError> {
    let link = link_of(rt.alloc(), input.as_slice());
    drop(input);
    let mut link = link?;
    let told = tell_last_of(rt, &mut link);
    drop(link);
    told
}

fn tell_last_of(rt: &HostRuntime, link: &mut MemLink) -> Result<(), TestError> {
    let end = serve(rt.alloc(), link, None)?;
    let sent = link.bytes().get(GREETING_BYTES..).unwrap_or(b"");
    println!(rt; "{end:?}, {} bytes", sent.len())?;
    let from = sent.len().saturating_sub(40);
    tell_bytes(rt, sent.get(from..).unwrap_or(b""))
}

fn long_option(alloc: Global, option: u8, size: u32) -> Result<Vec<u8>, AllocError> {
    let mut input = b"\x00\x00\x00\x03IHAVEOPT\x00\x00\x00".to_vec(alloc)?;
    add_data(&mut input, option, size)?;
    Ok(input)
}

fn add_data(input: &mut Vec<u8>, option: u8, size: u32) -> Result<(), AllocError> {
    input.extend_from_slice(&[option])?;
    input.extend_from_slice(&size.to_be_bytes())?;
    let end = input.len().saturating_add(size as usize);
    input.resize(end, 0)?;
    input.extend_from_slice(ABORT)
}

fn many_options(alloc: Global, count: u64) -> Result<Vec<u8>, AllocError> {
    let mut input = b"\x00\x00\x00\x03".to_vec(alloc)?;
    add_options(&mut input, count)?;
    Ok(input)
}

fn add_options(input: &mut Vec<u8>, count: u64) -> Result<(), AllocError> {
    for _ in 0..count {
        input.extend_from_slice(b"IHAVEOPT\x00\x00\x00\x63\x00\x00\x00\x00")?;
    }
    input.extend_from_slice(ABORT)
}
