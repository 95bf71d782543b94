use std::alloc::{AllocError, Global};

/// The bytes of the greeting.
pub const GREETING_BYTES: usize = 18;

/// What is sent before the first reply to a request: the greeting, what the export is, and an
/// acknowledgement.
pub const ENTERED_BYTES: usize = 18 + 32 + 20;

// A client's flags, and the option that enters the export.
const ENTERING: &[u8] =
    b"\x00\x00\x00\x03IHAVEOPT\x00\x00\x00\x07\x00\x00\x00\x06\x00\x00\x00\x00\x00\x00";

// The request to disconnect.
const DISCONNECTING: &[u8] = b"\x25\x60\x95\x13\x00\x00\x00\x02\x00\x00\x00\x00\x00\x00\x00\x99\
    \x00\x00\x00\x00\x00\x00\x00\x00\x00\x00\x00\x00";

/// A request. What is written has this byte alone.
pub struct Asking {
    pub flags: u16,
    pub kind: u16,
    pub offset: u64,
    pub length: u32,
    pub byte: u8,
}

/// What a client sends that makes these requests, whose cookies count up from 0, and disconnects.
pub fn input_of(alloc: Global, askings: &[Asking]) -> Result<Vec<u8>, AllocError> {
    let mut input = ENTERING.to_vec(alloc)?;
    add_all(&mut input, askings)?;
    input.extend_from_slice(DISCONNECTING)?;
    Ok(input)
}

fn add_all(input: &mut Vec<u8>, askings: &[Asking]) -> Result<(), AllocError> {
    for (cookie, asking) in askings.iter().enumerate() {
        add_head(input, cookie as u64, asking)?;
        if asking.kind == 1 {
            let size = input.len().saturating_add(asking.length as usize);
            input.resize(size, asking.byte)?;
        }
    }
    Ok(())
}

fn add_head(input: &mut Vec<u8>, cookie: u64, asking: &Asking) -> Result<(), AllocError> {
    input.extend_from_slice(b"\x25\x60\x95\x13")?;
    input.extend_from_slice(&asking.flags.to_be_bytes())?;
    input.extend_from_slice(&asking.kind.to_be_bytes())?;
    input.extend_from_slice(&cookie.to_be_bytes())?;
    input.extend_from_slice(&asking.offset.to_be_bytes())?;
    input.extend_from_slice(&asking.length.to_be_bytes())
}
