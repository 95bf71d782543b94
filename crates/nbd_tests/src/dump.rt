use test_output::{TestError, head};

// The magics of replies, to an option and to a request.
const OPTION_REPLY: &[u8] = b"\x00\x03\xe8\x89\x04\x55\x65\xa9";

const SIMPLE_REPLY: &[u8] = b"\x67\x44\x66\x98";

// As many equal bytes as are told one by one.
const FEW: u64 = 8;

// Equal bytes one after the other.
#[derive(Clone, Copy)]
struct Run {
    byte: u8,
    count: u64,
}

/// Tells bytes in lines, one for each reply.
pub fn tell_bytes(rt: &HostRuntime, bytes: &[u8]) -> Result<(), TestError> {
    if bytes.is_empty() {
        return head(rt, "  no bytes");
    }
    let mut run = Run { byte: 0, count: 0 };
    print!(rt; "  ")?;
    for (at, byte) in bytes.iter().enumerate() {
        let begins = 0 < at && begins_reply(bytes, at);
        if begins || *byte != run.byte {
            tell_run(rt, run)?;
            run = Run {
                byte: *byte,
                count: 0,
            };
        }
        if begins {
            print!(rt; "\n  ")?;
        }
        run.count = run.count.saturating_add(1);
    }
    tell_run(rt, run)?;
    head(rt, "")
}

fn begins_reply(bytes: &[u8], at: usize) -> bool {
    match bytes.get(at..) {
        Some(rest) => rest.starts_with(OPTION_REPLY) || rest.starts_with(SIMPLE_REPLY),
        None => false,
    }
}

fn tell_run(rt: &HostRuntime, run: Run) -> Result<(), TestError> {
    let Run { byte, count } = run;
    if FEW < count {
        print!(rt; "[{byte:02x}*{count}]")?;
        return Ok(());
    }
    for _ in 0..count {
        print!(rt; "{byte:02x}")?;
    }
    Ok(())
}
