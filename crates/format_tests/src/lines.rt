use test_output::TestError;

/// Writes bytes: some in hexadecimal, and how many of which byte come after them.
pub fn tell_bytes(rt: &HostRuntime, bytes: &[u8], shown: usize) -> Result<(), TestError> {
    let (first, rest) = bytes.split_at(shown.min(bytes.len()));
    if !first.is_empty() {
        let text = hex::encode(rt.alloc(), first)?;
        println!(rt; "  {}", text.as_str())?;
    }
    tell_rest(rt, rest)
}

fn tell_rest(rt: &HostRuntime, rest: &[u8]) -> Result<(), TestError> {
    let Some(byte) = rest.first() else {
        return Ok(());
    };
    if rest.iter().all(|other| other == byte) {
        println!(rt; "  and {} bytes {byte:02x}", rest.len())?;
    } else {
        println!(rt; "  and {} other bytes", rest.len())?;
    }
    Ok(())
}
