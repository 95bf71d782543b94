use test_output::TestError;

/// Tells bytes that are letters and digits, on the line that was begun; a dash where there are none.
pub fn tell_text(rt: &HostRuntime, bytes: &[u8]) -> Result<(), TestError> {
    if bytes.is_empty() {
        print!(rt; " -")?;
        return Ok(());
    }
    print!(rt; " ")?;
    for byte in bytes {
        print!(rt; "{}", *byte as char)?;
    }
    Ok(())
}

/// Tells bytes by two digits each, on the line that was begun.
pub fn tell_hex(rt: &HostRuntime, bytes: &[u8]) -> Result<(), TestError> {
    for byte in bytes {
        print!(rt; "{byte:02x}")?;
    }
    Ok(())
}

/// Ends the line that was begun, with a count of faults.
pub fn tell_faults(rt: &HostRuntime, faults: u64) -> Result<(), TestError> {
    println!(rt; ", faults {faults}")?;
    Ok(())
}
