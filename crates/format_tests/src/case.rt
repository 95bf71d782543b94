use std::alloc::{AllocError, Global};

/// Bytes that are changed in some places.
pub struct Case {
    /// What they are then.
    pub what: &'static str,
    /// The places, and what stands there in place of what stood there.
    pub changes: &'static [(usize, u8)],
}

impl Case {
    /// These bytes, with the changes.
    pub fn bytes(&self, alloc: Global, base: &[u8]) -> Result<Vec<u8>, AllocError> {
        let mut bytes = Vec::from_slice(alloc, base)?;
        for (at, byte) in self.changes {
            put(bytes.as_mut_slice(), *at, *byte);
        }
        Ok(bytes)
    }
}

// Puts a byte into its place, if there is one.
fn put(bytes: &mut [u8], at: usize, byte: u8) {
    if at < bytes.len() {
        bytes[at] = byte;
    }
}
