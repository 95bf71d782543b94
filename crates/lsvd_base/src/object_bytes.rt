ghost use Rattle.std.specs.Prelude.{◌≡◌, ◌<◌, ◌^◌, IfOk, length};

use bytes::Bytes;
use std::alloc::AllocError;
use std::marker::Model;

/// The bytes of one object of the store, which contracts see as their list.
///
/// They are written once and have many owners: whoever made the object, a put that is under way, a store in
/// memory and its receipts. A further owner copies no byte. Two are equal exactly where their bytes are.
#[derive(Debug, Drop, PartialEq, Eq)]
pub struct ObjectBytes {
    bytes: Bytes,
}

impl Model for ObjectBytes {
    ghost use Rattle.std.specs.Prelude.{ℕ, List};

    ghost Value = { List ℕ };

    ghost view = { λ b. b.bytes };

    ghost inverse = { λ bytes. record { bytes = bytes } };
}

impl ObjectBytes {
    /// Takes the bytes of an object over, and copies none. The one error is that memory for the count of
    /// owners ran out.
    pub fn from_bytes(bytes: Vec<u8>) -> Result<ObjectBytes, AllocError>
        ensures { IfOk result (λ object. object ≡ bytes.items) }
    {
        let bytes = Bytes::from_vec(bytes)?;
        Ok(ObjectBytes { bytes })
    }

    /// A further owner of the same bytes, of which none is copied. The one error is that there are too many
    /// owners, told as memory that ran out.
    pub fn share(&self) -> Result<ObjectBytes, AllocError>
        ensures { IfOk result (λ object. object ≡ self.now) }
    {
        let bytes = self.bytes.clone()?;
        Ok(ObjectBytes { bytes })
    }

    /// Its bytes.
    pub fn as_bytes(&self) -> &[u8]
        ensures { result.now ≡ self.now }
    {
        self.bytes.as_slice()
    }

    /// How many bytes they are.
    pub fn len(&self) -> u64
        ensures count { result ≡ length self.now }
        ensures bound { result < 2 ^ 63 }
    {
        self.bytes.len() as u64
    }
}
