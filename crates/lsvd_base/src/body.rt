ghost use Rattle.std.specs.Prelude.{◌≡◌, ◌*◌, ◌%◌, IfOk, length, replicate};

use std::alloc::{AllocError, Global};
use std::marker::Model;

/// The bytes of one sector.
pub const SECTOR_BYTES: u64 = 512;

/// The data of a write or a read: whole sectors, which contracts see as the list of their bytes.
#[derive(Debug, Drop)]
pub struct Body {
    bytes: Vec<u8>,
}

impl Model for Body {
    ghost use Rattle.std.specs.Prelude.{◌≡◌, ◌%◌, ℕ, List, length};

    ghost Value = { List ℕ };

    ghost view = { λ b. b.bytes.items };

    ghost invariant = { λ b. length b.bytes.items % 512 ≡ 0 };
}

impl Body {
    /// Takes bytes that are whole sectors.
    pub fn from_bytes(bytes: Vec<u8>) -> Body
        requires { length bytes.items % 512 ≡ 0 }
        ensures { result ≡ bytes.items }
    {
        Body { bytes }
    }

    /// A body of `sectors` sectors, each byte of which is `byte`. The one error is that memory ran out.
    pub fn filled(alloc: Global, sectors: u64, byte: u8) -> Result<Body, AllocError>
        ensures { IfOk result (λ body. body ≡ replicate (512 * sectors) byte) }
    {
        let Some(count) = sectors.checked_mul(SECTOR_BYTES) else {
            return Err(AllocError);
        };
        let bytes = vec![in alloc; byte; count as usize]?;
        Ok(Body { bytes })
    }

    /// How many sectors it has.
    pub fn sectors(&self) -> u64
        ensures { 512 * result ≡ length self.now }
    {
        self.bytes.len() as u64 / SECTOR_BYTES
    }

    /// Its bytes, sector after sector.
    pub fn as_bytes(&self) -> &[u8]
        ensures bytes { result.now ≡ self.now }
        ensures whole { length self.now % 512 ≡ 0 }
    {
        self.bytes.as_slice()
    }

    /// The same bytes again. The one error is that memory ran out.
    pub fn copy(&self, alloc: Global) -> Result<Body, AllocError>
        ensures { IfOk result (λ body. body ≡ self.now) }
    {
        let bytes = Vec::from_slice(alloc, self.bytes.as_slice())?;
        Ok(Body { bytes })
    }
}
