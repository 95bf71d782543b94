ghost use Rattle.std.specs.Prelude.{◌≡◌, IfOk};
ghost use Rattle.std.specs.Str.{bytes_eq};

use std::alloc::{AllocError, Global};
use std::marker::Model;

/// A word of a line that has a letter for each of some writes, or other bytes: contracts see the list of its
/// bytes.
#[derive(Debug, Drop)]
pub struct Letters {
    bytes: Vec<u8>,
}

impl Model for Letters {
    ghost use Rattle.std.specs.Prelude.{ℕ, List};

    ghost Value = { List ℕ };

    ghost view = { λ l. l.bytes.items };
}

impl Letters {
    /// The letters of this word. The one error is out of memory.
    pub fn from_word(alloc: Global, word: &[u8]) -> Result<Letters, AllocError>
        ensures { IfOk result (λ letters. letters ≡ word.now) }
    {
        let bytes = Vec::from_slice(alloc, word)?;
        Ok(Letters { bytes })
    }

    /// Its bytes.
    pub fn as_bytes(&self) -> &[u8]
        ensures { result.now ≡ self.now }
    {
        self.bytes.as_slice()
    }
}
