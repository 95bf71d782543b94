ghost use Rattle.std.specs.Prelude.{◌≡◌, ◌++◌, ◌∷◌, [], map, string_bytes, OnOk, OnErr};

use std::alloc::{AllocError, Global};
use std::marker::Model;

/// Names of a directory, as it lists them. Contracts see them as the list of the bytes of each.
#[derive(Debug, Drop)]
pub struct FileNames {
    names: Vec<String>,
}

impl Model for FileNames {
    ghost use Rattle.std.specs.Prelude.{List, ℕ, map, string_bytes};

    ghost Value = { List (List ℕ) };

    ghost view = { λ n. map string_bytes n.names.items };
}

impl FileNames {
    /// No names.
    pub fn new(alloc: Global) -> FileNames
        ensures { result ≡ [] }
    {
        FileNames {
            names: Vec::new(alloc),
        }
    }

    /// Adds a name at the end. The one error is that memory ran out, and nothing is added then.
    pub fn push(&mut self, alloc: Global, name: &str) -> Result<(), AllocError>
        ensures ok { OnOk result (self.new ≡ self.old ++ name.now ∷ []) }
        ensures err { OnErr result (self.new ≡ self.old) }
    {
        let owned = String::from_str(alloc, name)?;
        self.names.push(owned)?;
        Ok(())
    }

    /// The names, in their order.
    pub fn as_slice(&self) -> &[String]
        ensures { map string_bytes result.now ≡ self.now }
    {
        self.names.as_slice()
    }
}
