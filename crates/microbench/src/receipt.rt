ghost use Rattle.std.specs.Prelude.{◌≡◌};

use lsvd_names::ObjName;
use lsvd_objstore::Receipt;
use std::alloc::{AllocError, Global};

/// A receipt that keeps no bytes, as that of a directory. A volume has one for each object, so that
/// else its memory would grow by all that was ever written.
#[derive(Drop)]
pub struct PlainReceipt {
    name: ObjName,
    size: u64,
}

impl PlainReceipt {
    /// The receipt of an object with this name and this many bytes.
    pub fn new(name: ObjName, size: u64) -> PlainReceipt
        ensures name { result.name ≡ name }
        ensures size { result.size ≡ size }
    {
        PlainReceipt { name, size }
    }
}

impl Receipt for PlainReceipt {
    ghost use Rattle.std.specs.Prelude.{◌≡◌, false};
    ghost use Rattle.std.proofs.Common.{refl, ap};
    ghost use Rattle.microbench.specs.Receipts.{untold_receipt};
    ghost use Rattle.microbench.specs.declared.receipt.PlainReceipt.{PlainReceipt};

    ghost state = { untold_receipt };

    fn name(&self) -> ObjName {
        self.name
    }

    fn len(&self) -> u64 {
        self.size
    }

    fn copy(&self, _alloc: Global) -> Result<PlainReceipt, AllocError> {
        Ok(PlainReceipt {
            name: self.name,
            size: self.size,
        })
    }

    fn same(&self, other: &PlainReceipt) -> bool {
        self.name == other.name && self.size == other.size
    }

    ghost told_whole = { λ _. tt };

    ghost tells = { false };

    ghost told_alike = { λ _. refl };
}
