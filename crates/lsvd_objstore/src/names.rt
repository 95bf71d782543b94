ghost use Rattle.std.specs.Prelude.{◌≡◌};

use lsvd_names::ObjName;
use std::marker::Model;

/// Names of objects, as a store lists them. Contracts see them as the list of the names.
#[derive(Debug, Drop)]
pub struct Names {
    names: Vec<ObjName>,
}

impl Model for Names {
    ghost use Rattle.std.specs.Prelude.{List};
    ghost use Rattle.lsvd_names.specs.declared.name.ObjName.{ObjName};

    ghost Value = { List ObjName };

    ghost view = { λ n. n.names.items };
}

impl Names {
    /// The names of this list.
    pub fn from_vec(names: Vec<ObjName>) -> Names
        ensures { result ≡ names.items }
    {
        Names { names }
    }

    /// The names, in their order.
    pub fn as_slice(&self) -> &[ObjName]
        ensures { result.now ≡ self.now }
    {
        self.names.as_slice()
    }
}
