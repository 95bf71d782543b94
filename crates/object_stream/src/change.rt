ghost use Rattle.std.specs.Prelude.{◌≡◌, ◌==◌, Some, option_copied};
ghost use Rattle.std.specs.Option.{option_eq};
ghost use Rattle.std.specs.Cmp.Lexicographic.{pointwise};
ghost use Rattle.std.specs.Cmp.Rules.{comparing};
ghost use Rattle.std.specs.Ordering.{on};
ghost use Rattle.std.proofs.Common.{rules};
ghost use Rattle.object_stream.specs.Value.{sector_put};

use lsvd_base::Body;

/// What entries, or an object, do to a sector of the volume.
#[derive(Debug, Drop)]
pub enum Change {
    /// It has these bytes from then on, one sector.
    Put(Body),
    /// It has zeros from then on.
    Clear,
}

impl Change {
    /// The bytes that it puts. None is for zeros.
    pub fn data(&self) -> Option<&[u8]>
        ensures { option_copied result ≡ sector_put (Some self.now) }
    {
        match self {
            Change::Put(body) => Some(body.as_bytes()),
            Change::Clear => None,
        }
    }
}

impl PartialEq for Change {
    ghost eq = { on (λ change. sector_put (Some change)) (option_eq (pointwise ◌==◌)) };

    ghost laws = { Prim.search (comparing, rules) };

    fn eq(&self, other: &Change) -> bool {
        self.data() == other.data()
    }
}
