ghost use Rattle.std.specs.Prelude.{suc, ◌↔◌, IsTrue, IfSome, IfNone};
ghost use Rattle.clone_chain.specs.Chain.{IsLevelOf, IsNoAncestor, AreApart};

use uuid::Uuid;

/// A volume that a clone was made of, perhaps by way of further clones.
#[derive(Clone, Copy, Debug, PartialEq, Eq)]
pub struct Ancestor {
    /// The volume's uuid.
    pub uuid: Uuid,
    /// The number of its checkpoint that was cloned: the clone has the sectors of the volume as they were
    /// there.
    pub checkpoint: u64,
}

// The place of the first of these with this uuid: one less than its level.
pub(crate) fn place_of(ancestors: &[Ancestor], uuid: Uuid) -> Option<usize>
    ensures found { IfSome result (λ place. IsLevelOf ancestors.now uuid (suc place)) }
    ensures none { IfNone result (IsNoAncestor ancestors.now uuid) }
{
    ancestors.iter().position(|ancestor| ancestor.uuid == uuid)
}

// Whether no two of these have one uuid.
pub(crate) fn are_apart(ancestors: &[Ancestor]) -> bool
    ensures { IsTrue result ↔ AreApart ancestors.now }
{
    for (place, ancestor) in ancestors.iter().enumerate() {
        if place_of(&ancestors[..place], ancestor.uuid).is_some() {
            return false;
        }
    }
    true
}
