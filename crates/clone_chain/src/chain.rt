ghost use Rattle.std.specs.Prelude.{◌≡◌, ◌+◌, ◌<◌, ℕ, [], ◌∷◌, length, IfOk, OnOk, IfErr, IfSome, OnSome};
ghost use Rattle.std.specs.Prelude.{IfNone};
ghost use Rattle.clone_chain.specs.Chain.{ancestor_at, IsLevelOf, IsNoAncestor, IsChain, IsReasonNotToExtend};
ghost use Rattle.clone_chain.specs.declared.chain.ExtendError.TheVariants.{OutOfMemory};

use crate::ancestor::{Ancestor, are_apart, place_of};
use std::alloc::{AllocError, Global};
use std::marker::Model;
use thiserror::Error;
use uuid::Uuid;

/// Why a chain was not extended.
#[derive(Clone, Copy, Debug, PartialEq, Eq, Error)]
pub enum ExtendError {
    /// The volume has as many levels as a volume may have, its own included: no clone can be made of it.
    #[error("the volume has {levels} levels already")]
    TooDeep { levels: u32 },
    /// There is no memory for the chain.
    #[error("out of memory")]
    OutOfMemory,
}

impl From<AllocError> for ExtendError {
    ghost from_gives = { λ _ e. e ≡ OutOfMemory };

    fn from(_e: AllocError) -> ExtendError {
        ExtendError::OutOfMemory
    }
}

/// The ancestors of a volume, which contracts see as their list, the nearest first: at most 15, and no two of
/// one uuid.
///
/// The nearest is at level 1, and each further one at the next. Level 0 is the volume itself, which its chain
/// does not hold.
#[derive(Debug, Drop)]
pub struct Chain {
    ancestors: Vec<Ancestor>,
}

impl Model for Chain {
    ghost use Rattle.std.specs.Prelude.{List};
    ghost use Rattle.clone_chain.specs.declared.ancestor.Ancestor.{Ancestor};
    ghost use Rattle.clone_chain.specs.Chain.{IsChain};

    ghost Value = { List Ancestor };

    ghost view = { λ c. c.ancestors.items };

    ghost invariant = { λ c. IsChain c.ancestors.items };
}

impl Chain {
    /// The most levels of a volume, its own included.
    pub const MAX_LEVELS: u32 = 16;

    // The most ancestors of a volume.
    const MAX_ANCESTORS: usize = 15;

    /// The chain of a volume that is no clone.
    pub fn new(alloc: Global) -> Chain
        ensures { result ≡ [] }
    {
        Chain {
            ancestors: Vec::new(alloc),
        }
    }

    /// The chain with these ancestors, the nearest first. None is where there are more than 15, or two have
    /// one uuid.
    pub fn from_ancestors(ancestors: Vec<Ancestor>) -> Option<Chain>
        ensures found { IfSome result (λ chain. chain ≡ ancestors.items) }
        ensures chain { OnSome result (IsChain ancestors.items) }
        ensures none { IfNone result (IsChain ancestors.items → ⊥) }
    {
        if ancestors.len() > Self::MAX_ANCESTORS || !are_apart(ancestors.as_slice()) {
            return None;
        }
        Some(Chain { ancestors })
    }

    /// The ancestors, the nearest first.
    pub fn ancestors(&self) -> &[Ancestor]
        ensures value { result.now ≡ self.now }
        ensures chain { IsChain self.now }
    {
        self.ancestors.as_slice()
    }

    /// How many ancestors there are, 0 to 15: the greatest level of the volume.
    pub fn count(&self) -> u32
        ensures count { result ≡ length self.now }
        ensures chain { IsChain self.now }
    {
        self.ancestors.len() as u32
    }

    /// The ancestor at a level, from 1 up to `count`. None is at level 0, which is the volume's own, and past
    /// the last.
    pub fn ancestor(&self, level: u32) -> Option<Ancestor>
        ensures { result ≡ ancestor_at self.now level }
    {
        let place = level.checked_sub(1)?;
        self.ancestors.as_slice().get(place as usize).copied()
    }

    /// The level of the ancestor with this uuid, from 1 on. None is where no ancestor has it.
    pub fn level_of(&self, uuid: Uuid) -> Option<u32>
        ensures found { IfSome result (IsLevelOf self.now uuid) }
        ensures none { IfNone result (IsNoAncestor self.now uuid) }
    {
        let place = place_of(self.ancestors.as_slice(), uuid)?;
        Some(place as u32 + 1)
    }

    /// The chain of a clone of the volume with this chain: that volume, with the checkpoint that is cloned,
    /// and then its own ancestors, of which it is none (a condition). `TooDeep` comes exactly where the
    /// volume has 16 levels, its own included, which it tells. The other error is that memory ran out.
    pub fn extend(&self, alloc: Global, uuid: Uuid, checkpoint: u64) -> Result<Chain, ExtendError>
        requires { IsNoAncestor self.now uuid }
        ensures ok { IfOk result (λ chain. chain ≡ record { uuid = uuid; checkpoint = checkpoint }
            ∷ self.now) }
        ensures depth { OnOk result (length self.now < 15) }
        ensures refused { IfErr result (IsReasonNotToExtend self.now) }
    {
        let count = self.ancestors.len();
        if count == Self::MAX_ANCESTORS {
            return Err(ExtendError::TooDeep {
                levels: Self::MAX_LEVELS,
            });
        }
        let first = Ancestor { uuid, checkpoint };
        let ancestors = with_first(alloc, first, self.ancestors.as_slice())?;
        Ok(Chain { ancestors })
    }
}

// The one, and then the others.
fn with_first(
    alloc: Global,
    first: Ancestor,
    others: &[Ancestor],
) -> Result<Vec<Ancestor>, AllocError>
    requires { length others.now < 15 }
    ensures { IfOk result (λ ancestors. ancestors.items ≡ first ∷ others.now) }
{
    let mut ancestors = Vec::with_capacity(alloc, others.len() + 1)?;
    ancestors.push(first)?;
    ancestors.extend_from_slice(others)?;
    Ok(ancestors)
}
