ghost use Rattle.std.specs.Prelude.{◌≡◌, ℕ, List, [], length, IfOk, OnOk, OnErr, IsSome, is_err};
ghost use Rattle.std.specs.List.{AllByRecursion};
ghost use Rattle.std.specs.List.Sorted.{IsStrictlyIncreasing};
ghost use Rattle.lsvd_fault.specs.Faults.{Counts};
ghost use Rattle.lsvd_objstore.specs.Store.{OnlyCounts};
ghost use Rattle.read_plan.specs.Plan.{PieceFits, Gives, GivesOver, GivesNoOther};
ghost use Rattle.read_plan.specs.Plan.{AreAsked, AreAskedOfFirst};

use crate::piece::Piece;
use lsvd_fault::Failed;
use lsvd_objstore::{Receipt, Store};
use read_cache::ReadCache;
use std::alloc::Global;
use std::marker::Model;
use std::mem;

/// The plan of a read: the bytes that the log has, and where objects have the others.
#[derive(Drop)]
pub struct Plan<R: Receipt> {
    pub(crate) history_length: u64,
    pub(crate) bytes: Vec<u8>,
    pub(crate) pieces: Vec<Piece<R>>,
    pub(crate) objects: Vec<u64>,
}

impl<R: Receipt> Model for Plan<R> {
    ghost use Rattle.std.specs.Prelude.{length};
    ghost use Rattle.std.specs.List.{AllByRecursion};
    ghost use Rattle.std.specs.List.Sorted.{IsStrictlyIncreasing};
    ghost use Rattle.read_plan.specs.Plan.{PieceFits, PlanState};

    ghost Value = { PlanState };

    ghost view = { λ p. record {
      history_length = p.history_length;
      bytes = p.bytes.items;
      pieces = p.pieces.items;
      objects = p.objects.items;
    } };

    ghost invariant = { λ p. AllByRecursion (PieceFits (length p.bytes.items)) p.pieces.items
        × IsStrictlyIncreasing p.objects.items };
}

impl<R: Receipt> Plan<R> {
    /// How many entries the history had at the look.
    pub fn history_length(&self) -> u64
        ensures { result ≡ self.now.history_length }
    {
        self.history_length
    }

    /// The numbers of the volume's own objects that it takes sectors from, in ascending order, each once.
    pub fn objects(&self) -> &[u64]
        ensures objects { result.now ≡ self.now.objects }
        ensures ascending { IsStrictlyIncreasing self.now.objects }
    {
        self.objects.as_slice()
    }

    /// Fetches the bytes of the read, each part that an object has through a cache, which asks for two gets
    /// of it at most, and hands them out. They are in the plan's own buffer, of which nothing is copied; so a
    /// plan is fetched once, and has no bytes from then on, but its objects. Where the receipts tell their
    /// objects' bytes, these are the bytes that the plan gives. The first get that fails ends it with
    /// `Failed`; the store counted that.
    pub fn fetch<S: Store<Receipt = R>>(
        &mut self,
        alloc: Global,
        store: &mut S,
        cache: &mut ReadCache<R>,
    ) -> Result<Vec<u8>, Failed>
        ensures bytes { IfOk result (λ read. Gives self.old read.items) }
        ensures one { ((receipt : R) → IsSome (R.state receipt).told)
            → IfOk result (λ read. GivesNoOther self.old read.items) }
        ensures size { IfOk result (λ read. length read.items ≡ length self.old.bytes) }
        ensures left { self.new ≡ record self.old { bytes = []; pieces = [] } }
        ensures asked { OnOk result (AreAsked self.old.pieces (S.gets store.old) (S.gets store.new)) }
        ensures asked_front { OnErr result (AreAskedOfFirst self.old.pieces (S.gets store.old)
            (S.gets store.new)) }
        ensures unchanged { OnlyCounts (S.state store.old) (S.state store.new) }
        ensures count { Counts (is_err result) (S.state store.old).faults (S.state store.new).faults }
    {
        let mut bytes = mem::replace(&mut self.bytes, Vec::new(alloc));
        let pieces = mem::replace(&mut self.pieces, Vec::new(alloc));
        fetch_each(&pieces, store, cache, bytes.as_mut_slice())?;
        Ok(bytes)
    }
}

// Fetches pieces through a cache, over the bytes of a read, which they fit (a condition). The first get that
// fails ends it; then any bytes stand in them.
fn fetch_each<R: Receipt, S: Store<Receipt = R>>(
    pieces: &[Piece<R>],
    store: &mut S,
    cache: &mut ReadCache<R>,
    buf: &mut [u8],
) -> Result<(), Failed>
    requires { AllByRecursion (PieceFits (length buf.old)) pieces.now }
    ensures bytes { OnOk result (GivesOver pieces.now buf.old buf.new) }
    ensures one { ((receipt : R) → IsSome (R.state receipt).told)
        → OnOk result ((bytes : List ℕ) → GivesOver pieces.now buf.old bytes → bytes ≡ buf.new) }
    ensures size { length buf.new ≡ length buf.old }
    ensures asked { OnOk result (AreAsked pieces.now (S.gets store.old) (S.gets store.new)) }
    ensures asked_front { OnErr result (AreAskedOfFirst pieces.now (S.gets store.old) (S.gets store.new)) }
    ensures unchanged { OnlyCounts (S.state store.old) (S.state store.new) }
    ensures count { Counts (is_err result) (S.state store.old).faults (S.state store.new).faults }
{
    for piece in pieces {
        piece.fetch(store, cache, buf)?;
    }
    Ok(())
}
