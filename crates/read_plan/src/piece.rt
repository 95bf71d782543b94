ghost use Rattle.std.specs.Prelude.{◌≡◌, length, OnOk, IfSome, IsSome, is_err};
ghost use Rattle.lsvd_fault.specs.Faults.{Counts};
ghost use Rattle.lsvd_objstore.specs.Store.{OnlyCounts};
ghost use Rattle.read_plan.specs.Plan.{PieceFits, pasted, AsksFor};

use lsvd_fault::Failed;
use lsvd_objstore::{Receipt, Store};
use read_cache::ReadCache;
use std::marker::Model;

// A part of a read that an object has.
#[derive(Drop)]
pub(crate) struct Piece<R: Receipt> {
    // The byte of the read at which it begins, and how many bytes it has.
    pub(crate) at: usize,
    pub(crate) count: usize,
    // What the store gave for the object, and the byte of the object at which the part begins.
    pub(crate) receipt: R,
    pub(crate) from: u64,
}

impl<R: Receipt> Model for Piece<R> {
    ghost use Rattle.read_plan.specs.Plan.{PieceState};

    ghost Value = { PieceState };

    ghost view = { λ p. record { at = p.at; count = p.count; receipt = R.state p.receipt; from = p.from } };
}

impl<R: Receipt> Piece<R> {
    // Fetches the part through a cache, over the bytes of the read, which it fits (a condition). Where a get
    // fails, any bytes stand in it.
    pub(crate) fn fetch<S: Store<Receipt = R>>(
        &self,
        store: &mut S,
        cache: &mut ReadCache<R>,
        buf: &mut [u8],
    ) -> Result<(), Failed>
        requires { PieceFits (length buf.old) self.now }
        ensures bytes { OnOk result (IfSome self.now.receipt.told
            (λ told. buf.new ≡ pasted self.now told buf.old)) }
        ensures told { ((receipt : R) → IsSome (R.state receipt).told) → IsSome self.now.receipt.told }
        ensures size { length buf.new ≡ length buf.old }
        ensures asked { AsksFor self.now (S.gets store.old) (S.gets store.new) }
        ensures unchanged { OnlyCounts (S.state store.old) (S.state store.new) }
        ensures count { Counts (is_err result) (S.state store.old).faults (S.state store.new).faults }
    {
        let part = &mut buf[self.at..self.at + self.count];
        cache.read_through(&self.receipt, self.from, part, store)
    }
}
