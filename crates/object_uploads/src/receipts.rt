ghost use Rattle.std.specs.Prelude.{◌≡◌, ◌+◌, ◌≤◌, ◌++◌, ◌∷◌, [], length, None, OnOk, IsOk, option_map};
ghost use Rattle.object_uploads.specs.Queue.{receipt_in};
ghost use Rattle.object_uploads.specs.Removal.{without_receipt, with_receipt_of};
ghost use Rattle.object_uploads.specs.Receipts.{MayCome, AreStates};

use lsvd_objstore::Receipt;
use std::alloc::{AllocError, Global};
use std::marker::Model;

// What the store gave for an object.
#[derive(Drop)]
struct Known<R: Receipt> {
    number: u64,
    receipt: R,
}

impl<R: Receipt> Model for Known<R> {
    ghost use Rattle.object_uploads.specs.State.{NumberedReceipt};

    ghost Value = { NumberedReceipt };

    ghost view = { λ k. record { number = k.number; receipt = R.state k.receipt } };
}

// What the store gave for objects, by ascending number.
#[derive(Drop)]
pub(crate) struct Receipts<R: Receipt> {
    list: Vec<Known<R>>,
}

impl<R: Receipt> Model for Receipts<R> {
    ghost use Rattle.std.specs.Prelude.{◌-◌, length, vec_capacity};
    ghost use Rattle.object_uploads.specs.Receipts.{ReceiptsState, Ascend, AreStates};

    ghost Value = { ReceiptsState };

    ghost view = { λ r. record {
      list = r.list.items;
      spare = vec_capacity r.list - length r.list.items;
    } };

    ghost invariant = { λ r. Ascend r.list.items × AreStates R.state r.list.items };
}

impl<R: Receipt> Receipts<R> {
    // None. It takes no memory, and has no room.
    pub(crate) fn new(alloc: Global) -> Receipts<R>
        ensures list { result.list ≡ [] }
    {
        Receipts {
            list: Vec::new(alloc),
        }
    }

    // Each is what is seen of a receipt of this kind, as a fact for proofs. Nothing is done.
    pub(crate) fn tell_alike(&self)
        ensures { AreStates R.state self.now.list }
    {
        let _list = &self.list;
    }

    // Makes room for so many more. The one error is out of memory, which comes only where that room is
    // missing.
    pub(crate) fn reserve(&mut self, receipts: usize) -> Result<(), AllocError>
        ensures room { OnOk result (receipts ≤ self.new.spare) }
        ensures succeeds { receipts ≤ self.old.spare → IsOk result }
        ensures list { self.new.list ≡ self.old.list }
        ensures kept { self.old.spare ≤ self.new.spare }
    {
        self.list.reserve(receipts)
    }

    // Adds that of an object with a greater number than those of all others. There is room for it.
    pub(crate) fn push(&mut self, number: u64, receipt: R)
        requires room { 1 ≤ self.old.spare }
        requires last { MayCome number self.old.list }
        ensures list { self.new.list ≡ self.old.list
            ++ record { number = number; receipt = R.state receipt } ∷ [] }
        ensures spare { self.old.spare ≤ self.new.spare + 1 }
    {
        self.list.push_reserved(Known { number, receipt });
    }

    // That of the object of a number, if it is there.
    pub(crate) fn get(&self, number: u64) -> Option<&R>
        ensures { option_map (λ receipt. R.state receipt.now) result ≡ receipt_in self.now.list number }
    {
        match self
            .list
            .binary_search_by_key(&number, |known| known.number)
        {
            Ok(at) => Some(&self.list[at].receipt),
            Err(_) => None,
        }
    }

    // Takes out that of the object of a number, if it is there.
    pub(crate) fn take(&mut self, number: u64) -> Option<R>
        ensures was { option_map R.state result ≡ receipt_in self.old.list number }
        ensures list { self.new.list ≡ without_receipt number self.old.list }
        ensures room { self.new.spare + length self.new.list ≡ self.old.spare + length self.old.list }
    {
        match self
            .list
            .binary_search_by_key(&number, |known| known.number)
        {
            Ok(at) => Some(self.list.remove(at).receipt),
            Err(_) => None,
        }
    }

    // Puts one back in its order, which is not there. There is room for it.
    pub(crate) fn give_back(&mut self, number: u64, receipt: R)
        requires room { 1 ≤ self.old.spare }
        requires absent { receipt_in self.old.list number ≡ None }
        ensures list { self.new.list ≡ with_receipt_of number (R.state receipt) self.old.list }
        ensures spare { self.old.spare ≤ self.new.spare + 1 }
    {
        if let Err(at) = self
            .list
            .binary_search_by_key(&number, |known| known.number)
        {
            let _ = self.list.insert(at, Known { number, receipt });
        }
    }
}
