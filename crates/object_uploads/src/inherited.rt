ghost use Rattle.std.specs.Prelude.{◌≡◌, ◌++◌, ◌∷◌, [], find, option_map, IfSome, OnOk, OnErr};
ghost use Rattle.object_uploads.specs.Queue.{is_of_owner, inherited_in};
ghost use Rattle.object_uploads.specs.Order.{ComesLast};
ghost use Rattle.object_uploads.specs.Receipts.{AreInheritedStates};

use lsvd_objstore::Receipt;
use std::alloc::{AllocError, Global};
use std::marker::Model;

// An object of an ancestor.
#[derive(Drop)]
struct Found<R: Receipt> {
    level: u32,
    number: u64,
    // What the store gave for it.
    receipt: R,
    // How many sectors it has before its payload.
    front: u64,
}

impl<R: Receipt> Model for Found<R> {
    ghost use Rattle.object_uploads.specs.State.{InheritedObject};

    ghost Value = { InheritedObject };

    ghost view = { λ f. record {
      level = f.level;
      number = f.number;
      receipt = R.state f.receipt;
      front = f.front;
    } };
}

// The objects of a volume's ancestors that the map names, by ascending level, and then by number.
#[derive(Drop)]
pub(crate) struct Inherited<R: Receipt> {
    list: Vec<Found<R>>,
}

impl<R: Receipt> Model for Inherited<R> {
    ghost use Rattle.std.specs.Prelude.{List};
    ghost use Rattle.object_uploads.specs.State.{InheritedObject};
    ghost use Rattle.object_uploads.specs.Order.{AreAscending};
    ghost use Rattle.object_uploads.specs.Receipts.{AreInheritedStates};

    ghost Value = { List InheritedObject };

    ghost view = { λ i. i.list.items };

    ghost invariant = { λ i. AreAscending i.list.items × AreInheritedStates R.state i.list.items };
}

impl<R: Receipt> Inherited<R> {
    // None. It takes no memory.
    pub(crate) fn new(alloc: Global) -> Inherited<R>
        ensures { result ≡ [] }
    {
        Inherited {
            list: Vec::new(alloc),
        }
    }

    // Each receipt is what is seen of one of this kind, as a fact for proofs. Nothing is done.
    pub(crate) fn tell_alike(&self)
        ensures { AreInheritedStates R.state self.now }
    {
        let _list = &self.list;
    }

    // Adds one that comes after all others. The one error is out of memory; then nothing changes.
    pub(crate) fn push(
        &mut self,
        level: u32,
        number: u64,
        front: u64,
        receipt: R,
    ) -> Result<(), AllocError>
        requires { ComesLast level number self.old }
        ensures added { OnOk result (self.new ≡ self.old
            ++ record { level = level; number = number; receipt = R.state receipt; front = front } ∷ []) }
        ensures same { OnErr result (self.new ≡ self.old) }
    {
        self.list.push(Found {
            level,
            number,
            receipt,
            front,
        })?;
        Ok(())
    }

    // What the store gave for the object of a level and a number, if it is there.
    pub(crate) fn receipt(&self, level: u32, number: u64) -> Option<&R>
        ensures { option_map (λ receipt. R.state receipt.now) result ≡ option_map (λ object. object.receipt)
            (inherited_in self.now (record { level = level; number = number })) }
    {
        let found = self.find(level, number)?;
        Some(&found.receipt)
    }

    // How many sectors it has before its payload, if it is there.
    pub(crate) fn front(&self, level: u32, number: u64) -> u64
        ensures { IfSome (inherited_in self.now (record { level = level; number = number }))
            (λ object. result ≡ object.front) }
    {
        match self.find(level, number) {
            Some(found) => found.front,
            None => 0,
        }
    }

    // The object of a level and a number, if it is there.
    fn find(&self, level: u32, number: u64) -> Option<&Found<R>>
        ensures { option_map (λ found. found.now) result
            ≡ find (is_of_owner (record { level = level; number = number })) self.now }
    {
        match self.list.binary_search_by(|object| {
            object.level.cmp(&level).then(object.number.cmp(&number))
        }) {
            Ok(at) => Some(&self.list[at]),
            Err(_) => None,
        }
    }
}
