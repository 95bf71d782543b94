ghost use Rattle.std.specs.Prelude.{◌≡◌, ◌+◌, ◌-◌, ◌<◌, ◌≤◌, ◌++◌, ◌∷◌, [], length, take, drop, slice_get};
ghost use Rattle.std.specs.Prelude.{slice_set, slice_index_or, IfOk};

use crate::steps::Steps;
use std::alloc::{AllocError, Global};
use std::marker::Model;
use std::sync::ledger::Ledger;

// The most items of a page.
pub(crate) const PAGE: usize = 128;

// What a page that is split keeps, and its new neighbour has.
pub(crate) const HALF: usize = 64;

// Up to 128 items, with the memory for all of them.
#[derive(Drop)]
pub(crate) struct Page<T: Copy> {
    items: Vec<T>,
}

impl<T: Copy> Model for Page<T> {
    ghost use Rattle.std.specs.Prelude.{List, ◌≤◌, vec_capacity};
    ghost use Rattle.std.specs.Coded.{coded_list};

    ghost Value = { List T };

    ghost coded = { coded_list T.code };

    ghost view = { λ p. p.items.items };

    ghost invariant = { λ p. 128 ≤ vec_capacity p.items };
}

impl<T: Copy> Page<T> {
    // A page without items. The one error is out of memory.
    pub(crate) fn new(alloc: Global) -> Result<Page<T>, AllocError>
        ensures { IfOk result (λ page. page ≡ []) }
    {
        Ok(Page {
            items: Vec::with_capacity(alloc, PAGE)?,
        })
    }

    // How many items it has.
    pub(crate) fn len(&self) -> usize
        ensures { result ≡ length self.now }
    {
        self.items.len()
    }

    // The item at an index, if there is one.
    pub(crate) fn get(&self, index: usize) -> Option<T>
        ensures { result ≡ slice_get self.now index }
    {
        self.items.get(index).copied()
    }

    // All items.
    pub(crate) fn as_slice(&self) -> &[T]
        ensures { result.now ≡ self.now }
    {
        self.items.as_slice()
    }

    // Puts an item in place of the one at an index.
    pub(crate) fn replace(&mut self, index: usize, item: T)
        requires { index < length self.old }
        ensures { self.new ≡ slice_set self.old index item }
    {
        self.items[index] = item;
    }

    // Puts an item at an index, and counts those after it, which move. The page is not full.
    pub(crate) fn insert<L: Ledger>(&mut self, index: usize, item: T, steps: &mut Steps<L>)
        requires index { index ≤ length self.old }
        requires room { length self.old < 128 }
        ensures items { self.new ≡ take index self.old ++ item ∷ drop index self.old }
        ensures steps { steps.new ≡ steps.old + (length self.old - index) }
    {
        steps.count((self.items.len() - index) as u64);
        let _ = self.items.insert(index, item);
    }

    // Moves the items from the half on into another page, which is empty, and counts them.
    pub(crate) fn split<L: Ledger>(&mut self, rest: &mut Page<T>, steps: &mut Steps<L>)
        requires full { length self.old ≡ 128 }
        requires empty { rest.old ≡ [] }
        ensures first { self.new ≡ take 64 self.old }
        ensures rest { rest.new ≡ drop 64 self.old }
        ensures steps { steps.new ≡ steps.old + 64 }
    {
        steps.count(HALF as u64);
        let _ = rest.items.extend_from_slice(&self.items[HALF..]);
        self.items.truncate(HALF);
    }

    // Takes the items between two indices out, and counts them and those after them, which move.
    pub(crate) fn remove<L: Ledger>(&mut self, from: usize, to: usize, steps: &mut Steps<L>)
        requires order { from ≤ to }
        requires inside { to ≤ length self.old }
        ensures items { self.new ≡ take from self.old ++ drop to self.old }
        ensures steps { steps.new ≡ steps.old + (length self.old - from) }
    {
        steps.count((self.items.len() - from) as u64);
        drop(self.items.drain(from..to));
    }

    // How many items it has above half a page.
    pub(crate) fn surplus(&self) -> usize
        ensures { result ≡ length self.now - 64 }
    {
        self.items.len().saturating_sub(HALF)
    }

    // Takes all items out, and counts them.
    pub(crate) fn clear<L: Ledger>(&mut self, steps: &mut Steps<L>)
        ensures items { self.new ≡ [] }
        ensures steps { steps.new ≡ steps.old + length self.old }
    {
        steps.count(self.items.len() as u64);
        self.items.clear();
    }
}
