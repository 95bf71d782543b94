ghost use Rattle.std.specs.Prelude.{◌≡◌, ◌≢◌, ◌↔◌, ◌+◌, ◌-◌, ◌^◌, ◌<◌, ◌≤◌, ◌++◌, ◌∷◌, ℕ, Bool, [], length};
ghost use Rattle.std.specs.Prelude.{take, drop, slice_get, slice_set, slice_index_or, OnOk, IfOk, IsOk};
ghost use Rattle.std.specs.Prelude.{IsTrue, true, MatchOption, Some};
ghost use Rattle.std.specs.List.{prefix_len};
ghost use Rattle.std.specs.List.Sorted.{IsPartitionedBy};
ghost use Rattle.page_list.specs.Items.{IsIn, cursor_index, page_start, length_at, insert_room, halves_of};
ghost use Rattle.page_list.specs.Test.{AnswersBy};

use crate::cursor::Cursor;
use crate::free::{add_pages, release, surplus_in};
use crate::page::{HALF, PAGE, Page};
use crate::search::{search, search_pages};
use crate::steps::Steps;
use std::alloc::{AllocError, Global};
use std::marker::Model;
use std::sync::ledger::Ledger;

// More pages than memory can have. So fewer than 2^55 items stand in a list.
const MAX_PAGES: usize = 1 << 47;

/// A list whose items stand in pages of at most 128, none of them empty. Each page has the memory for all of
/// its items from the beginning, and one that becomes empty is kept for later.
///
/// Contracts see its items in order, how many each page has, and how many empty pages it keeps.
#[derive(Drop)]
pub struct PageList<T: Copy> {
    alloc: Global,
    // The pages, none of which is empty.
    pages: Vec<Page<T>>,
    // Empty pages, for later.
    free: Vec<Page<T>>,
    // What the pages have above half a page each.
    surplus: usize,
}

impl<T: Copy> Model for PageList<T> {
    ghost use Rattle.page_list.specs.Items.{ListState, list_state_code};

    ghost Value = { ListState T };

    ghost coded = { list_state_code T.code };

    ghost use Rattle.std.specs.Prelude.{length, vec_capacity, ◌≡◌, ◌+◌, ◌≤◌, ◌^◌};
    ghost use Rattle.page_list.specs.Items.{surplus_of};
    ghost use Rattle.page_list.specs.Pages.{items_of, lengths_of, AreKept};

    ghost view = { λ m. record {
      items = items_of m.pages.items;
      lengths = lengths_of m.pages.items;
      free = length m.free.items;
    } };

    ghost invariant = { λ m. AreKept m.pages.items m.free.items m.surplus (vec_capacity m.pages)
        (vec_capacity m.free) };
}

impl<T: Copy> PageList<T> {
    /// A list without items. It takes no memory, and has no room for an insert.
    pub fn new(alloc: Global) -> PageList<T>
        ensures { result ≡ record { items = []; lengths = []; free = 0 } }
    {
        PageList {
            alloc,
            pages: Vec::new(alloc),
            free: Vec::new(alloc),
            surplus: 0,
        }
    }

    /// For how many inserts there is room, wherever they go.
    pub fn room(&self) -> usize
        ensures { result ≡ insert_room self.now }
    {
        let lack = match self.pages.last() {
            Some(page) => HALF.saturating_sub(page.len()),
            None => 0,
        };
        let free = self.free.len();
        free.max((HALF * free + lack).saturating_sub(self.surplus))
    }

    /// Makes room for N inserts. The one error is out of memory, which comes only where that room is missing.
    /// The items stay where they are, so cursors stay good, and no room is lost.
    pub fn reserve(&mut self, inserts: usize) -> Result<(), AllocError>
        ensures ok { OnOk result (inserts ≤ insert_room self.new) }
        ensures items { self.new.items ≡ self.old.items }
        ensures lengths { self.new.lengths ≡ self.old.lengths }
        ensures room { insert_room self.old ≤ insert_room self.new }
        ensures succeeds { inserts ≤ insert_room self.old → IsOk result }
    {
        if inserts <= self.room() {
            return Ok(());
        }
        let pages = inserts.min(inserts / HALF + self.surplus / HALF + 2);
        if MAX_PAGES - self.pages.len() < pages {
            return Err(AllocError);
        }
        self.add_free(pages)
    }

    // Keeps N empty pages at least.
    fn add_free(&mut self, pages: usize) -> Result<(), AllocError>
        requires { length self.old.lengths + pages ≤ 2 ^ 47 }
        ensures ok { OnOk result (pages ≤ self.new.free) }
        ensures items { self.new.items ≡ self.old.items }
        ensures lengths { self.new.lengths ≡ self.old.lengths }
        ensures free { self.old.free ≤ self.new.free }
    {
        let missing = pages.saturating_sub(self.free.len());
        self.pages.reserve(self.free.len() + missing)?;
        self.free.reserve(self.pages.len() + missing)?;
        add_pages(self.alloc, &mut self.free, missing)
    }

    /// How many items it has: the sum over its pages.
    pub fn len(&self) -> usize
        ensures { result ≡ length self.now.items }
    {
        let mut len = 0;
        for page in &self.pages {
            len += page.len();
        }
        len
    }

    /// All items. The one error is out of memory.
    pub fn to_vec(&self, alloc: Global) -> Result<Vec<T>, AllocError>
        ensures { IfOk result (λ all. all.items ≡ self.now.items) }
    {
        let mut all = Vec::new(alloc);
        for page in &self.pages {
            all.extend_from_slice(page.as_slice())?;
        }
        Ok(all)
    }

    /// The place of the first item, or the end where there is none.
    pub fn start(&self) -> Cursor
        ensures place { IsIn self.now.lengths result }
        ensures index { cursor_index self.now.lengths result ≡ 0 }
    {
        self.start_at(0)
    }

    // The start of a page, or the end after the last.
    fn start_at(&self, page: usize) -> Cursor
        requires { page ≤ length self.now.lengths }
        ensures place { IsIn self.now.lengths result }
        ensures index { cursor_index self.now.lengths result ≡ page_start self.now.lengths page }
        ensures page { (result.page ≡ page) × (result.item ≡ 0) }
    {
        let _ = &self.pages;
        Cursor { page, item: 0 }
    }

    // How many items a page has.
    fn page_len(&self, page: usize) -> usize
        requires { page < length self.now.lengths }
        ensures length { result ≡ length_at self.now.lengths page }
        ensures some { 0 < result }
        ensures bound { result ≤ 128 }
    {
        self.pages[page].len()
    }

    /// The end.
    pub fn end(&self) -> Cursor
        ensures place { IsIn self.now.lengths result }
        ensures index { cursor_index self.now.lengths result ≡ length self.now.items }
    {
        self.start_at(self.pages.len())
    }

    /// The item at a place of this list (a condition); none at the end.
    pub fn get(&self, at: Cursor) -> Option<T>
        requires { IsIn self.now.lengths at }
        ensures { result ≡ slice_get self.now.items (cursor_index self.now.lengths at) }
    {
        self.pages.get(at.page)?.get(at.item)
    }

    /// The place after an item of this list (conditions).
    pub fn next(&self, at: Cursor) -> Cursor
        requires place { IsIn self.now.lengths at }
        requires some { cursor_index self.now.lengths at < length self.now.items }
        ensures place { IsIn self.now.lengths result }
        ensures index { cursor_index self.now.lengths result ≡ cursor_index self.now.lengths at + 1 }
    {
        let _ = &self.pages;
        let last = self.page_len(at.page) - 1;
        if at.item < last {
            Cursor {
                page: at.page,
                item: at.item + 1,
            }
        } else {
            self.start_at(at.page + 1)
        }
    }

    /// The item before a place of this list (a condition), with its own place; none at the start.
    pub fn before(&self, at: Cursor) -> Option<(Cursor, T)>
        requires { IsIn self.now.lengths at }
        ensures { MatchOption result (cursor_index self.now.lengths at ≡ 0)
            (λ last. IsIn self.now.lengths last.0
            × (cursor_index self.now.lengths last.0 + 1 ≡ cursor_index self.now.lengths at)
            × (slice_get self.now.items (cursor_index self.now.lengths last.0) ≡ Some last.1)) }
    {
        let _ = &self.pages;
        let last = self.previous(at)?;
        Some((last, self.get(last)?))
    }

    // The place before one, unless that is the start.
    fn previous(&self, at: Cursor) -> Option<Cursor>
        requires { IsIn self.now.lengths at }
        ensures { MatchOption result (cursor_index self.now.lengths at ≡ 0)
            (λ last. IsIn self.now.lengths last
            × (cursor_index self.now.lengths last + 1 ≡ cursor_index self.now.lengths at)) }
    {
        if at.item != 0 {
            return Some(Cursor {
                page: at.page,
                item: at.item - 1,
            });
        }
        let page = at.page.checked_sub(1)?;
        Some(Cursor {
            page,
            item: self.page_len(page) - 1,
        })
    }

    /// Puts an item in place of one of this list (conditions). Each place stays that of its item.
    pub fn replace(&mut self, at: Cursor, item: T)
        requires place { IsIn self.old.lengths at }
        requires some { cursor_index self.old.lengths at < length self.old.items }
        ensures items { self.new.items ≡ slice_set self.old.items (cursor_index self.old.lengths at) item }
        ensures lengths { self.new.lengths ≡ self.old.lengths }
        ensures free { self.new.free ≡ self.old.free }
    {
        self.pages[at.page].replace(at.item, item);
    }

    /// The place of the first item that does not pass a test, or the end. That is what it answers where the
    /// items that pass stand before those that do not; else it is some place of the list. The test may be
    /// called at any item (a condition). Each call of it is a step: at most 9 more than the number of items
    /// has binary digits, and at most 57 in any list. It is one where all items pass.
    pub fn partition_point<F: Fn(&T) -> bool, L: Ledger>(
        &self,
        test: F,
        steps: &mut Steps<L>,
    ) -> Cursor
        requires { F.IsAlwaysCallable test }
        ensures place { IsIn self.now.lengths result }
        ensures partitioned { (p : T → Bool) → AnswersBy F.Fn test p → IsPartitionedBy p self.now.items
            → cursor_index self.now.lengths result ≡ prefix_len p self.now.items }
        ensures steps { (k : ℕ) → length self.now.items < 2 ^ k → steps.new ≤ steps.old + k + 9 }
        ensures bound { steps.new ≤ steps.old + 57 }
        ensures rises { steps.old ≤ steps.new }
    {
        // Items that are put in ascending order go to the end.
        if self.last_passes(&test, steps) {
            return self.end();
        }
        self.first_failing(&test, steps)
    }

    /// Puts an item at a place of this list, before the item there, and answers its place. There is room for
    /// an insert (conditions). Other cursors are good no more. It takes no memory. An item that moves is a
    /// step: at most 128 do.
    pub fn insert<L: Ledger>(&mut self, at: Cursor, item: T, steps: &mut Steps<L>) -> Cursor
        requires room { 1 ≤ insert_room self.old }
        requires place { IsIn self.old.lengths at }
        ensures items { self.new.items ≡ take (cursor_index self.old.lengths at) self.old.items ++ item ∷ drop
            (cursor_index self.old.lengths at) self.old.items }
        ensures place { IsIn self.new.lengths result }
        ensures index { cursor_index self.new.lengths result ≡ cursor_index self.old.lengths at }
        ensures room { insert_room self.old ≤ insert_room self.new + 1 }
        ensures steps { steps.new ≤ steps.old + 128 }
        ensures rises { steps.old ≤ steps.new }
    {
        if at.page == self.pages.len() && self.is_last_full() {
            self.push_page(item, steps);
            return at;
        }
        let place = self.place_for(at, steps);
        self.put(place, item, steps);
        place
    }

    // Whether the last item passes a test, or there is no item.
    fn last_passes<F: Fn(&T) -> bool, L: Ledger>(&self, test: &F, steps: &mut Steps<L>) -> bool
        requires { F.IsAlwaysCallable test.now }
        ensures passes { (p : T → Bool) (d : T) → AnswersBy F.Fn test.now p → IsTrue result
            → 0 < length self.now.items → p (slice_index_or self.now.items (length self.now.items - 1) d)
            ≡ true }
        ensures steps { steps.new ≤ steps.old + 1 }
        ensures rises { steps.old ≤ steps.new }
    {
        match self.last() {
            None => true,
            Some(item) => {
                steps.count(1);
                test(&item)
            }
        }
    }

    // The last item, if there is one.
    fn last(&self) -> Option<T>
        ensures { result ≡ slice_get self.now.items (length self.now.items - 1) }
    {
        let last = self.previous(self.end())?;
        self.get(last)
    }

    // The place of the first item that does not pass a test, or the end, by a search.
    fn first_failing<F: Fn(&T) -> bool, L: Ledger>(&self, test: &F, steps: &mut Steps<L>) -> Cursor
        requires { F.IsAlwaysCallable test.now }
        ensures place { IsIn self.now.lengths result }
        ensures partitioned { (p : T → Bool) → AnswersBy F.Fn test.now p → IsPartitionedBy p self.now.items
            → cursor_index self.now.lengths result ≡ prefix_len p self.now.items }
        ensures steps { (k : ℕ) → length self.now.items < 2 ^ k → steps.new ≤ steps.old + k + 8 }
        ensures bound { steps.new ≤ steps.old + 56 }
        ensures rises { steps.old ≤ steps.new }
    {
        let pages = search_pages(&self.pages, test, steps);
        if pages == 0 {
            return self.start();
        }
        let page = pages - 1;
        let item = search(self.pages[page].as_slice(), test, steps);
        if item < self.page_len(page) {
            Cursor { page, item }
        } else {
            self.start_at(pages)
        }
    }

    // Whether the last page has no place for an item, or there is no page.
    fn is_last_full(&self) -> bool
        ensures { IsTrue result ↔ (slice_index_or self.now.lengths (length self.now.lengths - 1) 128 ≡ 128) }
    {
        match self.pages.last() {
            Some(page) => page.len() == PAGE,
            None => true,
        }
    }

    // Begins a page at the end with an item. There is a free page.
    fn push_page<L: Ledger>(&mut self, item: T, steps: &mut Steps<L>)
        requires { 1 ≤ self.old.free }
        ensures items { self.new.items ≡ self.old.items ++ item ∷ [] }
        ensures lengths { self.new.lengths ≡ self.old.lengths ++ 1 ∷ [] }
        ensures free { self.new.free + 1 ≡ self.old.free }
        ensures steps { steps.new ≡ steps.old }
    {
        if let Some(mut page) = self.free.pop() {
            page.insert(0, item, steps);
            let _ = self.pages.push(page);
        }
    }

    // A place where an item may be put, at the same index: at the end of the page before, if there is room,
    // or in its page, which is split if it is full.
    fn place_for<L: Ledger>(&mut self, at: Cursor, steps: &mut Steps<L>) -> Cursor
        requires room { 1 ≤ insert_room self.old }
        requires place { IsIn self.old.lengths at }
        requires last { at.page ≡ length self.old.lengths
            → slice_index_or self.old.lengths (length self.old.lengths - 1) 128 ≢ 128 }
        ensures items { self.new.items ≡ self.old.items }
        ensures page { result.page < length self.new.lengths }
        ensures place { result.item ≤ length_at self.new.lengths result.page }
        ensures not_full { length_at self.new.lengths result.page < 128 }
        ensures index { cursor_index self.new.lengths result ≡ cursor_index self.old.lengths at }
        ensures free { self.old.free ≤ self.new.free + 1 }
        ensures halves { halves_of self.old ≤ halves_of self.new }
        ensures steps { steps.new + (length_at self.new.lengths result.page - result.item) ≤ steps.old + 128 }
        ensures rises { steps.old ≤ steps.new }
    {
        let _ = &self.pages;
        if let Some(before) = self.end_before(at) {
            return before;
        }
        if self.page_len(at.page) < PAGE {
            return at;
        }
        self.split(at.page, steps);
        if at.item <= HALF {
            at
        } else {
            Cursor {
                page: at.page + 1,
                item: at.item - HALF,
            }
        }
    }

    // The end of the page before, at the start of a page, where that page is not full.
    fn end_before(&self, at: Cursor) -> Option<Cursor>
        requires { IsIn self.now.lengths at }
        ensures { MatchOption result (at.item ≡ 0 → 0 < at.page → length_at self.now.lengths (at.page - 1)
            ≡ 128) (λ end. (end.page < length self.now.lengths)
            × (end.item ≡ length_at self.now.lengths end.page) × (end.item < 128)
            × (cursor_index self.now.lengths end ≡ cursor_index self.now.lengths at)) }
    {
        if at.item != 0 {
            return None;
        }
        let page = at.page.checked_sub(1)?;
        let item = self.page_len(page);
        if item == PAGE {
            return None;
        }
        Some(Cursor { page, item })
    }

    // Splits a full page in halves. There is a free page.
    fn split<L: Ledger>(&mut self, page: usize, steps: &mut Steps<L>)
        requires page { page < length self.old.lengths }
        requires full { length_at self.old.lengths page ≡ 128 }
        requires free { 1 ≤ self.old.free }
        ensures items { self.new.items ≡ self.old.items }
        ensures lengths { self.new.lengths ≡ take page self.old.lengths ++ 64 ∷ 64 ∷ drop (page + 1)
            self.old.lengths }
        ensures free { self.new.free + 1 ≡ self.old.free }
        ensures steps { steps.new ≡ steps.old + 64 }
    {
        if let Some(mut rest) = self.free.pop() {
            self.pages[page].split(&mut rest, steps);
            let _ = self.pages.insert(page + 1, rest);
            self.surplus -= HALF;
        }
    }

    // Puts an item at an index of a page, which is not full.
    fn put<L: Ledger>(&mut self, at: Cursor, item: T, steps: &mut Steps<L>)
        requires page { at.page < length self.old.lengths }
        requires place { at.item ≤ length_at self.old.lengths at.page }
        requires room { length_at self.old.lengths at.page < 128 }
        ensures items { self.new.items ≡ take (cursor_index self.old.lengths at) self.old.items ++ item ∷ drop
            (cursor_index self.old.lengths at) self.old.items }
        ensures lengths { self.new.lengths ≡ slice_set self.old.lengths at.page
            (length_at self.old.lengths at.page + 1) }
        ensures free { self.new.free ≡ self.old.free }
        ensures steps { steps.new ≡ steps.old + (length_at self.old.lengths at.page - at.item) }
    {
        self.surplus -= self.pages[at.page].surplus();
        self.pages[at.page].insert(at.item, item, steps);
        self.surplus += self.pages[at.page].surplus();
    }

    /// Takes the items between two places of this list out, and answers the place where they stood. The first
    /// place is not past the other (conditions). Other cursors are good no more. It takes no memory, and
    /// gives none back. An item that is taken out or moves is a step: at most 128 move.
    pub fn remove<L: Ledger>(&mut self, from: Cursor, to: Cursor, steps: &mut Steps<L>) -> Cursor
        requires from { IsIn self.old.lengths from }
        requires to { IsIn self.old.lengths to }
        requires order { cursor_index self.old.lengths from ≤ cursor_index self.old.lengths to }
        ensures items { self.new.items ≡ take (cursor_index self.old.lengths from) self.old.items ++ drop
            (cursor_index self.old.lengths to) self.old.items }
        ensures place { IsIn self.new.lengths result }
        ensures index { cursor_index self.new.lengths result ≡ cursor_index self.old.lengths from }
        ensures room { insert_room self.old ≤ insert_room self.new }
        ensures steps { steps.new ≤ steps.old + (cursor_index self.old.lengths to - cursor_index
            self.old.lengths from) + 128 }
        ensures rises { steps.old ≤ steps.new }
    {
        if from.page == self.pages.len() {
            return from;
        }
        if from.page == to.page {
            self.trim(from.page, from.item, to.item, steps);
            return from;
        }
        self.cut_front(to, steps);
        let first = self.cut_back(from, steps);
        self.take_out(first, to.page, steps);
        self.start_at(first)
    }

    // Takes the items of a page before a place of it out.
    fn cut_front<L: Ledger>(&mut self, to: Cursor, steps: &mut Steps<L>)
        requires { IsIn self.old.lengths to }
        ensures items { self.new.items ≡ take (page_start self.old.lengths to.page) self.old.items ++ drop
            (cursor_index self.old.lengths to) self.old.items }
        ensures front { take to.page self.new.lengths ≡ take to.page self.old.lengths }
        ensures count { length self.new.lengths ≡ length self.old.lengths }
        ensures free { self.new.free ≡ self.old.free }
        ensures halves { halves_of self.old ≤ halves_of self.new }
        ensures steps { steps.new ≤ steps.old + to.item + 128 }
        ensures rises { steps.old ≤ steps.new }
    {
        if to.item != 0 {
            self.trim(to.page, 0, to.item, steps);
        }
    }

    // Takes the items of a page from a place of it on out, unless that are all of them. Answers the first
    // page of those that are whole.
    fn cut_back<L: Ledger>(&mut self, from: Cursor, steps: &mut Steps<L>) -> usize
        requires { from.item < length_at self.old.lengths from.page }
        ensures items { self.new.items ≡ take (cursor_index self.old.lengths from) self.old.items ++ drop
            (page_start self.old.lengths result) self.old.items }
        ensures start { page_start self.new.lengths result ≡ cursor_index self.old.lengths from }
        ensures rest { drop result self.new.lengths ≡ drop result self.old.lengths }
        ensures count { length self.new.lengths ≡ length self.old.lengths }
        ensures first { (from.page ≤ result) × (result ≤ from.page + 1) }
        ensures order { cursor_index self.old.lengths from ≤ page_start self.old.lengths result }
        ensures free { self.new.free ≡ self.old.free }
        ensures halves { halves_of self.old ≤ halves_of self.new }
        ensures steps { steps.new + cursor_index self.old.lengths from ≡ steps.old + page_start
            self.old.lengths result }
    {
        let _ = &self.pages;
        if from.item == 0 {
            return from.page;
        }
        let end = self.page_len(from.page);
        self.trim(from.page, from.item, end, steps);
        from.page + 1
    }

    // Takes the items between two indices of a page out. It keeps an item.
    fn trim<L: Ledger>(&mut self, page: usize, from: usize, to: usize, steps: &mut Steps<L>)
        requires page { page < length self.old.lengths }
        requires order { from ≤ to }
        requires inside { to ≤ length_at self.old.lengths page }
        requires keeps { to - from < length_at self.old.lengths page }
        ensures items { self.new.items ≡ take (page_start self.old.lengths page + from) self.old.items ++ drop
            (page_start self.old.lengths page + to) self.old.items }
        ensures lengths { self.new.lengths ≡ slice_set self.old.lengths page
            (length_at self.old.lengths page - (to - from)) }
        ensures free { self.new.free ≡ self.old.free }
        ensures steps { steps.new ≡ steps.old + (length_at self.old.lengths page - from) }
        ensures bound { length_at self.old.lengths page ≤ 128 }
    {
        self.surplus -= self.pages[page].surplus();
        self.pages[page].remove(from, to, steps);
        self.surplus += self.pages[page].surplus();
    }

    // Takes whole pages out.
    fn take_out<L: Ledger>(&mut self, first: usize, last: usize, steps: &mut Steps<L>)
        requires order { first ≤ last }
        requires inside { last ≤ length self.old.lengths }
        ensures items { self.new.items ≡ take (page_start self.old.lengths first) self.old.items ++ drop
            (page_start self.old.lengths last) self.old.items }
        ensures lengths { self.new.lengths ≡ take first self.old.lengths ++ drop last self.old.lengths }
        ensures free { self.new.free ≡ self.old.free + (last - first) }
        ensures steps { steps.new + page_start self.old.lengths first ≡ steps.old + page_start
            self.old.lengths last }
    {
        self.surplus -= surplus_in(&self.pages[first..last]);
        release(&mut self.pages, first, last, &mut self.free, steps);
    }
}
