ghost use Rattle.std.specs.Prelude.{◌≡◌, ◌+◌, ◌-◌, ◌^◌, ◌<◌, ◌≤◌, ◌++◌, length, take, drop, vec_capacity};
ghost use Rattle.std.specs.Prelude.{OnOk};
ghost use Rattle.std.specs.List.{sum};
ghost use Rattle.page_list.specs.Items.{surplus_of};
ghost use Rattle.page_list.specs.Pages.{items_of, lengths_of};

use crate::page::Page;
use crate::steps::Steps;
use std::alloc::{AllocError, Global};
use std::sync::ledger::Ledger;

// Adds empty pages, for which the list has room. The one error is out of memory; those that were made then
// stay.
pub(crate) fn add_pages<T: Copy>(
    alloc: Global,
    free: &mut Vec<Page<T>>,
    count: usize,
) -> Result<(), AllocError>
    requires { length free.old.items + count ≤ vec_capacity free.old }
    ensures ok { OnOk result (length free.new.items ≡ length free.old.items + count) }
    ensures more { length free.old.items ≤ length free.new.items }
    ensures bound { length free.new.items ≤ length free.old.items + count }
    ensures empty { length (items_of free.new.items) ≡ length (items_of free.old.items) }
    ensures capacity { vec_capacity free.old ≤ vec_capacity free.new }
{
    for _ in 0..count {
        let page = Page::new(alloc)?;
        let _ = free.push(page);
    }
    Ok(())
}

// What pages have above half a page each.
pub(crate) fn surplus_in<T: Copy>(pages: &[Page<T>]) -> usize
    requires { surplus_of (lengths_of pages.now) < 2 ^ 64 }
    ensures { result ≡ surplus_of (lengths_of pages.now) }
{
    let mut surplus = 0;
    for page in pages {
        surplus += page.surplus();
    }
    surplus
}

// Takes whole pages out, empties them and keeps them for later.
pub(crate) fn release<T: Copy, L: Ledger>(
    pages: &mut Vec<Page<T>>,
    first: usize,
    last: usize,
    free: &mut Vec<Page<T>>,
    steps: &mut Steps<L>,
)
    requires order { first ≤ last }
    requires inside { last ≤ length pages.old.items }
    requires room { length free.old.items + (last - first) ≤ vec_capacity free.old }
    ensures pages { pages.new.items ≡ take first pages.old.items ++ drop last pages.old.items }
    ensures capacity { vec_capacity pages.new ≡ vec_capacity pages.old }
    ensures free { length free.new.items ≡ length free.old.items + (last - first) }
    ensures empty { length (items_of free.new.items) ≡ length (items_of free.old.items) }
    ensures free_capacity { vec_capacity free.old ≤ vec_capacity free.new }
    ensures steps { steps.new ≡ steps.old + sum
        (lengths_of (take (last - first) (drop first pages.old.items))) }
{
    for mut page in pages.drain(first..last) {
        page.clear(steps);
        let _ = free.push(page);
    }
}
