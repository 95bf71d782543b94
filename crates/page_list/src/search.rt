ghost use Rattle.std.specs.Prelude.{◌≡◌, ◌+◌, ◌-◌, ◌^◌, ◌<◌, ◌≤◌, ℕ, Bool, List, true, false, length};
ghost use Rattle.std.specs.Prelude.{slice_index_or};
ghost use Rattle.page_list.specs.Pages.{passes_at_start};
ghost use Rattle.page_list.specs.Test.{AnswersBy};

use crate::page::Page;
use crate::steps::Steps;
use std::sync::ledger::Ledger;

// Searches a list, in halves, for the end of what passes a test: what is before it passes, and what is at it
// does not. Each call of the test is a step.
pub(crate) fn search<X, F: Fn(&X) -> bool, L: Ledger>(
    xs: &[X],
    test: &F,
    steps: &mut Steps<L>,
) -> usize
    requires { F.IsAlwaysCallable test.now }
    ensures bound { result ≤ length xs.now }
    ensures passes { (p : X → Bool) (d : X) → AnswersBy F.Fn test.now p → 0 < result
        → p (slice_index_or xs.now (result - 1) d) ≡ true }
    ensures fails { (p : X → Bool) (d : X) → AnswersBy F.Fn test.now p → result < length xs.now
        → p (slice_index_or xs.now result d) ≡ false }
    ensures steps { (k : ℕ) → length xs.now < 2 ^ k → steps.new ≤ steps.old + k }
    ensures rises { steps.old ≤ steps.new }
{
    let mut low = 0;
    let mut high = xs.len();
    while low < high {
        let middle = low + (high - low) / 2;
        steps.count(1);
        if test(&xs[middle]) {
            low = middle + 1;
        } else {
            high = middle;
        }
    }
    low
}

// Searches pages in the same way, by the first item of each.
pub(crate) fn search_pages<T: Copy, F: Fn(&T) -> bool, L: Ledger>(
    pages: &[Page<T>],
    test: &F,
    steps: &mut Steps<L>,
) -> usize
    requires { F.IsAlwaysCallable test.now }
    ensures bound { result ≤ length pages.now }
    ensures passes { (p : T → Bool) (d : List T) → AnswersBy F.Fn test.now p → 0 < result
        → passes_at_start p (slice_index_or pages.now (result - 1) d) ≡ true }
    ensures fails { (p : T → Bool) (d : List T) → AnswersBy F.Fn test.now p → result < length pages.now
        → passes_at_start p (slice_index_or pages.now result d) ≡ false }
    ensures steps { (k : ℕ) → length pages.now < 2 ^ k → steps.new ≤ steps.old + k }
    ensures rises { steps.old ≤ steps.new }
{
    search(pages, &|page: &Page<T>| starts_passing(page, test), steps)
}

// Whether the first item of a page passes a test.
fn starts_passing<T: Copy, F: Fn(&T) -> bool>(page: &Page<T>, test: &F) -> bool
    requires { F.IsAlwaysCallable test.now }
    ensures { (p : T → Bool) → AnswersBy F.Fn test.now p → result ≡ passes_at_start p page.now }
{
    match page.get(0) {
        Some(item) => test(&item),
        None => false,
    }
}
