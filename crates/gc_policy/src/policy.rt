ghost use Rattle.std.specs.Prelude.{◌≡◌, IfOk, map, filter};
ghost use Rattle.std.specs.Ordering.{is_lt};
ghost use Rattle.object_table.specs.Table.{is_candidate, numbers};
ghost use Rattle.object_table.specs.Lists.{Climbs};
ghost use Rattle.gc_policy.specs.declared.candidate.Candidate.{Candidate};
ghost use Rattle.gc_policy.specs.Victims.{goes_before, AreVictims};

use crate::candidate::Candidate;
use object_table::ObjectTable;
use std::alloc::{AllocError, Global};
use std::cmp::Ordering;

/// The objects that a collection takes sectors from, in the order in which it takes them: each candidate of
/// the table once, the least live share of the payload first, and of equal shares the smaller number. Its
/// cost is by candidates. The one error is out of memory.
pub fn victims(alloc: Global, table: &ObjectTable) -> Result<Vec<u64>, AllocError>
    ensures { IfOk result (λ victims. AreVictims table.now.rows victims.items) }
{
    let mut taken = candidates(alloc, table)?;
    taken.sort_unstable_by(order);
    numbers_of(alloc, &taken)
}

// The candidates of the table, by ascending number. The one error is out of memory.
fn candidates(alloc: Global, table: &ObjectTable) -> Result<Vec<Candidate>, AllocError>
    ensures found { IfOk result
        (λ found. map (λ (one : Candidate). one.row) found.items ≡ filter is_candidate table.now.rows) }
    ensures order { Climbs 0 (numbers table.now.rows) }
{
    let numbers = table.candidates();
    let mut found = Vec::with_capacity(alloc, numbers.len())?;
    for number in numbers {
        if let Some(row) = table.row(*number) {
            found.push(Candidate { row })?;
        }
    }
    Ok(found)
}

// Which of two candidates is taken first. Their shares compare by products, so that nothing is rounded.
fn order(one: &Candidate, other: &Candidate) -> Ordering
    ensures { is_lt result ≡ goes_before one.now.row other.now.row }
{
    let share = u128::from(one.row.live) * u128::from(other.row.payload);
    let other_share = u128::from(other.row.live) * u128::from(one.row.payload);
    share
        .cmp(&other_share)
        .then(one.row.number.cmp(&other.row.number))
}

// The numbers of candidates. The one error is out of memory.
fn numbers_of(alloc: Global, candidates: &[Candidate]) -> Result<Vec<u64>, AllocError>
    ensures { IfOk result
        (λ found. found.items ≡ map (λ (one : Candidate). one.row.number) candidates.now) }
{
    candidates
        .iter()
        .map(|candidate| candidate.row.number)
        .collect(alloc)
}
