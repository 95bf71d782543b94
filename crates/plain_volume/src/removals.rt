ghost use Rattle.std.specs.Prelude.{◌≡◌, ◌==◌, IfOk};
ghost use Rattle.std.specs.List.{list_any};
ghost use Rattle.object_stream.specs.Plain.{numbers_of};
ghost use Rattle.plain_disk.specs.Removals.{has, is_out, absent_of};

use crate::landed::has_landed;
use object_stream::CopiedSector;
use std::alloc::{AllocError, Global};

/// Whether the number is one of these.
pub(crate) fn has(numbers: &[u64], number: u64) -> bool
    ensures { result ≡ has numbers.now number }
{
    numbers.iter().any(|other| *other == number)
}

/// Whether one of the sectors is copied from the object of this number.
pub(crate) fn takes_from(sectors: &[CopiedSector], number: u64) -> bool
    ensures { result ≡ list_any (λ copied. copied.source == number) sectors.now }
{
    sectors.iter().any(|copied| copied.source == number)
}

/// Whether the removal of this number is out.
pub(crate) fn is_out(number: u64, removal: Option<u64>) -> bool
    ensures { result ≡ is_out number removal }
{
    match removal {
        Some(out) => out == number,
        None => false,
    }
}

/// Of the objects that were given out for removal those that have not landed. The one error is that memory
/// ran out.
pub(crate) fn absent_of(
    alloc: Global,
    landed: &[bool],
    given_out: &[u64],
) -> Result<Vec<u64>, AllocError>
    ensures { IfOk result (λ absent. absent.items ≡ absent_of (numbers_of landed.now) given_out.now) }
{
    let mut absent = Vec::new(alloc);
    for number in given_out {
        if !has_landed(landed, *number) {
            absent.push(*number)?;
        }
    }
    Ok(absent)
}
