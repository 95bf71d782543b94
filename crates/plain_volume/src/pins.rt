ghost use Rattle.std.specs.Prelude.{◌≡◌, ◌==◌, position, true, false, MatchOption, IfOk};
ghost use Rattle.plain_disk.specs.Reads.{are_pinned, without_pins};

use std::alloc::{AllocError, Global};

/// The pins without those of a plan; None where one of the plan's numbers is not among them, as often as the
/// plan has it. The one error is that memory ran out.
pub(crate) fn without_pins(
    alloc: Global,
    pins: &[u64],
    numbers: &[u64],
) -> Result<Option<Vec<u64>>, AllocError>
    ensures { IfOk result (λ left. MatchOption left
        (are_pinned numbers.now pins.now ≡ false)
        (λ left. (are_pinned numbers.now pins.now ≡ true)
        × (left.items ≡ without_pins numbers.now pins.now))) }
{
    let mut left = Vec::from_slice(alloc, pins)?;
    for number in numbers {
        let Some(place) = place_of(left.as_slice(), *number) else {
            return Ok(None);
        };
        left.remove(place);
    }
    Ok(Some(left))
}

// Where the number is first among the pins.
fn place_of(pins: &[u64], number: u64) -> Option<usize>
    ensures { result ≡ position (λ pin. pin == number) pins.now }
{
    pins.iter().position(|pin| *pin == number)
}
