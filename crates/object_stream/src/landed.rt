ghost use Rattle.std.specs.Prelude.{ℕ, ◌≡◌, ◌<◌, ◌≤◌, false, IsTrue, MatchOption, IfSome, length};
ghost use Rattle.object_stream.specs.Landed.{IsNewestCheckpoint, IsFirstMissing};
ghost use Rattle.object_stream.specs.Plain.{numbers_of, HasNoCheckpoint};

/// The first missing number of a store: the least above the newest checkpoint that has landed, of an object
/// that has not. None where no checkpoint has landed. The number of an object is its index in both lists;
/// past a list's end nothing is a checkpoint, and nothing has landed.
pub fn first_missing(checkpoint: &[bool], landed: &[bool]) -> Option<u64>
    ensures { MatchOption result
        (HasNoCheckpoint (numbers_of checkpoint.now) (numbers_of landed.now))
        (λ missing. IsFirstMissing (numbers_of checkpoint.now) (numbers_of landed.now) missing) }
{
    let newest = newest_checkpoint(checkpoint, landed)?;
    Some(first_absent(landed, newest + 1) as u64)
}

// The greatest number of a checkpoint that has landed. It is below the lists' lengths.
fn newest_checkpoint(checkpoint: &[bool], landed: &[bool]) -> Option<usize>
    ensures number { MatchOption result
        (HasNoCheckpoint (numbers_of checkpoint.now) (numbers_of landed.now))
        (λ newest. IsNewestCheckpoint (numbers_of checkpoint.now) (numbers_of landed.now) newest) }
    ensures listed { IfSome result (λ newest. newest < length landed.now) }
{
    let mut newest = None;
    for number in 0..checkpoint.len().min(landed.len()) {
        if checkpoint[number] && landed[number] {
            newest = Some(number);
        }
    }
    newest
}

// The least number from this one on of an object that has not landed. The list is as long as this at least (a
// condition).
fn first_absent(landed: &[bool], from: usize) -> usize
    requires { from ≤ length landed.now }
    ensures above { from ≤ result }
    ensures absent { numbers_of landed.now result ≡ false }
    ensures least { (number : ℕ) → from ≤ number → number < result → IsTrue (numbers_of landed.now number) }
{
    for number in from..landed.len() {
        if !landed[number] {
            return number;
        }
    }
    landed.len()
}
