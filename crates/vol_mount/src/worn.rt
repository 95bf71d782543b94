ghost use Rattle.std.specs.Prelude.{◌<◌, IfSome, IfNone};
ghost use Rattle.std.specs.List.{All};
ghost use Rattle.vol_core.specs.Shows.{max_number};
ghost use Rattle.vol_mount.specs.Refusals.{IsFirstGreat};

// The least number of a commit, an epoch or an object, and the least count of entries, from which on a volume
// is worn out.
const WORN: u64 = 1 << 60;

/// The first of these numbers from which on a volume is worn out. None is where all are lower.
pub(crate) fn worn_number(numbers: &[u64]) -> Option<u64>
    ensures none { IfNone result (All (λ number. number < max_number) numbers.now) }
    ensures some { IfSome result (IsFirstGreat numbers.now) }
{
    for number in numbers {
        if WORN <= *number {
            return Some(*number);
        }
    }
    None
}
