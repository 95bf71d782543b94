ghost use Rattle.std.specs.Prelude.{◌≡◌, ◌+◌, ◌^◌, ◌<◌, ◌≤◌};
ghost use Rattle.object_stream.specs.Plain.{numbers_of};
ghost use Rattle.plain_disk.specs.Stops.{landed_after};

/// Whether the object of this number has landed.
pub(crate) fn has_landed(landed: &[bool], number: u64) -> bool
    ensures { result ≡ numbers_of landed.now number }
{
    landed.get(number as usize).copied().unwrap_or(false)
}

/// Of `count` numbers after one the last of those before the first that has not landed. They fit (a
/// condition).
pub(crate) fn landed_after(landed: &[bool], number: u64, count: u64) -> u64
    requires { number + count < 2 ^ 64 }
    ensures last { result ≡ landed_after (numbers_of landed.now) number count }
    ensures first { number ≤ result }
    ensures most { result ≤ number + count }
{
    let mut last = number;
    for _ in 0..count {
        if !landed.get(last as usize + 1).copied().unwrap_or(false) {
            return last;
        }
        last += 1;
    }
    last
}
