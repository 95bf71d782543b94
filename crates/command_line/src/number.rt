ghost use Rattle.std.specs.Prelude.{◌≡◌, ◌≢◌, ◌^◌, ◌<◌, ℕ, IfSome, IfNone, decimal};

use itoa::Buffer;

// The number that a text spells in decimal digits. None is for any other text, also for one with a sign or
// with a needless zero, and for a number of 2^64 or more.
pub(crate) fn number_of(text: &str) -> Option<u64>
    ensures found { IfSome result (λ n. (n < 2 ^ 64) × (text.now ≡ decimal n)) }
    ensures none { IfNone result ((n : ℕ) → n < 2 ^ 64 → text.now ≢ decimal n) }
{
    let number: u64 = text.parse().ok()?;
    (Buffer::new().format(number) == text).then_some(number)
}
