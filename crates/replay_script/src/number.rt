ghost use Rattle.std.specs.Prelude.{◌≡◌, ℕ, ◌+◌, ◌-◌, ◌*◌, ◌^◌, ◌<◌, IfSome, IfNone, IsTrue, ◌↔◌, length};
ghost use Rattle.std.specs.Prelude.{slice_index, decimal};
ghost use Rattle.std.specs.Char.{digit_char};
ghost use Rattle.std.specs.Option.{SomeIff};
ghost use Rattle.std.specs.Int.{IsInRange};
ghost use Rattle.std.specs.Str.Parse.{AllDigits, digits_value};
ghost use Rattle.replay_script.specs.Grammar.{hexadecimal};

// The number that a word spells in decimal digits. None is for an empty word, for a needless leading zero,
// for any byte that is no digit, and for a number of 2^64 or more.
pub(crate) fn number_of(word: &[u8]) -> Option<u64>
    ensures found { IfSome result (λ n. (n < 2 ^ 64) × (word.now ≡ decimal n)) }
    ensures none { IfNone result ((n : ℕ) → n < 2 ^ 64 → word.now ≡ decimal n → ⊥) }
{
    if word.is_empty() || has_needless_zero(word) {
        return None;
    }
    value_of(word)
}

// Whether a zero stands before other bytes.
fn has_needless_zero(word: &[u8]) -> bool
    ensures { IsTrue result ↔ (1 < length word.now) × (slice_index word.now 0 ≡ 48) }
{
    word.len() > 1 && word[0] == b'0'
}

// The value of decimal digits, of which the first may be zero. None is for any byte that is no digit, and
// for a value of 2^64 or more.
fn value_of(digits: &[u8]) -> Option<u64>
    ensures { SomeIff result (AllDigits 10 digits.now × (digits_value 10 digits.now < 2 ^ 64))
        (digits_value 10 digits.now) }
{
    let mut value = 0;
    for digit in digits {
        value = with_digit(value, *digit)?;
    }
    Some(value)
}

// The number with one more decimal digit at its end. None is for a byte that is no digit, and for a number
// of 2^64 or more.
fn with_digit(number: u64, digit: u8) -> Option<u64>
    ensures { SomeIff result (IsInRange 48 57 digit × (number * 10 + (digit - 48) < 2 ^ 64))
        (number * 10 + (digit - 48)) }
{
    if !digit.is_ascii_digit() {
        return None;
    }
    number.checked_mul(10)?.checked_add(u64::from(digit - b'0'))
}

// The byte that a word spells in two lower-case hexadecimal digits. None is for any other word.
pub(crate) fn byte_of(word: &[u8]) -> Option<u8>
    ensures found { IfSome result (λ n. (n < 256) × (word.now ≡ hexadecimal n)) }
    ensures none { IfNone result ((n : ℕ) → n < 256 → word.now ≡ hexadecimal n → ⊥) }
{
    let [high, low] = word else {
        return None;
    };
    Some(hex_digit_of(*high)? * 16 + hex_digit_of(*low)?)
}

// The value of a lower-case hexadecimal digit. None is for any other byte.
fn hex_digit_of(digit: u8) -> Option<u8>
    ensures found { IfSome result (λ n. (n < 16) × (digit ≡ digit_char n)) }
    ensures none { IfNone result ((n : ℕ) → n < 16 → digit ≡ digit_char n → ⊥) }
{
    match digit {
        b'0'..=b'9' => Some(digit - b'0'),
        b'a'..=b'f' => Some(digit - b'a' + 10),
        _ => None,
    }
}
