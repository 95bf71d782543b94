ghost use Rattle.std.specs.Prelude.{◌≡◌, ℕ, ◌<◌, IfSome, IfNone};
ghost use Rattle.std.specs.Char.{digit_char};
ghost use Rattle.lsvd_names.specs.Spelling.{hex_digits};

// The number that sixteen lower-case hexadecimal digits spell. None is for any other text.
pub(crate) fn number_of(digits: &[u8]) -> Option<u64>
    ensures found { IfSome result (λ n. digits.now ≡ hex_digits 16 n) }
    ensures none { IfNone result ((n : ℕ) → digits.now ≡ hex_digits 16 n → ⊥) }
{
    if digits.len() != 16 {
        return None;
    }
    let mut number = 0;
    for digit in digits {
        number = number * 16 + u64::from(hex_digit_of(*digit)?);
    }
    Some(number)
}

// The value of a lower-case hexadecimal digit. None is for any other byte.
fn hex_digit_of(digit: u8) -> Option<u8>
    ensures found { IfSome result (λ n. (n < 16) × (digit ≡ digit_char n)) }
    ensures none { IfNone result ((n : ℕ) → n < 16 → digit ≡ digit_char n → ⊥) }
{
    match digit {
        b'0'..=b'9' => Some(digit - b'0'),
        b'a'..=b'f' => Some(digit - b'a' + 10),
        _ => None,
    }
}
