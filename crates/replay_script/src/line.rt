ghost use Rattle.std.specs.Prelude.{◌≡◌, ◌+◌, ◌<◌, ◌≤◌, ◌∷◌, ◌==◌, Option, length, take, count_by, position};
ghost use Rattle.replay_script.specs.Grammar.{lines_of};

/// The most bytes of a line, its newline left out.
pub const LINE_LIMIT: usize = 65_536;

/// The most bytes of a script.
pub const SCRIPT_LIMIT: usize = 16_777_216;

/// The first line, without its newline, and what comes after it.
pub fn split_line(script: &[u8]) -> (&[u8], &[u8])
    requires { 0 < length script.now }
    ensures line { lines_of script.now ≡ result.0.now ∷ lines_of result.1.now }
    ensures shorter { length result.1.now < length script.now }
{
    match first_newline(script) {
        Some(end) => (&script[..end], &script[end + 1..]),
        None => (script, &[]),
    }
}

// The index of the first newline.
fn first_newline(script: &[u8]) -> Option<usize>
    ensures { result ≡ position (λ b. b == 10) script.now }
{
    script.iter().position(|b| *b == b'\n')
}

/// The number of the line, from 1, in which the byte at `at` stands.
pub fn line_number(script: &[u8], at: usize) -> u64
    requires { at ≤ length script.now }
    ensures { result ≡ 1 + count_by (λ b. b == 10) (take at script.now) }
{
    1 + script[..at].iter().filter(|b| **b == b'\n').count() as u64
}
