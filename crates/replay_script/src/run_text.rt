ghost use Rattle.std.specs.Prelude.{◌≡◌, ℕ, ◌<◌, ◌≤◌, ◌==◌, List, ◌++◌, IfOk, OnOk, OnErr, length};
ghost use Rattle.std.specs.Char.{digit_char};
ghost use Rattle.std.specs.List.{prefix_len};
ghost use Rattle.std.specs.Io.{StartsWith};
ghost use Rattle.replay_script.specs.RunText.{IsRunText, text_of_run, text_of_runs, runs_of};

use crate::decimal::push_decimal;
use std::alloc::AllocError;

/// Appends the run text of the bytes: each maximal run of equal bytes as two hexadecimal digits, `x` and its
/// length, joined by one space. The one error is out of memory.
pub fn push_run_text(out: &mut Vec<u8>, bytes: &[u8]) -> Result<(), AllocError>
    ensures ok { OnOk result ((text : List ℕ) × IsRunText bytes.now text
        × (out.new.items ≡ out.old.items ++ text)) }
    ensures err { OnErr result (StartsWith out.new.items out.old.items) }
{
    let mut rest = bytes;
    while !rest.is_empty() {
        rest = push_first_run(out, rest)?;
    }
    Ok(())
}

// Appends the first run, and a space where more runs follow. Returns the bytes after the run.
fn push_first_run<'a>(out: &mut Vec<u8>, bytes: &'a [u8]) -> Result<&'a [u8], AllocError>
    requires { 0 < length bytes.now }
    ensures ok { IfOk result (λ rest.
        out.new.items ++ text_of_runs (runs_of rest.now) ≡ out.old.items ++ text_of_runs
        (runs_of bytes.now)) }
    ensures shorter { IfOk result (λ rest. length rest.now < length bytes.now) }
    ensures kept { StartsWith out.new.items out.old.items }
{
    let byte = bytes[0];
    let count = count_leading(byte, bytes);
    push_run(out, byte, count)?;
    let rest = &bytes[count..];
    if !rest.is_empty() {
        out.push(b' ')?;
    }
    Ok(rest)
}

// How many bytes at the front equal `byte`.
fn count_leading(byte: u8, bytes: &[u8]) -> usize
    ensures leading { result ≡ prefix_len (λ b. b == byte) bytes.now }
    ensures within { result ≤ length bytes.now }
{
    bytes.iter().take_while(|b| **b == byte).count()
}

// Appends one run: its byte, an `x` and its length.
fn push_run(out: &mut Vec<u8>, byte: u8, count: usize) -> Result<(), AllocError>
    ensures ok { OnOk result (out.new.items ≡ out.old.items ++ text_of_run
        (record { byte = byte; count = count })) }
    ensures err { OnErr result (StartsWith out.new.items out.old.items) }
{
    out.extend_from_slice(&[
        hexadecimal_digit(byte / 16),
        hexadecimal_digit(byte % 16),
        b'x',
    ])?;
    push_decimal(out, count as u64)
}

// The digit of a value below 16, in lower case.
fn hexadecimal_digit(value: u8) -> u8
    requires { value < 16 }
    ensures { result ≡ digit_char value }
{
    if value < 10 {
        b'0' + value
    } else {
        b'a' + (value - 10)
    }
}

/// Bytes have one run text.
pub fn a_run_text_is_determined()
    ensures { (bytes a b : List ℕ) → IsRunText bytes a → IsRunText bytes b → a ≡ b }
{}
