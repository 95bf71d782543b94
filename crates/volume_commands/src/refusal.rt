ghost use Rattle.std.specs.Prelude.{◌≡◌};
ghost use Rattle.volume_commands.specs.Refusal.{line_with, refusal_line};
ghost use Rattle.volume_commands.specs.Report.{IsTold};

use crate::report::tell_line;
use arrayvec::ArrayString;
use itoa::Buffer;
use lsvd_fault::Sink;
use refusals::{Refusal, Values};
use uuid::Uuid;

/// Writes the line that tells a refusal: its number and then its values. Where a write fails, a front of the
/// line stands there, and nothing else is done about it.
pub(crate) fn tell_refusal<E: Sink>(err: &mut E, refusal: &Refusal)
    ensures { IsTold (E.contents err.old) (E.contents err.new) (E.faults err.old) (E.faults err.new)
        (refusal_line refusal.now) }
{
    tell_with(err, refusal.number(), refusal.values());
}

// The line with this number and these values.
fn tell_with<E: Sink>(err: &mut E, number: u32, values: Values)
    ensures { IsTold (E.contents err.old) (E.contents err.new) (E.faults err.old) (E.faults err.new)
        (line_with number values) }
{
    match values {
        Values::Nothing => tell_number(err, number),
        Values::One(value) => tell_value(err, number, value),
        Values::Two(first, second) => tell_values(err, number, first, second),
        Values::Volume(found) => tell_volume(err, number, found),
    }
}

// The most bytes of a line that tells a refusal.
const LINE_BYTES: usize = 64;

// The line of a refusal without values, as one write.
fn tell_number<E: Sink>(err: &mut E, number: u32)
    ensures { IsTold (E.contents err.old) (E.contents err.new) (E.faults err.old) (E.faults err.new)
        (line_with number Values.Nothing) }
{
    let mut line = ArrayString::<LINE_BYTES>::new();
    line.push_str("refused ");
    line.push_str(Buffer::new().format(number));
    line.push_str("\n");
    tell_line(err, line.as_bytes());
}

// The line of a refusal with one number, as one write.
fn tell_value<E: Sink>(err: &mut E, number: u32, value: u64)
    ensures { IsTold (E.contents err.old) (E.contents err.new) (E.faults err.old) (E.faults err.new)
        (line_with number (Values.One value)) }
{
    let mut line = ArrayString::<LINE_BYTES>::new();
    line.push_str("refused ");
    line.push_str(Buffer::new().format(number));
    line.push_str(" ");
    line.push_str(Buffer::new().format(value));
    line.push_str("\n");
    tell_line(err, line.as_bytes());
}

// The line of a refusal with two numbers, as one write.
fn tell_values<E: Sink>(err: &mut E, number: u32, first: u64, second: u64)
    ensures { IsTold (E.contents err.old) (E.contents err.new) (E.faults err.old) (E.faults err.new)
        (line_with number (Values.Two first second)) }
{
    let mut line = ArrayString::<LINE_BYTES>::new();
    line.push_str("refused ");
    line.push_str(Buffer::new().format(number));
    line.push_str(" ");
    line.push_str(Buffer::new().format(first));
    line.push_str(" ");
    line.push_str(Buffer::new().format(second));
    line.push_str("\n");
    tell_line(err, line.as_bytes());
}

// The line of a refusal with the uuid of a volume, as one write.
fn tell_volume<E: Sink>(err: &mut E, number: u32, found: Uuid)
    ensures { IsTold (E.contents err.old) (E.contents err.new) (E.faults err.old) (E.faults err.new)
        (line_with number (Values.Volume found)) }
{
    let mut text = Uuid::encode_buffer();
    let mut line = ArrayString::<LINE_BYTES>::new();
    line.push_str("refused ");
    line.push_str(Buffer::new().format(number));
    line.push_str(" ");
    line.push_str(found.hyphenated().encode_lower(&mut text));
    line.push_str("\n");
    tell_line(err, line.as_bytes());
}
