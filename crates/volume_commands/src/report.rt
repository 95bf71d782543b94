ghost use Rattle.std.specs.Prelude.{◌≡◌};
ghost use Rattle.volume_commands.specs.Report.{status_of, line_of, IsTold};

use crate::refusal::tell_refusal;
use arrayvec::ArrayString;
use itoa::Buffer;
use lsvd_fault::{Sink, write_all};
use refusals::Refusal;
use transcript::LineReason;

/// How a run of the program ended.
#[derive(Clone, Copy, Debug, PartialEq, Eq)]
pub enum Report {
    /// The command is done.
    Done,
    /// A call to the outside failed.
    Fault,
    /// The words are no command line of the program.
    Usage,
    /// This line of the script, counted from 1, is bad.
    BadLine { number: u64, reason: LineReason },
    /// The volume is not created, not mounted or not checked, for this reason.
    Refused(Refusal),
    /// The volume was checked, and something is missing.
    Missing,
    /// Memory ran out.
    Memory,
}

impl Report {
    /// The exit status: 0 done, 1 a fault, 2 usage, 3 a refusal or something missing, 4 out of memory.
    pub fn status(&self) -> u8
        ensures { result ≡ status_of self.now }
    {
        match self {
            Report::Done => 0,
            Report::Fault => 1,
            Report::Usage => 2,
            Report::BadLine { .. } | Report::Refused(_) | Report::Missing => 3,
            Report::Memory => 4,
        }
    }

    /// Writes the line that tells it. A run that is done has none, nor has one whose output tells what is
    /// missing. Where a write fails, a front of the line stands there, and nothing else is done about it.
    pub fn tell<E: Sink>(&self, err: &mut E)
        ensures told { IsTold (E.contents err.old) (E.contents err.new) (E.faults err.old) (E.faults err.new)
            (line_of self.now) }
    {
        match self {
            Report::Done | Report::Missing => {}
            Report::Fault => tell_line(err, b"fault\n"),
            Report::Usage => tell_line(err, b"usage\n"),
            Report::BadLine { number, reason } => tell_bad_line(err, *number, *reason),
            Report::Refused(refusal) => tell_refusal(err, refusal),
            Report::Memory => tell_line(err, b"memory\n"),
        }
    }
}

/// Writes a line, or a front of it.
pub(crate) fn tell_line<E: Sink>(err: &mut E, line: &[u8])
    ensures told { IsTold (E.contents err.old) (E.contents err.new) (E.faults err.old)
        (E.faults err.new) line.now }
{
    let _ = write_all(err, line);
}

// The most bytes of a line that tells a bad line.
const LINE_BYTES: usize = 64;

// The line that tells a bad line, as one write.
fn tell_bad_line<E: Sink>(err: &mut E, number: u64, reason: LineReason)
    ensures told { IsTold (E.contents err.old) (E.contents err.new) (E.faults err.old) (E.faults err.new)
        (line_of (Report.BadLine number reason)) }
{
    let mut line = ArrayString::<LINE_BYTES>::new();
    line.push_str("line ");
    line.push_str(Buffer::new().format(number));
    line.push_str(" reason ");
    line.push_str(Buffer::new().format(reason.code()));
    line.push_str("\n");
    tell_line(err, line.as_bytes());
}
