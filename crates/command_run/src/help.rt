ghost use Rattle.std.specs.Prelude.{◌≡◌, ◌⊎◌, ◌≤◌, List, ℕ, map, string_bytes, IfSome, IfNone, take, length};
ghost use Rattle.std.specs.Io.KnownBytes.{Appends};
ghost use Rattle.command_line.specs.CommandLine.{AsksForHelp};
ghost use Rattle.lsvd_fault.specs.Faults.{CountsOne};
ghost use Rattle.command_run.specs.Help.{IsHelpAnswered};

use command_line::help_of;
use lsvd_fault::{Failed, Sink, write_all};
use std::alloc::{AllocError, Global};
use volume_commands::Report;

/// Answers words that ask for help or for the version, with the text on `out`, and says how that ended:
/// `Done`, `Fault` where a write failed, or `Memory`, which comes before the first write. None is for words
/// that ask for neither, and then nothing is written.
pub fn answer_help<O: Sink>(alloc: Global, words: &[String], out: &mut O) -> Option<Report>
    ensures some { IfSome result (λ report. IsHelpAnswered (map string_bytes words.now) report
        (O.contents out.old) (O.contents out.new) (O.faults out.old) (O.faults out.new)) }
    ensures none { IfNone result ((AsksForHelp (map string_bytes words.now) → ⊥) × (out.new ≡ out.old)) }
{
    match help_of(alloc, words) {
        Ok(None) => None,
        Ok(Some(text)) => Some(write_text(out, text.as_bytes())),
        Err(AllocError) => Some(Report::Memory),
    }
}

// Writes a text, and says how that ended.
fn write_text<O: Sink>(out: &mut O, text: &[u8]) -> Report
    ensures ends { (result ≡ Report.Done) ⊎ (result ≡ Report.Fault) }
    ensures done { result ≡ Report.Done → Appends (O.contents out.old) (O.contents out.new) text.now }
    ensures front { result ≡ Report.Fault
        → (n : ℕ) × (n ≤ length text.now) × Appends (O.contents out.old) (O.contents out.new)
        (take n text.now) }
    ensures none { result ≡ Report.Done → O.faults out.new ≡ O.faults out.old }
    ensures fault { result ≡ Report.Fault → CountsOne (O.faults out.old) (O.faults out.new) }
{
    match write_all(out, text) {
        Ok(()) => Report::Done,
        Err(Failed) => Report::Fault,
    }
}
