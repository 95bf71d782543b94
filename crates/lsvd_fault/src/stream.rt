ghost use Rattle.std.specs.Prelude.{◌≡◌, ℕ, ◌<◌, List, length, Option, None, IfOk, is_err};
ghost use Rattle.std.specs.Io.{ReadsAtMost, WritesAtMost};
ghost use Rattle.std.specs.Io.KnownBytes.{ReadConsumes, WriteAppends};
ghost use Rattle.lsvd_fault.specs.Faults.{Counts};

use thiserror::Error;

/// A read or a write failed, took nothing, and was counted by its stream.
#[derive(Clone, Copy, Debug, PartialEq, Eq, Error)]
#[error("a read or a write failed")]
pub struct Failed;

/// Bytes that come from the outside.
pub trait Source {
    /// The bytes that are left to read, where the source tells them.
    ghost remaining: { Self → Option (List ℕ) };

    /// How often a call has failed. At the greatest number of its type the count stands.
    ghost faults: { Self → ℕ };

    /// The bytes that were written to it so far, where it is a link and tells them. A read leaves them.
    ghost written: { Self → Option (List ℕ) } = { λ _. None };

    /// Reads some bytes into the front of `buf`, and answers how many; it may be fewer than `buf` has room
    /// for. No byte for a `buf` that has room means that the source is at its end. `Failed` comes where the
    /// outside could not be read: the read took nothing and was counted once, and may be tried again.
    fn read(&mut self, buf: &mut [u8]) -> Result<usize, Failed>
        ensures bound { ReadsAtMost result buf.new }
        ensures bytes { ReadConsumes (remaining self.old) (remaining self.new) result buf.new }
        ensures other { written self.new ≡ written self.old }
        ensures count { Counts (is_err result) (faults self.old) (faults self.new) };

    /// How many calls have failed since the stream was made. At `u64::MAX` the count stands.
    fn faults(&self) -> u64
        ensures { result ≡ faults self.now };
}

/// Bytes that go to the outside.
pub trait Sink {
    /// The bytes that were taken so far, where the sink tells them.
    ghost contents: { Self → Option (List ℕ) };

    /// How often a call has failed. At the greatest number of its type the count stands.
    ghost faults: { Self → ℕ };

    /// The bytes that are left to be read of it, where it is a link and tells them. A write leaves them.
    ghost unread: { Self → Option (List ℕ) } = { λ _. None };

    /// Takes some bytes from the front of `piece`, and answers how many; it may be fewer than `piece` has.
    /// `Failed` comes where the outside could not be written, or took nothing of a piece that has bytes: the
    /// write took nothing and was counted, and may be tried again.
    fn write(&mut self, piece: &[u8]) -> Result<usize, Failed>
        ensures bound { WritesAtMost result piece.now }
        ensures some { IfOk result (λ n. 0 < length piece.now → 0 < n) }
        ensures bytes { WriteAppends (contents self.old) (contents self.new) result piece.now }
        ensures other { unread self.new ≡ unread self.old }
        ensures count { Counts (is_err result) (faults self.old) (faults self.new) };

    /// How many calls have failed since the stream was made. At `u64::MAX` the count stands.
    fn faults(&self) -> u64
        ensures { result ≡ faults self.now };
}

/// Bytes that come and go, with one count for both directions.
pub trait Link: Source + Sink {
    /// Whether it will hold back what was written to it while `input` more bytes are read, and then `output`
    /// are written: as far as it knows, neither will have to wait for the outside. A link that holds nothing
    /// back says no.
    fn holds_back(&self, input: usize, output: usize) -> bool;

    /// Both directions count their faults together.
    ghost one_count: { (link : Self) → Self.Source.faults link ≡ Self.Sink.faults link };

    /// What its source tells as written is what its sink took.
    ghost one_output: { (link : Self) → Self.written link ≡ Self.contents link };

    /// What its sink tells as unread is what its source has left.
    ghost one_input: { (link : Self) → Self.unread link ≡ Self.remaining link };
}
