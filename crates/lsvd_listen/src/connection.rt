ghost use Rattle.std.specs.Prelude.{◌≡◌, ℕ, List, [], OnOk, is_err};
ghost use Rattle.lsvd_fault.specs.Faults.{Counts};

use lsvd_fault::{Failed, Link, MemLink};

/// A link to a client. It may hold back what is written to it, so that several writes go out together: until
/// the next read that has to wait for the client, or until `send`.
pub trait Connection: Link {
    /// The bytes that were written and are still held back.
    ghost held: { Self → List ℕ };

    /// Sends what was written and is still held back. It neither reads nor writes: what is left to be read
    /// and what was written stay. `Failed` comes where the outside could not be written: the call was counted
    /// once, what was not sent is still held back, and `send` may be called again.
    fn send(&mut self) -> Result<(), Failed>
        ensures sent { OnOk result (held self.new ≡ []) }
        ensures input { Self.remaining self.new ≡ Self.remaining self.old }
        ensures output { Self.contents self.new ≡ Self.contents self.old }
        ensures count { Counts (is_err result) (Self.Source.faults self.old) (Self.Source.faults self.new) };
}

impl Connection for MemLink {
    // Nothing is held back.
    ghost held = { λ _. [] };

    fn send(&mut self) -> Result<(), Failed> {
        Ok(())
    }
}
