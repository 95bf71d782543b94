ghost use Rattle.std.specs.Prelude.{◌≡◌, ℕ, Bool, List, Option, is_err};
ghost use Rattle.std.specs.Bool.{OnTrue};
ghost use Rattle.lsvd_fault.specs.Faults.{Counts};
ghost use Rattle.lsvd_listen.specs.Listening.{given_after, closed_after, GivesNoLink, GivesFirst, GivesFresh};

use crate::connection::Connection;
use lsvd_fault::Failed;

/// What gives a server its clients, one link after another.
pub trait Listener {
    /// A link to a client.
    type Link: Connection + Drop;

    /// How many links were given so far. At the greatest number of its type the count stands.
    ghost given: { Self → ℕ };

    /// Whether an answer was that no client comes any more.
    ghost closed: { Self → Bool };

    /// How often a call has failed. At the greatest number of its type the count stands.
    ghost faults: { Self → ℕ };

    /// The links that are still to come, in their order, where the listener tells them.
    ghost coming: { Self → Option (List Self.Link) };

    /// Waits for the next client, and answers the link to it, as it came: nothing was written to it. None
    /// means that the listener is closed: no client comes any more, and each later call answers None or
    /// fails. `Failed` comes where the outside gave no link: the call was counted once, no link was given,
    /// and it may be made again.
    fn accept(&mut self) -> Result<Option<Self::Link>, Failed>
        ensures links { given self.new ≡ given_after result (given self.old) }
        ensures first { GivesFirst result (coming self.old) (coming self.new) }
        ensures fresh { GivesFresh Self.Link.contents result }
        ensures end { closed self.new ≡ closed_after result (closed self.old) }
        ensures over { OnTrue (closed self.old) (GivesNoLink result) }
        ensures count { Counts (is_err result) (faults self.old) (faults self.new) };

    /// How many links were given since the listener was made. At `u64::MAX` the count stands.
    fn given(&self) -> u64
        ensures { result ≡ given self.now };

    /// Whether the listener is closed, as an answer has told.
    fn closed(&self) -> bool
        ensures { result ≡ closed self.now };

    /// How many calls have failed since the listener was made. At `u64::MAX` the count stands.
    fn faults(&self) -> u64
        ensures { result ≡ faults self.now };
}
