ghost use Rattle.std.specs.Prelude.{◌≡◌};
ghost use Rattle.nbd_wire.specs.declared.wire_end.WireEnd.TheVariants as ends;

use lsvd_fault::Failed;
use thiserror::Error;

/// Why a message was not read or not written.
#[derive(Clone, Copy, Debug, PartialEq, Eq, Error)]
pub enum WireEnd {
    /// The input ends before the first byte of the message.
    #[error("the input ended")]
    Ended,
    /// The input ends inside the message, or it has another magic, or flags that are not known.
    #[error("no message")]
    Closed,
    /// A read or a write of the link failed, and was counted there.
    #[error("a read or a write failed")]
    LinkFault,
}

impl From<Failed> for WireEnd {
    ghost from_gives = { λ _ e. e ≡ ends.LinkFault };

    fn from(_: Failed) -> WireEnd {
        WireEnd::LinkFault
    }
}
