//! The negotiation of NBD, the network block device, on the side of the server, in the fixed newstyle of the
//! NBD protocol document: one export, which has two names.
//!
//! Its contract: each option has one answer by its number and its data, and what is written are the bytes of
//! that answer. A negotiation is the greeting, the client's flags and then options, each with its answer,
//! until an answer, the end of the input or bytes that are out of form end it. It stands on `nbd_wire` for
//! messages, on `lsvd_bytes` for numbers, on `lsvd_fault` for links, and on `uuid`.
#![tactic(auto)]

mod answer;
mod export;
mod info;
mod laws;
mod negotiation;
mod replies;

pub use answer::{Answer, answer_of, answer_unread};
pub use export::Export;
pub use laws::a_negotiation_has_one_end;
pub use negotiation::{MAX_OPTION_DATA, MAX_OPTIONS, NegotiationEnd, negotiate};
pub use replies::write_answer;
