//! The transcript of a script: which text answers its lines, and how it ends.
//!
//! Its contract: these definitions, over the plain volume, and the laws that each script has one transcript,
//! and that in each state which a script reaches a stop keeps what was flushed. It stands on `replay_script`
//! for the language, and on `plain_disk` for the volume.
#![tactic(auto)]

mod laws;
mod reason;

pub use laws::{
    a_transcript_is_determined, each_script_has_a_transcript, what_was_flushed_is_kept,
};
pub use reason::LineReason;
