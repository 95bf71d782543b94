//! Replay scripts on a volume whose machine can be stopped: each line is one event, and its answer is one
//! line of text. And churns, which run a generated script and write a summary of it.
//!
//! Its contract: what is written is the transcript of the script, which the plain volume determines, or the
//! summary of the plain volume's run of the generated one; and the rig that is left shows what the script
//! leaves. It stands on `transcript` for what a script is answered, on `replay_rig` for the volume and its
//! machine, on `replay_script` for the lines, on `churn_script` for the generated script, and on `lsvd_fault`
//! for the streams.
#![tactic(auto)]

mod churning;
mod letters;
mod line;
mod outcome;
mod run;
mod text;

pub use churning::churn;
pub use outcome::{ChurnOutcome, Outcome};
pub use replay_rig::Rig;
pub use run::replay;
pub use transcript::LineReason;
