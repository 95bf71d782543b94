//! The language of replay scripts: lines, the commands that they spell, and the texts of answers.
//!
//! Its contract: a line is read as a command exactly where it spells one, and is else refused for the first
//! reason that applies; and a run text names the maximal runs of the bytes. It stands on `lsvd_base`, and on
//! the kit's `itoa` and `thiserror`.
#![tactic(auto)]

mod command;
mod decimal;
mod error;
mod letters;
mod line;
mod number;
mod run_text;

pub use command::{Command, a_line_spells_one_command, command_of};
pub use decimal::push_decimal;
pub use error::LineError;
pub use letters::Letters;
pub use line::{LINE_LIMIT, SCRIPT_LIMIT, line_number, split_line};
pub use run_text::{a_run_text_is_determined, push_run_text};
