//! The command line of the program `lsvdctl`: the one place from which its commands come.
//!
//! Its contract: words are answered with what the command and the options in them ask for, exactly where clap
//! takes them and the values of the options are in form and in their limits, unless it is out of memory; and
//! of words that are refused it tells a mistake that is true of them. It stands on `lsvd_base`, for the
//! limits of a volume, and on the kit's `clap`, `uuid`, `itoa` and `thiserror`.
#![tactic(auto)]

mod bad_values;
mod check;
mod churn;
mod collect;
mod create;
mod faults;
mod help;
mod laws;
mod mistake;
mod mount;
mod number;
mod options;
mod program;
mod request;
mod serve;
mod values;

pub use check::CheckRequest;
pub use churn::ChurnRequest;
pub use create::CreateRequest;
pub use help::help_of;
pub use laws::{a_command_line_spells_a_request, the_help_options_ask_for_help};
pub use mistake::{Mistake, mistake_of};
pub use mount::MountRequest;
pub use request::{CommandLineError, Request, request_of};
pub use serve::ServeRequest;
