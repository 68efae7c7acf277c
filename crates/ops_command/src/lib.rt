//! The command `ops`: from the words of a command line and the bytes of its files to the report of a run. It knows no
//! tokens, no rules of the language and no firings, which the crates below it read, check and do.
#![tactic(auto)]

mod command;
mod ending_words;
mod file_bytes;
pub mod laws;
mod memory_file;
mod plan;
mod program_file;
mod refusals;
mod run;
mod run_report;
mod status;
mod text;
mod words;

pub use command::run_without_threads;
pub use ops_reader::SyntaxKind;
pub use rule_checker::CheckKind;
pub use status::{FileKind, Report, Status, UsageKind};
