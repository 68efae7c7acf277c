//! Runs on the caller's thread: a core, and beside it a part of all rules that follows the core's state, so
//! that nothing is matched a second time.
#![tactic(auto)]

mod feeding;
mod finishing;
mod following;
pub mod laws;
mod prepared;
mod turn;

pub use finishing::{Finished, finish, run_alone};
