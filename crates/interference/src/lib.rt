//! Footprints: which instantiations may fire side by side. It knows no thread and no network; a
//! lock is a number here, and a footprint a list of locks with modes.
#![tactic(auto)]

mod demands;
pub mod examples;
mod given;
pub mod laws;
mod modes;
mod regions;
mod rules;
mod sharing;
mod splits;
mod words;

pub use demands::footprint;
pub use modes::compatible;
pub use rules::may_interfere;
pub use sharing::parts;
pub use splits::Splits;
pub use words::{admits, amount, first_busy};
