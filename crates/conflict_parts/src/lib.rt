//! Which full matches of a match network are candidates: free of their negated condition elements, and not
//! marked as fired. It knows no order of choices, and no journal.
#![tactic(auto)]

mod candidates;
pub mod laws;
mod opening;
mod part;
mod queue;
mod renewing;
mod standing;
mod waiters;

pub use part::Part;
pub use standing::{RowId, Standing, Standings};
pub use waiters::{Waiters, WaitersAt};
