//! Checks the forms of a text by the rules of the language, and gives everything in them a number. It knows nothing of
//! bytes, of matching or of firings.
#![tactic(auto)]

mod checking;
mod classes;
mod condition_tests;
mod expressions;
pub mod laws;
mod left_side;
mod loading;
mod makes;
mod names;
mod refusal;
mod right_side;
mod rules;
mod scope;
mod terms;

pub use checking::check;
pub use loading::load;
pub use refusal::{CheckKind, CheckRefusal};
