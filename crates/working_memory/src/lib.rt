//! Which elements are in working memory, by their places, and places by the values that their elements
//! have. It knows no elements, rules or matches.
#![tactic(auto)]

mod groups;
mod memory;

pub use groups::{Groups, Key};
pub use memory::Memory;
