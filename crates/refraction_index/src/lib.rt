//! Which choices have fired, and how many entries the journal had when they last did, in one look-up.
//! The index knows no rules, elements or matches; what its answers say of refraction is a law (`laws`).
#![tactic(auto)]

mod index;
pub mod laws;
mod numbers;

pub use index::RefractionIndex;
