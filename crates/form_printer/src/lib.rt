//! Prints forms in their canonical text, from which they are read back. It knows nothing of classes, bindings or
//! firings.
#![tactic(auto)]

pub mod laws;
mod print;

pub use print::{print_forms, print_symbol};
