//! Alpha stores: elements under the hashes of what joins look them up by, one store for all condition
//! elements that ask alike. It knows no rules and no partial matches.
#![tactic(auto)]

mod alike;
mod dispatch;
mod filing;
mod memory;
mod store;
#[cfg(test)]
mod tests;

pub use memory::AlphaMemory;
pub use store::AlphaStore;
