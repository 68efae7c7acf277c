//! The tests of condition elements: whether one accepts an element, and the row of bindings that it
//! leaves, changed in place. It looks at one condition element and one element at a time, and knows no
//! working memory and no rule.
#![tactic(auto)]

mod acceptance;
mod binds;
mod predicate;

pub use acceptance::{accepts, unbind};
pub use binds::Binds;
pub use predicate::holds;
