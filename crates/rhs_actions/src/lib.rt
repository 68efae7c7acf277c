//! The effect of a firing, whole: what the right-hand side of a rule does with the elements that match
//! its positive condition elements. It knows no working memory, no time tags to come and no journal.
#![tactic(auto)]

mod actions;
mod bindings;
mod effect;
mod expressions;
mod firing;
mod operators;
mod outcomes;
mod refusal;
mod terms;

pub use effect::{ChangeView, Effect};
pub use firing::{fire, fire_into};
pub use operators::operated;
pub use outcomes::{Delta, Failed};
pub use refusal::{EffectRefusal, FireRefusal};
