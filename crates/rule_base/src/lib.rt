//! The data of rule programs, and the definitions that every other crate cites: working memory, the
//! match, the conflict set, the effect of a firing, the recognise-act machine and its endings. It has
//! no network, index, lock or worker.
#![tactic(auto)]

mod action;
mod base;
mod cases;
mod change;
mod condition;
mod element;
mod elements;
mod entry;
pub mod examples;
mod expression;
mod instantiation;
pub mod laws;
mod lock;
mod program;
mod steps;
mod value;

pub use action::{Action, Item, Term};
pub use base::{Base, Refraction};
pub use cases::Cases;
pub use change::{Change, Piece, Tagged};
pub use condition::{Arg, Cond, Pred, Test};
pub use element::{Element, ElementView};
pub use elements::Elements;
pub use entry::{Ending, Entry, FaultCause};
pub use expression::{Expr, Op, Operand};
pub use instantiation::{Candidate, Choice};
pub use lock::{Busy, Mode};
pub use program::{Class, Program, Rule};
pub use steps::Steps;
pub use value::Value;
