//! The core of the engine: the recognise-act machine with its journal and the claims that stand on it. It
//! says what may be claimed and evaluates right-hand sides, and fires choices that others have found. It
//! finds none itself, and knows no thread.
#![tactic(auto)]

mod acceptance;
mod claims;
pub mod examples;
mod failing;
mod fired;
mod fired_choices;
mod gone;
mod grant;
mod grouped;
mod hall;
pub mod laws;
mod machine;
mod negation;
mod pinned_keys;
mod same;
mod store;
mod tags;
mod workbench;

pub use claims::{ClaimRefusal, CommitRefusal, Event, FaultSeen, Foreign, How};
pub use grant::Grant;
pub use hall::{Again, ClaimStop, CommitStop, DropStop, FaultStop, Hall, LookStop};
pub use machine::Core;
pub use standing_claims::Claim;
pub use workbench::Workbench;
