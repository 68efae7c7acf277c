//! The match network: which partial matches of rules there are, kept up from one change of working memory
//! to the next. It fires nothing, and knows no journal and no order of choices.
#![tactic(auto)]

mod arrivals;
mod askers;
mod due;
pub mod examples;
mod full;
mod held;
pub mod laws;
mod level;
mod negated;
mod network;
mod packing;
mod row_view;
mod rows;
mod rule_levels;
mod rule_set;
mod stage;
mod weaving;

pub use arrivals::Arrivals;
pub use askers::Asker;
pub use full::FullRows;
pub use level::Level;
pub use network::Network;
pub use rows::Rows;
pub use rule_levels::RuleLevels;
pub use weaving::{Conditions, new_levels, weave};
