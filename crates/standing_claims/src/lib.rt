//! The claims that stand, each with the locks that it has taken, and for each lock the word that these
//! add up to. It knows no program, no working memory and no thread.
#![tactic(auto)]

mod claim;
mod held;
mod standing;
mod words;

pub use claim::Claim;
pub use standing::Standing;
