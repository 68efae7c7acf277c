//! A claim, as plain data.

use rule_base::Candidate;

/// A claim that stands: its number, and the candidate that it was made for.
#[derive(Debug, Drop)]
pub struct Claim {
    pub number: u64,
    pub candidate: Candidate,
}
