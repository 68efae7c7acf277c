//! Why a candidate can't be claimed, and what happens to a core: as plain data.

ghost use Rattle.std.specs.Prelude.{◌≡◌};
ghost use Rattle.firing_core.specs.declared.claims.ClaimRefusal.TheVariants as refusal;

use ops_text::OutOfMemory;
use rule_base::{Busy, Candidate, Choice, FaultCause};

/// A firing that failed: its choice, its first failing action, from 1, and the cause.
#[derive(Debug, Drop)]
pub struct FaultSeen {
    pub choice: Choice,
    pub action: u32,
    pub cause: FaultCause,
}

/// How a core has ended: by a firing that halted, by its budget, or by a fault.
#[derive(Clone, Copy, Debug, PartialEq, Eq)]
pub enum How {
    Halted,
    Budget,
    Fault,
}

/// Why a candidate can't be claimed.
#[derive(Clone, Copy, Debug, PartialEq, Eq)]
pub enum ClaimRefusal {
    /// A lock that it asks for has no room for it.
    Busy(Busy),
    Ended(How),
    /// Working memory has no such element under this tag.
    Gone { tag: u64 },
    /// The condition element with this number, from 1, fails.
    Unmatched { condition: u32 },
    Fired,
    /// The claim with this number is of the same choice.
    Claimed { number: u64 },
    /// 2^64 - 1 claims were given a number since all were last dropped, or 4,095 stand: so many were, and
    /// so many do.
    Full { given: u64, standing: u64 },
    OutOfMemory,
}

impl From<OutOfMemory> for ClaimRefusal {
    ghost from_gives = { λ _ told. told ≡ refusal.OutOfMemory };

    fn from(_error: OutOfMemory) -> ClaimRefusal {
        ClaimRefusal::OutOfMemory
    }
}

/// No such claim stands: none has the grant's number and its choice.
#[derive(Clone, Copy, Debug, PartialEq, Eq)]
pub struct Foreign;

/// Why a firing can't end a claim.
#[derive(Clone, Copy, Debug, PartialEq, Eq)]
pub enum CommitRefusal {
    /// No claim with the grant's number and choice stands, or the firing is of another rule or of other
    /// elements than the claim.
    Foreign,
    Ended(How),
}

/// What happens to a core: a candidate is claimed, or the claim with this number is committed, fails or
/// is dropped.
#[derive(Debug, Drop)]
pub enum Event {
    Claimed(Candidate),
    Committed(u64),
    Faulted(u64),
    Dropped(u64),
}
