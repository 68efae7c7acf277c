//! Halls: a core that several workers share, each by a pass of its own. What a hall does with its core
//! stands here as far as a worker rests on it; no hall is built here.

ghost use Rattle.std.specs.Prelude.{◌≡◌, ◌||◌, Bool, None, Option, Some, IfErr, IfOk, OnErr};
ghost use Rattle.rule_base.specs.Fits.{Fits};
ghost use Rattle.rule_base.specs.Sound.{IsSound};
ghost use Rattle.rule_base.specs.declared.program.Program.{Program as AProgram};
ghost use Rattle.firing_core.specs.Grants.{Granted};
ghost use Rattle.firing_core.specs.Halls.{LeavesAfterCommit, LeavesAfterDrop, LeavesAfterFault, claim_tells_end, commit_tells_end, end_is_told, fault_tells_end};

use crate::claims::{ClaimRefusal, CommitRefusal, How};
use crate::grant::Grant;
use commit_journal::Journal;
use rhs_actions::{Delta, Failed};
use rule_base::{Candidate, Program};
use std::sync::{Arc, Wait};

/// The hall was busy with another worker's step: nothing has changed, and the call is to be tried again.
#[derive(Clone, Copy, Debug, PartialEq, Eq)]
pub struct Again;

/// Why a hall made no claim.
#[derive(Clone, Copy, Debug, PartialEq, Eq)]
pub enum ClaimStop {
    Refused(ClaimRefusal),
    /// See `Again`. It stands between a busy lock and the end of the core.
    Again,
}

/// Why a hall committed nothing. What is to be tried again comes back.
#[derive(Drop)]
pub enum CommitStop {
    Refused(CommitRefusal),
    Again(Grant, Delta),
}

/// Why a hall kept no fault.
#[derive(Drop)]
pub enum FaultStop {
    Refused(CommitRefusal),
    Again(Grant, Failed),
}

/// Why a hall dropped no claim.
#[derive(Drop)]
pub enum DropStop {
    Foreign,
    Again(Grant),
}

/// Why a hall shows no entries.
#[derive(Clone, Copy, Debug, PartialEq, Eq)]
pub enum LookStop {
    OutOfMemory,
    Again,
}

/// A core that several workers share. A pass holds at most one grant, and is told that the core has ended
/// only by an answer that says so.
pub trait Hall {
    type Pass: Drop + Send;

    /// The program of the core.
    ghost runs: { Self → AProgram };

    /// That a pass is of this hall.
    ghost is_of: { Self → Self.Pass → Type 0 };

    /// The grant that a pass holds.
    ghost held: { Self.Pass → Option Granted };

    /// Whether a pass was told that the core has ended.
    ghost told: { Self.Pass → Bool };

    fn program(&self) -> &Arc<Program>
        ensures program { result.now.value ≡ runs self.now }
        ensures sound { IsSound (runs self.now) };

    fn claim<R: Wait>(
        &self,
        rt: &R,
        pass: &mut Self::Pass,
        candidate: &Candidate,
    ) -> Result<Grant, ClaimStop>
        requires of_hall { is_of self.now pass.old }
        requires free { held pass.old ≡ None }
        requires fits { Fits (runs self.now) candidate.now }
        ensures still_of_hall { is_of self.now pass.new }
        ensures granted { IfOk result (λ grant. held pass.new ≡ Some grant) }
        ensures program { IfOk result (λ grant. grant.program ≡ runs self.now) }
        ensures candidate { IfOk result (λ grant. grant.candidate ≡ candidate.now) }
        ensures still_free { OnErr result (held pass.new ≡ None) }
        ensures told { told pass.new ≡ (told pass.old || claim_tells_end result) };

    fn commit<R: Wait>(
        &self,
        rt: &R,
        pass: &mut Self::Pass,
        grant: Grant,
        delta: Delta,
    ) -> Result<u64, CommitStop>
        requires of_hall { is_of self.now pass.old }
        requires holds { held pass.old ≡ Some grant }
        requires program { delta.program ≡ runs self.now }
        requires rule { delta.rule ≡ grant.candidate.choice.rule }
        requires elements { delta.elements ≡ grant.candidate.elements }
        ensures still_of_hall { is_of self.now pass.new }
        ensures leaves { LeavesAfterCommit grant delta (held pass.new) result }
        ensures told { told pass.new ≡ (told pass.old || commit_tells_end result) };

    fn fault<R: Wait>(
        &self,
        rt: &R,
        pass: &mut Self::Pass,
        grant: Grant,
        failed: Failed,
    ) -> Result<(), FaultStop>
        requires of_hall { is_of self.now pass.old }
        requires holds { held pass.old ≡ Some grant }
        requires program { failed.program ≡ runs self.now }
        requires rule { failed.rule ≡ grant.candidate.choice.rule }
        requires elements { failed.elements ≡ grant.candidate.elements }
        ensures still_of_hall { is_of self.now pass.new }
        ensures leaves { LeavesAfterFault grant failed (held pass.new) result }
        ensures told { told pass.new ≡ (told pass.old || fault_tells_end result) };

    fn drop_claim<R: Wait>(
        &self,
        rt: &R,
        pass: &mut Self::Pass,
        grant: Grant,
    ) -> Result<(), DropStop>
        requires of_hall { is_of self.now pass.old }
        requires holds { held pass.old ≡ Some grant }
        ensures still_of_hall { is_of self.now pass.new }
        ensures leaves { LeavesAfterDrop grant (held pass.new) result }
        ensures told { told pass.new ≡ told pass.old };

    fn look<R: Wait>(
        &self,
        rt: &R,
        pass: &mut Self::Pass,
        position: u64,
        most: u32,
    ) -> Result<Journal, LookStop>
        requires of_hall { is_of self.now pass.old }
        ensures still_of_hall { is_of self.now pass.new }
        ensures held { held pass.new ≡ held pass.old }
        ensures told { told pass.new ≡ told pass.old };

    fn ended<R: Wait>(&self, rt: &R, pass: &mut Self::Pass) -> Result<Option<How>, Again>
        requires of_hall { is_of self.now pass.old }
        ensures still_of_hall { is_of self.now pass.new }
        ensures held { held pass.new ≡ held pass.old }
        ensures told { told pass.new ≡ (told pass.old || end_is_told result) };
}
