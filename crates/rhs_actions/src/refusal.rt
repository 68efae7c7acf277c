//! Why a right-hand side has no effect.

ghost use Rattle.std.specs.Prelude.{◌≡◌};
ghost use Rattle.rhs_actions.specs.declared.refusal.Stop.TheVariants.{Fails as fails, OutOfMemory as no_memory};
ghost use Rattle.rhs_actions.specs.declared.refusal.EffectRefusal.TheVariants as effect;
ghost use Rattle.rhs_actions.specs.declared.refusal.FireRefusal.TheVariants as fire;
ghost use Rattle.rhs_actions.specs.Refusals.{refusal_at};

use crate::Failed;
use rule_base::FaultCause;
use std::alloc::{AllocError, AllocFailed};

/// Why a right-hand side has no effect: this action, which counts from 1, is the first that fails, or
/// memory is wanting.
#[derive(Clone, Copy)]
pub enum EffectRefusal {
    Failed { action: u32, cause: FaultCause },
    OutOfMemory,
}

/// Why a rule doesn't fire.
#[derive(Drop)]
pub enum FireRefusal {
    Failed(Failed),
    OutOfMemory,
}

/// Why an action isn't done.
#[derive(Clone, Copy)]
pub(crate) enum Stop {
    Fails(FaultCause),
    OutOfMemory,
}

impl Stop {
    /// The refusal of the action with this number.
    pub(crate) fn at(self, action: u32) -> EffectRefusal
        ensures { result ≡ refusal_at action self }
    {
        match self {
            Stop::Fails(cause) => EffectRefusal::Failed { action, cause },
            Stop::OutOfMemory => EffectRefusal::OutOfMemory,
        }
    }
}

impl From<FaultCause> for Stop {
    ghost from_gives = { λ cause stop. stop ≡ fails cause };

    fn from(cause: FaultCause) -> Stop {
        Stop::Fails(cause)
    }
}

impl From<AllocError> for Stop {
    ghost from_gives = { λ _ stop. stop ≡ no_memory };

    fn from(_error: AllocError) -> Stop {
        Stop::OutOfMemory
    }
}

impl<T: Drop> From<AllocFailed<T>> for Stop {
    ghost from_gives = { λ _ stop. stop ≡ no_memory };

    fn from(_failed: AllocFailed<T>) -> Stop {
        Stop::OutOfMemory
    }
}

impl From<AllocError> for EffectRefusal {
    ghost from_gives = { λ _ refusal. refusal ≡ effect.OutOfMemory };

    fn from(_error: AllocError) -> EffectRefusal {
        EffectRefusal::OutOfMemory
    }
}

impl From<AllocError> for FireRefusal {
    ghost from_gives = { λ _ refusal. refusal ≡ fire.OutOfMemory };

    fn from(_error: AllocError) -> FireRefusal {
        FireRefusal::OutOfMemory
    }
}
