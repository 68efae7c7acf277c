//! The journal's entries, and how a run may end.

ghost use Rattle.std.specs.Prelude.{◌≡◌, IfOk};

use crate::{Choice, Piece, Tagged};
use ops_text::{Duplicate, OutOfMemory, Sequence};
use std::alloc::Global;

/// One firing: which instantiation, what it changed (removals first, then makes, each kind in the
/// order of the actions), what it wrote, and whether it halted the run.
#[derive(Debug, Drop)]
pub struct Entry {
    pub choice: Choice,
    pub changes: Sequence<Tagged>,
    pub pieces: Sequence<Piece>,
    pub halts: bool,
}

/// Why a right-hand side fails.
#[derive(Clone, Copy, Debug, PartialEq, Eq)]
pub enum FaultCause {
    DivideByZero,
    Overflow,
    NotANumber,
    /// A `modify` of an element that the same firing has removed or modified.
    Gone,
}

/// How a run ends.
#[derive(Debug, Drop)]
pub enum Ending {
    /// Every instantiation of the conflict set is among the fired ones.
    Quiet,
    /// A firing halted.
    Halted,
    /// The budget of `n` firings is used up, and something is left.
    Spent {
        n: u64,
    },
    /// The right-hand side of this instantiation fails first at this action, which counts from 1.
    Fault {
        choice: Choice,
        action: u32,
        cause: FaultCause,
    },
}

impl Entry {
    /// An entry equal to this one.
    pub fn copy(&self, alloc: Global) -> Result<Entry, OutOfMemory>
        ensures { IfOk result (λ copy. copy ≡ self.now) }
    {
        Ok(Entry {
            choice: self.choice.copy(alloc)?,
            changes: self.changes.duplicate(alloc)?,
            pieces: self.pieces.duplicate(alloc)?,
            halts: self.halts,
        })
    }
}

impl Duplicate for Entry {
    fn duplicate(&self, alloc: Global) -> Result<Entry, OutOfMemory> {
        self.copy(alloc)
    }
}
