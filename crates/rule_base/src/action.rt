//! The actions of a rule's right-hand side.

ghost use Rattle.std.specs.Prelude.{◌≡◌, IfOk};

use crate::{Expr, Value};
use ops_text::{Duplicate, OutOfMemory, Sequence};
use std::alloc::Global;

/// What an action puts somewhere: a constant, a variable's value, or what `compute` gives.
#[derive(Debug, Drop)]
pub enum Term {
    Con(Value),
    Var(u32),
    Compute(Expr),
}

/// One item of a `write`: a term, or a word about the layout. `Tabto` and `Rjust` have columns.
#[derive(Debug, Drop)]
pub enum Item {
    Put(Term),
    Crlf,
    Tabto(u8),
    Rjust(u8),
}

/// An action. `at` counts the rule's positive condition elements from 0, and a setting is an
/// attribute's number with a term. `size` is the class's number of attributes, so that a rule's effect
/// depends on the rule and its elements alone.
#[derive(Debug, Drop)]
pub enum Action {
    Make {
        class: u32,
        size: u32,
        sets: Sequence<(u32, Term)>,
    },
    Modify {
        at: u32,
        sets: Sequence<(u32, Term)>,
    },
    Remove {
        at: Sequence<u32>,
    },
    Bind {
        var: u32,
        term: Term,
    },
    Write {
        items: Sequence<Item>,
    },
    Halt,
}

impl Term {
    /// A term equal to this one.
    pub fn copy(&self, alloc: Global) -> Result<Term, OutOfMemory>
        ensures { IfOk result (λ copy. copy ≡ self.now) }
    {
        match self {
            Term::Con(value) => Ok(Term::Con(*value)),
            Term::Var(var) => Ok(Term::Var(*var)),
            Term::Compute(expression) => Ok(Term::Compute(expression.copy(alloc)?)),
        }
    }
}

impl Duplicate for Term {
    fn duplicate(&self, alloc: Global) -> Result<Term, OutOfMemory> {
        self.copy(alloc)
    }
}

impl Item {
    /// An item equal to this one.
    pub fn copy(&self, alloc: Global) -> Result<Item, OutOfMemory>
        ensures { IfOk result (λ copy. copy ≡ self.now) }
    {
        match self {
            Item::Put(term) => Ok(Item::Put(term.copy(alloc)?)),
            Item::Crlf => Ok(Item::Crlf),
            Item::Tabto(column) => Ok(Item::Tabto(*column)),
            Item::Rjust(width) => Ok(Item::Rjust(*width)),
        }
    }
}

impl Duplicate for Item {
    fn duplicate(&self, alloc: Global) -> Result<Item, OutOfMemory> {
        self.copy(alloc)
    }
}

impl Action {
    /// An action equal to this one.
    pub fn copy(&self, alloc: Global) -> Result<Action, OutOfMemory>
        ensures { IfOk result (λ copy. copy ≡ self.now) }
    {
        match self {
            Action::Make { class, size, sets } => Ok(Action::Make {
                class: *class,
                size: *size,
                sets: sets.duplicate(alloc)?,
            }),
            Action::Modify { at, sets } => Ok(Action::Modify {
                at: *at,
                sets: sets.duplicate(alloc)?,
            }),
            Action::Remove { at } => Ok(Action::Remove {
                at: at.duplicate(alloc)?,
            }),
            Action::Bind { var, term } => Ok(Action::Bind {
                var: *var,
                term: term.copy(alloc)?,
            }),
            Action::Write { items } => Ok(Action::Write {
                items: items.duplicate(alloc)?,
            }),
            Action::Halt => Ok(Action::Halt),
        }
    }
}

impl Duplicate for Action {
    fn duplicate(&self, alloc: Global) -> Result<Action, OutOfMemory> {
        self.copy(alloc)
    }
}
