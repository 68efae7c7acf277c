//! What a firing does to the working memory, and what it writes.

ghost use Rattle.std.specs.Prelude.{◌≡◌, IfOk};

use crate::{Element, Value};
use ops_text::{Duplicate, OutOfMemory, Sequence};
use std::alloc::Global;

/// One change that a firing asks for, before its commit gives time tags.
#[derive(Debug, Drop)]
pub enum Change {
    /// Removes the element with this tag.
    Remove(u64),
    /// Makes an element of the class with these values.
    Make { class: u32, values: Sequence<Value> },
}

/// One change that a commit has made.
#[derive(Debug, Drop)]
pub enum Tagged {
    /// The element with this tag has gone.
    Gone(u64),
    /// This element has come.
    Born(Element),
}

/// One piece of what `write` wrote: a value, or a word about the layout.
#[derive(Clone, Copy, Debug, PartialEq, Eq)]
pub enum Piece {
    Put(Value),
    Crlf,
    Tabto(u8),
    Rjust(u8),
}

impl Change {
    /// A change equal to this one.
    pub fn copy(&self, alloc: Global) -> Result<Change, OutOfMemory>
        ensures { IfOk result (λ copy. copy ≡ self.now) }
    {
        match self {
            Change::Remove(tag) => Ok(Change::Remove(*tag)),
            Change::Make { class, values } => Ok(Change::Make {
                class: *class,
                values: values.duplicate(alloc)?,
            }),
        }
    }
}

impl Duplicate for Change {
    fn duplicate(&self, alloc: Global) -> Result<Change, OutOfMemory> {
        self.copy(alloc)
    }
}

impl Tagged {
    /// A change equal to this one.
    pub fn copy(&self, alloc: Global) -> Result<Tagged, OutOfMemory>
        ensures { IfOk result (λ copy. copy ≡ self.now) }
    {
        match self {
            Tagged::Gone(tag) => Ok(Tagged::Gone(*tag)),
            Tagged::Born(element) => Ok(Tagged::Born(element.copy(alloc)?)),
        }
    }
}

impl Duplicate for Tagged {
    fn duplicate(&self, alloc: Global) -> Result<Tagged, OutOfMemory> {
        self.copy(alloc)
    }
}

impl Duplicate for Piece {
    fn duplicate(&self, _alloc: Global) -> Result<Piece, OutOfMemory> {
        Ok(*self)
    }
}
