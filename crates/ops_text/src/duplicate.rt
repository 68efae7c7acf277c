//! Copies of plain data, which may want memory.

ghost use Rattle.std.specs.Prelude.{◌≡◌, IfOk};

use crate::{OutOfMemory, Sequence};
use std::alloc::Global;

/// Data of which an equal second value can be made.
pub trait Duplicate: Drop {
    /// A value equal to this one. It takes time and memory in proportion to the value.
    fn duplicate(&self, alloc: Global) -> Result<Self, OutOfMemory>
        ensures { IfOk result (λ copy. copy ≡ self.now) };
}

impl Duplicate for u32 {
    fn duplicate(&self, _alloc: Global) -> Result<u32, OutOfMemory> {
        Ok(*self)
    }
}

impl Duplicate for u64 {
    fn duplicate(&self, _alloc: Global) -> Result<u64, OutOfMemory> {
        Ok(*self)
    }
}

impl<A: Duplicate, B: Duplicate> Duplicate for (A, B) {
    fn duplicate(&self, alloc: Global) -> Result<(A, B), OutOfMemory> {
        let first = self.0.duplicate(alloc)?;
        let second = self.1.duplicate(alloc)?;
        Ok((first, second))
    }
}

impl<T: Duplicate> Duplicate for Sequence<T> {
    fn duplicate(&self, alloc: Global) -> Result<Sequence<T>, OutOfMemory> {
        Ok(Sequence::from_vec(copied(alloc, self.as_slice())?))
    }
}

/// Values equal to those of the slice. It takes time and memory in proportion to them.
pub fn copied<T: Duplicate>(alloc: Global, values: &[T]) -> Result<Vec<T>, OutOfMemory>
    ensures { IfOk result (λ copies. copies.items ≡ values.now) }
{
    let mut copies = Vec::with_capacity(alloc, values.len())?;
    for value in values {
        copies.push(value.duplicate(alloc)?)?;
    }
    Ok(copies)
}
