//! The values that an attribute may have.

ghost use Rattle.std.specs.Prelude.{◌≡◌, IfOk};

use ops_text::{Duplicate, OutOfMemory};
use std::alloc::Global;

/// An integer of 64 bits, or a symbol by its number.
#[derive(Clone, Copy, Debug, PartialEq, Eq)]
pub enum Value {
    Int(i64),
    Sym(u32),
}

impl Duplicate for Value {
    fn duplicate(&self, _alloc: Global) -> Result<Value, OutOfMemory> {
        Ok(*self)
    }
}
