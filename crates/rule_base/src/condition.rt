//! Condition elements: what a rule asks of the working memory.

ghost use Rattle.std.specs.Prelude.{◌≡◌, IfOk};

use crate::Value;
use ops_text::{Duplicate, OutOfMemory, Sequence};
use std::alloc::Global;

/// The predicates `=`, `<>`, `<`, `<=`, `>`, `>=` and `<=>`, the last of which asks for the same type.
#[derive(Clone, Copy, Debug, PartialEq, Eq)]
pub enum Pred {
    Eq,
    Ne,
    Lt,
    Le,
    Gt,
    Ge,
    Same,
}

/// What a predicate compares an attribute's value with: a constant, or what a variable of the rule is
/// bound to.
#[derive(Clone, Copy, Debug, PartialEq, Eq)]
pub enum Arg {
    Con(Value),
    Var(u32),
}

/// One test of an attribute, which goes by its number in the class.
#[derive(Debug, Drop)]
pub enum Test {
    /// Binds a variable to the attribute's value, and holds.
    Bind { attr: u32, var: u32 },
    /// Compares the attribute's value.
    Cmp { attr: u32, pred: Pred, arg: Arg },
    /// Asks for one of these values.
    OneOf { attr: u32, among: Sequence<Value> },
}

/// A condition element: it asks for an element of the class that passes the tests from left to right,
/// or, negated, that there is none.
#[derive(Debug, Drop)]
pub struct Cond {
    pub negated: bool,
    pub class: u32,
    pub tests: Sequence<Test>,
}

impl Test {
    /// A test equal to this one.
    pub fn copy(&self, alloc: Global) -> Result<Test, OutOfMemory>
        ensures { IfOk result (λ copy. copy ≡ self.now) }
    {
        match self {
            Test::Bind { attr, var } => Ok(Test::Bind {
                attr: *attr,
                var: *var,
            }),
            Test::Cmp { attr, pred, arg } => Ok(Test::Cmp {
                attr: *attr,
                pred: *pred,
                arg: *arg,
            }),
            Test::OneOf { attr, among } => Ok(Test::OneOf {
                attr: *attr,
                among: among.duplicate(alloc)?,
            }),
        }
    }
}

impl Duplicate for Test {
    fn duplicate(&self, alloc: Global) -> Result<Test, OutOfMemory> {
        self.copy(alloc)
    }
}

impl Cond {
    /// A condition element equal to this one.
    pub fn copy(&self, alloc: Global) -> Result<Cond, OutOfMemory>
        ensures { IfOk result (λ copy. copy ≡ self.now) }
    {
        Ok(Cond {
            negated: self.negated,
            class: self.class,
            tests: self.tests.duplicate(alloc)?,
        })
    }
}

impl Duplicate for Cond {
    fn duplicate(&self, alloc: Global) -> Result<Cond, OutOfMemory> {
        self.copy(alloc)
    }
}
