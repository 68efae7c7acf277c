//! Checked programs.

ghost use Rattle.std.specs.Prelude.{◌≡◌, IfOk};

use crate::{Action, Cond, Value};
use ops_text::{Duplicate, OutOfMemory, Sequence};
use std::alloc::Global;

/// A rule: its name by number, how many variables it has, which go by numbers from 0, how many of its
/// condition elements are positive, its condition elements and its actions.
#[derive(Debug, Drop)]
pub struct Rule {
    pub name: u32,
    pub vars: u32,
    pub positives: u32,
    pub conds: Sequence<Cond>,
    pub actions: Sequence<Action>,
}

/// A class: its name and the names of its attributes, by number. Attributes count from 0.
#[derive(Debug, Drop)]
pub struct Class {
    pub name: u32,
    pub attrs: Sequence<u32>,
}

/// A program: its classes and its rules, each numbered from 0 in the order of the text, and its
/// top-level makes, as a class with a value for each attribute.
#[derive(Debug, Drop)]
pub struct Program {
    pub classes: Sequence<Class>,
    pub rules: Sequence<Rule>,
    pub makes: Sequence<(u32, Sequence<Value>)>,
}

impl Rule {
    /// A rule equal to this one.
    pub fn copy(&self, alloc: Global) -> Result<Rule, OutOfMemory>
        ensures { IfOk result (λ copy. copy ≡ self.now) }
    {
        Ok(Rule {
            name: self.name,
            vars: self.vars,
            positives: self.positives,
            conds: self.conds.duplicate(alloc)?,
            actions: self.actions.duplicate(alloc)?,
        })
    }
}

impl Duplicate for Rule {
    fn duplicate(&self, alloc: Global) -> Result<Rule, OutOfMemory> {
        self.copy(alloc)
    }
}

impl Class {
    /// A class equal to this one.
    pub fn copy(&self, alloc: Global) -> Result<Class, OutOfMemory>
        ensures { IfOk result (λ copy. copy ≡ self.now) }
    {
        Ok(Class {
            name: self.name,
            attrs: self.attrs.duplicate(alloc)?,
        })
    }
}

impl Duplicate for Class {
    fn duplicate(&self, alloc: Global) -> Result<Class, OutOfMemory> {
        self.copy(alloc)
    }
}

impl Program {
    /// A program equal to this one.
    pub fn copy(&self, alloc: Global) -> Result<Program, OutOfMemory>
        ensures { IfOk result (λ copy. copy ≡ self.now) }
    {
        Ok(Program {
            classes: self.classes.duplicate(alloc)?,
            rules: self.rules.duplicate(alloc)?,
            makes: self.makes.duplicate(alloc)?,
        })
    }
}
