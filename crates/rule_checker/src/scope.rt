//! The variables of a rule, as its text is walked.

ghost use Rattle.std.specs.Prelude.{◌≡◌, ◌+◌, ◌^◌, ◌<◌, None, IfOk, OnOk};
ghost use Rattle.rule_checker.specs.Names.{number_of};
ghost use Rattle.rule_checker.specs.Scope.{no_variables, variable_of, bound_to_its_left, with_variable, behind};

use crate::names::Numbering;
use crate::refusal::CheckKind;
use ops_text::OutOfMemory;
use std::alloc::Global;

/// The variables that can be used at a place of a rule, each with its number: those that positive condition
/// elements and binds have bound, and those that the negated condition element has bound in which the place lies.
/// `vars` counts all variables of the rule so far.
#[derive(Drop)]
pub struct Scope {
    pub bound: Numbering,
    pub local: Numbering,
    pub vars: u32,
}

impl Scope {
    pub fn new(alloc: Global) -> Scope
        ensures { result ≡ no_variables }
    {
        Scope {
            bound: Numbering::new(alloc),
            local: Numbering::new(alloc),
            vars: 0,
        }
    }

    /// The number of the variable of this name, if it is bound here.
    pub fn variable(&self, name: u32) -> Option<u32>
        ensures { result ≡ variable_of self.now name }
    {
        match self.bound.number(name) {
            Some(var) => Some(var),
            None => self.local.number(name),
        }
    }

    /// The number of the variable of this name, which must be bound here.
    pub fn bound_to_its_left(&self, name: u32) -> Result<u32, CheckKind>
        ensures { result ≡ bound_to_its_left self.now name }
    {
        match self.variable(name) {
            Some(var) => Ok(var),
            None => Err(CheckKind::Unbound),
        }
    }

    /// Adds a variable of a new name, and tells its number.
    pub fn add(&mut self, negated: bool, name: u32) -> Result<u32, OutOfMemory>
        requires new_name { variable_of self.old name ≡ None }
        requires room { self.old.vars + 1 < 2 ^ 32 }
        ensures number { IfOk result (λ var. var ≡ self.old.vars) }
        ensures scope { OnOk result (self.new ≡ with_variable negated self.old name) }
    {
        let var = self.vars;
        if negated {
            self.local.add(name, var)?;
        } else {
            self.bound.add(name, var)?;
        }
        self.vars = var + 1;
        Ok(var)
    }

    /// Leaves a condition element.
    pub fn leave(&mut self)
        ensures { self.new ≡ behind self.old }
    {
        self.local.clear();
    }
}
