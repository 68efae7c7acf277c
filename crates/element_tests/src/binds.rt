//! The row of bindings: which variables of a rule have a value.

ghost use Rattle.std.specs.Prelude.{◌≡◌, ◌<◌, IfOk, OnOk, length};
ghost use Rattle.rule_base.specs.Bindings.{no_bindings, binding_of, bound};
ghost use Rattle.element_tests.specs.Unbinding.{unset};

use ops_text::OutOfMemory;
use rule_base::Value;
use std::alloc::Global;
use std::marker::Model;

/// A value or none for each variable of a rule, by the variables' numbers.
#[derive(Drop)]
pub struct Binds {
    values: Vec<Option<Value>>,
}

impl Model for Binds {
    ghost use Rattle.rule_base.specs.Bindings.{Bindings};

    ghost Value = { Bindings };

    ghost view = { λ binds. binds.values.items };
}

impl Binds {
    /// A row for so many variables, none of which has a value.
    pub fn new(alloc: Global, vars: u32) -> Result<Binds, OutOfMemory>
        ensures { IfOk result (λ binds. binds ≡ no_bindings vars) }
    {
        let values = vec![in alloc; None; vars as usize]?;
        Ok(Binds { values })
    }

    /// Makes this a row for so many variables, none of which has a value. It takes memory only where the
    /// row has never had so many.
    pub fn renew(&mut self, vars: u32) -> Result<(), OutOfMemory>
        ensures { OnOk result (self.new ≡ no_bindings vars) }
    {
        self.values.clear();
        self.values.resize(vars as usize, None)
    }

    /// Takes the value of each variable away.
    pub fn clear(&mut self)
        ensures { self.new ≡ no_bindings (length self.old) }
    {
        self.values.as_mut_slice().fill(None);
    }

    /// The variable's value, if it has one.
    pub fn get(&self, var: u32) -> Option<Value>
        requires { var < length self.now }
        ensures { result ≡ binding_of self.now var }
    {
        self.values[var as usize]
    }

    /// Takes the variable's value away, if it has one.
    pub fn unset(&mut self, var: u32)
        requires { var < length self.old }
        ensures { self.new ≡ unset self.old var }
    {
        self.values[var as usize] = None;
    }

    /// Gives the variable this value.
    pub fn set(&mut self, var: u32, value: Value)
        requires { var < length self.old }
        ensures { self.new ≡ bound self.old var value }
    {
        self.values[var as usize] = Some(value);
    }

    /// The row as a slice.
    pub fn as_slice(&self) -> &[Option<Value>]
        ensures { result.now ≡ self.now }
    {
        self.values.as_slice()
    }

    /// A row equal to this one.
    pub fn copy(&self, alloc: Global) -> Result<Binds, OutOfMemory>
        ensures { IfOk result (λ copy. copy ≡ self.now) }
    {
        let values = Vec::from_slice(alloc, self.values.as_slice())?;
        Ok(Binds { values })
    }
}
