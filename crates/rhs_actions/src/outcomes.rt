//! What a firing comes to: its effect, or the action that fails. Each keeps in its type whose it is.

ghost use Rattle.std.specs.Prelude.{◌≡◌, ◌<◌, Ok, Err, length};
ghost use Rattle.rule_base.specs.Effect.{effect as effect_of};
ghost use Rattle.rhs_actions.specs.Outcomes.{IsEffect, IsFirstFailing, rule_at};

use crate::Effect;
use rule_base::{Elements, FaultCause, Program, Rule};
use std::marker::Model;
use std::sync::Arc;

/// The effect of firing a rule with the elements of its positive condition elements.
#[derive(Drop)]
pub struct Delta {
    program: Arc<Program>,
    elements: Elements,
    effect: Effect,
    rule: u32,
}

impl Model for Delta {
    ghost use Rattle.rhs_actions.specs.Outcomes.{Fired};
    ghost use Rattle.rule_base.specs.contracts.expression.Operand as operand;
    ghost use Rattle.std.specs.Coded.{codes};

    ghost Value = { Fired };

    ghost coded = { Prim.hlevel (codes, operand.the_row.coded) };

    ghost use Rattle.rhs_actions.specs.OutcomeFields.{fired_in, HoldsEffect};

    ghost view = { fired_in };

    ghost invariant = { HoldsEffect };
}

impl Delta {
    pub(crate) fn new(program: Arc<Program>, rule: u32, elements: Elements, effect: Effect) -> Delta
        requires there { rule < length program.value.rules }
        requires is { effect_of (rule_at program.value rule) elements ≡ Ok effect }
        ensures { result ≡
            record { program = program.value; rule = rule; elements = elements; effect = effect } }
    {
        Delta {
            program,
            elements,
            effect,
            rule,
        }
    }

    /// The program whose rule fires.
    pub fn program(&self) -> &Arc<Program>
        ensures { result.now.value ≡ self.now.program }
    {
        &self.program
    }

    /// The number of the rule that fires.
    pub fn rule_number(&self) -> u32
        ensures { result ≡ self.now.rule }
    {
        self.rule
    }

    /// The rule that fires.
    pub fn rule(&self) -> &Rule
        ensures { result.now ≡ rule_at self.now.program self.now.rule }
    {
        &self.program.rules.as_slice()[self.rule as usize]
    }

    /// The elements that its positive condition elements accept, in their order.
    pub fn elements(&self) -> &Elements
        ensures { result.now ≡ self.now.elements }
    {
        &self.elements
    }

    /// What the firing does.
    pub fn effect(&self) -> &Effect
        ensures value { result.now ≡ self.now.effect }
        ensures is { IsEffect self.now }
    {
        &self.effect
    }
}

/// The first failing action of a rule that fires with the elements of its positive condition elements.
#[derive(Drop)]
pub struct Failed {
    program: Arc<Program>,
    elements: Elements,
    rule: u32,
    action: u32,
    cause: FaultCause,
}

impl Model for Failed {
    ghost use Rattle.rhs_actions.specs.Outcomes.{Faulted};
    ghost use Rattle.rule_base.specs.contracts.expression.Operand as operand;
    ghost use Rattle.std.specs.Coded.{codes};

    ghost Value = { Faulted };

    ghost coded = { Prim.hlevel (codes, operand.the_row.coded) };

    ghost use Rattle.rhs_actions.specs.OutcomeFields.{faulted_in, HoldsFailure};

    ghost view = { faulted_in };

    ghost invariant = { HoldsFailure };
}

impl Failed {
    pub(crate) fn new(
        program: Arc<Program>,
        rule: u32,
        elements: Elements,
        action: u32,
        cause: FaultCause,
    ) -> Failed
        requires there { rule < length program.value.rules }
        requires is { effect_of (rule_at program.value rule) elements ≡
            Err (record { action = action; cause = cause }) }
        ensures { result ≡
            record { program = program.value; rule = rule; elements = elements; action = action; cause = cause } }
    {
        Failed {
            program,
            elements,
            rule,
            action,
            cause,
        }
    }

    /// The program whose rule fires.
    pub fn program(&self) -> &Arc<Program>
        ensures { result.now.value ≡ self.now.program }
    {
        &self.program
    }

    /// The number of the rule that fires.
    pub fn rule_number(&self) -> u32
        ensures { result ≡ self.now.rule }
    {
        self.rule
    }

    /// The rule that fires.
    pub fn rule(&self) -> &Rule
        ensures { result.now ≡ rule_at self.now.program self.now.rule }
    {
        &self.program.rules.as_slice()[self.rule as usize]
    }

    /// The elements that its positive condition elements accept, in their order.
    pub fn elements(&self) -> &Elements
        ensures { result.now ≡ self.now.elements }
    {
        &self.elements
    }

    /// The number of the action, from 1.
    pub fn action(&self) -> u32
        ensures value { result ≡ self.now.action }
        ensures is { IsFirstFailing self.now }
    {
        self.action
    }

    /// Why it fails.
    pub fn cause(&self) -> FaultCause
        ensures { result ≡ self.now.cause }
    {
        self.cause
    }
}
