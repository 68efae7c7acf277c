//! Grants: what a core hands out for a claim.

ghost use Rattle.std.specs.Prelude.{◌≡◌};
ghost use Rattle.rhs_actions.specs.Outcomes.{rule_at};
ghost use Rattle.firing_core.specs.Grants.{Granted, MayFireAway};

use rule_base::{Candidate, Choice, Elements, Program, Rule};
use std::marker::Model;
use std::sync::Arc;

/// Leave to evaluate the right-hand side of an instantiation away from the core, and to commit it then.
/// It keeps that its rule may fire with its elements. Grants of a core are numbered 1, 2, 3 in the order
/// of their claims since its claims were last dropped all at once.
#[derive(Drop)]
pub struct Grant {
    program: Arc<Program>,
    number: u64,
    candidate: Candidate,
}

impl Model for Grant {
    ghost use Rattle.firing_core.specs.Grants.{Granted};
    ghost use Rattle.rule_base.specs.contracts.expression.Operand as operand;
    ghost use Rattle.std.specs.Coded.{codes};

    ghost Value = { Granted };

    ghost coded = { Prim.hlevel (codes, operand.the_row.coded) };

    ghost use Rattle.firing_core.specs.GrantFields.{granted_in, HoldsGrant};

    ghost view = { granted_in };

    ghost invariant = { HoldsGrant };
}

impl Grant {
    pub(crate) fn new(program: Arc<Program>, number: u64, candidate: Candidate) -> Grant
        requires { MayFireAway
            (record { program = program.value; number = number; candidate = candidate }) }
        ensures { result
            ≡ record { program = program.value; number = number; candidate = candidate } }
    {
        Grant {
            program,
            number,
            candidate,
        }
    }

    /// The number of the claim.
    pub fn number(&self) -> u64
        ensures { result ≡ self.now.number }
    {
        self.number
    }

    /// The instantiation that it was made for.
    pub fn choice(&self) -> &Choice
        ensures { result.now ≡ self.now.candidate.choice }
    {
        &self.candidate.choice
    }

    /// The program of the core that granted it.
    pub fn program(&self) -> &Arc<Program>
        ensures { result.now.value ≡ self.now.program }
    {
        &self.program
    }

    /// The rule that is to fire.
    pub fn rule(&self) -> &Rule
        ensures { result.now ≡ rule_at self.now.program self.now.candidate.choice.rule }
    {
        &self.program.rules.as_slice()[self.candidate.choice.rule as usize]
    }

    /// The elements that it is to fire with, in the order of its positive condition elements, which accept
    /// them.
    pub fn elements(&self) -> &Elements
        ensures value { result.now ≡ self.now.candidate.elements }
        ensures may_fire { MayFireAway self.now }
    {
        &self.candidate.elements
    }

    /// The instantiation, where nothing else of the grant is wanted any more.
    pub(crate) fn into_choice(self) -> Choice
        ensures { result ≡ self.candidate.choice }
    {
        let candidate = self.candidate;
        candidate.choice
    }
}
