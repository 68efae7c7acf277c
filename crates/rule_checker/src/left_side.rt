//! The left-hand side of a rule: its condition elements, from left to right.

ghost use Rattle.std.specs.Prelude.{◌≡◌, ◌<◌, ◌≤◌, ◌+◌, Ok, length, IfOk, OnOk, IfErr};
ghost use Rattle.std.specs.List.{flat_map};
ghost use Rattle.ops_reader.specs.Named.{numbers_in_condition};
ghost use Rattle.rule_checker.specs.Walk.{after_each};
ghost use Rattle.rule_checker.specs.Outcome.{Tells};
ghost use Rattle.rule_checker.specs.Scope.{no_variables};
ghost use Rattle.rule_checker.specs.Kept.{HasFewConditions, HasRoom, GrowsWithin};
ghost use Rattle.rule_checker.specs.LeftSide.{few_conditions, first_is_positive, new_element_variable, with_element, elements_after, with_pattern, with_cond, no_conditions, left_side};

use crate::classes::Classes;
use crate::condition_tests::tests_of;
use crate::names::Numbering;
use crate::refusal::{CheckKind, Refusal};
use crate::scope::Scope;
use ops_reader::FormCond;
use ops_text::Sequence;
use rule_base::Cond;
use std::alloc::Global;

/// The most condition elements of a rule.
const MOST_CONDS: usize = 32;

/// The elements that a rule's positive condition elements match: their classes in order, and for each element
/// variable which of them it names, counted from 0.
#[derive(Drop)]
pub struct Elements {
    pub classes: Sequence<u32>,
    pub names: Numbering,
}

/// The condition elements of a rule so far, its variables, and the elements that its actions may designate.
#[derive(Drop)]
pub struct LeftSide {
    pub conds: Sequence<Cond>,
    pub scope: Scope,
    pub elements: Elements,
}

impl Elements {
    fn new_element_variable(&self, name: u32) -> Result<(), CheckKind>
        ensures { result ≡ new_element_variable self.now name }
    {
        match self.names.number(name) {
            Some(_) => Err(CheckKind::Twice),
            None => Ok(()),
        }
    }

    fn add(&mut self, class: u32, named: Option<u32>) -> Result<(), Refusal>
        requires { length self.old.classes < 32 }
        ensures ok { OnOk result (with_element self.old class named ≡ Ok self.new) }
        ensures count { OnOk result (length self.new.classes ≤ length self.old.classes + 1) }
        ensures refused { IfErr result (Tells (with_element self.old class named)) }
    {
        if let Some(name) = named {
            self.new_element_variable(name)?;
            self.names.add(name, self.classes.len() as u32)?;
        }
        self.classes.push(class)?;
        Ok(())
    }

    fn add_cond(&mut self, negated: bool, class: u32, named: Option<u32>) -> Result<(), Refusal>
        requires { length self.old.classes < 32 }
        ensures ok { OnOk result (elements_after self.old negated class named ≡ Ok self.new) }
        ensures count { OnOk result (length self.new.classes ≤ length self.old.classes + 1) }
        ensures refused { IfErr result (Tells (elements_after self.old negated class named)) }
    {
        if negated {
            return Ok(());
        }
        self.add(class, named)
    }
}

impl LeftSide {
    fn new(alloc: Global) -> LeftSide
        ensures { result ≡ no_conditions }
    {
        LeftSide {
            conds: Sequence::new(alloc),
            scope: Scope::new(alloc),
            elements: Elements {
                classes: Sequence::new(alloc),
                names: Numbering::new(alloc),
            },
        }
    }

    fn few_conditions(&self) -> Result<(), CheckKind>
        ensures { result ≡ few_conditions self.now }
    {
        if self.conds.len() >= MOST_CONDS {
            return Err(CheckKind::TooMany);
        }
        Ok(())
    }

    fn first_is_positive(&self, negated: bool) -> Result<(), CheckKind>
        ensures { result ≡ first_is_positive self.now negated }
    {
        if self.conds.len() == 0 && negated {
            return Err(CheckKind::FirstNegated);
        }
        Ok(())
    }

    fn with_pattern(
        mut self,
        alloc: Global,
        class: u32,
        attrs: &[u32],
        cond: &FormCond,
    ) -> Result<LeftSide, Refusal>
        requires few { length self.conds < 32 }
        requires elements { length self.elements.classes ≤ length self.conds }
        requires size { length attrs.now ≤ 64 }
        requires room { HasRoom self.scope (numbers_in_condition cond.now) }
        ensures ok { IfOk result (λ next. with_pattern class attrs.now self cond.now ≡ Ok next) }
        ensures few { IfOk result HasFewConditions }
        ensures count { IfOk result
            (λ next. GrowsWithin self.scope (numbers_in_condition cond.now) next.scope) }
        ensures refused { IfErr result (Tells (with_pattern class attrs.now self cond.now)) }
    {
        let negated = cond.negated;
        let mut done = tests_of(alloc, self.scope, negated, attrs, cond.tests.as_slice())?;
        self.elements.add_cond(negated, class, cond.named)?;
        done.scope.leave();
        let tests = done.tests;
        self.conds.push(Cond {
            negated,
            class,
            tests,
        })?;
        Ok(LeftSide {
            conds: self.conds,
            scope: done.scope,
            elements: self.elements,
        })
    }

    fn with_cond(
        self,
        alloc: Global,
        classes: &Classes,
        cond: &FormCond,
    ) -> Result<LeftSide, Refusal>
        requires few { HasFewConditions self }
        requires room { HasRoom self.scope (numbers_in_condition cond.now) }
        ensures ok { IfOk result (λ next. with_cond classes.now self cond.now ≡ Ok next) }
        ensures few { IfOk result HasFewConditions }
        ensures count { IfOk result
            (λ next. GrowsWithin self.scope (numbers_in_condition cond.now) next.scope) }
        ensures refused { IfErr result (Tells (with_cond classes.now self cond.now)) }
    {
        self.few_conditions()?;
        self.first_is_positive(cond.negated)?;
        let class = classes.declared(cond.class)?;
        self.with_pattern(alloc, class, classes.attributes(class), cond)
    }
}

/// The left-hand side of these condition elements.
pub fn left_side(alloc: Global, classes: &Classes, conds: &[FormCond]) -> Result<LeftSide, Refusal>
    requires room { HasRoom no_variables (flat_map numbers_in_condition conds.now) }
    ensures ok { IfOk result (λ left. left_side classes.now conds.now ≡ Ok left) }
    ensures few { IfOk result HasFewConditions }
    ensures count { IfOk result
        (λ left. GrowsWithin no_variables (flat_map numbers_in_condition conds.now) left.scope) }
    ensures refused { IfErr result (Tells (left_side classes.now conds.now)) }
{
    let mut left = LeftSide::new(alloc);
    for cond in conds {
        left = left.with_cond(alloc, classes, cond)?;
    }
    Ok(left)
}
