//! The tests of a condition element, from left to right.

ghost use Rattle.std.specs.Prelude.{◌≡◌, ◌+◌, ◌^◌, ◌<◌, ◌≤◌, Ok, length, IfOk, OnOk, IfErr, IsOkUnless};
ghost use Rattle.std.specs.List.{flat_map};
ghost use Rattle.rule_base.specs.declared.condition.Arg.TheVariants as arg;
ghost use Rattle.rule_base.specs.declared.condition.Test.TheVariants as test;
ghost use Rattle.ops_reader.specs.Named.{numbers_in_simple};
ghost use Rattle.rule_checker.specs.declared.refusal.Refusal.TheVariants.{OutOfMemory as no_memory};
ghost use Rattle.rule_checker.specs.Walk.{after_each};
ghost use Rattle.rule_checker.specs.Outcome.{Tells};
ghost use Rattle.rule_checker.specs.Scope.{variable_of};
ghost use Rattle.rule_checker.specs.Kept.{numbers_in_tests, HasRoom, GrowsWithin};
ghost use Rattle.rule_checker.specs.ConditionTests.{with_test, with_use, with_comparison, with_simple, with_tests, tests_of};

use crate::classes::has_attribute;
use crate::refusal::Refusal;
use crate::scope::Scope;
use ops_reader::{FormArg, Simple};
use ops_text::{Duplicate, Sequence};
use rule_base::{Arg, Pred, Test, Value};
use std::alloc::Global;

/// The tests of a condition element so far, and the rule's variables behind them.
#[derive(Drop)]
pub struct TestsSoFar {
    pub tests: Sequence<Test>,
    pub scope: Scope,
}

impl TestsSoFar {
    fn add(&mut self, test: Test) -> Result<(), Refusal>
        ensures ok { OnOk result (self.new ≡ with_test self.old test) }
        ensures err { IsOkUnless result no_memory }
    {
        self.tests.push(test)?;
        Ok(())
    }

    fn add_constant(&mut self, attr: u32, pred: Pred, value: Value) -> Result<(), Refusal>
        ensures ok { OnOk result
            (self.new ≡ with_test self.old (test.Cmp attr pred (arg.Con value))) }
        ensures err { IsOkUnless result no_memory }
    {
        let arg = Arg::Con(value);
        self.add(Test::Cmp { attr, pred, arg })
    }

    fn add_choice(
        &mut self,
        alloc: Global,
        attr: u32,
        among: &Sequence<Value>,
    ) -> Result<(), Refusal>
        ensures ok { OnOk result (self.new ≡ with_test self.old (test.OneOf attr among.now)) }
        ensures err { IsOkUnless result no_memory }
    {
        let among = among.duplicate(alloc)?;
        self.add(Test::OneOf { attr, among })
    }

    fn add_use(&mut self, negated: bool, attr: u32, name: u32) -> Result<(), Refusal>
        requires room { self.old.scope.vars + 1 < 2 ^ 32 }
        ensures ok { OnOk result
            (self.new ≡ with_use negated attr self.old name (variable_of self.old.scope name)) }
        ensures count { OnOk result (self.new.scope.vars ≤ self.old.scope.vars + 1) }
        ensures err { IsOkUnless result no_memory }
    {
        if let Some(var) = self.scope.variable(name) {
            let arg = Arg::Var(var);
            let pred = Pred::Eq;
            return self.add(Test::Cmp { attr, pred, arg });
        }
        let var = self.scope.add(negated, name)?;
        self.add(Test::Bind { attr, var })
    }

    fn add_comparison(&mut self, attr: u32, pred: Pred, name: u32) -> Result<(), Refusal>
        ensures ok { OnOk result (with_comparison attr self.old pred name ≡ Ok self.new) }
        ensures refused { IfErr result (Tells (with_comparison attr self.old pred name)) }
    {
        let var = self.scope.bound_to_its_left(name)?;
        let arg = Arg::Var(var);
        self.add(Test::Cmp { attr, pred, arg })
    }

    fn add_simple(
        &mut self,
        alloc: Global,
        negated: bool,
        attr: u32,
        simple: &Simple,
    ) -> Result<(), Refusal>
        requires room { HasRoom self.old.scope (numbers_in_simple simple.now) }
        ensures ok { OnOk result (with_simple negated attr self.old simple.now ≡ Ok self.new) }
        ensures count { OnOk result
            (GrowsWithin self.old.scope (numbers_in_simple simple.now) self.new.scope) }
        ensures refused { IfErr result (Tells (with_simple negated attr self.old simple.now)) }
    {
        match simple {
            Simple::Plain(FormArg::Con(value)) => self.add_constant(attr, Pred::Eq, *value),
            Simple::Plain(FormArg::Name(name)) => self.add_use(negated, attr, *name),
            Simple::Cmp(pred, FormArg::Con(value)) => self.add_constant(attr, *pred, *value),
            Simple::Cmp(pred, FormArg::Name(name)) => self.add_comparison(attr, *pred, *name),
            Simple::OneOf(among) => self.add_choice(alloc, attr, among),
        }
    }

    fn add_simples(
        &mut self,
        alloc: Global,
        negated: bool,
        attr: u32,
        simples: &[Simple],
    ) -> Result<(), Refusal>
        requires room { HasRoom self.old.scope (flat_map numbers_in_simple simples.now) }
        ensures ok { OnOk result
            (after_each (with_simple negated attr) self.old simples.now ≡ Ok self.new) }
        ensures count { OnOk result
            (GrowsWithin self.old.scope (flat_map numbers_in_simple simples.now) self.new.scope) }
        ensures refused { IfErr result
            (Tells (after_each (with_simple negated attr) self.old simples.now)) }
    {
        for simple in simples {
            self.add_simple(alloc, negated, attr, simple)?;
        }
        Ok(())
    }

    fn add_attribute(
        &mut self,
        alloc: Global,
        negated: bool,
        attrs: &[u32],
        written: &(u32, Sequence<Simple>),
    ) -> Result<(), Refusal>
        requires size { length attrs.now ≤ 64 }
        requires room { HasRoom self.old.scope (numbers_in_tests written.now) }
        ensures ok { OnOk result (with_tests negated attrs.now self.old written.now ≡ Ok self.new) }
        ensures count { OnOk result
            (GrowsWithin self.old.scope (numbers_in_tests written.now) self.new.scope) }
        ensures refused { IfErr result (Tells (with_tests negated attrs.now self.old written.now)) }
    {
        let attr = has_attribute(attrs, written.0)?;
        self.add_simples(alloc, negated, attr, written.1.as_slice())
    }
}

/// The tests of a condition element of a class with these attributes.
pub fn tests_of(
    alloc: Global,
    scope: Scope,
    negated: bool,
    attrs: &[u32],
    written: &[(u32, Sequence<Simple>)],
) -> Result<TestsSoFar, Refusal>
    requires size { length attrs.now ≤ 64 }
    requires room { HasRoom scope (flat_map numbers_in_tests written.now) }
    ensures ok { IfOk result (λ done. tests_of scope negated attrs.now written.now ≡ Ok done) }
    ensures count { IfOk result
        (λ done. GrowsWithin scope (flat_map numbers_in_tests written.now) done.scope) }
    ensures refused { IfErr result (Tells (tests_of scope negated attrs.now written.now)) }
{
    let mut done = TestsSoFar {
        tests: Sequence::new(alloc),
        scope,
    };
    for attribute in written {
        done.add_attribute(alloc, negated, attrs, attribute)?;
    }
    Ok(done)
}
