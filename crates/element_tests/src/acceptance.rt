//! Acceptance: whether a condition element accepts an element, and the bindings that it leaves.

ghost use Rattle.std.specs.Prelude.{◌≡◌, ◌+◌, Some, None, length};
ghost use Rattle.std.specs.Bool.{OnTrue, OnFalse};
ghost use Rattle.std.specs.List.{AllByRecursion, list_any};
ghost use Rattle.rule_base.specs.Value.{same_value};
ghost use Rattle.rule_base.specs.Views.{element_in};
ghost use Rattle.rule_base.specs.Acceptance.{accepts, after_test, after_tests, compared_with};
ghost use Rattle.element_tests.specs.Asking.{MayAsk, HasPlace};
ghost use Rattle.element_tests.specs.Taking.{HasOther, MayTake, MayTakeAll};
ghost use Rattle.element_tests.specs.Unbinding.{unbound_by, unbound_by_test, Undoes};

use crate::{Binds, holds};
use rule_base::{Arg, Cond, ElementView, Pred, Steps, Test, Value};
use std::sync::ledger::Ledger;

/// Whether the element has the condition element's class and passes its tests from left to right. The
/// row then has the new bindings, and is else as before. It takes no memory.
pub fn accepts<L: Ledger>(
    cond: &Cond,
    binds: &mut Binds,
    element: ElementView<'_>,
    steps: &mut Steps<L>,
) -> bool
    requires { MayAsk cond.now binds.old (element_in element) }
    ensures accepted { OnTrue result
        (accepts cond.now binds.old (element_in element.entry) ≡ Some binds.new) }
    ensures refused { OnFalse result
        (accepts cond.now binds.old (element_in element.entry) ≡ None) }
    ensures kept { OnFalse result (binds.new ≡ binds.old) }
    ensures places { length binds.new ≡ length binds.old }
    ensures counted { steps.new ≡ steps.old + 1 }
{
    steps.tick();
    if cond.class != element.class {
        return false;
    }
    pass(cond.tests.as_slice(), binds, element.values)
}

/// Takes away the value of each variable that the condition element binds, and so undoes what
/// `accepts` has changed.
pub fn unbind(cond: &Cond, binds: &mut Binds)
    requires { AllByRecursion (HasPlace (length binds.old)) cond.now.tests }
    ensures unset { binds.new ≡ unbound_by binds.old cond.now.tests }
    ensures undone { Undoes cond.now binds.old binds.new }
{
    unbind_tests(cond.tests.as_slice(), binds);
}

/// Takes tests from left to right. Where one fails, the row is as before.
fn pass(tests: &[Test], binds: &mut Binds, values: &[Value]) -> bool
    requires { MayTakeAll tests.now binds.old values.now }
    ensures passed { OnTrue result (after_tests tests.now binds.old values.now ≡ Some binds.new) }
    ensures failed { OnFalse result (after_tests tests.now binds.old values.now ≡ None) }
    ensures kept { OnFalse result (binds.new ≡ binds.old) }
    ensures places { length binds.new ≡ length binds.old }
{
    for (taken, test) in tests.iter().enumerate() {
        if !passes(test, binds, values) {
            unbind_tests(&tests[..taken], binds);
            return false;
        }
    }
    true
}

/// Takes away the value of each variable that the tests bind.
fn unbind_tests(tests: &[Test], binds: &mut Binds)
    requires { AllByRecursion (HasPlace (length binds.old)) tests.now }
    ensures { binds.new ≡ unbound_by binds.old tests.now }
{
    for test in tests {
        unbind_test(test, binds);
    }
}

/// Takes away the value of the variable that the test binds, if it binds one.
fn unbind_test(test: &Test, binds: &mut Binds)
    requires { HasPlace (length binds.old) test.now }
    ensures { binds.new ≡ unbound_by_test binds.old test.now }
{
    if let Test::Bind { attr: _, var } = test {
        binds.unset(*var);
    }
}

/// Takes one test: whether it holds, and the bindings that it leaves.
fn passes(test: &Test, binds: &mut Binds, values: &[Value]) -> bool
    requires { MayTake binds.old values.now test.now }
    ensures passed { OnTrue result (after_test test.now binds.old values.now ≡ Some binds.new) }
    ensures failed { OnFalse result (after_test test.now binds.old values.now ≡ None) }
    ensures kept { OnFalse result (binds.new ≡ binds.old) }
{
    match test {
        Test::Bind { attr, var } => {
            binds.set(*var, values[*attr as usize]);
            true
        }
        Test::Cmp { attr, pred, arg } => {
            holds(*pred, values[*attr as usize], compared_with(*arg, binds))
        }
        Test::OneOf { attr, among } => is_among(values[*attr as usize], among.as_slice()),
    }
}

/// What a predicate compares with: the constant, or the variable's value.
fn compared_with(arg: Arg, binds: &Binds) -> Value
    requires { HasOther binds.now arg }
    ensures { compared_with arg binds.now ≡ Some result }
{
    match arg {
        Arg::Con(value) => value,
        Arg::Var(var) => match binds.get(var) {
            Some(value) => value,
            None => unreachable!(),
        },
    }
}

fn is_among(value: Value, among: &[Value]) -> bool
    ensures { result ≡ list_any (same_value value) among.now }
{
    among.iter().any(|other| holds(Pred::Eq, value, *other))
}
