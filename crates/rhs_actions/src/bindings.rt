//! The row of bindings of a right-hand side, and what it begins with: what the match has bound. Nothing
//! is tested again for that.

ghost use Rattle.std.specs.Prelude.{◌≡◌, IsSome, OnOk, Some, drop};
ghost use Rattle.rule_base.specs.Bindings.{bound, value_of};
ghost use Rattle.rule_base.specs.Acceptance.{after_test, after_tests};
ghost use Rattle.rule_base.specs.ElementMatch.{after_element, bindings_with};

use element_tests::Binds;
use ops_text::OutOfMemory;
use rule_base::{Cond, Elements, Rule, Test, Value};

/// Makes this the row of bindings with which the rule's positive condition elements accept the
/// elements. It takes a step for each condition element and each test, and memory only where the row has
/// never been so long.
pub(crate) fn begin(rule: &Rule, elements: &Elements, binds: &mut Binds) -> Result<(), OutOfMemory>
    requires { IsSome (bindings_with rule.now elements.now) }
    ensures { OnOk result (bindings_with rule.now elements.now ≡ Some binds.new) }
{
    binds.renew(rule.vars)?;
    let mut next = 0;
    for cond in rule.conds.as_slice() {
        next = bind_next(cond, elements, next, binds);
    }
    Ok(())
}

/// Binds what a condition element binds that is known to accept the next element, and gives the place of
/// the element after that. A negated condition element is passed over.
fn bind_next(cond: &Cond, elements: &Elements, next: usize, binds: &mut Binds) -> usize
    requires { IsSome
        (after_element cond.now.negated cond.now (drop next elements.now) binds.old) }
    ensures { after_element cond.now.negated cond.now (drop next elements.now) binds.old ≡
        Some (drop result elements.now, binds.new) }
{
    if cond.negated {
        return next;
    }
    prove!(next < elements.len());
    bind_tests(cond.tests.as_slice(), elements.at(next).values, binds);
    next + 1
}

/// Binds what tests bind that are known to hold.
fn bind_tests(tests: &[Test], values: &[Value], binds: &mut Binds)
    requires { IsSome (after_tests tests.now binds.old values.now) }
    ensures { after_tests tests.now binds.old values.now ≡ Some binds.new }
{
    for test in tests {
        bind_test(test, values, binds);
    }
}

/// Binds what a test binds that is known to hold.
fn bind_test(test: &Test, values: &[Value], binds: &mut Binds)
    requires { IsSome (after_test test.now binds.old values.now) }
    ensures { after_test test.now binds.old values.now ≡ Some binds.new }
{
    if let Test::Bind { attr, var } = test {
        bind(*var, values[*attr as usize], binds);
    }
}

/// Gives the variable a value, where the row has a place for it.
pub(crate) fn bind(var: u32, value: Value, binds: &mut Binds)
    ensures { binds.new ≡ bound binds.old var value }
{
    if (var as usize) < binds.as_slice().len() {
        binds.set(var, value);
    }
}

/// The variable's value: one without a value counts as nil.
pub(crate) fn value_of(binds: &Binds, var: u32) -> Value
    ensures { result ≡ value_of binds.now var }
{
    match binds.as_slice().get(var as usize) {
        Some(Some(value)) => *value,
        _ => Value::Sym(0),
    }
}
