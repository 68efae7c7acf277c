//! What a candidate's elements give the variables of its rule, and which attributes are pinned.

ghost use Rattle.std.specs.Prelude.{◌≡◌, Some, None, option_map, slice_get};
ghost use Rattle.rule_base.specs.Views.{element_in};
ghost use Rattle.interference.specs.Given.{given, value_at};
ghost use Rattle.interference.specs.Finding.{binds, first_binding};
ghost use Rattle.interference.specs.Pins.{first_pin, is_bound, is_told, pin};
ghost use Rattle.interference.specs.Regions.{pinned_value, told_value};

use rule_base::{Arg, Cond, ElementView, Elements, Pred, Test, Value};

/// The value that the elements give a variable, if they do. It goes through the tests of the positive
/// condition elements, up to the first that binds the variable.
pub fn given(conds: &[Cond], elements: &Elements, var: u32) -> Option<Value>
    ensures { result ≡ given conds.now elements.now var }
{
    let mut at = 0;
    for cond in conds {
        if cond.negated {
            continue;
        }
        if at >= elements.len() {
            return None;
        }
        if let Some(attr) = first_binding(cond.tests.as_slice(), var) {
            return value_at(cond, elements.at(at), attr);
        }
        at += 1;
    }
    None
}

/// The attribute to which the first test to bind the variable binds it.
fn first_binding(tests: &[Test], var: u32) -> Option<u32>
    ensures { result ≡ first_binding var tests.now }
{
    for test in tests {
        if let Test::Bind { attr, var: other } = test {
            if *other == var {
                return Some(*attr);
            }
        }
    }
    None
}

/// The element's value at the attribute, where it is of the condition element's class.
pub fn value_at(cond: &Cond, element: ElementView<'_>, attr: u32) -> Option<Value>
    ensures { result ≡ value_at (cond.now, element_in element.entry) attr }
{
    if cond.class != element.class {
        return None;
    }
    element.values.get(attr as usize).copied()
}

/// What the first test of the condition element to pin the attribute pins it to.
pub fn first_pin(conds: &[Cond], attr: u32, cond: &Cond) -> Option<Arg>
    ensures { result ≡ first_pin conds.now attr cond.now }
{
    for test in cond.tests.as_slice() {
        let pinned = pin(conds, attr, test);
        if pinned.is_some() {
            return pinned;
        }
    }
    None
}

/// What a test pins the attribute to, if it does.
fn pin(conds: &[Cond], attr: u32, test: &Test) -> Option<Arg>
    ensures { result ≡ pin conds.now attr test.now }
{
    let Test::Cmp {
        attr: at,
        pred,
        arg,
    } = test
    else {
        return None;
    };
    if *pred == Pred::Eq && *at == attr && is_told(conds, *arg) {
        return Some(*arg);
    }
    None
}

/// Whether elements for the positive condition elements tell what a test compares with.
fn is_told(conds: &[Cond], arg: Arg) -> bool
    ensures { result ≡ is_told conds.now arg }
{
    match arg {
        Arg::Con(_) => true,
        Arg::Var(var) => is_bound(conds, var),
    }
}

/// Whether a positive condition element binds the variable.
fn is_bound(conds: &[Cond], var: u32) -> bool
    ensures { result ≡ is_bound conds.now var }
{
    for cond in conds {
        if binds(cond, var) {
            return true;
        }
    }
    false
}

/// Whether the condition element is positive and binds the variable.
fn binds(cond: &Cond, var: u32) -> bool
    ensures { result ≡ binds cond.now var }
{
    !cond.negated && first_binding(cond.tests.as_slice(), var).is_some()
}

/// The value to which the condition element pins the attribute, if it is known.
pub fn pinned_value(conds: &[Cond], elements: &Elements, cond: &Cond, attr: u32) -> Option<Value>
    ensures { result ≡ pinned_value conds.now elements.now cond.now attr }
{
    match first_pin(conds, attr, cond) {
        Some(Arg::Con(value)) => Some(value),
        Some(Arg::Var(var)) => given(conds, elements, var),
        None => None,
    }
}
