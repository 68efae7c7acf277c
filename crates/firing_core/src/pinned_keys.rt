//! The attributes by which negated condition elements pin the elements that they accept, and the keys to
//! which they pin them. It knows no elements.

ghost use Rattle.std.specs.Prelude.{◌≡◌, ◌≤◌, [], IfOk, OnOk};
ghost use Rattle.std.specs.List.{list_any};
ghost use Rattle.rule_base.specs.Acceptance.{compared_with};
ghost use Rattle.firing_core.specs.PinnedKeys.{AreOfRules, AreWith, compares, is_grouped, is_pinned, key_by, pinned_key, pins_of, rule_pins};
ghost use Rattle.rule_base.specs.Numbers.{has_number};

use element_tests::Binds;
use ops_text::{OutOfMemory, Sequence};
use rule_base::{Arg, Cond, Pred, Rule, Test, Value};
use std::alloc::Global;
use working_memory::Key;

/// For each of so many classes the attributes that negated condition elements of the class compare by
/// `=`. For each class it goes through the condition elements of all rules.
pub fn pinned_attributes(
    alloc: Global,
    rules: &[Rule],
    classes: usize,
) -> Result<Vec<Sequence<u32>>, OutOfMemory>
    requires { classes ≤ 256 }
    ensures { IfOk result (λ attributes. AreOfRules rules.now classes attributes.items) }
{
    let mut attributes = Vec::new(alloc);
    for class in 0..classes {
        attributes.push(pinned_of_class(alloc, rules, class as u32)?)?;
    }
    Ok(attributes)
}

/// The attributes of one class, each once.
fn pinned_of_class(alloc: Global, rules: &[Rule], class: u32) -> Result<Sequence<u32>, OutOfMemory>
    ensures { IfOk result (AreWith (is_pinned rules.now class) []) }
{
    let mut attributes = Sequence::new(alloc);
    for rule in rules {
        add_pinned(&mut attributes, class, rule.conds.as_slice())?;
    }
    Ok(attributes)
}

/// Adds those that condition elements of a rule pin.
fn add_pinned(attributes: &mut Sequence<u32>, class: u32, conds: &[Cond]) -> Result<(), OutOfMemory>
    ensures { OnOk result
        (AreWith (λ attr. list_any (pins_of class attr) conds.now) attributes.old attributes.new) }
{
    for cond in conds {
        if cond.negated && cond.class == class {
            add_compared(attributes, cond.tests.as_slice())?;
        }
    }
    Ok(())
}

/// Adds those that tests compare by `=`.
fn add_compared(attributes: &mut Sequence<u32>, tests: &[Test]) -> Result<(), OutOfMemory>
    ensures { OnOk result
        (AreWith (λ attr. list_any (compares attr) tests.now) attributes.old attributes.new) }
{
    for test in tests {
        add_compared_by(attributes, test)?;
    }
    Ok(())
}

/// Adds the attribute that the test compares by `=`, if it compares one, where it isn't there.
fn add_compared_by(attributes: &mut Sequence<u32>, test: &Test) -> Result<(), OutOfMemory>
    ensures { OnOk result (AreWith (λ attr. compares attr test.now) attributes.old attributes.new) }
{
    let Test::Cmp { attr, pred, arg: _ } = test else {
        return Ok(());
    };
    if *pred == Pred::Eq && !has_number(attributes.as_slice(), *attr) {
        attributes.push(*attr)?;
    }
    Ok(())
}

fn has_number(attributes: &[u32], attr: u32) -> bool
    ensures { result ≡ has_number attributes.now attr }
{
    attributes.iter().any(|other| *other == attr)
}

/// The key of the elements that the condition element accepts, where one of its tests compares a grouped
/// attribute by `=` with a constant, or with a variable that has a value: of the first such test.
pub fn pinned_key(attributes: &[Sequence<u32>], cond: &Cond, binds: &Binds) -> Option<Key>
    ensures { result ≡ pinned_key attributes.now binds.now cond.now }
{
    for test in cond.tests.as_slice() {
        let key = key_by(attributes, cond.class, binds, test);
        if key.is_some() {
            return key;
        }
    }
    None
}

/// The key of the elements of the class that pass the test, where it gives one.
fn key_by(attributes: &[Sequence<u32>], class: u32, binds: &Binds, test: &Test) -> Option<Key>
    ensures { result ≡ key_by attributes.now class binds.now test.now }
{
    let Test::Cmp { attr, pred, arg } = test else {
        return None;
    };
    let Some(value) = compared_with(*arg, binds) else {
        return None;
    };
    if *pred == Pred::Eq && is_grouped(attributes, class, *attr) {
        return Some(Key {
            class,
            attribute: *attr,
            value,
        });
    }
    None
}

/// Whether elements of the class are grouped by the attribute.
fn is_grouped(attributes: &[Sequence<u32>], class: u32, attr: u32) -> bool
    ensures { result ≡ is_grouped attributes.now class attr }
{
    match attributes.get(class as usize) {
        Some(of_class) => has_number(of_class.as_slice(), attr),
        None => false,
    }
}

/// The constant, or the variable's value, if it has one.
fn compared_with(arg: Arg, binds: &Binds) -> Option<Value>
    ensures { result ≡ compared_with arg binds.now }
{
    match arg {
        Arg::Con(value) => Some(value),
        Arg::Var(var) => match binds.as_slice().get(var as usize) {
            Some(value) => *value,
            None => None,
        },
    }
}
