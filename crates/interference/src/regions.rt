//! Regions: which part of its class an element falls into that a negated condition element accepts, or
//! an action makes.

ghost use Rattle.std.specs.Prelude.{◌≡◌, ◌<◌, Some, IfSome, slice_get};
ghost use Rattle.std.specs.List.{list_any};
ghost use Rattle.std.specs.Option.{option_copied};
ghost use Rattle.rule_base.specs.Value.{nil};
ghost use Rattle.rule_base.specs.Views.{element_in};
ghost use Rattle.interference.specs.Locks.{bucket};
ghost use Rattle.interference.specs.Given.{positive, value_at};
ghost use Rattle.interference.specs.Splits.{split_of};
ghost use Rattle.interference.specs.Regions.{known_after, pinned_value, regions_by, regions_of_value, sets, term_known};
ghost use Rattle.interference.specs.Finding.{numbers};

use crate::Splits;
use crate::given::{given, pinned_value, value_at};
use rule_base::{Action, Cond, ElementView, Elements, Rule, Term, Value};

/// The bucket of a value, from 0 to 15.
fn bucket(value: Value) -> u32
    ensures bucket { result ≡ bucket value }
    ensures few { result < 16 }
{
    match value {
        Value::Int(number) => number.rem_euclid(16) as u32,
        Value::Sym(symbol) => symbol % 16,
    }
}

/// The region of what has this value at the split, or none for all regions where it isn't known.
fn region_of_value(value: Option<Value>) -> Option<u32>
    ensures region { numbers result ≡ regions_of_value value }
    ensures few { IfSome result (λ number. number < 16) }
{
    match value {
        Some(value) => Some(bucket(value)),
        None => None,
    }
}

/// The region that a negated condition element watches, or none for all regions of its class.
pub fn watched_region(splits: &Splits, rule: &Rule, elements: &Elements, cond: &Cond) -> Option<u32>
    ensures region { numbers result ≡ regions_by (split_of splits.now cond.now.class) (pinned_value rule.now.conds elements.now cond.now) }
    ensures few { IfSome result (λ number. number < 16) }
{
    match splits.of(cond.class) {
        Some(attr) => { region_of_value(pinned_value(rule.conds.as_slice(), elements, cond, attr)) }
        None => Some(0),
    }
}

/// The region into which an element falls that a make with these settings makes, or none for all.
pub fn made_region(
    splits: &Splits,
    rule: &Rule,
    elements: &Elements,
    class: u32,
    settings: &[(u32, Term)],
) -> Option<u32>
    ensures region { numbers result ≡ regions_by (split_of splits.now class) (λ attr. known_after rule.now elements.now attr (Some nil) settings.now) }
    ensures few { IfSome result (λ number. number < 16) }
{
    match splits.of(class) {
        Some(attr) => {
            let nil = Some(Value::Sym(0));
            region_of_value(known_after(rule, elements, attr, nil, settings))
        }
        None => Some(0),
    }
}

/// The same of a modify of this element at this condition element.
pub fn remade_region(
    splits: &Splits,
    rule: &Rule,
    elements: &Elements,
    cond: &Cond,
    element: ElementView<'_>,
    settings: &[(u32, Term)],
) -> Option<u32>
    ensures region { numbers result ≡ regions_by (split_of splits.now cond.now.class)
        (λ attr. known_after rule.now elements.now attr (value_at (cond.now, element_in element.entry) attr) settings.now) }
    ensures few { IfSome result (λ number. number < 16) }
{
    match splits.of(cond.class) {
        Some(attr) => {
            let before = value_at(cond, element, attr);
            region_of_value(known_after(rule, elements, attr, before, settings))
        }
        None => Some(0),
    }
}

/// What is known of an attribute after settings in order.
fn known_after(
    rule: &Rule,
    elements: &Elements,
    attr: u32,
    known: Option<Value>,
    settings: &[(u32, Term)],
) -> Option<Value>
    ensures { result ≡ known_after rule.now elements.now attr known settings.now }
{
    let mut known = known;
    for (set, term) in settings {
        if *set == attr {
            known = term_known(rule, elements, term);
        }
    }
    known
}

/// What is known of a term's value before the rule fires.
fn term_known(rule: &Rule, elements: &Elements, term: &Term) -> Option<Value>
    ensures { result ≡ term_known rule.now elements.now term.now }
{
    match term {
        Term::Con(value) => Some(*value),
        Term::Var(var) => {
            if is_set(rule.actions.as_slice(), *var) {
                return None;
            }
            given(rule.conds.as_slice(), elements, *var)
        }
        Term::Compute(_) => None,
    }
}

/// Whether one of the actions sets the variable.
fn is_set(actions: &[Action], var: u32) -> bool
    ensures { result ≡ list_any (sets var) actions.now }
{
    actions.iter().any(|action| sets(action, var))
}

fn sets(action: &Action, var: u32) -> bool
    ensures { result ≡ sets var action.now }
{
    match action {
        Action::Bind {
            var: other,
            term: _,
        } => *other == var,
        _ => false,
    }
}

/// The positive condition element at a place that counts them from 0.
pub fn positive_at(conds: &[Cond], place: usize) -> Option<&Cond>
    ensures { option_copied result ≡ slice_get (positive conds.now) place }
{
    let mut left = place;
    for cond in conds {
        if !cond.negated {
            if left == 0 {
                return Some(cond);
            }
            left -= 1;
        }
    }
    None
}
