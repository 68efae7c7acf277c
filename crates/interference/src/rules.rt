//! Whether firings of two rules may interfere at all, as the rules alone tell it.

ghost use Rattle.std.specs.Prelude.{◌≡◌, ◌<◌, ◌==◌, length, flat_map, option_to_list};
ghost use Rattle.std.specs.List.{list_any};
ghost use Rattle.std.specs.Option.{option_copied};
ghost use Rattle.interference.specs.Modes.{asks, joined};
ghost use Rattle.rule_base.specs.declared.lock.Mode.TheVariants.{Watch, Grow};
ghost use Rattle.rule_base.specs.Chains.{only_if};
ghost use Rattle.interference.specs.Given.{negated, positive};
ghost use Rattle.interference.specs.Footprint.{designators};
ghost use Rattle.interference.specs.MayInterfere.{class_at, class_demands, classes_disagree, classes_of, disagree, grown_classes, may_interfere, takes_from};
ghost use Rattle.interference.specs.Finding.{takes_at};

use crate::modes::compatible;
use crate::regions::positive_at;
use rule_base::{Action, Cond, Mode, Program, Rule};

/// Whether firings of two rules of the program may interfere: for some class what they ask of it doesn't
/// go together, or one takes elements of a class that the other matches. Where it says no, footprints of
/// the two clash at most because different tags share a stripe. It goes through both rules for each class.
pub fn may_interfere(program: &Program, a: u32, b: u32) -> bool
    requires first { a < length program.now.rules }
    requires second { b < length program.now.rules }
    ensures { result ≡ may_interfere program.now a b }
{
    let rules = program.rules.as_slice();
    let one = &rules[a as usize];
    let other = &rules[b as usize];
    classes_disagree(program.classes.len(), one, other)
        || takes_from(one, other)
        || takes_from(other, one)
}

/// Whether the modes that the rules ask of one of so many classes don't go together.
fn classes_disagree(count: usize, one: &Rule, other: &Rule) -> bool
    ensures { result ≡ classes_disagree count one.now other.now }
{
    for class in 0..count {
        if disagree(class_mode(one, class), class_mode(other, class)) {
            return true;
        }
    }
    false
}

/// Whether both modes are asked for, and don't go together.
fn disagree(one: Option<Mode>, other: Option<Mode>) -> bool
    ensures { result ≡ disagree one other }
{
    match (one, other) {
        (Some(one), Some(other)) => !compatible(one, other),
        _ => false,
    }
}

/// The mode that the rule asks of a class, if it does.
fn class_mode(rule: &Rule, class: usize) -> Option<Mode>
    ensures { result ≡ asks (class_demands rule.now) class }
{
    mode_of(watches(rule.conds.as_slice(), class), grows(rule, class))
}

/// The mode of a rule that watches a class, or grows it, or both.
fn mode_of(watches: bool, grows: bool) -> Option<Mode>
    ensures { result ≡ joined (only_if watches Watch) (only_if grows Grow) }
{
    if watches && grows {
        return Some(Mode::Own);
    }
    if watches {
        return Some(Mode::Watch);
    }
    if grows { Some(Mode::Grow) } else { None }
}

/// Whether there is a negated condition element of the class.
fn watches(conds: &[Cond], class: usize) -> bool
    ensures { result ≡ list_any (λ k. k == class) (classes_of (negated conds.now)) }
{
    for cond in conds {
        if cond.negated && cond.class as usize == class {
            return true;
        }
    }
    false
}

/// Whether there is a positive condition element of the class.
fn matches(conds: &[Cond], class: u32) -> bool
    ensures { result ≡ list_any (λ k. k == class) (classes_of (positive conds.now)) }
{
    for cond in conds {
        if !cond.negated && cond.class == class {
            return true;
        }
    }
    false
}

/// Whether the rule makes an element of the class.
fn grows(rule: &Rule, class: usize) -> bool
    ensures { result ≡ list_any (λ k. k == class) (flat_map (grown_classes rule.now.conds) rule.now.actions) }
{
    for action in rule.actions.as_slice() {
        if action_grows(rule.conds.as_slice(), action, class) {
            return true;
        }
    }
    false
}

/// Whether the action makes an element of the class.
fn action_grows(conds: &[Cond], action: &Action, class: usize) -> bool
    ensures { result ≡ list_any (λ k. k == class) (grown_classes conds.now action.now) }
{
    match action {
        Action::Make {
            class: made,
            size: _,
            sets: _,
        } => *made as usize == class,
        Action::Modify { at, sets: _ } => match class_at(conds, *at) {
            Some(made) => made as usize == class,
            None => false,
        },
        _ => false,
    }
}

/// The class of the condition element that a designator designates.
fn class_at(conds: &[Cond], at: u32) -> Option<u32>
    ensures { result ≡ class_at conds.now at }
{
    match positive_at(conds, at as usize) {
        Some(cond) => Some(cond.class),
        None => None,
    }
}

/// Whether one rule removes or modifies at a condition element of a class of which the other has a
/// positive one.
fn takes_from(one: &Rule, other: &Rule) -> bool
    ensures { result ≡ takes_from one.now other.now }
{
    any_takes(
        one.actions.as_slice(),
        one.conds.as_slice(),
        other.conds.as_slice(),
    )
}

/// Whether one of the actions takes from the other condition elements.
fn any_takes(actions: &[Action], conds: &[Cond], others: &[Cond]) -> bool
    ensures { result ≡ list_any (λ a. list_any (takes_at conds.now others.now) (designators a)) actions.now }
{
    actions
        .iter()
        .any(|action| action_takes(action, conds, others))
}

/// The same of one action of the rule.
fn action_takes(action: &Action, conds: &[Cond], others: &[Cond]) -> bool
    ensures { result ≡ list_any (takes_at conds.now others.now) (designators action.now) }
{
    match action {
        Action::Modify { at, sets: _ } => takes_at(conds, others, *at),
        Action::Remove { at } => at.as_slice().iter().any(|at| takes_at(conds, others, *at)),
        _ => false,
    }
}

/// The same of one designator.
fn takes_at(conds: &[Cond], others: &[Cond], at: u32) -> bool
    ensures { result ≡ takes_at conds.now others.now at }
{
    match class_at(conds, at) {
        Some(class) => matches(others, class),
        None => false,
    }
}
