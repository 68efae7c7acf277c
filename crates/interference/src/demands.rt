//! Footprints: the locks that a candidate asks for.

ghost use Rattle.std.specs.Prelude.{◌≡◌, ◌+◌, ◌*◌, ◌≤◌, ◌<◌, ℕ, [], ◌∷◌, ◌++◌, Some, IfSome, OnOk, OnSome, drop, flat_map, length, map, slice_get, take};
ghost use Rattle.std.specs.List.{AllByRecursion};
ghost use Rattle.rule_base.specs.declared.lock.Mode.{Mode};
ghost use Rattle.rule_base.specs.declared.lock.Mode.TheVariants.{Watch, Grow, Own};
ghost use Rattle.rule_base.specs.declared.action.Action.TheVariants as action;
ghost use Rattle.rule_base.specs.Fits.{Fits};
ghost use Rattle.rule_base.specs.Sound.{IsSound};
ghost use Rattle.interference.specs.Locks.{region, stripe};
ghost use Rattle.interference.specs.Given.{negated};
ghost use Rattle.interference.specs.Splits.{splits_of};
ghost use Rattle.interference.specs.Regions.{grown_regions, watched_regions};
ghost use Rattle.interference.specs.Footprint.{designators, demands, designated_demands, footprint, in_mode, made_demands, matched_demands, negated_demands, with_demand};
ghost use Rattle.interference.specs.Finding.{HasFewClasses, IsOfFewClasses, asked_at, designated_locks, lesser, numbers, watched_if_negated, with_demands, with_regions};

use crate::Splits;
use crate::modes::joined;
use crate::regions::{made_region, positive_at, remade_region, watched_region};
use ops_text::OutOfMemory;
use rule_base::{Action, Candidate, Cond, Elements, Mode, Program, Rule, Term};

/// Fills `out` with the footprint of a candidate, in place of what was there. It goes through the
/// condition elements and the actions of the rule, and through the tests of its positive condition
/// elements again for each variable that it needs. `out` grows where it has too little room, and
/// nothing else takes memory. After want of memory what `out` has is of no use.
pub fn footprint(
    program: &Program,
    splits: &Splits,
    candidate: &Candidate,
    out: &mut Vec<(u32, Mode)>,
) -> Result<(), OutOfMemory>
    requires sound { IsSound program.now }
    requires fits { Fits program.now candidate.now }
    requires splits { splits.now ≡ splits_of program.now }
    ensures { OnOk result (out.new.items ≡ footprint program.now candidate.now) }
{
    out.clear();
    let Some(rule) = program.rules.get(candidate.choice.rule as usize) else {
        return Ok(());
    };
    demand_all(splits, rule, candidate, out)
}

/// Adds all that a candidate of the rule demands.
fn demand_all(
    splits: &Splits,
    rule: &Rule,
    candidate: &Candidate,
    out: &mut Vec<(u32, Mode)>,
) -> Result<(), OutOfMemory>
    requires { HasFewClasses rule.now }
    ensures { OnOk result (out.new.items ≡ with_demands out.old.items (demands splits.now rule.now candidate.now)) }
{
    let tags = candidate.choice.tags.as_slice();
    demand_matched(tags, out)?;
    demand_designated(rule.actions.as_slice(), tags, out)?;
    demand_negated(splits, rule, &candidate.elements, out)?;
    demand_made(splits, rule, &candidate.elements, out)
}

/// The matched elements are to stay.
fn demand_matched(tags: &[u64], out: &mut Vec<(u32, Mode)>) -> Result<(), OutOfMemory>
    ensures { OnOk result (out.new.items ≡ with_demands out.old.items (matched_demands tags.now)) }
{
    for tag in tags {
        demand(out, stripe(*tag), Mode::Watch)?;
    }
    Ok(())
}

/// What goes is owned.
fn demand_designated(
    actions: &[Action],
    tags: &[u64],
    out: &mut Vec<(u32, Mode)>,
) -> Result<(), OutOfMemory>
    ensures { OnOk result (out.new.items ≡ with_demands out.old.items (in_mode Own (designated_locks tags.now (flat_map designators actions.now)))) }
{
    for action in actions {
        demand_designators(action, tags, out)?;
    }
    Ok(())
}

/// Owns the elements that an action removes or modifies.
fn demand_designators(
    action: &Action,
    tags: &[u64],
    out: &mut Vec<(u32, Mode)>,
) -> Result<(), OutOfMemory>
    ensures { OnOk result (out.new.items ≡ with_demands out.old.items (in_mode Own (designated_locks tags.now (designators action.now)))) }
{
    match action {
        Action::Modify { at, sets: _ } => demand_tag(*at, tags, out),
        Action::Remove { at } => demand_tags(at.as_slice(), tags, out),
        _ => Ok(()),
    }
}

/// Owns the elements of these designators.
fn demand_tags(
    designators: &[u32],
    tags: &[u64],
    out: &mut Vec<(u32, Mode)>,
) -> Result<(), OutOfMemory>
    ensures { OnOk result (out.new.items ≡ with_demands out.old.items (in_mode Own (designated_locks tags.now designators.now))) }
{
    for designator in designators {
        demand_tag(*designator, tags, out)?;
    }
    Ok(())
}

/// Owns the element of this designator.
fn demand_tag(designator: u32, tags: &[u64], out: &mut Vec<(u32, Mode)>) -> Result<(), OutOfMemory>
    ensures { OnOk result (out.new.items ≡ with_demands out.old.items (in_mode Own (designated_locks tags.now (designator ∷ [])))) }
{
    match tags.get(designator as usize) {
        Some(tag) => demand(out, stripe(*tag), Mode::Own),
        None => Ok(()),
    }
}

/// Nothing may come that a negated condition element accepts.
fn demand_negated(
    splits: &Splits,
    rule: &Rule,
    elements: &Elements,
    out: &mut Vec<(u32, Mode)>,
) -> Result<(), OutOfMemory>
    requires { HasFewClasses rule.now }
    ensures { OnOk result (out.new.items ≡ with_demands out.old.items (negated_demands splits.now rule.now elements.now)) }
{
    for cond in rule.conds.as_slice() {
        demand_cond(splits, rule, elements, cond, out)?;
    }
    Ok(())
}

/// The regions that a condition element watches, if it is negated.
fn demand_cond(
    splits: &Splits,
    rule: &Rule,
    elements: &Elements,
    cond: &Cond,
    out: &mut Vec<(u32, Mode)>,
) -> Result<(), OutOfMemory>
    requires { cond.now.class < 256 }
    ensures { OnOk result (out.new.items ≡ with_demands out.old.items (in_mode Watch (watched_if_negated splits.now rule.now elements.now cond.now))) }
{
    if !cond.negated {
        return Ok(());
    }
    let region = watched_region(splits, rule, elements, cond);
    demand_regions(cond.class, region, Mode::Watch, out)
}

/// What comes grows its class.
fn demand_made(
    splits: &Splits,
    rule: &Rule,
    elements: &Elements,
    out: &mut Vec<(u32, Mode)>,
) -> Result<(), OutOfMemory>
    requires { HasFewClasses rule.now }
    ensures { OnOk result (out.new.items ≡ with_demands out.old.items (made_demands splits.now rule.now elements.now)) }
{
    for action in rule.actions.as_slice() {
        demand_action(splits, rule, elements, action, out)?;
    }
    Ok(())
}

/// The regions that one action grows.
fn demand_action(
    splits: &Splits,
    rule: &Rule,
    elements: &Elements,
    action: &Action,
    out: &mut Vec<(u32, Mode)>,
) -> Result<(), OutOfMemory>
    requires rule { HasFewClasses rule.now }
    requires action { IsOfFewClasses action.now }
    ensures { OnOk result (out.new.items ≡ with_demands out.old.items (in_mode Grow (grown_regions splits.now rule.now elements.now action.now))) }
{
    match action {
        Action::Make {
            class,
            size: _,
            sets,
        } => {
            let region = made_region(splits, rule, elements, *class, sets.as_slice());
            demand_regions(*class, region, Mode::Grow, out)
        }
        Action::Modify { at, sets } => {
            demand_modify(splits, rule, elements, *at, sets.as_slice(), out)
        }
        _ => Ok(()),
    }
}

/// The regions that a modify grows.
fn demand_modify(
    splits: &Splits,
    rule: &Rule,
    elements: &Elements,
    at: u32,
    sets: &[(u32, Term)],
    out: &mut Vec<(u32, Mode)>,
) -> Result<(), OutOfMemory>
    requires { HasFewClasses rule.now }
    ensures { OnOk result (out.new.items ≡ with_demands out.old.items (in_mode Grow (grown_regions splits.now rule.now elements.now (action.Modify at sets.now)))) }
{
    let place = at as usize;
    if place >= elements.len() {
        return Ok(());
    }
    let Some(cond) = positive_at(rule.conds.as_slice(), place) else {
        return Ok(());
    };
    let region = remade_region(splits, rule, elements, cond, elements.at(place), sets);
    demand_regions(cond.class, region, Mode::Grow, out)
}

/// One region of a class, or all.
fn demand_regions(
    class: u32,
    number: Option<u32>,
    mode: Mode,
    out: &mut Vec<(u32, Mode)>,
) -> Result<(), OutOfMemory>
    requires class { class < 256 }
    requires number { IfSome number (λ n. n < 16) }
    ensures { OnOk result (out.new.items ≡ with_regions out.old.items class number mode) }
{
    let first = 1024 + 16 * class;
    if let Some(number) = number {
        return demand(out, first + number, mode);
    }
    for number in 0..16 {
        demand(out, first + number, mode)?;
    }
    Ok(())
}

/// The stripe of the element with this tag.
fn stripe(tag: u64) -> u32
    ensures { result ≡ stripe tag }
{
    (tag % 1024) as u32
}

/// Adds one demand: in its place, and in one mode with what is asked of this lock already.
fn demand(out: &mut Vec<(u32, Mode)>, lock: u32, mode: Mode) -> Result<(), OutOfMemory>
    ensures { OnOk result (out.new.items ≡ with_demand out.old.items (lock, mode)) }
{
    let place = place_of(out.as_slice(), lock);
    match asked_at(out.as_slice(), place, lock) {
        Some(asked) => {
            out[place] = (lock, joined(asked, mode));
        }
        None => {
            out.insert(place, (lock, mode))?;
        }
    }
    Ok(())
}

/// The mode of the demand at this place, where it is of this lock.
fn asked_at(demands: &[(u32, Mode)], place: usize, lock: u32) -> Option<Mode>
    ensures asked { result ≡ asked_at demands.now place lock }
    ensures within { OnSome result (place < length demands.now) }
{
    if place < demands.len() && demands[place].0 == lock {
        return Some(demands[place].1);
    }
    None
}

/// How many demands from the first on are of a lesser lock.
fn place_of(demands: &[(u32, Mode)], lock: u32) -> usize
    ensures lesser { result ≡ lesser lock demands.now }
    ensures within { result ≤ length demands.now }
{
    for at in 0..demands.len() {
        if demands[at].0 >= lock {
            return at;
        }
    }
    demands.len()
}
