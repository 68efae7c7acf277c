//! The full matches of a rule by the manual: each list of elements in working memory is tried, and its
//! elements are tested one after another, from the first test to the last. It knows nothing of a network
//! but which elements there are.

use crate::matches::{element_at, tags_at};
use element_tests::{Binds, holds};
use match_network::Arrivals;
use ops_text::OutOfMemory;
use rule_base::{Arg, Cond, ElementView, Pred, Rule, Test, Value};
use std::alloc::Global;

/// The lists of tags of elements that the rule's positive condition elements take, in rising order.
pub fn plain_matches(
    alloc: Global,
    rule: &Rule,
    arrivals: &Arrivals,
) -> Result<Vec<Vec<u64>>, OutOfMemory> {
    let mut lists = Vec::new(alloc);
    for row in all_rows(alloc, rule, arrivals)?.as_slice() {
        if are_taken(alloc, rule, row.as_slice(), arrivals)? {
            lists.push(tags_at(alloc, arrivals, row.as_slice())?)?;
        }
    }
    lists.as_mut_slice().sort_unstable();
    Ok(lists)
}

/// All lists of places in working memory, one place for each positive condition element.
fn all_rows(alloc: Global, rule: &Rule, arrivals: &Arrivals) -> Result<Vec<Vec<u32>>, OutOfMemory> {
    let mut rows = Vec::new(alloc);
    rows.push(Vec::new(alloc))?;
    for cond in rule.conds.as_slice() {
        if !cond.negated {
            rows = longer(alloc, rows.as_slice(), arrivals)?;
        }
    }
    Ok(rows)
}

/// Each row with each place in working memory behind it.
fn longer(
    alloc: Global,
    rows: &[Vec<u32>],
    arrivals: &Arrivals,
) -> Result<Vec<Vec<u32>>, OutOfMemory> {
    let mut all = Vec::new(alloc);
    for row in rows {
        extend(alloc, row.as_slice(), arrivals, &mut all)?;
    }
    Ok(all)
}

/// Adds a row with each place in working memory behind it.
fn extend(
    alloc: Global,
    row: &[u32],
    arrivals: &Arrivals,
    all: &mut Vec<Vec<u32>>,
) -> Result<(), OutOfMemory> {
    for place in 0..arrivals.len() as u32 {
        if arrivals.has(place) {
            let mut row = Vec::from_slice(alloc, row)?;
            row.push(place)?;
            all.push(row)?;
        }
    }
    Ok(())
}

/// Whether the positive condition elements take the elements at these places, in their order.
fn are_taken(
    alloc: Global,
    rule: &Rule,
    row: &[u32],
    arrivals: &Arrivals,
) -> Result<bool, OutOfMemory> {
    let mut binds = Binds::new(alloc, rule.vars)?;
    let mut row = row;
    for cond in rule.conds.as_slice() {
        if !cond.negated {
            let Some((place, rest)) = row.split_first() else {
                return Ok(false);
            };
            if !takes_at(cond, &mut binds, arrivals, *place) {
                return Ok(false);
            }
            row = rest;
        }
    }
    Ok(true)
}

/// Whether the condition element takes the element at a place.
fn takes_at(cond: &Cond, binds: &mut Binds, arrivals: &Arrivals, place: u32) -> bool {
    match element_at(arrivals, place) {
        Some(element) => takes(cond, binds, element),
        None => false,
    }
}

/// Whether the element is of the condition element's class and passes its tests from left to right.
fn takes(cond: &Cond, binds: &mut Binds, element: ElementView<'_>) -> bool {
    if cond.class != element.class {
        return false;
    }
    for test in cond.tests.as_slice() {
        if !passes(test, binds, element.values) {
            return false;
        }
    }
    true
}

/// Whether the values pass a test. A variable that it binds has its value then.
fn passes(test: &Test, binds: &mut Binds, values: &[Value]) -> bool {
    match test {
        Test::Bind { attr, var } => bind(binds, *var, values.get(*attr as usize)),
        Test::Cmp { attr, pred, arg } => {
            let value = values.get(*attr as usize);
            compares(*pred, value, other_of(*arg, binds))
        }
        Test::OneOf { attr, among } => is_among(values.get(*attr as usize), among.as_slice()),
    }
}

/// Gives a variable a value, if there are both.
fn bind(binds: &mut Binds, var: u32, value: Option<&Value>) -> bool {
    let Some(value) = value else {
        return false;
    };
    if var as usize >= binds.as_slice().len() {
        return false;
    }
    binds.set(var, *value);
    true
}

/// What a predicate compares with, if it has a value.
fn other_of(arg: Arg, binds: &Binds) -> Option<Value> {
    match arg {
        Arg::Con(value) => Some(value),
        Arg::Var(var) => *binds.as_slice().get(var as usize)?,
    }
}

/// Whether there are two values, and the predicate holds of them.
fn compares(pred: Pred, value: Option<&Value>, other: Option<Value>) -> bool {
    match (value, other) {
        (Some(value), Some(other)) => holds(pred, *value, other),
        _ => false,
    }
}

/// Whether there is a value, and it is one of these.
fn is_among(value: Option<&Value>, among: &[Value]) -> bool {
    let Some(value) = value else {
        return false;
    };
    among.iter().any(|other| holds(Pred::Eq, *value, *other))
}
