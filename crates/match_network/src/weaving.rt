//! One rule's levels, into which elements are woven.

ghost use Rattle.std.specs.Prelude.{◌≡◌, ℕ, ◌+◌, ◌-◌, ◌<◌, ◌≤◌, [], ◌∷◌, drop, IfOk, OnErr, OnOk, Some, length, map, slice_get, slice_set, true};
ghost use Rattle.std.specs.List.{AllByRecursion};
ghost use Rattle.join_tests.specs.declared.joins.Join.{Join};
ghost use Rattle.match_network.specs.Conditions.{AreCleaned, AreFiled, AreStores, IsBegun, IsGiven, IsGivenPart, IsServed, joins_of, level_at, rows_of};
ghost use Rattle.match_network.specs.Filed.{IsFiled, passes_at, LevelRows, only, with_rows};
ghost use Rattle.match_network.specs.Joining.{extended};
ghost use Rattle.match_network.specs.Levels.{AreLevels, HaveCome, OnlyAdds};
ghost use Rattle.match_network.specs.SoFar.{IsPart};
ghost use Rattle.alpha_memory.specs.Times.{times};
ghost use Rattle.match_network.specs.Tried.{at_number, has_key, pairs_tried, rows_tried, woven_tried};
ghost use Rattle.match_network.specs.Woven.{grown, joined, made, with_place, woven};

use crate::stage::{Stage, extend, grow, join_place};
use crate::{Arrivals, Level};
use alpha_memory::AlphaMemory;
use join_tests::Join;
use ops_text::OutOfMemory;
use rule_base::Steps;
use std::alloc::Global;
use std::sync::ledger::Ledger;

/// The positive condition elements of a rule, the numbers of the stores that have the elements that pass
/// each, and the elements that came.
#[derive(Drop)]
pub struct Conditions<'a> {
    pub joins: &'a [Join],
    pub stores: &'a [u32],
    pub arrivals: &'a Arrivals,
}

impl<'a> Conditions<'a> {
    /// The condition element with this number, from 0.
    fn stage(&self, number: usize) -> Stage<'_>
        requires { number < length self.now.joins.now }
        ensures join { slice_get self.now.joins.now number ≡ Some result.join.now }
        ensures next { result.next.now ≡ drop (number + 1) self.now.joins.now }
        ensures arrivals { result.arrivals.now ≡ self.now.arrivals.now }
    {
        Stage {
            join: &self.joins[number],
            next: &self.joins[number + 1..],
            arrivals: self.arrivals,
        }
    }
}

/// Adds the place alone to the first level, if its element agrees with no others. Answers how many rows
/// it had. After want of memory all is as before.
fn begin_alone<L: Ledger>(
    stage: &Stage<'_>,
    place: u32,
    levels: &mut [Level],
    steps: &mut Steps<L>,
) -> Result<usize, OutOfMemory>
    requires some { 0 < length levels.old }
    requires place { place < length stage.now.arrivals.now.came }
    requires width { (level_at levels.old 0).width ≡ 1 }
    ensures count { IfOk result (λ count. count ≡ length (level_at levels.old 0).rows) }
    ensures ok { OnOk result (levels.new ≡ slice_set levels.old 0 (with_rows stage.now.next.now stage.now.arrivals.now.came (level_at levels.old 0)
        (extended stage.now.join.now stage.now.arrivals.now.came [] (place ∷ [])))) }
    ensures err { OnErr result (levels.new ≡ levels.old) }
    ensures steps { steps.new ≤ steps.old + times (has_key stage.now.join.now stage.now.arrivals.now.came []) (place ∷ []) }
{
    let after = &mut levels[0];
    let count = after.rows().len();
    extend(stage, &[], place, after, steps)?;
    Ok(count)
}

/// Adds the rows before the level with this number that take a place, each with it, to the level.
/// Answers how many rows it had.
fn begin_joined<L: Ledger>(
    stage: &Stage<'_>,
    number: usize,
    place: u32,
    levels: &mut [Level],
    steps: &mut Steps<L>,
) -> Result<usize, OutOfMemory>
    requires some { 0 < number }
    requires number { number < length levels.old }
    requires filed { IsFiled (stage.now.join.now ∷ stage.now.next.now) stage.now.arrivals.now.came stage.now.arrivals.now.places (level_at levels.old (number - 1)) }
    requires come { AllByRecursion (HaveCome stage.now.arrivals.now.came) (level_at levels.old (number - 1)).rows }
    requires passes { passes_at stage.now.join.now stage.now.arrivals.now.came place ≡ true }
    requires width { (level_at levels.old (number - 1)).width + 1 ≡ (level_at levels.old number).width }
    ensures count { IfOk result (λ count. count ≡ length (level_at levels.old number).rows) }
    ensures ok { OnOk result (IsBegun (stage.now.join.now ∷ stage.now.next.now) stage.now.arrivals.now.came stage.now.arrivals.now.places number levels.old levels.new
        (with_rows stage.now.next.now stage.now.arrivals.now.came (level_at levels.old number)
        (map (with_place place) (joined (only stage.now.join.now) stage.now.arrivals.now.came stage.now.arrivals.now.places place (level_at levels.old (number - 1)).rows)))) }
    ensures err { OnErr result ((level : LevelRows) × IsBegun (stage.now.join.now ∷ stage.now.next.now) stage.now.arrivals.now.came stage.now.arrivals.now.places number levels.old levels.new level
        × IsPart stage.now.next.now stage.now.arrivals.now.came (level_at levels.old number) level
        (map (with_place place) (joined (only stage.now.join.now) stage.now.arrivals.now.came stage.now.arrivals.now.places place (level_at levels.old (number - 1)).rows))) }
    ensures steps { steps.new ≤ steps.old + rows_tried stage.now.join.now stage.now.arrivals.now.came stage.now.arrivals.now.places place (level_at levels.old (number - 1)).rows }
{
    let (front, back) = levels.split_at_mut(number);
    let before = &mut front[number - 1];
    let after = &mut back[0];
    let count = after.rows().len();
    join_place(stage, place, before, after, steps)?;
    Ok(count)
}

/// Adds what comes of the rows before the level with this number, from the first of them on, to it.
/// Answers how many rows it had.
fn go_on<L: Ledger>(
    stage: &Stage<'_>,
    number: usize,
    first: usize,
    store: u32,
    alpha: &mut AlphaMemory,
    levels: &mut [Level],
    steps: &mut Steps<L>,
) -> Result<usize, OutOfMemory>
    requires some { 0 < number }
    requires number { number < length levels.old }
    requires served { IsServed stage.now.join.now true stage.now.arrivals.now.came stage.now.arrivals.now.places alpha.old store }
    requires come { AllByRecursion (HaveCome stage.now.arrivals.now.came) (level_at levels.old (number - 1)).rows }
    requires width { (level_at levels.old (number - 1)).width + 1 ≡ (level_at levels.old number).width }
    requires first { first ≤ length (level_at levels.old (number - 1)).rows }
    ensures count { IfOk result (λ count. count ≡ length (level_at levels.old number).rows) }
    ensures ok { OnOk result (levels.new ≡ slice_set levels.old number (with_rows stage.now.next.now stage.now.arrivals.now.came (level_at levels.old number)
        (grown (only stage.now.join.now) stage.now.arrivals.now.came stage.now.arrivals.now.places (drop first (level_at levels.old (number - 1)).rows)))) }
    ensures err { OnErr result ((level : LevelRows) × (levels.new ≡ slice_set levels.old number level) × IsPart stage.now.next.now stage.now.arrivals.now.came (level_at levels.old number) level
        (grown (only stage.now.join.now) stage.now.arrivals.now.came stage.now.arrivals.now.places (drop first (level_at levels.old (number - 1)).rows))) }
    ensures stores { AreCleaned stage.now.arrivals.now.places alpha.old alpha.new }
    ensures steps { steps.new ≤ steps.old + pairs_tried stage.now.join.now stage.now.arrivals.now.came stage.now.arrivals.now.places (drop first (level_at levels.old (number - 1)).rows) }
{
    let (front, back) = levels.split_at_mut(number);
    let from = &front[number - 1];
    let after = &mut back[0];
    let count = after.rows().len();
    grow(stage, from.rows(), first, store, alpha, after, steps)?;
    Ok(count)
}

/// Adds what a place makes at the condition element with this number. Answers how many rows the level
/// had.
fn begin<L: Ledger>(
    conditions: &Conditions<'_>,
    at: usize,
    place: u32,
    levels: &mut [Level],
    steps: &mut Steps<L>,
) -> Result<usize, OutOfMemory>
    requires at { at < length conditions.now.joins.now }
    requires filed { AreFiled conditions.now.joins.now conditions.now.arrivals.now.came conditions.now.arrivals.now.places levels.old }
    requires passes { (join : Join) → slice_get conditions.now.joins.now at ≡ Some join → passes_at join conditions.now.arrivals.now.came place ≡ true }
    ensures count { IfOk result (λ count. count ≡ length (rows_of levels.old (at + 1))) }
    ensures ok { OnOk result (IsGiven (at + 1) (rows_of levels.old) (rows_of levels.new)
        (made (joins_of conditions.now.joins.now) conditions.now.arrivals.now.came conditions.now.arrivals.now.places place (rows_of levels.old at) 0)) }
    ensures err { OnErr result (IsGivenPart (at + 1) (rows_of levels.old) (rows_of levels.new)
        (made (joins_of conditions.now.joins.now) conditions.now.arrivals.now.came conditions.now.arrivals.now.places place (rows_of levels.old at) 0)) }
    ensures filed { AreFiled conditions.now.joins.now conditions.now.arrivals.now.came conditions.now.arrivals.now.places levels.new }
    ensures steps { steps.new ≤ steps.old + at_number conditions.now.joins.now at (λ join. rows_tried join conditions.now.arrivals.now.came conditions.now.arrivals.now.places place (rows_of levels.old at)) }
{
    let stage = conditions.stage(at);
    if at == 0 {
        begin_alone(&stage, place, levels, steps)
    } else {
        begin_joined(&stage, at, place, levels, steps)
    }
}

/// Adds what comes of the last rows of the level before the one with this number, from the first of them
/// on, to it. Answers how many rows it had.
fn continue_at<L: Ledger>(
    conditions: &Conditions<'_>,
    number: usize,
    first: usize,
    alpha: &mut AlphaMemory,
    levels: &mut [Level],
    steps: &mut Steps<L>,
) -> Result<usize, OutOfMemory>
    requires some { 0 < number }
    requires number { number < length conditions.now.joins.now }
    requires first { first ≤ length (rows_of levels.old number) }
    requires filed { AreFiled conditions.now.joins.now conditions.now.arrivals.now.came conditions.now.arrivals.now.places levels.old }
    requires stores { AreStores conditions.now.joins.now conditions.now.arrivals.now.came conditions.now.arrivals.now.places conditions.now.stores.now alpha.old }
    requires below { AllByRecursion (λ p. p < length conditions.now.arrivals.now.came) conditions.now.arrivals.now.places }
    ensures count { IfOk result (λ count. count ≡ length (rows_of levels.old (number + 1))) }
    ensures ok { OnOk result (IsGiven (number + 1) (rows_of levels.old) (rows_of levels.new)
        (grown (joins_of conditions.now.joins.now) conditions.now.arrivals.now.came conditions.now.arrivals.now.places (drop first (rows_of levels.old number)))) }
    ensures err { OnErr result (IsGivenPart (number + 1) (rows_of levels.old) (rows_of levels.new)
        (grown (joins_of conditions.now.joins.now) conditions.now.arrivals.now.came conditions.now.arrivals.now.places (drop first (rows_of levels.old number)))) }
    ensures filed { AreFiled conditions.now.joins.now conditions.now.arrivals.now.came conditions.now.arrivals.now.places levels.new }
    ensures stores { AreCleaned conditions.now.arrivals.now.places alpha.old alpha.new }
    ensures steps { steps.new ≤ steps.old + at_number conditions.now.joins.now number (λ join. pairs_tried join conditions.now.arrivals.now.came conditions.now.arrivals.now.places (drop first (rows_of levels.old number))) }
{
    let stage = conditions.stage(number);
    let store = conditions.stores[number];
    go_on(&stage, number, first, store, alpha, levels, steps)
}

/// Weaves a place in at the condition element with this number, from 0: each level past it gets the rows
/// that have the place first there. After want of memory there may be rows with the place; once it was
/// taken out of working memory again, they are dead. It takes memory for those rows alone.
pub fn weave<L: Ledger>(
    conditions: &Conditions<'_>,
    at: usize,
    place: u32,
    alpha: &mut AlphaMemory,
    levels: &mut [Level],
    steps: &mut Steps<L>,
) -> Result<(), OutOfMemory>
    requires at { at < length conditions.now.joins.now }
    requires passes { (join : Join) → slice_get conditions.now.joins.now at ≡ Some join → passes_at join conditions.now.arrivals.now.came place ≡ true }
    requires below { AllByRecursion (λ p. p < length conditions.now.arrivals.now.came) conditions.now.arrivals.now.places }
    requires stores { AreStores conditions.now.joins.now conditions.now.arrivals.now.came conditions.now.arrivals.now.places conditions.now.stores.now alpha.old }
    requires filed { AreFiled conditions.now.joins.now conditions.now.arrivals.now.came conditions.now.arrivals.now.places levels.old }
    ensures ok { OnOk result ((width : ℕ) → rows_of levels.new width
        ≡ woven (joins_of conditions.now.joins.now) conditions.now.arrivals.now.came conditions.now.arrivals.now.places place at (rows_of levels.old) width) }

    // Even after want of memory there are only more rows with the place, what is filed is right, and of
    // the stores only what is dead has gone.
    ensures adds { OnlyAdds conditions.now.arrivals.now.came place (rows_of levels.old) (rows_of levels.new) }
    ensures filed { AreFiled conditions.now.joins.now conditions.now.arrivals.now.came conditions.now.arrivals.now.places levels.new }
    ensures stores { AreCleaned conditions.now.arrivals.now.places alpha.old alpha.new }

    // It counts a step for each pair of a row and an element that agree in the key.
    ensures steps { steps.new ≤ steps.old + woven_tried conditions.now.joins.now conditions.now.arrivals.now.came conditions.now.arrivals.now.places place at
        (rows_of levels.old at) (length conditions.now.joins.now - (at + 1)) }
{
    let mut first = begin(conditions, at, place, levels, steps)?;
    for number in at + 1..conditions.joins.len() {
        first = continue_at(conditions, number, first, alpha, levels, steps)?;
    }
    Ok(())
}

/// Levels for condition elements with these joins, and no rows.
pub fn new_levels(alloc: Global, joins: &[Join]) -> Result<Vec<Level>, OutOfMemory>
    ensures filed { IfOk result (λ levels. AreFiled joins.now [] [] levels.items) }
    ensures levels { IfOk result (λ levels. AreLevels (joins_of joins.now) [] [] (rows_of levels.items)) }
{
    let mut levels = Vec::new(alloc);
    for number in 0..joins.len() {
        levels.push(Level::new(alloc, number + 1))?;
    }
    Ok(levels)
}
