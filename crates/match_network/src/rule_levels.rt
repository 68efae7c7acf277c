//! What the network keeps of one rule.

ghost use Rattle.std.specs.Prelude.{◌≡◌, ℕ, ◌+◌, ◌<◌, ◌≤◌, [], IfOk, IfSome, None, OnErr, OnOk, Some, length, slice_get, true, List, ◌^◌, ◌-◌, min};
ghost use Rattle.std.specs.List.{AllByRecursion, list_any, list_all};
ghost use Rattle.rule_base.specs.Numbers.{has_number};
ghost use Rattle.join_tests.specs.declared.joins.Join.{Join};
ghost use Rattle.join_tests.specs.Meaning.{IsCompiled, is_free};
ghost use Rattle.match_network.specs.Conditions.{AreCleaned, AreFiled, AreStores, joins_of, level_at, rows_of};
ghost use Rattle.match_network.specs.Filed.{passes_at};
ghost use Rattle.match_network.specs.Levels.{HaveCome, OnlyAdds};
ghost use Rattle.match_network.specs.Negated.{AreNegatedAsked, AreNegatedServed, blockers_tried, blocks, whole_rows};
ghost use Rattle.match_network.specs.Row.{elements_of};
ghost use Rattle.match_network.specs.Held.{rows_filed};
ghost use Rattle.match_network.specs.Packing.{IsPacked, IsRepacked};
ghost use Rattle.match_network.specs.Rules.{AreAsked, AreBare, GoesOn, IsRight, IsStopped, IsWoven};
ghost use Rattle.match_network.specs.Tried.{rule_tried};
ghost use Rattle.match_network.specs.Woven.{woven};

use crate::held::count_rows;
use crate::negated::{blocks, find_blocker};
use crate::packing::pack_levels;
use crate::{Arrivals, Conditions, Level, Rows, new_levels, weave};
use alpha_memory::AlphaMemory;
use join_tests::{Join, Joins, Negated};
use ops_text::{OutOfMemory, Sequence};
use rule_base::{Rule, Steps};
use std::alloc::Global;
use std::marker::Model;
use std::sync::ledger::Ledger;

/// A rule's joins, the numbers of the stores that serve its positive condition elements and its negated
/// ones, and a level for each of the positive.
#[derive(Drop)]
pub struct RuleLevels {
    joins: Joins,
    stores: Sequence<u32>,
    negated: Sequence<u32>,
    levels: Vec<Level>,
}

impl Model for RuleLevels {
    ghost use Rattle.match_network.specs.Rules.{RuleRows};

    ghost Value = { RuleRows };

    ghost view = { λ r. record { joins = r.joins; stores = r.stores; negated = r.negated; levels = r.levels.items } };
}

impl RuleLevels {
    /// Compiles a rule, and asks for its stores. There are no rows.
    pub(crate) fn new(
        alloc: Global,
        rule: &Rule,
        alpha: &mut AlphaMemory,
    ) -> Result<RuleLevels, OutOfMemory>
        requires { AreBare alpha.old }
        ensures compiled { IfOk result (λ rows. IsCompiled rule.now rows.joins) }
        ensures right { IfOk result (IsRight [] [] alpha.new) }
        ensures negated_right { IfOk result (AreNegatedServed [] [] alpha.new) }
        ensures bare { AreBare alpha.new }
        ensures serve { GoesOn alpha.old alpha.new }
    {
        let joins = Joins::compile(alloc, rule)?;
        let stores = ask_all(alloc, joins.positives.as_slice(), alpha)?;
        let negated = ask_negated(alloc, joins.negated.as_slice(), alpha)?;
        let levels = new_levels(alloc, joins.positives.as_slice())?;
        Ok(RuleLevels {
            joins,
            stores,
            negated,
            levels,
        })
    }

    /// The numbers of the stores that serve the positive condition elements, in order.
    pub(crate) fn stores(&self) -> &[u32]
        ensures { result.now ≡ self.now.stores }
    {
        self.stores.as_slice()
    }

    /// The numbers of the stores that serve the negated condition elements, in order.
    pub(crate) fn negated(&self) -> &[u32]
        ensures { result.now ≡ self.now.negated }
    {
        self.negated.as_slice()
    }

    /// The rows for all positive condition elements, and among them some whose elements aren't in working
    /// memory. There are none where the rule has no positive condition element.
    pub fn rows(&self) -> Option<&Rows>
        ensures some { IfSome result (λ rows. rows.now.rows ≡ rows_of self.now.levels (length self.now.levels)) }
        ensures within { IfSome result (λ rows. 0 < length self.now.levels) }
        ensures none { result ≡ None → self.now.levels ≡ [] }
    {
        match self.levels.last() {
            Some(level) => Some(level.rows()),
            None => None,
        }
    }

    /// How many rows there are for all positive condition elements, the dead ones too. Where the rule has
    /// none of these, there is the row of no places.
    pub fn whole_count(&self) -> usize
        ensures count { result ≡ length (whole_rows self.now) }
        ensures few { result < 2 ^ 32 }
    {
        match self.rows() {
            Some(rows) => rows.len(),
            None => 1,
        }
    }

    /// The row with this number, for all positive condition elements.
    pub fn whole_row(&self, number: usize) -> &[u32]
        requires { number < length (whole_rows self.now) }
        ensures { slice_get (whole_rows self.now) number ≡ Some result.now }
    {
        match self.rows() {
            Some(rows) => rows.at(number),
            None => &[],
        }
    }

    /// The place of an element in working memory that stands in the way of the whole row with this number,
    /// if there is one.
    pub(crate) fn blocker<L: Ledger>(
        &self,
        number: usize,
        arrivals: &Arrivals,
        alpha: &mut AlphaMemory,
        steps: &mut Steps<L>,
    ) -> Option<u32>
        requires number { number < length (whole_rows self.now) }
        requires come { AllByRecursion (HaveCome arrivals.now.came) (whole_rows self.now) }
        requires served { AreNegatedServed arrivals.now.came arrivals.now.places alpha.old self.now }
        ensures there { IfSome result (λ place. has_number arrivals.now.places place ≡ true) }
        ensures blocks { IfSome result (λ place. (row : List ℕ) → slice_get (whole_rows self.now) number ≡ Some row → blocks self.now.joins arrivals.now.came row place ≡ true) }
        ensures none { result ≡ None → (row : List ℕ) → slice_get (whole_rows self.now) number ≡ Some row
            → list_all (is_free (elements_of arrivals.now.came arrivals.now.places) (elements_of arrivals.now.came row)) self.now.joins.negated ≡ true }
        ensures cleaned { AreCleaned arrivals.now.places alpha.old alpha.new }
        ensures steps { (row : List ℕ) → slice_get (whole_rows self.now) number ≡ Some row
            → steps.new ≤ steps.old + blockers_tried self.now.joins.negated arrivals.now.came arrivals.now.places row }
    {
        find_blocker(
            self.joins.negated.as_slice(),
            self.negated.as_slice(),
            self.whole_row(number),
            arrivals,
            alpha,
            steps,
        )
    }

    /// Whether the element at a place stands in the way of the whole row with this number.
    pub(crate) fn blocks(&self, number: usize, place: u32, arrivals: &Arrivals) -> bool
        requires number { number < length (whole_rows self.now) }
        requires come { AllByRecursion (HaveCome arrivals.now.came) (whole_rows self.now) }
        requires place { place < length arrivals.now.came }
        ensures { (row : List ℕ) → slice_get (whole_rows self.now) number ≡ Some row → result ≡ blocks self.now.joins arrivals.now.came row place }
    {
        blocks(
            self.joins.negated.as_slice(),
            self.whole_row(number),
            place,
            arrivals,
        )
    }

    /// Weaves a place in at a positive condition element.
    pub(crate) fn weave<L: Ledger>(
        &mut self,
        at: usize,
        place: u32,
        arrivals: &Arrivals,
        alpha: &mut AlphaMemory,
        steps: &mut Steps<L>,
    ) -> Result<(), OutOfMemory>
        requires at { at < length self.old.joins.positives }
        requires passes { (join : Join) → slice_get self.old.joins.positives at ≡ Some join → passes_at join arrivals.now.came place ≡ true }
        requires below { AllByRecursion (λ p. p < length arrivals.now.came) arrivals.now.places }
        requires stores { AreStores self.old.joins.positives arrivals.now.came arrivals.now.places self.old.stores alpha.old }
        requires filed { AreFiled self.old.joins.positives arrivals.now.came arrivals.now.places self.old.levels }
        ensures ok { OnOk result ((width : ℕ) → rows_of self.new.levels width
            ≡ woven (joins_of self.old.joins.positives) arrivals.now.came arrivals.now.places place at (rows_of self.old.levels) width) }
        ensures joins { self.new.joins ≡ self.old.joins }
        ensures same_stores { self.new.stores ≡ self.old.stores }
        ensures same_negated { self.new.negated ≡ self.old.negated }
        ensures adds { OnlyAdds arrivals.now.came place (rows_of self.old.levels) (rows_of self.new.levels) }
        ensures filed { AreFiled self.old.joins.positives arrivals.now.came arrivals.now.places self.new.levels }
        ensures cleaned { AreCleaned arrivals.now.places alpha.old alpha.new }
        ensures steps { steps.new ≤ steps.old + rule_tried self.old arrivals.now.came arrivals.now.places place at }
    {
        let conditions = Conditions {
            joins: self.joins.positives.as_slice(),
            stores: self.stores.as_slice(),
            arrivals,
        };
        weave(
            &conditions,
            at,
            place,
            alpha,
            self.levels.as_mut_slice(),
            steps,
        )
    }

    /// How many rows there are in all levels, the dead ones too.
    pub(crate) fn count(&self) -> usize
        ensures { result ≡ min (rows_filed self.now.levels) (2 ^ 64 - 1) }
    {
        count_rows(self.levels.as_slice())
    }

    /// Packs all levels. After want of memory the first of them may be packed.
    pub(crate) fn pack(&mut self, alloc: Global, arrivals: &Arrivals) -> Result<(), OutOfMemory>
        requires filed { AreFiled self.old.joins.positives arrivals.now.came arrivals.now.places self.old.levels }
        ensures ok { OnOk result (IsPacked arrivals.now.places (rows_of self.old.levels) (rows_of self.new.levels)) }
        ensures repacked { IsRepacked arrivals.now.came arrivals.now.places self.old self.new }
    {
        let joins = self.joins.positives.as_slice();
        pack_levels(alloc, joins, arrivals, self.levels.as_mut_slice())
    }
}

/// Asks a store for each positive condition element. No row looks for the elements of the first one, so
/// its store keeps none.
fn ask_all(
    alloc: Global,
    joins: &[Join],
    alpha: &mut AlphaMemory,
) -> Result<Sequence<u32>, OutOfMemory>
    requires { AreBare alpha.old }
    ensures asked { IfOk result (AreAsked joins.now alpha.new) }
    ensures count { IfOk result (λ stores. length stores ≡ length joins.now) }
    ensures bare { AreBare alpha.new }
    ensures serve { GoesOn alpha.old alpha.new }
{
    let mut stores = Sequence::new(alloc);
    for number in 0..joins.len() {
        let join = &joins[number];
        let store = alpha.ask(alloc, &join.pattern, join.key.as_slice(), number > 0)?;
        stores.push(store)?;
    }
    Ok(stores)
}

/// Asks a store for each negated condition element. Rows look for all of their elements, so each store
/// keeps them.
fn ask_negated(
    alloc: Global,
    negated: &[Negated],
    alpha: &mut AlphaMemory,
) -> Result<Sequence<u32>, OutOfMemory>
    requires { AreBare alpha.old }
    ensures asked { IfOk result (AreNegatedAsked negated.now alpha.new) }
    ensures bare { AreBare alpha.new }
    ensures serve { GoesOn alpha.old alpha.new }
{
    let mut stores = Sequence::new(alloc);
    for number in 0..negated.len() {
        let one = &negated[number];
        let store = alpha.ask(alloc, &one.join.pattern, one.join.key.as_slice(), true)?;
        stores.push(store)?;
    }
    Ok(stores)
}
