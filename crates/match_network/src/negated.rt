//! What stands in the way of a row: an element that joins it at a negated condition element.

ghost use Rattle.std.specs.Prelude.{◌≡◌, ◌+◌, ◌<◌, ◌≤◌, IfSome, None, false, length, reverse, take, true};
ghost use Rattle.std.specs.List.{AllByRecursion, list_all, list_any};
ghost use Rattle.rule_base.specs.Numbers.{has_number};
ghost use Rattle.hash_buckets.specs.Buckets.{numbers_of};
ghost use Rattle.join_tests.specs.declared.joins.Negated.{Negated};
ghost use Rattle.join_tests.specs.Meaning.{is_free};
ghost use Rattle.alpha_memory.specs.Times.{times};
ghost use Rattle.match_network.specs.Conditions.{AreCleaned, IsServed};
ghost use Rattle.match_network.specs.Joining.{agrees_at};
ghost use Rattle.match_network.specs.Levels.{HaveCome};
ghost use Rattle.match_network.specs.Negated.{AreNegatedStores, blockers_tried, blocks_at};
ghost use Rattle.match_network.specs.Row.{elements_of};
ghost use Rattle.match_network.specs.Tried.{has_key, places_tried};

use crate::Arrivals;
use crate::row_view::RowView;
use crate::stage::{Stage, agrees_at};
use alpha_memory::{AlphaMemory, AlphaStore};
use join_tests::{Negated, row_hash};
use rule_base::Steps;
use std::sync::ledger::Ledger;

/// The first so many places of a row, or all of them.
fn first_places(row: &[u32], count: usize) -> &[u32]
    ensures { result.now ≡ take count row.now }
{
    if count < row.len() {
        &row[..count]
    } else {
        row
    }
}

/// A place of a bucket whose element agrees with a row, if there is one.
fn find_in<L: Ledger>(
    stage: &Stage<'_>,
    row: &[u32],
    hash: u64,
    store: &AlphaStore,
    steps: &mut Steps<L>,
) -> Option<u32>
    requires have_come { AllByRecursion (λ e. e.1 < length stage.now.arrivals.now.came) store.now.entries }
    requires come { HaveCome stage.now.arrivals.now.came row.now }
    ensures filed { IfSome result (λ place. has_number (reverse (numbers_of store.now.entries hash)) place ≡ true) }
    ensures agrees { IfSome result (λ place. agrees_at stage.now.join.now stage.now.arrivals.now.came row.now place ≡ true) }
    ensures none { result ≡ None → list_any (agrees_at stage.now.join.now stage.now.arrivals.now.came row.now) (reverse (numbers_of store.now.entries hash)) ≡ false }
    ensures steps { steps.new ≤ steps.old + times (has_key stage.now.join.now stage.now.arrivals.now.came row.now) (reverse (numbers_of store.now.entries hash)) }
{
    for place in store.bucket(hash) {
        if agrees_at(stage, row, place, steps) {
            return Some(place);
        }
    }
    None
}

/// The place of an element in working memory that joins a row at a negated condition element, if there is
/// one. The bucket that it looks into is cleaned of dead elements first.
fn find_one<L: Ledger>(
    negated: &Negated,
    store: u32,
    row: &[u32],
    arrivals: &Arrivals,
    alpha: &mut AlphaMemory,
    steps: &mut Steps<L>,
) -> Option<u32>
    requires served { IsServed negated.now.join true arrivals.now.came arrivals.now.places alpha.old store }
    requires come { HaveCome arrivals.now.came row.now }
    ensures there { IfSome result (λ place. has_number arrivals.now.places place ≡ true) }
    ensures blocks { IfSome result (λ place. blocks_at negated.now arrivals.now.came row.now place ≡ true) }
    ensures none { result ≡ None → is_free (elements_of arrivals.now.came arrivals.now.places) (elements_of arrivals.now.came row.now) negated.now ≡ true }
    ensures cleaned { AreCleaned arrivals.now.places alpha.old alpha.new }
    ensures steps { steps.new ≤ steps.old + places_tried negated.now.join arrivals.now.came arrivals.now.places (take negated.now.after row.now) }
{
    let before = first_places(row, negated.after);
    let stage = Stage {
        join: &negated.join,
        next: &[],
        arrivals,
    };
    let hash = row_hash(negated.join.key.as_slice(), &RowView::new(before, arrivals));
    alpha.clean(store, hash, arrivals);
    let kept = alpha.store(store);
    find_in(&stage, before, hash, kept, steps)
}

/// The place of an element in working memory that stands in the way of a row, if there is one: it joins
/// the row at one of these negated condition elements, which these stores serve. It counts a step for each
/// element that agrees in the key.
pub(crate) fn find_blocker<L: Ledger>(
    negated: &[Negated],
    stores: &[u32],
    row: &[u32],
    arrivals: &Arrivals,
    alpha: &mut AlphaMemory,
    steps: &mut Steps<L>,
) -> Option<u32>
    requires served { AreNegatedStores negated.now arrivals.now.came arrivals.now.places stores.now alpha.old }
    requires come { HaveCome arrivals.now.came row.now }
    ensures there { IfSome result (λ place. has_number arrivals.now.places place ≡ true) }
    ensures blocks { IfSome result (λ place. list_any (λ (n : Negated). blocks_at n arrivals.now.came row.now place) negated.now ≡ true) }
    ensures none { result ≡ None → list_all (is_free (elements_of arrivals.now.came arrivals.now.places) (elements_of arrivals.now.came row.now)) negated.now ≡ true }
    ensures cleaned { AreCleaned arrivals.now.places alpha.old alpha.new }
    ensures steps { steps.new ≤ steps.old + blockers_tried negated.now arrivals.now.came arrivals.now.places row.now }
{
    for number in 0..negated.len() {
        if let Some(place) = find_one(
            &negated[number],
            stores[number],
            row,
            arrivals,
            alpha,
            steps,
        ) {
            return Some(place);
        }
    }
    None
}

/// Whether the element at a place joins a row at a negated condition element.
fn blocks_at(negated: &Negated, row: &[u32], place: u32, arrivals: &Arrivals) -> bool
    requires come { HaveCome arrivals.now.came row.now }
    requires place { place < length arrivals.now.came }
    ensures { result ≡ blocks_at negated.now arrivals.now.came row.now place }
{
    let first = RowView::new(first_places(row, negated.after), arrivals);
    negated.join.admits(&first, arrivals.at(place))
}

/// Whether the element at a place stands in the way of a row, at one of these negated condition elements.
pub(crate) fn blocks(negated: &[Negated], row: &[u32], place: u32, arrivals: &Arrivals) -> bool
    requires come { HaveCome arrivals.now.came row.now }
    requires place { place < length arrivals.now.came }
    ensures { result ≡ list_any (λ (n : Negated). blocks_at n arrivals.now.came row.now place) negated.now }
{
    negated
        .iter()
        .any(|one| blocks_at(one, row, place, arrivals))
}
