//! One condition element's stage: rows that its elements join go on to the next level.

ghost use Rattle.std.specs.Prelude.{◌≡◌, ℕ, ◌+◌, ◌<◌, ◌≤◌, [], ◌∷◌, ◌&&◌, drop, if◌then◌else◌, OnErr, OnOk, length, map, reverse, true};
ghost use Rattle.std.specs.List.{AllByRecursion};
ghost use Rattle.rule_base.specs.Numbers.{has_number};
ghost use Rattle.rule_base.specs.Views.{element_in};
ghost use Rattle.join_tests.specs.Joining.{same_key};
ghost use Rattle.hash_buckets.specs.Buckets.{numbers_of};
ghost use Rattle.match_network.specs.Conditions.{AreCleaned, IsServed};
ghost use Rattle.match_network.specs.Filed.{IsFiled, only, passes_at, row_at, with_rows};
ghost use Rattle.match_network.specs.Joining.{agrees, agrees_at, extended, taken, takes};
ghost use Rattle.match_network.specs.Levels.{HaveCome};
ghost use Rattle.match_network.specs.SoFar.{IsPart};
ghost use Rattle.match_network.specs.Tried.{has_key, pairs_tried, places_tried, rows_tried, tries};
ghost use Rattle.alpha_memory.specs.Times.{times};
ghost use Rattle.match_network.specs.Woven.{grown, joined, offered, with_place};

use crate::row_view::RowView;
use crate::{Arrivals, Level, Rows};
use alpha_memory::{AlphaMemory, AlphaStore};
use join_tests::{Join, element_hash, row_hash, same_key, tests_hold};
use ops_text::OutOfMemory;
use rule_base::{ElementView, Steps};
use std::sync::ledger::Ledger;

/// A positive condition element, those that follow it, and the elements that came.
#[derive(Drop)]
pub(crate) struct Stage<'a> {
    pub(crate) join: &'a Join,
    pub(crate) next: &'a [Join],
    pub(crate) arrivals: &'a Arrivals,
}

/// Whether an element agrees with a row, in its key and in its other tests. It counts a step where the
/// keys agree.
fn agrees<L: Ledger>(
    join: &Join,
    row: &RowView<'_>,
    element: ElementView<'_>,
    steps: &mut Steps<L>,
) -> bool
    ensures answer { result ≡ agrees join.now row.now (element_in element.entry) }
    ensures steps { steps.new ≡ steps.old + (if same_key join.now.key row.now (element_in element.entry) then 1 else 0) }
{
    if !same_key(join.key.as_slice(), row, element) {
        return false;
    }
    steps.tick();
    tests_hold(join.tests.as_slice(), row, element)
}

/// Whether a place is in a row.
fn has_place(row: &[u32], place: u32) -> bool
    ensures { result ≡ has_number row.now place }
{
    row.iter().any(|other| *other == place)
}

/// Whether the element at a place agrees with those of a row.
pub(crate) fn agrees_at<L: Ledger>(
    stage: &Stage<'_>,
    row: &[u32],
    place: u32,
    steps: &mut Steps<L>,
) -> bool
    requires come { HaveCome stage.now.arrivals.now.came row.now }
    requires place { place < length stage.now.arrivals.now.came }
    ensures answer { result ≡ agrees_at stage.now.join.now stage.now.arrivals.now.came row.now place }
    ensures steps { steps.new ≡ steps.old + (if has_key stage.now.join.now stage.now.arrivals.now.came row.now place then 1 else 0) }
{
    let element = stage.arrivals.at(place);
    agrees(
        stage.join,
        &RowView::new(row, stage.arrivals),
        element,
        steps,
    )
}

/// Whether a row is without a place, and the element there agrees with its own.
fn takes<L: Ledger>(stage: &Stage<'_>, row: &[u32], place: u32, steps: &mut Steps<L>) -> bool
    requires come { HaveCome stage.now.arrivals.now.came row.now }
    requires place { place < length stage.now.arrivals.now.came }
    ensures answer { result ≡ takes stage.now.join.now stage.now.arrivals.now.came place row.now }
    ensures steps { steps.new ≡ steps.old + (if tries stage.now.join.now stage.now.arrivals.now.came place row.now then 1 else 0) }
{
    !has_place(row, place) && agrees_at(stage, row, place, steps)
}

/// Adds the row with this number and a place to the next level, if the row takes the place.
fn take_place<L: Ledger>(
    stage: &Stage<'_>,
    before: &Level,
    number: u32,
    place: u32,
    after: &mut Level,
    steps: &mut Steps<L>,
) -> Result<(), OutOfMemory>
    requires number { number < length before.now.rows }
    requires come { AllByRecursion (HaveCome stage.now.arrivals.now.came) before.now.rows }
    requires place { place < length stage.now.arrivals.now.came }
    requires width { before.now.width + 1 ≡ after.old.width }
    ensures ok { OnOk result (after.new ≡ with_rows stage.now.next.now stage.now.arrivals.now.came after.old
        (taken stage.now.join.now stage.now.arrivals.now.came place before.now.rows (number ∷ []))) }
    ensures err { OnErr result (after.new ≡ after.old) }
    ensures steps { steps.new ≤ steps.old + times (tries stage.now.join.now stage.now.arrivals.now.came place) (map (row_at before.now.rows) (number ∷ [])) }
{
    let row = before.row(number);
    if !takes(stage, row, place, steps) {
        return Ok(());
    }
    after.push(row, place, stage.next, stage.arrivals)
}

/// Adds a row and a place to the next level, if the element there agrees with those of the row.
pub(crate) fn extend<L: Ledger>(
    stage: &Stage<'_>,
    row: &[u32],
    place: u32,
    after: &mut Level,
    steps: &mut Steps<L>,
) -> Result<(), OutOfMemory>
    requires come { HaveCome stage.now.arrivals.now.came row.now }
    requires place { place < length stage.now.arrivals.now.came }
    requires width { length row.now + 1 ≡ after.old.width }
    ensures ok { OnOk result (after.new ≡ with_rows stage.now.next.now stage.now.arrivals.now.came after.old
        (extended stage.now.join.now stage.now.arrivals.now.came row.now (place ∷ []))) }
    ensures err { OnErr result (after.new ≡ after.old) }
    ensures steps { steps.new ≤ steps.old + times (has_key stage.now.join.now stage.now.arrivals.now.came row.now) (place ∷ []) }
{
    if !agrees_at(stage, row, place, steps) {
        return Ok(());
    }
    after.push(row, place, stage.next, stage.arrivals)
}

/// Adds the rows of a bucket that take a place, each with it, to the next level.
fn take_place_in<L: Ledger>(
    stage: &Stage<'_>,
    hash: u64,
    before: &Level,
    place: u32,
    after: &mut Level,
    steps: &mut Steps<L>,
) -> Result<(), OutOfMemory>
    requires numbered { AllByRecursion (λ (e : ℕ × ℕ). e.1 < length before.now.rows) before.now.entries }
    requires come { AllByRecursion (HaveCome stage.now.arrivals.now.came) before.now.rows }
    requires place { place < length stage.now.arrivals.now.came }
    requires width { before.now.width + 1 ≡ after.old.width }
    ensures ok { OnOk result (after.new ≡ with_rows stage.now.next.now stage.now.arrivals.now.came after.old
        (taken stage.now.join.now stage.now.arrivals.now.came place before.now.rows (reverse (numbers_of before.now.entries hash)))) }
    ensures err { OnErr result (IsPart stage.now.next.now stage.now.arrivals.now.came after.old after.new
        (taken stage.now.join.now stage.now.arrivals.now.came place before.now.rows (reverse (numbers_of before.now.entries hash)))) }
    ensures steps { steps.new ≤ steps.old + times (tries stage.now.join.now stage.now.arrivals.now.came place) (map (row_at before.now.rows) (reverse (numbers_of before.now.entries hash))) }
{
    for number in before.bucket(hash) {
        take_place(stage, before, number, place, after, steps)?;
    }
    Ok(())
}

/// Adds a row with each place of a bucket whose element agrees with its own to the next level.
fn extend_by<L: Ledger>(
    stage: &Stage<'_>,
    row: &[u32],
    hash: u64,
    store: &AlphaStore,
    after: &mut Level,
    steps: &mut Steps<L>,
) -> Result<(), OutOfMemory>
    requires have_come { AllByRecursion (λ (e : ℕ × ℕ). e.1 < length stage.now.arrivals.now.came) store.now.entries }
    requires come { HaveCome stage.now.arrivals.now.came row.now }
    requires width { length row.now + 1 ≡ after.old.width }
    ensures ok { OnOk result (after.new ≡ with_rows stage.now.next.now stage.now.arrivals.now.came after.old
        (extended stage.now.join.now stage.now.arrivals.now.came row.now (reverse (numbers_of store.now.entries hash)))) }
    ensures err { OnErr result (IsPart stage.now.next.now stage.now.arrivals.now.came after.old after.new
        (extended stage.now.join.now stage.now.arrivals.now.came row.now (reverse (numbers_of store.now.entries hash)))) }
    ensures steps { steps.new ≤ steps.old + times (has_key stage.now.join.now stage.now.arrivals.now.came row.now) (reverse (numbers_of store.now.entries hash)) }
{
    for place in store.bucket(hash) {
        extend(stage, row, place, after, steps)?;
    }
    Ok(())
}

/// Adds each row of a level that takes a place, with it, to the next level. The bucket that it looks
/// into is cleaned of dead rows first.
pub(crate) fn join_place<L: Ledger>(
    stage: &Stage<'_>,
    place: u32,
    before: &mut Level,
    after: &mut Level,
    steps: &mut Steps<L>,
) -> Result<(), OutOfMemory>
    requires filed { IsFiled (stage.now.join.now ∷ stage.now.next.now) stage.now.arrivals.now.came stage.now.arrivals.now.places before.old }
    requires come { AllByRecursion (HaveCome stage.now.arrivals.now.came) before.old.rows }
    requires passes { passes_at stage.now.join.now stage.now.arrivals.now.came place ≡ true }
    requires width { before.old.width + 1 ≡ after.old.width }
    ensures ok { OnOk result (after.new ≡ with_rows stage.now.next.now stage.now.arrivals.now.came after.old
        (map (with_place place) (joined (only stage.now.join.now) stage.now.arrivals.now.came stage.now.arrivals.now.places place before.old.rows))) }
    ensures err { OnErr result (IsPart stage.now.next.now stage.now.arrivals.now.came after.old after.new
        (map (with_place place) (joined (only stage.now.join.now) stage.now.arrivals.now.came stage.now.arrivals.now.places place before.old.rows))) }
    ensures rows { (before.new.rows ≡ before.old.rows) × (before.new.width ≡ before.old.width) }
    ensures filed { IsFiled (stage.now.join.now ∷ stage.now.next.now) stage.now.arrivals.now.came stage.now.arrivals.now.places before.new }
    ensures steps { steps.new ≤ steps.old + rows_tried stage.now.join.now stage.now.arrivals.now.came stage.now.arrivals.now.places place before.old.rows }
{
    let element = stage.arrivals.at(place);
    let hash = element_hash(stage.join.key.as_slice(), element);
    before.clean(hash, stage.arrivals);
    take_place_in(stage, hash, before, place, after, steps)
}

/// Adds a row with each place of a store whose element joins its own to the next level. The bucket that
/// it looks into is cleaned of dead elements first.
fn extend_row<L: Ledger>(
    stage: &Stage<'_>,
    row: &[u32],
    store: u32,
    alpha: &mut AlphaMemory,
    after: &mut Level,
    steps: &mut Steps<L>,
) -> Result<(), OutOfMemory>
    requires served { IsServed stage.now.join.now true stage.now.arrivals.now.came stage.now.arrivals.now.places alpha.old store }
    requires come { HaveCome stage.now.arrivals.now.came row.now }
    requires width { length row.now + 1 ≡ after.old.width }
    ensures ok { OnOk result (after.new ≡ with_rows stage.now.next.now stage.now.arrivals.now.came after.old
        (map (λ p. with_place p row.now) (offered (only stage.now.join.now) stage.now.arrivals.now.came stage.now.arrivals.now.places row.now))) }
    ensures err { OnErr result (IsPart stage.now.next.now stage.now.arrivals.now.came after.old after.new
        (map (λ p. with_place p row.now) (offered (only stage.now.join.now) stage.now.arrivals.now.came stage.now.arrivals.now.places row.now))) }
    ensures stores { AreCleaned stage.now.arrivals.now.places alpha.old alpha.new }
    ensures steps { steps.new ≤ steps.old + places_tried stage.now.join.now stage.now.arrivals.now.came stage.now.arrivals.now.places row.now }
{
    let hash = row_hash(
        stage.join.key.as_slice(),
        &RowView::new(row, stage.arrivals),
    );
    alpha.clean(store, hash, stage.arrivals);
    let kept = alpha.store(store);
    extend_by(stage, row, hash, kept, after, steps)
}

/// Adds the rows of a level from this number on, each with each place of a store whose element joins
/// its own, to the next level.
pub(crate) fn grow<L: Ledger>(
    stage: &Stage<'_>,
    from: &Rows,
    first: usize,
    store: u32,
    alpha: &mut AlphaMemory,
    after: &mut Level,
    steps: &mut Steps<L>,
) -> Result<(), OutOfMemory>
    requires served { IsServed stage.now.join.now true stage.now.arrivals.now.came stage.now.arrivals.now.places alpha.old store }
    requires come { AllByRecursion (HaveCome stage.now.arrivals.now.came) from.now.rows }
    requires width { from.now.width + 1 ≡ after.old.width }
    requires first { first ≤ length from.now.rows }
    ensures ok { OnOk result (after.new ≡ with_rows stage.now.next.now stage.now.arrivals.now.came after.old
        (grown (only stage.now.join.now) stage.now.arrivals.now.came stage.now.arrivals.now.places (drop first from.now.rows))) }
    ensures err { OnErr result (IsPart stage.now.next.now stage.now.arrivals.now.came after.old after.new
        (grown (only stage.now.join.now) stage.now.arrivals.now.came stage.now.arrivals.now.places (drop first from.now.rows))) }
    ensures stores { AreCleaned stage.now.arrivals.now.places alpha.old alpha.new }
    ensures steps { steps.new ≤ steps.old + pairs_tried stage.now.join.now stage.now.arrivals.now.came stage.now.arrivals.now.places (drop first from.now.rows) }
{
    for number in first..from.len() {
        extend_row(stage, from.at(number), store, alpha, after, steps)?;
    }
    Ok(())
}
