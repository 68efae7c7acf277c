//! The marks of full matches end where an element comes that stands in their way.

ghost use Rattle.std.specs.Prelude.{◌≡◌, ℕ, ◌<◌, [], List, OnErr, OnOk, Some, false, if◌then◌else◌, length, slice_index_or, true};
ghost use Rattle.std.specs.List.{list_any};
ghost use Rattle.std.specs.Option.{option_map, option_map_or};
ghost use Rattle.match_network.specs.Touched.{is_of};
ghost use Rattle.conflict_parts.specs.declared.standing.Standing.{Standing};
ghost use Rattle.conflict_parts.specs.declared.standing.Standing.TheVariants.{Open};
ghost use Rattle.conflict_parts.specs.Change.{HasOpened};
ghost use Rattle.conflict_parts.specs.Marks.{blocks_row};
ghost use Rattle.conflict_parts.specs.Part.{AreNoMore, IsLivingRow, full_row};
ghost use Rattle.conflict_parts.specs.Queue.{is_queued};
ghost use Rattle.conflict_parts.specs.Renewing.{AllAreNoted, AreDue, AreNoted, IsRenewed, IsSettled, behind};
ghost use Rattle.conflict_parts.specs.Standings.{has_fired, is_marked, standing_at};

use crate::candidates::lives;
use crate::opening::open_due;
use crate::standing::{RowId, Standing, Standings};
use match_network::Network;
use ops_text::OutOfMemory;
use rule_base::Refraction;

/// Opens the full matches that the last element made, and ends the marks that end as it comes, to this
/// place. After want of memory no mark has ended.
pub(crate) fn settle(
    refraction: Refraction,
    network: &Network,
    place: u32,
    standings: &mut Standings,
    queue: &mut Vec<RowId>,
) -> Result<(), OutOfMemory>
    requires count { length standings.old ≡ length network.now.rules }
    requires no_more { AreNoMore network.now.rules standings.old }
    requires place { place < length network.now.arrivals.came }
    requires due { AreDue network.now place }
    ensures ok { OnOk result (IsSettled refraction network.now place standings.old queue.old.items standings.new queue.new.items) }
    ensures err { OnErr result (HasOpened network.now.rules standings.old queue.old.items standings.new queue.new.items) }
{
    open_due(network, standings, queue)?;
    renew(refraction, network, place, standings, queue)
}

/// Ends the marks that end as the element at a place comes, the last one: their full matches stand open and
/// are in the queue. After want of memory all stand as before, and some are in the queue.
fn renew(
    refraction: Refraction,
    network: &Network,
    place: u32,
    standings: &mut Standings,
    queue: &mut Vec<RowId>,
) -> Result<(), OutOfMemory>
    requires place { place < length network.now.arrivals.came }
    requires due { AreDue network.now place }
    ensures ok { OnOk result (IsRenewed refraction network.now place standings.old queue.old.items standings.new queue.new.items) }
    ensures err { OnErr result (standings.new ≡ standings.old) }
    ensures noted { AreNoted network.now place queue.old.items queue.new.items }
{
    match refraction {
        Refraction::Once => Ok(()),
        Refraction::Renewed => {
            let before = queue.len();
            note_due(network, place, standings, queue)?;
            open_each(&queue[before..], standings);
            Ok(())
        }
    }
}

/// Notes in the queue the full matches whose marks end, of the rules with a negated condition element that
/// the last element passed.
fn note_due(
    network: &Network,
    place: u32,
    standings: &Standings,
    queue: &mut Vec<RowId>,
) -> Result<(), OutOfMemory>
    requires { place < length network.now.arrivals.came }
    ensures noted { AreNoted network.now place queue.old.items queue.new.items }
    ensures all { OnOk result ((rule : ℕ) → list_any (is_of rule) network.now.negated_due ≡ true
        → AllAreNoted network.now place standings.now rule queue.old.items queue.new.items) }
{
    let due = network.negated_due();
    for asker in due {
        note_rule(network, asker.rule, place, standings, queue)?;
    }
    Ok(())
}

/// Notes those of one rule, if there is such a rule.
fn note_rule(
    network: &Network,
    rule: usize,
    place: u32,
    standings: &Standings,
    queue: &mut Vec<RowId>,
) -> Result<(), OutOfMemory>
    requires { place < length network.now.arrivals.came }
    ensures noted { AreNoted network.now place queue.old.items queue.new.items }
    ensures all { OnOk result (AllAreNoted network.now place standings.now rule queue.old.items queue.new.items) }
{
    if rule < network.len() {
        note_rows(network, rule, place, standings, queue)
    } else {
        Ok(())
    }
}

/// Notes those of the rule with this number.
fn note_rows(
    network: &Network,
    rule: usize,
    place: u32,
    standings: &Standings,
    queue: &mut Vec<RowId>,
) -> Result<(), OutOfMemory>
    requires rule { rule < length network.now.rules }
    requires place { place < length network.now.arrivals.came }
    ensures noted { AreNoted network.now place queue.old.items queue.new.items }
    ensures all { OnOk result (AllAreNoted network.now place standings.now rule queue.old.items queue.new.items) }
{
    if rule > u32::MAX as usize {
        return Err(OutOfMemory);
    }
    for row in 0..network.rule(rule).whole_count() {
        let id = RowId {
            rule: rule as u32,
            row: row as u32,
        };
        note_one(network, id, place, standings, queue)?;
    }
    Ok(())
}

/// Notes a full match, if its mark ends.
fn note_one(
    network: &Network,
    id: RowId,
    place: u32,
    standings: &Standings,
    queue: &mut Vec<RowId>,
) -> Result<(), OutOfMemory>
    requires { place < length network.now.arrivals.came }
    ensures noted { AreNoted network.now place queue.old.items queue.new.items }
    ensures ok { OnOk result ((row : List ℕ) → IsLivingRow network.now id.rule id.row row → is_marked standings.now id.rule id.row ≡ true
        → blocks_row network.now id.rule row place ≡ true → is_queued (behind queue.old.items queue.new.items) id.rule id.row ≡ true) }
{
    if mark_ends(network, id, place, standings) {
        queue.push(id)?;
    }
    Ok(())
}

/// Whether a full match is marked and its elements are in working memory, and the element at a place
/// stands in its way.
fn mark_ends(network: &Network, id: RowId, place: u32, standings: &Standings) -> bool
    requires { place < length network.now.arrivals.came }
    ensures yes { result ≡ true → (row : List ℕ) → full_row network.now.rules id.rule id.row ≡ Some row → blocks_row network.now id.rule row place ≡ true }
    ensures no { result ≡ false → (row : List ℕ) → IsLivingRow network.now id.rule id.row row → is_marked standings.now id.rule id.row ≡ true
        → blocks_row network.now id.rule row place ≡ false }
{
    if !has_fired(standings.at(id)) || !lives(network, id) {
        return false;
    }
    network.blocks(id.rule as usize, id.row as usize, place)
}

/// Whether a full match that stands so has fired.
fn has_fired(standing: Option<Standing>) -> bool
    ensures { result ≡ option_map_or has_fired standing false }
{
    match standing {
        Some(Standing::Marked) => true,
        _ => false,
    }
}

/// Lets these full matches stand open, those of them that are there.
fn open_each(ids: &[RowId], standings: &mut Standings)
    ensures count { length standings.new ≡ length standings.old }
    ensures lengths { (rule : ℕ) → length (slice_index_or standings.new rule []) ≡ length (slice_index_or standings.old rule []) }
    ensures each { (rule row : ℕ) → standing_at standings.new rule row
        ≡ (if is_queued ids.now rule row then option_map (λ (s : Standing). Open) (standing_at standings.old rule row) else standing_at standings.old rule row) }
{
    for id in ids {
        standings.set(*id, Standing::Open);
    }
}
