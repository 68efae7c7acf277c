//! Looking for a candidate along the queue.

ghost use Rattle.std.specs.Prelude.{◌≡◌, ◌≢◌, ◌⊎◌, ℕ, List, IfOk, IfSome, MatchOption, None, Ok, Some, false, slice_get, true};
ghost use Rattle.match_network.specs.Negated.{whole_rows};
ghost use Rattle.conflict_parts.specs.declared.standing.RowId.{RowId};
ghost use Rattle.conflict_parts.specs.declared.standing.Standing.TheVariants.{Marked, Open};
ghost use Rattle.conflict_parts.specs.Part.{IsCandidate, IsLivingRow, IsPart, is_free_row};
ghost use Rattle.conflict_parts.specs.Standings.{is_marked, standing_at};

use crate::standing::{RowId, Standing, Standings};
use crate::waiters::Waiters;
use match_network::{Network, RuleLevels};
use ops_text::OutOfMemory;
use rule_base::Steps;
use std::sync::ledger::Ledger;

/// A full match that stands open, lives and is free: the last such of the queue, from which those behind
/// it are dropped. It stays in the queue. After want of memory all is as before, but for some that are
/// dropped or wait.
pub(crate) fn next_free<L: Ledger>(
    network: &mut Network,
    standings: &mut Standings,
    queue: &mut Vec<RowId>,
    waiters: &mut Waiters,
    steps: &mut Steps<L>,
) -> Result<Option<RowId>, OutOfMemory>
    requires { IsPart network.old standings.old queue.old.items waiters.old }
    ensures part { IsPart network.new standings.new queue.new.items waiters.new }
    ensures network { network.new ≡ network.old }
    ensures marks { (rule row : ℕ) → is_marked standings.new rule row ≡ is_marked standings.old rule row }
    ensures some { IfOk result (λ found. IfSome found (IsCandidate network.new standings.new)) }
    ensures none { result ≡ Ok None → (rule number : ℕ) (row : List ℕ) → IsLivingRow network.new rule number row
        → (standing_at standings.new rule number ≡ Some Marked) ⊎ (is_free_row network.new rule row ≡ false) }
{
    while let Some(last) = queue.last().copied() {
        if judge(network, standings, waiters, last, steps)? {
            return Ok(Some(last));
        }
        queue.pop();
    }
    Ok(None)
}

/// Whether a full match is a candidate. One that something stands in the way of waits for that.
fn judge<L: Ledger>(
    network: &mut Network,
    standings: &mut Standings,
    waiters: &mut Waiters,
    id: RowId,
    steps: &mut Steps<L>,
) -> Result<bool, OutOfMemory>
    ensures part { (queue : List RowId) → IsPart network.old standings.old queue waiters.old → IsPart network.new standings.new queue waiters.new }
    ensures network { network.new ≡ network.old }
    ensures marks { (rule row : ℕ) → is_marked standings.new rule row ≡ is_marked standings.old rule row }
    ensures yes { result ≡ Ok true → IsCandidate network.new standings.new id }
    ensures no { result ≡ Ok false → (row : List ℕ) → IsLivingRow network.new id.rule id.row row → standing_at standings.new id.rule id.row ≢ Some Open }
{
    if !is_open(standings.at(id)) || !lives(network, id) {
        return Ok(false);
    }
    match network.blocker(id.rule as usize, id.row as usize, steps) {
        Some(place) => {
            waiters.push(place, id)?;
            standings.set(id, Standing::Waiting(place));
            Ok(false)
        }
        None => Ok(true),
    }
}

/// Whether a full match stands open.
fn is_open(standing: Option<Standing>) -> bool
    ensures yes { result ≡ true → standing ≡ Some Open }
    ensures no { result ≡ false → standing ≢ Some Open }
{
    match standing {
        Some(Standing::Open) => true,
        _ => false,
    }
}

/// Whether a full match is there, and its elements are in working memory.
pub(crate) fn lives(network: &Network, id: RowId) -> bool
    ensures yes { result ≡ true → (row : List ℕ) × IsLivingRow network.now id.rule id.row row }
    ensures no { result ≡ false → (row : List ℕ) → IsLivingRow network.now id.rule id.row row → ⊥ }
{
    let rule = id.rule as usize;
    if rule >= network.len() {
        return false;
    }
    match row_of(network.rule(rule), id.row as usize) {
        Some(row) => network.arrivals().have(row),
        None => false,
    }
}

/// The full row with this number, if there is one.
fn row_of(rule: &RuleLevels, number: usize) -> Option<&[u32]>
    ensures { MatchOption result (slice_get (whole_rows rule.now) number ≡ None) (λ row. slice_get (whole_rows rule.now) number ≡ Some row.now) }
{
    if number < rule.whole_count() {
        Some(rule.whole_row(number))
    } else {
        None
    }
}
