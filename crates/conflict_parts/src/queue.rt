//! The queue of full matches that are to be looked at. It knows no rows.

ghost use Rattle.std.specs.Prelude.{◌≡◌, ◌≢◌, ℕ, ◌+◌, ◌<◌, [], OnErr, OnOk, Some, false, length, slice_index_or, true};
ghost use Rattle.conflict_parts.specs.declared.standing.Standing.TheVariants.{Open, Waiting};
ghost use Rattle.conflict_parts.specs.Queue.{IsOpened, has_waiter};
ghost use Rattle.conflict_parts.specs.Standings.{standing_at, with_standing};

use crate::standing::{RowId, Standing, Standings};
use crate::waiters::Waiters;
use ops_text::OutOfMemory;

/// Adds the next full match of a rule, which stands open and is in the queue. After want of memory how
/// they stand is as before.
pub(crate) fn open_one(
    rule: usize,
    standings: &mut Standings,
    queue: &mut Vec<RowId>,
) -> Result<(), OutOfMemory>
    requires { rule < length standings.old }
    ensures opened { IsOpened standings.old queue.old.items standings.new queue.new.items }
    ensures ok { OnOk result (standings.new ≡ with_standing standings.old rule Open) }
    ensures err { OnErr result (standings.new ≡ standings.old) }
{
    let row = standings.count(rule);
    if rule > u32::MAX as usize || row > u32::MAX as usize {
        return Err(OutOfMemory);
    }
    queue.push(RowId {
        rule: rule as u32,
        row: row as u32,
    })?;
    standings.push(rule, Standing::Open)
}

/// Wakes a full match, if it waits at this place.
fn wake_one(
    id: RowId,
    place: u32,
    standings: &mut Standings,
    queue: &mut Vec<RowId>,
) -> Result<(), OutOfMemory>
    ensures opened { IsOpened standings.old queue.old.items standings.new queue.new.items }
    ensures lengths { (rule : ℕ) → length (slice_index_or standings.new rule []) ≡ length (slice_index_or standings.old rule []) }
    ensures ok { OnOk result (standing_at standings.new id.rule id.row ≢ Some (Waiting place)) }
{
    if waits_at(standings.at(id), place) {
        queue.push(id)?;
        standings.set(id, Standing::Open);
    }
    Ok(())
}

/// Whether a full match that stands so waits at this place.
fn waits_at(standing: Option<Standing>, place: u32) -> bool
    ensures yes { result ≡ true → standing ≡ Some (Waiting place) }
    ensures no { result ≡ false → standing ≢ Some (Waiting place) }
{
    match standing {
        Some(Standing::Waiting(at)) => at == place,
        _ => false,
    }
}

/// Wakes those who wait at a place: they stand open and are in the queue. After want of memory some are
/// woken, and the others wait.
pub(crate) fn wake(
    waiters: &Waiters,
    place: u32,
    standings: &mut Standings,
    queue: &mut Vec<RowId>,
) -> Result<(), OutOfMemory>
    ensures opened { IsOpened standings.old queue.old.items standings.new queue.new.items }
    ensures lengths { (rule : ℕ) → length (slice_index_or standings.new rule []) ≡ length (slice_index_or standings.old rule []) }
    ensures woken { OnOk result ((rule row : ℕ) → has_waiter waiters.now place rule row ≡ true → standing_at standings.new rule row ≢ Some (Waiting place)) }
{
    for id in waiters.at(place) {
        wake_one(id, place, standings, queue)?;
    }
    Ok(())
}
