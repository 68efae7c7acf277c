//! New full matches stand open and come into the queue.

ghost use Rattle.std.specs.Prelude.{◌≡◌, ℕ, ◌<◌, OnOk, length, true};
ghost use Rattle.std.specs.List.{list_any};
ghost use Rattle.match_network.specs.Touched.{is_of};
ghost use Rattle.conflict_parts.specs.Change.{HasOpened, IsCovered};
ghost use Rattle.conflict_parts.specs.Part.{AreNoMore};

use crate::queue::open_one;
use crate::standing::{RowId, Standings};
use match_network::Network;
use ops_text::OutOfMemory;

/// Opens the full matches of all rules.
pub(crate) fn open_all(
    network: &Network,
    standings: &mut Standings,
    queue: &mut Vec<RowId>,
) -> Result<(), OutOfMemory>
    requires count { length standings.old ≡ length network.now.rules }
    requires no_more { AreNoMore network.now.rules standings.old }
    ensures opened { HasOpened network.now.rules standings.old queue.old.items standings.new queue.new.items }
    ensures all { OnOk result ((rule : ℕ) → IsCovered network.now.rules standings.new rule) }
{
    for rule in 0..network.len() {
        open_new(network, rule, standings, queue)?;
    }
    Ok(())
}

/// Opens the full matches that the last element made, and others of the same rules that have come since
/// they were last opened. After want of memory some are open.
pub(crate) fn open_due(
    network: &Network,
    standings: &mut Standings,
    queue: &mut Vec<RowId>,
) -> Result<(), OutOfMemory>
    requires count { length standings.old ≡ length network.now.rules }
    requires no_more { AreNoMore network.now.rules standings.old }
    ensures opened { HasOpened network.now.rules standings.old queue.old.items standings.new queue.new.items }
    ensures all { OnOk result ((rule : ℕ) → list_any (is_of rule) network.now.due ≡ true → IsCovered network.now.rules standings.new rule) }
{
    let due = network.due();
    for asker in due {
        open_rule(network, asker.rule, standings, queue)?;
    }
    Ok(())
}

/// Opens the full matches of the rule with this number, if there is such a rule.
fn open_rule(
    network: &Network,
    rule: usize,
    standings: &mut Standings,
    queue: &mut Vec<RowId>,
) -> Result<(), OutOfMemory>
    requires count { length standings.old ≡ length network.now.rules }
    requires no_more { AreNoMore network.now.rules standings.old }
    ensures opened { HasOpened network.now.rules standings.old queue.old.items standings.new queue.new.items }
    ensures all { OnOk result (IsCovered network.now.rules standings.new rule) }
{
    if rule < network.len() {
        open_new(network, rule, standings, queue)
    } else {
        Ok(())
    }
}

/// Opens the full matches of a rule that don't stand yet.
fn open_new(
    network: &Network,
    rule: usize,
    standings: &mut Standings,
    queue: &mut Vec<RowId>,
) -> Result<(), OutOfMemory>
    requires rule { rule < length network.now.rules }
    requires count { length standings.old ≡ length network.now.rules }
    requires no_more { AreNoMore network.now.rules standings.old }
    ensures opened { HasOpened network.now.rules standings.old queue.old.items standings.new queue.new.items }
    ensures all { OnOk result (IsCovered network.now.rules standings.new rule) }
{
    let count = network.rule(rule).whole_count();
    while standings.count(rule) < count {
        open_one(rule, standings, queue)?;
    }
    Ok(())
}
