//! Packing: dead rows and dead links go, and their memory is freed. What lives is as before.

ghost use Rattle.std.specs.Prelude.{◌≡◌, ◌+◌, ◌<◌, OnErr, OnOk, Some, drop, length, map, slice_get, slice_set};
ghost use Rattle.std.specs.List.{AllByRecursion};
ghost use Rattle.rule_base.specs.Numbers.{has_number};
ghost use Rattle.alpha_memory.specs.Stores.{packed as store_packed};
ghost use Rattle.match_network.specs.Conditions.{AreCleaned, AreFiled, level_at, rows_of};
ghost use Rattle.match_network.specs.Filed.{packed};
ghost use Rattle.match_network.specs.Packing.{ArePacked, AreRepacked, IsPacked, IsPartlyPacked, IsRepackedAt};
ghost use Rattle.match_network.specs.Rules.{RuleRows};

use crate::{Arrivals, Level, RuleLevels};
use alpha_memory::AlphaMemory;
use join_tests::Join;
use ops_text::OutOfMemory;
use std::alloc::Global;

/// Packs all stores. After want of memory the first of them may be packed.
pub(crate) fn pack_stores(
    alloc: Global,
    arrivals: &Arrivals,
    alpha: &mut AlphaMemory,
) -> Result<(), OutOfMemory>
    ensures ok { OnOk result (alpha.new ≡ map (store_packed (has_number arrivals.now.places)) alpha.old) }
    ensures cleaned { AreCleaned arrivals.now.places alpha.old alpha.new }
{
    for number in 0..alpha.len() {
        alpha.pack(alloc, number as u32, arrivals)?;
    }
    Ok(())
}

/// Packs all rules. After want of memory the first of them may be packed, and one in part.
pub(crate) fn pack_rules(
    alloc: Global,
    arrivals: &Arrivals,
    rules: &mut [RuleLevels],
) -> Result<(), OutOfMemory>
    requires filed { AllByRecursion (λ (rule : RuleRows). AreFiled rule.joins.positives arrivals.now.came arrivals.now.places rule.levels) rules.old }
    ensures ok { OnOk result (ArePacked arrivals.now.places rules.old rules.new) }
    ensures each { AreRepacked arrivals.now.came arrivals.now.places rules.old rules.new }
{
    for number in 0..rules.len() {
        pack_rule(alloc, number, arrivals, rules)?;
    }
    Ok(())
}

/// Packs the rule with a number.
fn pack_rule(
    alloc: Global,
    number: usize,
    arrivals: &Arrivals,
    rules: &mut [RuleLevels],
) -> Result<(), OutOfMemory>
    requires number { number < length rules.old }
    requires filed { (rule : RuleRows) → slice_get rules.old number ≡ Some rule → AreFiled rule.joins.positives arrivals.now.came arrivals.now.places rule.levels }
    ensures step { IsRepackedAt arrivals.now.came arrivals.now.places number rules.old rules.new }
    ensures ok { OnOk result ((before after : RuleRows) → slice_get rules.old number ≡ Some before → slice_get rules.new number ≡ Some after
        → IsPacked arrivals.now.places (rows_of before.levels) (rows_of after.levels)) }
{
    let rule = &mut rules[number];
    rule.pack(alloc, arrivals)
}

/// Packs all levels of a rule, which are those of its positive condition elements. After want of memory
/// the first of them may be packed.
pub(crate) fn pack_levels(
    alloc: Global,
    joins: &[Join],
    arrivals: &Arrivals,
    levels: &mut [Level],
) -> Result<(), OutOfMemory>
    requires filed { AreFiled joins.now arrivals.now.came arrivals.now.places levels.old }
    ensures ok { OnOk result (IsPacked arrivals.now.places (rows_of levels.old) (rows_of levels.new)) }
    ensures rows { IsPartlyPacked arrivals.now.places (rows_of levels.old) (rows_of levels.new) }
    ensures filed { AreFiled joins.now arrivals.now.came arrivals.now.places levels.new }
{
    for number in 0..levels.len() {
        pack_level(alloc, number, joins, arrivals, levels)?;
    }
    Ok(())
}

/// Packs the level with a number. After want of memory all is as before.
fn pack_level(
    alloc: Global,
    number: usize,
    joins: &[Join],
    arrivals: &Arrivals,
    levels: &mut [Level],
) -> Result<(), OutOfMemory>
    requires number { number < length levels.old }
    requires filed { AreFiled joins.now arrivals.now.came arrivals.now.places levels.old }
    ensures ok { OnOk result (levels.new ≡ slice_set levels.old number
        (packed (drop (number + 1) joins.now) arrivals.now.came arrivals.now.places (level_at levels.old number))) }
    ensures err { OnErr result (levels.new ≡ levels.old) }
{
    let level = &mut levels[number];
    level.pack(alloc, &joins[number + 1..], arrivals)
}
