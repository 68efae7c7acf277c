//! Weaving an element in at all condition elements that it passes.

ghost use Rattle.std.specs.Prelude.{◌≡◌, ℕ, ◌+◌, ◌<◌, ◌≤◌, [], OnErr, OnOk, Some, length, slice_get};
ghost use Rattle.std.specs.List.{AllByRecursion, sum_by};
ghost use Rattle.rule_base.specs.Memory.{Rises};
ghost use Rattle.match_network.specs.Conditions.{joins_of, rows_of};
ghost use Rattle.match_network.specs.Held.{RowsHeld};
ghost use Rattle.match_network.specs.Rules.{AreStopped, AreWovenIn, IsDue, IsKept, IsStep, RuleRows, is_asker};
ghost use Rattle.alpha_memory.specs.Times.{times};
ghost use Rattle.match_network.specs.Tried.{due_tried};
ghost use Rattle.match_network.specs.Touched.{AreTouched};
ghost use Rattle.match_network.specs.Woven.{woven};

use crate::askers::Asker;
use crate::{Arrivals, RuleLevels};
use alpha_memory::AlphaMemory;
use ops_text::OutOfMemory;
use rule_base::Steps;
use std::sync::ledger::Ledger;

/// Weaves a place in at these condition elements, one after another, and counts the rows that come of it.
pub(crate) fn weave_all<L: Ledger>(
    due: &[Asker],
    place: u32,
    arrivals: &Arrivals,
    alpha: &mut AlphaMemory,
    rules: &mut [RuleLevels],
    held: &mut usize,
    steps: &mut Steps<L>,
) -> Result<(), OutOfMemory>
    requires rising { Rises arrivals.now.places }
    requires below { AllByRecursion (λ p. p < length arrivals.now.came) arrivals.now.places }
    requires place { place < length arrivals.now.came }
    requires due { AllByRecursion (IsDue arrivals.now.came place rules.old) due.now }
    requires once { (rule condition : ℕ) → times (is_asker rule condition) due.now ≤ 1 }
    requires start { AreWovenIn arrivals.now.came arrivals.now.places place alpha.old [] rules.old rules.old }
    ensures ok { OnOk result (AreWovenIn arrivals.now.came arrivals.now.places place alpha.new due.now rules.old rules.new) }
    ensures stopped { AreStopped arrivals.now.came arrivals.now.places place alpha.new rules.old rules.new }

    // What is tried at each of them is told by the rules as they were before the first.
    ensures steps { steps.new ≤ steps.old + sum_by (due_tried rules.old arrivals.now.came arrivals.now.places place) due.now }
    ensures touched { AreTouched arrivals.now.places due.now alpha.old alpha.new rules.old rules.new }
    ensures held { RowsHeld held.old rules.old alpha.old → RowsHeld held.new rules.new alpha.new }
{
    for number in 0..due.len() {
        weave_counted(due[number], place, arrivals, alpha, rules, held, steps)?;
    }
    Ok(())
}

/// Weaves a place in at a condition element, and counts the rows that come of it.
fn weave_counted<L: Ledger>(
    asker: Asker,
    place: u32,
    arrivals: &Arrivals,
    alpha: &mut AlphaMemory,
    rules: &mut [RuleLevels],
    held: &mut usize,
    steps: &mut Steps<L>,
) -> Result<(), OutOfMemory>
    requires below { AllByRecursion (λ p. p < length arrivals.now.came) arrivals.now.places }
    requires due { IsDue arrivals.now.came place rules.old asker }
    requires kept { (rule : RuleRows) → slice_get rules.old asker.rule ≡ Some rule → IsKept arrivals.now.came arrivals.now.places alpha.old rule }
    ensures step { IsStep arrivals.now.came arrivals.now.places place asker.rule alpha.old alpha.new rules.old rules.new }
    ensures ok { OnOk result ((before after : RuleRows) → slice_get rules.old asker.rule ≡ Some before → slice_get rules.new asker.rule ≡ Some after
        → (width : ℕ) → rows_of after.levels width
        ≡ woven (joins_of before.joins.positives) arrivals.now.came arrivals.now.places place asker.condition (rows_of before.levels) width) }
    ensures steps { steps.new ≤ steps.old + due_tried rules.old arrivals.now.came arrivals.now.places place asker }
    ensures held { RowsHeld held.old rules.old alpha.old → RowsHeld held.new rules.new alpha.new }
{
    let before = rules[asker.rule].count();
    let woven = weave_at(asker, place, arrivals, alpha, rules, steps);
    let after = rules[asker.rule].count();
    *held = held.saturating_add(after.saturating_sub(before));
    woven
}

/// Weaves a place in at a condition element.
fn weave_at<L: Ledger>(
    asker: Asker,
    place: u32,
    arrivals: &Arrivals,
    alpha: &mut AlphaMemory,
    rules: &mut [RuleLevels],
    steps: &mut Steps<L>,
) -> Result<(), OutOfMemory>
    requires below { AllByRecursion (λ p. p < length arrivals.now.came) arrivals.now.places }
    requires due { IsDue arrivals.now.came place rules.old asker }
    requires kept { (rule : RuleRows) → slice_get rules.old asker.rule ≡ Some rule → IsKept arrivals.now.came arrivals.now.places alpha.old rule }
    ensures step { IsStep arrivals.now.came arrivals.now.places place asker.rule alpha.old alpha.new rules.old rules.new }
    ensures ok { OnOk result ((before after : RuleRows) → slice_get rules.old asker.rule ≡ Some before → slice_get rules.new asker.rule ≡ Some after
        → (width : ℕ) → rows_of after.levels width
        ≡ woven (joins_of before.joins.positives) arrivals.now.came arrivals.now.places place asker.condition (rows_of before.levels) width) }
    ensures steps { steps.new ≤ steps.old + due_tried rules.old arrivals.now.came arrivals.now.places place asker }
{
    let rule = &mut rules[asker.rule];
    rule.weave(asker.condition, place, arrivals, alpha, steps)
}
