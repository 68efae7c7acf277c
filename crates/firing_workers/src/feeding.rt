//! A part that is made anew, and follows a core.

ghost use Rattle.std.specs.Prelude.{◌≡◌, ◌==◌, ◌<◌, ◌^◌, [], IfOk, List, Ok, OnOk, length, true, ℕ};
ghost use Rattle.std.specs.List.{list_any};
ghost use Rattle.rule_base.specs.declared.instantiation.Choice.{Choice};
ghost use Rattle.rule_base.specs.Memory.{Rises, tags_of};
ghost use Rattle.rule_base.specs.State.{same_choice};
ghost use Rattle.conflict_parts.specs.Choices.{choice_at};
ghost use Rattle.conflict_parts.specs.Part.{IsLivingRow, full_rows};
ghost use Rattle.conflict_parts.specs.Queue.{same_row};
ghost use Rattle.firing_workers.specs.Feeding.{AreMarked, HasTakenIn, has_place, unfired};
ghost use Rattle.firing_workers.specs.Following.{Follows};

use crate::following::{is_right, take_in};
use crate::prepared::Prepared;
use conflict_parts::{Part, RowId};
use firing_core::Core;
use ops_text::OutOfMemory;
use refraction_index::RefractionIndex;
use rule_base::{Choice, Elements, Steps};
use std::alloc::Global;
use std::sync::ledger::Ledger;

/// A part of all rules that follows the core's state. All elements are matched once, and then each full
/// match is looked up among the choices that are fired.
pub(crate) fn part_of<L: Ledger>(
    alloc: Global,
    core: &mut Core,
    steps: &mut Steps<L>,
) -> Result<Part, OutOfMemory>
    ensures follows { IfOk result (Follows core.old.program core.old.state) }
    ensures same { core.new ≡ core.old }
{
    let mut part = unmarked_part(alloc, core, steps)?;
    let fired = core.fired(alloc)?;
    mark_fired(alloc, &mut part, fired.as_slice())?;
    Ok(part)
}

/// A part with the core's working memory, and without marks.
fn unmarked_part<L: Ledger>(
    alloc: Global,
    core: &Core,
    steps: &mut Steps<L>,
) -> Result<Part, OutOfMemory>
    ensures { IfOk result (Follows core.now.program (unfired core.now.state)) }
{
    // The core tells that it is lawful, and so that its tags rise.
    let _count = core.count();
    let rules = core.program().rules.as_slice();
    let mut part = Part::new(alloc, rules, core.refraction())?;
    is_right(&part);
    take_in_all(&core.copy_memory(alloc)?, &mut part, steps)?;
    Ok(part)
}

/// Has a part to which nothing came take in elements.
fn take_in_all<L: Ledger>(
    elements: &Elements,
    part: &mut Part,
    steps: &mut Steps<L>,
) -> Result<(), OutOfMemory>
    requires none { part.old.network.arrivals.came ≡ [] }
    requires rising { Rises (tags_of elements.now) }
    ensures { OnOk result (HasTakenIn elements.now part.old part.new) }
{
    for place in 0..elements.len() {
        take_in(part, elements.at(place), steps)?;
    }
    Ok(())
}

/// Marks each full match in working memory whose choice is among these. It takes one look-up for each.
fn mark_fired(alloc: Global, part: &mut Part, fired: &[Choice]) -> Result<(), OutOfMemory>
    requires few { length part.old.network.rules < 2 ^ 32 }
    ensures { OnOk result (AreMarked (λ c. list_any (same_choice c) fired.now) (λ rule number. true) part.old part.new) }
{
    if fired.is_empty() {
        return Ok(());
    }
    let mut index = RefractionIndex::new(alloc, fired)?;
    let mut prepared = Prepared::new(alloc)?;
    mark_rules(alloc, part, &mut index, &mut prepared)
}

/// Marks those of all rules.
fn mark_rules(
    alloc: Global,
    part: &mut Part,
    index: &mut RefractionIndex,
    prepared: &mut Prepared,
) -> Result<(), OutOfMemory>
    requires few { length part.old.network.rules < 2 ^ 32 }
    ensures { OnOk result (AreMarked (has_place index.old) (λ rule number. true) part.old part.new) }
{
    for rule in 0..part.network().len() as u32 {
        mark_rows(alloc, part, rule, index, prepared)?;
    }
    Ok(())
}

/// Marks those of a rule.
fn mark_rows(
    alloc: Global,
    part: &mut Part,
    rule: u32,
    index: &mut RefractionIndex,
    prepared: &mut Prepared,
) -> Result<(), OutOfMemory>
    requires rule { rule < length part.old.network.rules }
    ensures marked { OnOk result (AreMarked (has_place index.old) (λ other number. other == rule) part.old part.new) }
    ensures index { index.new ≡ index.old }
{
    for row in 0..part.network().rule(rule as usize).whole_count() as u32 {
        mark_row(alloc, part, RowId { rule, row }, index, prepared)?;
    }
    Ok(())
}

/// Marks a full match if it is in working memory and the index has its choice.
fn mark_row(
    alloc: Global,
    part: &mut Part,
    id: RowId,
    index: &mut RefractionIndex,
    prepared: &mut Prepared,
) -> Result<(), OutOfMemory>
    requires rule { id.rule < length part.old.network.rules }
    requires row { id.row < length (full_rows part.old.network.rules id.rule) }
    ensures marked { OnOk result (AreMarked (has_place index.old) (λ rule number. same_row rule number id) part.old part.new) }
    ensures index { index.new ≡ index.old }
{
    if has_place(alloc, part, id, index, prepared)? {
        part.mark(id);
    }
    Ok(())
}

/// Whether a full match is in working memory and the index has its choice.
fn has_place(
    alloc: Global,
    part: &Part,
    id: RowId,
    index: &mut RefractionIndex,
    prepared: &mut Prepared,
) -> Result<bool, OutOfMemory>
    requires rule { id.rule < length part.now.network.rules }
    requires row { id.row < length (full_rows part.now.network.rules id.rule) }
    ensures yes { result ≡ Ok true → (row : List ℕ) × IsLivingRow part.now.network id.rule id.row row }
    ensures has { IfOk result (λ is. (row : List ℕ) → IsLivingRow part.now.network id.rule id.row row
        → is ≡ has_place index.old (choice_at part.now.network id.rule row)) }
    ensures index { index.new ≡ index.old }
{
    if !part.network().arrivals().have(part.row(id)) {
        return Ok(false);
    }
    prepared.set_choice(alloc, part, id)?;
    Ok(index.fired_at(&prepared.choice).is_some())
}
