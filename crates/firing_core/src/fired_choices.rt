//! All choices that are fired, told by the base and the journal.

ghost use Rattle.std.specs.Prelude.{◌≡◌, ◌++◌, IfOk, OnOk, filter};
ghost use Rattle.std.specs.List.{AllByRecursion, list_any};
ghost use Rattle.commit_journal.specs.Entries.{born_in};
ghost use Rattle.commit_journal.specs.EntryViews.{entry_in};
ghost use Rattle.refraction_index.specs.Firings.{Tells};
ghost use Rattle.rule_base.specs.declared.instantiation.Choice.{Choice};
ghost use Rattle.rule_base.specs.Memory.{HasSize, IsMemory};
ghost use Rattle.rule_base.specs.Sound.{IsSound, sizes_of};
ghost use Rattle.rule_base.specs.State.{choices_of, same_choice};
ghost use Rattle.rule_base.specs.Step.{matches};
ghost use Rattle.firing_core.specs.FiredChoices.{AreInOrder, choice_order, ever_fired, is_fired_now};
ghost use Rattle.firing_core.specs.Grouped.{IsWholeGroupingOf};
ghost use Rattle.firing_core.specs.Store.{memory_in};

use crate::failing::failing_condition;
use crate::fired::is_fired;
use crate::grouped::Grouped;
use crate::store::Store;
use commit_journal::{EntryView, Journal};
use element_tests::Binds;
use ops_text::{OutOfMemory, Sequence, copied};
use refraction_index::RefractionIndex;
use rule_base::{Choice, Program, Refraction};
use std::alloc::Global;
use std::cmp::Ordering;

/// The choices that are fired, in their order, by an index that has taken in the journal. It takes time
/// n log n in the number of choices that had fired at some time, of which it makes copies, and under
/// `Renewed` a match for each, also beside what was born since it last fired.
pub fn all_fired(
    alloc: Global,
    program: &Program,
    store: &Store,
    grouped: &mut Grouped,
    index: &mut RefractionIndex,
    binds: &mut Binds,
) -> Result<Sequence<Choice>, OutOfMemory>
    requires sound { IsSound program.now }
    requires memory { IsMemory (sizes_of program.now.classes) (memory_in store.now) }
    requires born { AllByRecursion (HasSize (sizes_of program.now.classes)) (born_in store.now.entries) }
    requires grouped { IsWholeGroupingOf grouped.old store.now }
    requires tells { Tells store.now.base.fired store.now.entries index.old }
    ensures fired { IfOk result (λ choices. (c : Choice) → list_any (same_choice c) choices
        ≡ is_fired_now program.now store.now.base (memory_in store.now) store.now.entries c) }
    ensures order { IfOk result AreInOrder }
    ensures grouped { IsWholeGroupingOf grouped.new store.now }
    ensures kept { index.new ≡ index.old }
{
    let mut choices = ever_fired(alloc, store)?;
    put_in_order(&mut choices);
    let fired = those_fired(alloc, program, store, grouped, index, choices, binds)?;
    Ok(Sequence::from_vec(fired))
}

/// Those of the choices that are fired.
fn those_fired(
    alloc: Global,
    program: &Program,
    store: &Store,
    grouped: &mut Grouped,
    index: &mut RefractionIndex,
    choices: Vec<Choice>,
    binds: &mut Binds,
) -> Result<Vec<Choice>, OutOfMemory>
    requires sound { IsSound program.now }
    requires memory { IsMemory (sizes_of program.now.classes) (memory_in store.now) }
    requires born { AllByRecursion (HasSize (sizes_of program.now.classes)) (born_in store.now.entries) }
    requires grouped { IsWholeGroupingOf grouped.old store.now }
    requires tells { Tells store.now.base.fired store.now.entries index.old }
    ensures fired { IfOk result (λ fired. fired.items ≡ filter
        (is_fired_now program.now store.now.base (memory_in store.now) store.now.entries) choices.items) }
    ensures grouped { IsWholeGroupingOf grouped.new store.now }
    ensures kept { index.new ≡ index.old }
{
    let mut fired = Vec::new(alloc);
    for choice in choices {
        if is_fired_now(program, store, grouped, index, &choice, binds)? {
            fired.push(choice)?;
        }
    }
    Ok(fired)
}

/// Whether the choice is fired, be it that it matches or not. Under `Once` it is one look-up, and under
/// `Renewed` a match.
fn is_fired_now(
    program: &Program,
    store: &Store,
    grouped: &mut Grouped,
    index: &mut RefractionIndex,
    choice: &Choice,
    binds: &mut Binds,
) -> Result<bool, OutOfMemory>
    requires sound { IsSound program.now }
    requires memory { IsMemory (sizes_of program.now.classes) (memory_in store.now) }
    requires born { AllByRecursion (HasSize (sizes_of program.now.classes)) (born_in store.now.entries) }
    requires grouped { IsWholeGroupingOf grouped.old store.now }
    requires tells { Tells store.now.base.fired store.now.entries index.old }
    ensures told { IfOk result (λ is. is
        ≡ is_fired_now program.now store.now.base (memory_in store.now) store.now.entries choice.now) }
    ensures grouped { IsWholeGroupingOf grouped.new store.now }
    ensures kept { index.new ≡ index.old }
{
    match store.base().refraction {
        Refraction::Once => Ok(index.fired_at(choice).is_some()),
        Refraction::Renewed => {
            if matches(program, store, grouped, choice, binds)? {
                is_fired(program, store, index, choice, binds)
            } else {
                Ok(false)
            }
        }
    }
}

/// Whether the choice matches.
fn matches(
    program: &Program,
    store: &Store,
    grouped: &mut Grouped,
    choice: &Choice,
    binds: &mut Binds,
) -> Result<bool, OutOfMemory>
    requires sound { IsSound program.now }
    requires memory { AllByRecursion (HasSize (sizes_of program.now.classes)) (memory_in store.now) }
    requires grouped { IsWholeGroupingOf grouped.old store.now }
    ensures matches { IfOk result (λ is. is ≡ matches program.now (memory_in store.now) choice.now) }
    ensures grouped { IsWholeGroupingOf grouped.new store.now }
{
    if choice.rule as usize >= program.rules.len() {
        return Ok(false);
    }
    Ok(failing_condition(program, store, grouped, choice, binds)?.is_none())
}

/// The choices that had fired at some time, some of them perhaps more than once.
fn ever_fired(alloc: Global, store: &Store) -> Result<Vec<Choice>, OutOfMemory>
    ensures { IfOk result (λ choices. choices.items ≡ ever_fired store.now.base store.now.entries) }
{
    let mut choices = copied(alloc, store.base().fired.as_slice())?;
    add_choices(alloc, store.journal(), &mut choices)?;
    Ok(choices)
}

/// Adds the choice of each entry.
fn add_choices(
    alloc: Global,
    journal: &Journal,
    choices: &mut Vec<Choice>,
) -> Result<(), OutOfMemory>
    ensures { OnOk result (choices.new.items ≡ choices.old.items ++ choices_of journal.now.entries) }
{
    for place in 0..journal.len() {
        choices.push(choice_of(alloc, journal.entry(place))?)?;
    }
    Ok(())
}

/// The choice of an entry, as a value of its own.
fn choice_of(alloc: Global, entry: EntryView<'_>) -> Result<Choice, OutOfMemory>
    ensures { IfOk result (λ choice. choice ≡ (entry_in entry.entry).choice) }
{
    Ok(Choice {
        rule: entry.rule,
        tags: Sequence::from_vec(Vec::from_slice(alloc, entry.tags)?),
    })
}

/// Puts choices in their order, each once.
fn put_in_order(choices: &mut Vec<Choice>)
    ensures order { AreInOrder choices.new.items }
    ensures same { (c : Choice) → list_any (same_choice c) choices.new.items
        ≡ list_any (same_choice c) choices.old.items }
{
    choices.sort_unstable_by(|one, other| order(one, other));
    choices.dedup_by(|later, earlier| later.same(earlier));
}

/// Which of two choices comes first.
fn order(one: &Choice, other: &Choice) -> Ordering
    ensures { result ≡ choice_order one.now other.now }
{
    let tags = one.tags.as_slice();
    one.rule
        .cmp(&other.rule)
        .then(tags.cmp(other.tags.as_slice()))
}
