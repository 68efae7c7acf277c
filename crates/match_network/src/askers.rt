//! Which condition elements ask which store.

ghost use Rattle.std.specs.Prelude.{◌≡◌, ℕ, ◌==◌, ◌++◌, [], ◌∷◌, List, OnOk, if◌then◌else◌, length};
ghost use Rattle.std.specs.List.{flat_map};
ghost use Rattle.match_network.specs.Rules.{AreAskers, askers_at};

use ops_text::{OutOfMemory, Sequence};
use std::alloc::Global;

/// A condition element of a rule, by their numbers from 0. Positive and negated ones are counted apart.
#[derive(Clone, Copy)]
pub struct Asker {
    pub rule: usize,
    pub condition: usize,
}

/// Notes all positive condition elements of a rule, or all negated ones, each with the store that it asks.
pub(crate) fn note_all(
    alloc: Global,
    rule: usize,
    stores: &[u32],
    askers: &mut Vec<Sequence<Asker>>,
) -> Result<(), OutOfMemory>
    ensures { OnOk result ((before : List (List ℕ)) → length before ≡ rule → AreAskers before askers.old.items
        → AreAskers (before ++ stores.now ∷ []) askers.new.items) }
{
    for condition in 0..stores.len() {
        note(alloc, Asker { rule, condition }, stores[condition], askers)?;
    }
    Ok(())
}

/// Notes that a condition element asks a store.
fn note(
    alloc: Global,
    asker: Asker,
    store: u32,
    askers: &mut Vec<Sequence<Asker>>,
) -> Result<(), OutOfMemory>
    ensures { OnOk result ((at : ℕ) → askers_at askers.new.items at
        ≡ (if store == at then askers_at askers.old.items at ++ asker ∷ [] else askers_at askers.old.items at)) }
{
    while askers.len() <= store as usize {
        askers.push(Sequence::new(alloc))?;
    }
    let those = &mut askers[store as usize];
    those.push(asker)
}

/// Adds the condition elements that ask these stores, by one store after another.
pub(crate) fn collect(
    askers: &[Sequence<Asker>],
    stores: &[u32],
    due: &mut Vec<Asker>,
) -> Result<(), OutOfMemory>
    ensures { OnOk result (due.new.items ≡ due.old.items ++ flat_map (askers_at askers.now) stores.now) }
{
    for store in stores {
        collect_at(askers, *store, due)?;
    }
    Ok(())
}

/// Adds the condition elements that ask a store.
fn collect_at(
    askers: &[Sequence<Asker>],
    store: u32,
    due: &mut Vec<Asker>,
) -> Result<(), OutOfMemory>
    ensures { OnOk result (due.new.items ≡ due.old.items ++ askers_at askers.now store) }
{
    if (store as usize) < askers.len() {
        due.extend_from_slice(askers[store as usize].as_slice())?;
    }
    Ok(())
}
