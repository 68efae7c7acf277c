//! Whether a choice is fired, told by its last firing.

ghost use Rattle.std.specs.Prelude.{◌≡◌, ◌++◌, ◌-◌, IfOk, drop, true};
ghost use Rattle.std.specs.List.{AllByRecursion};
ghost use Rattle.commit_journal.specs.Entries.{born_in};
ghost use Rattle.commit_journal.specs.EntryViews.{born_of};
ghost use Rattle.refraction_index.specs.Beside.{blocks_none_from};
ghost use Rattle.refraction_index.specs.Firings.{Tells};
ghost use Rattle.rule_base.specs.Match.{accepts_some};
ghost use Rattle.rule_base.specs.Memory.{HasSize, IsMemory};
ghost use Rattle.rule_base.specs.Sound.{IsSound, sizes_of};
ghost use Rattle.rule_base.specs.Step.{matches};
ghost use Rattle.firing_core.specs.Matching.{MayFilter, MayMatch};
ghost use Rattle.firing_core.specs.Store.{memory_in};
ghost use Rattle.firing_core.specs.Unfired.{is_fired_by};

use crate::acceptance::accepts;
use crate::store::Store;
use commit_journal::{EntryView, Journal};
use element_tests::{Binds, unbind};
use ops_text::OutOfMemory;
use refraction_index::RefractionIndex;
use rule_base::{Choice, Cond, Program, Refraction};

/// Whether a choice that matches is fired, by an index that has taken in the journal. Under `Once` it is
/// one look-up. Under `Renewed` each negated condition element of a choice that has fired is asked of
/// what was born since; where the rule has none, nothing grows with the journal. It takes memory only
/// where the row has never been so long.
pub fn is_fired(
    program: &Program,
    store: &Store,
    index: &mut RefractionIndex,
    choice: &Choice,
    binds: &mut Binds,
) -> Result<bool, OutOfMemory>
    requires sound { IsSound program.now }
    requires memory { IsMemory (sizes_of program.now.classes) (memory_in store.now) }
    requires born { AllByRecursion (HasSize (sizes_of program.now.classes)) (born_in store.now.entries) }
    requires tells { Tells store.now.base.fired store.now.entries index.old }
    requires matching { matches program.now (memory_in store.now) choice.now ≡ true }
    ensures told { IfOk result
        (λ is. is ≡ is_fired_by program.now store.now.base (memory_in store.now) store.now.entries choice.now) }
    ensures kept { index.new ≡ index.old }
{
    match (index.fired_at(choice), store.base().refraction) {
        (None, _) => Ok(false),
        (Some(_), Refraction::Once) => Ok(true),
        (Some(count), Refraction::Renewed) => {
            matches_beside(program, store, count.saturating_sub(1), choice, binds)
        }
    }
}

/// Whether a choice that matches does so beside what was born in the entries from a place on.
fn matches_beside(
    program: &Program,
    store: &Store,
    from: u64,
    choice: &Choice,
    binds: &mut Binds,
) -> Result<bool, OutOfMemory>
    requires sound { IsSound program.now }
    requires memory { IsMemory (sizes_of program.now.classes) (memory_in store.now) }
    requires born { AllByRecursion (HasSize (sizes_of program.now.classes)) (born_in store.now.entries) }
    requires matching { matches program.now (memory_in store.now) choice.now ≡ true }
    ensures { IfOk result
        (λ is. is ≡ matches program.now (memory_in store.now ++ born_in (drop from store.now.entries)) choice.now) }
{
    let rule = &program.rules.as_slice()[choice.rule as usize];
    binds.renew(rule.vars)?;
    Ok(blocks_none_from(
        store,
        from,
        rule.conds.as_slice(),
        choice.tags.as_slice(),
        binds,
    ))
}

/// Whether nothing that was born in the entries from a place on blocks the condition elements, with the
/// elements of these tags and the row's bindings.
fn blocks_none_from(
    store: &Store,
    from: u64,
    conds: &[Cond],
    tags: &[u64],
    binds: &mut Binds,
) -> bool
    requires { MayMatch conds.now (memory_in store.now ++ born_in (drop from store.now.entries)) binds.old }
    ensures { result ≡ blocks_none_from conds.now (memory_in store.now)
        (born_in (drop from store.now.entries)) tags.now binds.old }
{
    let Some((cond, conds)) = conds.split_first() else {
        return true;
    };
    if cond.negated {
        return !accepts_born(cond, store.journal(), from, binds)
            && blocks_none_from(store, from, conds, tags, binds);
    }
    let Some((tag, tags)) = tags.split_first() else {
        return true;
    };
    let Some(element) = store.element(*tag) else {
        return true;
    };
    !accepts(cond, binds, element) || blocks_none_from(store, from, conds, tags, binds)
}

/// Whether the condition element accepts something that was born in the entries from a place on. The
/// row is as before.
fn accepts_born(cond: &Cond, journal: &Journal, from: u64, binds: &mut Binds) -> bool
    requires { MayFilter cond.now (born_in (drop from journal.now.entries)) binds.old }
    ensures found { result ≡ accepts_some cond.now binds.old (born_in (drop from journal.now.entries)) }
    ensures kept { binds.new ≡ binds.old }
{
    let len = journal.len();
    let from = from.min(len as u64) as usize;
    for place in from..len {
        if accepts_born_of(cond, journal.entry(place), binds) {
            return true;
        }
    }
    false
}

/// Whether it accepts something that was born in one entry. The row is as before.
fn accepts_born_of(cond: &Cond, entry: EntryView<'_>, binds: &mut Binds) -> bool
    requires { MayFilter cond.now (born_of entry) binds.old }
    ensures found { result ≡ accepts_some cond.now binds.old (born_of entry.entry) }
    ensures kept { binds.new ≡ binds.old }
{
    for number in 0..entry.born_len() {
        if accepts(cond, binds, entry.born(number)) {
            unbind(cond, binds);
            return true;
        }
    }
    false
}
