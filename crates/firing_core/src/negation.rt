//! Whether a condition element accepts some element of a store, asked of each where it lies.

ghost use Rattle.std.specs.Prelude.{◌≡◌, Some};
ghost use Rattle.rule_base.specs.Match.{accepts_some};
ghost use Rattle.firing_core.specs.Matching.{MayFilter};
ghost use Rattle.firing_core.specs.Grouped.{IsWholeGroupingOf};
ghost use Rattle.firing_core.specs.PinnedKeys.{pinned_key};
ghost use Rattle.firing_core.specs.Store.{living, living_at, memory_in};

use crate::acceptance::accepts;
use crate::grouped::Grouped;
use crate::store::Store;
use element_tests::{Binds, unbind};
use rule_base::Cond;
use working_memory::Key;

/// Whether the condition element accepts some element of the store's working memory. The row is as
/// before. Where a test compares a grouped attribute by `=` with a value that is known, it looks only at
/// the elements of the class with that value there, and else at all, in the order of their tags up to the
/// first that is accepted. It copies none.
pub fn accepts_some_of(cond: &Cond, store: &Store, grouped: &mut Grouped, binds: &mut Binds) -> bool
    requires may { MayFilter cond.now (memory_in store.now) binds.old }
    requires grouped { IsWholeGroupingOf grouped.old store.now }
    ensures found { result ≡ accepts_some cond.now binds.old (memory_in store.now) }
    ensures kept { binds.new ≡ binds.old }
    ensures grouped { IsWholeGroupingOf grouped.new store.now }
{
    match grouped.pinned_key(cond, binds) {
        Some(key) => accepts_some_with(cond, store, grouped, key, binds),
        None => accepts_some_at(cond, store, store.slots(), binds),
    }
}

/// The same by the elements with the key to which the condition element pins what it accepts. Places of
/// elements that have gone are looked at once.
fn accepts_some_with(
    cond: &Cond,
    store: &Store,
    grouped: &mut Grouped,
    key: Key,
    binds: &mut Binds,
) -> bool
    requires may { MayFilter cond.now (memory_in store.now) binds.old }
    requires grouped { IsWholeGroupingOf grouped.old store.now }
    requires pinned { pinned_key grouped.old.attributes binds.old cond.now ≡ Some key }
    ensures found { result ≡ accepts_some cond.now binds.old (memory_in store.now) }
    ensures kept { binds.new ≡ binds.old }
    ensures grouped { IsWholeGroupingOf grouped.new store.now }
{
    grouped.clean(key, store);
    accepts_some_at(cond, store, grouped.group(key), binds)
}

/// Whether the condition element accepts some element that lives at one of these places. The row is as
/// before.
fn accepts_some_at(cond: &Cond, store: &Store, places: &[usize], binds: &mut Binds) -> bool
    requires { MayFilter cond.now (living_at store.now places.now) binds.old }
    ensures found { result ≡ accepts_some cond.now binds.old (living_at store.now places.now) }
    ensures kept { binds.new ≡ binds.old }
{
    for place in places {
        if accepts_living(cond, store, *place, binds) {
            return true;
        }
    }
    false
}

/// Whether an element is in working memory at this place and the condition element accepts it. The row is
/// as before.
fn accepts_living(cond: &Cond, store: &Store, place: usize, binds: &mut Binds) -> bool
    requires { MayFilter cond.now (living store.now place) binds.old }
    ensures found { result ≡ accepts_some cond.now binds.old (living store.now place) }
    ensures kept { binds.new ≡ binds.old }
{
    let Some(element) = store.living(place) else {
        return false;
    };
    let accepted = accepts(cond, binds, element);
    if accepted {
        unbind(cond, binds);
    }
    accepted
}
