//! Whether the elements of a candidate are still in working memory.

ghost use Rattle.std.specs.Prelude.{◌≡◌};
ghost use Rattle.std.specs.List.{list_any};
ghost use Rattle.rule_base.specs.Memory.{Rises, tags_of, same_element};
ghost use Rattle.rule_base.specs.Views.{element_in};
ghost use Rattle.firing_core.specs.Refusals.{gone_tag};
ghost use Rattle.firing_core.specs.Store.{memory_in};

use crate::store::Store;
use rule_base::{ElementView, Elements};

/// The tag of the first of these elements that isn't in working memory, or is another there, if there is
/// one. Each takes one look-up by its tag.
pub fn gone_tag(store: &Store, elements: &Elements) -> Option<u64>
    requires { Rises (tags_of (memory_in store.now)) }
    ensures { result ≡ gone_tag (memory_in store.now) elements.now }
{
    for at in 0..elements.len() {
        let element = elements.at(at);
        if !is_there(store, element) {
            return Some(element.tag);
        }
    }
    None
}

/// Whether the element is in working memory, with this class and these values.
fn is_there(store: &Store, element: ElementView<'_>) -> bool
    requires { Rises (tags_of (memory_in store.now)) }
    ensures { result ≡ list_any (same_element (element_in element.entry)) (memory_in store.now) }
{
    match store.element(element.tag) {
        Some(found) => element.class == found.class && element.values == found.values,
        None => false,
    }
}
