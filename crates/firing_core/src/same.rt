//! Whether elements are the same: tag, class and values.

ghost use lib.Pointwise.{pointwise};
ghost use Rattle.std.specs.Prelude.{◌≡◌};
ghost use Rattle.rule_base.specs.Views.{element_in};
ghost use Rattle.rule_base.specs.Memory.{same_element};

use rule_base::{ElementView, Elements};

/// Whether both lists have the same elements, in the same order.
pub fn same_elements(some: &Elements, others: &Elements) -> bool
    ensures { result ≡ pointwise same_element some.now others.now }
{
    if some.len() != others.len() {
        return false;
    }
    for at in 0..some.len() {
        if !same_element(some.at(at), others.at(at)) {
            return false;
        }
    }
    true
}

/// Whether both elements are the same.
pub fn same_element(element: ElementView<'_>, other: ElementView<'_>) -> bool
    ensures { result ≡ same_element (element_in element.entry) (element_in other.entry) }
{
    element.tag == other.tag && element.class == other.class && element.values == other.values
}
