//! A partial match, as the joins see it.

ghost use Rattle.std.specs.Prelude.{◌≡◌, List, option_map, slice_get};
ghost use Rattle.rule_base.specs.declared.element.Element.{Element};
ghost use Rattle.rule_base.specs.Views.{element_in};

use rule_base::{ElementView, Elements};

/// The elements for the first positive condition elements of a rule, in order.
pub trait Row {
    /// The elements.
    ghost elements: { Self → List Element };

    /// The element for a positive condition element, which counts from 0, if the row goes so far.
    fn element(&self, condition: usize) -> Option<ElementView<'_>>
        ensures { option_map element_in result ≡ slice_get (elements self.now) condition };
}

impl Row for Elements {
    ghost elements = { λ row. row };

    fn element(&self, condition: usize) -> Option<ElementView<'_>> {
        if condition < self.len() {
            Some(self.at(condition))
        } else {
            None
        }
    }
}
