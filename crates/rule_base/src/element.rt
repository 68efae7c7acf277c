//! Elements of the working memory.

ghost use Rattle.std.specs.Prelude.{◌≡◌, IfOk};
ghost use Rattle.rule_base.specs.Views.{element_in};

use crate::Value;
use ops_text::{Duplicate, OutOfMemory, Sequence};
use std::alloc::Global;

/// An element: its time tag, from 1 on, its class by number, and a value for each attribute of the
/// class, in the order of its `literalize`.
#[derive(Debug, Drop)]
pub struct Element {
    pub tag: u64,
    pub class: u32,
    pub values: Sequence<Value>,
}

/// An element that lies elsewhere, with its values where they lie.
#[derive(Clone, Copy)]
pub struct ElementView<'a> {
    pub tag: u64,
    pub class: u32,
    pub values: &'a [Value],
}

impl Element {
    /// An element equal to this one, in time that grows with its values.
    pub fn copy(&self, alloc: Global) -> Result<Element, OutOfMemory>
        ensures { IfOk result (λ copy. copy ≡ self.now) }
    {
        Ok(Element {
            tag: self.tag,
            class: self.class,
            values: self.values.duplicate(alloc)?,
        })
    }

    /// A view of this element.
    pub fn view(&self) -> ElementView<'_>
        ensures { element_in result ≡ self.now }
    {
        ElementView {
            tag: self.tag,
            class: self.class,
            values: self.values.as_slice(),
        }
    }
}

impl Duplicate for Element {
    fn duplicate(&self, alloc: Global) -> Result<Element, OutOfMemory> {
        self.copy(alloc)
    }
}

impl<'a> ElementView<'a> {
    /// The element as a value of its own, in time that grows with its values.
    pub fn to_element(self, alloc: Global) -> Result<Element, OutOfMemory>
        ensures { IfOk result (λ element. element ≡ element_in self.entry) }
    {
        Ok(Element {
            tag: self.tag,
            class: self.class,
            values: Sequence::from_vec(Vec::from_slice(alloc, self.values)?),
        })
    }
}
