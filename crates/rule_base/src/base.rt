//! Where a run begins, and how long a choice that has fired stays fired.

ghost use Rattle.std.specs.Prelude.{◌≡◌, ◌^◌, ◌<◌, length};
ghost use Rattle.rule_base.specs.Memory.{tags_of};
ghost use Rattle.rule_base.specs.Opening.{AreConsecutive};
ghost use Rattle.rule_base.specs.State.{opening_base};

use crate::{Choice, Elements};
use ops_text::Sequence;
use std::alloc::Global;

/// How long an instantiation that has fired doesn't fire again.
#[derive(Clone, Copy, Debug, PartialEq, Eq)]
pub enum Refraction {
    /// For good: it never fires again.
    Once,
    /// While it goes on matching: once it has stopped matching it may fire again. Time tags never come
    /// back, so it can match anew only where a negated condition element was in its way.
    Renewed,
}

/// Where a run begins: the elements of the working memory, the next time tag, the fired choices, which
/// are those that stay fired from before, and the refraction.
#[derive(Debug, Drop)]
pub struct Base {
    pub elements: Elements,
    pub next: u64,
    pub fired: Sequence<Choice>,
    pub refraction: Refraction,
}

impl Base {
    /// The base of a run that begins anew with these elements: the next tag is the one after theirs,
    /// and nothing has fired. It takes no memory.
    pub fn opening(alloc: Global, elements: Elements, refraction: Refraction) -> Base
        requires consecutive { AreConsecutive 1 (tags_of elements) }
        requires few { length elements < 2 ^ 62 }
        ensures { result ≡ opening_base elements refraction }
    {
        let next = elements.len() as u64 + 1;
        Base {
            elements,
            next,
            fired: Sequence::new(alloc),
            refraction,
        }
    }
}
