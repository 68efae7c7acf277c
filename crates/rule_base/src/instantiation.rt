//! Instantiations: a rule with the elements that match its positive condition elements.

ghost use Rattle.std.specs.Prelude.{◌≡◌, ◌↔◌, IfOk, IsTrue};
ghost use Rattle.std.specs.List.{AllByRecursion};
ghost use Rattle.rule_base.specs.Fits.{Fits};
ghost use Rattle.rule_base.specs.Memory.{HasSize, tags_of};
ghost use Rattle.rule_base.specs.Sound.{sizes_of};
ghost use Rattle.rule_base.specs.State.{same_choice};
ghost use Rattle.rule_base.specs.Views.{element_in};
ghost use Rattle.rule_base.specs.Numbers.{same_numbers};

use crate::{Class, ElementView, Elements, Program};
use ops_text::{Duplicate, OutOfMemory, Sequence};
use std::alloc::Global;

/// An instantiation, by the rule's number and the time tags of the elements that match its positive
/// condition elements, in their order. The same element may stand there twice.
#[derive(Debug, Drop)]
pub struct Choice {
    pub rule: u32,
    pub tags: Sequence<u64>,
}

/// An instantiation together with its elements, in the order of its tags.
#[derive(Debug, Drop)]
pub struct Candidate {
    pub choice: Choice,
    pub elements: Elements,
}

impl Choice {
    /// An instantiation equal to this one.
    pub fn copy(&self, alloc: Global) -> Result<Choice, OutOfMemory>
        ensures { IfOk result (λ copy. copy ≡ self.now) }
    {
        Ok(Choice {
            rule: self.rule,
            tags: self.tags.duplicate(alloc)?,
        })
    }

    /// Whether both are the same rule with the same tags: refraction tells instantiations apart so.
    pub fn same(&self, other: &Choice) -> bool
        ensures equal { IsTrue result ↔ (self.now ≡ other.now) }
        ensures test { result ≡ same_choice self.now other.now }
    {
        self.rule == other.rule && self.tags.as_slice() == other.tags.as_slice()
    }
}

impl Duplicate for Choice {
    fn duplicate(&self, alloc: Global) -> Result<Choice, OutOfMemory> {
        self.copy(alloc)
    }
}

impl Candidate {
    /// A candidate equal to this one.
    pub fn copy(&self, alloc: Global) -> Result<Candidate, OutOfMemory>
        ensures { IfOk result (λ copy. copy ≡ self.now) }
    {
        Ok(Candidate {
            choice: self.choice.copy(alloc)?,
            elements: self.elements.copy(alloc)?,
        })
    }

    /// Whether its elements are those of its tags, one for each positive condition element of its rule,
    /// and of classes of the program with as many values. It looks at each element once.
    pub fn fits(&self, program: &Program) -> bool
        ensures { IsTrue result ↔ Fits program.now self.now }
    {
        let Some(rule) = program.rules.get(self.choice.rule as usize) else {
            return false;
        };
        rule.positives as usize == self.elements.len()
            && have_tags(&self.elements, self.choice.tags.as_slice())
            && have_sizes(&self.elements, program.classes.as_slice())
    }
}

/// Whether these are the elements' tags, in order.
fn have_tags(elements: &Elements, tags: &[u64]) -> bool
    ensures { result ≡ same_numbers (tags_of elements.now) tags.now }
{
    if elements.len() != tags.len() {
        return false;
    }
    for at in 0..elements.len() {
        if elements.at(at).tag != tags[at] {
            return false;
        }
    }
    true
}

/// Whether each element is of one of the classes, with a value for each of its attributes.
fn have_sizes(elements: &Elements, classes: &[Class]) -> bool
    ensures { IsTrue result ↔ AllByRecursion (HasSize (sizes_of classes.now)) elements.now }
{
    for at in 0..elements.len() {
        if !has_size(elements.at(at), classes) {
            return false;
        }
    }
    true
}

/// Whether the element is of one of the classes, with a value for each of its attributes.
fn has_size(element: ElementView<'_>, classes: &[Class]) -> bool
    ensures { IsTrue result ↔ HasSize (sizes_of classes.now) (element_in element.entry) }
{
    match classes.get(element.class as usize) {
        Some(class) => class.attrs.len() == element.values.len(),
        None => false,
    }
}
