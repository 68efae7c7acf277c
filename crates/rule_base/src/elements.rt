//! Elements in flat arrays: however many there are, they lie in two blocks, so that taking one in needs
//! no block of its own.

ghost use Rattle.std.specs.Prelude.{◌≡◌, ◌+◌, ◌≤◌, ◌<◌, ◌^◌, ◌↔◌, [], ◌∷◌, ◌++◌, ◌==◌, IfOk, IsTrue, OnOk, OnErr, Some, length, map, option_map, slice_get, vec_capacity, vec_len};
ghost use Rattle.std.specs.List.{list_any};
ghost use Rattle.rule_base.specs.Memory.{element_at};
ghost use Rattle.rule_base.specs.Step.{without};
ghost use Rattle.rule_base.specs.Views.{element_in};
ghost use Rattle.rule_base.specs.Places.{AreWithin, IsWithin, element_of, places_without, moved_by};

use crate::{Element, ElementView, Value};
use ops_text::{OutOfMemory, Sequence};
use std::alloc::Global;
use std::marker::Model;

/// Where an element lies: its values are so many from a place on.
#[derive(Clone, Copy, Debug)]
struct Place {
    tag: u64,
    start: usize,
    size: usize,
    class: u32,
}

/// Elements in order.
#[derive(Debug, Drop)]
pub struct Elements {
    places: Vec<Place>,
    values: Vec<Value>,
}

impl Model for Elements {
    ghost use Rattle.std.specs.Prelude.{List};
    ghost use Rattle.rule_base.specs.declared.element.Element.{Element};
    ghost use Rattle.rule_base.specs.Places.{elements_in, AreWithin};

    ghost Value = { List Element };

    ghost view = { λ elements. elements_in elements.values.items elements.places.items };

    ghost invariant = { λ elements. AreWithin elements.values.items elements.places.items };
}

impl Elements {
    /// No elements, which takes no memory.
    pub fn new(alloc: Global) -> Elements
        ensures { result ≡ [] }
    {
        Elements {
            places: Vec::new(alloc),
            values: Vec::new(alloc),
        }
    }

    /// These elements.
    pub fn from_slice(alloc: Global, elements: &[Element]) -> Result<Elements, OutOfMemory>
        ensures { IfOk result (λ all. all ≡ elements.now) }
    {
        let mut all = Elements::new(alloc);
        for element in elements {
            all.push(element.view())?;
        }
        Ok(all)
    }

    /// The elements, each as a value of its own.
    pub fn to_elements(&self, alloc: Global) -> Result<Sequence<Element>, OutOfMemory>
        ensures { IfOk result (λ elements. elements ≡ self.now) }
    {
        let mut elements = Sequence::new(alloc);
        for at in 0..self.len() {
            elements.push(self.at(at).to_element(alloc)?)?;
        }
        Ok(elements)
    }

    /// Elements equal to these. Two blocks are copied, however many elements there are, with the values
    /// of those that `change` took away.
    pub fn copy(&self, alloc: Global) -> Result<Elements, OutOfMemory>
        ensures { IfOk result (λ copy. copy ≡ self.now) }
    {
        Ok(Elements {
            places: Vec::from_slice(alloc, self.places.as_slice())?,
            values: Vec::from_slice(alloc, self.values.as_slice())?,
        })
    }

    /// How many there are: fewer than there are numbers.
    pub fn len(&self) -> usize
        ensures value { result ≡ length self.now }
        ensures few { length self.now < 2 ^ 63 }
    {
        self.places.len()
    }

    /// Whether there are none.
    pub fn is_empty(&self) -> bool
        ensures { IsTrue result ↔ (self.now ≡ []) }
    {
        self.places.is_empty()
    }

    /// The element at a place that counts from 0.
    pub fn at(&self, place: usize) -> ElementView<'_>
        requires { place < length self.now }
        ensures { slice_get self.now place ≡ Some (element_in result) }
    {
        view(self.values.as_slice(), self.places[place])
    }

    /// The first element with this tag, if there is one. It looks at one after another.
    pub fn with_tag(&self, tag: u64) -> Option<ElementView<'_>>
        ensures { option_map element_in result ≡ element_at self.now tag }
    {
        for at in 0..self.len() {
            let element = self.at(at);
            if element.tag == tag {
                return Some(element);
            }
        }
        None
    }

    /// Takes all elements away. The room that they had stays, though no contract says so.
    pub fn clear(&mut self)
        ensures { self.new ≡ [] }
    {
        self.places.clear();
        self.values.clear();
    }

    /// Adds an element at the end. After want of memory all is as before.
    pub fn push(&mut self, element: ElementView<'_>) -> Result<(), OutOfMemory>
        ensures ok { OnOk result (self.new ≡ self.old ++ element_in element.entry ∷ []) }
        ensures err { OnErr result (self.new ≡ self.old) }
    {
        let start = self.values.len();
        self.places.reserve(1)?;
        self.values.extend_from_slice(element.values)?;
        // From here on nothing fails.
        self.places.push_reserved(Place {
            tag: element.tag,
            start,
            size: element.values.len(),
            class: element.class,
        });
        Ok(())
    }

    /// Takes the elements with these tags away, and then adds others. After want of memory all is as
    /// before. The values of what goes stay where they lie.
    pub fn change(
        &mut self,
        alloc: Global,
        gone: &[u64],
        born: &Elements,
    ) -> Result<(), OutOfMemory>
        ensures ok { OnOk result (self.new ≡ without self.old gone.now ++ born.now) }
        ensures err { OnErr result (self.new ≡ self.old) }
    {
        let values = born.values.as_slice();
        let places = moved_by(alloc, self.values.len(), born.places.as_slice(), values)?;
        self.places.reserve(places.len())?;
        self.values.extend_from_slice(values)?;
        // From here on nothing fails.
        replace(&mut self.places, gone, places);
        Ok(())
    }
}

/// The element that lies at this place among the values.
fn view(values: &[Value], place: Place) -> ElementView<'_>
    requires { IsWithin values.now place }
    ensures { element_in result ≡ element_of values.now place }
{
    ElementView {
        tag: place.tag,
        class: place.class,
        values: &values[place.start..place.start + place.size],
    }
}

/// The places among these values, each so far behind.
fn moved_by(
    alloc: Global,
    by: usize,
    places: &[Place],
    values: &[Value],
) -> Result<Vec<Place>, OutOfMemory>
    requires within { AreWithin values.now places.now }
    requires few { by + length values.now < 2 ^ 64 }
    ensures { IfOk result (λ moved. moved.items ≡ map (moved_by by) places.now) }
{
    let mut moved = Vec::new(alloc);
    for place in places {
        let start = by + place.start;
        moved.push(Place { start, ..*place })?;
    }
    Ok(moved)
}

/// Takes the places of the elements with these tags away, and then adds others. It has the room that it
/// needs, and takes none.
fn replace(places: &mut Vec<Place>, gone: &[u64], others: Vec<Place>)
    requires { vec_len places.old + vec_len others ≤ vec_capacity places.old }
    ensures { places.new.items ≡ places_without places.old.items gone.now ++ others.items }
{
    remove(places, gone);
    let mut others = others;
    places.append(&mut others).unwrap();
}

/// Takes the places of the elements with these tags away.
fn remove(places: &mut Vec<Place>, gone: &[u64])
    ensures left { places.new.items ≡ places_without places.old.items gone.now }
    ensures fewer { vec_len places.new ≤ vec_len places.old }
    ensures room { vec_capacity places.new ≡ vec_capacity places.old }
{
    places.retain(|place| !is_among(place.tag, gone));
}

fn is_among(tag: u64, tags: &[u64]) -> bool
    ensures { result ≡ list_any (λ other. other == tag) tags.now }
{
    tags.iter().any(|other| *other == tag)
}
