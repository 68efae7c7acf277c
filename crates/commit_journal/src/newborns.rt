//! The elements that a run makes, in flat arrays. Their tags are consecutive, so each is found by its
//! tag at once.

ghost use Rattle.std.specs.Prelude.{◌≡◌, ◌+◌, ◌^◌, ◌<◌, ◌≤◌, [], ◌∷◌, ◌++◌, ◌↔◌, IfOk, IsTrue, OnOk, Some, drop, length, option_map, slice_get, take};
ghost use Rattle.rule_base.specs.Memory.{element_at, tags_of, value_count};
ghost use Rattle.rule_base.specs.Opening.{AreConsecutive};
ghost use Rattle.rule_base.specs.Step.{born};
ghost use Rattle.rule_base.specs.Views.{element_in};
ghost use Rattle.rhs_actions.specs.EffectViews.{change_in};

use crate::lists::{Lists, part};
use ops_text::OutOfMemory;
use rhs_actions::{ChangeView, Effect};
use rule_base::{ElementView, Elements, Steps, Value};
use std::alloc::Global;
use std::marker::Model;
use std::sync::ledger::Ledger;

/// Elements in the order in which they were made.
#[derive(Drop)]
pub struct Newborns {
    /// The tag of the first one. Each has the tag after that of the one before it.
    first: u64,
    classes: Vec<u32>,
    values: Lists<Value>,
}

impl Model for Newborns {
    ghost use Rattle.std.specs.Prelude.{◌≡◌, ◌+◌, ◌-◌, ◌^◌, ◌<◌, length, min, vec_capacity, vec_len};
    ghost use Rattle.commit_journal.specs.Newborns.{Made, numbered};

    ghost Value = { Made };

    ghost view = { λ s. record { elements = numbered s.first s.classes.items s.values.lists; next = s.first + length s.classes.items; more_elements = min (vec_capacity s.classes - vec_len s.classes) s.values.more_lists; more_values = s.values.more_items } };

    ghost invariant = { λ s. (length s.values.lists ≡ length s.classes.items) × (s.first + length s.classes.items < 2 ^ 64) };
}

impl Newborns {
    /// No elements, the first of which will have this tag. It takes no memory.
    pub fn new(alloc: Global, next: u64) -> Newborns
        ensures elements { result.elements ≡ [] }
        ensures next { result.next ≡ next }
    {
        Newborns {
            first: next,
            classes: Vec::new(alloc),
            values: Lists::new(alloc),
        }
    }

    /// How many there are.
    pub fn len(&self) -> usize
        ensures { result ≡ length self.now.elements }
    {
        self.classes.len()
    }

    /// The tag of the next one.
    pub fn next(&self) -> u64
        ensures { result ≡ self.now.next }
    {
        self.first + self.classes.len() as u64
    }

    /// Whether so many more elements get tags of 64 bits and places of 32.
    pub fn has_numbers_for(&self, elements: usize) -> bool
        ensures { IsTrue result ↔ ((self.now.next + elements < 2 ^ 64) × (length self.now.elements + elements < 2 ^ 32)) }
    {
        let places = u32::MAX as usize;
        let len = self.len();
        elements <= places && len <= places - elements && self.next() <= u64::MAX - elements as u64
    }

    /// The element at a place that counts from 0.
    pub fn at(&self, place: usize) -> ElementView<'_>
        requires { place < length self.now.elements }
        ensures { slice_get self.now.elements place ≡ Some (element_in result) }
    {
        ElementView {
            tag: self.first + place as u64,
            class: self.classes[place],
            values: self.values.at(place),
        }
    }

    /// The element that is so many places behind a place.
    pub fn behind(&self, place: usize, number: usize) -> ElementView<'_>
        requires { place + number < length self.now.elements }
        ensures { slice_get self.now.elements (place + number) ≡ Some (element_in result) }
    {
        // So the sum is no greater than a length, and has 64 bits.
        let len = self.len();
        prove!(place + number < len);
        self.at(place + number)
    }

    /// The element with this tag, if it is one of these. It takes the same time however many there are.
    pub fn with_tag(&self, tag: u64) -> Option<ElementView<'_>>
        ensures { option_map element_in result ≡ element_at self.now.elements tag }
    {
        if tag < self.first {
            return None;
        }
        let place = tag - self.first;
        if place < self.classes.len() as u64 {
            Some(self.at(place as usize))
        } else {
            None
        }
    }

    /// Room for so many more elements, and for so many values of theirs. The elements stay, and room
    /// never falls.
    pub fn reserve(&mut self, elements: usize, values: usize) -> Result<(), OutOfMemory>
        ensures elements { (self.new.elements ≡ self.old.elements) × (self.new.next ≡ self.old.next) }
        ensures ok { OnOk result ((elements ≤ self.new.more_elements) × (values ≤ self.new.more_values)) }
        ensures kept { (self.old.more_elements ≤ self.new.more_elements) × (self.old.more_values ≤ self.new.more_values) }
    {
        self.classes.reserve(elements)?;
        self.values.reserve(elements, values)
    }

    /// Adds an element at the end. It takes no memory.
    pub fn push(&mut self, element: ElementView<'_>)
        requires tag { element.tag ≡ self.old.next }
        requires below { self.old.next + 1 < 2 ^ 64 }
        requires room { (1 ≤ self.old.more_elements) × (length element.values.now ≤ self.old.more_values) }
        ensures elements { self.new.elements ≡ self.old.elements ++ element_in element.entry ∷ [] }
        ensures next { self.new.next ≡ self.old.next + 1 }
        ensures left { (self.old.more_elements ≤ self.new.more_elements + 1) × (self.old.more_values ≤ self.new.more_values + length element.entry.values.now) }
    {
        self.classes.push_reserved(element.class);
        self.values.push(element.values);
    }

    /// Adds elements at the end, and tells how many values they have together. It takes no memory.
    pub fn extend(&mut self, born: &Elements) -> usize
        requires tags { AreConsecutive self.old.next (tags_of born.now) }
        requires below { self.old.next + length born.now < 2 ^ 64 }
        requires few { value_count born.now < 2 ^ 64 }
        requires room { (length born.now ≤ self.old.more_elements) × (value_count born.now ≤ self.old.more_values) }
        ensures elements { self.new.elements ≡ self.old.elements ++ born.now }
        ensures next { self.new.next ≡ self.old.next + length born.now }
        ensures left { (self.old.more_elements ≤ self.new.more_elements + length born.now) × (self.old.more_values ≤ self.new.more_values + value_count born.now) }
        ensures count { result ≡ value_count born.now }
    {
        let mut count = 0;
        for at in 0..born.len() {
            let element = born.at(at);
            self.push(element);
            count += element.values.len();
        }
        count
    }

    /// Adds the elements that an effect makes, and tells how many values they have together. It takes no
    /// memory, and a step for each change.
    pub fn extend_made<L: Ledger>(&mut self, effect: &Effect, steps: &mut Steps<L>) -> usize
        requires below { self.old.next + length (born self.old.next effect.now.changes) < 2 ^ 64 }
        requires few { value_count (born self.old.next effect.now.changes) < 2 ^ 64 }
        requires room { (length (born self.old.next effect.now.changes) ≤ self.old.more_elements) × (value_count (born self.old.next effect.now.changes) ≤ self.old.more_values) }
        ensures elements { self.new.elements ≡ self.old.elements ++ born self.old.next effect.now.changes }
        ensures next { self.new.next ≡ self.old.next + length (born self.old.next effect.now.changes) }
        ensures left { (self.old.more_elements ≤ self.new.more_elements + length (born self.old.next effect.now.changes)) × (self.old.more_values ≤ self.new.more_values + value_count (born self.old.next effect.now.changes)) }
        ensures count { result ≡ value_count (born self.old.next effect.now.changes) }
        ensures steps { steps.new ≤ steps.old + length effect.now.changes }
    {
        let mut count = 0;
        for at in 0..effect.len() {
            steps.tick();
            count += self.push_made(effect.change(at));
        }
        count
    }

    /// Adds the element that a change makes, if it makes one, and tells how many values it has. It takes
    /// no memory.
    fn push_made(&mut self, change: ChangeView<'_>) -> usize
        requires below { self.old.next + length (born self.old.next (change_in change ∷ [])) < 2 ^ 64 }
        requires room { (length (born self.old.next (change_in change ∷ [])) ≤ self.old.more_elements) × (value_count (born self.old.next (change_in change ∷ [])) ≤ self.old.more_values) }
        ensures elements { self.new.elements ≡ self.old.elements ++ born self.old.next (change_in change.entry ∷ []) }
        ensures next { self.new.next ≡ self.old.next + length (born self.old.next (change_in change.entry ∷ [])) }
        ensures left { (self.old.more_elements ≤ self.new.more_elements + length (born self.old.next (change_in change.entry ∷ []))) × (self.old.more_values ≤ self.new.more_values + value_count (born self.old.next (change_in change.entry ∷ []))) }
        ensures count { result ≡ value_count (born self.old.next (change_in change.entry ∷ [])) }
    {
        match change {
            ChangeView::Remove(_) => 0,
            ChangeView::Make { class, values } => {
                let tag = self.next();
                self.push(ElementView { tag, class, values });
                values.len()
            }
        }
    }

    /// Elements equal to so many of these, from a place on. What stands before them costs nothing.
    pub fn range(&self, alloc: Global, from: usize, count: usize) -> Result<Newborns, OutOfMemory>
        requires { from + count ≤ length self.now.elements }
        ensures elements { IfOk result (λ some. some.elements ≡ take count (drop from self.now.elements)) }
        ensures next { IfOk result (λ some. some.next + length (drop (from + count) self.now.elements) ≡ self.now.next) }
    {
        let classes = part(self.classes.as_slice(), from, from + count);
        Ok(Newborns {
            first: self.first + from as u64,
            classes: Vec::from_slice(alloc, classes)?,
            values: self.values.range(alloc, from, count)?,
        })
    }
}
