//! The elements that ever came, each at a place of its own, and which of them are in working memory. It
//! knows no rules.

ghost use Rattle.std.specs.Prelude.{◌≡◌, ℕ, ◌+◌, ◌<◌, ◌≤◌, ◌^◌, ◌==◌, false, true, IfOk, MatchOption, OnErr, OnOk, Some, filter, length, not, slice_get, [], ◌∷◌, ◌++◌, IfSome};
ghost use Rattle.std.specs.List.{AllByRecursion, list_any};
ghost use Rattle.rule_base.specs.declared.element.Element.{Element};
ghost use Rattle.rule_base.specs.Memory.{Rises, tags_of};
ghost use Rattle.rule_base.specs.Numbers.{has_number};
ghost use Rattle.rule_base.specs.Views.{element_in};
ghost use Rattle.match_network.specs.Arrivals.{has_tag, with_arrival, without_tag};
ghost use Rattle.match_network.specs.Row.{is_living};

use crate::{FullRows, Rows};
use hash_buckets::Living;
use ops_text::OutOfMemory;
use rule_base::{ElementView, Elements, Steps};
use std::alloc::Global;
use std::marker::{Brand, Model};
use std::sync::ledger::{Blank, Ledger};
use working_memory::Memory;

/// The elements that came, and the places of those in working memory. A place is never used again.
#[derive(Drop)]
pub struct Arrivals {
    elements: Elements,
    memory: Memory,
}

impl Model for Arrivals {
    ghost use Rattle.match_network.specs.Arrivals.{Arrivals, HaveArrived};

    ghost Value = { Arrivals };

    ghost view = { λ a. record { came = a.elements; places = a.memory.places } };

    ghost invariant = { λ a. HaveArrived a.elements a.memory.places a.memory.came };
}

impl Arrivals {
    /// No elements.
    pub fn new(alloc: Global) -> Result<Arrivals, OutOfMemory>
        ensures came { IfOk result (λ a. a.came ≡ []) }
        ensures places { IfOk result (λ a. a.places ≡ []) }
    {
        Ok(Arrivals {
            elements: Elements::new(alloc),
            memory: Memory::new(alloc, 0)?,
        })
    }

    /// Takes in an element, and gives it the next place. On average it takes a constant time for each of
    /// its values. It also fails where 2^32 - 1 elements came. After want of memory all is as before.
    pub fn insert(&mut self, element: ElementView<'_>) -> Result<u32, OutOfMemory>
        requires { AllByRecursion (λ (e : Element). e.tag < element.tag) self.old.came }
        ensures place { IfOk result (λ place. place ≡ length self.old.came) }
        ensures ok { OnOk result (self.new ≡ with_arrival self.old (element_in element.entry)) }
        ensures err { OnErr result (self.new ≡ self.old) }
        ensures tags { Rises (tags_of self.new.came) }
        ensures rising { Rises self.new.places × AllByRecursion (λ p. p < length self.new.came) self.new.places }
        ensures below { AllByRecursion (λ p. p < length self.old.came) self.old.places }
    {
        let place = self.elements.len();
        if place >= u32::MAX as usize {
            return Err(OutOfMemory);
        }
        self.memory.reserve(1)?;
        self.elements.push(element)?;
        // From here on nothing fails.
        put_in(&mut self.memory);
        Ok(place as u32)
    }

    /// Takes the element with this tag out of working memory, and tells its place, if it is there. It
    /// takes no memory, and a time that grows with the logarithm of the tags that are missing between the
    /// first one and this one.
    pub fn remove(&mut self, tag: u64) -> Option<u32>
        ensures left { self.new ≡ without_tag self.old tag }
        ensures found { MatchOption result (list_any (has_tag self.old.came tag) self.old.places ≡ false)
            (λ place. (has_number self.old.places place ≡ true) × (has_tag self.old.came tag place ≡ true)) }
    {
        let place = place_of(&self.elements, tag)?;
        if !take_out(&mut self.memory, place) {
            return None;
        }
        Some(place as u32)
    }

    /// The place of the element with this tag, if it is in working memory. It takes as much time as
    /// `remove`.
    pub fn place_of(&self, tag: u64) -> Option<u32>
        ensures found { MatchOption result (list_any (has_tag self.now.came tag) self.now.places ≡ false)
            (λ place. (has_number self.now.places place ≡ true) × (has_tag self.now.came tag place ≡ true)) }
        ensures only { IfSome result (λ place. (other : ℕ) → has_tag self.now.came tag other ≡ (other == place)) }
    {
        let place = place_of(&self.elements, tag)?;
        if !self.memory.has(place) {
            return None;
        }
        Some(place as u32)
    }

    /// Whether a place is in working memory. It takes a constant time.
    pub fn has(&self, place: u32) -> bool
        ensures { result ≡ has_number self.now.places place }
    {
        self.memory.has(place as usize)
    }

    /// Whether all places of a row are in working memory. It looks at one after another, up to the first
    /// that isn't.
    pub fn have(&self, row: &[u32]) -> bool
        ensures { result ≡ is_living self.now.places row.now }
    {
        row.iter().all(|place| self.has(*place))
    }

    /// Those of these rows whose places are all in working memory.
    pub(crate) fn living<'a>(&'a self, rows: &'a Rows) -> FullRows<'a>
        ensures rows { result ≡ filter (is_living self.now.places) rows.now.rows }
        ensures tags { Rises (tags_of self.now.came) }
        ensures below { AllByRecursion (λ p. p < length self.now.came) self.now.places }
    {
        let _elements = &self.elements;
        FullRows::new(rows, self)
    }

    /// The element that came at a place.
    pub fn at(&self, place: u32) -> ElementView<'_>
        requires { place < length self.now.came }
        ensures { slice_get self.now.came place ≡ Some (element_in result) }
    {
        self.elements.at(place as usize)
    }

    /// How many elements came. The next one will have this place.
    pub fn len(&self) -> usize
        ensures value { result ≡ length self.now.came }
        ensures few { result < 2 ^ 32 }
        ensures tags { Rises (tags_of self.now.came) }
        ensures rising { Rises self.now.places × AllByRecursion (λ p. p < length self.now.came) self.now.places }
    {
        self.elements.len()
    }
}

impl Living for Arrivals {
    ghost use Rattle.rule_base.specs.Numbers.{has_number};

    ghost lives = { λ a. has_number a.places };

    fn is_living(&self, number: u32) -> bool {
        self.has(number)
    }
}

/// Takes the next place in. Nobody counts the steps.
fn put_in(memory: &mut Memory)
    requires { 0 < memory.old.spare }
    ensures places { memory.new.places ≡ memory.old.places ++ memory.old.came ∷ [] }
    ensures came { memory.new.came ≡ memory.old.came + 1 }
{
    put_in_on::<Brand>(memory, Blank::new(1));
}

/// The same, on a ledger of its own.
fn put_in_on<L: Ledger>(memory: &mut Memory, blank: Blank)
    requires spare { 0 < memory.old.spare }
    requires name { blank.name ≡ L.name }
    requires parts { blank.parts ≡ L.parts }
    requires one { blank.parts ≡ 1 }
    ensures places { memory.new.places ≡ memory.old.places ++ memory.old.came ∷ [] }
    ensures came { memory.new.came ≡ memory.old.came + 1 }
{
    let mut steps = Steps::<L>::new(blank);
    memory.insert(&mut steps);
}

/// Takes a place out, and says whether it was there. Nobody counts the steps.
fn take_out(memory: &mut Memory, place: usize) -> bool
    ensures found { result ≡ has_number memory.old.places place }
    ensures places { memory.new.places ≡ filter (λ p. not (p == place)) memory.old.places }
    ensures came { memory.new.came ≡ memory.old.came }
{
    take_out_on::<Brand>(memory, place, Blank::new(1))
}

/// The same, on a ledger of its own.
fn take_out_on<L: Ledger>(memory: &mut Memory, place: usize, blank: Blank) -> bool
    requires name { blank.name ≡ L.name }
    requires parts { blank.parts ≡ L.parts }
    requires one { blank.parts ≡ 1 }
    ensures found { result ≡ has_number memory.old.places place }
    ensures places { memory.new.places ≡ filter (λ p. not (p == place)) memory.old.places }
    ensures came { memory.new.came ≡ memory.old.came }
{
    let mut steps = Steps::<L>::new(blank);
    memory.remove(place, &mut steps)
}

/// The place of the element with this tag, by halving. Where no tag is missing between the first one and
/// this one it looks at one element.
fn place_of(elements: &Elements, tag: u64) -> Option<usize>
    requires { Rises (tags_of elements.now) }
    ensures { MatchOption result ((place : ℕ) → has_tag elements.now tag place ≡ false) (λ place. has_tag elements.now tag place ≡ true) }
{
    let mut low = 0;
    let mut high = end_of(elements, tag);
    let mut middle = high.saturating_sub(1);
    while low < high {
        let found = elements.at(middle).tag;
        if found == tag {
            return Some(middle);
        }
        if found < tag {
            low = middle + 1;
        } else {
            high = middle;
        }
        middle = low + (high - low) / 2;
    }
    None
}

/// A place that is past the element with this tag, and no more past it than tags are missing before it.
fn end_of(elements: &Elements, tag: u64) -> usize
    requires { Rises (tags_of elements.now) }
    ensures within { result ≤ length elements.now }
    ensures past { (place : ℕ) → result ≤ place → has_tag elements.now tag place ≡ false }
{
    let len = elements.len();
    if len == 0 {
        return 0;
    }
    let first = elements.at(0).tag;
    if tag < first {
        return 0;
    }
    let apart = tag - first;
    if apart < len as u64 {
        apart as usize + 1
    } else {
        len
    }
}
