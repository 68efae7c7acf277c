//! The elements of a run where they lie, and which of them are in working memory. Each lies once: those of
//! the base there, and those that firings made in the journal.

ghost use Rattle.std.specs.Prelude.{◌≡◌, ◌+◌, ◌*◌, ◌<◌, ◌≤◌, [], ◌∷◌, ◌++◌, IfOk, OnOk, length, option_map, option_to_list, slice_get};
ghost use Rattle.std.specs.List.{AllByRecursion, range_with_len};
ghost use Rattle.commit_journal.specs.Room.{FitsIn, room_for, room_without};
ghost use Rattle.rule_base.specs.declared.element.Element.{Element};
ghost use Rattle.rule_base.specs.Effect.{removed_tags};
ghost use Rattle.rule_base.specs.Memory.{Rises, element_at, tags_of};
ghost use Rattle.rule_base.specs.Step.{born, entry_of, without};
ghost use Rattle.rule_base.specs.Views.{element_in};
ghost use Rattle.firing_core.specs.Store.{IsLater, IsPlaceOf, IsSameBesideMemory, came, living, living_at, memory_in};

use crate::tags::place_of;
use commit_journal::{Journal, Room};
use ops_text::OutOfMemory;
use rhs_actions::Effect;
use rule_base::{Base, ElementView, Elements, Steps};
use std::alloc::Global;
use std::marker::Model;
use std::sync::ledger::Ledger;
use working_memory::Memory;

/// The base of a run, its journal, and which of the elements of both are in working memory.
#[derive(Drop)]
pub struct Store {
    base: Base,
    journal: Journal,
    /// An element of the base has its place there, and the others follow in the order of their tags.
    memory: Memory,
}

impl Model for Store {
    ghost use Rattle.firing_core.specs.Store.{IsStored, Stored};

    ghost Value = { Stored };

    ghost view = { λ s. record { base = s.base; entries = s.journal.entries; next = s.journal.next; places = s.memory.places; room = s.journal.room; spare = s.memory.spare } };

    ghost invariant = { λ s. IsStored s.base s.journal.entries s.journal.next s.memory };
}

impl Store {
    /// What a run begins with: all elements of the base are in working memory.
    pub fn new(alloc: Global, base: Base) -> Result<Store, OutOfMemory>
        requires rising { Rises (tags_of base.elements) }
        requires given { AllByRecursion (λ (e : Element). e.tag < base.next) base.elements }
        ensures base { IfOk result (λ store. store.base ≡ base) }
        ensures entries { IfOk result (λ store. store.entries ≡ []) }
        ensures next { IfOk result (λ store. store.next ≡ base.next) }
        ensures memory { IfOk result (λ store. memory_in store ≡ base.elements) }
    {
        let memory = Memory::new(alloc, base.elements.len())?;
        let journal = Journal::new(alloc, base.next);
        Ok(Store {
            base,
            journal,
            memory,
        })
    }

    /// The base.
    pub fn base(&self) -> &Base
        ensures { result.now ≡ self.now.base }
    {
        &self.base
    }

    /// The journal.
    pub fn journal(&self) -> &Journal
        ensures entries { result.now.entries ≡ self.now.entries }
        ensures next { result.now.next ≡ self.now.next }
    {
        &self.journal
    }

    /// Which places are in working memory.
    pub fn memory(&self) -> &Memory
        ensures { result.now.places ≡ self.now.places }
    {
        &self.memory
    }

    /// How many elements ever came.
    pub fn came(&self) -> usize
        ensures { result ≡ length (came self.now.base self.now.entries) }
    {
        self.memory.came()
    }

    /// The journal, where nothing asks for the elements any more.
    pub fn into_journal(self) -> Journal
        ensures entries { result.entries ≡ self.entries }
        ensures next { result.next ≡ self.next }
    {
        self.journal
    }

    /// How many elements are in working memory.
    pub fn len(&self) -> usize
        ensures { result ≡ length (memory_in self.now) }
    {
        self.memory.len()
    }

    /// The element of the working memory with this tag, if there is one. One that was made is found at
    /// once, and one of the base by halving.
    pub fn element(&self, tag: u64) -> Option<ElementView<'_>>
        ensures { option_map element_in result ≡ element_at (memory_in self.now) tag }
    {
        match self.place_of(tag) {
            Some(place) if self.memory.has(place) => self.at(place),
            _ => None,
        }
    }

    /// The place of the element that came with this tag, if one did.
    fn place_of(&self, tag: u64) -> Option<usize>
        ensures { IsPlaceOf (came self.now.base self.now.entries) tag result }
    {
        if tag < self.base.next {
            return place_of(&self.base.elements, tag);
        }
        let behind = tag - self.base.next;
        let before = self.base.elements.len();
        let made = self.memory.came() - before;
        if behind < made as u64 {
            Some(before + behind as usize)
        } else {
            None
        }
    }

    /// The element at a place, if one came to it.
    fn at(&self, place: usize) -> Option<ElementView<'_>>
        ensures { option_map element_in result ≡ slice_get (came self.now.base self.now.entries) place }
    {
        let before = self.base.elements.len();
        if place < before {
            return Some(self.base.elements.at(place));
        }
        let came = self.memory.came();
        if place < came {
            // What came last has the tag before the next one.
            let behind = (came - place) as u64;
            self.journal.born(self.journal.next() - behind)
        } else {
            None
        }
    }

    /// The places of the elements in working memory, in rising order of their tags, and among them some
    /// of elements that have gone: ask `living`.
    pub fn slots(&self) -> &[usize]
        ensures { living_at self.now result.now ≡ memory_in self.now }
    {
        self.memory.slots()
    }

    /// The element at a place, if it is in working memory. It takes a constant time.
    pub fn living(&self, place: usize) -> Option<ElementView<'_>>
        ensures { option_to_list (option_map element_in result) ≡ living self.now place }
    {
        if self.memory.has(place) {
            self.at(place)
        } else {
            None
        }
    }

    /// Adds the elements of the working memory to others, in rising order of their tags.
    pub fn add_to(&self, elements: &mut Elements) -> Result<(), OutOfMemory>
        ensures { OnOk result (elements.new ≡ elements.old ++ memory_in self.now) }
    {
        for place in self.slots() {
            self.add_living(*place, elements)?;
        }
        Ok(())
    }

    /// Adds the element at a place, if it is in working memory.
    fn add_living(&self, place: usize, elements: &mut Elements) -> Result<(), OutOfMemory>
        ensures { OnOk result (elements.new ≡ elements.old ++ living self.now place) }
    {
        if let Some(element) = self.living(place) {
            elements.push(element)?;
        }
        Ok(())
    }

    /// Room for a commit.
    pub fn reserve(&mut self, room: Room) -> Result<(), OutOfMemory>
        ensures memory { self.new.places ≡ self.old.places }
        ensures base { self.new.base ≡ self.old.base }
        ensures entries { self.new.entries ≡ self.old.entries }
        ensures next { self.new.next ≡ self.old.next }
        ensures ok { OnOk result (FitsIn room self.new.room × (room.elements ≤ self.new.spare)) }
        ensures kept { FitsIn self.old.room self.new.room × (self.old.spare ≤ self.new.spare) }
    {
        self.journal.reserve(room)?;
        self.memory.reserve(room.elements)
    }

    /// Commits the effect of a firing: what it removes goes, and then what it makes comes, with the next
    /// tags. It takes no memory.
    pub fn commit<L: Ledger>(
        &mut self,
        rule: u32,
        tags: &[u64],
        effect: &Effect,
        steps: &mut Steps<L>,
    )
        requires room { FitsIn (room_for tags.now (removed_tags effect.now.changes) (born self.old.next effect.now.changes) effect.now.pieces) self.old.room }
        requires spare { length (born self.old.next effect.now.changes) ≤ self.old.spare }
        ensures memory { memory_in self.new ≡ without (memory_in self.old) (removed_tags effect.now.changes) ++ born self.old.next effect.now.changes }
        ensures later { IsLater self.old self.new }
        ensures base { self.new.base ≡ self.old.base }
        ensures entries { self.new.entries ≡ self.old.entries ++ entry_of self.old.next (record { rule = rule; tags = tags.now }) effect.now ∷ [] }
        ensures next { self.new.next ≡ self.old.next + length (born self.old.next effect.now.changes) }
        ensures room { self.new.room ≡ room_without self.old.room (room_for tags.now (removed_tags effect.now.changes) (born self.old.next effect.now.changes) effect.now.pieces) }
        ensures spare { self.old.spare ≤ self.new.spare + length (born self.old.next effect.now.changes) }
        ensures steps { steps.new ≤ steps.old + 3 * length effect.now.changes + 1 }
    {
        self.remove_all(effect.removed_tags(), steps);
        insert_all(&mut self.memory, effect.makes(), steps);
        self.journal.commit(rule, tags, effect, steps);
    }

    /// Takes the elements with these tags away.
    fn remove_all<L: Ledger>(&mut self, gone: &[u64], steps: &mut Steps<L>)
        ensures memory { memory_in self.new ≡ without (memory_in self.old) gone.now }
        ensures others { IsSameBesideMemory self.old self.new }
        ensures spare { self.old.spare ≤ self.new.spare }
        ensures steps { steps.new ≤ steps.old + 2 * length gone.now }
    {
        for tag in gone {
            self.remove(*tag, steps);
        }
    }

    /// Takes the element with this tag away, if there is one.
    fn remove<L: Ledger>(&mut self, tag: u64, steps: &mut Steps<L>)
        ensures memory { memory_in self.new ≡ without (memory_in self.old) (tag ∷ []) }
        ensures others { IsSameBesideMemory self.old self.new }
        ensures spare { self.old.spare ≤ self.new.spare }
        ensures steps { steps.new ≤ steps.old + 2 }
    {
        if let Some(place) = self.place_of(tag) {
            self.memory.remove(place, steps);
        }
    }
}

/// Takes in so many more elements.
fn insert_all<L: Ledger>(memory: &mut Memory, count: usize, steps: &mut Steps<L>)
    requires { count ≤ memory.old.spare }
    ensures places { memory.new.places ≡ memory.old.places ++ range_with_len memory.old.came count }
    ensures came { memory.new.came ≡ memory.old.came + count }
    ensures spare { memory.old.spare ≤ memory.new.spare + count }
    ensures steps { steps.new ≤ steps.old + 2 * count }
{
    for _ in 0..count {
        memory.insert(steps);
    }
}
