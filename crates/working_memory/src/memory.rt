//! Working memory as places: which of the elements that ever came haven't gone.

ghost use Rattle.std.specs.Prelude.{◌≡◌, ◌+◌, ◌*◌, ◌<◌, ◌≤◌, ◌==◌, [], ◌∷◌, ◌++◌, ◌↔◌, IfOk, IsTrue, OnOk, filter, length, not, replicate, true, vec_capacity, vec_len};
ghost use Rattle.std.specs.List.{AllByRecursion, range_with_len};
ghost use Rattle.rule_base.specs.Memory.{Rises};
ghost use Rattle.working_memory.specs.Memory.{is_here};
ghost use Rattle.rule_base.specs.Numbers.{has_number};

use ops_text::OutOfMemory;
use rule_base::Steps;
use std::alloc::Global;
use std::marker::Model;
use std::sync::ledger::Ledger;

/// Which of the elements that ever came are in working memory, by their places.
#[derive(Drop)]
pub struct Memory {
    /// The places in working memory, each once and in rising order, and among them some that have gone.
    slots: Vec<usize>,
    /// For each element that ever came, whether it is in working memory.
    here: Vec<bool>,
    /// How many places are in working memory.
    living: usize,
    /// How many more elements both vectors have room for, at least.
    spare: usize,
}

impl Model for Memory {
    ghost use Rattle.std.specs.Prelude.{◌+◌, ◌≤◌, filter, length, vec_capacity, vec_len};
    ghost use Rattle.working_memory.specs.Memory.{IsKept, Places, is_here};

    ghost Value = { Places };

    ghost view = { λ m. record
        { places = filter (is_here m.here.items) m.slots.items; came = length m.here.items; slots = length m.slots.items; spare = m.spare } };

    ghost invariant = { λ m. IsKept m.slots.items m.here.items m.living
        × (m.spare + vec_len m.slots ≤ vec_capacity m.slots)
        × (m.spare + vec_len m.here ≤ vec_capacity m.here) };
}

impl Memory {
    /// The first so many elements, all of which are in working memory.
    pub fn new(alloc: Global, count: usize) -> Result<Memory, OutOfMemory>
        ensures places { IfOk result (λ memory. memory.places ≡ range_with_len 0 count) }
        ensures came { IfOk result (λ memory. memory.came ≡ count) }
        ensures slots { IfOk result (λ memory. memory.slots ≡ count) }
    {
        let slots = first_places(alloc, count)?;
        let here = set_flags(alloc, count)?;
        Ok(Memory {
            slots,
            here,
            living: count,
            spare: 0,
        })
    }

    /// Room for so many more elements. Where more than half of the slots are places that have gone, it
    /// drops those first, also where memory runs out then; so over many calls it takes a constant time
    /// for each element that came.
    pub fn reserve(&mut self, n: usize) -> Result<(), OutOfMemory>
        ensures places { self.new.places ≡ self.old.places }
        ensures came { self.new.came ≡ self.old.came }
        ensures packed { self.new.slots ≤ 2 * length self.new.places }
        ensures ok { OnOk result (n ≤ self.new.spare) }
        ensures kept { self.old.spare ≤ self.new.spare }
    {
        self.drop_holes();
        self.slots.reserve(n)?;
        self.here.reserve(n)?;
        self.spare = self.spare.max(n);
        Ok(())
    }

    /// Drops the places that have gone, where they are more than half of the slots.
    fn drop_holes(&mut self)
        ensures places { self.new.places ≡ self.old.places }
        ensures came { self.new.came ≡ self.old.came }
        ensures spare { self.new.spare ≡ self.old.spare }
        ensures packed { self.new.slots ≤ 2 * length self.new.places }
    {
        let len = self.slots.len();
        if len - self.living > len / 2 {
            keep_those_here(&mut self.slots, self.here.as_slice());
        }
    }

    /// Takes in the next element that came. It takes no memory, and a constant time.
    pub fn insert<L: Ledger>(&mut self, steps: &mut Steps<L>)
        requires { 0 < self.old.spare }
        ensures places { self.new.places ≡ self.old.places ++ self.old.came ∷ [] }
        ensures came { self.new.came ≡ self.old.came + 1 }
        ensures slots { self.new.slots ≡ self.old.slots + 1 }
        ensures spare { self.old.spare ≤ self.new.spare + 1 }
        ensures steps { steps.new ≤ steps.old + 2 }
    {
        steps.tick();
        self.slots.push_reserved(self.here.len());
        steps.tick();
        self.here.push_reserved(true);
        self.living += 1;
        self.spare -= 1;
    }

    /// Takes a place away, and says whether it was in working memory. It takes no memory, and a constant
    /// time.
    pub fn remove<L: Ledger>(&mut self, place: usize, steps: &mut Steps<L>) -> bool
        ensures found { result ≡ has_number self.old.places place }
        ensures places { self.new.places ≡ filter (λ p. not (p == place)) self.old.places }
        ensures came { self.new.came ≡ self.old.came }
        ensures slots { self.new.slots ≡ self.old.slots }
        ensures spare { self.old.spare ≤ self.new.spare }
        ensures steps { steps.new ≤ steps.old + 1 }
    {
        if !self.has(place) {
            return false;
        }
        steps.tick();
        self.here[place] = false;
        self.living -= 1;
        true
    }

    /// Whether a place is in working memory. It takes a constant time.
    pub fn has(&self, place: usize) -> bool
        ensures { result ≡ has_number self.now.places place }
    {
        is_here(self.here.as_slice(), place)
    }

    /// The places in working memory in rising order, and among them some that have gone: ask `has`.
    pub fn slots(&self) -> &[usize]
        ensures held { filter (has_number self.now.places) result.now ≡ self.now.places }
        ensures counted { length result.now ≡ self.now.slots }
    {
        self.slots.as_slice()
    }

    /// How many places are in working memory.
    pub fn len(&self) -> usize
        ensures { result ≡ length self.now.places }
    {
        self.living
    }

    /// Whether no place is in working memory.
    pub fn is_empty(&self) -> bool
        ensures { IsTrue result ↔ (self.now.places ≡ []) }
    {
        self.living == 0
    }

    /// How many elements ever came. The next one will have this place.
    pub fn came(&self) -> usize
        ensures value { result ≡ self.now.came }
        ensures rising { Rises self.now.places × AllByRecursion (λ p. p < self.now.came) self.now.places }
    {
        self.here.len()
    }
}

/// So many places, from 0 on.
fn first_places(alloc: Global, count: usize) -> Result<Vec<usize>, OutOfMemory>
    ensures { IfOk result (λ places. places.items ≡ range_with_len 0 count) }
{
    (0..count).collect(alloc)
}

/// So many flags, all of them set.
fn set_flags(alloc: Global, count: usize) -> Result<Vec<bool>, OutOfMemory>
    ensures { IfOk result (λ flags. flags.items ≡ replicate count true) }
{
    let mut flags = Vec::new(alloc);
    flags.resize(count, true)?;
    Ok(flags)
}

/// Whether the element at a place is in working memory, by the flags of all that came.
fn is_here(here: &[bool], place: usize) -> bool
    ensures { result ≡ is_here here.now place }
{
    place < here.len() && here[place]
}

/// Keeps the places that are in working memory by these flags.
fn keep_those_here(slots: &mut Vec<usize>, here: &[bool])
    ensures kept { slots.new.items ≡ filter (is_here here.now) slots.old.items }
    ensures fewer { vec_len slots.new ≤ vec_len slots.old }
    ensures room { vec_capacity slots.new ≡ vec_capacity slots.old }
{
    slots.retain(|place| is_here(here, *place));
}
