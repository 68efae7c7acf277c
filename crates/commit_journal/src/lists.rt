//! Lists one behind another in one block, so that taking one in needs no block of its own.

ghost use Rattle.std.specs.Prelude.{◌≡◌, ◌+◌, ◌-◌, ◌≤◌, ◌<◌, [], ◌∷◌, ◌++◌, IfOk, OnOk, Some, drop, length, map, slice_get, slice_index, slice_range, take};
ghost use Rattle.std.specs.List.{flat_map};

use ops_text::OutOfMemory;
use std::alloc::Global;
use std::marker::Model;

/// Lists in order.
#[derive(Drop)]
pub struct Lists<T> {
    /// Where each list ends among the items. It begins where the one before it ends.
    ends: Vec<u32>,
    items: Vec<T>,
}

impl<T> Model for Lists<T> {
    ghost use Rattle.std.specs.Prelude.{◌-◌, ◌≤◌, length, min, vec_capacity, vec_len};
    ghost use Rattle.commit_journal.specs.Lists.{Kept, RiseTo, cut, most_items};

    ghost Value = { Kept T };

    ghost view = { λ s. record { lists = cut s.ends.items s.items.items; more_lists = vec_capacity s.ends - vec_len s.ends; more_items = min (vec_capacity s.items) most_items - vec_len s.items } };

    ghost invariant = { λ s. RiseTo 0 s.ends.items (length s.items.items) × (length s.items.items ≤ most_items) };
}

impl<T> Lists<T> {
    /// No lists, which takes no memory.
    pub fn new(alloc: Global) -> Lists<T>
        ensures { result.lists ≡ [] }
    {
        Lists {
            ends: Vec::new(alloc),
            items: Vec::new(alloc),
        }
    }

    /// How many lists there are.
    pub fn len(&self) -> usize
        ensures { result ≡ length self.now.lists }
    {
        self.ends.len()
    }

    /// The list at a place that counts from 0.
    pub fn at(&self, place: usize) -> &[T]
        requires { place < length self.now.lists }
        ensures { slice_get self.now.lists place ≡ Some result.now }
    {
        let begin = begin_of(self.ends.as_slice(), place);
        let end = self.ends[place] as usize;
        part(self.items.as_slice(), begin, end)
    }

    /// The items of all lists as one. They lie so, which is why it takes no time.
    pub fn items(&self) -> &[T]
        ensures { result.now ≡ flat_map (λ list. list) self.now.lists }
    {
        self.items.as_slice()
    }

    /// Room for so many more lists and items in them. The lists stay, and room never falls.
    pub fn reserve(&mut self, lists: usize, items: usize) -> Result<(), OutOfMemory>
        ensures lists { self.new.lists ≡ self.old.lists }
        ensures ok { OnOk result ((lists ≤ self.new.more_lists) × (items ≤ self.new.more_items)) }
        ensures kept { (self.old.more_lists ≤ self.new.more_lists) × (self.old.more_items ≤ self.new.more_items) }
    {
        if items > u32::MAX as usize - self.items.len() {
            return Err(OutOfMemory);
        }
        self.ends.reserve(lists)?;
        self.items.reserve(items)
    }
}

impl<T: Copy> Lists<T> {
    /// Lists equal to so many of these, from a place on. What stands before them costs nothing.
    pub fn range(&self, alloc: Global, from: usize, count: usize) -> Result<Lists<T>, OutOfMemory>
        requires { from + count ≤ length self.now.lists }
        ensures { IfOk result (λ some. some.lists ≡ take count (drop from self.now.lists)) }
    {
        let ends = self.ends.as_slice();
        let begin = begin_of(ends, from);
        let end = begin_of(ends, from + count);
        Ok(Lists {
            ends: places_before(alloc, part(ends, from, from + count), begin)?,
            items: Vec::from_slice(alloc, part(self.items.as_slice(), begin, end))?,
        })
    }

    /// Adds a list at the end. It takes no memory.
    pub fn push(&mut self, items: &[T])
        requires room { (1 ≤ self.old.more_lists) × (length items.now ≤ self.old.more_items) }
        ensures lists { self.new.lists ≡ self.old.lists ++ items.now ∷ [] }
        ensures left { (self.old.more_lists ≤ self.new.more_lists + 1) × (self.old.more_items ≤ self.new.more_items + length items.now) }
    {
        self.items.extend_from_slice(items).unwrap();
        self.ends.push_reserved(self.items.len() as u32);
    }
}

/// The items from one place to another.
pub fn part<T>(items: &[T], begin: usize, end: usize) -> &[T]
    requires { (begin ≤ end) × (end ≤ length items.now) }
    ensures { result.now ≡ slice_range items.now begin end }
{
    &items[begin..end]
}

/// Where the list at this place begins.
pub fn begin_of(ends: &[u32], place: usize) -> usize
    requires { place ≤ length ends.now }
    ensures { result ≡ slice_index (0 ∷ ends.now) place }
{
    if place == 0 {
        0
    } else {
        ends[place - 1] as usize
    }
}

/// The places, each so much before.
fn places_before(alloc: Global, places: &[u32], by: usize) -> Result<Vec<u32>, OutOfMemory>
    ensures { IfOk result (λ before. before.items ≡ map (λ place. place - by) places.now) }
{
    let mut before = Vec::new(alloc);
    for place in places {
        before.push((*place as usize).saturating_sub(by) as u32)?;
    }
    Ok(before)
}
