//! The journal of a run: one entry for each firing, in flat arrays. Taking an entry in needs no block of
//! its own, and none at all where there is room.

ghost use Rattle.std.specs.Prelude.{◌≡◌, ◌+◌, ◌^◌, ◌<◌, ◌≤◌, ◌↔◌, [], ◌∷◌, ◌++◌, IfOk, IsTrue, OnOk, Some, drop, length, option_map, slice_get, take};
ghost use Rattle.rule_base.specs.Effect.{removed_tags};
ghost use Rattle.rule_base.specs.Memory.{element_at, tags_of};
ghost use Rattle.rule_base.specs.Opening.{AreConsecutive};
ghost use Rattle.rule_base.specs.Step.{born, entry_of};
ghost use Rattle.rule_base.specs.Views.{element_in};
ghost use Rattle.commit_journal.specs.Entries.{born_in, entry_with, pieces_of};
ghost use Rattle.commit_journal.specs.EntryViews.{entry_in};
ghost use Rattle.commit_journal.specs.Room.{FitsIn, room_for, room_without};

use crate::firing::{Firing, born_before, firings_before};
use crate::lists::{Lists, part};
use crate::newborns::Newborns;
use crate::{EntryView, Room};
use ops_text::{OutOfMemory, Sequence};
use rhs_actions::Effect;
use rule_base::{ElementView, Elements, Entry, Piece, Steps};
use std::alloc::Global;
use std::marker::Model;
use std::sync::ledger::Ledger;

/// Entries in the order of their firings.
#[derive(Drop)]
pub struct Journal {
    firings: Vec<Firing>,
    /// The tags that each firing's choice has.
    tags: Lists<u64>,
    /// The tags that each firing took away.
    gone: Lists<u64>,
    /// The elements of all firings.
    newborns: Newborns,
    /// What each firing wrote.
    pieces: Lists<Piece>,
    room: Room,
}

impl Model for Journal {
    ghost use Rattle.std.specs.Prelude.{◌-◌, vec_capacity, vec_len};
    ghost use Rattle.commit_journal.specs.Entries.{Recorded};
    ghost use Rattle.commit_journal.specs.Firings.{entries_of};
    ghost use Rattle.commit_journal.specs.Flat.{AreParallel, HaveRoom};

    ghost Value = { Recorded };

    ghost view = { λ s. record { entries = entries_of s.firings.items s.tags.lists s.gone.lists s.newborns.elements s.pieces.lists; next = s.newborns.next; room = s.room } };

    ghost invariant = { λ s. AreParallel s.firings.items s.tags s.gone s.newborns s.pieces × HaveRoom s.room (vec_capacity s.firings - vec_len s.firings) s.tags s.gone s.newborns s.pieces };
}

impl Journal {
    /// A journal with no entry, in which the first element to be born has this tag. It takes no memory.
    pub fn new(alloc: Global, next: u64) -> Journal
        ensures entries { result.entries ≡ [] }
        ensures next { result.next ≡ next }
    {
        Journal {
            firings: Vec::new(alloc),
            tags: Lists::new(alloc),
            gone: Lists::new(alloc),
            newborns: Newborns::new(alloc, next),
            pieces: Lists::new(alloc),
            room: Room::none(),
        }
    }

    /// How many entries there are.
    pub fn len(&self) -> usize
        ensures { result ≡ length self.now.entries }
    {
        self.firings.len()
    }

    /// The tag of the next element to be born.
    pub fn next(&self) -> u64
        ensures { result ≡ self.now.next }
    {
        self.newborns.next()
    }

    /// The entry at a place that counts from 0.
    pub fn entry(&self, place: usize) -> EntryView<'_>
        requires { place < length self.now.entries }
        ensures { slice_get self.now.entries place ≡ Some (entry_in result) }
    {
        let firing = self.firings[place];
        let from = born_before(self.firings.as_slice(), place);
        EntryView {
            rule: firing.rule,
            halts: firing.halts,
            tags: self.tags.at(place),
            gone: self.gone.at(place),
            pieces: self.pieces.at(place),
            newborns: &self.newborns,
            from,
            count: firing.born as usize - from,
        }
    }

    /// The pieces of all entries as one list. They lie so, which is why it takes no time.
    pub fn pieces(&self) -> &[Piece]
        ensures { result.now ≡ pieces_of self.now.entries }
    {
        self.pieces.items()
    }

    /// The element with this tag, if it was born in one of the entries. It takes the same time however
    /// many there are.
    pub fn born(&self, tag: u64) -> Option<ElementView<'_>>
        ensures { option_map element_in result ≡ element_at (born_in self.now.entries) tag }
    {
        self.newborns.with_tag(tag)
    }

    /// The entries, each as a value of its own.
    pub fn to_entries(&self, alloc: Global) -> Result<Sequence<Entry>, OutOfMemory>
        ensures { IfOk result (λ entries. entries ≡ self.now.entries) }
    {
        let mut entries = Sequence::new(alloc);
        for place in 0..self.len() {
            entries.push(self.entry(place).to_entry(alloc)?)?;
        }
        Ok(entries)
    }

    /// A journal of its own with so many of the entries, from a place on, or with all from there where
    /// there are fewer. It is copied by ranges, so what stands before them costs nothing.
    pub fn stretch(&self, alloc: Global, from: u64, most: u32) -> Result<Journal, OutOfMemory>
        ensures entries { IfOk result (λ some. some.entries ≡ take most (drop from self.now.entries)) }

        // Elements that are born behind it have the tags that go on from there.
        ensures next { IfOk result (λ some. some.next + length (born_in (drop most (drop from self.now.entries))) ≡ self.now.next) }
    {
        let len = self.len();
        let from = from.min(len as u64) as usize;
        let count = (most as usize).min(len - from);
        self.range(alloc, from, count)
    }

    fn range(&self, alloc: Global, from: usize, count: usize) -> Result<Journal, OutOfMemory>
        requires { from + count ≤ length self.now.entries }
        ensures entries { IfOk result (λ some. some.entries ≡ take count (drop from self.now.entries)) }
        ensures next { IfOk result (λ some. some.next + length (born_in (drop (from + count) self.now.entries)) ≡ self.now.next) }
    {
        let firings = self.firings.as_slice();
        let begin = born_before(firings, from);
        let end = born_before(firings, from + count);
        Ok(Journal {
            firings: firings_before(alloc, part(firings, from, from + count), begin)?,
            tags: self.tags.range(alloc, from, count)?,
            gone: self.gone.range(alloc, from, count)?,
            newborns: self.newborns.range(alloc, begin, end - begin)?,
            pieces: self.pieces.range(alloc, from, count)?,
            room: Room::none(),
        })
    }

    /// Sees to it that there is at least this room. The entries stay, and room never falls. It also
    /// fails where tags, or places of born elements, would run out.
    pub fn reserve(&mut self, room: Room) -> Result<(), OutOfMemory>
        ensures entries { (self.new.entries ≡ self.old.entries) × (self.new.next ≡ self.old.next) }
        ensures ok { OnOk result (FitsIn room self.new.room) }
        ensures kept { FitsIn self.old.room self.new.room }
    {
        if !self.newborns.has_numbers_for(room.elements) {
            return Err(OutOfMemory);
        }
        self.firings.reserve(room.entries)?;
        self.tags.reserve(room.entries, room.tags)?;
        self.gone.reserve(room.entries, room.gone)?;
        self.pieces.reserve(room.entries, room.pieces)?;
        self.newborns.reserve(room.elements, room.values)?;
        self.room = self.room.larger(room);
        Ok(())
    }

    /// Adds an entry. It takes no memory.
    pub fn push(
        &mut self,
        rule: u32,
        tags: &[u64],
        gone: &[u64],
        born: &Elements,
        pieces: &[Piece],
        halts: bool,
    )
        requires tags { AreConsecutive self.old.next (tags_of born.now) }
        requires room { FitsIn (room_for tags.now gone.now born.now pieces.now) self.old.room }
        ensures entries { self.new.entries ≡ self.old.entries ++ entry_with rule tags.now gone.now born.now pieces.now halts ∷ [] }
        ensures next { self.new.next ≡ self.old.next + length born.now }
        ensures room { self.new.room ≡ room_without self.old.room (room_for tags.now gone.now born.now pieces.now) }
    {
        self.tags.push(tags);
        self.gone.push(gone);
        self.pieces.push(pieces);
        let values = self.newborns.extend(born);
        let born_end = self.newborns.len() as u32;
        self.firings.push_reserved(Firing {
            rule,
            born: born_end,
            halts,
        });
        self.room = self.room.without(Room {
            entries: 1,
            tags: tags.len(),
            gone: gone.len(),
            elements: born.len(),
            values,
            pieces: pieces.len(),
        });
    }

    /// Adds the entry of a firing. The elements that it makes get the next tags. It takes no memory. It
    /// counts a step for each tag that goes, each element that comes, and the entry; that values and
    /// pieces are copied into the journal is not counted.
    pub fn commit<L: Ledger>(
        &mut self,
        rule: u32,
        tags: &[u64],
        effect: &Effect,
        steps: &mut Steps<L>,
    )
        requires room { FitsIn (room_for tags.now (removed_tags effect.now.changes) (born self.old.next effect.now.changes) effect.now.pieces) self.old.room }
        ensures entries { self.new.entries ≡ self.old.entries ++ entry_of self.old.next (record { rule = rule; tags = tags.now }) effect.now ∷ [] }
        ensures next { self.new.next ≡ self.old.next + length (born self.old.next effect.now.changes) }
        ensures room { self.new.room ≡ room_without self.old.room (room_for tags.now (removed_tags effect.now.changes) (born self.old.next effect.now.changes) effect.now.pieces) }
        ensures steps { steps.new ≤ steps.old + length effect.now.changes + 1 }
    {
        self.tags.push(tags);
        self.gone.push(effect.removed_tags());
        self.pieces.push(effect.pieces());
        let before = self.newborns.len();
        let values = self.newborns.extend_made(effect, steps);
        let len = self.newborns.len();
        steps.tick();
        self.firings.push_reserved(Firing {
            rule,
            born: len as u32,
            halts: effect.halts(),
        });
        self.room = self.room.without(Room {
            entries: 1,
            tags: tags.len(),
            gone: effect.removed_tags().len(),
            elements: len - before,
            values,
            pieces: effect.pieces().len(),
        });
    }
}
