//! Room: what a journal can take in without memory.

ghost use Rattle.std.specs.Prelude.{◌≡◌, ℕ, ◌+◌, ◌*◌, IfOk, length};
ghost use Rattle.commit_journal.specs.Room.{FitsIn, larger_room, room_for, room_plus, room_times, room_without};
ghost use Rattle.rule_base.specs.Effect.{removed_tags};
ghost use Rattle.rule_base.specs.Memory.{value_count};
ghost use Rattle.rule_base.specs.Step.{born};

use ops_text::OutOfMemory;
use rhs_actions::Effect;
use rule_base::{Elements, Piece};

/// So many entries, and in them so many tags, removed tags, born elements, values of those, and pieces.
#[derive(Clone, Copy, Debug)]
pub struct Room {
    pub entries: usize,
    pub tags: usize,
    pub gone: usize,
    pub elements: usize,
    pub values: usize,
    pub pieces: usize,
}

impl Room {
    /// No room.
    pub fn none() -> Room
        ensures { result ≡ record { entries = 0; tags = 0; gone = 0; elements = 0; values = 0; pieces = 0 } }
    {
        Room {
            entries: 0,
            tags: 0,
            gone: 0,
            elements: 0,
            values: 0,
            pieces: 0,
        }
    }

    /// What an entry of these parts needs. It fails only where so much can't be counted.
    pub fn for_entry(
        tags: &[u64],
        gone: &[u64],
        born: &Elements,
        pieces: &[Piece],
    ) -> Result<Room, OutOfMemory>
        ensures { IfOk result (λ room. room ≡ room_for tags.now gone.now born.now pieces.now) }
    {
        let values = value_count(born)?;
        Ok(Room {
            entries: 1,
            tags: tags.len(),
            gone: gone.len(),
            elements: born.len(),
            values,
            pieces: pieces.len(),
        })
    }

    /// What the entry of a firing on these tags needs. It looks at one change of the effect after
    /// another.
    pub fn for_effect(tags: &[u64], effect: &Effect) -> Room
        ensures { (next : ℕ) → result ≡ room_for tags.now (removed_tags effect.now.changes) (born next effect.now.changes) effect.now.pieces }
    {
        Room {
            entries: 1,
            tags: tags.len(),
            gone: effect.removed_tags().len(),
            elements: effect.makes(),
            values: effect.made_values(),
            pieces: effect.pieces().len(),
        }
    }

    /// Both together. It fails only where so much can't be counted.
    pub fn plus(self, other: Room) -> Result<Room, OutOfMemory>
        ensures { IfOk result (λ sum. sum ≡ room_plus self other) }
    {
        Ok(Room {
            entries: sum(self.entries, other.entries)?,
            tags: sum(self.tags, other.tags)?,
            gone: sum(self.gone, other.gone)?,
            elements: sum(self.elements, other.elements)?,
            values: sum(self.values, other.values)?,
            pieces: sum(self.pieces, other.pieces)?,
        })
    }

    /// So many times this room. It fails only where so much can't be counted.
    pub fn times(self, count: usize) -> Result<Room, OutOfMemory>
        ensures { IfOk result (λ room. room ≡ room_times count self) }
    {
        Ok(Room {
            entries: product(count, self.entries)?,
            tags: product(count, self.tags)?,
            gone: product(count, self.gone)?,
            elements: product(count, self.elements)?,
            values: product(count, self.values)?,
            pieces: product(count, self.pieces)?,
        })
    }

    /// What is left once so much is taken.
    pub fn without(self, taken: Room) -> Room
        requires { FitsIn taken self }
        ensures { result ≡ room_without self taken }
    {
        Room {
            entries: self.entries - taken.entries,
            tags: self.tags - taken.tags,
            gone: self.gone - taken.gone,
            elements: self.elements - taken.elements,
            values: self.values - taken.values,
            pieces: self.pieces - taken.pieces,
        }
    }

    /// What holds all that either holds.
    pub(crate) fn larger(self, other: Room) -> Room
        ensures { result ≡ larger_room self other }
    {
        Room {
            entries: self.entries.max(other.entries),
            tags: self.tags.max(other.tags),
            gone: self.gone.max(other.gone),
            elements: self.elements.max(other.elements),
            values: self.values.max(other.values),
            pieces: self.pieces.max(other.pieces),
        }
    }
}

/// The sum, where it can be counted.
fn sum(one: usize, other: usize) -> Result<usize, OutOfMemory>
    ensures { IfOk result (λ sum. sum ≡ one + other) }
{
    one.checked_add(other).ok_or(OutOfMemory)
}

/// The product, where it can be counted.
fn product(one: usize, other: usize) -> Result<usize, OutOfMemory>
    ensures { IfOk result (λ product. product ≡ one * other) }
{
    one.checked_mul(other).ok_or(OutOfMemory)
}

/// How many values the elements have together.
fn value_count(elements: &Elements) -> Result<usize, OutOfMemory>
    ensures { IfOk result (λ count. count ≡ value_count elements.now) }
{
    let mut count: usize = 0;
    for at in 0..elements.len() {
        let Some(sum) = count.checked_add(elements.at(at).values.len()) else {
            return Err(OutOfMemory);
        };
        count = sum;
    }
    Ok(count)
}
