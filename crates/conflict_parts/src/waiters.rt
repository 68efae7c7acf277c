//! Which full matches wait at which place. It knows no rows, and nothing of what stands in their way.

ghost use Rattle.std.specs.Prelude.{◌≡◌, [], ◌∷◌, ◌++◌, OnErr, OnOk, reverse};
ghost use Rattle.conflict_parts.specs.Waiters.{waiters_at};

use crate::standing::RowId;
use hash_buckets::{Bucket, Buckets};
use ops_text::OutOfMemory;
use std::alloc::Global;
use std::marker::Model;

/// Full matches, each at the place where it waits. A place never comes back, so nothing is taken out.
#[derive(Drop)]
pub struct Waiters {
    /// By place, numbers among the full matches.
    places: Buckets,
    /// All full matches in the order in which they came to wait.
    ids: Vec<RowId>,
}

impl Model for Waiters {
    ghost use Rattle.std.specs.Prelude.{ℕ, List};
    ghost use Rattle.conflict_parts.specs.declared.standing.RowId.{RowId};
    ghost use Rattle.conflict_parts.specs.Waiters.{AreWithin, waiters_of};

    ghost Value = { List (ℕ × RowId) };

    ghost view = { λ w. waiters_of w.ids.items w.places.entries };

    ghost invariant = { λ w. AreWithin w.ids.items w.places.entries };
}

impl Waiters {
    /// Nobody waits. It takes no memory.
    pub fn new(alloc: Global) -> Waiters
        ensures { result ≡ [] }
    {
        Waiters {
            places: Buckets::new(alloc),
            ids: Vec::new(alloc),
        }
    }

    /// Lets a full match wait at a place. After want of memory all is as before; it also fails where
    /// 2^32 - 1 wait.
    pub fn push(&mut self, place: u32, id: RowId) -> Result<(), OutOfMemory>
        ensures ok { OnOk result (self.new ≡ self.old ++ (place, id) ∷ []) }
        ensures err { OnErr result (self.new ≡ self.old) }
    {
        let number = self.ids.len();
        if number >= u32::MAX as usize {
            return Err(OutOfMemory);
        }
        self.ids.reserve(1)?;
        self.places.push(u64::from(place), number as u32)?;
        self.ids.push_reserved(id);
        Ok(())
    }

    /// Those who wait at a place, the last to come first. It takes no memory, and a constant time for each.
    pub fn at(&self, place: u32) -> WaitersAt<'_>
        ensures { result ≡ reverse (waiters_at self.now place) }
    {
        WaitersAt {
            numbers: self.places.bucket(u64::from(place)),
            ids: self.ids.as_slice(),
        }
    }
}

/// Those who wait at one place and are left to tell.
#[derive(Drop)]
pub struct WaitersAt<'a> {
    numbers: Bucket<'a>,
    ids: &'a [RowId],
}

impl<'a> Model for WaitersAt<'a> {
    ghost use Rattle.std.specs.Prelude.{ℕ, ◌<◌, List, length, map};
    ghost use Rattle.std.specs.List.{AllByRecursion};
    ghost use Rattle.conflict_parts.specs.declared.standing.RowId.{RowId};
    ghost use Rattle.conflict_parts.specs.Waiters.{id_at};

    ghost Value = { List RowId };

    ghost view = { λ w. map (id_at w.ids.now) w.numbers };

    ghost invariant = { λ w. AllByRecursion (λ (number : ℕ). number < length w.ids.now) w.numbers };
}

impl<'a> Iterator for WaitersAt<'a> {
    type Item = RowId;

    ghost use Rattle.std.specs.Iterator.{YieldsFirst, item_count};

    ghost next_gives = { YieldsFirst (λ s. s) };

    ghost remaining = { item_count (λ s. s) };

    fn next(&mut self) -> Option<RowId> {
        let number = self.numbers.next()?;
        Some(self.ids[number as usize])
    }
}
