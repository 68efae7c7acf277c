//! A level: rows of one width, and their numbers by the key that the next condition element asks for.

ghost use Rattle.std.specs.Prelude.{◌≡◌, ◌+◌, ◌<◌, [], ◌∷◌, ◌++◌, OnErr, OnOk, Some, filter, length, reverse, slice_get};
ghost use Rattle.std.specs.List.{AllByRecursion};
ghost use Rattle.hash_buckets.specs.Buckets.{numbers_of, stays};
ghost use Rattle.match_network.specs.Filed.{filed, packed, row_lives, with_rows};
ghost use Rattle.match_network.specs.Levels.{HaveCome};
ghost use Rattle.match_network.specs.Row.{is_living};

use crate::row_view::RowView;
use crate::{Arrivals, Rows};
use hash_buckets::{Bucket, Buckets, Living};
use join_tests::{Join, row_hash};
use ops_text::OutOfMemory;
use std::alloc::Global;
use std::marker::Model;

/// Rows, filed by what the next condition element asks for. The rows of dead elements stay.
#[derive(Drop)]
pub struct Level {
    rows: Rows,
    /// The numbers of the rows under the hashes of their keys, if another condition element follows.
    buckets: Buckets,
}

impl Model for Level {
    ghost use Rattle.match_network.specs.Filed.{LevelRows};

    ghost Value = { LevelRows };

    ghost view = { λ l. record { width = l.rows.width; rows = l.rows.rows; entries = l.buckets.entries } };
}

/// Rows by number, of which those of elements in working memory live.
#[derive(Drop)]
struct LivingRows<'a> {
    rows: &'a Rows,
    arrivals: &'a Arrivals,
}

impl<'a> Living for LivingRows<'a> {
    ghost use Rattle.match_network.specs.Filed.{row_lives};

    ghost lives = { λ r. row_lives r.arrivals.now.places r.rows.now.rows };

    fn is_living(&self, number: u32) -> bool {
        let number = number as usize;
        number >= self.rows.len() || self.arrivals.have(self.rows.at(number))
    }
}

impl Level {
    /// No rows of so many places, which takes no memory.
    pub fn new(alloc: Global, width: usize) -> Level
        ensures { result ≡ record { width = width; rows = []; entries = [] } }
    {
        Level {
            rows: Rows::new(alloc, width),
            buckets: Buckets::new(alloc),
        }
    }

    /// The rows, and among them some whose elements aren't in working memory.
    pub fn rows(&self) -> &Rows
        ensures width { result.now.width ≡ self.now.width }
        ensures rows { result.now.rows ≡ self.now.rows }
    {
        &self.rows
    }

    /// The row with this number.
    pub(crate) fn row(&self, number: u32) -> &[u32]
        requires { number < length self.now.rows }
        ensures row { slice_get self.now.rows number ≡ Some result.now }
        ensures width { length result.now ≡ self.now.width }
    {
        self.rows.at(number as usize)
    }

    /// Adds a row and one more place as a row, and files it for the first of the condition elements that
    /// follow. After want of memory all is as before.
    pub(crate) fn push(
        &mut self,
        row: &[u32],
        place: u32,
        next: &[Join],
        arrivals: &Arrivals,
    ) -> Result<(), OutOfMemory>
        requires width { length row.now + 1 ≡ self.old.width }
        requires come { HaveCome arrivals.now.came (row.now ++ place ∷ []) }
        ensures ok { OnOk result (self.new ≡ with_rows next.now arrivals.now.came self.old ((row.now ++ place ∷ []) ∷ [])) }
        ensures err { OnErr result (self.new ≡ self.old) }
    {
        let number = self.rows.len();
        self.rows.push_extended(row, place)?;
        let pushed = self.rows.at(number);
        if let Err(want) = file(&mut self.buckets, pushed, number as u32, next, arrivals) {
            self.rows.pop();
            return Err(want);
        }
        Ok(())
    }

    /// Keeps the rows of elements in working memory alone, numbers them anew, and files them for the first
    /// of the condition elements that follow. It looks at each row once, and frees the memory of the
    /// others. After want of memory all is as before.
    pub fn pack(
        &mut self,
        alloc: Global,
        next: &[Join],
        arrivals: &Arrivals,
    ) -> Result<(), OutOfMemory>
        requires width { 0 < self.old.width }
        requires come { AllByRecursion (HaveCome arrivals.now.came) self.old.rows }
        ensures ok { OnOk result (self.new ≡ packed next.now arrivals.now.came arrivals.now.places self.old) }
        ensures err { OnErr result (self.new ≡ self.old) }
    {
        let mut packed = Level::new(alloc, self.rows.width());
        for number in 0..self.rows.len() {
            packed.take_living(self.rows.at(number), next, arrivals)?;
        }
        *self = packed;
        Ok(())
    }

    /// Adds a row if it is of elements in working memory. After want of memory all is as before.
    fn take_living(
        &mut self,
        row: &[u32],
        next: &[Join],
        arrivals: &Arrivals,
    ) -> Result<(), OutOfMemory>
        requires some { 0 < length row.now }
        requires width { length row.now ≡ self.old.width }
        requires come { HaveCome arrivals.now.came row.now }
        ensures ok { OnOk result (self.new ≡ with_rows next.now arrivals.now.came self.old (filter (is_living arrivals.now.places) (row.now ∷ []))) }
        ensures err { OnErr result (self.new ≡ self.old) }
    {
        if !arrivals.have(row) {
            return Ok(());
        }
        let last = row.len() - 1;
        self.push(&row[..last], row[last], next, arrivals)
    }

    /// Takes the rows that don't live out of the bucket of this hash. It looks at each of its rows once,
    /// and takes no memory.
    pub(crate) fn clean(&mut self, hash: u64, arrivals: &Arrivals)
        ensures width { self.new.width ≡ self.old.width }
        ensures rows { self.new.rows ≡ self.old.rows }
        ensures entries { self.new.entries ≡ filter (stays hash (row_lives arrivals.now.places self.old.rows)) self.old.entries }
    {
        let living = LivingRows {
            rows: &self.rows,
            arrivals,
        };
        self.buckets.clean(hash, &living);
    }

    /// The numbers of the rows under a hash, the newest first, but for those that were cleaned away.
    pub(crate) fn bucket(&self, hash: u64) -> Bucket<'_>
        ensures { result ≡ reverse (numbers_of self.now.entries hash) }
    {
        self.buckets.bucket(hash)
    }
}

/// Files a row under this number, if another condition element follows. After want of memory all is as
/// before.
fn file(
    buckets: &mut Buckets,
    row: &[u32],
    number: u32,
    next: &[Join],
    arrivals: &Arrivals,
) -> Result<(), OutOfMemory>
    requires { HaveCome arrivals.now.came row.now }
    ensures ok { OnOk result (buckets.new.entries ≡ buckets.old.entries ++ filed next.now arrivals.now.came number (row.now ∷ [])) }
    ensures err { OnErr result (buckets.new.entries ≡ buckets.old.entries) }
{
    match next.first() {
        Some(join) => {
            let hash = row_hash(join.key.as_slice(), &RowView::new(row, arrivals));
            buckets.push(hash, number)
        }
        None => Ok(()),
    }
}
