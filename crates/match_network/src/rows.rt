//! Rows of places, all of one width, in one block. It knows no elements.

ghost use Rattle.std.specs.Prelude.{◌≡◌, ◌+◌, ◌-◌, ◌<◌, ◌^◌, [], ◌∷◌, ◌++◌, OnErr, OnOk, Some, length, slice_get, take};
ghost use Rattle.std.specs.List.{AllByRecursion};
ghost use Rattle.match_network.specs.RowTable.{with_row};

use ops_text::OutOfMemory;
use std::alloc::Global;
use std::marker::Model;

/// Rows of so many places each, by their numbers from 0.
#[derive(Drop)]
pub struct Rows {
    width: usize,
    count: usize,
    /// The places of all rows, one row after another.
    places: Vec<u32>,
}

impl Model for Rows {
    ghost use Rattle.match_network.specs.RowTable.{AreRows, RowTable, rows_in};

    ghost Value = { RowTable };

    ghost view = { λ r. record { width = r.width; rows = rows_in r.width r.places.items r.count } };

    ghost invariant = { λ r. AreRows r.width r.places.items r.count };
}

impl Rows {
    /// No rows of this width, which takes no memory.
    pub fn new(alloc: Global, width: usize) -> Rows
        ensures width { result.width ≡ width }
        ensures rows { result.rows ≡ [] }
    {
        Rows {
            width,
            count: 0,
            places: Vec::new(alloc),
        }
    }

    /// How many places each row has.
    pub fn width(&self) -> usize
        ensures { result ≡ self.now.width }
    {
        self.width
    }

    /// How many rows there are: fewer than there are numbers of 32 bits.
    pub fn len(&self) -> usize
        ensures value { result ≡ length self.now.rows }
        ensures few { result < 2 ^ 32 }
        ensures widths { AllByRecursion (λ row. length row ≡ self.now.width) self.now.rows }
    {
        self.count
    }

    /// The row with this number.
    pub fn at(&self, row: usize) -> &[u32]
        requires { row < length self.now.rows }
        ensures row { slice_get self.now.rows row ≡ Some result.now }
        ensures width { length result.now ≡ self.now.width }
    {
        let start = row * self.width;
        &self.places[start..start + self.width]
    }

    /// Adds a row and one more place as a row. After want of memory all is as before; it also fails where
    /// there are 2^32 - 1 rows.
    pub fn push_extended(&mut self, row: &[u32], place: u32) -> Result<(), OutOfMemory>
        requires { length row.now + 1 ≡ self.old.width }
        ensures ok { OnOk result (self.new ≡ with_row self.old (row.now ++ place ∷ [])) }
        ensures err { OnErr result (self.new ≡ self.old) }
    {
        if self.count >= u32::MAX as usize {
            return Err(OutOfMemory);
        }
        push_both(&mut self.places, row, place)?;
        self.count += 1;
        Ok(())
    }

    /// Takes the last row away.
    pub fn pop(&mut self)
        requires { 0 < length self.old.rows }
        ensures width { self.new.width ≡ self.old.width }
        ensures rows { self.new.rows ≡ take (length self.old.rows - 1) self.old.rows }
    {
        self.count -= 1;
        self.places.truncate(self.count * self.width);
    }
}

/// Adds places and one more. After want of memory all is as before.
fn push_both(places: &mut Vec<u32>, row: &[u32], place: u32) -> Result<(), OutOfMemory>
    ensures ok { OnOk result (places.new.items ≡ places.old.items ++ (row.now ++ place ∷ [])) }
    ensures err { OnErr result (places.new.items ≡ places.old.items) }
{
    places.reserve(row.len() + 1)?;
    places.extend_from_slice(row)?;
    places.push_reserved(place);
    Ok(())
}
