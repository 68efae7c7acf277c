//! The full matches of a rule, as rows of places. It knows no joins.

ghost use Rattle.std.specs.Prelude.{◌≡◌, true, IfSome, drop, filter, slice_get};
ghost use Rattle.match_network.specs.Row.{is_living};

use crate::{Arrivals, Rows};
use std::marker::Model;

/// The rows for all positive condition elements of a rule that are left to tell: those whose elements are
/// in working memory.
#[derive(Drop)]
pub struct FullRows<'a> {
    rows: &'a Rows,
    arrivals: &'a Arrivals,
    /// The number of the next row to look at.
    at: usize,
}

impl<'a> Model for FullRows<'a> {
    ghost use Rattle.std.specs.Prelude.{ℕ, List, drop, filter};
    ghost use Rattle.match_network.specs.Row.{is_living};

    ghost Value = { List (List ℕ) };

    ghost view = { λ r. filter (is_living r.arrivals.now.places) (drop r.at r.rows.now.rows) };
}

impl<'a> FullRows<'a> {
    /// Those of these rows whose elements are in working memory.
    pub(crate) fn new(rows: &'a Rows, arrivals: &'a Arrivals) -> FullRows<'a>
        ensures { result ≡ filter (is_living arrivals.now.places) rows.now.rows }
    {
        FullRows {
            rows,
            arrivals,
            at: 0,
        }
    }
}

/// It passes over the rows of dead elements, and takes no memory.
impl<'a> Iterator for FullRows<'a> {
    type Item = &'a [u32];

    ghost use Rattle.std.specs.Iterator.{YieldsFirstRef, item_count};

    ghost next_gives = { YieldsFirstRef (λ s. s) };

    ghost remaining = { item_count (λ s. s) };

    fn next(&mut self) -> Option<&'a [u32]> {
        let rows = self.rows;
        let number = next_living(rows, self.arrivals, self.at);
        if number >= rows.len() {
            self.at = number;
            return None;
        }
        self.at = number + 1;
        Some(rows.at(number))
    }
}

/// The number of the first row from this one on whose elements are in working memory, or the count of all
/// rows if there is none.
fn next_living(rows: &Rows, arrivals: &Arrivals, from: usize) -> usize
    ensures same { filter (is_living arrivals.now.places) (drop result rows.now.rows) ≡ filter (is_living arrivals.now.places) (drop from rows.now.rows) }
    ensures living { IfSome (slice_get rows.now.rows result) (λ row. is_living arrivals.now.places row ≡ true) }
{
    for number in from..rows.len() {
        if arrivals.have(rows.at(number)) {
            return number;
        }
    }
    rows.len()
}
