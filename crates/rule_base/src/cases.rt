//! Tables of small numbers, which say what a relation answers case by case.

ghost use Rattle.std.specs.Prelude.{◌≡◌, ◌<◌};
ghost use Rattle.rule_base.specs.Cases.{cell};

use std::marker::Model;

/// A table of `R` rows and `C` columns.
#[derive(Drop)]
pub struct Cases<const R: usize, const C: usize> {
    cells: [[u8; C]; R],
}

impl<const R: usize, const C: usize> Model for Cases<R, C> {
    ghost use Rattle.std.specs.Prelude.{ℕ, List};

    ghost Value = { List (List ℕ) };

    ghost view = { λ cases. cases.cells };
}

impl<const R: usize, const C: usize> Cases<R, C> {
    /// The table of these cells, row by row.
    pub fn new(cells: [[u8; C]; R]) -> Cases<R, C>
        ensures { result ≡ cells.entry }
    {
        Cases { cells }
    }

    /// The cell of a row and a column, which both count from 0.
    pub fn at(&self, row: usize, column: usize) -> u8
        requires row { row < R }
        requires column { column < C }
        ensures { result ≡ cell self.now row column }
    {
        self.cells[row][column]
    }
}
