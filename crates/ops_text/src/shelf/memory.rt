//! A shelf whose files are in memory. It counts its calls, and fails those that it is told to fail.

ghost use Rattle.std.specs.Prelude.{◌≡◌, ◌↔◌, ◌⊎◌, IsTrue, IsErr, IsNone, IsSomeAnd, IfOk, is_err};
ghost use Rattle.ops_text.specs.Faults.{counted, counted_if, IsListed};
ghost use Rattle.ops_text.specs.Files.{first_file, Copies};

use super::files::{copy_from, find};
use super::{Shelf, ShelfFailed};

/// Files in memory. Of several with one name the first is the file, and a name without a file is a
/// fault.
#[derive(Debug, Drop)]
pub struct MemShelf {
    pub files: Vec<(String, Vec<u8>)>,
    /// The numbers of the calls that are to fail. The first call has number 1.
    pub failing: Vec<u64>,
    /// How many calls there have been, those that failed among them. It stands still at its end.
    pub calls: u64,
    /// How many calls failed, whatever the name. It stands still at its end.
    pub faults: u64,
}

impl Shelf for MemShelf {
    ghost told = { λ shelf name. first_file shelf.files.items name };

    ghost faults = { λ shelf name. shelf.faults };

    fn piece(&mut self, name: &str, at: u64, into: &mut [u8]) -> Result<usize, ShelfFailed>
        ensures ok { IfOk result (λ count.
            IsSomeAnd (first_file self.old.files.items name.now) (λ file.
            Copies file at into.old into.new count)) }
        ensures fails { IsErr result ↔ (IsListed self.old.failing.items self.old.calls
            ⊎ IsNone (first_file self.old.files.items name.now)) }
        ensures counts { self.new ≡ record self.old {
          calls = counted self.old.calls;
          faults = counted_if (is_err result) self.old.faults;
        } }
    {
        if self.counts_failing_call() {
            return Err(self.count_fault());
        }
        match find(&self.files, name) {
            Some(file) => Ok(copy_from(file, at, into)),
            None => Err(self.count_fault()),
        }
    }
}

impl MemShelf {
    /// Counts a call, and tells whether it is to fail.
    fn counts_failing_call(&mut self) -> bool
        ensures listed { IsTrue result ↔ IsListed self.old.failing.items self.old.calls }
        ensures calls { self.new ≡ record self.old { calls = counted self.old.calls } }
    {
        self.calls = self.calls.saturating_add(1);
        self.failing.contains(&self.calls)
    }

    fn count_fault(&mut self) -> ShelfFailed
        ensures { self.new ≡ record self.old { faults = counted self.old.faults } }
    {
        self.faults = self.faults.saturating_add(1);
        ShelfFailed
    }
}
