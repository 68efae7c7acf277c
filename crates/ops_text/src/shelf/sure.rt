//! A shelf that never fails.

ghost use Rattle.std.specs.Prelude.{◌≡◌, Some, IsOkAnd};
ghost use Rattle.ops_text.specs.Files.{file_or_empty, Copies};

use super::files::{copy_from, find};
use super::{Shelf, ShelfFailed};

/// Files in memory that can always be read. Of several with one name the first is the file, and a
/// name without a file is that of an empty one.
#[derive(Debug, Drop)]
pub struct SureShelf {
    pub files: Vec<(String, Vec<u8>)>,
}

impl Shelf for SureShelf {
    ghost told = { λ shelf name. Some (file_or_empty shelf.files.items name) };

    ghost faults = { λ shelf name. 0 };

    fn piece(&mut self, name: &str, at: u64, into: &mut [u8]) -> Result<usize, ShelfFailed>
        ensures read { IsOkAnd result (Copies
            (file_or_empty self.old.files.items name.now) at into.old into.new) }
        ensures kept { self.new ≡ self.old }
    {
        match find(&self.files, name) {
            Some(file) => Ok(copy_from(file, at, into)),
            None => Ok(0),
        }
    }
}
