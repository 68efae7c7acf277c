//! A shelf of the system's files.

ghost use Rattle.std.specs.Prelude.{◌≡◌, ◌≤◌, None, length, is_err, IfOk};
ghost use Rattle.std.specs.Io.{ReadsAtMost};
ghost use Rattle.ops_text.specs.Faults.{counted_if};

use super::{Shelf, ShelfFailed};
use std::io::{Read, Seek, SeekFrom};
use std::rt::Files;
use std::{fs, io};

/// Files of the system, by their paths. It tells nothing of what stands in them, since they may
/// change at any time. A folder is a fault, and so is what has no places to read from, as a pipe.
#[derive(Drop)]
pub struct FileShelf<R: Files + Drop> {
    rt: R,
    /// How many calls failed, whatever the name. It stands still at its end.
    pub faults: u64,
}

impl<R: Files + Drop> FileShelf<R> {
    /// A shelf without a fault so far.
    pub fn new(rt: R) -> FileShelf<R>
        ensures { result.faults ≡ 0 }
    {
        FileShelf { rt, faults: 0 }
    }
}

impl<R: Files + Drop> Shelf for FileShelf<R> {
    ghost told = { λ shelf name. None };

    ghost faults = { λ shelf name. shelf.faults };

    fn piece(&mut self, name: &str, at: u64, into: &mut [u8]) -> Result<usize, ShelfFailed>
        ensures within { IfOk result (λ count. count ≤ length into.new) }
        ensures counts { self.new.faults ≡ counted_if (is_err result) self.old.faults }
    {
        match read_piece(&self.rt, name, at, into) {
            Ok(count) => Ok(count),
            Err(_) => {
                self.faults = self.faults.saturating_add(1);
                Err(ShelfFailed)
            }
        }
    }
}

/// The file is opened anew for each piece: that costs little beside the reading, and no open file
/// has to be kept under a name.
fn read_piece<R: Files>(rt: &R, name: &str, at: u64, into: &mut [u8]) -> io::Result<usize>
    ensures { ReadsAtMost result into.new }
{
    let mut file = fs::open(rt, name)?;
    file.seek(SeekFrom::Start(at))?;
    file.read(into)
}
