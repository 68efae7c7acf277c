//! The bytes of a file, or the reason why there are none.

ghost use Rattle.std.specs.Prelude.{◌≡◌, ◌≤◌, ℕ, List, OnOk, IfOk, IfErr};
ghost use Rattle.ops_command.specs.Call.{files_between};
ghost use Rattle.ops_command.specs.Account.{IsRefusal};
ghost use Rattle.ops_command.specs.FileBytes.{AreBytesOf, IsUnread, HidesNoReadFault};

use crate::status::{FileKind, Status};
use ops_text::{ReadRefusal, Shelf, read_all};
use std::alloc::Global;

/// The most bytes of a program file or a memory file.
const MOST_BYTES: u64 = 4_194_304;

/// Reads a file whole.
pub fn read_file<F: Shelf>(
    alloc: Global,
    shelf: &mut F,
    name: &str,
    file: FileKind,
) -> Result<Vec<u8>, Status>
    ensures read { IfOk result (λ bytes. AreBytesOf (F.told shelf.old) name.now bytes.items) }
    ensures unread { IfErr result (IsRefusal (IsUnread
        (files_between F.told F.faults shelf.old shelf.new)
        name.now file)) }
    ensures no_fault { OnOk result (F.faults shelf.new ≡ F.faults shelf.old) }
    ensures counted { IfErr result (HidesNoReadFault (F.faults shelf.old) (F.faults shelf.new)) }

    // Whatever the answer, the files and what is told of them stay.
    ensures same { F.told shelf.new ≡ F.told shelf.old }
    ensures later { (other : List ℕ) → F.faults shelf.old other ≤ F.faults shelf.new other }
{
    match read_all(alloc, shelf, name, MOST_BYTES) {
        Ok(bytes) => Ok(bytes),
        Err(ReadRefusal::ReadFault) => Err(Status::ReadFault { file }),
        Err(ReadRefusal::TooLong) => Err(Status::TooLong { file }),
        Err(ReadRefusal::OutOfMemory) => Err(Status::OutOfMemory),
    }
}
