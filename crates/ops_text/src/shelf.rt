//! Files that are read by pieces. It knows nothing of what stands in them.

ghost use Rattle.std.specs.Prelude.{◌≡◌, ℕ, ◌⊎◌, ◌<◌, ◌≤◌, List, Option, length, take, drop, vec_len, OnOk, OnErr, IfOk, IsErr, IsErrOf};
ghost use Rattle.std.specs.Option.{ForSome};
ghost use Rattle.ops_text.specs.Faults.{Rose};

mod files;
mod memory;
mod sure;
mod system;

use crate::OutOfMemory;
pub use memory::MemShelf;
use std::alloc::Global;
pub use sure::SureShelf;
pub use system::FileShelf;

/// A piece couldn't be read.
#[derive(Clone, Copy, Debug, PartialEq, Eq)]
pub struct ShelfFailed;

/// Where files are read from.
pub trait Shelf {
    /// The bytes of the file with this name, or none where the shelf doesn't tell them.
    ghost told: { Self → List ℕ → Option (List ℕ) };

    /// How many faults have come at this name. It never falls.
    ghost faults: { Self → List ℕ → ℕ };

    /// Puts bytes of the named file, from place `at` on, into the front of `into`, and answers how
    /// many. None for an `into` that isn't empty means the file's end.
    fn piece(&mut self, name: &str, at: u64, into: &mut [u8]) -> Result<usize, ShelfFailed>
        ensures within { IfOk result (λ count. count ≤ length into.new) }
        ensures bytes { IfOk result (λ count. ForSome (told self.old name.now) (λ file.
            take count into.new ≡ take count (drop at file))) }
        ensures end { IfOk result (λ count. ForSome (told self.old name.now) (λ file.
            count ≡ 0 → 0 < length into.new → length file ≤ at)) }
        ensures failed { OnErr result (Rose (faults self.old name.now) (faults self.new name.now)) }
        ensures passed { OnOk result (faults self.new ≡ faults self.old) }

        // Whatever the answer, the files and what is told of them stay.
        ensures same { told self.new ≡ told self.old }
        ensures later { (other : List ℕ) → faults self.old other ≤ faults self.new other };
}

/// Why a file wasn't read.
#[derive(Clone, Copy, Debug, PartialEq, Eq)]
pub enum ReadRefusal {
    ReadFault,
    TooLong,
    OutOfMemory,
}

impl From<OutOfMemory> for ReadRefusal {
    ghost use Rattle.std.specs.Prelude.{◌≡◌};
    ghost use Rattle.ops_text.specs.declared.shelf.ReadRefusal.TheVariants as refusal;

    ghost from_gives = { λ _ given. given ≡ refusal.OutOfMemory };

    fn from(_error: OutOfMemory) -> ReadRefusal {
        ReadRefusal::OutOfMemory
    }
}

/// How many bytes are asked for at once.
const PIECE: usize = 65536;

/// Reads a file whole, if it has at most `most` bytes. It asks for pieces of 64 KiB, and so takes
/// memory for the file and up to a piece more, also where the file turns out to be too long.
pub fn read_all<F: Shelf>(
    alloc: Global,
    shelf: &mut F,
    name: &str,
    most: u64,
) -> Result<Vec<u8>, ReadRefusal>
    ensures short { IfOk result (λ bytes. vec_len bytes ≤ most) }
    ensures bytes { IfOk result (λ bytes.
        ForSome (F.told shelf.old name.now) (λ file. bytes.items ≡ file)) }
    ensures long { ForSome (F.told shelf.old name.now) (λ file. most < length file → IsErr result) }

    // When each refusal comes, want of memory apart.
    ensures read_fault { IsErrOf result ReadRefusal.ReadFault →
        Rose (F.faults shelf.old name.now) (F.faults shelf.new name.now) }
    ensures too_long { IsErrOf result ReadRefusal.TooLong →
        ForSome (F.told shelf.old name.now) (λ file. most < length file) }

    // No fault is hidden: under every other answer the counts are as before.
    ensures counted { IsErrOf result ReadRefusal.ReadFault
        ⊎ (F.faults shelf.new ≡ F.faults shelf.old) }

    // Whatever the answer, the files and what is told of them stay.
    ensures same { F.told shelf.new ≡ F.told shelf.old }
    ensures later { (other : List ℕ) → F.faults shelf.old other ≤ F.faults shelf.new other }
{
    let mut bytes = Vec::new(alloc);
    let mut piece = buffer(alloc, PIECE)?;
    while bytes.len() as u64 <= most {
        let Ok(count) = shelf.piece(name, bytes.len() as u64, &mut piece) else {
            return Err(ReadRefusal::ReadFault);
        };
        if count == 0 {
            return Ok(bytes);
        }
        bytes.extend_from_slice(&piece[..count])?;
    }
    Err(ReadRefusal::TooLong)
}

/// Room for so many bytes to be read into.
fn buffer(alloc: Global, length: usize) -> Result<Vec<u8>, OutOfMemory>
    ensures { IfOk result (λ buffer. vec_len buffer ≡ length) }
{
    vec![in alloc; 0; length]
}
