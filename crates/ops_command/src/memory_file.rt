//! The opening memory of a run, or the reason why there is none.

ghost use Rattle.std.specs.Prelude.{◌≡◌, ◌+◌, ◌^◌, ◌<◌, ◌≤◌, ℕ, List, length, OnOk, IfOk, IfErr};
ghost use Rattle.std.specs.Option.{option_copied};
ghost use Rattle.rule_base.specs.Opening.{IsOpening};
ghost use Rattle.rule_base.specs.Sound.{IsSound, sizes_of};
ghost use Rattle.ops_command.specs.Call.{files_between};
ghost use Rattle.ops_command.specs.Account.{IsRefusal};
ghost use Rattle.ops_command.specs.FileBytes.{most_bytes, HidesNoReadFault};
ghost use Rattle.ops_command.specs.MemoryText.{Opens, IsFaultyMemory};
ghost use Rattle.ops_command.specs.MemoryFile.{GivesOpening, IsRefusedMemory};

use crate::file_bytes::read_file;
use crate::status::{FileKind, Status};
use crate::text::{check_status, read_text};
use ops_text::{Shelf, Symbols};
use rule_base::{Elements, Program};
use rule_checker::load;
use std::alloc::Global;

/// Makes the opening memory of a program, with the elements of the memory file of this name if there is one.
pub fn read_opening<F: Shelf>(
    alloc: Global,
    shelf: &mut F,
    name: Option<&str>,
    program: &Program,
    symbols: &mut Symbols,
) -> Result<Elements, Status>
    requires sound { IsSound program.now }
    requires few_makes { length program.now.makes < 2 ^ 32 }
    requires few_names { length symbols.old ≤ 1 + most_bytes }
    ensures gives { IfOk result (λ elements. GivesOpening (F.told shelf.old) (option_copied name.entry)
        (record { program = program.now; names = symbols.old })
        (record { elements = elements; names = symbols.new })) }
    ensures refused { IfErr result (IsRefusal (IsRefusedMemory
        (files_between F.told F.faults shelf.old shelf.new)
        (option_copied name.entry) (record { program = program.now; names = symbols.old }))) }
    ensures no_fault { OnOk result (F.faults shelf.new ≡ F.faults shelf.old) }
    ensures counted { IfErr result (HidesNoReadFault (F.faults shelf.old) (F.faults shelf.new)) }
    ensures opening { IfOk result (IsOpening (sizes_of program.now.classes)) }

    // Whatever the answer, the files and what is told of them stay.
    ensures same { F.told shelf.new ≡ F.told shelf.old }
    ensures later { (other : List ℕ) → F.faults shelf.old other ≤ F.faults shelf.new other }
{
    match name {
        Some(name) => {
            let bytes = read_file(alloc, shelf, name, FileKind::Memory)?;
            opening_of(alloc, &bytes, program, symbols)
        }
        None => opening_of(alloc, b"", program, symbols),
    }
}

/// The opening memory of a program with the elements that these bytes make.
fn opening_of(
    alloc: Global,
    bytes: &[u8],
    program: &Program,
    symbols: &mut Symbols,
) -> Result<Elements, Status>
    requires sound { IsSound program.now }
    requires few_makes { length program.now.makes < 2 ^ 32 }
    requires few_names { length symbols.old ≤ 1 + most_bytes }
    requires short { length bytes.now ≤ most_bytes }
    ensures opens { IfOk result (λ elements. Opens
        (record { program = program.now; names = symbols.old }) bytes.now
        (record { elements = elements; names = symbols.new })) }
    ensures refused { IfErr result (IsRefusal
        (IsFaultyMemory (record { program = program.now; names = symbols.old }) bytes.now)) }
    ensures opening { IfOk result (IsOpening (sizes_of program.now.classes)) }
{
    let forms = read_text(alloc, bytes, symbols, FileKind::Memory)?;
    match load(alloc, program, &forms) {
        Ok(elements) => Ok(elements),
        Err(refusal) => Err(check_status(FileKind::Memory, refusal)),
    }
}
