//! The program of a program file, or the reason why there is none.

ghost use Rattle.std.specs.Prelude.{◌≡◌, ◌+◌, ◌^◌, ◌<◌, ◌≤◌, ℕ, List, length, OnOk, IfOk, IfErr};
ghost use Rattle.rule_base.specs.Sound.{IsSound};
ghost use Rattle.ops_command.specs.Call.{files_between};
ghost use Rattle.ops_command.specs.Account.{IsRefusal};
ghost use Rattle.ops_command.specs.FileBytes.{most_bytes, HidesNoReadFault};
ghost use Rattle.ops_command.specs.ProgramText.{first_names, Defines, IsFaultyProgram};
ghost use Rattle.ops_command.specs.ProgramFile.{GivesProgram, IsRefusedProgram};

use crate::file_bytes::read_file;
use crate::status::{FileKind, Status};
use crate::text::{check_status, read_text};
use ops_text::{Shelf, Symbols};
use rule_base::Program;
use rule_checker::check;
use std::alloc::Global;

/// Reads the program of the file with this name, and the names of its symbols.
pub fn read_program<F: Shelf>(
    alloc: Global,
    shelf: &mut F,
    name: &str,
) -> Result<(Program, Symbols), Status>
    ensures gives { IfOk result
        (λ r. GivesProgram (F.told shelf.old) name.now (record { program = r.0; names = r.1 })) }
    ensures refused { IfErr result (IsRefusal (IsRefusedProgram
        (files_between F.told F.faults shelf.old shelf.new)
        name.now)) }
    ensures no_fault { OnOk result (F.faults shelf.new ≡ F.faults shelf.old) }
    ensures counted { IfErr result (HidesNoReadFault (F.faults shelf.old) (F.faults shelf.new)) }
    ensures sound { IfOk result (λ r. IsSound r.0) }
    ensures few_makes { IfOk result (λ r. length r.0.makes < 2 ^ 32) }
    ensures few_names { IfOk result (λ r. length r.1 ≤ 1 + most_bytes) }

    // Whatever the answer, the files and what is told of them stay.
    ensures same { F.told shelf.new ≡ F.told shelf.old }
    ensures later { (other : List ℕ) → F.faults shelf.old other ≤ F.faults shelf.new other }
{
    let bytes = read_file(alloc, shelf, name, FileKind::Program)?;
    let mut symbols = Symbols::new(alloc)?;
    let program = program_of(alloc, &bytes, &mut symbols)?;
    Ok((program, symbols))
}

/// The program that these bytes define.
fn program_of(alloc: Global, bytes: &[u8], symbols: &mut Symbols) -> Result<Program, Status>
    requires nil { symbols.old ≡ first_names }
    requires short { length bytes.now ≤ most_bytes }
    ensures defines { IfOk result
        (λ program. Defines bytes.now (record { program = program; names = symbols.new })) }
    ensures refused { IfErr result (IsRefusal (IsFaultyProgram bytes.now)) }
    ensures sound { IfOk result IsSound }
    ensures few_makes { IfOk result (λ program. length program.makes < 2 ^ 32) }
    ensures few_names { length symbols.new ≤ 1 + most_bytes }
{
    let forms = read_text(alloc, bytes, symbols, FileKind::Program)?;
    match check(alloc, &forms) {
        Ok(program) => Ok(program),
        Err(refusal) => Err(check_status(FileKind::Program, refusal)),
    }
}
