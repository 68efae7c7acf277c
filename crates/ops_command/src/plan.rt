//! What a call is to say. All of it is made before its first byte is written, a layer at a time: the words, the program
//! file, the memory file, the run.

ghost use Rattle.std.specs.Prelude.{◌≡◌, ◌+◌, ◌^◌, ◌<◌, ◌≤◌, ℕ, List, true, length, map, OnOk, IfOk, IfErr};
ghost use Rattle.std.specs.String.{string_bytes};
ghost use Rattle.rule_base.specs.Sound.{IsSound};
ghost use Rattle.ops_command.specs.Call.{files_between};
ghost use Rattle.rule_base.specs.Ending.{IsBudget};
ghost use Rattle.ops_command.specs.Asking.{asked_of};
ghost use Rattle.ops_command.specs.Account.{refusal, account_of, IsRefusal};
ghost use Rattle.ops_command.specs.FileBytes.{most_bytes, HidesNoReadFault};
ghost use Rattle.ops_command.specs.Answer.{WordsLedTo, RequestLedTo, ProgramLedTo};

use crate::memory_file::read_opening;
use crate::program_file::read_program;
use crate::refusals::refusal_line;
use crate::run::plan_run;
use crate::status::{Report, Status};
use crate::words::{Request, requested};
use ops_text::{OutOfMemory, Shelf, Symbols};
use rule_base::Program;
use std::alloc::Global;

/// What is to be said: the report, and the text that is to be written.
#[derive(Drop)]
pub struct Plan {
    pub report: Report,
    pub text: Vec<u8>,
}

/// What is to be said where these words ask.
pub fn plan_words<F: Shelf>(
    alloc: Global,
    words: &[String],
    shelf: &mut F,
) -> Result<Plan, OutOfMemory>
    ensures said { IfOk result (λ plan. WordsLedTo
        (map string_bytes words.now)
        (files_between F.told F.faults shelf.old shelf.new)
        (account_of plan)) }
    ensures counted { IfOk result (λ plan.
        HidesNoReadFault (F.faults shelf.old) (F.faults shelf.new) plan.report.status) }
    // Whatever the answer, the files and what is told of them stay.
    ensures same { F.told shelf.new ≡ F.told shelf.old }
    ensures later { (other : List ℕ) → F.faults shelf.old other ≤ F.faults shelf.new other }
{
    match run_words(alloc, words, shelf) {
        Ok(plan) => Ok(plan),
        Err(Status::OutOfMemory) => Err(OutOfMemory),
        Err(status) => refusal(alloc, status),
    }
}

/// Nothing runs, and a line says why.
fn refusal(alloc: Global, status: Status) -> Result<Plan, OutOfMemory>
    ensures { IfOk result (λ plan. account_of plan ≡ refusal status) }
{
    let line = refusal_line(alloc, &status)?;
    Ok(Plan {
        report: Report::of_no_run(alloc, status),
        text: line.into_bytes(),
    })
}

/// The run that the words ask for, or the status under which nothing runs.
fn run_words<F: Shelf>(alloc: Global, words: &[String], shelf: &mut F) -> Result<Plan, Status>
    ensures ran { IfOk result (λ plan. WordsLedTo
        (map string_bytes words.now)
        (files_between F.told F.faults shelf.old shelf.new)
        (account_of plan)) }
    ensures refused { IfErr result (IsRefusal (WordsLedTo
        (map string_bytes words.now)
        (files_between F.told F.faults shelf.old shelf.new))) }
    ensures no_fault { OnOk result (F.faults shelf.new ≡ F.faults shelf.old) }
    ensures counted { IfErr result (HidesNoReadFault (F.faults shelf.old) (F.faults shelf.new)) }

    // Whatever the answer, the files and what is told of them stay.
    ensures same { F.told shelf.new ≡ F.told shelf.old }
    ensures later { (other : List ℕ) → F.faults shelf.old other ≤ F.faults shelf.new other }
{
    match requested(words) {
        Ok(request) => run_request(alloc, shelf, &request),
        Err(kind) => Err(Status::Usage { kind }),
    }
}

/// The run that is asked for: of the program of one file, from the opening memory that it has with another.
fn run_request<F: Shelf>(
    alloc: Global,
    shelf: &mut F,
    request: &Request<'_>,
) -> Result<Plan, Status>
    requires { IsBudget request.now.budget }
    ensures ran { IfOk result (λ plan. RequestLedTo
        (files_between F.told F.faults shelf.old shelf.new)
        (asked_of request.now) (account_of plan)) }
    ensures refused { IfErr result (IsRefusal (RequestLedTo
        (files_between F.told F.faults shelf.old shelf.new)
        (asked_of request.now))) }
    ensures no_fault { OnOk result (F.faults shelf.new ≡ F.faults shelf.old) }
    ensures counted { IfErr result (HidesNoReadFault (F.faults shelf.old) (F.faults shelf.new)) }

    // Whatever the answer, the files and what is told of them stay.
    ensures same { F.told shelf.new ≡ F.told shelf.old }
    ensures later { (other : List ℕ) → F.faults shelf.old other ≤ F.faults shelf.new other }
{
    let (program, mut symbols) = read_program(alloc, shelf, request.program)?;
    let opening = read_opening(alloc, shelf, request.memory, &program, &mut symbols)?;
    let plan = plan_run(alloc, program, opening, request.budget, &symbols)?;
    Ok(plan)
}
