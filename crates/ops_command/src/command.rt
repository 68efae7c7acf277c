//! The top call: from words, files and an output to a report.

ghost use Rattle.std.specs.Prelude.{◌≡◌, ◌≤◌, ℕ, List, map};
ghost use Rattle.std.specs.String.{string_bytes};
ghost use Rattle.ops_command.specs.Call.{Call, files_between, output_between};
ghost use Rattle.ops_command.specs.Promise.{KeepsPromise};

use crate::plan::plan_words;
use crate::status::{Report, Status};
use ops_text::{Shelf, Sink, write_all};
use std::alloc::Global;

/// Does what the words ask for, on the caller's thread: `run` and the name of a program file run that
/// program. The whole report is made before its first byte is written, and writing takes no memory.
pub fn run_without_threads<F: Shelf, K: Sink>(
    alloc: Global,
    words: &[String],
    shelf: &mut F,
    out: &mut K,
) -> Report
    // Where a program ran, the choices are a run of the recognise-act machine from the opening that
    // the bytes define, and all else is that run's.
    ensures kept { KeepsPromise
        (record {
          words = map string_bytes words.now;
          files = files_between F.told F.faults shelf.old shelf.new;
          output = output_between K.told K.faults out.old out.new;
        })
        result }

    // Whatever the answer, the files and what is told of them stay.
    ensures same { F.told shelf.new ≡ F.told shelf.old }
    ensures later { (other : List ℕ) → F.faults shelf.old other ≤ F.faults shelf.new other }
{
    match plan_words(alloc, words, shelf) {
        Err(_) => Report::of_no_run(alloc, Status::OutOfMemory),
        Ok(plan) => match write_all(out, plan.text.as_slice()) {
            Ok(()) => plan.report,
            Err(_) => plan.report.with_status(Status::WriteFault),
        },
    }
}
