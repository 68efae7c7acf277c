//! The program `ops`: it hands its words, the system's files and standard output to the command, and
//! ends with the number of the status.
#![tactic(auto)]

ghost use Rattle.std.specs.Prelude.{◌≡◌, map};
ghost use Rattle.std.specs.String.{string_bytes};
ghost use Rattle.ops_command.specs.Call.{files_between, output_between};
ghost use Rattle.ops.specs.Exit.{exit_number, EndsWith};

use ops_command::{Status, run_without_threads};
use ops_text::{FileShelf, OutSink, Shelf, Sink};
use std::alloc::Global;
use std::process::ExitCode;
use std::{env, io};

fn exit_number(status: &Status) -> u8
    ensures { result ≡ exit_number status.now }
{
    match status {
        Status::Quiet | Status::Halted => 0,
        Status::Usage { .. } => 2,
        Status::Spent { .. } => 3,
        Status::Fault { .. } => 4,
        Status::ReadFault { .. } => 5,
        Status::WriteFault => 6,
        Status::Syntax { .. } => 7,
        Status::Check { .. } => 8,
        Status::TooLong { .. } => 9,
        Status::OutOfMemory => 10,
    }
}

/// The words after the program's name. None of them are a faulty command line, and so stand for words
/// that aren't UTF-8.
fn words_after_name(rt: &HostRuntime) -> io::Result<Vec<String>> {
    match env::args(rt) {
        Ok(args) => Ok(args.skip(1).collect(rt.alloc())?),
        Err(error) if error.kind() == io::ErrorKind::InvalidData => Ok(Vec::new(rt.alloc())),
        Err(error) => Err(error),
    }
}

/// Does what the words ask for, and tells the number of the status.
fn exit_of<F: Shelf, K: Sink>(alloc: Global, words: &[String], shelf: &mut F, out: &mut K) -> u8
    ensures { EndsWith
        (record {
          words = map string_bytes words.now;
          files = files_between F.told F.faults shelf.old shelf.new;
          output = output_between K.told K.faults out.old out.new;
        })
        result }
{
    exit_number(&run_without_threads(alloc, words, shelf, out).status)
}

fn main(rt: HostRuntime) -> ExitCode {
    let Ok(words) = words_after_name(&rt) else {
        return ExitCode::from(exit_number(&Status::OutOfMemory));
    };
    let mut shelf = FileShelf::new(&rt);
    let mut out = OutSink::new(io::writer(&rt));
    ExitCode::from(exit_of(rt.alloc(), &words, &mut shelf, &mut out))
}
