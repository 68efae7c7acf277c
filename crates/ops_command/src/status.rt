//! The report of a call: its status, and what a run came to.

ghost use Rattle.std.specs.Prelude.{◌≡◌, Some};
ghost use Rattle.ops_command.specs.declared.status.Status.TheVariants.{OutOfMemory as no_memory};
ghost use Rattle.ops_command.specs.EndingWords.{status_of};
ghost use Rattle.ops_command.specs.Findings.{findings_of, no_findings};
ghost use Rattle.ops_command.specs.Refusals.{usage_word, file_word};

use commit_journal::Journal;
use ops_reader::SyntaxKind;
use ops_text::OutOfMemory;
use rule_base::{Choice, Elements, Ending, FaultCause};
use rule_checker::CheckKind;
use std::alloc::Global;
use std::fmt;

/// Which part of the command line is faulty.
#[derive(Clone, Copy, Debug, PartialEq, Eq)]
pub enum UsageKind {
    /// The words themselves.
    Words,
    /// The number of firings.
    Number,
}

impl fmt::Display for UsageKind {
    ghost output = { λ kind. Some (usage_word kind) };

    fn fmt<W: fmt::Write>(&self, f: &mut fmt::Formatter<W>) -> fmt::Result {
        f.write_str(match *self {
            UsageKind::Words => "words",
            UsageKind::Number => "number",
        })
    }
}

/// Which file a status speaks of.
#[derive(Clone, Copy, Debug, PartialEq, Eq)]
pub enum FileKind {
    Program,
    Memory,
}

impl fmt::Display for FileKind {
    ghost output = { λ file. Some (file_word file) };

    fn fmt<W: fmt::Write>(&self, f: &mut fmt::Formatter<W>) -> fmt::Result {
        f.write_str(match *self {
            FileKind::Program => "program",
            FileKind::Memory => "memory",
        })
    }
}

/// How a call ended. `n` counts firings, `action` the actions of a rule from 1, `at` bytes from 0, and
/// `form` the forms of a file from 1.
#[derive(Debug, Drop)]
pub enum Status {
    /// Nothing was left to fire.
    Quiet,
    /// A firing halted.
    Halted,
    Usage {
        kind: UsageKind,
    },
    /// The firings were used up, and something was left.
    Spent {
        n: u64,
    },
    /// The right-hand side of this instantiation failed first at this action.
    Fault {
        choice: Choice,
        action: u32,
        cause: FaultCause,
    },
    ReadFault {
        file: FileKind,
    },
    WriteFault,
    TooLong {
        file: FileKind,
    },
    /// The text of the file isn't one of the language.
    Syntax {
        file: FileKind,
        at: u64,
        kind: SyntaxKind,
    },
    /// A form of the file breaks a rule of the language.
    Check {
        file: FileKind,
        form: u32,
        kind: CheckKind,
    },
    OutOfMemory,
}

impl Status {
    /// The status of a run that ended so.
    pub(crate) fn of_ending(ending: Ending) -> Status
        ensures { result ≡ status_of ending }
    {
        match ending {
            Ending::Quiet => Status::Quiet,
            Ending::Halted => Status::Halted,
            Ending::Spent { n } => Status::Spent { n },
            Ending::Fault {
                choice,
                action,
                cause,
            } => Status::Fault {
                choice,
                action,
                cause,
            },
        }
    }
}

impl From<OutOfMemory> for Status {
    ghost from_gives = { λ _ status. status ≡ no_memory };

    fn from(_error: OutOfMemory) -> Status {
        Status::OutOfMemory
    }
}

/// What a call answers: its status, the journal of its run, and the working memory in the end. The next
/// time tag is the journal's. Where no run ended they are empty, and the next tag is 1.
#[derive(Drop)]
pub struct Report {
    pub status: Status,
    pub journal: Journal,
    pub memory: Elements,
}

impl Report {
    /// A report of no run.
    pub(crate) fn of_no_run(alloc: Global, status: Status) -> Report
        ensures status { result.status ≡ status }
        ensures nothing { findings_of result ≡ no_findings }
    {
        Report {
            status,
            journal: Journal::new(alloc, 1),
            memory: Elements::new(alloc),
        }
    }

    /// The report with another status.
    pub(crate) fn with_status(self, status: Status) -> Report
        ensures status { result.status ≡ status }
        ensures same { findings_of result ≡ findings_of self }
    {
        Report { status, ..self }
    }
}
