//! The line that is the whole report where nothing runs.

ghost use Rattle.std.specs.Prelude.{◌≡◌, IfOk};
ghost use Rattle.std.specs.String.{string_bytes};
ghost use Rattle.ops_command.specs.Refusals.{syntax_words, check_words, syntax_line, check_line, refusal_line};

use crate::status::{FileKind, Status};
use ops_reader::SyntaxKind;
use ops_text::OutOfMemory;
use rule_checker::CheckKind;
use std::alloc::Global;

/// The line of a status. The statuses that are no refusals have none.
pub fn refusal_line(alloc: Global, status: &Status) -> Result<String, OutOfMemory>
    ensures { IfOk result (λ line. string_bytes line ≡ refusal_line status.now) }
{
    match status {
        Status::Usage { kind } => format!(in alloc; "ops: usage: {kind}\n"),
        Status::ReadFault { file } => format!(in alloc; "ops: cannot read {file}\n"),
        Status::TooLong { file } => format!(in alloc; "ops: {file} is too long\n"),
        Status::Syntax { file, at, kind } => syntax_line(alloc, *file, *at, syntax_words(*kind)),
        Status::Check { file, form, kind } => check_line(alloc, *file, *form, check_words(*kind)),
        Status::Quiet
        | Status::Halted
        | Status::Spent { .. }
        | Status::Fault { .. }
        | Status::WriteFault
        | Status::OutOfMemory => Ok(String::new(alloc)),
    }
}

fn syntax_line(alloc: Global, file: FileKind, at: u64, why: &str) -> Result<String, OutOfMemory>
    ensures { IfOk result (λ line. string_bytes line ≡ syntax_line file at why.now) }
{
    format!(in alloc; "ops: syntax error in {file} at byte {at}: {why}\n")
}

fn check_line(alloc: Global, file: FileKind, form: u32, why: &str) -> Result<String, OutOfMemory>
    ensures { IfOk result (λ line. string_bytes line ≡ check_line file form why.now) }
{
    format!(in alloc; "ops: check error in {file}, form {form}: {why}\n")
}

fn syntax_words(kind: SyntaxKind) -> &'static str
    ensures { result.now ≡ syntax_words kind }
{
    match kind {
        SyntaxKind::Unclosed => "unclosed",
        SyntaxKind::Unexpected => "unexpected",
        SyntaxKind::BadNumeral => "bad numeral",
        SyntaxKind::LongSymbol => "long symbol",
        SyntaxKind::TooDeep => "too deep",
        SyntaxKind::NotInProfile => "not in profile",
    }
}

fn check_words(kind: CheckKind) -> &'static str
    ensures { result.now ≡ check_words kind }
{
    match kind {
        CheckKind::UnknownClass => "unknown class",
        CheckKind::UnknownAttribute => "unknown attribute",
        CheckKind::Twice => "twice",
        CheckKind::FirstNegated => "first negated",
        CheckKind::Unbound => "unbound",
        CheckKind::BadDesignator => "bad designator",
        CheckKind::TooMany => "too many",
        CheckKind::NotInitial => "not initial",
    }
}
