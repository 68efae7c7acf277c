//! The forms of a file's text, and the status where the text or its forms are faulty.

ghost use Rattle.std.specs.Prelude.{◌≡◌, ◌+◌, ◌^◌, ◌<◌, ◌≤◌, length, IfOk, IfErr};
ghost use Rattle.ops_tokens.specs.Tokens.{tokens_of};
ghost use Rattle.ops_reader.specs.Grammar.{IsText};
ghost use Rattle.ops_command.specs.Account.{IsRefusal};
ghost use Rattle.ops_command.specs.FaultyText.{IsSyntaxError, check_status};

use crate::status::{FileKind, Status};
use ops_reader::{Forms, FormsRefusal, read_forms};
use ops_text::Symbols;
use rule_checker::CheckRefusal;
use std::alloc::Global;

/// Reads the forms of a file's bytes.
pub fn read_text(
    alloc: Global,
    bytes: &[u8],
    symbols: &mut Symbols,
    file: FileKind,
) -> Result<Forms, Status>
    requires room { length symbols.old + length bytes.now < 2 ^ 32 }
    ensures text { IfOk result
        (λ forms. IsText symbols.old forms (tokens_of bytes.now) symbols.new) }
    ensures refused { IfErr result (IsRefusal (IsSyntaxError symbols.old bytes.now file)) }
    ensures grows { length symbols.new ≤ length symbols.old + length bytes.now }
{
    match read_forms(alloc, bytes, symbols) {
        Ok(forms) => Ok(forms),
        Err(FormsRefusal::Syntax { at, kind }) => Err(Status::Syntax { file, at, kind }),
        Err(FormsRefusal::OutOfMemory) => Err(Status::OutOfMemory),
    }
}

/// The status where the forms of a file are refused.
pub fn check_status(file: FileKind, refusal: CheckRefusal) -> Status
    ensures { result ≡ check_status file refusal }
{
    match refusal {
        CheckRefusal::Check { form, kind } => Status::Check { file, form, kind },
        CheckRefusal::OutOfMemory => Status::OutOfMemory,
    }
}
