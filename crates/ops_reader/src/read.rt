//! Reads a text from its first token to its last.

ghost use Rattle.std.specs.Prelude.{◌≡◌, ◌≢◌, ◌↔◌, ◌+◌, ◌-◌, ◌^◌, ◌<◌, ◌≤◌, length, Some, IfOk, IfErr, IfSome, IfNone, IsTrue};
ghost use Rattle.ops_text.specs.Names.{KeepsNumbers};
ghost use Rattle.ops_reader.specs.declared.part.FormPart.TheVariants as of_form;
ghost use Rattle.ops_tokens.specs.Token.{seen};
ghost use Rattle.ops_tokens.specs.Tokens.{tokens_of};
ghost use Rattle.ops_reader.specs.Grammar.{IsText};
ghost use Rattle.ops_reader.specs.Reading.{start, next, run};
ghost use Rattle.ops_reader.specs.Outcome.{Grows, IsRefused, IsRefusedHere, TakesOne, reading};

use crate::kind::kind_at;
use crate::part::{FormPart, Progress, Step};
use crate::refusal::TokenRefusal;
use crate::slot::form_slot;
use crate::step::form_after;
use crate::{Form, Forms, FormsRefusal, SyntaxKind};
use ops_text::{Sequence, Symbols};
use ops_tokens::{Token, next_token};
use std::alloc::Global;

/// The forms of a text. Names get numbers in the order of their tokens. It goes over the text once.
pub fn read_forms(alloc: Global, bytes: &[u8], symbols: &mut Symbols) -> Result<Forms, FormsRefusal>
    requires room { length symbols.old + length bytes.now < 2 ^ 32 }
    ensures found { IfOk result
        (λ forms. IsText symbols.old forms (tokens_of bytes.now) symbols.new) }
    ensures refused { IfErr result (IsRefused symbols.old bytes.now) }

    // Whatever the answer, names keep their numbers, and each byte adds at most one.
    ensures stand { KeepsNumbers symbols.old symbols.new }
    ensures grows { length symbols.new ≤ length symbols.old + length bytes.now }
{
    let progress = read_tokens(alloc, bytes, symbols)?;
    match whole(progress) {
        Some(forms) => Ok(Forms::new(forms)),
        None => Err(FormsRefusal::Syntax {
            at: bytes.len() as u64,
            kind: SyntaxKind::Unclosed,
        }),
    }
}

/// What has been read behind the last token, where some text begins with the tokens.
fn read_tokens(alloc: Global, bytes: &[u8], symbols: &mut Symbols) -> Result<Progress, FormsRefusal>
    requires room { length symbols.old + length bytes.now < 2 ^ 32 }
    ensures read { IfOk result
        (λ p. run (start symbols.old) (tokens_of bytes.now) ≡ Some (reading symbols.new p)) }
    ensures refused { IfErr result (IsRefused symbols.old bytes.now) }
    ensures few { IfOk result (λ progress. length progress.forms ≤ length bytes.now) }
    ensures stand { KeepsNumbers symbols.old symbols.new }
    ensures grows { length symbols.new ≤ length symbols.old + length bytes.now }
{
    let mut progress = Progress {
        forms: Sequence::new(alloc),
        part: FormPart::Nothing,
    };
    let mut rest = bytes;
    while let Some(found) = next_token(rest) {
        let place = (bytes.len() - found.left) as u64;
        progress = read_token(alloc, symbols, progress, found.token, place)?;
        rest = found.behind;
    }
    Ok(progress)
}

/// Reads one more token, which begins at this place.
fn read_token(
    alloc: Global,
    symbols: &mut Symbols,
    progress: Progress,
    token: Token,
    place: u64,
) -> Result<Progress, FormsRefusal>
    requires { length symbols.old < 2 ^ 32 - 1 }
    ensures read { IfOk result (λ more.
        next (reading symbols.old progress) (seen token.entry) ≡ Some (reading symbols.new more)) }
    ensures refused { IfErr result
        (IsRefusedHere (reading symbols.old progress) (seen token.entry) place) }
    ensures few { IfOk result (λ more. length more.forms ≤ length progress.forms + 1) }
    ensures grows { Grows symbols.old symbols.new }
{
    // The part is taken apart by the step, so what may stand in it is asked before.
    let slot = form_slot(&progress.part);
    match step(alloc, symbols, progress, token) {
        Ok(more) => Ok(more),
        Err(TokenRefusal::CannotStand) => Err(FormsRefusal::Syntax {
            at: place,
            kind: kind_at(slot, token),
        }),
        Err(TokenRefusal::OutOfMemory) => Err(FormsRefusal::OutOfMemory),
    }
}

/// Takes one more token.
fn step(
    alloc: Global,
    symbols: &mut Symbols,
    progress: Progress,
    token: Token,
) -> Result<Progress, TokenRefusal>
    requires { length symbols.old < 2 ^ 32 - 1 }
    ensures answer { TakesOne result symbols.new
        (next (reading symbols.old progress) (seen token.entry)) }
    ensures few { IfOk result (λ more. length more.forms ≤ length progress.forms + 1) }
    ensures grows { Grows symbols.old symbols.new }
{
    let Progress { mut forms, part } = progress;
    match form_after(alloc, symbols, part, token)? {
        Step::Part(part) => Ok(Progress { forms, part }),
        Step::Whole(form) => {
            forms.push(form)?;
            Ok(Progress {
                forms,
                part: FormPart::Nothing,
            })
        }
    }
}

/// The forms, where none is open.
fn whole(progress: Progress) -> Option<Sequence<Form>>
    ensures unfinished { IfNone result (progress.part ≢ of_form.Nothing) }
    ensures whole { IfSome result
        (λ forms. progress ≡ record { forms = forms; part = of_form.Nothing }) }
{
    let Progress { forms, part } = progress;
    let is_open = !is_nothing(&part);
    drop(part);
    if is_open { None } else { Some(forms) }
}

fn is_nothing(part: &FormPart) -> bool
    ensures { IsTrue result ↔ (part.now ≡ of_form.Nothing) }
{
    matches!(part, FormPart::Nothing)
}
