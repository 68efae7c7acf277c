//! The words after the program's name.

ghost use Rattle.std.specs.Prelude.{◌≡◌, Ok, Err, map, IfOk, IfErr, IfSome};
ghost use Rattle.std.specs.Option.{option_copied};
ghost use Rattle.std.specs.Str.{all_ascii_digits};
ghost use Rattle.std.specs.String.{string_bytes};
ghost use Rattle.rule_base.specs.Ending.{IsBudget};
ghost use Rattle.ops_command.specs.Words.{is_short_numeral, short_number, budget_of, budget_asked, names_file, asked_with, asked_behind, asked_by};
ghost use Rattle.ops_command.specs.Asking.{asked_of};

use crate::status::UsageKind;

/// How many firings a run may have where the words don't say.
const USUAL_BUDGET: u64 = 1_000_000;

/// How many firings the words may allow.
const MOST_FIRINGS: u64 = 4_000_000;

/// What words ask for: a program file, perhaps a memory file, and how many firings the run may have.
#[derive(Clone, Copy, Debug)]
pub struct Request<'a> {
    pub program: &'a str,
    pub memory: Option<&'a str>,
    pub budget: u64,
}

/// What the words ask for, or what is wrong with them.
pub fn requested(words: &[String]) -> Result<Request<'_>, UsageKind>
    ensures asks { IfOk result (λ r. asked_by (map string_bytes words.now) ≡ Ok (asked_of r)) }
    ensures faulty { IfErr result (λ kind. asked_by (map string_bytes words.now) ≡ Err kind) }
    ensures budget { IfOk result (λ r. IsBudget r.budget) }
{
    let [command, program, rest @ ..] = words else {
        return Err(UsageKind::Words);
    };
    if command.as_str() == "run" && names_file(program.as_str()) {
        requested_behind(program.as_str(), rest)
    } else {
        Err(UsageKind::Words)
    }
}

/// What is asked for with this program file and these words behind it.
fn requested_behind<'a>(program: &'a str, rest: &'a [String]) -> Result<Request<'a>, UsageKind>
    ensures asks { IfOk result
        (λ r. asked_behind program.now (map string_bytes rest.now) ≡ Ok (asked_of r)) }
    ensures faulty { IfErr result
        (λ kind. asked_behind program.now (map string_bytes rest.now) ≡ Err kind) }
    ensures budget { IfOk result (λ r. IsBudget r.budget) }
{
    match rest {
        [word, behind @ ..] if names_file(word.as_str()) => {
            requested_with(program, Some(word.as_str()), behind)
        }
        _ => requested_with(program, None, rest),
    }
}

/// What is asked for with these files and these words behind them.
fn requested_with<'a>(
    program: &'a str,
    memory: Option<&'a str>,
    rest: &[String],
) -> Result<Request<'a>, UsageKind>
    ensures asks { IfOk result (λ r.
        asked_with program.now (option_copied memory.entry) (map string_bytes rest.now)
        ≡ Ok (asked_of r)) }
    ensures faulty { IfErr result (λ kind.
        asked_with program.now (option_copied memory.entry) (map string_bytes rest.now)
        ≡ Err kind) }
    ensures budget { IfOk result (λ r. IsBudget r.budget) }
{
    match budget_asked(rest) {
        Ok(budget) => Ok(Request {
            program,
            memory,
            budget,
        }),
        Err(kind) => Err(kind),
    }
}

/// The budget that the words behind the files ask for.
fn budget_asked(rest: &[String]) -> Result<u64, UsageKind>
    ensures asked { result ≡ budget_asked (map string_bytes rest.now) }
    ensures budget { IfOk result IsBudget }
{
    match rest {
        [] => Ok(USUAL_BUDGET),
        [option, number] if option.as_str() == "--firings" => match budget_of(number.as_str()) {
            Some(budget) => Ok(budget),
            None => Err(UsageKind::Number),
        },
        _ => Err(UsageKind::Words),
    }
}

/// Whether a word may name a file.
fn names_file(word: &str) -> bool
    ensures { result ≡ names_file word.now }
{
    !word.starts_with('-')
}

/// The budget that a word stands for.
fn budget_of(word: &str) -> Option<u64>
    ensures value { result ≡ budget_of word.now }
    ensures budget { IfSome result IsBudget }
{
    match short_number(word) {
        Some(firings) if 1 <= firings && firings <= MOST_FIRINGS => Some(firings),
        _ => None,
    }
}

/// The number that one to seven digits write.
fn short_number(word: &str) -> Option<u64>
    ensures { result ≡ short_number word.now }
{
    if is_short_numeral(word.as_bytes()) {
        word.parse().ok()
    } else {
        None
    }
}

/// Whether a word is one to seven digits.
fn is_short_numeral(word: &[u8]) -> bool
    ensures { result ≡ is_short_numeral word.now }
{
    1 <= word.len() && word.len() <= 7 && are_digits(word)
}

fn are_digits(word: &[u8]) -> bool
    ensures { result ≡ all_ascii_digits word.now }
{
    match word.split_first() {
        Some((first, rest)) => first.is_ascii_digit() && are_digits(rest),
        None => true,
    }
}
