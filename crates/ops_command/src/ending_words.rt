//! How the report says that a run ended.

ghost use Rattle.std.specs.Prelude.{◌≡◌, ◌++◌, decimal, IfOk, OnOk};
ghost use Rattle.rule_base.specs.declared.entry.Ending.TheVariants.{Fault};
ghost use Rattle.form_printer.specs.CanonicalValues.{spaced};
ghost use Rattle.ops_command.specs.EndingWords.{cause_words, ending_words, rule_name};

use crate::run_report::put_decimal;
use form_printer::print_symbol;
use ops_text::{OutOfMemory, Symbols};
use rule_base::{Choice, Ending, FaultCause, Program};
use std::alloc::Global;

/// The words of an ending.
pub fn ending_words(
    alloc: Global,
    program: &Program,
    symbols: &Symbols,
    ending: &Ending,
) -> Result<Vec<u8>, OutOfMemory>
    ensures { IfOk result
        (λ words. words.items ≡ ending_words program.now symbols.now ending.now) }
{
    match ending {
        Ending::Quiet => Vec::from_slice(alloc, b"quiet"),
        Ending::Halted => Vec::from_slice(alloc, b"halted"),
        Ending::Spent { .. } => Vec::from_slice(alloc, b"spent"),
        Ending::Fault {
            choice,
            action,
            cause,
        } => fault_words(alloc, program, symbols, choice, *action, *cause),
    }
}

/// Which rule failed with which elements, at which action and why.
fn fault_words(
    alloc: Global,
    program: &Program,
    symbols: &Symbols,
    choice: &Choice,
    action: u32,
    cause: FaultCause,
) -> Result<Vec<u8>, OutOfMemory>
    ensures { IfOk result
        (λ words. words.items ≡
        ending_words program.now symbols.now (Fault choice.now action cause)) }
{
    let mut words = Vec::from_slice(alloc, b"fault, rule ")?;
    put_rule_name(program, symbols, choice.rule, &mut words)?;
    words.extend_from_slice(b", action ")?;
    put_decimal(u64::from(action), &mut words)?;
    words.extend_from_slice(b", ")?;
    words.extend_from_slice(cause_words(cause))?;
    words.extend_from_slice(b", tags")?;
    put_tags(choice.tags.as_slice(), &mut words)?;
    Ok(words)
}

/// Appends the name of the rule with this number, where there is one.
fn put_rule_name(
    program: &Program,
    symbols: &Symbols,
    rule: u32,
    words: &mut Vec<u8>,
) -> Result<(), OutOfMemory>
    ensures { OnOk result
        (words.new.items ≡ words.old.items ++ rule_name program.now symbols.now rule) }
{
    match program.rules.get(rule as usize) {
        Some(rule) => print_symbol(rule.name, symbols, words),
        None => Ok(()),
    }
}

/// Appends tags, each with a space before it.
fn put_tags(tags: &[u64], words: &mut Vec<u8>) -> Result<(), OutOfMemory>
    ensures { OnOk result (words.new.items ≡ words.old.items ++ spaced decimal tags.now) }
{
    for tag in tags {
        words.push(b' ')?;
        put_decimal(*tag, words)?;
    }
    Ok(())
}

fn cause_words(cause: FaultCause) -> &'static [u8]
    ensures { result.now ≡ cause_words cause }
{
    match cause {
        FaultCause::DivideByZero => b"divide by zero".as_slice(),
        FaultCause::Overflow => b"overflow".as_slice(),
        FaultCause::NotANumber => b"not a number".as_slice(),
        FaultCause::Gone => b"gone".as_slice(),
    }
}
