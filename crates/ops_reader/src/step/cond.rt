//! Condition elements: a pattern alone, behind a minus, or in braces with an element variable.

ghost use Rattle.std.specs.Prelude.{◌≡◌, ◌-◌, ◌^◌, ◌<◌, length};
ghost use Rattle.ops_tokens.specs.Token.{seen};
ghost use Rattle.ops_reader.specs.CondReading.{condition_of, plain_after, negated_after, named_after, unnamed_after, cond_begun, brace_begun, cond_after};
ghost use Rattle.ops_reader.specs.Outcome.{Gives, Grows};

use super::pattern::pattern_after;
use crate::FormCond;
use crate::part::{CondPart, Pattern, PatternPart, Step};
use crate::refusal::TokenRefusal;
use crate::take::variable_of;
use ops_text::Symbols;
use ops_tokens::Token;
use std::alloc::Global;

pub(crate) fn cond_after(
    alloc: Global,
    symbols: &mut Symbols,
    part: CondPart,
    token: Token,
) -> Result<Step<CondPart, FormCond>, TokenRefusal>
    requires { length symbols.old < 2 ^ 32 - 1 }
    ensures answer { Gives result symbols.new (cond_after symbols.old part (seen token.entry)) }
    ensures grows { Grows symbols.old symbols.new }
{
    match part {
        CondPart::Nothing => cond_begun(alloc, symbols, token),
        CondPart::Plain(pattern) => plain_after(alloc, symbols, pattern, token),
        CondPart::Negated(pattern) => negated_after(alloc, symbols, pattern, token),
        CondPart::Brace => brace_begun(alloc, symbols, token),
        CondPart::Named { name, pattern } => named_after(alloc, symbols, name, pattern, token),
        CondPart::Unnamed(pattern) => unnamed_after(alloc, symbols, pattern, token),
        CondPart::Behind(pattern) => {
            let name = variable_of(alloc, symbols, token)?;
            Ok(Step::Part(CondPart::Closing(condition_of(false, Some(name), pattern))))
        }
        CondPart::Closing(cond) => match token {
            Token::CloseBrace => Ok(Step::Whole(cond)),
            _ => Err(TokenRefusal::CannotStand),
        },
    }
}

fn condition_of(negated: bool, named: Option<u32>, pattern: Pattern) -> FormCond
    ensures { result ≡ condition_of negated named pattern }
{
    let Pattern { class, tests } = pattern;
    FormCond {
        negated,
        named,
        class,
        tests,
    }
}

fn cond_begun(
    alloc: Global,
    symbols: &mut Symbols,
    token: Token,
) -> Result<Step<CondPart, FormCond>, TokenRefusal>
    requires { length symbols.old < 2 ^ 32 - 1 }
    ensures answer { Gives result symbols.new (cond_begun symbols.old (seen token.entry)) }
    ensures grows { Grows symbols.old symbols.new }
{
    match token {
        Token::Minus => Ok(Step::Part(CondPart::Negated(PatternPart::Nothing))),
        Token::OpenBrace => Ok(Step::Part(CondPart::Brace)),
        _ => plain_after(alloc, symbols, PatternPart::Nothing, token),
    }
}

fn plain_after(
    alloc: Global,
    symbols: &mut Symbols,
    pattern: PatternPart,
    token: Token,
) -> Result<Step<CondPart, FormCond>, TokenRefusal>
    requires { length symbols.old < 2 ^ 32 - 1 }
    ensures answer { Gives result symbols.new (plain_after symbols.old pattern (seen token.entry)) }
    ensures grows { Grows symbols.old symbols.new }
{
    match pattern_after(alloc, symbols, pattern, token)? {
        Step::Part(pattern) => Ok(Step::Part(CondPart::Plain(pattern))),
        Step::Whole(pattern) => Ok(Step::Whole(condition_of(false, None, pattern))),
    }
}

fn negated_after(
    alloc: Global,
    symbols: &mut Symbols,
    pattern: PatternPart,
    token: Token,
) -> Result<Step<CondPart, FormCond>, TokenRefusal>
    requires { length symbols.old < 2 ^ 32 - 1 }
    ensures answer { Gives result symbols.new
        (negated_after symbols.old pattern (seen token.entry)) }
    ensures grows { Grows symbols.old symbols.new }
{
    match pattern_after(alloc, symbols, pattern, token)? {
        Step::Part(pattern) => Ok(Step::Part(CondPart::Negated(pattern))),
        Step::Whole(pattern) => Ok(Step::Whole(condition_of(true, None, pattern))),
    }
}

fn brace_begun(
    alloc: Global,
    symbols: &mut Symbols,
    token: Token,
) -> Result<Step<CondPart, FormCond>, TokenRefusal>
    requires { length symbols.old < 2 ^ 32 - 1 }
    ensures answer { Gives result symbols.new (brace_begun symbols.old (seen token.entry)) }
    ensures grows { Grows symbols.old symbols.new }
{
    match token {
        Token::Variable(_) => Ok(Step::Part(CondPart::Named {
            name: variable_of(alloc, symbols, token)?,
            pattern: PatternPart::Nothing,
        })),
        _ => unnamed_after(alloc, symbols, PatternPart::Nothing, token),
    }
}

fn named_after(
    alloc: Global,
    symbols: &mut Symbols,
    name: u32,
    pattern: PatternPart,
    token: Token,
) -> Result<Step<CondPart, FormCond>, TokenRefusal>
    requires { length symbols.old < 2 ^ 32 - 1 }
    ensures answer { Gives result symbols.new
        (named_after symbols.old name pattern (seen token.entry)) }
    ensures grows { Grows symbols.old symbols.new }
{
    match pattern_after(alloc, symbols, pattern, token)? {
        Step::Part(pattern) => Ok(Step::Part(CondPart::Named { name, pattern })),
        Step::Whole(pattern) => Ok(Step::Part(CondPart::Closing(condition_of(
            false,
            Some(name),
            pattern,
        )))),
    }
}

fn unnamed_after(
    alloc: Global,
    symbols: &mut Symbols,
    pattern: PatternPart,
    token: Token,
) -> Result<Step<CondPart, FormCond>, TokenRefusal>
    requires { length symbols.old < 2 ^ 32 - 1 }
    ensures answer { Gives result symbols.new
        (unnamed_after symbols.old pattern (seen token.entry)) }
    ensures grows { Grows symbols.old symbols.new }
{
    match pattern_after(alloc, symbols, pattern, token)? {
        Step::Part(pattern) => Ok(Step::Part(CondPart::Unnamed(pattern))),
        Step::Whole(pattern) => Ok(Step::Part(CondPart::Behind(pattern))),
    }
}
