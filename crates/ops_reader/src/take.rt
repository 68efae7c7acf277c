//! Takes one token where a symbol, a variable, a constant, a literal, an argument or a number may stand.

ghost use Rattle.std.specs.Prelude.{◌-◌, ◌^◌, ◌<◌, length};
ghost use Rattle.ops_text.specs.Names.{Names};
ghost use Rattle.ops_tokens.specs.Token.{seen};
ghost use Rattle.ops_reader.specs.Taken.{symbol_of, variable_of, constant_of, literal_of, argument_of, number_up_to};
ghost use Rattle.ops_reader.specs.Outcome.{Gives, Grows};

use crate::FormArg;
use crate::refusal::TokenRefusal;
use ops_text::Symbols;
use ops_tokens::{Token, constant_name, literal_name, symbol_name, variable_name};
use rule_base::Value;
use std::alloc::Global;

pub(crate) fn symbol_of(
    alloc: Global,
    symbols: &mut Symbols,
    token: Token,
) -> Result<u32, TokenRefusal>
    requires { length symbols.old < 2 ^ 32 - 1 }
    ensures answer { Gives result symbols.new (symbol_of symbols.old (seen token.entry)) }
    ensures grows { Grows symbols.old symbols.new }
{
    match symbol_name(token) {
        Some(name) => Ok(symbols.number(alloc, name)?),
        None => Err(TokenRefusal::CannotStand),
    }
}

pub(crate) fn variable_of(
    alloc: Global,
    symbols: &mut Symbols,
    token: Token,
) -> Result<u32, TokenRefusal>
    requires { length symbols.old < 2 ^ 32 - 1 }
    ensures answer { Gives result symbols.new (variable_of symbols.old (seen token.entry)) }
    ensures grows { Grows symbols.old symbols.new }
{
    match variable_name(token) {
        Some(name) => Ok(symbols.number(alloc, name)?),
        None => Err(TokenRefusal::CannotStand),
    }
}

pub(crate) fn constant_of(
    alloc: Global,
    symbols: &mut Symbols,
    token: Token,
) -> Result<Value, TokenRefusal>
    requires { length symbols.old < 2 ^ 32 - 1 }
    ensures answer { Gives result symbols.new (constant_of symbols.old (seen token.entry)) }
    ensures grows { Grows symbols.old symbols.new }
{
    if let Token::Integer(number) = token {
        return Ok(Value::Int(number));
    }
    match constant_name(token) {
        Some(name) => Ok(Value::Sym(symbols.number(alloc, name)?)),
        None => Err(TokenRefusal::CannotStand),
    }
}

pub(crate) fn literal_of(
    alloc: Global,
    symbols: &mut Symbols,
    token: Token,
) -> Result<Value, TokenRefusal>
    requires { length symbols.old < 2 ^ 32 - 1 }
    ensures answer { Gives result symbols.new (literal_of symbols.old (seen token.entry)) }
    ensures grows { Grows symbols.old symbols.new }
{
    if let Token::Integer(number) = token {
        return Ok(Value::Int(number));
    }
    match literal_name(token) {
        Some(name) => Ok(Value::Sym(symbols.number(alloc, name)?)),
        None => Err(TokenRefusal::CannotStand),
    }
}

pub(crate) fn argument_of(
    alloc: Global,
    symbols: &mut Symbols,
    token: Token,
) -> Result<FormArg, TokenRefusal>
    requires { length symbols.old < 2 ^ 32 - 1 }
    ensures answer { Gives result symbols.new (argument_of symbols.old (seen token.entry)) }
    ensures grows { Grows symbols.old symbols.new }
{
    match token {
        Token::Variable(_) => Ok(FormArg::Name(variable_of(alloc, symbols, token)?)),
        _ => Ok(FormArg::Con(constant_of(alloc, symbols, token)?)),
    }
}

/// A number takes no name.
pub(crate) fn number_up_to(most: u8, token: Token) -> Result<u8, TokenRefusal>
    ensures { (names : Names) → Gives result names (number_up_to most names (seen token.entry)) }
{
    match token {
        Token::Integer(number) if 0 <= number && number <= most as i64 => Ok(number as u8),
        _ => Err(TokenRefusal::CannotStand),
    }
}
