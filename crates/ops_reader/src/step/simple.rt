//! One test: a constant or a variable, perhaps behind a predicate, or one of some constants.

ghost use Rattle.std.specs.Prelude.{◌≡◌, ◌-◌, ◌^◌, ◌<◌, length};
ghost use Rattle.ops_tokens.specs.Token.{seen};
ghost use Rattle.ops_reader.specs.TestReading.{compared_by, values_after, simple_begun, simple_after};
ghost use Rattle.ops_reader.specs.Outcome.{Gives, Grows};

use crate::part::{SimplePart, Step};
use crate::refusal::TokenRefusal;
use crate::take::{argument_of, constant_of};
use crate::{FormArg, Simple};
use ops_text::{Sequence, Symbols};
use ops_tokens::Token;
use rule_base::{Pred, Value};
use std::alloc::Global;

pub(crate) fn simple_after(
    alloc: Global,
    symbols: &mut Symbols,
    part: SimplePart,
    token: Token,
) -> Result<Step<SimplePart, Simple>, TokenRefusal>
    requires { length symbols.old < 2 ^ 32 - 1 }
    ensures answer { Gives result symbols.new (simple_after symbols.old part (seen token.entry)) }
    ensures grows { Grows symbols.old symbols.new }
{
    match part {
        SimplePart::Nothing => simple_begun(alloc, symbols, token),
        SimplePart::Predicate(pred) => {
            let argument = argument_of(alloc, symbols, token)?;
            Ok(Step::Whole(compared_by(pred, argument)))
        }
        SimplePart::OneOf(values) => values_after(alloc, symbols, values, token),
    }
}

fn simple_begun(
    alloc: Global,
    symbols: &mut Symbols,
    token: Token,
) -> Result<Step<SimplePart, Simple>, TokenRefusal>
    requires { length symbols.old < 2 ^ 32 - 1 }
    ensures answer { Gives result symbols.new (simple_begun symbols.old (seen token.entry)) }
    ensures grows { Grows symbols.old symbols.new }
{
    match token {
        Token::Predicate(pred) => Ok(Step::Part(SimplePart::Predicate(pred))),
        Token::OpenList => Ok(Step::Part(SimplePart::OneOf(Sequence::new(alloc)))),
        _ => Ok(Step::Whole(Simple::Plain(argument_of(alloc, symbols, token)?))),
    }
}

/// A test by `=` is a plain one.
fn compared_by(pred: Pred, argument: FormArg) -> Simple
    ensures { result ≡ compared_by pred argument }
{
    match pred {
        Pred::Eq => Simple::Plain(argument),
        _ => Simple::Cmp(pred, argument),
    }
}

fn values_after(
    alloc: Global,
    symbols: &mut Symbols,
    mut values: Sequence<Value>,
    token: Token,
) -> Result<Step<SimplePart, Simple>, TokenRefusal>
    requires { length symbols.old < 2 ^ 32 - 1 }
    ensures answer { Gives result symbols.new (values_after symbols.old values (seen token.entry)) }
    ensures grows { Grows symbols.old symbols.new }
{
    match token {
        Token::CloseList => Ok(Step::Whole(Simple::OneOf(values))),
        _ => {
            values.push(constant_of(alloc, symbols, token)?)?;
            Ok(Step::Part(SimplePart::OneOf(values)))
        }
    }
}
