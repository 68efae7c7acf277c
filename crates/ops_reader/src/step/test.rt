//! An attribute with its tests: one alone, or any in braces.

ghost use Rattle.std.specs.Prelude.{◌-◌, ◌^◌, ◌<◌, length};
ghost use Rattle.ops_tokens.specs.Token.{seen};
ghost use Rattle.ops_reader.specs.TestReading.{alone_after, braced_after, test_after};
ghost use Rattle.ops_reader.specs.Outcome.{Gives, Grows};

use super::simple::simple_after;
use crate::Simple;
use crate::part::{SimplePart, Step, TestPart};
use crate::refusal::TokenRefusal;
use crate::take::symbol_of;
use ops_text::{Sequence, Symbols};
use ops_tokens::Token;
use std::alloc::Global;

pub(crate) fn test_after(
    alloc: Global,
    symbols: &mut Symbols,
    part: TestPart,
    token: Token,
) -> Result<Step<TestPart, (u32, Sequence<Simple>)>, TokenRefusal>
    requires { length symbols.old < 2 ^ 32 - 1 }
    ensures answer { Gives result symbols.new (test_after symbols.old part (seen token.entry)) }
    ensures grows { Grows symbols.old symbols.new }
{
    match part {
        TestPart::Nothing => match token {
            Token::Caret => Ok(Step::Part(TestPart::Caret)),
            _ => Err(TokenRefusal::CannotStand),
        },
        TestPart::Caret => Ok(Step::Part(TestPart::Alone {
            attr: symbol_of(alloc, symbols, token)?,
            simple: SimplePart::Nothing,
        })),
        TestPart::Alone { attr, simple } => alone_after(alloc, symbols, attr, simple, token),
        TestPart::Braced {
            attr,
            simples,
            simple,
        } => { braced_after(alloc, symbols, attr, simples, simple, token) }
    }
}

fn alone_after(
    alloc: Global,
    symbols: &mut Symbols,
    attr: u32,
    simple: SimplePart,
    token: Token,
) -> Result<Step<TestPart, (u32, Sequence<Simple>)>, TokenRefusal>
    requires { length symbols.old < 2 ^ 32 - 1 }
    ensures answer { Gives result symbols.new
        (alone_after symbols.old attr simple (seen token.entry)) }
    ensures grows { Grows symbols.old symbols.new }
{
    if let (SimplePart::Nothing, Token::OpenBrace) = (&simple, token) {
        return Ok(Step::Part(TestPart::Braced {
            attr,
            simples: Sequence::new(alloc),
            simple: SimplePart::Nothing,
        }));
    }
    match simple_after(alloc, symbols, simple, token)? {
        Step::Part(simple) => Ok(Step::Part(TestPart::Alone { attr, simple })),
        Step::Whole(one) => {
            let mut simples = Sequence::new(alloc);
            simples.push(one)?;
            Ok(Step::Whole((attr, simples)))
        }
    }
}

fn braced_after(
    alloc: Global,
    symbols: &mut Symbols,
    attr: u32,
    mut simples: Sequence<Simple>,
    simple: SimplePart,
    token: Token,
) -> Result<Step<TestPart, (u32, Sequence<Simple>)>, TokenRefusal>
    requires { length symbols.old < 2 ^ 32 - 1 }
    ensures answer { Gives result symbols.new
        (braced_after symbols.old attr simples simple (seen token.entry)) }
    ensures grows { Grows symbols.old symbols.new }
{
    if let (SimplePart::Nothing, Token::CloseBrace) = (&simple, token) {
        return Ok(Step::Whole((attr, simples)));
    }
    match simple_after(alloc, symbols, simple, token)? {
        Step::Part(simple) => Ok(Step::Part(TestPart::Braced {
            attr,
            simples,
            simple,
        })),
        Step::Whole(one) => {
            simples.push(one)?;
            Ok(Step::Part(TestPart::Braced {
                attr,
                simples,
                simple: SimplePart::Nothing,
            }))
        }
    }
}
