//! Patterns: a class, and attributes with their tests.

ghost use Rattle.std.specs.Prelude.{◌-◌, ◌^◌, ◌<◌, length};
ghost use Rattle.ops_tokens.specs.Token.{seen};
ghost use Rattle.ops_reader.specs.CondReading.{tests_after, pattern_after};
ghost use Rattle.ops_reader.specs.Outcome.{Gives, Grows};

use super::test::test_after;
use crate::Simple;
use crate::part::{Pattern, PatternPart, Step, TestPart};
use crate::refusal::TokenRefusal;
use crate::take::symbol_of;
use ops_text::{Sequence, Symbols};
use ops_tokens::Token;
use std::alloc::Global;

pub(crate) fn pattern_after(
    alloc: Global,
    symbols: &mut Symbols,
    part: PatternPart,
    token: Token,
) -> Result<Step<PatternPart, Pattern>, TokenRefusal>
    requires { length symbols.old < 2 ^ 32 - 1 }
    ensures answer { Gives result symbols.new (pattern_after symbols.old part (seen token.entry)) }
    ensures grows { Grows symbols.old symbols.new }
{
    match part {
        PatternPart::Nothing => match token {
            Token::Open => Ok(Step::Part(PatternPart::Open)),
            _ => Err(TokenRefusal::CannotStand),
        },
        PatternPart::Open => Ok(Step::Part(PatternPart::Tests {
            class: symbol_of(alloc, symbols, token)?,
            tests: Sequence::new(alloc),
            test: TestPart::Nothing,
        })),
        PatternPart::Tests { class, tests, test } => {
            tests_after(alloc, symbols, class, tests, test, token)
        }
    }
}

fn tests_after(
    alloc: Global,
    symbols: &mut Symbols,
    class: u32,
    mut tests: Sequence<(u32, Sequence<Simple>)>,
    test: TestPart,
    token: Token,
) -> Result<Step<PatternPart, Pattern>, TokenRefusal>
    requires { length symbols.old < 2 ^ 32 - 1 }
    ensures answer { Gives result symbols.new
        (tests_after symbols.old class tests test (seen token.entry)) }
    ensures grows { Grows symbols.old symbols.new }
{
    if let (TestPart::Nothing, Token::Close) = (&test, token) {
        return Ok(Step::Whole(Pattern { class, tests }));
    }
    match test_after(alloc, symbols, test, token)? {
        Step::Part(test) => Ok(Step::Part(PatternPart::Tests { class, tests, test })),
        Step::Whole(one) => {
            tests.push(one)?;
            Ok(Step::Part(PatternPart::Tests {
                class,
                tests,
                test: TestPart::Nothing,
            }))
        }
    }
}
