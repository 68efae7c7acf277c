//! Values in actions, and settings with such a value.

ghost use Rattle.std.specs.Prelude.{◌≡◌, ◌-◌, ◌^◌, ◌<◌, length};
ghost use Rattle.ops_text.specs.Names.{Names};
ghost use Rattle.ops_tokens.specs.Token.{seen};
ghost use Rattle.ops_reader.specs.TermReading.{value_of, no_expression, term_begun, term_head, term_after, term_set_after, term_sets_after};
ghost use Rattle.ops_reader.specs.Outcome.{Gives, Grows};

use super::expression::expression_after;
use crate::FormTerm;
use crate::part::{Before, ExprPart, Inner, Step, TermPart, TermSetPart};
use crate::refusal::TokenRefusal;
use crate::take::{literal_of, symbol_of, variable_of};
use ops_text::{Sequence, Symbols};
use ops_tokens::{Keyword, Token};
use std::alloc::Global;

/// A value of one token.
pub(super) fn value_of(
    alloc: Global,
    symbols: &mut Symbols,
    token: Token,
) -> Result<FormTerm, TokenRefusal>
    requires { length symbols.old < 2 ^ 32 - 1 }
    ensures answer { Gives result symbols.new (value_of symbols.old (seen token.entry)) }
    ensures grows { Grows symbols.old symbols.new }
{
    match token {
        Token::Variable(_) => Ok(FormTerm::Name(variable_of(alloc, symbols, token)?)),
        _ => Ok(FormTerm::Con(literal_of(alloc, symbols, token)?)),
    }
}

/// An expression that has not begun.
pub(super) fn no_expression(alloc: Global) -> ExprPart
    ensures { result ≡ no_expression }
{
    ExprPart {
        outer: Sequence::new(alloc),
        inner: Inner::Before(Before::Nothing),
    }
}

fn term_begun(
    alloc: Global,
    symbols: &mut Symbols,
    token: Token,
) -> Result<Step<TermPart, FormTerm>, TokenRefusal>
    requires { length symbols.old < 2 ^ 32 - 1 }
    ensures answer { Gives result symbols.new (term_begun symbols.old (seen token.entry)) }
    ensures grows { Grows symbols.old symbols.new }
{
    match token {
        Token::Open => Ok(Step::Part(TermPart::Head)),
        _ => Ok(Step::Whole(value_of(alloc, symbols, token)?)),
    }
}

/// The word takes no name.
fn term_head(alloc: Global, token: Token) -> Result<Step<TermPart, FormTerm>, TokenRefusal>
    ensures { (names : Names) → Gives result names (term_head names (seen token.entry)) }
{
    match token {
        Token::Plain(_, Some(Keyword::Compute)) => {
            Ok(Step::Part(TermPart::Compute(no_expression(alloc))))
        }
        _ => Err(TokenRefusal::CannotStand),
    }
}

pub(super) fn term_after(
    alloc: Global,
    symbols: &mut Symbols,
    part: TermPart,
    token: Token,
) -> Result<Step<TermPart, FormTerm>, TokenRefusal>
    requires { length symbols.old < 2 ^ 32 - 1 }
    ensures answer { Gives result symbols.new (term_after symbols.old part (seen token.entry)) }
    ensures grows { Grows symbols.old symbols.new }
{
    match part {
        TermPart::Nothing => term_begun(alloc, symbols, token),
        TermPart::Head => term_head(alloc, token),
        TermPart::Compute(part) => match expression_after(alloc, symbols, part, token)? {
            Step::Part(part) => Ok(Step::Part(TermPart::Compute(part))),
            Step::Whole(expression) => Ok(Step::Whole(FormTerm::Compute(expression))),
        },
    }
}

fn term_set_after(
    alloc: Global,
    symbols: &mut Symbols,
    part: TermSetPart,
    token: Token,
) -> Result<Step<TermSetPart, (u32, FormTerm)>, TokenRefusal>
    requires { length symbols.old < 2 ^ 32 - 1 }
    ensures answer { Gives result symbols.new
        (term_set_after symbols.old part (seen token.entry)) }
    ensures grows { Grows symbols.old symbols.new }
{
    match part {
        TermSetPart::Nothing => match token {
            Token::Caret => Ok(Step::Part(TermSetPart::Caret)),
            _ => Err(TokenRefusal::CannotStand),
        },
        TermSetPart::Caret => Ok(Step::Part(TermSetPart::Attr {
            attr: symbol_of(alloc, symbols, token)?,
            term: TermPart::Nothing,
        })),
        TermSetPart::Attr { attr, term } => match term_after(alloc, symbols, term, token)? {
            Step::Part(term) => Ok(Step::Part(TermSetPart::Attr { attr, term })),
            Step::Whole(term) => Ok(Step::Whole((attr, term))),
        },
    }
}

/// The settings of an action.
pub(super) type TermSets = Sequence<(u32, FormTerm)>;

pub(super) fn term_sets_after(
    alloc: Global,
    symbols: &mut Symbols,
    mut sets: TermSets,
    set: TermSetPart,
    token: Token,
) -> Result<Step<(TermSets, TermSetPart), TermSets>, TokenRefusal>
    requires { length symbols.old < 2 ^ 32 - 1 }
    ensures answer { Gives result symbols.new
        (term_sets_after symbols.old (sets, set) (seen token.entry)) }
    ensures grows { Grows symbols.old symbols.new }
{
    if let (TermSetPart::Nothing, Token::Close) = (&set, token) {
        return Ok(Step::Whole(sets));
    }
    match term_set_after(alloc, symbols, set, token)? {
        Step::Part(set) => Ok(Step::Part((sets, set))),
        Step::Whole(set) => {
            sets.push(set)?;
            Ok(Step::Part((sets, TermSetPart::Nothing)))
        }
    }
}
