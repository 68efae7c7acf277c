//! Expressions of `compute`.

ghost use Rattle.std.specs.Prelude.{◌≡◌, ◌-◌, ◌^◌, ◌<◌, nat_lt, length, IfOk};
ghost use Rattle.ops_text.specs.Names.{Names};
ghost use Rattle.ops_tokens.specs.Token.{seen};
ghost use Rattle.ops_reader.specs.ExpressionReading.{operator_of, with_operand, operand_of, parenthesis_opened, operand_after, in_parentheses, closed, operator_after, expression_after};
ghost use Rattle.ops_reader.specs.Outcome.{Gives, Grows};

use crate::part::{Before, ExprPart, Inner, Step};
use crate::refusal::TokenRefusal;
use crate::take::variable_of;
use crate::{FormExpr, FormOperand};
use ops_text::{OutOfMemory, Sequence, Symbols};
use ops_tokens::{Keyword, Token};
use rule_base::Op;
use sqlite_items::{Boxed, Items};
use std::alloc::Global;

/// How many parentheses may stand in one another inside one `compute`.
const MOST_PARENTHESES: usize = 32;

fn operator_of(token: Token) -> Option<Op>
    ensures { result ≡ operator_of (seen token.entry) }
{
    match token {
        Token::Plain(_, Some(Keyword::Plus)) => Some(Op::Add),
        Token::Minus => Some(Op::Sub),
        Token::Plain(_, Some(Keyword::Star)) => Some(Op::Mul),
        Token::Slashes => Some(Op::Div),
        Token::Plain(_, Some(Keyword::Backslashes)) => Some(Op::Rem),
        _ => None,
    }
}

fn with_operand(
    alloc: Global,
    before: Before,
    operand: FormOperand,
) -> Result<FormExpr, OutOfMemory>
    ensures { IfOk result (λ expression. expression ≡ with_operand before operand) }
{
    match before {
        Before::Nothing => Ok(FormExpr {
            first: operand,
            rest: Items::new(alloc),
        }),
        Before::Operator(expression, op) => {
            let FormExpr { first, mut rest } = expression;
            rest.push((op, operand))?;
            Ok(FormExpr { first, rest })
        }
    }
}

fn operand_of(
    alloc: Global,
    symbols: &mut Symbols,
    token: Token,
) -> Result<FormOperand, TokenRefusal>
    requires { length symbols.old < 2 ^ 32 - 1 }
    ensures answer { Gives result symbols.new (operand_of symbols.old (seen token.entry)) }
    ensures grows { Grows symbols.old symbols.new }
{
    match token {
        Token::Integer(number) => Ok(FormOperand::Num(number)),
        _ => Ok(FormOperand::Name(variable_of(alloc, symbols, token)?)),
    }
}

/// A bracket takes no name.
fn parenthesis_opened(
    mut outer: Sequence<Before>,
    before: Before,
) -> Result<Step<ExprPart, FormExpr>, TokenRefusal>
    ensures { (names : Names) → Gives result names
        (parenthesis_opened (nat_lt (length outer) 32) names outer before) }
{
    if outer.len() < MOST_PARENTHESES {
        outer.push(before)?;
        Ok(Step::Part(ExprPart {
            outer,
            inner: Inner::Before(Before::Nothing),
        }))
    } else {
        Err(TokenRefusal::CannotStand)
    }
}

fn operand_after(
    alloc: Global,
    symbols: &mut Symbols,
    outer: Sequence<Before>,
    before: Before,
    token: Token,
) -> Result<Step<ExprPart, FormExpr>, TokenRefusal>
    requires { length symbols.old < 2 ^ 32 - 1 }
    ensures answer { Gives result symbols.new
        (operand_after symbols.old outer before (seen token.entry)) }
    ensures grows { Grows symbols.old symbols.new }
{
    match token {
        Token::Open => parenthesis_opened(outer, before),
        _ => {
            let operand = operand_of(alloc, symbols, token)?;
            let expression = with_operand(alloc, before, operand)?;
            Ok(Step::Part(ExprPart {
                outer,
                inner: Inner::Behind(expression),
            }))
        }
    }
}

fn in_parentheses(alloc: Global, expression: FormExpr) -> Result<FormOperand, OutOfMemory>
    ensures { IfOk result (λ operand. operand ≡ in_parentheses expression) }
{
    Ok(FormOperand::Paren(Boxed::new(alloc, expression)?))
}

fn closed(
    alloc: Global,
    mut outer: Sequence<Before>,
    expression: FormExpr,
) -> Result<Step<ExprPart, FormExpr>, OutOfMemory>
    ensures { IfOk result (λ step. step ≡ closed outer expression) }
{
    match outer.pop() {
        None => Ok(Step::Whole(expression)),
        Some(before) => {
            let operand = in_parentheses(alloc, expression)?;
            let expression = with_operand(alloc, before, operand)?;
            Ok(Step::Part(ExprPart {
                outer,
                inner: Inner::Behind(expression),
            }))
        }
    }
}

/// An operator and a bracket take no name.
fn operator_after(
    alloc: Global,
    outer: Sequence<Before>,
    expression: FormExpr,
    token: Token,
) -> Result<Step<ExprPart, FormExpr>, TokenRefusal>
    ensures { (names : Names) → Gives result names
        (operator_after names outer expression (seen token.entry)) }
{
    if let Token::Close = token {
        return Ok(closed(alloc, outer, expression)?);
    }
    match operator_of(token) {
        Some(op) => Ok(Step::Part(ExprPart {
            outer,
            inner: Inner::Before(Before::Operator(expression, op)),
        })),
        None => Err(TokenRefusal::CannotStand),
    }
}

pub(crate) fn expression_after(
    alloc: Global,
    symbols: &mut Symbols,
    part: ExprPart,
    token: Token,
) -> Result<Step<ExprPart, FormExpr>, TokenRefusal>
    requires { length symbols.old < 2 ^ 32 - 1 }
    ensures answer { Gives result symbols.new
        (expression_after symbols.old part (seen token.entry)) }
    ensures grows { Grows symbols.old symbols.new }
{
    let ExprPart { outer, inner } = part;
    match inner {
        Inner::Before(before) => operand_after(alloc, symbols, outer, before, token),
        Inner::Behind(expression) => operator_after(alloc, outer, expression, token),
    }
}
