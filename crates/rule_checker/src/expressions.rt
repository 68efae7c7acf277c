//! The expressions of `compute`, whose variables must be bound.

ghost use Rattle.std.specs.Prelude.{◌≡◌, Ok, IfOk, IfErr};
ghost use Rattle.rule_checker.specs.Outcome.{Tells};
ghost use Rattle.rule_checker.specs.Expressions.{operand_of, expression_of};

use crate::refusal::Refusal;
use crate::scope::Scope;
use ops_reader::{FormExpr, FormOperand};
use rule_base::{Expr, Operand};
use sqlite_items::{Boxed, Items};
use std::alloc::Global;

#[cycle(expressions)]
fn operand_of(alloc: Global, scope: &Scope, operand: &FormOperand) -> Result<Operand, Refusal>
    ensures ok { IfOk result (λ made. operand_of operand.now scope.now ≡ Ok made) }
    ensures refused { IfErr result (Tells (operand_of operand.now scope.now)) }
{
    match operand {
        FormOperand::Num(number) => Ok(Operand::Num(*number)),
        FormOperand::Name(name) => Ok(Operand::Var(scope.bound_to_its_left(*name)?)),
        FormOperand::Paren(inner) => {
            let made = expression_of(alloc, scope, inner.get())?;
            Ok(Operand::Paren(Boxed::new(alloc, made)?))
        }
    }
}

/// The expression of a compute. It goes as deep as the parentheses do.
#[cycle(expressions)]
pub fn expression_of(alloc: Global, scope: &Scope, expression: &FormExpr) -> Result<Expr, Refusal>
    ensures ok { IfOk result (λ made. expression_of expression.now scope.now ≡ Ok made) }
    ensures refused { IfErr result (Tells (expression_of expression.now scope.now)) }
{
    let first = operand_of(alloc, scope, &expression.first)?;
    let mut rest = Items::new(alloc);
    for (op, operand) in expression.rest.as_slice() {
        rest.push((*op, operand_of(alloc, scope, operand)?))?;
    }
    Ok(Expr { first, rest })
}
