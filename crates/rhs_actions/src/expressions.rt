//! The expressions of `compute`, evaluated from right to left on a row of bindings.

ghost use Rattle.std.specs.Prelude.{◌≡◌};
ghost use Rattle.rule_base.specs.Compute.{computed, number_of, operand_value};
ghost use Rattle.rule_base.specs.Expression.{tree_of};
ghost use Rattle.rhs_actions.specs.Expressions.{leaf, number_in, with_right};

use crate::bindings::value_of;
use crate::operators::operated;
use element_tests::Binds;
use rule_base::{Expr, FaultCause, Op, Operand, Value};

/// What an expression gives, in a step for each of its operands. It goes as deep as the parentheses do.
#[cycle(values)]
pub fn computed(expression: &Expr, binds: &Binds) -> Result<i64, FaultCause>
    ensures { result ≡ computed (tree_of expression.now) binds.now }
{
    let rest = expression.rest.as_slice();
    let mut right = None;
    for at in (0..rest.len()).rev() {
        let (op, operand) = &rest[at];
        right = Some((*op, joined(operand, right, binds)?));
    }
    joined(&expression.first, right, binds)
}

/// What an operand gives with what stands to its right: an operator, and what all behind it gives. The
/// last operand has nothing there.
#[cycle(values)]
fn joined(operand: &Operand, right: Option<(Op, i64)>, binds: &Binds) -> Result<i64, FaultCause>
    ensures { result ≡ with_right right (operand_value (leaf operand.now) binds.now) }
{
    let left = operand_value(operand, binds)?;
    match right {
        Some((op, right)) => operated(op, left, right),
        None => number_of(left),
    }
}

/// The value that an operand has, which may be a symbol.
#[cycle(values)]
fn operand_value(operand: &Operand, binds: &Binds) -> Result<Value, FaultCause>
    ensures { operand_value (leaf operand.now) binds.now ≡ number_in result }
{
    match operand {
        Operand::Num(number) => Ok(Value::Int(*number)),
        Operand::Var(var) => Ok(value_of(binds, *var)),
        Operand::Paren(inner) => Ok(Value::Int(computed(inner.get(), binds)?)),
    }
}

/// The number that a value is.
fn number_of(value: Value) -> Result<i64, FaultCause>
    ensures { result ≡ number_of value }
{
    match value {
        Value::Int(number) => Ok(number),
        Value::Sym(_) => Err(FaultCause::NotANumber),
    }
}
