//! The expressions of `compute`.

ghost use Rattle.std.specs.Prelude.{◌≡◌, IfOk};

use ops_text::{Duplicate, OutOfMemory};
use sqlite_items::{Boxed, Items};
use std::alloc::Global;

/// The operators `+`, `-`, `*`, `//` and `\\`. None binds tighter than another.
#[derive(Clone, Copy, Debug, PartialEq, Eq)]
pub enum Op {
    Add,
    Sub,
    Mul,
    Div,
    Rem,
}

/// A number, a variable of the rule, or an expression in parentheses.
#[cycle(expression)]
#[derive(Debug, Drop)]
pub enum Operand {
    Num(i64),
    Var(u32),
    Paren(Boxed<Expr>),
}

/// An operand, and any further ones behind their operators. It is evaluated from right to left.
#[cycle(expression)]
#[derive(Debug, Drop)]
pub struct Expr {
    pub first: Operand,
    pub rest: Items<(Op, Operand)>,
}

impl Expr {
    /// An expression equal to this one. It goes as deep as the parentheses do.
    pub fn copy(&self, alloc: Global) -> Result<Expr, OutOfMemory>
        ensures { IfOk result (λ copy. copy ≡ self.now) }
    {
        expression_copy(self, alloc)
    }
}

#[cycle(copies)]
fn operand_copy(operand: &Operand, alloc: Global) -> Result<Operand, OutOfMemory>
    ensures { IfOk result (λ copy. copy ≡ operand.now) }
{
    match operand {
        Operand::Num(number) => Ok(Operand::Num(*number)),
        Operand::Var(var) => Ok(Operand::Var(*var)),
        Operand::Paren(inner) => {
            let copy = expression_copy(inner.get(), alloc)?;
            Ok(Operand::Paren(Boxed::new(alloc, copy)?))
        }
    }
}

#[cycle(copies)]
fn expression_copy(expression: &Expr, alloc: Global) -> Result<Expr, OutOfMemory>
    ensures { IfOk result (λ copy. copy ≡ expression.now) }
{
    let first = operand_copy(&expression.first, alloc)?;
    let mut rest = Items::new(alloc);
    for (op, operand) in expression.rest.as_slice() {
        rest.push((*op, operand_copy(operand, alloc)?))?;
    }
    Ok(Expr { first, rest })
}

impl Duplicate for Expr {
    fn duplicate(&self, alloc: Global) -> Result<Expr, OutOfMemory> {
        self.copy(alloc)
    }
}
