//! The texts of expressions. They go as deep as parentheses do.

ghost use Rattle.std.specs.Prelude.{◌≡◌, ◌++◌, codes, OnOk};
ghost use Rattle.ops_reader.specs.FormTree.{form_tree, operand_leaf};
ghost use Rattle.form_printer.specs.CanonicalActions.{operator_text, operand_text, expression_text};

use crate::print::values::print_variable;
use ops_reader::{FormExpr, FormOperand};
use ops_text::{OutOfMemory, Symbols, put_int};
use rule_base::Op;

fn operator_text(op: Op) -> &'static [u8]
    ensures { result.now ≡ operator_text op }
{
    match op {
        Op::Add => b"+",
        Op::Sub => b"-",
        Op::Mul => b"*",
        Op::Div => b"//",
        Op::Rem => b"\\\\",
    }
}

#[cycle(print_expressions)]
fn print_operand(
    operand: &FormOperand,
    symbols: &Symbols,
    out: &mut Vec<u8>,
) -> Result<(), OutOfMemory>
    ensures { OnOk result (out.new.items
        ≡ out.old.items ++ operand_text symbols.now (operand_leaf operand.now)) }
{
    match operand {
        FormOperand::Num(number) => put_int(*number, out),
        FormOperand::Name(number) => print_variable(*number, symbols, out),
        FormOperand::Paren(inner) => {
            out.push(b'(')?;
            print_expression(inner.get(), symbols, out)?;
            out.extend_from_slice(b")")
        }
    }
}

#[cycle(print_expressions)]
pub(super) fn print_expression(
    expression: &FormExpr,
    symbols: &Symbols,
    out: &mut Vec<u8>,
) -> Result<(), OutOfMemory>
    ensures { OnOk result (out.new.items
        ≡ out.old.items ++ expression_text symbols.now (form_tree expression.now)) }
{
    print_operand(&expression.first, symbols, out)?;
    for (op, operand) in expression.rest.as_slice() {
        print_operator(*op, out)?;
        print_operand(operand, symbols, out)?;
    }
    Ok(())
}

/// Appends an operator between two spaces.
fn print_operator(op: Op, out: &mut Vec<u8>) -> Result<(), OutOfMemory>
    ensures { OnOk result
        (out.new.items ≡ out.old.items ++ codes " " ++ operator_text op ++ codes " ") }
{
    out.push(b' ')?;
    out.extend_from_slice(operator_text(op))?;
    out.push(b' ')?;
    Ok(())
}
