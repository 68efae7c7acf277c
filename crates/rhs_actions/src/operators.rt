//! The operators of `compute`, as a table of what each of them answers.

ghost use Rattle.std.specs.Prelude.{◌≡◌};
ghost use Rattle.std.specs.Option.{ok_or};
ghost use Rattle.rhs_actions.specs.Operators.{column_of, operated, settled_by};

use rule_base::{Cases, FaultCause, Op, Value};

/// A row for each operator, in the order of `Op`, and a column for each kind of operands: two integers
/// of no other kind, a divisor of zero, the least integer before -1, and a symbol before an integer. A
/// 0 says that the operator is applied; `settled` says what the other cells say.
const OPERATORS: [[u8; 4]; 5] = [
    [0, 0, 0, 3],
    [0, 0, 0, 3],
    [0, 0, 0, 3],
    [0, 1, 2, 3],
    [0, 1, 4, 3],
];

/// What the table says in this row of these two operands. Where it says that the operator is applied,
/// the left operand gets a name, and the last part says what the operator gives.
macro_rules! row {
    ($number:literal, $left:expr, $right:expr, $name:ident => $applied:expr) => {
        match (Cases::new(OPERATORS).at($number, column($left, $right)), $left) {
            (0, Value::Int($name)) => $applied,
            (cell, _) => settled(cell),
        }
    };
}

/// What the operator gives of its two operands, of which the right one is evaluated first and so is
/// known to be an integer.
pub fn operated(op: Op, left: Value, right: i64) -> Result<i64, FaultCause>
    ensures { result ≡ operated op left right }
{
    match op {
        Op::Add => row!(0, left, right, a => within(a.checked_add(right))),
        Op::Sub => row!(1, left, right, a => within(a.checked_sub(right))),
        Op::Mul => row!(2, left, right, a => within(a.checked_mul(right))),
        Op::Div => row!(3, left, right, a => within(a.checked_div(right))),
        Op::Rem => row!(4, left, right, a => Ok(a.wrapping_rem(right))),
    }
}

/// What was computed, where it has 64 bits.
fn within(computed: Option<i64>) -> Result<i64, FaultCause>
    ensures { result ≡ ok_or computed FaultCause.Overflow }
{
    computed.ok_or(FaultCause::Overflow)
}

/// What a cell says by itself.
fn settled(cell: u8) -> Result<i64, FaultCause>
    ensures { result ≡ settled_by cell }
{
    match cell {
        1 => Err(FaultCause::DivideByZero),
        2 => Err(FaultCause::Overflow),
        3 => Err(FaultCause::NotANumber),
        _ => Ok(0),
    }
}

/// The table's column for two operands.
fn column(left: Value, right: i64) -> usize
    ensures { result ≡ column_of left right }
{
    match left {
        Value::Sym(_) => 3,
        Value::Int(left) => {
            if right == 0 {
                1
            } else if left == i64::MIN && right == -1 {
                2
            } else {
                0
            }
        }
    }
}
