//! The predicates, as a table of what each of them answers.

ghost use Rattle.std.specs.Prelude.{◌≡◌};
ghost use Rattle.rule_base.specs.Predicate.{holds};
ghost use Rattle.element_tests.specs.PredicateTable.{column_of};

use rule_base::{Cases, Pred, Value};

/// A row for each predicate, in the order of `Pred`, and a column for each way in which two values
/// stand to each other: integers of which the first is less, equal or greater, symbols that are equal
/// or different, and an integer and a symbol.
const PREDICATES: [[u8; 6]; 7] = [
    [0, 1, 0, 1, 0, 0],
    [1, 0, 1, 0, 1, 1],
    [1, 0, 0, 0, 0, 0],
    [1, 1, 0, 0, 0, 0],
    [0, 0, 1, 0, 0, 0],
    [0, 1, 1, 0, 0, 0],
    [1, 1, 1, 1, 1, 0],
];

/// What the table says in this row of these two values.
macro_rules! row {
    ($number:literal, $value:expr, $other:expr) => {
        Cases::new(PREDICATES).at($number, column($value, $other)) == 1
    };
}

/// Whether the predicate holds of an attribute's value and the value beside it.
pub fn holds(pred: Pred, a: Value, b: Value) -> bool
    ensures { result ≡ holds pred a b }
{
    match pred {
        Pred::Eq => row!(0, a, b),
        Pred::Ne => row!(1, a, b),
        Pred::Lt => row!(2, a, b),
        Pred::Le => row!(3, a, b),
        Pred::Gt => row!(4, a, b),
        Pred::Ge => row!(5, a, b),
        Pred::Same => row!(6, a, b),
    }
}

/// The table's column for two values.
fn column(a: Value, b: Value) -> usize
    ensures { result ≡ column_of a b }
{
    match (a, b) {
        (Value::Int(a), Value::Int(b)) => {
            if a < b {
                0
            } else if a == b {
                1
            } else {
                2
            }
        }
        (Value::Sym(a), Value::Sym(b)) => { if a == b { 3 } else { 4 } }
        _ => 5,
    }
}
