//! The terms, settings and items of actions, evaluated on a row of bindings.

ghost use Rattle.std.specs.Prelude.{◌≡◌, Ok, Err, IfErr, OnOk, slice_set};
ghost use Rattle.rule_base.specs.Term.{after_sets, item_piece, item_pieces, term_value};
ghost use Rattle.rhs_actions.specs.Refusals.{Tells};
ghost use Rattle.rhs_actions.specs.Acting.{behind};

use crate::bindings::value_of;
use crate::expressions::computed;
use crate::refusal::Stop;
use element_tests::Binds;
use rule_base::{FaultCause, Item, Piece, Term, Value};

/// What a term gives.
pub fn term_value(binds: &Binds, term: &Term) -> Result<Value, FaultCause>
    ensures { result ≡ term_value binds.now term.now }
{
    match term {
        Term::Con(value) => Ok(*value),
        Term::Var(var) => Ok(value_of(binds, *var)),
        Term::Compute(expression) => Ok(Value::Int(computed(expression, binds)?)),
    }
}

/// Puts what settings give into the places of their attributes, in order.
pub fn set_all(binds: &Binds, sets: &[(u32, Term)], values: &mut [Value]) -> Result<(), FaultCause>
    ensures ok { OnOk result (after_sets binds.now sets.now values.old ≡ Ok values.new) }
    ensures failed { IfErr result
        (λ cause. after_sets binds.now sets.now values.old ≡ Err cause) }
{
    for (attr, term) in sets {
        set(values, *attr, term_value(binds, term)?);
    }
    Ok(())
}

/// Puts a value in the place of the attribute, where the class has one.
fn set(values: &mut [Value], attr: u32, value: Value)
    ensures { values.new ≡ slice_set values.old attr value }
{
    let at = attr as usize;
    if at < values.len() {
        values[at] = value;
    }
}

/// Adds the pieces of items, in order.
pub(crate) fn add_pieces(binds: &Binds, items: &[Item], pieces: &mut Vec<Piece>) -> Result<(), Stop>
    ensures ok { OnOk result
        (behind pieces.old.items (item_pieces binds.now items.now) ≡ Ok pieces.new.items) }
    ensures failed { IfErr result (Tells (item_pieces binds.now items.now)) }
{
    for item in items {
        pieces.push(item_piece(binds, item)?)?;
    }
    Ok(())
}

/// The piece of an item.
fn item_piece(binds: &Binds, item: &Item) -> Result<Piece, FaultCause>
    ensures { result ≡ item_piece binds.now item.now }
{
    match item {
        Item::Put(term) => Ok(Piece::Put(term_value(binds, term)?)),
        Item::Crlf => Ok(Piece::Crlf),
        Item::Tabto(column) => Ok(Piece::Tabto(*column)),
        Item::Rjust(width) => Ok(Piece::Rjust(*width)),
    }
}
