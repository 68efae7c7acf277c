//! The texts of actions.

ghost use Rattle.form_printer.specs.CanonicalActions.{term_text, designator_text, item_text, action_text};

use crate::print::expressions::print_expression;
use crate::print::values::{print_number, print_symbol, print_variable};
use crate::print::{Print, print_last};
use ops_reader::{At, FormAction, FormItem, FormTerm};
use ops_text::{OutOfMemory, Symbols, put_int};

impl Print for FormTerm {
    ghost text = { term_text };

    fn print(&self, symbols: &Symbols, out: &mut Vec<u8>) -> Result<(), OutOfMemory> {
        match self {
            FormTerm::Con(value) => value.print(symbols, out),
            FormTerm::Name(number) => print_variable(*number, symbols, out),
            FormTerm::Compute(expression) => {
                out.extend_from_slice(b"(compute ")?;
                print_expression(expression, symbols, out)?;
                out.extend_from_slice(b")")
            }
        }
    }
}

impl Print for At {
    ghost text = { designator_text };

    fn print(&self, symbols: &Symbols, out: &mut Vec<u8>) -> Result<(), OutOfMemory> {
        match self {
            At::Number(number) => put_int(*number, out),
            At::Name(number) => print_variable(*number, symbols, out),
        }
    }
}

impl Print for FormItem {
    ghost text = { item_text };

    fn print(&self, symbols: &Symbols, out: &mut Vec<u8>) -> Result<(), OutOfMemory> {
        match self {
            FormItem::Put(term) => term.print(symbols, out),
            FormItem::Crlf => out.extend_from_slice(b"(crlf)"),
            FormItem::Tabto(column) => {
                out.extend_from_slice(b"(tabto ")?;
                print_number(*column, out)?;
                out.extend_from_slice(b")")
            }
            FormItem::Rjust(width) => {
                out.extend_from_slice(b"(rjust ")?;
                print_number(*width, out)?;
                out.extend_from_slice(b")")
            }
        }
    }
}

impl Print for FormAction {
    ghost text = { action_text };

    fn print(&self, symbols: &Symbols, out: &mut Vec<u8>) -> Result<(), OutOfMemory> {
        match self {
            FormAction::Make { class, sets } => {
                out.extend_from_slice(b"(make ")?;
                print_symbol(*class, symbols, out)?;
                print_last(sets.as_slice(), symbols, out)
            }
            FormAction::Modify { at, sets } => {
                out.extend_from_slice(b"(modify ")?;
                at.print(symbols, out)?;
                print_last(sets.as_slice(), symbols, out)
            }
            FormAction::Remove { at } => {
                out.extend_from_slice(b"(remove")?;
                print_last(at.as_slice(), symbols, out)
            }
            FormAction::Bind { name, term } => {
                out.extend_from_slice(b"(bind ")?;
                print_variable(*name, symbols, out)?;
                out.push(b' ')?;
                term.print(symbols, out)?;
                out.extend_from_slice(b")")
            }
            FormAction::Write { items } => {
                out.extend_from_slice(b"(write")?;
                print_last(items.as_slice(), symbols, out)
            }
            FormAction::Halt => out.extend_from_slice(b"(halt)"),
        }
    }
}
