//! Prints forms in their canonical text, which `specs/Canonical.antt` defines.

ghost use Rattle.std.specs.Prelude.{◌≡◌, ℕ, List, ◌++◌, codes, OnOk, IfOk};
ghost use Rattle.ops_text.specs.Names.{Names};
ghost use Rattle.form_printer.specs.CanonicalValues.{spaced};
ghost use Rattle.form_printer.specs.Canonical.{strategy_text, form_text, canonical_text};
ghost use Rattle.ops_reader.specs.Named.{AreNamed};

mod actions;
mod conditions;
mod expressions;
mod values;

use crate::print::values::print_number;
pub use crate::print::values::print_symbol;
use ops_reader::{Form, Forms};
use ops_text::{OutOfMemory, Symbols};
use std::alloc::Global;

/// What has a canonical text.
trait Print {
    /// Its text, where names have these numbers.
    ghost text: { Names → Self → List ℕ };

    /// Appends the text.
    fn print(&self, symbols: &Symbols, out: &mut Vec<u8>) -> Result<(), OutOfMemory>
        ensures { OnOk result (out.new.items ≡ out.old.items ++ text symbols.now self.now) };
}

/// The canonical text of forms: a line for each.
pub fn print_forms(alloc: Global, forms: &Forms, symbols: &Symbols) -> Result<Vec<u8>, OutOfMemory>
    requires { AreNamed symbols.now forms.now }
    ensures { IfOk result (λ text. text.items ≡ canonical_text symbols.now forms.now) }
{
    let mut text = Vec::new(alloc);
    for form in forms.as_slice() {
        form.print(symbols, &mut text)?;
        text.push(b'\n')?;
    }
    Ok(text)
}

impl Print for Form {
    ghost text = { form_text };

    fn print(&self, symbols: &Symbols, out: &mut Vec<u8>) -> Result<(), OutOfMemory> {
        match self {
            Form::Literalize { class, attrs } => {
                out.extend_from_slice(b"(literalize ")?;
                print_symbol(*class, symbols, out)?;
                print_last(attrs.as_slice(), symbols, out)
            }
            Form::P {
                name,
                conds,
                actions,
            } => {
                out.extend_from_slice(b"(p ")?;
                print_symbol(*name, symbols, out)?;
                print_spaced(conds.as_slice(), symbols, out)?;
                out.extend_from_slice(b" -->")?;
                print_last(actions.as_slice(), symbols, out)
            }
            Form::Make { class, sets } => {
                out.extend_from_slice(b"(make ")?;
                print_symbol(*class, symbols, out)?;
                print_last(sets.as_slice(), symbols, out)
            }
            Form::Strategy { mea } => {
                out.extend_from_slice(b"(strategy ")?;
                out.extend_from_slice(strategy_text(*mea))?;
                out.extend_from_slice(b")")
            }
            Form::Watch { level } => {
                out.extend_from_slice(b"(watch ")?;
                print_number(*level, out)?;
                out.extend_from_slice(b")")
            }
        }
    }
}

fn strategy_text(mea: bool) -> &'static [u8]
    ensures { result.now ≡ strategy_text mea }
{
    if mea { b"mea" } else { b"lex" }
}

/// Appends the texts of some things, each with a space before it.
fn print_spaced<T: Print>(
    things: &[T],
    symbols: &Symbols,
    out: &mut Vec<u8>,
) -> Result<(), OutOfMemory>
    ensures { OnOk result
        (out.new.items ≡ out.old.items ++ spaced (T.text symbols.now) things.now) }
{
    for thing in things {
        out.push(b' ')?;
        thing.print(symbols, out)?;
    }
    Ok(())
}

/// Appends the same, and the bracket behind them.
fn print_last<T: Print>(
    things: &[T],
    symbols: &Symbols,
    out: &mut Vec<u8>,
) -> Result<(), OutOfMemory>
    ensures { OnOk result
        (out.new.items ≡ out.old.items ++ spaced (T.text symbols.now) things.now ++ codes ")") }
{
    print_spaced(things, symbols, out)?;
    out.extend_from_slice(b")")
}
