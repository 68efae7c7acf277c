//! The texts of condition elements.

ghost use Rattle.std.specs.Prelude.{◌≡◌, ◌++◌, OnOk};
ghost use Rattle.form_printer.specs.CanonicalConditions.{simple_text, test_text, pattern_text, condition_text};

use crate::print::values::{print_symbol, print_variable};
use crate::print::{Print, print_last, print_spaced};
use ops_reader::{FormCond, Simple};
use ops_text::{OutOfMemory, Sequence, Symbols};
use ops_tokens::predicate_name;

impl Print for Simple {
    ghost text = { simple_text };

    fn print(&self, symbols: &Symbols, out: &mut Vec<u8>) -> Result<(), OutOfMemory> {
        match self {
            Simple::Plain(argument) => argument.print(symbols, out),
            Simple::Cmp(pred, argument) => {
                out.extend_from_slice(predicate_name(*pred))?;
                out.push(b' ')?;
                argument.print(symbols, out)
            }
            Simple::OneOf(values) => {
                out.extend_from_slice(b"<<")?;
                print_spaced(values.as_slice(), symbols, out)?;
                out.extend_from_slice(b" >>")
            }
        }
    }
}

// The tests of an attribute.
impl Print for Sequence<Simple> {
    ghost text = { test_text };

    fn print(&self, symbols: &Symbols, out: &mut Vec<u8>) -> Result<(), OutOfMemory> {
        match self.as_slice() {
            [one] => one.print(symbols, out),
            tests => {
                out.push(b'{')?;
                print_spaced(tests, symbols, out)?;
                out.extend_from_slice(b" }")
            }
        }
    }
}

/// Appends the text of the class and the tests.
fn print_pattern(cond: &FormCond, symbols: &Symbols, out: &mut Vec<u8>) -> Result<(), OutOfMemory>
    ensures { OnOk result
        (out.new.items ≡ out.old.items ++ pattern_text symbols.now cond.now) }
{
    out.push(b'(')?;
    print_symbol(cond.class, symbols, out)?;
    print_last(cond.tests.as_slice(), symbols, out)
}

impl Print for FormCond {
    ghost text = { condition_text };

    fn print(&self, symbols: &Symbols, out: &mut Vec<u8>) -> Result<(), OutOfMemory> {
        if self.negated {
            out.push(b'-')?;
            return print_pattern(self, symbols, out);
        }
        match self.named {
            None => print_pattern(self, symbols, out),
            Some(name) => {
                out.extend_from_slice(b"{ ")?;
                print_variable(name, symbols, out)?;
                out.push(b' ')?;
                print_pattern(self, symbols, out)?;
                out.extend_from_slice(b" }")
            }
        }
    }
}
