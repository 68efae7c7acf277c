//! The texts of symbols, numbers and variables.

ghost use Rattle.std.specs.Prelude.{◌≡◌, ◌++◌, OnOk, decimal};
ghost use Rattle.std.specs.List.{list_all};
ghost use Rattle.ops_tokens.specs.Byte.{is_letter};
ghost use Rattle.form_printer.specs.CanonicalValues.{name_at, is_bare, bare_or_barred, symbol_text, variable_text, constant_text, argument_text, setting_text};

use crate::print::Print;
use ops_reader::FormArg;
use ops_text::{OutOfMemory, Symbols, put_int};
use ops_tokens::{Token, is_letter, word_token};
use rule_base::Value;

/// The bytes of the name with this number, or none where no name has it.
fn name_at(number: u32, symbols: &Symbols) -> &[u8]
    ensures { result.now ≡ name_at symbols.now number }
{
    if number < symbols.len() {
        symbols.bytes(number)
    } else {
        b""
    }
}

fn is_word(name: &[u8]) -> bool
    ensures { result ≡ list_all is_letter name.now }
{
    name.iter().all(|byte| is_letter(*byte))
}

/// Whether the name reads back as a symbol without bars.
fn is_bare(name: &[u8]) -> bool
    ensures { result ≡ is_bare name.now }
{
    !name.is_empty() && is_word(name) && matches!(word_token(name), Token::Plain(_, _))
}

/// Appends the canonical text of the symbol with this number: bare where it reads back so, and else
/// between bars.
#[tactic(auto, unfolding(crate::specs::CanonicalValues::symbol_text))]
pub fn print_symbol(number: u32, symbols: &Symbols, out: &mut Vec<u8>) -> Result<(), OutOfMemory>
    ensures { OnOk result
        (out.new.items ≡ out.old.items ++ symbol_text symbols.now number) }
{
    print_name(name_at(number, symbols), out)
}

fn print_name(name: &[u8], out: &mut Vec<u8>) -> Result<(), OutOfMemory>
    ensures { OnOk result (out.new.items ≡ out.old.items ++ bare_or_barred name.now) }
{
    if is_bare(name) {
        return out.extend_from_slice(name);
    }
    out.push(b'|')?;
    out.extend_from_slice(name)?;
    out.push(b'|')?;
    Ok(())
}

pub(super) fn print_variable(
    number: u32,
    symbols: &Symbols,
    out: &mut Vec<u8>,
) -> Result<(), OutOfMemory>
    ensures { OnOk result
        (out.new.items ≡ out.old.items ++ variable_text symbols.now number) }
{
    out.push(b'<')?;
    out.extend_from_slice(name_at(number, symbols))?;
    out.push(b'>')?;
    Ok(())
}

pub(super) fn print_number(number: u8, out: &mut Vec<u8>) -> Result<(), OutOfMemory>
    ensures { OnOk result (out.new.items ≡ out.old.items ++ decimal number) }
{
    put_int(i64::from(number), out)
}

// A symbol by its number.
impl Print for u32 {
    ghost text = { symbol_text };

    fn print(&self, symbols: &Symbols, out: &mut Vec<u8>) -> Result<(), OutOfMemory> {
        print_symbol(*self, symbols, out)
    }
}

impl Print for Value {
    ghost text = { constant_text };

    fn print(&self, symbols: &Symbols, out: &mut Vec<u8>) -> Result<(), OutOfMemory> {
        match self {
            Value::Int(number) => put_int(*number, out),
            Value::Sym(number) => print_symbol(*number, symbols, out),
        }
    }
}

impl Print for FormArg {
    ghost text = { argument_text };

    fn print(&self, symbols: &Symbols, out: &mut Vec<u8>) -> Result<(), OutOfMemory> {
        match self {
            FormArg::Con(value) => value.print(symbols, out),
            FormArg::Name(number) => print_variable(*number, symbols, out),
        }
    }
}

// An attribute, and what it is set to or tested by.
impl<T: Print> Print for (u32, T) {
    ghost text = { λ names. setting_text names (T.text names) };

    #[tactic(auto, unfolding(crate::specs::CanonicalValues::setting_text))]
    fn print(&self, symbols: &Symbols, out: &mut Vec<u8>) -> Result<(), OutOfMemory> {
        out.push(b'^')?;
        print_symbol(self.0, symbols, out)?;
        out.push(b' ')?;
        self.1.print(symbols, out)
    }
}
