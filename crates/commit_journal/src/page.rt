//! The layout of what rules write. A page knows the column at which it ends, so that each piece takes
//! time in proportion to what it adds.

ghost use Rattle.std.specs.Prelude.{◌≡◌, ◌+◌, ◌-◌, ◌^◌, ◌<◌, ◌==◌, if◌then◌else◌, ℕ, List, [], ◌∷◌, ◌++◌, false, None, OnOk, IfOk, slice_get, unwrap_or};
ghost use Rattle.rule_base.specs.declared.change.Piece.TheVariants.{Put};
ghost use Rattle.rule_base.specs.Layout.{spaces, space_before, line_before, after_piece, layout};
ghost use Rattle.commit_journal.specs.Page.{with_bytes, with_value_text, after_pieces};

use ops_text::{OutOfMemory, Symbols, put_int};
use rule_base::{Piece, Value};
use std::alloc::Global;
use std::marker::Model;

/// The text so far with its last column; glue, which keeps the next value from getting a space before
/// it; and the width that the next value is to fill.
#[derive(Drop)]
struct Page {
    bytes: Vec<u8>,
    column: usize,
    glue: bool,
    width: Option<u8>,
}

impl Model for Page {
    ghost use Rattle.std.specs.Prelude.{◌≡◌};
    ghost use Rattle.rule_base.specs.Layout.{Text, column as column_of};

    ghost Value = { Text };

    ghost view = { λ page. record { bytes = page.bytes.items; glue = page.glue; width = page.width } };

    ghost invariant = { λ page. page.column ≡ column_of page.bytes.items };
}

impl Page {
    fn new(alloc: Global) -> Page
        ensures { result ≡ record { bytes = []; glue = false; width = None } }
    {
        Page {
            bytes: Vec::new(alloc),
            column: 0,
            glue: false,
            width: None,
        }
    }

    fn into_bytes(self) -> Vec<u8>
        ensures { result.items ≡ self.bytes }
    {
        let Page { bytes, .. } = self;
        bytes
    }

    fn put_byte(&mut self, byte: u8) -> Result<(), OutOfMemory>
        ensures { OnOk result (self.new ≡ with_bytes self.old (byte ∷ [])) }
    {
        self.bytes.push(byte)?;
        self.column = column_after(self.column, byte);
        Ok(())
    }

    fn put_bytes(&mut self, bytes: &[u8]) -> Result<(), OutOfMemory>
        ensures { OnOk result (self.new ≡ with_bytes self.old bytes.now) }
    {
        for byte in bytes {
            self.put_byte(*byte)?;
        }
        Ok(())
    }

    fn put_spaces(&mut self, count: usize) -> Result<(), OutOfMemory>
        ensures { OnOk result (self.new ≡ with_bytes self.old (spaces count)) }
    {
        for _space in 0..count {
            self.put_byte(b' ')?;
        }
        Ok(())
    }

    fn put_space_before(&mut self, size: usize) -> Result<(), OutOfMemory>
        ensures { OnOk result (self.new ≡ with_bytes self.old (space_before self.old.width self.old size)) }
    {
        match self.width {
            Some(width) => self.put_spaces((width as usize).saturating_sub(size)),
            None if self.column == 0 || self.glue => Ok(()),
            None => self.put_byte(b' '),
        }
    }

    fn put_value_text(&mut self, text: &[u8]) -> Result<(), OutOfMemory>
        ensures { OnOk result (self.new ≡ with_value_text self.old text.now) }
    {
        self.put_space_before(text.len())?;
        self.put_bytes(text)?;
        self.glue = false;
        self.width = None;
        Ok(())
    }

    fn put_value(
        &mut self,
        alloc: Global,
        symbols: &Symbols,
        value: Value,
    ) -> Result<(), OutOfMemory>
        ensures { OnOk result (self.new ≡ after_piece symbols.now self.old (Put value)) }
    {
        match value {
            Value::Int(number) => {
                let mut digits = Vec::new(alloc);
                put_int(number, &mut digits)?;
                self.put_value_text(digits.as_slice())
            }
            Value::Sym(number) => self.put_value_text(symbol_text(symbols, number)),
        }
    }

    fn put_line_before(&mut self, column: u8) -> Result<(), OutOfMemory>
        ensures { OnOk result (self.new ≡ record self.old { bytes = line_before column self.old.bytes }) }
    {
        if column as usize <= self.column {
            self.put_byte(b'\n')
        } else {
            Ok(())
        }
    }

    fn put_piece(
        &mut self,
        alloc: Global,
        symbols: &Symbols,
        piece: Piece,
    ) -> Result<(), OutOfMemory>
        ensures { OnOk result (self.new ≡ after_piece symbols.now self.old piece) }
    {
        match piece {
            Piece::Put(value) => self.put_value(alloc, symbols, value),
            Piece::Crlf => {
                self.put_byte(b'\n')?;
                self.glue = true;
                self.width = None;
                Ok(())
            }
            Piece::Tabto(column) => {
                self.put_line_before(column)?;
                let count = (column as usize).saturating_sub(self.column);
                self.put_spaces(count)?;
                self.glue = true;
                self.width = None;
                Ok(())
            }
            Piece::Rjust(width) => {
                self.width = Some(width);
                Ok(())
            }
        }
    }
}

/// The column after one byte more.
fn column_after(column: usize, byte: u8) -> usize
    requires { column + 1 < 2 ^ 64 }
    ensures { result ≡ (if byte == 10 then 0 else column + 1) }
{
    if byte == b'\n' { 0 } else { column + 1 }
}

/// The bytes of a symbol.
fn symbol_text(symbols: &Symbols, number: u32) -> &[u8]
    ensures { result.now ≡ unwrap_or (slice_get symbols.now number) [] }
{
    if number < symbols.len() {
        symbols.bytes(number)
    } else {
        b"".as_slice()
    }
}

/// The text of pieces. A symbol that has no name is written as nothing. It takes time in proportion to
/// the text and the pieces.
pub fn lay_out(alloc: Global, pieces: &[Piece], symbols: &Symbols) -> Result<Vec<u8>, OutOfMemory>
    ensures { IfOk result (λ text. text.items ≡ layout symbols.now pieces.now) }
{
    let mut page = Page::new(alloc);
    for piece in pieces {
        page.put_piece(alloc, symbols, *piece)?;
    }
    Ok(page.into_bytes())
}
