//! Tokens of a text.

use rule_base::Pred;

/// The words that the grammar knows.
#[derive(Clone, Copy)]
pub enum Keyword {
    Literalize,
    P,
    Make,
    Strategy,
    Lex,
    Mea,
    Watch,
    Modify,
    Remove,
    Bind,
    Write,
    Halt,
    Compute,
    Crlf,
    Tabto,
    Rjust,
    /// `+`
    Plus,
    /// `*`
    Star,
    /// Two backslashes.
    Backslashes,
}

/// What is wrong with a token by itself.
#[derive(Clone, Copy)]
pub enum LexicalFault {
    /// A bar without a closing bar.
    Unclosed,
    /// An integer outside 64 bits.
    BadNumeral,
    /// A symbol or a variable's name of more than 255 bytes.
    LongSymbol,
    /// A number with a fraction or an exponent.
    NotInProfile,
}

/// A token of a text.
#[derive(Clone, Copy)]
pub enum Token<'a> {
    Open,
    Close,
    OpenBrace,
    CloseBrace,
    Caret,
    /// `-->`
    Arrow,
    Minus,
    /// `//`
    Slashes,
    /// `<<`
    OpenList,
    /// `>>`
    CloseList,
    Predicate(Pred),
    /// The bytes between the angle brackets.
    Variable(&'a [u8]),
    Integer(i64),
    Plain(&'a [u8], Option<Keyword>),
    /// The bytes between the bars.
    Barred(&'a [u8]),
    Bad(LexicalFault),
}
