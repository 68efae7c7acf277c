//! Cuts a text into tokens, from its first byte to its last, without taking memory.

ghost use Rattle.std.specs.Prelude.{◌≡◌, [], ◌∷◌, ◌+◌, ◌<◌, ◌≤◌, length, IfSome, IfNone};
ghost use Rattle.std.specs.List.{prefix_len};
ghost use Rattle.ops_tokens.specs.Byte.{is_letter, stands_in_bars, stands_in_line};
ghost use Rattle.ops_tokens.specs.Token.{seen};
ghost use Rattle.ops_tokens.specs.Tokens.{Bars, Comment, tokens, tokens_of, barred_token};
ghost use Rattle.ops_tokens.specs.Places.{lefts, lefts_of};

use crate::byte::{ByteKind, kind_of};
use crate::token::{LexicalFault, Token};
use crate::word::{barred_token, word_token};

/// A token of a text, how much of the text is left from its first byte on, and the text behind it.
#[derive(Clone, Copy)]
pub struct Found<'a> {
    pub token: Token<'a>,
    /// 0 for a bar without a second one, which is wrong at the end of the text.
    pub left: usize,
    pub behind: &'a [u8],
}

/// The first token of the text.
pub fn next_token(text: &[u8]) -> Option<Found<'_>>
    ensures next { IfSome result
        (λ f. tokens_of text.now ≡ seen f.token ∷ tokens_of f.behind.now) }
    ensures place { IfSome result (λ f. lefts_of text.now ≡ f.left ∷ lefts_of f.behind.now) }
    ensures end { IfNone result (tokens_of text.now ≡ []) }

    // It takes at least one byte, and its first byte stands in the text.
    ensures shorter { IfSome result (λ f. length f.behind.now < length text.now) }
    ensures within { IfSome result (λ f. f.left ≤ length text.now) }
{
    let mut rest = text;
    while let Some((first, behind)) = rest.split_first() {
        match kind_of(*first) {
            ByteKind::Blank | ByteKind::LineFeed => rest = behind,
            ByteKind::Semicolon => rest = behind_comment(behind),
            ByteKind::Open => return Some(mark(Token::Open, rest, behind)),
            ByteKind::Close => return Some(mark(Token::Close, rest, behind)),
            ByteKind::OpenBrace => return Some(mark(Token::OpenBrace, rest, behind)),
            ByteKind::CloseBrace => return Some(mark(Token::CloseBrace, rest, behind)),
            ByteKind::Caret => return Some(mark(Token::Caret, rest, behind)),
            ByteKind::Bar => return Some(barred(rest, behind)),
            ByteKind::Letter => return Some(word(rest)),
        }
    }
    None
}

/// A token of one byte, with which the text begins.
fn mark<'a>(token: Token<'a>, text: &[u8], behind: &'a [u8]) -> Found<'a>
    ensures token { seen result.token ≡ seen token.entry }
    ensures left { result.left ≡ length text.now }
    ensures behind { result.behind.now ≡ behind.now }
{
    Found {
        token,
        left: text.len(),
        behind,
    }
}

/// The text behind the comment that it begins within.
fn behind_comment(text: &[u8]) -> &[u8]
    ensures same { tokens_of result.now ≡ tokens Comment text.now }
    ensures places { lefts_of result.now ≡ lefts Comment text.now }
    ensures within { length result.now ≤ length text.now }
{
    let (_, rest) = text.split_at(line_len(text));
    rest
}

/// The barred symbol whose content begins behind the first bar of the text.
fn barred<'a>(text: &[u8], behind_bar: &'a [u8]) -> Found<'a>
    requires { length text.now ≡ 1 + length behind_bar.now }
    ensures next { tokens (Bars []) behind_bar.now ≡ seen result.token ∷ tokens_of result.behind.now }
    ensures place { lefts (Bars []) behind_bar.now ≡ result.left ∷ lefts_of result.behind.now }
    ensures within { length result.behind.now ≤ length behind_bar.now }
    ensures begins { result.left ≤ length text.now }
{
    let (content, rest) = behind_bar.split_at(bars_len(behind_bar));
    match rest.split_first() {
        Some((_, behind)) => Found {
            token: barred_token(content),
            left: text.len(),
            behind,
        },
        None => Found {
            token: Token::Bad(LexicalFault::Unclosed),
            left: 0,
            behind: rest,
        },
    }
}

/// The word that the text begins with.
fn word(text: &[u8]) -> Found<'_>
    requires { 0 < prefix_len is_letter text.now }
    ensures next { tokens_of text.now ≡ seen result.token ∷ tokens_of result.behind.now }
    ensures place { lefts_of text.now ≡ result.left ∷ lefts_of result.behind.now }
    ensures shorter { length result.behind.now < length text.now }
    ensures begins { result.left ≡ length text.now }
{
    let (word, behind) = text.split_at(word_len(text));
    Found {
        token: word_token(word),
        left: text.len(),
        behind,
    }
}

/// How many letters the text begins with.
fn word_len(text: &[u8]) -> usize
    ensures len { result ≡ prefix_len is_letter text.now }
    ensures within { result ≤ length text.now }
{
    text.iter().take_while(|b| is_letter(**b)).count()
}

pub fn is_letter(byte: u8) -> bool
    ensures { result ≡ is_letter byte }
{
    matches!(kind_of(byte), ByteKind::Letter)
}

/// How many bytes come before the next bar.
fn bars_len(text: &[u8]) -> usize
    ensures len { result ≡ prefix_len stands_in_bars text.now }
    ensures within { result ≤ length text.now }
{
    text.iter().take_while(|b| **b != b'|').count()
}

/// How many bytes the line still has.
fn line_len(text: &[u8]) -> usize
    ensures len { result ≡ prefix_len stands_in_line text.now }
    ensures within { result ≤ length text.now }
{
    text.iter().take_while(|b| **b != b'\n').count()
}
