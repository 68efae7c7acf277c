//! Which token a word is.

ghost use Rattle.std.specs.Prelude.{◌≡◌, ◌+◌, ◌-◌, ◌≤◌, ◌<◌, length, count_by, ◌==◌, true};
ghost use Rattle.std.specs.Str.{byte};
ghost use Rattle.std.specs.Char.{is_ascii_digit};
ghost use Rattle.std.specs.List.{list_any, list_all, position_or_len};
ghost use Rattle.std.specs.Option.{option_map};
ghost use Rattle.std.specs.Str.Parse.{without_leading_sign};
ghost use Rattle.ops_text.specs.Numeral.{integer_of};
ghost use Rattle.ops_tokens.specs.Token.{Plain, Variable, seen};
ghost use Rattle.ops_tokens.specs.Tokens.{barred_token};
ghost use Rattle.ops_tokens.specs.Word.{predicate_of, sign_of, inner, is_angle, is_variable, is_digits, is_integer, is_digit_or_point, is_pointed, is_exponent_mark, is_mantissa, is_scientific, is_float, form_keyword, action_keyword, item_keyword, operator_keyword, keyword_of, is_short, within_limit, integer_token, long_word, word_token};

use crate::token::{Keyword, LexicalFault, Token};
use ops_text::read_int;
use rule_base::Pred;

/// The most bytes of a symbol or of a variable's name.
const NAME_LIMIT: usize = 255;

fn predicate_of(word: &[u8]) -> Option<Pred>
    ensures { result ≡ predicate_of word.now }
{
    match word {
        b"=" => Some(Pred::Eq),
        b"<>" => Some(Pred::Ne),
        b"<" => Some(Pred::Lt),
        b"<=" => Some(Pred::Le),
        b">" => Some(Pred::Gt),
        b">=" => Some(Pred::Ge),
        b"<=>" => Some(Pred::Same),
        _ => None,
    }
}

fn sign_of(word: &[u8]) -> Option<Token<'static>>
    ensures { option_map seen result ≡ sign_of word.now }
{
    match word {
        b"-->" => Some(Token::Arrow),
        b"-" => Some(Token::Minus),
        b"//" => Some(Token::Slashes),
        b"<<" => Some(Token::OpenList),
        b">>" => Some(Token::CloseList),
        _ => None,
    }
}

// A `match` of words so long isn't proved today, and a longer chain takes long to prove.
fn form_keyword(word: &[u8]) -> Option<Keyword>
    ensures { result ≡ form_keyword word.now }
{
    if word == b"literalize".as_slice() {
        Some(Keyword::Literalize)
    } else if word == b"p".as_slice() {
        Some(Keyword::P)
    } else if word == b"make".as_slice() {
        Some(Keyword::Make)
    } else if word == b"strategy".as_slice() {
        Some(Keyword::Strategy)
    } else if word == b"lex".as_slice() {
        Some(Keyword::Lex)
    } else if word == b"mea".as_slice() {
        Some(Keyword::Mea)
    } else if word == b"watch".as_slice() {
        Some(Keyword::Watch)
    } else {
        None
    }
}

fn action_keyword(word: &[u8]) -> Option<Keyword>
    ensures { result ≡ action_keyword word.now }
{
    if word == b"modify".as_slice() {
        Some(Keyword::Modify)
    } else if word == b"remove".as_slice() {
        Some(Keyword::Remove)
    } else if word == b"bind".as_slice() {
        Some(Keyword::Bind)
    } else if word == b"write".as_slice() {
        Some(Keyword::Write)
    } else if word == b"halt".as_slice() {
        Some(Keyword::Halt)
    } else {
        None
    }
}

fn item_keyword(word: &[u8]) -> Option<Keyword>
    ensures { result ≡ item_keyword word.now }
{
    if word == b"compute".as_slice() {
        Some(Keyword::Compute)
    } else if word == b"crlf".as_slice() {
        Some(Keyword::Crlf)
    } else if word == b"tabto".as_slice() {
        Some(Keyword::Tabto)
    } else if word == b"rjust".as_slice() {
        Some(Keyword::Rjust)
    } else {
        None
    }
}

fn operator_keyword(word: &[u8]) -> Option<Keyword>
    ensures { result ≡ operator_keyword word.now }
{
    match word {
        b"+" => Some(Keyword::Plus),
        b"*" => Some(Keyword::Star),
        b"\\\\" => Some(Keyword::Backslashes),
        _ => None,
    }
}

fn keyword_of(word: &[u8]) -> Option<Keyword>
    ensures { result ≡ keyword_of word.now }
{
    form_keyword(word)
        .or(action_keyword(word))
        .or(item_keyword(word))
        .or(operator_keyword(word))
}

/// The word without its first and its last byte.
fn inner(word: &[u8]) -> &[u8]
    requires { 2 ≤ length word.now }
    ensures { result.now ≡ inner word.now }
{
    &word[1..word.len() - 1]
}

fn is_variable(word: &[u8]) -> bool
    ensures { result ≡ is_variable word.now }
{
    word.len() >= 3 && word[0] == b'<' && word[word.len() - 1] == b'>' && !has_angle(inner(word))
}

fn has_angle(bytes: &[u8]) -> bool
    ensures { result ≡ list_any is_angle bytes.now }
{
    bytes.iter().any(|b| *b == b'<' || *b == b'>')
}

fn is_digits(word: &[u8]) -> bool
    ensures { result ≡ is_digits word.now }
{
    !word.is_empty() && has_digits_only(word)
}

fn has_digits_only(word: &[u8]) -> bool
    ensures { result ≡ list_all is_ascii_digit word.now }
{
    word.iter().all(|b| b.is_ascii_digit())
}

/// The word without its sign, if it has one.
fn without_sign(word: &[u8]) -> &[u8]
    ensures { result.now ≡ without_leading_sign word.now }
{
    match word.first() {
        Some(b'-') | Some(b'+') => &word[1..],
        _ => word,
    }
}

fn is_integer(word: &[u8]) -> bool
    ensures { result ≡ is_integer word.now }
{
    is_digits(without_sign(word))
}

fn is_pointed(word: &[u8]) -> bool
    ensures { result ≡ is_pointed word.now }
{
    word.len() > 1 && points(word) == 1 && has_digits_and_points_only(word)
}

fn has_digits_and_points_only(word: &[u8]) -> bool
    ensures { result ≡ list_all is_digit_or_point word.now }
{
    word.iter().all(|b| b.is_ascii_digit() || *b == b'.')
}

/// How many points the word has.
fn points(word: &[u8]) -> usize
    ensures { result ≡ count_by (λ b. b == byte ".") word.now }
{
    word.iter().filter(|b| **b == b'.').count()
}

fn is_mantissa(number: &[u8]) -> bool
    ensures { result ≡ is_mantissa number.now }
{
    is_digits(number) || is_pointed(number)
}

/// How many bytes come before the first exponent mark.
fn mantissa_len(number: &[u8]) -> usize
    ensures { result ≡ position_or_len is_exponent_mark number.now }
{
    number
        .iter()
        .take_while(|b| **b != b'e' && **b != b'E')
        .count()
}

fn is_scientific(number: &[u8]) -> bool
    ensures { result ≡ is_scientific number.now }
{
    let mark = mantissa_len(number);
    mark < number.len() && is_mantissa(&number[..mark]) && is_integer(&number[mark + 1..])
}

fn is_float(word: &[u8]) -> bool
    ensures { result ≡ is_float word.now }
{
    let number = without_sign(word);
    is_pointed(number) || is_scientific(number)
}

/// The token that a word is.
pub fn word_token(word: &[u8]) -> Token<'_>
    ensures { seen result ≡ word_token word.now }
{
    match sign_of(word) {
        Some(sign) => sign,
        None => match predicate_of(word) {
            Some(predicate) => Token::Predicate(predicate),
            None => long_word(word),
        },
    }
}

fn long_word(word: &[u8]) -> Token<'_>
    ensures { seen result ≡ long_word word.now }
{
    if is_variable(word) {
        variable_token(inner(word))
    } else if is_integer(word) {
        integer_token(word)
    } else if is_float(word) {
        Token::Bad(LexicalFault::NotInProfile)
    } else {
        plain_token(word)
    }
}

fn integer_token(word: &[u8]) -> Token<'_>
    requires { is_integer word.now ≡ true }
    ensures { seen result ≡ integer_token (integer_of word.now) }
{
    match read_int(word) {
        Some(number) => Token::Integer(number),
        None => Token::Bad(LexicalFault::BadNumeral),
    }
}

fn is_short(name: &[u8]) -> bool
    ensures { result ≡ is_short name.now }
{
    name.len() <= NAME_LIMIT
}

fn variable_token(name: &[u8]) -> Token<'_>
    ensures { seen result ≡ within_limit name.now (Variable name.now) }
{
    if is_short(name) {
        Token::Variable(name)
    } else {
        Token::Bad(LexicalFault::LongSymbol)
    }
}

fn plain_token(word: &[u8]) -> Token<'_>
    ensures { seen result ≡ within_limit word.now (Plain word.now (keyword_of word.now)) }
{
    if is_short(word) {
        Token::Plain(word, keyword_of(word))
    } else {
        Token::Bad(LexicalFault::LongSymbol)
    }
}

/// The token of a barred symbol with this content.
pub(crate) fn barred_token(content: &[u8]) -> Token<'_>
    ensures { seen result ≡ barred_token content.now }
{
    if is_short(content) {
        Token::Barred(content)
    } else {
        Token::Bad(LexicalFault::LongSymbol)
    }
}
