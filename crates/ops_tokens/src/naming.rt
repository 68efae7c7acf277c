//! The names that tokens stand for.

ghost use Rattle.std.specs.Prelude.{◌≡◌, IfSome, IfNone, Some, None};
ghost use Rattle.ops_tokens.specs.Token.{seen};
ghost use Rattle.ops_tokens.specs.Naming.{symbol_name, constant_name, literal_name, predicate_name, variable_name};

use crate::token::Token;
use rule_base::Pred;

/// The name of a token where a symbol may stand.
pub fn symbol_name(token: Token<'_>) -> Option<&[u8]>
    ensures some { IfSome result (λ name. symbol_name (seen token.entry) ≡ Some name.now) }
    ensures none { IfNone result (symbol_name (seen token.entry) ≡ None) }
{
    match token {
        Token::Plain(word, _) => Some(word),
        Token::Barred(content) => Some(content),
        _ => None,
    }
}

/// The name of a token where a constant may stand.
pub fn constant_name(token: Token<'_>) -> Option<&[u8]>
    ensures some { IfSome result (λ name. constant_name (seen token.entry) ≡ Some name.now) }
    ensures none { IfNone result (constant_name (seen token.entry) ≡ None) }
{
    match token {
        Token::Minus => Some(b"-"),
        _ => symbol_name(token),
    }
}

/// The word that a predicate is.
pub fn predicate_name(pred: Pred) -> &'static [u8]
    ensures { result.now ≡ predicate_name pred }
{
    match pred {
        Pred::Eq => b"=",
        Pred::Ne => b"<>",
        Pred::Lt => b"<",
        Pred::Le => b"<=",
        Pred::Gt => b">",
        Pred::Ge => b">=",
        Pred::Same => b"<=>",
    }
}

/// The name of a token where a literal may stand.
pub fn literal_name(token: Token<'_>) -> Option<&[u8]>
    ensures some { IfSome result (λ name. literal_name (seen token.entry) ≡ Some name.now) }
    ensures none { IfNone result (literal_name (seen token.entry) ≡ None) }
{
    match token {
        Token::Arrow => Some(b"-->"),
        Token::OpenList => Some(b"<<"),
        Token::CloseList => Some(b">>"),
        Token::Predicate(pred) => Some(predicate_name(pred)),
        _ => constant_name(token),
    }
}

/// The name of a token where a variable may stand.
pub fn variable_name(token: Token<'_>) -> Option<&[u8]>
    ensures some { IfSome result (λ name. variable_name (seen token.entry) ≡ Some name.now) }
    ensures none { IfNone result (variable_name (seen token.entry) ≡ None) }
{
    match token {
        Token::Variable(name) => Some(name),
        _ => None,
    }
}
