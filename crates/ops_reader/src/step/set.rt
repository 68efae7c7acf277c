//! `^` and an attribute, before a value at the top level.

ghost use Rattle.std.specs.Prelude.{◌-◌, ◌^◌, ◌<◌, length};
ghost use Rattle.ops_tokens.specs.Token.{seen};
ghost use Rattle.ops_reader.specs.Taken.{set_after};
ghost use Rattle.ops_reader.specs.Outcome.{Gives, Grows};

use crate::part::SetPart;
use crate::refusal::TokenRefusal;
use crate::take::symbol_of;
use ops_text::Symbols;
use ops_tokens::Token;
use std::alloc::Global;

pub(crate) fn set_after(
    alloc: Global,
    symbols: &mut Symbols,
    set: SetPart,
    token: Token,
) -> Result<SetPart, TokenRefusal>
    requires { length symbols.old < 2 ^ 32 - 1 }
    ensures answer { Gives result symbols.new (set_after symbols.old set (seen token.entry)) }
    ensures grows { Grows symbols.old symbols.new }
{
    match (set, token) {
        (SetPart::Nothing, Token::Caret) => Ok(SetPart::Caret),
        (SetPart::Caret, _) => Ok(SetPart::Attr(symbol_of(alloc, symbols, token)?)),
        _ => Err(TokenRefusal::CannotStand),
    }
}
