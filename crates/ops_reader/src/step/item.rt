//! Items of a `write`.

ghost use Rattle.std.specs.Prelude.{◌-◌, ◌^◌, ◌<◌, length};
ghost use Rattle.ops_text.specs.Names.{Names};
ghost use Rattle.ops_tokens.specs.Token.{seen};
ghost use Rattle.ops_reader.specs.ItemReading.{item_begun, item_head, item_after};
ghost use Rattle.ops_reader.specs.Outcome.{Gives, Grows};

use super::expression::expression_after;
use super::term::{no_expression, value_of};
use crate::part::{ItemPart, Step};
use crate::refusal::TokenRefusal;
use crate::take::number_up_to;
use crate::{FormItem, FormTerm};
use ops_text::Symbols;
use ops_tokens::{Keyword, Token};
use std::alloc::Global;

/// The last column that a `tabto` reaches, and the greatest width of an `rjust`.
const LAST_COLUMN: u8 = 255;

fn item_begun(
    alloc: Global,
    symbols: &mut Symbols,
    token: Token,
) -> Result<Step<ItemPart, FormItem>, TokenRefusal>
    requires { length symbols.old < 2 ^ 32 - 1 }
    ensures answer { Gives result symbols.new (item_begun symbols.old (seen token.entry)) }
    ensures grows { Grows symbols.old symbols.new }
{
    match token {
        Token::Open => Ok(Step::Part(ItemPart::Head)),
        _ => Ok(Step::Whole(FormItem::Put(value_of(alloc, symbols, token)?))),
    }
}

/// The word takes no name.
fn item_head(alloc: Global, token: Token) -> Result<Step<ItemPart, FormItem>, TokenRefusal>
    ensures { (names : Names) → Gives result names (item_head names (seen token.entry)) }
{
    match token {
        Token::Plain(_, Some(Keyword::Compute)) => {
            Ok(Step::Part(ItemPart::Compute(no_expression(alloc))))
        }
        Token::Plain(_, Some(Keyword::Crlf)) => Ok(Step::Part(ItemPart::Closing(FormItem::Crlf))),
        Token::Plain(_, Some(Keyword::Tabto)) => Ok(Step::Part(ItemPart::Tabto)),
        Token::Plain(_, Some(Keyword::Rjust)) => Ok(Step::Part(ItemPart::Rjust)),
        _ => Err(TokenRefusal::CannotStand),
    }
}

pub(super) fn item_after(
    alloc: Global,
    symbols: &mut Symbols,
    part: ItemPart,
    token: Token,
) -> Result<Step<ItemPart, FormItem>, TokenRefusal>
    requires { length symbols.old < 2 ^ 32 - 1 }
    ensures answer { Gives result symbols.new (item_after symbols.old part (seen token.entry)) }
    ensures grows { Grows symbols.old symbols.new }
{
    match part {
        ItemPart::Nothing => item_begun(alloc, symbols, token),
        ItemPart::Head => item_head(alloc, token),
        ItemPart::Compute(part) => match expression_after(alloc, symbols, part, token)? {
            Step::Part(part) => Ok(Step::Part(ItemPart::Compute(part))),
            Step::Whole(expression) => {
                Ok(Step::Whole(FormItem::Put(FormTerm::Compute(expression))))
            }
        },
        ItemPart::Tabto => {
            let column = number_up_to(LAST_COLUMN, token)?;
            Ok(Step::Part(ItemPart::Closing(FormItem::Tabto(column))))
        }
        ItemPart::Rjust => {
            let width = number_up_to(LAST_COLUMN, token)?;
            Ok(Step::Part(ItemPart::Closing(FormItem::Rjust(width))))
        }
        ItemPart::Closing(item) => match token {
            Token::Close => Ok(Step::Whole(item)),
            _ => Err(TokenRefusal::CannotStand),
        },
    }
}
