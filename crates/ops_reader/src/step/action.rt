//! Actions.

ghost use Rattle.std.specs.Prelude.{◌-◌, ◌^◌, ◌<◌, length};
ghost use Rattle.ops_text.specs.Names.{Names};
ghost use Rattle.ops_tokens.specs.Token.{seen};
ghost use Rattle.ops_reader.specs.ActionReading.{designator_of, action_head, make_after, modify_after, removed, remove_after, bind_after, write_after, action_after};
ghost use Rattle.ops_reader.specs.Outcome.{Gives, Grows};

use super::item::item_after;
use super::term::{TermSets, term_after, term_sets_after};
use crate::part::{ActionPart, ItemPart, Step, TermPart, TermSetPart};
use crate::refusal::TokenRefusal;
use crate::take::{symbol_of, variable_of};
use crate::{At, FormAction, FormItem};
use ops_text::{Sequence, Symbols};
use ops_tokens::{Keyword, Token};
use std::alloc::Global;

pub(crate) fn action_after(
    alloc: Global,
    symbols: &mut Symbols,
    part: ActionPart,
    token: Token,
) -> Result<Step<ActionPart, FormAction>, TokenRefusal>
    requires { length symbols.old < 2 ^ 32 - 1 }
    ensures answer { Gives result symbols.new (action_after symbols.old part (seen token.entry)) }
    ensures grows { Grows symbols.old symbols.new }
{
    match part {
        ActionPart::Nothing => match token {
            Token::Open => Ok(Step::Part(ActionPart::Head)),
            _ => Err(TokenRefusal::CannotStand),
        },
        ActionPart::Head => action_head(alloc, token),
        ActionPart::Make => Ok(Step::Part(ActionPart::MakeSets {
            class: symbol_of(alloc, symbols, token)?,
            sets: Sequence::new(alloc),
            set: TermSetPart::Nothing,
        })),
        ActionPart::MakeSets { class, sets, set } => {
            make_after(alloc, symbols, class, sets, set, token)
        }
        ActionPart::Modify => Ok(Step::Part(ActionPart::ModifySets {
            at: designator_of(alloc, symbols, token)?,
            sets: Sequence::new(alloc),
            set: TermSetPart::Nothing,
        })),
        ActionPart::ModifySets { at, sets, set } => {
            modify_after(alloc, symbols, at, sets, set, token)
        }
        ActionPart::Remove { at } => remove_after(alloc, symbols, at, token),
        ActionPart::Bind => Ok(Step::Part(ActionPart::Bound {
            name: variable_of(alloc, symbols, token)?,
            term: TermPart::Nothing,
        })),
        ActionPart::Bound { name, term } => bind_after(alloc, symbols, name, term, token),
        ActionPart::Write { items, item } => write_after(alloc, symbols, items, item, token),
        ActionPart::Closing(action) => match token {
            Token::Close => Ok(Step::Whole(action)),
            _ => Err(TokenRefusal::CannotStand),
        },
    }
}

/// The head takes no name.
fn action_head(alloc: Global, token: Token) -> Result<Step<ActionPart, FormAction>, TokenRefusal>
    ensures { (names : Names) → Gives result names (action_head names (seen token.entry)) }
{
    match token {
        Token::Plain(_, Some(Keyword::Make)) => Ok(Step::Part(ActionPart::Make)),
        Token::Plain(_, Some(Keyword::Modify)) => Ok(Step::Part(ActionPart::Modify)),
        Token::Plain(_, Some(Keyword::Remove)) => Ok(Step::Part(ActionPart::Remove {
            at: Sequence::new(alloc),
        })),
        Token::Plain(_, Some(Keyword::Bind)) => Ok(Step::Part(ActionPart::Bind)),
        Token::Plain(_, Some(Keyword::Write)) => Ok(Step::Part(ActionPart::Write {
            items: Sequence::new(alloc),
            item: ItemPart::Nothing,
        })),
        Token::Plain(_, Some(Keyword::Halt)) => {
            Ok(Step::Part(ActionPart::Closing(FormAction::Halt)))
        }
        _ => Err(TokenRefusal::CannotStand),
    }
}

fn designator_of(alloc: Global, symbols: &mut Symbols, token: Token) -> Result<At, TokenRefusal>
    requires { length symbols.old < 2 ^ 32 - 1 }
    ensures answer { Gives result symbols.new (designator_of symbols.old (seen token.entry)) }
    ensures grows { Grows symbols.old symbols.new }
{
    match token {
        Token::Integer(number) => Ok(At::Number(number)),
        _ => Ok(At::Name(variable_of(alloc, symbols, token)?)),
    }
}

fn make_after(
    alloc: Global,
    symbols: &mut Symbols,
    class: u32,
    sets: TermSets,
    set: TermSetPart,
    token: Token,
) -> Result<Step<ActionPart, FormAction>, TokenRefusal>
    requires { length symbols.old < 2 ^ 32 - 1 }
    ensures answer { Gives result symbols.new
        (make_after symbols.old class (sets, set) (seen token.entry)) }
    ensures grows { Grows symbols.old symbols.new }
{
    match term_sets_after(alloc, symbols, sets, set, token)? {
        Step::Part((sets, set)) => Ok(Step::Part(ActionPart::MakeSets { class, sets, set })),
        Step::Whole(sets) => Ok(Step::Whole(FormAction::Make { class, sets })),
    }
}

fn modify_after(
    alloc: Global,
    symbols: &mut Symbols,
    at: At,
    sets: TermSets,
    set: TermSetPart,
    token: Token,
) -> Result<Step<ActionPart, FormAction>, TokenRefusal>
    requires { length symbols.old < 2 ^ 32 - 1 }
    ensures answer { Gives result symbols.new
        (modify_after symbols.old at (sets, set) (seen token.entry)) }
    ensures grows { Grows symbols.old symbols.new }
{
    match term_sets_after(alloc, symbols, sets, set, token)? {
        Step::Part((sets, set)) => Ok(Step::Part(ActionPart::ModifySets { at, sets, set })),
        Step::Whole(sets) => Ok(Step::Whole(FormAction::Modify { at, sets })),
    }
}

fn remove_after(
    alloc: Global,
    symbols: &mut Symbols,
    mut at: Sequence<At>,
    token: Token,
) -> Result<Step<ActionPart, FormAction>, TokenRefusal>
    requires { length symbols.old < 2 ^ 32 - 1 }
    ensures answer { Gives result symbols.new (remove_after symbols.old at (seen token.entry)) }
    ensures grows { Grows symbols.old symbols.new }
{
    match token {
        Token::Close => removed(at),
        _ => {
            at.push(designator_of(alloc, symbols, token)?)?;
            Ok(Step::Part(ActionPart::Remove { at }))
        }
    }
}

/// The end takes no name.
fn removed(at: Sequence<At>) -> Result<Step<ActionPart, FormAction>, TokenRefusal>
    ensures { (names : Names) → Gives result names (removed names at) }
{
    if at.is_empty() {
        return Err(TokenRefusal::CannotStand);
    }
    Ok(Step::Whole(FormAction::Remove { at }))
}

fn bind_after(
    alloc: Global,
    symbols: &mut Symbols,
    name: u32,
    term: TermPart,
    token: Token,
) -> Result<Step<ActionPart, FormAction>, TokenRefusal>
    requires { length symbols.old < 2 ^ 32 - 1 }
    ensures answer { Gives result symbols.new
        (bind_after symbols.old name term (seen token.entry)) }
    ensures grows { Grows symbols.old symbols.new }
{
    match term_after(alloc, symbols, term, token)? {
        Step::Part(term) => Ok(Step::Part(ActionPart::Bound { name, term })),
        Step::Whole(term) => Ok(Step::Part(ActionPart::Closing(FormAction::Bind { name, term }))),
    }
}

fn write_after(
    alloc: Global,
    symbols: &mut Symbols,
    mut items: Sequence<FormItem>,
    item: ItemPart,
    token: Token,
) -> Result<Step<ActionPart, FormAction>, TokenRefusal>
    requires { length symbols.old < 2 ^ 32 - 1 }
    ensures answer { Gives result symbols.new
        (write_after symbols.old items item (seen token.entry)) }
    ensures grows { Grows symbols.old symbols.new }
{
    if let (ItemPart::Nothing, Token::Close) = (&item, token) {
        return Ok(Step::Whole(FormAction::Write { items }));
    }
    match item_after(alloc, symbols, item, token)? {
        Step::Part(item) => Ok(Step::Part(ActionPart::Write { items, item })),
        Step::Whole(whole) => {
            items.push(whole)?;
            Ok(Step::Part(ActionPart::Write {
                items,
                item: ItemPart::Nothing,
            }))
        }
    }
}
