//! Forms.

ghost use Rattle.std.specs.Prelude.{◌≡◌, ◌+◌, ◌-◌, ◌^◌, ◌<◌, ◌≤◌, [], ◌∷◌, ◌++◌, Some, length, IfOk};
ghost use Rattle.ops_text.specs.Names.{Names};
ghost use Rattle.ops_tokens.specs.Token.{seen};
ghost use Rattle.ops_reader.specs.declared.part.Step.TheVariants.{Part};
ghost use Rattle.ops_reader.specs.declared.part.FormPart.TheVariants as of_form;
ghost use Rattle.ops_reader.specs.declared.part.CondPart.TheVariants as of_cond;
ghost use Rattle.ops_reader.specs.FormReading.{attrs_after, sets_after, arrow_after, conds_after, actions_after, form_head, strategy_after, watch_after, form_after};
ghost use Rattle.ops_reader.specs.Outcome.{Gives, Grows};

use super::action::action_after;
use super::cond::cond_after;
use super::set::set_after;
use crate::part::{ActionPart, CondPart, FormPart, SetPart, Step};
use crate::refusal::TokenRefusal;
use crate::take::{literal_of, number_up_to, symbol_of};
use crate::{Form, FormAction, FormCond};
use ops_text::{Sequence, Symbols};
use ops_tokens::{Keyword, Token};
use rule_base::Value;
use std::alloc::Global;

pub(crate) fn form_after(
    alloc: Global,
    symbols: &mut Symbols,
    part: FormPart,
    token: Token,
) -> Result<Step<FormPart, Form>, TokenRefusal>
    requires { length symbols.old < 2 ^ 32 - 1 }
    ensures answer { Gives result symbols.new (form_after symbols.old part (seen token.entry)) }
    ensures grows { Grows symbols.old symbols.new }
{
    match part {
        FormPart::Nothing => match token {
            Token::Open => Ok(Step::Part(FormPart::Head)),
            _ => Err(TokenRefusal::CannotStand),
        },
        FormPart::Head => form_head(token),
        FormPart::Literalize => Ok(Step::Part(FormPart::Attrs {
            class: symbol_of(alloc, symbols, token)?,
            attrs: Sequence::new(alloc),
        })),
        FormPart::Attrs { class, attrs } => attrs_after(alloc, symbols, class, attrs, token),
        FormPart::Make => Ok(Step::Part(FormPart::Sets {
            class: symbol_of(alloc, symbols, token)?,
            sets: Sequence::new(alloc),
            set: SetPart::Nothing,
        })),
        FormPart::Sets { class, sets, set } => {
            sets_after(alloc, symbols, class, sets, set, token)
        }
        FormPart::P => Ok(Step::Part(FormPart::Conds {
            name: symbol_of(alloc, symbols, token)?,
            conds: Sequence::new(alloc),
            cond: CondPart::Nothing,
        })),
        FormPart::Conds { name, conds, cond } => {
            conds_after(alloc, symbols, name, conds, cond, token)
        }
        FormPart::Actions {
            name,
            conds,
            actions,
            action,
        } => { actions_after(alloc, symbols, name, conds, actions, action, token) }
        FormPart::Strategy => strategy_after(token),
        FormPart::Watch => watch_after(token),
        FormPart::Closing { form } => match token {
            Token::Close => Ok(Step::Whole(form)),
            _ => Err(TokenRefusal::CannotStand),
        },
    }
}

/// The head takes no name.
fn form_head(token: Token) -> Result<Step<FormPart, Form>, TokenRefusal>
    ensures { (names : Names) → Gives result names (form_head names (seen token.entry)) }
{
    match token {
        Token::Plain(_, Some(Keyword::Literalize)) => Ok(Step::Part(FormPart::Literalize)),
        Token::Plain(_, Some(Keyword::Make)) => Ok(Step::Part(FormPart::Make)),
        Token::Plain(_, Some(Keyword::P)) => Ok(Step::Part(FormPart::P)),
        Token::Plain(_, Some(Keyword::Strategy)) => Ok(Step::Part(FormPart::Strategy)),
        Token::Plain(_, Some(Keyword::Watch)) => Ok(Step::Part(FormPart::Watch)),
        _ => Err(TokenRefusal::CannotStand),
    }
}

/// The word for a strategy takes no name.
fn strategy_after(token: Token) -> Result<Step<FormPart, Form>, TokenRefusal>
    ensures { (names : Names) → Gives result names (strategy_after names (seen token.entry)) }
{
    let mea = match token {
        Token::Plain(_, Some(Keyword::Lex)) => false,
        Token::Plain(_, Some(Keyword::Mea)) => true,
        _ => return Err(TokenRefusal::CannotStand),
    };
    Ok(Step::Part(FormPart::Closing {
        form: Form::Strategy { mea },
    }))
}

/// A level takes no name.
fn watch_after(token: Token) -> Result<Step<FormPart, Form>, TokenRefusal>
    ensures { (names : Names) → Gives result names (watch_after names (seen token.entry)) }
{
    let level = number_up_to(3, token)?;
    Ok(Step::Part(FormPart::Closing {
        form: Form::Watch { level },
    }))
}

fn attrs_after(
    alloc: Global,
    symbols: &mut Symbols,
    class: u32,
    mut attrs: Sequence<u32>,
    token: Token,
) -> Result<Step<FormPart, Form>, TokenRefusal>
    requires { length symbols.old < 2 ^ 32 - 1 }
    ensures answer { Gives result symbols.new
        (attrs_after symbols.old class attrs (seen token.entry)) }
    ensures grows { Grows symbols.old symbols.new }
{
    match token {
        Token::Close => Ok(Step::Whole(Form::Literalize { class, attrs })),
        _ => {
            attrs.push(symbol_of(alloc, symbols, token)?)?;
            Ok(Step::Part(FormPart::Attrs { class, attrs }))
        }
    }
}

fn sets_after(
    alloc: Global,
    symbols: &mut Symbols,
    class: u32,
    mut sets: Sequence<(u32, Value)>,
    set: SetPart,
    token: Token,
) -> Result<Step<FormPart, Form>, TokenRefusal>
    requires { length symbols.old < 2 ^ 32 - 1 }
    ensures answer { Gives result symbols.new
        (sets_after symbols.old class sets set (seen token.entry)) }
    ensures grows { Grows symbols.old symbols.new }
{
    match (set, token) {
        (SetPart::Attr(attr), _) => {
            sets.push((attr, literal_of(alloc, symbols, token)?))?;
            Ok(Step::Part(FormPart::Sets {
                class,
                sets,
                set: SetPart::Nothing,
            }))
        }
        (SetPart::Nothing, Token::Close) => Ok(Step::Whole(Form::Make { class, sets })),
        _ => {
            let set = set_after(alloc, symbols, set, token)?;
            Ok(Step::Part(FormPart::Sets { class, sets, set }))
        }
    }
}

fn conds_after(
    alloc: Global,
    symbols: &mut Symbols,
    name: u32,
    conds: Sequence<FormCond>,
    cond: CondPart,
    token: Token,
) -> Result<Step<FormPart, Form>, TokenRefusal>
    requires { length symbols.old < 2 ^ 32 - 1 }
    ensures answer { Gives result symbols.new
        (conds_after symbols.old name conds cond (seen token.entry)) }
    ensures grows { Grows symbols.old symbols.new }
{
    if let (CondPart::Nothing, Token::Arrow) = (&cond, token) {
        return arrow_after(alloc, name, conds);
    }
    match cond_after(alloc, symbols, cond, token)? {
        Step::Part(cond) => Ok(Step::Part(FormPart::Conds { name, conds, cond })),
        Step::Whole(whole) => cond_added(name, conds, whole),
    }
}

/// A condition element that is whole joins those before it, and takes no name.
fn cond_added(
    name: u32,
    mut conds: Sequence<FormCond>,
    whole: FormCond,
) -> Result<Step<FormPart, Form>, TokenRefusal>
    ensures { (names : Names) → Gives result names
        (Some (names, Part (of_form.Conds name (conds ++ whole ∷ []) of_cond.Nothing))) }
{
    conds.push(whole)?;
    Ok(Step::Part(FormPart::Conds {
        name,
        conds,
        cond: CondPart::Nothing,
    }))
}

/// The arrow takes no name.
fn arrow_after(
    alloc: Global,
    name: u32,
    conds: Sequence<FormCond>,
) -> Result<Step<FormPart, Form>, TokenRefusal>
    ensures { (names : Names) → Gives result names (arrow_after names name conds) }
{
    if conds.is_empty() {
        return Err(TokenRefusal::CannotStand);
    }
    Ok(Step::Part(FormPart::Actions {
        name,
        conds,
        actions: Sequence::new(alloc),
        action: ActionPart::Nothing,
    }))
}

fn actions_after(
    alloc: Global,
    symbols: &mut Symbols,
    name: u32,
    conds: Sequence<FormCond>,
    mut actions: Sequence<FormAction>,
    action: ActionPart,
    token: Token,
) -> Result<Step<FormPart, Form>, TokenRefusal>
    requires { length symbols.old < 2 ^ 32 - 1 }
    ensures answer { Gives result symbols.new
        (actions_after symbols.old name conds actions action (seen token.entry)) }
    ensures grows { Grows symbols.old symbols.new }
{
    if let (ActionPart::Nothing, Token::Close) = (&action, token) {
        return Ok(Step::Whole(Form::P {
            name,
            conds,
            actions,
        }));
    }
    match action_after(alloc, symbols, action, token)? {
        Step::Part(action) => Ok(Step::Part(FormPart::Actions {
            name,
            conds,
            actions,
            action,
        })),
        Step::Whole(whole) => {
            actions.push(whole)?;
            Ok(Step::Part(FormPart::Actions {
                name,
                conds,
                actions,
                action: ActionPart::Nothing,
            }))
        }
    }
}
