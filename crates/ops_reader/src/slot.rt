//! What may stand behind what has been read, as far as the kind of a refusal asks. It knows no tokens.

ghost use Rattle.std.specs.Prelude.{◌≡◌};
ghost use Rattle.ops_reader.specs.Slot.{expression_slot, term_slot, value_slot, item_slot, set_slot, action_slot, test_slot, pattern_slot, condition_slot, form_slot};

use crate::part::{
    ActionPart, CondPart, ExprPart, FormPart, Inner, ItemPart, PatternPart, SetPart, TermPart,
    TermSetPart, TestPart,
};

/// What may stand next.
#[derive(Clone, Copy)]
pub(crate) enum Slot {
    /// A word of the grammar behind a bracket: a form, an action, a value or an item begins there.
    Head,
    /// A constant, and perhaps more.
    Constant,
    /// The value of a `bind`.
    BindValue,
    /// An operand of an expression.
    Operand,
    /// An integer within a range.
    Number,
    /// Something else.
    Other,
}

pub(crate) fn form_slot(part: &FormPart) -> Slot
    ensures { result ≡ form_slot part.now }
{
    match part {
        FormPart::Head => Slot::Head,
        FormPart::Sets {
            class: _,
            sets: _,
            set: SetPart::Attr(_),
        } => Slot::Constant,
        FormPart::Conds {
            name: _,
            conds: _,
            cond,
        } => condition_slot(cond),
        FormPart::Actions {
            name: _,
            conds: _,
            actions: _,
            action,
        } => action_slot(action),
        FormPart::Watch => Slot::Number,
        _ => Slot::Other,
    }
}

fn condition_slot(part: &CondPart) -> Slot
    ensures { result ≡ condition_slot part.now }
{
    match part {
        CondPart::Plain(pattern)
        | CondPart::Negated(pattern)
        | CondPart::Named { name: _, pattern }
        | CondPart::Unnamed(pattern) => pattern_slot(pattern),
        _ => Slot::Other,
    }
}

fn pattern_slot(part: &PatternPart) -> Slot
    ensures { result ≡ pattern_slot part.now }
{
    match part {
        PatternPart::Tests {
            class: _,
            tests: _,
            test,
        } => test_slot(test),
        _ => Slot::Other,
    }
}

/// In each part of a test a constant may stand.
fn test_slot(part: &TestPart) -> Slot
    ensures { result ≡ test_slot part.now }
{
    match part {
        TestPart::Nothing | TestPart::Caret => Slot::Other,
        _ => Slot::Constant,
    }
}

fn action_slot(part: &ActionPart) -> Slot
    ensures { result ≡ action_slot part.now }
{
    match part {
        ActionPart::Head => Slot::Head,
        ActionPart::MakeSets {
            class: _,
            sets: _,
            set,
        } => set_slot(set),
        ActionPart::ModifySets {
            at: _,
            sets: _,
            set,
        } => set_slot(set),
        ActionPart::Bound { name: _, term } => value_slot(term),
        ActionPart::Write { items: _, item } => item_slot(item),
        _ => Slot::Other,
    }
}

fn set_slot(part: &TermSetPart) -> Slot
    ensures { result ≡ set_slot part.now }
{
    match part {
        TermSetPart::Attr { attr: _, term } => term_slot(term),
        _ => Slot::Other,
    }
}

/// In a `bind`.
fn value_slot(part: &TermPart) -> Slot
    ensures { result ≡ value_slot part.now }
{
    match part {
        TermPart::Nothing => Slot::BindValue,
        _ => term_slot(part),
    }
}

fn term_slot(part: &TermPart) -> Slot
    ensures { result ≡ term_slot part.now }
{
    match part {
        TermPart::Nothing => Slot::Constant,
        TermPart::Head => Slot::Head,
        TermPart::Compute(expression) => expression_slot(expression),
    }
}

fn item_slot(part: &ItemPart) -> Slot
    ensures { result ≡ item_slot part.now }
{
    match part {
        ItemPart::Nothing => Slot::Constant,
        ItemPart::Head => Slot::Head,
        ItemPart::Compute(expression) => expression_slot(expression),
        ItemPart::Tabto | ItemPart::Rjust => Slot::Number,
        ItemPart::Closing(_) => Slot::Other,
    }
}

fn expression_slot(part: &ExprPart) -> Slot
    ensures { result ≡ expression_slot part.now }
{
    match &part.inner {
        Inner::Before(_) => Slot::Operand,
        Inner::Behind(_) => Slot::Other,
    }
}
