//! What of a text has been read, between two tokens. Each comment shows the text of a part so far.

use crate::{At, Form, FormAction, FormCond, FormExpr, FormItem, FormTerm, Simple};
use ops_text::Sequence;
use rule_base::{Op, Pred, Value};

/// The forms that are whole, and what has been read of the next one.
#[derive(Drop)]
pub(crate) struct Progress {
    pub(crate) forms: Sequence<Form>,
    pub(crate) part: FormPart,
}

/// What the next token makes of a part of something: a longer part, or the whole.
#[derive(Drop)]
pub(crate) enum Step<P: Drop, V: Drop> {
    Part(P),
    Whole(V),
}

/// What has been read of a form.
#[derive(Drop)]
pub(crate) enum FormPart {
    Nothing,
    /// `(`
    Head,
    /// `(literalize`
    Literalize,
    /// `(literalize class attr ..`
    Attrs {
        class: u32,
        attrs: Sequence<u32>,
    },
    /// `(make`
    Make,
    /// `(make class ^attr value ..`, and a part of a setting
    Sets {
        class: u32,
        sets: Sequence<(u32, Value)>,
        set: SetPart,
    },
    /// `(p`
    P,
    /// `(p name condition ..`, and a part of a condition
    Conds {
        name: u32,
        conds: Sequence<FormCond>,
        cond: CondPart,
    },
    /// `(p name condition .. --> action ..`, and a part of an action
    Actions {
        name: u32,
        conds: Sequence<FormCond>,
        actions: Sequence<FormAction>,
        action: ActionPart,
    },
    /// `(strategy`
    Strategy,
    /// `(watch`
    Watch,
    /// `(strategy lex`, `(strategy mea` or `(watch level`: all but the last bracket
    Closing {
        form: Form,
    },
}

/// What has been read of a setting whose value is one token.
#[derive(Clone, Copy)]
pub(crate) enum SetPart {
    Nothing,
    /// `^`
    Caret,
    /// `^attr`
    Attr(u32),
}

/// What has been read of a condition element.
#[derive(Drop)]
pub(crate) enum CondPart {
    Nothing,
    /// A pattern without a sign or braces.
    Plain(PatternPart),
    /// `-`, and a part of a pattern
    Negated(PatternPart),
    /// `{`
    Brace,
    /// `{ <name>`, and a part of a pattern
    Named { name: u32, pattern: PatternPart },
    /// `{`, and a part of a pattern that has begun
    Unnamed(PatternPart),
    /// `{ pattern`
    Behind(Pattern),
    /// `{ <name> pattern` or `{ pattern <name>`: all but the last brace
    Closing(FormCond),
}

/// A class, and attributes with their tests.
#[derive(Drop)]
pub(crate) struct Pattern {
    pub(crate) class: u32,
    pub(crate) tests: Sequence<(u32, Sequence<Simple>)>,
}

/// What has been read of a pattern.
#[derive(Drop)]
pub(crate) enum PatternPart {
    Nothing,
    /// `(`
    Open,
    /// `(class ^attr test ..`, and a part of an attribute with its test
    Tests {
        class: u32,
        tests: Sequence<(u32, Sequence<Simple>)>,
        test: TestPart,
    },
}

/// What has been read of an attribute with its tests.
#[derive(Drop)]
pub(crate) enum TestPart {
    Nothing,
    /// `^`
    Caret,
    /// `^attr`, and a part of a test without braces
    Alone {
        attr: u32,
        simple: SimplePart,
    },
    /// `^attr { test ..`, and a part of a test
    Braced {
        attr: u32,
        simples: Sequence<Simple>,
        simple: SimplePart,
    },
}

/// What has been read of one test.
#[derive(Drop)]
pub(crate) enum SimplePart {
    Nothing,
    /// A predicate.
    Predicate(Pred),
    /// `<< constant ..`
    OneOf(Sequence<Value>),
}

/// What has been read of an action.
#[derive(Drop)]
pub(crate) enum ActionPart {
    Nothing,
    /// `(`
    Head,
    /// `(make`
    Make,
    /// `(make class ^attr value ..`, and a part of a setting
    MakeSets {
        class: u32,
        sets: Sequence<(u32, FormTerm)>,
        set: TermSetPart,
    },
    /// `(modify`
    Modify,
    /// `(modify designator ^attr value ..`, and a part of a setting
    ModifySets {
        at: At,
        sets: Sequence<(u32, FormTerm)>,
        set: TermSetPart,
    },
    /// `(remove designator ..`
    Remove {
        at: Sequence<At>,
    },
    /// `(bind`
    Bind,
    /// `(bind <name>`, and a part of a value
    Bound {
        name: u32,
        term: TermPart,
    },
    /// `(write item ..`, and a part of an item
    Write {
        items: Sequence<FormItem>,
        item: ItemPart,
    },
    /// `(bind <name> value` or `(halt`: all but the last bracket
    Closing(FormAction),
}

/// What has been read of a setting in an action.
#[derive(Drop)]
pub(crate) enum TermSetPart {
    Nothing,
    /// `^`
    Caret,
    /// `^attr`, and a part of a value
    Attr { attr: u32, term: TermPart },
}

/// What has been read of a value in an action.
#[derive(Drop)]
pub(crate) enum TermPart {
    Nothing,
    /// `(`
    Head,
    /// `(compute`, and a part of an expression
    Compute(ExprPart),
}

/// What has been read of an item of a `write`.
#[derive(Drop)]
pub(crate) enum ItemPart {
    Nothing,
    /// `(`
    Head,
    /// `(compute`, and a part of an expression
    Compute(ExprPart),
    /// `(tabto`
    Tabto,
    /// `(rjust`
    Rjust,
    /// `(crlf`, `(tabto column` or `(rjust width`: all but the last bracket
    Closing(FormItem),
}

/// What has been read of an expression: for each parenthesis that is open in it, from the outermost on,
/// what stands before that parenthesis, and then what has been read behind the last one.
#[derive(Drop)]
pub(crate) struct ExprPart {
    pub(crate) outer: Sequence<Before>,
    pub(crate) inner: Inner,
}

/// What stands before an operand.
#[derive(Drop)]
pub(crate) enum Before {
    Nothing,
    /// An expression and an operator behind it.
    Operator(FormExpr, Op),
}

/// What has been read behind the last open parenthesis.
#[derive(Drop)]
pub(crate) enum Inner {
    /// An operand is to come.
    Before(Before),
    /// An operand has been read, and perhaps others before it.
    Behind(FormExpr),
}
