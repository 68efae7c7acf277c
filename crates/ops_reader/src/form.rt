//! The forms of a text as data: symbols by their numbers, variables by the number of their name.

use ops_text::Sequence;
use rule_base::{Op, Pred, Value};
use sqlite_items::{Boxed, Items};

/// One form at the top level of a text.
#[derive(Debug, Drop)]
pub enum Form {
    Literalize {
        class: u32,
        attrs: Sequence<u32>,
    },
    P {
        name: u32,
        conds: Sequence<FormCond>,
        actions: Sequence<FormAction>,
    },
    Make {
        class: u32,
        sets: Sequence<(u32, Value)>,
    },
    Strategy {
        mea: bool,
    },
    Watch {
        level: u8,
    },
}

/// A condition element as it is written: perhaps negated, perhaps named by an element variable, and
/// attributes with the tests of each. A test without braces is a list of one.
#[derive(Debug, Drop)]
pub struct FormCond {
    pub negated: bool,
    pub named: Option<u32>,
    pub class: u32,
    pub tests: Sequence<(u32, Sequence<Simple>)>,
}

/// One test. `= t` is read as the plain test `t`.
#[derive(Debug, Drop)]
pub enum Simple {
    Plain(FormArg),
    Cmp(Pred, FormArg),
    OneOf(Sequence<Value>),
}

/// A constant, or a variable by the number of its name.
#[derive(Clone, Copy, Debug, PartialEq, Eq)]
pub enum FormArg {
    Con(Value),
    Name(u32),
}

/// One action as it is written.
#[derive(Debug, Drop)]
pub enum FormAction {
    Make {
        class: u32,
        sets: Sequence<(u32, FormTerm)>,
    },
    Modify {
        at: At,
        sets: Sequence<(u32, FormTerm)>,
    },
    Remove {
        at: Sequence<At>,
    },
    Bind {
        name: u32,
        term: FormTerm,
    },
    Write {
        items: Sequence<FormItem>,
    },
    Halt,
}

/// A designator: the number of a positive condition element, from 1, or an element variable.
#[derive(Clone, Copy, Debug, PartialEq, Eq)]
pub enum At {
    Number(i64),
    Name(u32),
}

/// What an action puts somewhere.
#[derive(Debug, Drop)]
pub enum FormTerm {
    Con(Value),
    Name(u32),
    Compute(FormExpr),
}

/// One item of a `write`.
#[derive(Debug, Drop)]
pub enum FormItem {
    Put(FormTerm),
    Crlf,
    Tabto(u8),
    Rjust(u8),
}

/// The expression of a `compute`: an operand, and any further ones behind their operators.
#[cycle(form_expression)]
#[derive(Debug, Drop)]
pub struct FormExpr {
    pub first: FormOperand,
    pub rest: Items<(Op, FormOperand)>,
}

/// A number, a variable, or an expression in parentheses.
#[cycle(form_expression)]
#[derive(Debug, Drop)]
pub enum FormOperand {
    Num(i64),
    Name(u32),
    Paren(Boxed<FormExpr>),
}
