//! What one more token makes of what has been read, without a look at the text behind it.

mod action;
mod cond;
mod expression;
mod form;
mod item;
mod pattern;
mod set;
mod simple;
mod term;
mod test;

pub(crate) use form::form_after;
