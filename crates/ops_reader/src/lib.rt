//! Reads the text of a rule program into forms. It knows the grammar and nothing of classes,
//! bindings or firings.
#![tactic(auto)]

mod form;
mod forms;
mod kind;
pub mod laws;
mod part;
mod read;
mod refusal;
mod slot;
mod step;
mod take;

pub use form::{
    At, Form, FormAction, FormArg, FormCond, FormExpr, FormItem, FormOperand, FormTerm, Simple,
};
pub use forms::Forms;
pub use read::read_forms;
pub use refusal::{FormsRefusal, SyntaxKind};
