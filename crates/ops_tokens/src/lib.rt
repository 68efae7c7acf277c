//! The tokens of a text: where they begin, what each is, and the names that they stand for. It knows nothing of the
//! grammar.
#![tactic(auto)]

mod byte;
pub mod laws;
mod naming;
mod scan;
mod token;
mod word;

pub use byte::ByteKind;
pub use naming::{constant_name, literal_name, predicate_name, symbol_name, variable_name};
pub use scan::{Found, is_letter, next_token};
pub use token::{Keyword, LexicalFault, Token};
pub use word::word_token;
