//! Bytes of files, numbers of names and decimal texts: all that the other crates need of the world
//! outside. It knows no rules and no elements.
#![tactic(auto)]

mod duplicate;
pub mod laws;
mod numeral;
mod sequence;
mod shelf;
mod sink;
mod symbols;

pub use duplicate::{Duplicate, copied};
pub use numeral::{put_int, read_int};
pub use sequence::Sequence;
pub use shelf::{FileShelf, MemShelf, ReadRefusal, Shelf, ShelfFailed, SureShelf, read_all};
pub use sink::{MemSink, OutSink, Sink, SinkFailed, SureSink, WriteFault, write_all};
pub use std::alloc::AllocError as OutOfMemory;
pub use symbols::Symbols;
