//! The journal of a run as a flat store, the layout of what a run writes, and the journal's text. It
//! takes in effects of firings, and knows no match and not what an effect comes from.
#![tactic(auto)]

mod entry_view;
mod firing;
mod journal;
pub mod laws;
mod lists;
mod newborns;
mod page;
mod program_room;
mod room;
mod text;

pub use entry_view::EntryView;
pub use journal::Journal;
pub use page::lay_out;
pub use program_room::room_of;
pub use room::Room;
pub use text::journal_text;
