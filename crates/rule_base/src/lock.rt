//! The locks that let instantiations fire side by side, as plain data.

/// What a footprint asks of a lock: that what it covers stays, that it only grows, or to own it.
#[derive(Clone, Copy, Debug, PartialEq, Eq)]
pub enum Mode {
    Watch,
    Grow,
    Own,
}

/// A lock that is taken, and the word that was found on it.
#[derive(Clone, Copy, Debug, PartialEq, Eq)]
pub struct Busy {
    pub lock: u32,
    pub word: u64,
}
