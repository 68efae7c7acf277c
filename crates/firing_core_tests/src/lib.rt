//! Tests of cores, by their public calls: runs to their endings. The
//! cores run programs made from texts.
#![tactic(auto)]

#[cfg(test)]
mod runs;
#[cfg(test)]
mod setting;
