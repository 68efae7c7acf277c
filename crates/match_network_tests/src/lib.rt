//! Tests of match networks and of the hash buckets under them, by their public calls: elements come and
//! go, and the full matches of each rule are told, and compared with what trying all lists of elements
//! finds. The rules are made from texts.
#![tactic(auto)]

#[cfg(test)]
mod act;
#[cfg(test)]
mod buckets;
#[cfg(test)]
mod changes;
#[cfg(test)]
mod joins;
#[cfg(test)]
mod levels;
#[cfg(test)]
mod matches;
#[cfg(test)]
mod orders;
#[cfg(test)]
mod plain;
#[cfg(test)]
mod setting;
#[cfg(test)]
mod transcript;
#[cfg(test)]
mod trial;
