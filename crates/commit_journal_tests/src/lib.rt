//! Tests of commit_journal, by its public calls.
#![tactic(auto)]

#[cfg(test)]
mod program_rooms;
#[cfg(test)]
mod two_entries;
