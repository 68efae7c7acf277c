//! Tests of the command over files and an output in memory: what a report holds beside its text, and faults
//! in mid-file and in mid-text. What the program shows by its output alone is in `cases/`.
#![tactic(auto)]

#[cfg(test)]
mod faults;
#[cfg(test)]
mod reports;
#[cfg(test)]
mod setting;
