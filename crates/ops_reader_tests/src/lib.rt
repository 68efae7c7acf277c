//! Tests of the reader and the printer: how many forms and names texts have, and the canonical
//! text. Which texts are refused, where and why, the program shows: that is in `cases/`.
#![tactic(auto)]

#[cfg(test)]
mod canonical_text;
#[cfg(test)]
mod counts;
