//! Transcripts: what is done to networks, and what comes of it.
//!
//! A line that begins with `rules` has the text of a program behind that. A line with ` => ` has acts
//! before it, with `; ` between them, and what they tell behind it; they begin at a new network of the
//! rules of the last such program, without elements. Every other line is a remark.

use crate::trial::Trial;
use std::alloc::Global;
use std::test::Fail;

/// The same transcript, with what its acts tell now.
pub fn replayed(alloc: Global, transcript: &str) -> Result<String, Fail> {
    let mut text = String::new(alloc);
    let mut rules = None;
    for line in transcript.lines() {
        if let Some(program) = line.strip_prefix("rules ") {
            rules = Some(program);
        }
        text.push_str(&line_anew(alloc, rules, line)?)?;
        text.push('\n')?;
    }
    Ok(text)
}

/// A line, with what its acts tell now.
fn line_anew(alloc: Global, rules: Option<&str>, line: &str) -> Result<String, Fail> {
    let Some((acts, _)) = line.split_once(" => ") else {
        return Ok(line.to_string(alloc)?);
    };
    let Some(rules) = rules else {
        return Err(Fail::new("acts on no rules"));
    };
    let mut trial = Trial::new(alloc, rules)?;
    let told = trial.play(alloc, acts)?;
    Ok(format!(in alloc; "{acts} => {told}")?)
}
