//! What may be done to a network, and how a transcript writes it.

use ops_text::OutOfMemory;
use rule_base::Value;
use std::alloc::Global;

/// What is done to a network. Rules and classes go by their numbers, from 0.
#[derive(Drop)]
pub enum Act {
    /// `a CLASS V ..`: an element of a class comes, with these values and the next tag.
    Add { class: u32, values: Vec<Value> },
    /// `many CLASS FROM TO`: elements of a class come, each with one value, from the first to the last.
    Many { class: u32, first: i64, last: i64 },
    /// `r TAG`: the element with this tag goes.
    Remove(u64),
    /// `full RULE`: the full matches of a rule, by the network.
    Full(usize),
    /// `plain RULE`: the same, by the tests of condition elements.
    Plain(usize),
    /// `both RULE`: whether the two agree.
    Both(usize),
    /// `count RULE`: how many full matches there are.
    Count(usize),
    /// `pack`: what is dead is dropped.
    Pack,
    /// `crowded`: whether packing pays.
    Crowded,
}

impl Act {
    /// The act that words name, if they name one.
    pub fn read(alloc: Global, text: &str) -> Result<Option<Act>, OutOfMemory> {
        let words: Vec<&str> = text.split_whitespace().collect(alloc)?;
        match words.as_slice() {
            ["pack"] => Ok(Some(Act::Pack)),
            ["crowded"] => Ok(Some(Act::Crowded)),
            [kind, number] if *kind != "a" => Ok(of_number(kind, number)),
            [kind, class, first, last] if *kind == "many" => Ok(many(class, first, last)),
            [kind, class, values @ ..] if *kind == "a" => added(alloc, class, values),
            _ => Ok(None),
        }
    }
}

fn of_number(kind: &str, number: &str) -> Option<Act> {
    let number = number.parse::<u32>().ok()?;
    match kind {
        "r" => Some(Act::Remove(number as u64)),
        "full" => Some(Act::Full(number as usize)),
        "plain" => Some(Act::Plain(number as usize)),
        "both" => Some(Act::Both(number as usize)),
        "count" => Some(Act::Count(number as usize)),
        _ => None,
    }
}

fn many(class: &str, first: &str, last: &str) -> Option<Act> {
    Some(Act::Many {
        class: class.parse::<u32>().ok()?,
        first: first.parse::<i64>().ok()?,
        last: last.parse::<i64>().ok()?,
    })
}

fn added(alloc: Global, class: &str, words: &[&str]) -> Result<Option<Act>, OutOfMemory> {
    let Some(class) = class.parse::<u32>().ok() else {
        return Ok(None);
    };
    let mut values = Vec::new(alloc);
    for word in words {
        let Some(number) = word.parse::<i64>().ok() else {
            return Ok(None);
        };
        values.push(Value::Int(number))?;
    }
    Ok(Some(Act::Add { class, values }))
}
