//! A trial: rules, a network of them, and the elements that it is given. What comes of it is told in short
//! texts.

use crate::act::Act;
use crate::changes::{add, add_many};
use crate::matches::{full_matches, text_of};
use crate::plain::plain_matches;
use crate::setting::program_of;
use match_network::Network;
use ops_text::{OutOfMemory, Sequence};
use rule_base::Rule;
use std::alloc::Global;
use std::test::Fail;

#[derive(Drop)]
pub struct Trial {
    rules: Sequence<Rule>,
    network: Network,
}

impl Trial {
    /// A network of a program's rules, without elements.
    pub fn new(alloc: Global, text: &str) -> Result<Trial, Fail> {
        if text.len() >= 100_000 {
            return Err(Fail::new("a text too long"));
        }
        let rules = program_of(alloc, text)?.rules;
        let network = Network::new(alloc, rules.as_slice())?;
        Ok(Trial { rules, network })
    }

    /// What comes of acts, one after another.
    pub fn play(&mut self, alloc: Global, acts: &str) -> Result<String, Fail> {
        let mut text = String::new(alloc);
        for words in acts.split("; ") {
            if !text.is_empty() {
                text.push_str("; ")?;
            }
            let Some(act) = Act::read(alloc, words)? else {
                return Err(Fail::new("no such act"));
            };
            text.push_str(&self.act(alloc, act)?)?;
        }
        Ok(text)
    }

    /// What comes of an act.
    fn act(&mut self, alloc: Global, act: Act) -> Result<String, Fail> {
        match act {
            Act::Add { class, values } => {
                let tag = add(&mut self.network, class, values.as_slice())?;
                Ok(format!(in alloc; "{tag}")?)
            }
            Act::Many { class, first, last } => {
                add_many(&mut self.network, class, first, last)?;
                Ok(format!(in alloc; "{first} to {last}")?)
            }
            Act::Remove(tag) => {
                self.network.remove(tag);
                Ok(format!(in alloc; "-")?)
            }
            Act::Pack => {
                self.network.pack(alloc)?;
                Ok(format!(in alloc; "-")?)
            }
            Act::Crowded => Ok(self.crowded(alloc)?),
            Act::Full(number) => self.full(alloc, number),
            Act::Plain(number) => self.plain(alloc, number),
            Act::Both(number) => self.both(alloc, number),
            Act::Count(number) => self.count(alloc, number),
        }
    }

    /// Whether packing pays.
    fn crowded(&self, alloc: Global) -> Result<String, OutOfMemory> {
        let answer = if self.network.is_crowded() {
            "yes"
        } else {
            "no"
        };
        Ok(answer.to_string(alloc)?)
    }

    /// The full matches of a rule by the network.
    fn full(&self, alloc: Global, number: usize) -> Result<String, Fail> {
        if number >= self.network.len() {
            return Err(Fail::new("no such rule"));
        }
        let lists = full_matches(alloc, &self.network, number)?;
        Ok(text_of(alloc, lists.as_slice())?)
    }

    /// The full matches of a rule by the tests of its condition elements.
    fn plain(&self, alloc: Global, number: usize) -> Result<String, Fail> {
        let Some(rule) = self.rules.get(number) else {
            return Err(Fail::new("no such rule"));
        };
        let lists = plain_matches(alloc, rule, self.network.arrivals())?;
        Ok(text_of(alloc, lists.as_slice())?)
    }

    /// Whether the two agree, or else what each is.
    fn both(&self, alloc: Global, number: usize) -> Result<String, Fail> {
        let full = self.full(alloc, number)?;
        let plain = self.plain(alloc, number)?;
        if full.as_str() == plain.as_str() {
            return Ok(format!(in alloc; "same")?);
        }
        Ok(format!(in alloc; "{full}, and not {plain}")?)
    }

    /// How many full matches a rule has.
    fn count(&self, alloc: Global, number: usize) -> Result<String, Fail> {
        if number >= self.network.len() {
            return Err(Fail::new("no such rule"));
        }
        let lists = full_matches(alloc, &self.network, number)?;
        let count = lists.len();
        Ok(format!(in alloc; "{count}")?)
    }
}
