//! Numbers by the words of choices.

ghost use Rattle.std.specs.Prelude.{◌≡◌, ◌<◌, ◌≤◌, ◌∷◌, [], IfOk, OnErr, OnOk, Some, if◌then◌else◌, length, vec_capacity};
ghost use Rattle.rule_base.specs.State.{same_choice};
ghost use Rattle.rule_base.specs.declared.instantiation.Choice.{Choice};
ghost use Rattle.refraction_index.specs.Numbers.{choice_with, number_of};

use indexmap::IndexMap;
use ops_text::OutOfMemory;
use rule_base::Choice;
use std::alloc::Global;
use std::marker::Model;

/// A number for each of some choices.
#[derive(Drop)]
pub struct Numbers {
    /// By a choice's words: its rule, then its tags.
    by_words: IndexMap<Vec<u64>, u64>,
    /// Where the words of a question are laid, so that a question takes no memory. There is room for
    /// the longest words that have a number.
    question: Vec<u64>,
}

impl Model for Numbers {
    ghost use Rattle.std.specs.Prelude.{vec_capacity};
    ghost use Rattle.refraction_index.specs.Numbers.{AreWithin, Numbers, by_items};

    ghost Value = { Numbers };

    ghost view = { λ n. by_items n.by_words.entries };

    ghost invariant = { λ n. AreWithin (vec_capacity n.question) (by_items n.by_words.entries) };
}

impl Numbers {
    /// No numbers, which takes no memory.
    pub fn new(alloc: Global) -> Numbers
        ensures { result ≡ [] }
    {
        Numbers {
            by_words: IndexMap::new(alloc),
            question: Vec::new(alloc),
        }
    }

    /// Gives the choice of this rule and these tags the number, whether or not it had one. On average
    /// it takes the same time however many choices there are.
    pub fn set(
        &mut self,
        alloc: Global,
        rule: u32,
        tags: &[u64],
        number: u64,
    ) -> Result<(), OutOfMemory>
        ensures ok { OnOk result ((c : Choice) → number_of self.new c
            ≡ (if same_choice c (choice_with rule tags.now) then Some number else number_of self.old c)) }
        ensures err { OnErr result (self.new ≡ self.old) }
    {
        let words = words_of(alloc, rule, tags)?;
        make_room(&mut self.question, words.len())?;
        self.by_words.insert(words, number)?;
        Ok(())
    }

    /// The choice's number, if it has one, in one look-up. It takes no memory.
    pub fn of(&mut self, choice: &Choice) -> Option<u64>
        ensures number { result ≡ number_of self.old choice.now }
        ensures same { self.new ≡ self.old }
    {
        let tags = choice.tags.as_slice();
        if self.question.capacity() <= tags.len() {
            return None;
        }
        lay_words(&mut self.question, choice.rule, tags);
        self.by_words.get(self.question.as_slice()).copied()
    }
}

/// The words of a choice.
fn words_of(alloc: Global, rule: u32, tags: &[u64]) -> Result<Vec<u64>, OutOfMemory>
    ensures { IfOk result (λ words. words.items ≡ rule ∷ tags.now) }
{
    let mut words = Vec::new(alloc);
    words.push(u64::from(rule))?;
    words.extend_from_slice(tags)?;
    Ok(words)
}

/// Sees to it that so many words have room.
fn make_room(words: &mut Vec<u64>, count: usize) -> Result<(), OutOfMemory>
    ensures ok { OnOk result (count ≤ vec_capacity words.new) }
    ensures kept { vec_capacity words.old ≤ vec_capacity words.new }
{
    words.clear();
    words.reserve(count)?;
    Ok(())
}

/// Lays the words of a choice where there is room for them.
fn lay_words(words: &mut Vec<u64>, rule: u32, tags: &[u64])
    requires { length tags.now < vec_capacity words.old }
    ensures words { words.new.items ≡ rule ∷ tags.now }
    ensures kept { vec_capacity words.old ≤ vec_capacity words.new }
{
    words.clear();
    words.push_reserved(u64::from(rule));
    words.extend_from_slice(tags).unwrap();
}
