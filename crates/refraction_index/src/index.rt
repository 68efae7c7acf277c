//! When choices last fired, by the journal.

ghost use Rattle.std.specs.Prelude.{◌≡◌, ◌≤◌, List, [], IfOk, OnOk, length, take};
ghost use Rattle.rule_base.specs.declared.instantiation.Choice.{Choice};
ghost use Rattle.refraction_index.specs.Firings.{Tells, place_of};

use crate::numbers::Numbers;
use commit_journal::Journal;
use ops_text::OutOfMemory;
use rule_base::Choice;
use std::alloc::Global;
use std::marker::Model;

/// When each choice last fired. Firings don't fill it: whoever asks has it take in the journal first.
#[derive(Drop)]
pub struct RefractionIndex {
    /// How many entries there were when each choice had last fired.
    numbers: Numbers,
    /// How many entries of the journal it has taken in.
    seen: usize,
}

impl Model for RefractionIndex {
    ghost use Rattle.refraction_index.specs.Firings.{Index};

    ghost Value = { Index };

    ghost view = { λ s. record { seen = s.seen; numbers = s.numbers } };
}

impl RefractionIndex {
    /// An index of the choices that had fired before the journal begins, with no entry taken in.
    pub fn new(alloc: Global, before: &[Choice]) -> Result<RefractionIndex, OutOfMemory>
        ensures tells { IfOk result (λ index. Tells before.now [] index) }
        ensures seen { IfOk result (λ index. index.seen ≡ 0) }
    {
        let mut numbers = Numbers::new(alloc);
        for choice in before {
            numbers.set(alloc, choice.rule, choice.tags.as_slice(), 0)?;
        }
        Ok(RefractionIndex { numbers, seen: 0 })
    }

    /// Takes in the entries that it hasn't seen, at the cost of one step each, however many came
    /// before. After want of memory it has seen some of them, and another call goes on from there.
    pub fn take_in(&mut self, alloc: Global, journal: &Journal) -> Result<(), OutOfMemory>
        requires follows { self.old.seen ≤ length journal.now.entries }
        ensures ok { OnOk result (self.new.seen ≡ length journal.now.entries) }

        // In every case, also after want of memory.
        ensures within { self.new.seen ≤ length journal.now.entries }
        ensures kept { self.old.seen ≤ self.new.seen }
        ensures tells { (before : List Choice) → Tells before (take self.old.seen journal.now.entries) self.old
            → Tells before (take self.new.seen journal.now.entries) self.new }
    {
        for place in self.seen..journal.len() {
            let entry = journal.entry(place);
            self.numbers
                .set(alloc, entry.rule, entry.tags, place as u64 + 1)?;
            self.seen = place + 1;
        }
        Ok(())
    }

    /// How many entries there were when the choice had last fired, by what has been taken in: 0 where
    /// it had fired before the journal begins, and none where it hasn't fired. It is one look-up, and
    /// takes no memory.
    pub fn fired_at(&mut self, choice: &Choice) -> Option<u64>
        ensures place { result ≡ place_of self.old choice.now }
        ensures same { self.new ≡ self.old }
    {
        self.numbers.of(choice)
    }
}
