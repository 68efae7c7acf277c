//! How the full matches of rules stand: open, waiting or marked. It knows no rules and no rows.

ghost use Rattle.std.specs.Prelude.{◌≡◌, ◌<◌, [], ◌∷◌, ◌++◌, IfOk, OnErr, OnOk, length, replicate, slice_index_or, slice_set};
ghost use Rattle.conflict_parts.specs.Standings.{standing_at, with_set, with_standing};

use ops_text::OutOfMemory;
use std::alloc::Global;
use std::marker::Model;

/// A full match: the number of its rule in the network, and its number among the rule's full rows.
#[derive(Clone, Copy, Debug, PartialEq, Eq)]
pub struct RowId {
    pub rule: u32,
    pub row: u32,
}

/// How a full match stands.
#[derive(Clone, Copy, Debug)]
pub enum Standing {
    /// Nobody has looked at it since it came or was woken. It may be a candidate.
    Open,
    /// The element at this place stands in its way at a negated condition element.
    Waiting(u32),
    /// It has fired.
    Marked,
}

/// How the full matches of one rule stand, by their numbers.
#[derive(Drop)]
struct OfRule {
    standings: Vec<Standing>,
}

impl Model for OfRule {
    ghost use Rattle.std.specs.Prelude.{List};
    ghost use Rattle.conflict_parts.specs.declared.standing.Standing.{Standing};

    ghost Value = { List Standing };

    ghost view = { λ r. r.standings.items };
}

impl OfRule {
    /// Sets how the full match with this number stands.
    fn set(&mut self, row: usize, standing: Standing)
        ensures { self.new ≡ slice_set self.old row standing }
    {
        if row < self.standings.len() {
            self.standings[row] = standing;
        }
    }

    /// Adds one full match. After want of memory all is as before.
    fn push(&mut self, standing: Standing) -> Result<(), OutOfMemory>
        ensures ok { OnOk result (self.new ≡ self.old ++ standing ∷ []) }
        ensures err { OnErr result (self.new ≡ self.old) }
    {
        self.standings.push(standing)?;
        Ok(())
    }
}

/// How full matches stand, by the numbers of their rules and their own.
#[derive(Drop)]
pub struct Standings {
    rules: Vec<OfRule>,
}

impl Model for Standings {
    ghost use Rattle.std.specs.Prelude.{List};
    ghost use Rattle.conflict_parts.specs.declared.standing.Standing.{Standing};

    ghost Value = { List (List Standing) };

    ghost view = { λ s. s.rules.items };
}

impl Standings {
    /// So many rules, without full matches.
    pub fn new(alloc: Global, rules: usize) -> Result<Standings, OutOfMemory>
        ensures { IfOk result (λ standings. standings ≡ replicate rules []) }
    {
        let mut all = Vec::new(alloc);
        for _ in 0..rules {
            all.push(OfRule {
                standings: Vec::new(alloc),
            })?;
        }
        Ok(Standings { rules: all })
    }

    /// How many rules there are.
    pub fn len(&self) -> usize
        ensures { result ≡ length self.now }
    {
        self.rules.len()
    }

    /// How many full matches of this rule there are: none where there is no such rule.
    pub fn count(&self, rule: usize) -> usize
        ensures { result ≡ length (slice_index_or self.now rule []) }
    {
        if rule < self.rules.len() {
            self.rules[rule].standings.len()
        } else {
            0
        }
    }

    /// How this full match stands, if it is there.
    pub fn at(&self, id: RowId) -> Option<Standing>
        ensures { result ≡ standing_at self.now id.rule id.row }
    {
        let rule = id.rule as usize;
        if rule < self.rules.len() {
            self.rules[rule].standings.get(id.row as usize).copied()
        } else {
            None
        }
    }

    /// Sets how this full match stands, if it is there.
    pub fn set(&mut self, id: RowId, standing: Standing)
        ensures { self.new ≡ with_set self.old id.rule id.row standing }
    {
        let rule = id.rule as usize;
        if rule < self.rules.len() {
            let of_rule = &mut self.rules[rule];
            of_rule.set(id.row as usize, standing);
        }
    }

    /// Adds one full match to a rule. After want of memory all is as before.
    pub fn push(&mut self, rule: usize, standing: Standing) -> Result<(), OutOfMemory>
        requires { rule < length self.old }
        ensures ok { OnOk result (self.new ≡ with_standing self.old rule standing) }
        ensures err { OnErr result (self.new ≡ self.old) }
    {
        let of_rule = &mut self.rules[rule];
        of_rule.push(standing)
    }
}
