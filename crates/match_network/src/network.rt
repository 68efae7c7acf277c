//! The match network of a program's rules.

ghost use Rattle.std.specs.Prelude.{◌≡◌, ◌+◌, ◌<◌, ◌≤◌, ◌⊎◌, [], ◌∷◌, ◌++◌, IfOk, IfSome, OnErr, OnOk, Some, filter, length, map, slice_get, ℕ, List, MatchOption, None, false, true, ◌==◌, ◌*◌, nat_lt};
ghost use Rattle.std.specs.List.{AllByRecursion, list_all, list_any};
ghost use Rattle.rule_base.specs.declared.element.Element.{Element};
ghost use Rattle.rule_base.specs.declared.program.Rule.{Rule};
ghost use Rattle.rule_base.specs.Views.{element_in};
ghost use Rattle.join_tests.specs.Meaning.{IsCompiled, is_free};
ghost use Rattle.match_network.specs.Arrivals.{with_arrival, without_tag, has_tag};
ghost use Rattle.rule_base.specs.Numbers.{has_number};
ghost use Rattle.match_network.specs.Conditions.{joins_of, rows_of};
ghost use Rattle.match_network.specs.JoinWork.{join_work_of};
ghost use Rattle.match_network.specs.Full.{AreFullMatches, memory_of, tags_at};
ghost use Rattle.match_network.specs.Levels.{AreLevels};
ghost use Rattle.match_network.specs.Network.{joins_in, AreAllRight, AllHaveLevels};
ghost use Rattle.match_network.specs.Row.{is_living, elements_of};
ghost use Rattle.match_network.specs.Negated.{IsWholeRow, blockers_tried, blocks, whole_rows};
ghost use Rattle.match_network.specs.Rules.{AreCompiled, RuleRows};
ghost use Rattle.match_network.specs.Touched.{AllGrow, AreNegatedDue, OthersStay};
ghost use Rattle.match_network.specs.Held.{Covers, all_rows};
ghost use Rattle.match_network.specs.Packing.{ArePacked, MayBePacked};
ghost use Rattle.match_network.specs.Told.{AllAreTold};

use crate::rule_set::RuleSet;
use crate::{Arrivals, Asker, FullRows, RuleLevels};
use ops_text::OutOfMemory;
use rule_base::{ElementView, Rule, Steps};
use std::alloc::Global;
use std::marker::Model;
use std::sync::ledger::Ledger;

/// The elements that came, and for each rule the partial matches of those in working memory, which look
/// at positive condition elements alone. What stands in the way of a match is told by `blocker`.
#[derive(Drop)]
pub struct Network {
    arrivals: Arrivals,
    set: RuleSet,
    /// How many rows and links there were after the last packing.
    left: usize,
}

impl Model for Network {
    ghost use Rattle.match_network.specs.Held.{RowsHeld};
    ghost use Rattle.match_network.specs.Network.{IsNetwork, Network};

    ghost Value = { Network };

    ghost view = { λ n. record { arrivals = n.arrivals; rules = n.set.rules.items; due = n.set.due.items; negated_due = n.set.negated_due.items; held = n.set.held; left = n.left } };

    ghost invariant = { λ n. IsNetwork n.arrivals.came n.arrivals.places n.set.alpha n.set.rules.items n.set.askers.items n.set.negated_askers.items
        × RowsHeld n.set.held n.set.rules.items n.set.alpha };
}

impl Network {
    /// A network for these rules, by their numbers, without elements.
    pub fn new(alloc: Global, rules: &[Rule]) -> Result<Network, OutOfMemory>
        ensures came { IfOk result (λ network. network.arrivals.came ≡ []) }
        ensures places { IfOk result (λ network. network.arrivals.places ≡ []) }
        ensures compiled { IfOk result (λ network. AreCompiled rules.now network.rules) }
        ensures left { IfOk result (λ network. network.left ≡ 0) }
    {
        Ok(Network {
            arrivals: Arrivals::new(alloc)?,
            set: RuleSet::new(alloc, rules)?,
            left: 0,
        })
    }

    /// Takes in an element, and finds the partial matches that it makes. After want of memory the element
    /// isn't in working memory, and all that lives is as before.
    pub fn add<L: Ledger>(
        &mut self,
        element: ElementView<'_>,
        steps: &mut Steps<L>,
    ) -> Result<(), OutOfMemory>
        requires { AllByRecursion (λ (e : Element). e.tag < element.tag) self.old.arrivals.came }
        ensures ok { OnOk result (self.new.arrivals ≡ with_arrival self.old.arrivals (element_in element.entry)) }
        ensures err { OnErr result (self.new.arrivals.places ≡ self.old.arrivals.places) }
        ensures joins { joins_in self.new.rules ≡ joins_in self.old.rules }
        ensures left { self.new.left ≡ self.old.left }

        // Whom it touched: all other rules are as before, and levels got only rows with its place.
        ensures touched { OthersStay self.new.due self.old.rules self.new.rules }
        ensures grows { AllGrow self.new.arrivals.came (length self.old.arrivals.came) self.old.rules self.new.rules }
        ensures negated_due { OnOk result (AreNegatedDue (element_in element.entry) self.new.rules self.new.negated_due) }

        // After want of memory the element may have come, and be dead.
        ensures came { OnErr result ((self.new.arrivals.came ≡ self.old.arrivals.came)
            ⊎ (self.new.arrivals.came ≡ self.old.arrivals.came ++ element_in element.entry ∷ [])) }

        // It counts no more steps than the partial matches give work, whatever dead rows are kept.
        ensures steps { steps.new ≤ steps.old + join_work_of self.old.rules (self.old.arrivals.came ++ element_in element.entry ∷ [])
            self.old.arrivals.places (length self.old.arrivals.came) }
    {
        let place = self.arrivals.insert(element)?;
        if let Err(want) = self.set.take_in(place, element, &self.arrivals, steps) {
            self.arrivals.remove(element.tag);
            return Err(want);
        }
        Ok(())
    }

    /// The place of an element in working memory that stands in the way of a partial match for all positive
    /// condition elements, if there is one: the rule's row with this number, as `rule` tells it. Where there
    /// is none, and the row's elements are in working memory, the rule matches. It counts a step for each
    /// element that agrees with the row in the key of a negated condition element, and takes no memory.
    pub fn blocker<L: Ledger>(
        &mut self,
        rule: usize,
        row: usize,
        steps: &mut Steps<L>,
    ) -> Option<u32>
        requires rule { rule < length self.old.rules }
        requires row { (kept : RuleRows) → slice_get self.old.rules rule ≡ Some kept → row < length (whole_rows kept) }
        ensures there { IfSome result (λ place. has_number self.old.arrivals.places place ≡ true) }
        ensures blocks { IfSome result (λ place. (kept : RuleRows) (those : List ℕ) → IsWholeRow self.old.rules rule row kept those
            → blocks kept.joins self.old.arrivals.came those place ≡ true) }
        ensures none { result ≡ None → (kept : RuleRows) (those : List ℕ) → IsWholeRow self.old.rules rule row kept those
            → list_all (is_free (elements_of self.old.arrivals.came self.old.arrivals.places) (elements_of self.old.arrivals.came those)) kept.joins.negated ≡ true }
        ensures same { self.new ≡ self.old }
        ensures steps { (kept : RuleRows) (those : List ℕ) → IsWholeRow self.old.rules rule row kept those
            → steps.new ≤ steps.old + blockers_tried kept.joins.negated self.old.arrivals.came self.old.arrivals.places those }
    {
        let kept = &self.set.rules[rule];
        kept.blocker(row, &self.arrivals, &mut self.set.alpha, steps)
    }

    /// Whether the element at a place stands in the way of a row, as `blocker` has it. It looks at each negated
    /// condition element of the rule once, and needn't be in working memory.
    pub fn blocks(&self, rule: usize, row: usize, place: u32) -> bool
        requires rule { rule < length self.now.rules }
        requires row { (kept : RuleRows) → slice_get self.now.rules rule ≡ Some kept → row < length (whole_rows kept) }
        requires place { place < length self.now.arrivals.came }
        ensures { (kept : RuleRows) (those : List ℕ) → IsWholeRow self.now.rules rule row kept those
            → result ≡ blocks kept.joins self.now.arrivals.came those place }
    {
        self.set.rules[rule].blocks(row, place, &self.arrivals)
    }

    /// Takes the element with this tag out of working memory, and tells its place, if it is there. Its rows
    /// stay, as dead ones. It counts no steps and takes no memory, and a time that grows with the logarithm
    /// of the tags that are missing between the first one and this one.
    pub fn remove(&mut self, tag: u64) -> Option<u32>
        ensures found { MatchOption result (list_any (has_tag self.old.arrivals.came tag) self.old.arrivals.places ≡ false)
            (λ place. (has_number self.old.arrivals.places place ≡ true) × (has_tag self.old.arrivals.came tag place ≡ true)) }
        ensures arrivals { self.new.arrivals ≡ without_tag self.old.arrivals tag }
        ensures rules { self.new.rules ≡ self.old.rules }
        ensures held { (self.new.held ≡ self.old.held) × (self.new.left ≡ self.old.left) }
    {
        self.arrivals.remove(tag)
    }

    /// Drops the rows and the links of elements that aren't in working memory, and frees their memory. It
    /// looks at each row and link once. After want of memory some levels and stores are packed.
    pub fn pack(&mut self, alloc: Global) -> Result<(), OutOfMemory>
        ensures arrivals { self.new.arrivals ≡ self.old.arrivals }
        ensures joins { joins_in self.new.rules ≡ joins_in self.old.rules }
        ensures ok { OnOk result (ArePacked self.old.arrivals.places self.old.rules self.new.rules) }
        ensures err { OnErr result (MayBePacked self.old.arrivals.places self.old.rules self.new.rules) }
        ensures left { OnOk result (self.new.left ≡ self.new.held) }
        ensures same_left { OnErr result (self.new.left ≡ self.old.left) }
        ensures calm { OnOk result (nat_lt (2 * self.new.left + 16384) self.new.held ≡ false) }
    {
        let packed = self.set.pack(alloc, &self.arrivals);
        self.set.held = self.set.count();
        packed?;
        self.left = self.set.held;
        Ok(())
    }

    /// Whether rows and links are more than twice as many as the last packing left, and 16,384 more. Then
    /// packing pays.
    pub fn is_crowded(&self) -> bool
        ensures crowded { result ≡ nat_lt (2 * self.now.left + 16384) self.now.held }
        ensures few { result ≡ false → Covers (2 * self.now.left + 16384) (all_rows self.now.rules) }
    {
        let most = self.left.saturating_mul(2).saturating_add(16_384);
        most < self.set.held
    }

    /// How many rules there are.
    pub fn len(&self) -> usize
        ensures { result ≡ length self.now.rules }
    {
        self.set.rules.len()
    }

    /// What is kept of the rule with this number. Its rows of elements in working memory are its partial
    /// matches, each once.
    pub fn rule(&self, number: usize) -> &RuleLevels
        requires { number < length self.now.rules }
        ensures rule { slice_get self.now.rules number ≡ Some result.now }
        ensures count { length result.now.levels ≡ length result.now.joins.positives }
        ensures right { AreLevels (joins_of result.now.joins.positives) self.now.arrivals.came self.now.arrivals.places (rows_of result.now.levels) }
    {
        &self.set.rules[number]
    }

    /// The full matches of the rule with this number, as rows of places: those of its rows whose elements
    /// are in working memory. It takes no memory. They come in no order that is told.
    pub fn full(&self, number: usize) -> FullRows<'_>
        requires number { number < length self.now.rules }
        requires some { IfSome (slice_get self.now.rules number) (λ kept. 0 < length kept.joins.positives) }
        ensures rows { (kept : RuleRows) → slice_get self.now.rules number ≡ Some kept →
            result ≡ filter (is_living self.now.arrivals.places) (rows_of kept.levels (length kept.levels)) }

        // Told in tags they are what the rule takes, each once.
        ensures exact { (rule : Rule) (kept : RuleRows) → slice_get self.now.rules number ≡ Some kept → IsCompiled rule kept.joins →
            AreFullMatches rule (memory_of self.now.arrivals) (map (tags_at self.now.arrivals.came) result) }
    {
        match self.set.rules[number].rows() {
            Some(rows) => self.arrivals.living(rows),
            None => unreachable!(),
        }
    }

    /// What is kept of each rule is right, as `rule` tells of one. It does nothing.
    pub fn all_are_right(&self)
        ensures right { AreAllRight self.now }
        ensures levels { AllHaveLevels self.now }
        ensures told { AllAreTold self.now }
    {
        // What the types keep is known only where a field is named, and its calls tell.
        let _came = self.arrivals.len();
    }

    /// The place of the element with this tag in working memory, if it is there. It takes as much time as
    /// `remove`.
    pub fn place_of(&self, tag: u64) -> Option<u32>
        ensures found { MatchOption result (list_any (has_tag self.now.arrivals.came tag) self.now.arrivals.places ≡ false)
            (λ place. (has_number self.now.arrivals.places place ≡ true) × (has_tag self.now.arrivals.came tag place ≡ true)) }
        ensures only { IfSome result (λ place. (other : ℕ) → has_tag self.now.arrivals.came tag other ≡ (other == place)) }
    {
        self.arrivals.place_of(tag)
    }

    /// The positive condition elements that the last element to be added passed. No other rules were
    /// touched. After want of memory some may be missing, and their rules are as before.
    pub fn due(&self) -> &[Asker]
        ensures { result.now ≡ self.now.due }
    {
        self.set.due.as_slice()
    }

    /// The negated condition elements that the last element to be added passed. After want of memory some
    /// may be missing.
    pub fn negated_due(&self) -> &[Asker]
        ensures { result.now ≡ self.now.negated_due }
    {
        self.set.negated_due.as_slice()
    }

    /// The elements that came, and which of them are in working memory.
    pub fn arrivals(&self) -> &Arrivals
        ensures { result.now ≡ self.now.arrivals }
    {
        &self.arrivals
    }
}
