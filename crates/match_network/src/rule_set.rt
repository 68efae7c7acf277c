//! All rules, and the stores that they share.

ghost use Rattle.std.specs.Prelude.{◌≡◌, ◌+◌, ◌≤◌, [], ◌∷◌, ◌++◌, IfOk, OnErr, OnOk, filter, map};
ghost use Rattle.std.specs.List.{flat_map};
ghost use Rattle.join_tests.specs.Meaning.{IsCompiled};
ghost use Rattle.rule_base.specs.Numbers.{has_number};
ghost use Rattle.rule_base.specs.Views.{element_in};
ghost use Rattle.alpha_memory.specs.Stores.{AreFiledOrNot, filed, packed};
ghost use Rattle.match_network.specs.JoinWork.{join_work_of};
ghost use Rattle.match_network.specs.Held.{RowsHeld};
ghost use Rattle.match_network.specs.Network.{IsBefore, IsNetwork, joins_in, other_than};
ghost use Rattle.match_network.specs.Packing.{ArePacked, MayBePacked};
ghost use Rattle.match_network.specs.Rules.{AreAllDue, askers_at, AreBare, AreCompiled, IsAdded};
ghost use Rattle.match_network.specs.Touched.{AllGrow, AreNegatedDue, OthersStay};

use crate::askers::{Asker, collect, note_all};
use crate::due::weave_all;
use crate::held::{count_all_rows, count_links};
use crate::packing::{pack_rules, pack_stores};
use crate::{Arrivals, RuleLevels};
use alpha_memory::AlphaMemory;
use ops_text::{OutOfMemory, Sequence};
use rule_base::{ElementView, Rule, Steps};
use std::alloc::Global;
use std::sync::ledger::Ledger;

/// The rules by number, and the alpha stores.
#[derive(Drop)]
pub(crate) struct RuleSet {
    pub(crate) alpha: AlphaMemory,
    pub(crate) rules: Vec<RuleLevels>,
    /// By the number of a store, the positive condition elements that ask it, and the negated ones.
    pub(crate) askers: Vec<Sequence<Asker>>,
    pub(crate) negated_askers: Vec<Sequence<Asker>>,
    /// Room for the numbers of the stores that an element passes.
    passed: Vec<u32>,
    /// Those who ask the stores that the last element passed.
    pub(crate) due: Vec<Asker>,
    pub(crate) negated_due: Vec<Asker>,
    /// How many rows and links there are, the dead ones and the unlinked ones too.
    pub(crate) held: usize,
}

impl RuleSet {
    /// Compiles rules, and asks for their stores. There are no elements.
    pub(crate) fn new(alloc: Global, rules: &[Rule]) -> Result<RuleSet, OutOfMemory>
        ensures compiled { IfOk result (λ set. AreCompiled rules.now set.rules.items) }
        ensures right { IfOk result (λ set. IsNetwork [] [] set.alpha set.rules.items set.askers.items set.negated_askers.items) }
        ensures held { IfOk result (λ set. RowsHeld set.held set.rules.items set.alpha) }
    {
        let mut set = RuleSet {
            alpha: AlphaMemory::new(alloc),
            rules: Vec::new(alloc),
            askers: Vec::new(alloc),
            negated_askers: Vec::new(alloc),
            passed: Vec::new(alloc),
            due: Vec::new(alloc),
            negated_due: Vec::new(alloc),
            held: 0,
        };
        for number in 0..rules.len() {
            set.push(alloc, &rules[number])?;
        }
        set.held = set.count();
        Ok(set)
    }

    /// Adds a rule.
    fn push(&mut self, alloc: Global, rule: &Rule) -> Result<(), OutOfMemory>
        requires bare { AreBare self.old.alpha }
        requires right { IsNetwork [] [] self.old.alpha self.old.rules.items self.old.askers.items self.old.negated_askers.items }
        ensures bare { OnOk result (AreBare self.new.alpha) }
        ensures right { OnOk result (IsNetwork [] [] self.new.alpha self.new.rules.items self.new.askers.items self.new.negated_askers.items) }
        ensures added { OnOk result (IsAdded rule.now self.old.rules.items self.new.rules.items) }
    {
        let number = self.rules.len();
        let levels = RuleLevels::new(alloc, rule, &mut self.alpha)?;
        note_all(alloc, number, levels.stores(), &mut self.askers)?;
        note_all(alloc, number, levels.negated(), &mut self.negated_askers)?;
        self.rules.push(levels)?;
        Ok(())
    }

    /// Weaves the element that came to a place in wherever it passes.
    pub(crate) fn take_in<L: Ledger>(
        &mut self,
        place: u32,
        element: ElementView<'_>,
        arrivals: &Arrivals,
        steps: &mut Steps<L>,
    ) -> Result<(), OutOfMemory>
        requires { IsBefore arrivals.now (element_in element) place self.old.alpha self.old.rules.items self.old.askers.items self.old.negated_askers.items }
        ensures ok { OnOk result (IsNetwork arrivals.now.came arrivals.now.places self.new.alpha self.new.rules.items self.new.askers.items self.new.negated_askers.items) }
        ensures err { OnErr result (IsNetwork arrivals.now.came (filter (other_than place) arrivals.now.places) self.new.alpha self.new.rules.items self.new.askers.items self.new.negated_askers.items) }
        ensures joins { joins_in self.new.rules.items ≡ joins_in self.old.rules.items }
        ensures steps { steps.new ≤ steps.old + join_work_of self.old.rules.items arrivals.now.came (filter (other_than place) arrivals.now.places) place }
        ensures touched { OthersStay self.new.due.items self.old.rules.items self.new.rules.items }
        ensures grows { AllGrow arrivals.now.came place self.old.rules.items self.new.rules.items }
        ensures negated_due { OnOk result (AreNegatedDue (element_in element.entry) self.new.rules.items self.new.negated_due.items) }
        ensures held { RowsHeld self.old.held self.old.rules.items self.old.alpha → RowsHeld self.new.held self.new.rules.items self.new.alpha }
    {
        self.find_due(place, element)?;
        weave_all(
            self.due.as_slice(),
            place,
            arrivals,
            &mut self.alpha,
            self.rules.as_mut_slice(),
            &mut self.held,
            steps,
        )
    }

    /// How many rows and links there are, the dead ones and the unlinked ones too.
    pub(crate) fn count(&self) -> usize
        ensures { RowsHeld result self.now.rules.items self.now.alpha }
    {
        let rows = count_all_rows(self.rules.as_slice());
        rows.saturating_add(count_links(&self.alpha))
    }

    /// Packs all stores and rules. After want of memory some are packed.
    pub(crate) fn pack(&mut self, alloc: Global, arrivals: &Arrivals) -> Result<(), OutOfMemory>
        requires right { IsNetwork arrivals.now.came arrivals.now.places self.old.alpha self.old.rules.items self.old.askers.items self.old.negated_askers.items }
        ensures ok { OnOk result (ArePacked arrivals.now.places self.old.rules.items self.new.rules.items) }
        ensures rows { MayBePacked arrivals.now.places self.old.rules.items self.new.rules.items }
        ensures links { OnOk result (self.new.alpha ≡ map (packed (has_number arrivals.now.places)) self.old.alpha) }
        ensures joins { joins_in self.new.rules.items ≡ joins_in self.old.rules.items }
        ensures right { IsNetwork arrivals.now.came arrivals.now.places self.new.alpha self.new.rules.items self.new.askers.items self.new.negated_askers.items }
    {
        pack_stores(alloc, arrivals, &mut self.alpha)?;
        pack_rules(alloc, arrivals, self.rules.as_mut_slice())
    }

    /// Files an element that came to a place in the stores that it passes, and finds who asks them.
    fn find_due(&mut self, place: u32, element: ElementView<'_>) -> Result<(), OutOfMemory>
        ensures filed { OnOk result (self.new.alpha ≡ map (filed place (element_in element.entry)) self.old.alpha) }
        ensures due { OnOk result (AreAllDue (element_in element.entry) self.old.alpha self.old.askers.items self.new.due.items) }
        ensures negated_due { OnOk result (AreAllDue (element_in element.entry) self.old.alpha self.old.negated_askers.items self.new.negated_due.items) }
        ensures err { OnErr result (AreFiledOrNot place (element_in element.entry) self.old.alpha self.new.alpha) }
        ensures rules { self.new.rules ≡ self.old.rules }
        ensures askers { self.new.askers ≡ self.old.askers }
        ensures negated_askers { self.new.negated_askers ≡ self.old.negated_askers }
        ensures held { RowsHeld self.old.held self.old.rules.items self.old.alpha → RowsHeld self.new.held self.new.rules.items self.new.alpha }
    {
        self.passed.clear();
        self.due.clear();
        self.negated_due.clear();
        let filed = self.alpha.file(place, element, &mut self.passed);
        self.held = self.held.saturating_add(self.passed.len());
        filed?;
        self.collect_due()
    }

    /// Adds those who ask the stores that were passed.
    fn collect_due(&mut self) -> Result<(), OutOfMemory>
        ensures due { OnOk result (self.new.due.items ≡ self.old.due.items ++ flat_map (askers_at self.old.askers.items) self.old.passed.items) }
        ensures negated_due { OnOk result (self.new.negated_due.items ≡ self.old.negated_due.items ++ flat_map (askers_at self.old.negated_askers.items) self.old.passed.items) }
        ensures alpha { self.new.alpha ≡ self.old.alpha }
        ensures rules { self.new.rules ≡ self.old.rules }
        ensures askers { self.new.askers ≡ self.old.askers }
        ensures negated_askers { self.new.negated_askers ≡ self.old.negated_askers }
        ensures held { self.new.held ≡ self.old.held }
    {
        collect(
            self.askers.as_slice(),
            self.passed.as_slice(),
            &mut self.due,
        )?;
        collect(
            self.negated_askers.as_slice(),
            self.passed.as_slice(),
            &mut self.negated_due,
        )
    }
}
