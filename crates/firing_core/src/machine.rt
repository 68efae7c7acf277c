//! The core: a program, the base that a run begins from, how far the run has come, and the claims that
//! stand.

ghost use Rattle.std.specs.Prelude.{◌≡◌, ◌+◌, ◌*◌, ◌<◌, ◌≤◌, ◌↔◌, [], true, None, Ok, Err, Some, IfErr, IfOk, IsTrue, OnOk, OnErr, drop, is_ok, is_some, length, option_map};
ghost use Rattle.commit_journal.specs.Entries.{born_in};
ghost use Rattle.std.specs.Option.{option_copied};
ghost use Rattle.std.specs.Result.{result_err};
ghost use Rattle.rule_base.specs.Sound.{IsSound};
ghost use Rattle.rule_base.specs.State.{count, start};
ghost use Rattle.rule_base.specs.Step.{effect_of, may_fire, matches};
ghost use Rattle.rule_base.specs.Base.{IsLawfulBase};
ghost use Rattle.rule_base.specs.Ending.{IsBudget};
ghost use Rattle.rule_base.specs.Memory.{element_at};
ghost use Rattle.rule_base.specs.Views.{element_in};
ghost use Rattle.rule_base.specs.Fits.{Fits};
ghost use Rattle.interference.specs.Footprint.{footprint};
ghost use Rattle.firing_core.specs.CoreState.{IsRunOf, ended, looked};
ghost use Rattle.rule_base.specs.State.{has_fired, same_choice};
ghost use Rattle.rule_base.specs.declared.instantiation.Choice.{Choice};
ghost use Rattle.std.specs.List.{list_any};
ghost use Rattle.firing_core.specs.FiredChoices.{AreInOrder};
ghost use Rattle.firing_core.specs.Refusals.{busy_lock, claim_refusal, crowding, failing_condition};
ghost use Rattle.firing_core.specs.Lawful.{IsLawful};
ghost use Rattle.firing_core.specs.declared.claims.Event.TheVariants as event;
ghost use Rattle.firing_core.specs.Answers.{TellsWhy, after_ending, claim_of, commit_refusal, is_granted, turned_away};
ghost use Rattle.firing_core.specs.Clear.{IsClear, IsNotBusy};
ghost use Rattle.firing_core.specs.Events.{apply, with_claim, without_claim, without_claims};
ghost use Rattle.firing_core.specs.Firing.{Fires, TellsFault};

use crate::claims::{ClaimRefusal, CommitRefusal, FaultSeen, Foreign, How};
use crate::failing::failing_condition;
use crate::fired::is_fired;
use crate::fired_choices::all_fired;
use crate::gone::gone_tag;
use crate::grant::Grant;
use crate::grouped::Grouped;
use crate::same::same_elements;
use crate::store::Store;
use crate::workbench::Workbench;
use commit_journal::{Journal, Room, room_of};
use element_tests::Binds;
use interference::{Splits, footprint};
use ops_text::{OutOfMemory, Sequence};
use refraction_index::RefractionIndex;
use rhs_actions::{Delta, Effect, EffectRefusal, Failed, fire_into};
use rule_base::{
    Base, Busy, Candidate, Choice, ElementView, Elements, FaultCause, Mode, Program, Refraction,
    Steps,
};
use standing_claims::{Claim, Standing};
use std::alloc::Global;
use std::marker::Model;
use std::sync::Arc;
use std::sync::ledger::Ledger;

/// A run of the recognise-act machine that can go on, with the claims that stand on it and the fault that
/// ended it, if one did. It keeps that its state is where its journal leads from its base, and that each
/// claim could fire and is in no other's way.
#[derive(Drop)]
pub struct Core {
    program: Arc<Program>,
    budget: u64,
    store: Store,
    halted: bool,
    fault: Option<FaultSeen>,
    claims: Standing,
    /// What the commit of any claim may need: the store has room for so much for each that stands.
    most: Room,
    splits: Splits,
    /// When choices last fired. Firings don't fill it: whoever asks has it take in the journal first.
    index: RefractionIndex,
    /// The elements by the values that negated condition elements ask for. Firings don't fill it either.
    grouped: Grouped,
    /// Room for the bindings of a match.
    binds: Binds,
}

impl Model for Core {
    ghost use Rattle.firing_core.specs.CoreState.{CoreState};
    ghost use Rattle.rule_base.specs.contracts.expression.Operand as operand;
    ghost use Rattle.std.specs.Coded.{codes};

    ghost Value = { CoreState };

    ghost coded = { Prim.hlevel (codes, operand.the_row.coded) };

    ghost use Rattle.firing_core.specs.CoreFields.{core_in, HoldsKept};

    ghost view = { core_in };

    ghost invariant = { HoldsKept };
}

impl Core {
    /// A core at the beginning of a run from a base. It takes time in proportion to the number of its
    /// elements and fired choices, and copies no element; and it goes through the program, once for each
    /// attribute of a class.
    pub fn new(
        alloc: Global,
        program: Arc<Program>,
        base: Base,
        budget: u64,
    ) -> Result<Core, OutOfMemory>
        requires sound { IsSound program.value }
        requires lawful { IsLawfulBase program.value base }
        requires budget { IsBudget budget }
        ensures run { IfOk result (IsRunOf program.value base budget) }
        ensures begins { IfOk result (λ core. core.state ≡ start base) }
        ensures claims { IfOk result (λ core. (core.claims ≡ []) × (core.given ≡ 0)) }
        ensures fault { IfOk result (λ core. core.fault ≡ None) }
    {
        let binds = Binds::new(alloc, 0)?;
        let splits = Splits::new(alloc, &program)?;
        let most = room_of(&program)?;
        let grouped = Grouped::new(alloc, &program)?;
        let index = RefractionIndex::new(alloc, base.fired.as_slice())?;
        let store = Store::new(alloc, base)?;
        Ok(Core {
            program,
            budget,
            store,
            halted: false,
            fault: None,
            claims: Standing::new(alloc),
            most,
            splits,
            index,
            grouped,
            binds,
        })
    }

    /// The next time tag.
    pub fn next(&self) -> u64
        ensures { result ≡ self.now.state.next }
    {
        self.store.journal().next()
    }

    /// How many firings there were.
    pub fn count(&self) -> u64
        ensures value { result ≡ count self.now.state }
        ensures lawful { IsLawful self.now }
    {
        self.store.journal().len() as u64
    }

    /// How many elements are in working memory.
    pub fn memory_len(&self) -> usize
        ensures { result ≡ length self.now.state.memory }
    {
        self.store.len()
    }

    /// The elements of the working memory, in rising order of their tags, as values of their own.
    pub fn copy_memory(&self, alloc: Global) -> Result<Elements, OutOfMemory>
        ensures { IfOk result (λ elements. elements ≡ self.now.state.memory) }
    {
        let mut elements = Elements::new(alloc);
        self.store.add_to(&mut elements)?;
        Ok(elements)
    }

    /// The element of the working memory with this tag, if there is one. One that was made is found at
    /// once, and one of the base by halving.
    pub fn element(&self, tag: u64) -> Option<ElementView<'_>>
        ensures { option_map element_in result ≡ element_at self.now.state.memory tag }
    {
        self.store.element(tag)
    }

    /// The journal: an entry for each firing, in order.
    pub fn journal(&self) -> &Journal
        ensures entries { result.now.entries ≡ self.now.state.entries }
        ensures next { result.now.next ≡ self.now.state.next }
    {
        self.store.journal()
    }

    /// When a choice that has fired may fire again, as the base says.
    pub fn refraction(&self) -> Refraction
        ensures { result ≡ self.now.state.refraction }
    {
        self.store.base().refraction
    }

    /// The fault of a firing, where there was one.
    pub fn fault_seen(&self) -> Option<&FaultSeen>
        ensures value { option_copied result ≡ self.now.fault }
        ensures lawful { IsLawful self.now }
    {
        self.fault.as_ref()
    }

    /// The program that the core runs.
    pub fn program(&self) -> &Arc<Program>
        ensures { result.now.value ≡ self.now.program }
    {
        &self.program
    }

    /// So many entries of the journal from a place on, or all from there where there are fewer, as a
    /// journal of its own. What stands before them costs nothing.
    pub fn look(&self, alloc: Global, position: u64, most: u32) -> Result<Journal, OutOfMemory>
        ensures entries { IfOk result (λ some. some.entries ≡ looked self.now position most) }

        // Elements that are born behind it have the tags that go on from there.
        ensures next { IfOk result (λ some. some.next
            + length (born_in (drop most (drop position self.now.state.entries))) ≡ self.now.state.next) }
    {
        self.store.journal().stretch(alloc, position, most)
    }

    /// How the core has ended, if it has.
    pub fn ended(&self) -> Option<How>
        ensures how { result ≡ ended self.now }
        ensures lawful { IsLawful self.now }
    {
        if self.halted {
            Some(How::Halted)
        } else if self.count() == self.budget {
            Some(How::Budget)
        } else if self.fault.is_some() {
            Some(How::Fault)
        } else {
            None
        }
    }

    /// The first lock that a candidate asks for and on which the claims that stand leave no room for it,
    /// if there is one: one look-up for each lock. `room` then has the candidate's footprint; after want
    /// of memory what it has is of no use.
    pub fn busy(
        &self,
        candidate: &Candidate,
        room: &mut Vec<(u32, Mode)>,
    ) -> Result<Option<Busy>, OutOfMemory>
        requires { Fits self.now.program candidate.now }
        ensures busy { IfOk result (λ busy. busy ≡ busy_lock self.now candidate.now) }
        ensures room { OnOk result (room.new.items ≡ footprint self.now.program candidate.now) }
        ensures lawful { IsLawful self.now }
    {
        footprint(&self.program, &self.splits, candidate, room)?;
        Ok(self.claims.busy(room.as_slice()))
    }

    /// Why a candidate can't be claimed, if it can't: the first of the reasons, in their order. `room` then
    /// has the candidate's footprint.
    pub fn refusal(
        &mut self,
        alloc: Global,
        candidate: &Candidate,
        room: &mut Vec<(u32, Mode)>,
    ) -> Result<Option<ClaimRefusal>, OutOfMemory>
        requires { Fits self.old.program candidate.now }
        ensures refusal { IfOk result (λ refusal. refusal ≡ claim_refusal self.old candidate.now) }
        ensures room { OnOk result (room.new.items ≡ footprint self.old.program candidate.now) }
        ensures same { self.new ≡ self.old }
    {
        if let Some(busy) = self.busy(candidate, room)? {
            return Ok(Some(ClaimRefusal::Busy(busy)));
        }
        self.refusal_but_busy(alloc, candidate)
    }

    /// The same, where no lock is busy.
    fn refusal_but_busy(
        &mut self,
        alloc: Global,
        candidate: &Candidate,
    ) -> Result<Option<ClaimRefusal>, OutOfMemory>
        requires fits { Fits self.old.program candidate.now }
        requires free { busy_lock self.old candidate.now ≡ None }
        ensures refusal { IfOk result (λ refusal. refusal ≡ claim_refusal self.old candidate.now) }
        ensures same { self.new ≡ self.old }
    {
        if let Some(how) = self.ended() {
            return Ok(Some(ClaimRefusal::Ended(how)));
        }
        if let Some(tag) = gone_tag(&self.store, &candidate.elements) {
            return Ok(Some(ClaimRefusal::Gone { tag }));
        }
        let choice = &candidate.choice;
        if let Some(condition) = self.failing(alloc, choice)? {
            return Ok(Some(ClaimRefusal::Unmatched { condition }));
        }
        if self.has_fired(alloc, choice)? {
            return Ok(Some(ClaimRefusal::Fired));
        }
        Ok(self.crowded(choice))
    }

    /// The number of the first condition element of the choice's rule that fails, from 1, if one does. It
    /// has the groups take in the elements that came since they were last asked.
    fn failing(&mut self, alloc: Global, choice: &Choice) -> Result<Option<u32>, OutOfMemory>
        ensures failing { IfOk result (λ number. number
            ≡ failing_condition self.old.program self.old.state.memory choice.now) }
        ensures same { self.new ≡ self.old }
    {
        self.grouped.take_in(alloc, &self.store)?;
        failing_condition(
            &self.program,
            &self.store,
            &mut self.grouped,
            choice,
            &mut self.binds,
        )
    }

    /// Whether a choice that matches has fired. It is one look-up under `Once`, once the index has taken in
    /// the journal, which costs a step for each entry that it hasn't seen.
    fn has_fired(&mut self, alloc: Global, choice: &Choice) -> Result<bool, OutOfMemory>
        requires { matches self.old.program self.old.state.memory choice.now ≡ true }
        ensures fired { IfOk result (λ is. is ≡ has_fired self.old.state choice.now) }
        ensures same { self.new ≡ self.old }
    {
        self.index.take_in(alloc, self.store.journal())?;
        is_fired(
            &self.program,
            &self.store,
            &mut self.index,
            choice,
            &mut self.binds,
        )
    }

    /// The choices that are fired, in rising order of their rules' numbers and then of their tags. It takes
    /// time n log n in the number of choices that had fired at some time, of which it makes copies, and
    /// under `Renewed` a match for each, also beside what was born since it last fired.
    pub fn fired(&mut self, alloc: Global) -> Result<Sequence<Choice>, OutOfMemory>
        ensures fired { IfOk result (λ choices. (c : Choice) →
            list_any (same_choice c) choices ≡ has_fired self.old.state c) }
        ensures order { IfOk result AreInOrder }
        ensures lawful { IsLawful self.old }
        ensures same { self.new ≡ self.old }
    {
        self.index.take_in(alloc, self.store.journal())?;
        self.grouped.take_in(alloc, &self.store)?;
        all_fired(
            alloc,
            &self.program,
            &self.store,
            &mut self.grouped,
            &mut self.index,
            &mut self.binds,
        )
    }

    /// Why no further claim of the choice may stand, if none may.
    fn crowded(&self, choice: &Choice) -> Option<ClaimRefusal>
        ensures { result ≡ crowding self.now choice.now }
    {
        if let Some(number) = self.claims.of_choice(choice) {
            return Some(ClaimRefusal::Claimed { number });
        }
        if self.claims.is_full() {
            return Some(ClaimRefusal::Full {
                given: self.claims.given(),
                standing: self.claims.len() as u64,
            });
        }
        None
    }

    /// Claims a candidate, so that its right-hand side can be evaluated away from the core: its choice
    /// stays in the conflict set and unfired until the claim ends. The room that its commit needs is made
    /// here. A refusal tells the first of its reasons, in their order.
    pub fn claim(&mut self, alloc: Global, candidate: &Candidate) -> Result<Grant, ClaimRefusal>
        requires fits { Fits self.old.program candidate.now }
        ensures claimed { OnOk result
            (apply self.old (event.Claimed candidate.now) ≡ Some self.new) }
        ensures grant { IfOk result (λ grant. grant ≡ record {
          program = self.old.program;
          number = self.old.given + 1;
          candidate = candidate.now;
        }) }
        ensures refused { IfErr result (TellsWhy self.old candidate.now) }
        ensures lawful { IsLawful self.old }
        ensures same { OnErr result (self.new ≡ self.old) }
    {
        let mut room = Vec::new(alloc);
        match self.busy(candidate, &mut room)? {
            Some(busy) => Err(ClaimRefusal::Busy(busy)),
            None => self.claim_asked(alloc, candidate, room),
        }
    }

    /// Claims a candidate whose footprint is known to clash with no claim that stands, so that no lock is
    /// busy and none is looked up.
    pub fn claim_clear(
        &mut self,
        alloc: Global,
        candidate: &Candidate,
    ) -> Result<Grant, ClaimRefusal>
        requires fits { Fits self.old.program candidate.now }
        requires clear { IsClear self.old candidate.now }
        ensures claimed { OnOk result
            (apply self.old (event.Claimed candidate.now) ≡ Some self.new) }
        ensures grant { IfOk result (λ grant. grant ≡ record {
          program = self.old.program;
          number = self.old.given + 1;
          candidate = candidate.now;
        }) }
        ensures refused { IfErr result (TellsWhy self.old candidate.now) }
        ensures not_busy { IfErr result IsNotBusy }
        ensures lawful { IsLawful self.old }
        ensures same { OnErr result (self.new ≡ self.old) }
    {
        let mut room = Vec::new(alloc);
        footprint(&self.program, &self.splits, candidate, &mut room)?;
        self.claim_asked(alloc, candidate, room)
    }

    /// Claims a candidate that asks for these locks, none of which is busy.
    fn claim_asked(
        &mut self,
        alloc: Global,
        candidate: &Candidate,
        asked: Vec<(u32, Mode)>,
    ) -> Result<Grant, ClaimRefusal>
        requires fits { Fits self.old.program candidate.now }
        requires free { busy_lock self.old candidate.now ≡ None }
        requires asked { asked.items ≡ footprint self.old.program candidate.now }
        ensures claimed { OnOk result
            (apply self.old (event.Claimed candidate.now) ≡ Some self.new) }
        ensures grant { IfOk result (λ grant. grant ≡ record {
          program = self.old.program;
          number = self.old.given + 1;
          candidate = candidate.now;
        }) }
        ensures refused { IfErr result (TellsWhy self.old candidate.now) }
        ensures not_busy { IfErr result IsNotBusy }
        ensures same { OnErr result (self.new ≡ self.old) }
    {
        match self.refusal_but_busy(alloc, candidate)? {
            Some(refusal) => Err(refusal),
            None => Ok(self.grant(alloc, candidate, asked)?),
        }
    }

    /// Makes the claim of a candidate that nothing refuses.
    fn grant(
        &mut self,
        alloc: Global,
        candidate: &Candidate,
        asked: Vec<(u32, Mode)>,
    ) -> Result<Grant, OutOfMemory>
        requires fits { Fits self.old.program candidate.now }
        requires free { claim_refusal self.old candidate.now ≡ None }
        requires asked { asked.items ≡ footprint self.old.program candidate.now }
        ensures claimed { OnOk result (self.new ≡ with_claim self.old candidate.now) }
        ensures grant { IfOk result (λ grant. grant ≡ record {
          program = self.old.program;
          number = self.old.given + 1;
          candidate = candidate.now;
        }) }
        ensures same { OnErr result (self.new ≡ self.old) }
    {
        let program = Arc::try_clone(&self.program)?;
        let claimed = candidate.copy(alloc)?;
        let granted = candidate.copy(alloc)?;
        let needed = self.most.times(self.claims.len() + 1)?;
        self.store.reserve(needed)?;
        self.claims.reserve()?;
        // From here on nothing fails.
        let number = self.claims.add(claimed, asked);
        Ok(Grant::new(program, number, granted))
    }

    /// Commits the firing of a claim, which then ends, and answers the place of its entry in the journal,
    /// which counts from 0. Nothing is matched again, and no memory is taken. The claim is found by looking
    /// at one after another, and its locks are given back, which isn't counted. After `Foreign` the grant is
    /// spent: a claim that it was of stands until all are dropped.
    pub fn commit<L: Ledger>(
        &mut self,
        grant: Grant,
        delta: Delta,
        steps: &mut Steps<L>,
    ) -> Result<u64, CommitRefusal>
        requires program { delta.program ≡ self.old.program }
        ensures refusal { result_err result
            ≡ commit_refusal self.old grant delta.rule delta.elements }
        ensures place { IfOk result (λ place. place ≡ count self.old.state) }
        ensures after { after_ending self.old grant.number (event.Committed grant.number)
            (result_err result) ≡ Some self.new }
        ensures lawful { IsLawful self.old }
        ensures steps { steps.new ≤ steps.old + 4 * length delta.effect.changes + 4 }
    {
        match self.turn_away(&grant, delta.rule_number(), delta.elements()) {
            Some(refusal) => Err(refusal),
            None => Ok(self.commit_claim(&grant, delta.effect(), steps)),
        }
    }

    /// Ends the core by the failure of a claim's firing. The claim ends, and no memory is taken. It costs what
    /// a commit that changes nothing costs.
    pub fn fault(&mut self, grant: Grant, failed: Failed) -> Result<(), CommitRefusal>
        requires program { failed.program ≡ self.old.program }
        ensures refusal { result_err result
            ≡ commit_refusal self.old grant failed.rule failed.elements }
        ensures after { after_ending self.old grant.number (event.Faulted grant.number)
            (result_err result) ≡ Some self.new }
        ensures lawful { IsLawful self.old }
    {
        match self.turn_away(&grant, failed.rule_number(), failed.elements()) {
            Some(refusal) => Err(refusal),
            None => {
                self.keep_fault(grant, failed.action(), failed.cause());
                Ok(())
            }
        }
    }

    /// Takes the claim of a grant away, also where the core has ended. It takes no memory.
    pub fn drop_claim(&mut self, grant: Grant) -> Result<(), Foreign>
        ensures stands { is_ok result ≡ is_some (claim_of self.old grant) }
        ensures lawful { IsLawful self.old }
        ensures dropped { OnOk result
            (apply self.old (event.Dropped grant.number) ≡ Some self.new) }
        ensures same { OnErr result (self.new ≡ self.old) }
    {
        if self.claim_of(&grant).is_none() {
            return Err(Foreign);
        }
        self.take_away(grant.number());
        Ok(())
    }

    /// Takes every claim away, so that numbers are given from 1 on again. It takes no memory.
    pub fn drop_all(&mut self)
        ensures { self.new ≡ without_claims self.old }
    {
        self.claims.clear();
    }

    /// The claim of a grant, if it stands.
    fn claim_of(&self, grant: &Grant) -> Option<&Claim>
        ensures claim { option_copied result ≡ claim_of self.now grant.now }
        ensures lawful { IsLawful self.now }
    {
        match self.claims.with_number(grant.number()) {
            Some(claim) if claim.candidate.choice.same(grant.choice()) => Some(claim),
            _ => None,
        }
    }

    /// Whether the claim of a grant stands and is for a firing of this rule on these elements.
    fn is_granted(&self, grant: &Grant, rule: u32, elements: &Elements) -> bool
        ensures { result ≡ is_granted self.now grant.now rule elements.now }
    {
        match self.claim_of(grant) {
            Some(claim) => {
                rule == claim.candidate.choice.rule
                    && same_elements(elements, &claim.candidate.elements)
            }
            None => false,
        }
    }

    /// Why such a firing can't end the claim of a grant, if it can't. Where the core has ended, the claim
    /// is dropped.
    fn turn_away(&mut self, grant: &Grant, rule: u32, elements: &Elements) -> Option<CommitRefusal>
        ensures refusal { result ≡ commit_refusal self.old grant.now rule elements.now }
        ensures after { self.new ≡ turned_away self.old grant.now.number result }
        ensures lawful { IsLawful self.old }
    {
        let ended = self.ended();
        if !self.is_granted(grant, rule, elements) {
            return Some(CommitRefusal::Foreign);
        }
        match ended {
            Some(how) => {
                self.take_away(grant.number());
                Some(CommitRefusal::Ended(how))
            }
            None => None,
        }
    }

    /// Commits the firing of a claim that stands, with its effect.
    fn commit_claim<L: Ledger>(
        &mut self,
        grant: &Grant,
        effect: &Effect,
        steps: &mut Steps<L>,
    ) -> u64
        requires going { ended self.old ≡ None }
        requires stands { is_some (claim_of self.old grant.now) ≡ true }
        requires effect { effect_of self.old.program self.old.state.memory grant.now.candidate.choice ≡ Some (Ok effect.now) }
        ensures place { result ≡ count self.old.state }
        ensures after { apply self.old (event.Committed grant.now.number) ≡ Some self.new }
        ensures steps { steps.new ≤ steps.old + 4 * length effect.now.changes + 4 }
    {
        let place = self.count();
        let claim = grant.number();
        let choice = grant.choice();
        self.halted = effect.halts();
        self.store
            .commit(choice.rule, choice.tags.as_slice(), effect, steps);
        self.claims.remove(claim);
        place
    }

    /// Keeps the failure of the firing of a claim that stands.
    fn keep_fault(&mut self, grant: Grant, action: u32, cause: FaultCause)
        requires going { ended self.old ≡ None }
        requires stands { is_some (claim_of self.old grant) ≡ true }
        requires fails { effect_of self.old.program self.old.state.memory grant.candidate.choice
            ≡ Some (Err (record { action = action; cause = cause })) }
        ensures { apply self.old (event.Faulted grant.number) ≡ Some self.new }
    {
        self.claims.remove(grant.number());
        self.fault = Some(FaultSeen {
            choice: grant.into_choice(),
            action,
            cause,
        });
    }

    /// Takes the claim with this number away, if it stands.
    fn take_away(&mut self, number: u64)
        ensures { self.new ≡ without_claim self.old number }
    {
        self.claims.remove(number);
    }

    /// The journal of a run that goes on no more.
    pub fn into_journal(self) -> Journal
        ensures entries { result.entries ≡ self.state.entries }
        ensures next { result.next ≡ self.state.next }
    {
        self.store.into_journal()
    }

    /// Evaluates the right-hand side of a choice that matches. Its effect then lies on the bench.
    pub fn evaluate(&self, choice: &Choice, bench: &mut Workbench) -> Result<(), EffectRefusal>
        requires { matches self.now.program self.now.state.memory choice.now ≡ true }
        ensures ok { OnOk result
            (effect_of self.now.program self.now.state.memory choice.now ≡ Some (Ok bench.new.effect)) }
        ensures failed { IfErr result
            (TellsFault (effect_of self.now.program self.now.state.memory choice.now)) }
    {
        let rule = &self.program.rules.as_slice()[choice.rule as usize];
        bench.lay_out(&self.store, choice.tags.as_slice())?;
        fire_into(rule, &bench.elements, &mut bench.binds, &mut bench.effect)
    }

    /// Fires a choice with its effect, which is one step of the machine, and answers the place of its
    /// entry in the journal, which counts from 0. The caller knows that no claim stands and that the choice
    /// may fire, so nothing is matched again and no lock is taken. It takes memory only where the journal or
    /// the working memory has to grow, and after want of it all is as before.
    pub fn fire<L: Ledger>(
        &mut self,
        choice: &Choice,
        effect: &Effect,
        steps: &mut Steps<L>,
    ) -> Result<u64, OutOfMemory>
        requires alone { self.old.claims ≡ [] }
        requires going { ended self.old ≡ None }
        requires may_fire { may_fire self.old.program self.old.state choice.now ≡ true }
        requires effect { effect_of self.old.program self.old.state.memory choice.now ≡ Some (Ok effect.now) }
        ensures fires { OnOk result (Fires self.old self.new choice.now) }
        ensures place { IfOk result (λ place. place ≡ count self.old.state) }
        ensures err { OnErr result (self.new ≡ self.old) }
        ensures steps { steps.new ≤ steps.old + 4 * length effect.now.changes + 4 }
    {
        let place = self.count();
        let tags = choice.tags.as_slice();
        self.store.reserve(Room::for_effect(tags, effect))?;
        // From here on nothing fails.
        self.halted = self.halted || effect.halts();
        self.store.commit(choice.rule, tags, effect, steps);
        Ok(place)
    }
}
