//! The part of a conflict set that one match network gives.

ghost use Rattle.std.specs.Prelude.{◌≡◌, ℕ, ◌<◌, ◌&&◌, ◌||◌, ◌⊎◌, ◌++◌, ◌∷◌, [], IfOk, IfSome, List, None, OnErr, OnOk, Ok, Some, false, length, not, slice_index_or, true};
ghost use Rattle.std.specs.List.{AllByRecursion};
ghost use Rattle.rule_base.specs.declared.element.Element.{Element};
ghost use Rattle.rule_base.specs.Views.{element_in};
ghost use Rattle.match_network.specs.Arrivals.{Arrivals, with_arrival, without_tag};
ghost use Rattle.match_network.specs.Network.{joins_in};
ghost use Rattle.match_network.specs.Rules.{AreCompiled};
ghost use Rattle.match_network.specs.Touched.{AllGrow, AreNegatedDue, OthersStay};
ghost use Rattle.conflict_parts.specs.declared.standing.Standing.TheVariants.{Marked};
ghost use Rattle.conflict_parts.specs.Change.{HasGrown, NoneWaits};
ghost use Rattle.conflict_parts.specs.Marks.{ends};
ghost use Rattle.conflict_parts.specs.Part.{IsCandidate, IsLivingRow, full_row, full_rows, is_free_row};
ghost use Rattle.conflict_parts.specs.Queue.{IsOpened, same_row};
ghost use Rattle.conflict_parts.specs.Standings.{is_marked, standing_at};

use crate::candidates::next_free;
use crate::opening::open_all;
use crate::queue::wake;
use crate::renewing::settle;
use crate::standing::{RowId, Standing, Standings};
use crate::waiters::Waiters;
use match_network::Network;
use ops_text::OutOfMemory;
use rule_base::{ElementView, Refraction, Rule, Steps};
use std::alloc::Global;
use std::marker::Model;
use std::sync::ledger::Ledger;

/// A network, and how its full matches stand: open ones lie in a queue until somebody looks.
#[derive(Drop)]
pub struct Part {
    network: Network,
    standings: Standings,
    queue: Vec<RowId>,
    waiters: Waiters,
    refraction: Refraction,
}

impl Model for Part {
    ghost use Rattle.conflict_parts.specs.Part.{IsPart, Part};

    ghost Value = { Part };

    ghost view = { λ p. record { network = p.network; standings = p.standings; refraction = p.refraction } };

    ghost invariant = { λ p. IsPart p.network p.standings p.queue.items p.waiters };
}

impl Part {
    /// A part for these rules, by their numbers, without elements.
    pub fn new(alloc: Global, rules: &[Rule], refraction: Refraction) -> Result<Part, OutOfMemory>
        ensures refraction { IfOk result (λ part. part.refraction ≡ refraction) }
        ensures came { IfOk result (λ part. part.network.arrivals.came ≡ []) }
        ensures places { IfOk result (λ part. part.network.arrivals.places ≡ []) }
        ensures compiled { IfOk result (λ part. AreCompiled rules.now part.network.rules) }
        ensures marks { IfOk result (λ part. (rule row : ℕ) → is_marked part.standings rule row ≡ false) }
    {
        let network = Network::new(alloc, rules)?;
        let mut standings = Standings::new(alloc, network.len())?;
        let mut queue = Vec::new(alloc);
        open_all(&network, &mut standings, &mut queue)?;
        Ok(Part {
            network,
            standings,
            queue,
            waiters: Waiters::new(alloc),
            refraction,
        })
    }

    /// A candidate, if there is one: a full match of elements in working memory that is free of its negated
    /// condition elements and isn't marked. It stays one until it is marked or something changes. Looking
    /// goes along the queue, and each full match that it finds blocked then waits, which takes memory.
    pub fn next<L: Ledger>(&mut self, steps: &mut Steps<L>) -> Result<Option<RowId>, OutOfMemory>
        ensures some { IfOk result (λ found. IfSome found (IsCandidate self.new.network self.new.standings)) }
        ensures none { result ≡ Ok None → (rule number : ℕ) (row : List ℕ) → IsLivingRow self.new.network rule number row
            → (standing_at self.new.standings rule number ≡ Some Marked) ⊎ (is_free_row self.new.network rule row ≡ false) }

        // In every case, also after want of memory.
        ensures network { self.new.network ≡ self.old.network }
        ensures refraction { self.new.refraction ≡ self.old.refraction }
        ensures marks { (rule row : ℕ) → is_marked self.new.standings rule row ≡ is_marked self.old.standings rule row }
    {
        next_free(
            &mut self.network,
            &mut self.standings,
            &mut self.queue,
            &mut self.waiters,
            steps,
        )
    }

    /// Marks a full match as fired.
    pub fn mark(&mut self, id: RowId)
        requires { (row : List ℕ) × IsLivingRow self.old.network id.rule id.row row }
        ensures marks { (rule row : ℕ) → is_marked self.new.standings rule row ≡ (is_marked self.old.standings rule row || same_row rule row id) }
        ensures network { self.new.network ≡ self.old.network }
        ensures refraction { self.new.refraction ≡ self.old.refraction }
    {
        self.standings.set(id, Standing::Marked);
    }

    /// Takes in an element. The full matches that it makes stand open; under `Renewed` so do marked ones of
    /// which it stands in the way. After want of memory the element isn't in working memory.
    pub fn add<L: Ledger>(
        &mut self,
        element: ElementView<'_>,
        steps: &mut Steps<L>,
    ) -> Result<(), OutOfMemory>
        requires { AllByRecursion (λ (e : Element). e.tag < element.tag) self.old.network.arrivals.came }
        ensures ok { OnOk result (self.new.network.arrivals ≡ with_arrival self.old.network.arrivals (element_in element.entry)) }
        ensures err { OnErr result (self.new.network.arrivals.places ≡ self.old.network.arrivals.places) }
        ensures joins { joins_in self.new.network.rules ≡ joins_in self.old.network.rules }
        ensures grows { AllGrow self.new.network.arrivals.came (length self.old.network.arrivals.came) self.old.network.rules self.new.network.rules }
        ensures refraction { self.new.refraction ≡ self.old.refraction }

        // The marks of what lives, and after want of memory all of them.
        ensures marks { OnOk result ((rule number : ℕ) (row : List ℕ) → IsLivingRow self.new.network rule number row
            → is_marked self.new.standings rule number ≡ (is_marked self.old.standings rule number && not (ends self.new.refraction self.new.network rule row (length self.old.network.arrivals.came)))) }
        ensures marks_stay { OnErr result ((rule number : ℕ) → is_marked self.new.standings rule number ≡ is_marked self.old.standings rule number) }

        // After want of memory the element may have come, and be dead.
        ensures came { OnErr result ((self.new.network.arrivals.came ≡ self.old.network.arrivals.came)
            ⊎ (self.new.network.arrivals.came ≡ self.old.network.arrivals.came ++ element_in element.entry ∷ [])) }
    {
        let place = self.network.arrivals().len() as u32;
        take_in(&mut self.network, element, steps)?;
        let settled = settle(
            self.refraction,
            &self.network,
            place,
            &mut self.standings,
            &mut self.queue,
        );
        if let Err(want) = settled {
            self.network.remove(element.tag);
            return Err(want);
        }
        Ok(())
    }

    /// Takes the element with this tag out of working memory, if it is there. Those that wait for it are
    /// woken first, which takes memory; after want of it the element is still there.
    pub fn remove(&mut self, tag: u64) -> Result<(), OutOfMemory>
        ensures ok { OnOk result (self.new.network.arrivals ≡ without_tag self.old.network.arrivals tag) }
        ensures rules { self.new.network.rules ≡ self.old.network.rules }
        ensures err { OnErr result (self.new.network ≡ self.old.network) }
        ensures refraction { self.new.refraction ≡ self.old.refraction }
        ensures marks { (rule row : ℕ) → is_marked self.new.standings rule row ≡ is_marked self.old.standings rule row }
    {
        wake_all(
            &self.network,
            &self.waiters,
            tag,
            &mut self.standings,
            &mut self.queue,
        )?;
        self.network.remove(tag);
        Ok(())
    }

    /// The network. Only what is there is marked.
    pub fn network(&self) -> &Network
        ensures network { result.now ≡ self.now.network }
        ensures marks { (rule row : ℕ) → is_marked self.now.standings rule row ≡ true → row < length (full_rows self.now.network.rules rule) }
    {
        &self.network
    }

    /// How a full match stands, if it is there. Where elements have gone or come it may stand as before.
    pub fn standing(&self, id: RowId) -> Option<Standing>
        ensures { result ≡ standing_at self.now.standings id.rule id.row }
    {
        self.standings.at(id)
    }

    /// The places of a full match's elements, in the order of its rule's positive condition elements.
    pub fn row(&self, id: RowId) -> &[u32]
        requires rule { id.rule < length self.now.network.rules }
        requires row { id.row < length (full_rows self.now.network.rules id.rule) }
        ensures { full_row self.now.network.rules id.rule id.row ≡ Some result.now }
    {
        self.network
            .rule(id.rule as usize)
            .whole_row(id.row as usize)
    }
}

/// Takes an element into a network, and tells what becomes of full rows.
fn take_in<L: Ledger>(
    network: &mut Network,
    element: ElementView<'_>,
    steps: &mut Steps<L>,
) -> Result<(), OutOfMemory>
    requires { AllByRecursion (λ (e : Element). e.tag < element.tag) network.old.arrivals.came }
    ensures ok { OnOk result (network.new.arrivals ≡ with_arrival network.old.arrivals (element_in element.entry)) }
    ensures err { OnErr result (network.new.arrivals.places ≡ network.old.arrivals.places) }
    ensures joins { joins_in network.new.rules ≡ joins_in network.old.rules }
    ensures touched { OthersStay network.new.due network.old.rules network.new.rules }
    ensures grows { AllGrow network.new.arrivals.came (length network.old.arrivals.came) network.old.rules network.new.rules }
    ensures came { OnErr result ((network.new.arrivals.came ≡ network.old.arrivals.came)
        ⊎ (network.new.arrivals.came ≡ network.old.arrivals.came ++ element_in element.entry ∷ [])) }
    ensures grown { HasGrown network.old network.new (element_in element.entry) }
    ensures negated_due { OnOk result (AreNegatedDue (element_in element.entry) network.new.rules network.new.negated_due) }
    ensures undone { OnOk result ((left : Arrivals) → left ≡ without_tag network.new.arrivals element.entry.tag → left.places ≡ network.old.arrivals.places) }
{
    // What these tell is known of the network before, and then of the one after.
    network.all_are_right();
    let _came = network.arrivals().len();
    let added = network.add(element, steps);
    network.all_are_right();
    added
}

/// Wakes those that wait for the element with a tag, if it is in working memory.
fn wake_all(
    network: &Network,
    waiters: &Waiters,
    tag: u64,
    standings: &mut Standings,
    queue: &mut Vec<RowId>,
) -> Result<(), OutOfMemory>
    ensures opened { IsOpened standings.old queue.old.items standings.new queue.new.items }
    ensures lengths { (rule : ℕ) → length (slice_index_or standings.new rule []) ≡ length (slice_index_or standings.old rule []) }
    ensures woken { OnOk result (NoneWaits network.now.arrivals tag standings.new waiters.now) }
{
    match network.place_of(tag) {
        Some(place) => wake(waiters, place, standings, queue),
        None => Ok(()),
    }
}
