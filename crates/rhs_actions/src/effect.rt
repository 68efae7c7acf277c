//! What a firing asks for, in flat arrays: however many elements it makes, their values lie in one
//! block, so that an effect which is filled again needs no block of its own.

ghost use Rattle.std.specs.Prelude.{◌≡◌, ℕ, ◌+◌, ◌^◌, ◌≤◌, ◌<◌, ◌==◌, ◌↔◌, [], ◌∷◌, ◌++◌, IfErr, IsTrue, Ok, Err, OnOk, Some, drop, length, replicate, slice_get, take, vec_len};
ghost use Rattle.std.specs.List.{list_any};
ghost use Rattle.rule_base.specs.Value.{nil};
ghost use Rattle.rule_base.specs.Views.{element_in};
ghost use Rattle.rule_base.specs.Term.{after_sets};
ghost use Rattle.rule_base.specs.Effect.{is_gone, modified, removed_tags};
ghost use Rattle.rule_base.specs.Step.{born};
ghost use Rattle.rhs_actions.specs.EffectPlaces.{IsWithin, change_of, changes_in, sizes_of};
ghost use Rattle.rule_base.specs.Memory.{value_count};
ghost use Rattle.rhs_actions.specs.EffectViews.{change_in, no_effect};
ghost use Rattle.rhs_actions.specs.Refusals.{Tells};
ghost use Rattle.rhs_actions.specs.Acting.{made, reached, removed, halted, written};

use crate::refusal::Stop;
use crate::terms::{add_pieces, set_all};
use element_tests::Binds;
use ops_text::OutOfMemory;
use rule_base::{ElementView, FaultCause, Item, Piece, Term, Value};
use std::alloc::Global;
use std::marker::Model;

/// A change: the tag of an element that goes, or where an element that comes lies: its values are so
/// many from a place on.
#[derive(Clone, Copy)]
enum Placed {
    Remove(u64),
    Make {
        start: usize,
        size: usize,
        class: u32,
    },
}

/// One change of an effect, where it lies.
#[derive(Clone, Copy)]
pub enum ChangeView<'a> {
    /// Removes the element with this tag.
    Remove(u64),
    /// Makes an element of the class with these values.
    Make { class: u32, values: &'a [Value] },
}

/// What a firing changes and writes, and whether it halts the run.
#[derive(Drop)]
pub struct Effect {
    values: Vec<Value>,
    changes: Vec<Placed>,
    /// The tags that the changes remove, in order.
    gone: Vec<u64>,
    pieces: Vec<Piece>,
    halts: bool,
}

impl Model for Effect {
    ghost use Rattle.rule_base.specs.Effect.{Effect as TheEffect};
    ghost use Rattle.std.specs.Prelude.{◌≡◌};
    ghost use Rattle.rhs_actions.specs.EffectPlaces.{LieAmong, effect_in, tags_at};

    ghost Value = { TheEffect };

    ghost view = { λ e. effect_in e.values.items e.changes.items e.pieces.items e.halts };

    ghost invariant = { λ e. LieAmong e.values.items e.changes.items × (e.gone.items ≡ tags_at e.changes.items) };
}

impl Effect {
    /// An effect that does nothing, which takes no memory.
    pub fn new(alloc: Global) -> Effect
        ensures { result ≡ no_effect }
    {
        Effect {
            values: Vec::new(alloc),
            changes: Vec::new(alloc),
            gone: Vec::new(alloc),
            pieces: Vec::new(alloc),
            halts: false,
        }
    }

    /// Makes this an effect that does nothing, and keeps the room that it had.
    pub fn clear(&mut self)
        ensures { self.new ≡ no_effect }
    {
        self.values.clear();
        self.changes.clear();
        self.gone.clear();
        self.pieces.clear();
        self.halts = false;
    }

    /// How many changes there are.
    pub fn len(&self) -> usize
        ensures { result ≡ length self.now.changes }
    {
        self.changes.len()
    }

    /// Whether nothing is changed.
    pub fn is_empty(&self) -> bool
        ensures { IsTrue result ↔ (self.now.changes ≡ []) }
    {
        self.changes.is_empty()
    }

    /// How many elements it makes: so many time tags does a commit give. It looks at one change after
    /// another.
    pub fn makes(&self) -> usize
        ensures { (next : ℕ) → length (born next self.now.changes) ≡ result }
    {
        makes(self.changes.as_slice())
    }

    /// How many values these elements have, together. It looks at one change after another.
    pub fn made_values(&self) -> usize
        ensures { (next : ℕ) → value_count (born next self.now.changes) ≡ result }
    {
        made_values(self.changes.as_slice())
    }

    /// The change at a place that counts from 0.
    pub fn change(&self, at: usize) -> ChangeView<'_>
        requires { at < length self.now.changes }
        ensures { slice_get self.now.changes at ≡ Some (change_in result) }
    {
        view(self.values.as_slice(), self.changes[at])
    }

    /// The tags of the elements that it removes, in the order of the changes. They lie so, which is why
    /// it takes no time.
    pub fn removed_tags(&self) -> &[u64]
        ensures { result.now ≡ removed_tags self.now.changes }
    {
        self.gone.as_slice()
    }

    /// The pieces to be written, in order.
    pub fn pieces(&self) -> &[Piece]
        ensures { result.now ≡ self.now.pieces }
    {
        self.pieces.as_slice()
    }

    /// Whether the firing halts the run.
    pub fn halts(&self) -> bool
        ensures { result ≡ self.now.halts }
    {
        self.halts
    }

    /// Whether the firing has removed or modified the element with this tag. It looks at one removed
    /// tag after another.
    pub(crate) fn is_gone(&self, tag: u64) -> bool
        ensures { result ≡ is_gone tag self.now.changes }
    {
        is_among(tag, self.removed_tags())
    }

    /// Notes that the firing halts the run.
    pub(crate) fn halt(&mut self)
        ensures { self.new ≡ halted self.old }
    {
        self.halts = true;
    }

    /// Removes the element with this tag.
    pub(crate) fn remove(&mut self, tag: u64) -> Result<(), OutOfMemory>
        ensures { OnOk result (self.new ≡ removed self.old tag) }
    {
        self.changes.reserve(1)?;
        self.gone.reserve(1)?;
        // From here on nothing fails.
        self.changes.push_reserved(Placed::Remove(tag));
        self.gone.push_reserved(tag);
        Ok(())
    }

    /// Makes an element of the class: its values are nil, but for those that are set.
    pub(crate) fn make(
        &mut self,
        class: u32,
        size: u32,
        sets: &[(u32, Term)],
        binds: &Binds,
    ) -> Result<(), Stop>
        ensures ok { OnOk result
            (made class size sets.now (reached binds.now self.old) ≡
            Ok (reached binds.now self.new)) }
        ensures failed { IfErr result
            (Tells (made class size sets.now (reached binds.now self.old))) }
    {
        let start = self.values.len();
        add_nils(&mut self.values, size)?;
        set_last(&mut self.values, start, sets, binds)?;
        let size = self.values.len() - start;
        self.changes.push(Placed::Make { start, size, class })?;
        Ok(())
    }

    /// Removes the element, and makes one with its values, but for those that are set.
    pub(crate) fn modify(
        &mut self,
        element: ElementView<'_>,
        sets: &[(u32, Term)],
        binds: &Binds,
    ) -> Result<(), Stop>
        ensures ok { OnOk result
            (modified (element_in element.entry) sets.now (reached binds.now self.old) ≡
            Ok (reached binds.now self.new)) }
        ensures failed { IfErr result
            (Tells (modified (element_in element.entry) sets.now (reached binds.now self.old))) }
    {
        let start = self.values.len();
        self.values.extend_from_slice(element.values)?;
        set_last(&mut self.values, start, sets, binds)?;
        let size = self.values.len() - start;
        self.changes.reserve(2)?;
        self.gone.reserve(1)?;
        // From here on nothing fails.
        self.changes.push_reserved(Placed::Remove(element.tag));
        self.changes.push_reserved(Placed::Make {
            start,
            size,
            class: element.class,
        });
        self.gone.push_reserved(element.tag);
        Ok(())
    }

    /// Writes the pieces of items.
    pub(crate) fn write(&mut self, items: &[Item], binds: &Binds) -> Result<(), Stop>
        ensures ok { OnOk result
            (written items.now (reached binds.now self.old) ≡ Ok (reached binds.now self.new)) }
        ensures failed { IfErr result (Tells (written items.now (reached binds.now self.old))) }
    {
        add_pieces(binds, items, &mut self.pieces)
    }
}

/// The change that lies at this place among the values.
fn view(values: &[Value], placed: Placed) -> ChangeView<'_>
    requires { IsWithin values.now placed }
    ensures { change_in result ≡ change_of values.now placed }
{
    match placed {
        Placed::Remove(tag) => ChangeView::Remove(tag),
        Placed::Make { start, size, class } => ChangeView::Make {
            class,
            values: &values[start..start + size],
        },
    }
}

/// How many of the changes are makes, whatever values they have.
fn makes(changes: &[Placed]) -> usize
    ensures { (next : ℕ) → length (born next (changes_in [] changes.now)) ≡ result }
{
    let mut count = 0;
    for change in changes {
        if let Placed::Make { .. } = change {
            count += 1;
        }
    }
    count
}

/// How many values lie at the places of changes.
fn made_values(changes: &[Placed]) -> usize
    requires { sizes_of changes.now < 2 ^ 64 }
    ensures { result ≡ sizes_of changes.now }
{
    let mut count = 0;
    for change in changes {
        if let Placed::Make {
            start: _,
            size,
            class: _,
        } = change
        {
            count += *size;
        }
    }
    count
}

/// Whether the tag is one of these.
fn is_among(tag: u64, tags: &[u64]) -> bool
    ensures { result ≡ list_any (λ other. other == tag) tags.now }
{
    tags.iter().any(|other| *other == tag)
}

/// Adds so many values, each of which is nil.
fn add_nils(values: &mut Vec<Value>, size: u32) -> Result<(), OutOfMemory>
    ensures added { OnOk result (values.new.items ≡ values.old.items ++ replicate size nil) }
    ensures longer { vec_len values.old ≤ vec_len values.new }
{
    values.resize(values.len() + size as usize, Value::Sym(0))
}

/// Puts what settings give among the values from a place on.
fn set_last(
    values: &mut Vec<Value>,
    start: usize,
    sets: &[(u32, Term)],
    binds: &Binds,
) -> Result<(), FaultCause>
    requires { start ≤ vec_len values.old }
    ensures ok { OnOk result
        (after_sets binds.now sets.now (drop start values.old.items) ≡
        Ok (drop start values.new.items)) }
    ensures failed { IfErr result
        (λ cause. after_sets binds.now sets.now (drop start values.old.items) ≡ Err cause) }
    ensures before { take start values.new.items ≡ take start values.old.items }
    ensures long { vec_len values.new ≡ vec_len values.old }
{
    set_all(binds, sets, &mut values.as_mut_slice()[start..])
}
