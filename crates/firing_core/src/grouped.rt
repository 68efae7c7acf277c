//! The elements of a store by the values that negated condition elements ask for. Firings don't fill it:
//! whoever asks has it take in the store first.

ghost use Rattle.std.specs.Prelude.{◌≡◌, ◌∷◌, ◌≤◌, [], IfOk, OnOk, filter, length};
ghost use Rattle.rule_base.specs.Views.{element_in};
ghost use Rattle.working_memory.specs.declared.groups.Key.{Key};
ghost use Rattle.working_memory.specs.Groups.{group};
ghost use Rattle.firing_core.specs.Grouped.{HasGrown, IsGroupingOf, IsInGroups, IsInItsGroups, IsWholeGroupingOf, has_key, key_at};
ghost use Rattle.firing_core.specs.PinnedKeys.{AreOfRules, pinned_key};
ghost use Rattle.firing_core.specs.Store.{Stored, came};
ghost use Rattle.rule_base.specs.Numbers.{has_number};

use crate::pinned_keys::{pinned_attributes, pinned_key};
use crate::store::Store;
use element_tests::Binds;
use ops_text::{OutOfMemory, Sequence};
use rule_base::{Cond, ElementView, Program};
use std::alloc::Global;
use std::marker::Model;
use working_memory::{Groups, Key};

/// The places of a store by the values of their elements at the attributes that negated condition
/// elements compare by `=`. A place whose element has gone stays until its group is cleaned.
#[derive(Drop)]
pub struct Grouped {
    groups: Groups,
    /// How many places of the store it has taken in.
    seen: usize,
    /// For each class the attributes by which its elements are grouped.
    attributes: Vec<Sequence<u32>>,
}

impl Model for Grouped {
    ghost use Rattle.firing_core.specs.Grouped.{Grouping};

    ghost Value = { Grouping };

    ghost view = { λ g. record { groups = g.groups; seen = g.seen; attributes = g.attributes.items } };
}

impl Grouped {
    /// No places, for the attributes that negated condition elements of the program compare by `=`.
    pub fn new(alloc: Global, program: &Program) -> Result<Grouped, OutOfMemory>
        requires classes { length program.now.classes ≤ 256 }
        ensures grouping { IfOk result (λ grouped. (stored : Stored) → IsGroupingOf grouped stored) }
        ensures attributes { IfOk result
            (λ grouped. AreOfRules program.now.rules (length program.now.classes) grouped.attributes) }
    {
        let rules = program.rules.as_slice();
        let attributes = pinned_attributes(alloc, rules, program.classes.len())?;
        Ok(Grouped {
            groups: Groups::new(alloc),
            seen: 0,
            attributes,
        })
    }

    /// Takes in the places that it hasn't seen. Each costs one look-up for each attribute by which its
    /// class is grouped, however many came before. After want of memory it has taken in some of them,
    /// and another call goes on from there.
    pub fn take_in(&mut self, alloc: Global, store: &Store) -> Result<(), OutOfMemory>
        requires { IsGroupingOf self.old store.now }
        ensures attributes { self.new.attributes ≡ self.old.attributes }
        ensures ok { OnOk result (IsWholeGroupingOf self.new store.now) }
        ensures grouping { IsGroupingOf self.new store.now }
    {
        for place in self.seen..store.came() {
            add_place(
                &mut self.groups,
                alloc,
                self.attributes.as_slice(),
                store,
                place,
            )?;
            self.seen = place + 1;
        }
        Ok(())
    }

    /// The key of the elements that the condition element accepts, where it pins them to one.
    pub fn pinned_key(&self, cond: &Cond, binds: &Binds) -> Option<Key>
        ensures { result ≡ pinned_key self.now.attributes binds.now cond.now }
    {
        pinned_key(self.attributes.as_slice(), cond, binds)
    }

    /// The places with this key, and among them some of elements that have gone.
    pub fn group(&self, key: Key) -> &[usize]
        ensures { result.now ≡ group self.now.groups key }
    {
        self.groups.group(key)
    }

    /// Takes the places of elements that have gone out of the group with this key.
    pub fn clean(&mut self, key: Key, store: &Store)
        requires { IsWholeGroupingOf self.old store.now }
        ensures grouping { IsWholeGroupingOf self.new store.now }
        ensures attributes { self.new.attributes ≡ self.old.attributes }
        ensures cleaned { group self.new.groups key
            ≡ filter (has_number store.now.places) (group self.old.groups key) }
    {
        self.groups.clean(key, store.memory());
    }
}

/// Adds a place to the groups of the keys that its element has, if that is in working memory.
fn add_place(
    groups: &mut Groups,
    alloc: Global,
    attributes: &[Sequence<u32>],
    store: &Store,
    place: usize,
) -> Result<(), OutOfMemory>
    ensures ok { OnOk result (IsInItsGroups groups.new attributes.now store.now place) }
    ensures grown { HasGrown groups.old groups.new }
{
    let Some(element) = store.living(place) else {
        return Ok(());
    };
    match attributes.get(element.class as usize) {
        Some(of_class) => add_element(groups, alloc, of_class.as_slice(), place, element),
        None => Ok(()),
    }
}

/// Adds a place to the groups of the keys that the element has by these attributes.
fn add_element(
    groups: &mut Groups,
    alloc: Global,
    attributes: &[u32],
    place: usize,
    element: ElementView<'_>,
) -> Result<(), OutOfMemory>
    ensures ok { OnOk result (IsInGroups groups.new attributes.now (element_in element.entry) place) }
    ensures grown { HasGrown groups.old groups.new }
{
    for attribute in attributes {
        add_by(groups, alloc, *attribute, place, element)?;
    }
    Ok(())
}

/// Adds a place to the group of the key that the element has by the attribute, if it has that.
fn add_by(
    groups: &mut Groups,
    alloc: Global,
    attribute: u32,
    place: usize,
    element: ElementView<'_>,
) -> Result<(), OutOfMemory>
    ensures ok { OnOk result (IsInGroups groups.new (attribute ∷ []) (element_in element.entry) place) }
    ensures grown { HasGrown groups.old groups.new }
{
    match key_at(element, attribute) {
        Some(key) => groups.add(alloc, key, place),
        None => Ok(()),
    }
}

/// The key that the element has by the attribute, if it has that.
fn key_at(element: ElementView<'_>, attribute: u32) -> Option<Key>
    ensures { result ≡ key_at (element_in element.entry) attribute }
{
    match element.values.get(attribute as usize) {
        Some(value) => Some(Key {
            class: element.class,
            attribute,
            value: *value,
        }),
        None => None,
    }
}
