//! One alpha store.

ghost use Rattle.std.specs.Prelude.{◌≡◌, ◌<◌, ◌≤◌, ◌^◌, ◌↔◌, IfOk, IsTrue, OnErr, OnOk, filter, length, reverse};
ghost use Rattle.hash_buckets.specs.Buckets.{numbers_of};
ghost use Rattle.rule_base.specs.Views.{element_in};
ghost use Rattle.alpha_memory.specs.Stores.{attributes_of, cleaned, emptied, packed, with_place, without_entries};

use crate::alike::{same_attributes, same_pattern};
use hash_buckets::{Bucket, Buckets, Living};
use join_tests::{KeyPart, Pattern, element_hash};
use ops_text::{OutOfMemory, Sequence};
use rule_base::ElementView;
use std::alloc::Global;
use std::marker::Model;

/// The places of the elements that pass a pattern, each under the hash of its values at the attributes of
/// a key. Places whose elements have left working memory stay until they are cleaned away.
#[derive(Drop)]
pub struct AlphaStore {
    pattern: Pattern,
    /// What rows look for. Only the attributes count here.
    key: Sequence<KeyPart>,
    /// Whether places are filed at all: nobody may look for them.
    is_kept: bool,
    buckets: Buckets,
}

impl Model for AlphaStore {
    ghost use Rattle.alpha_memory.specs.Stores.{Store, attributes_of};

    ghost Value = { Store };

    ghost view = { λ s. record
        { pattern = s.pattern; attributes = attributes_of s.key; is_kept = s.is_kept; entries = s.buckets.entries } };
}

impl AlphaStore {
    /// A store with nothing in it.
    pub(crate) fn new(
        alloc: Global,
        pattern: &Pattern,
        key: &[KeyPart],
        kept: bool,
    ) -> Result<AlphaStore, OutOfMemory>
        ensures { IfOk result (λ store. store ≡ without_entries pattern.now key.now kept) }
    {
        Ok(AlphaStore {
            pattern: pattern.copy(alloc)?,
            key: Sequence::from_vec(Vec::from_slice(alloc, key)?),
            is_kept: kept,
            buckets: Buckets::new(alloc),
        })
    }

    /// What it asks of elements.
    pub fn pattern(&self) -> &Pattern
        ensures { result.now ≡ self.now.pattern }
    {
        &self.pattern
    }

    /// Whether places are filed here at all.
    pub fn is_kept(&self) -> bool
        ensures { result ≡ self.now.is_kept }
    {
        self.is_kept
    }

    /// The places under a hash, the newest first. It takes no memory, and a constant time for each place.
    pub fn bucket(&self, hash: u64) -> Bucket<'_>
        ensures places { result ≡ reverse (numbers_of self.now.entries hash) }
        ensures few { length result < 2 ^ 32 }
    {
        self.buckets.bucket(hash)
    }

    /// How many links hold the places. Where they are many more than the elements that live, pack.
    pub fn links(&self) -> usize
        ensures { length self.now.entries ≤ result }
    {
        self.buckets.len()
    }

    /// Whether both ask alike.
    pub(crate) fn asks_like(&self, other: &AlphaStore) -> bool
        ensures { IsTrue result ↔ (emptied self.now ≡ emptied other.now) }
    {
        self.is_kept == other.is_kept
            && same_attributes(self.key.as_slice(), other.key.as_slice())
            && same_pattern(&self.pattern, &other.pattern)
    }

    /// Files the place of an element that passes.
    pub(crate) fn file(&mut self, place: u32, element: ElementView<'_>) -> Result<(), OutOfMemory>
        ensures ok { OnOk result (self.new ≡ with_place place (element_in element.entry) self.old) }
        ensures err { OnErr result (self.new ≡ self.old) }
    {
        if self.is_kept {
            let hash = element_hash(self.key.as_slice(), element);
            self.buckets.push(hash, place)?;
        }
        Ok(())
    }

    /// Takes the places that don't live out of the bucket of this hash.
    pub(crate) fn clean<L: Living>(&mut self, hash: u64, living: &L)
        ensures pattern { self.new.pattern ≡ self.old.pattern }
        ensures cleaned { self.new ≡ cleaned hash (L.lives living.now) self.old }
    {
        self.buckets.clean(hash, living);
    }

    /// Takes all places away that don't live, and frees their memory.
    pub(crate) fn pack<L: Living>(&mut self, alloc: Global, living: &L) -> Result<(), OutOfMemory>
        ensures pattern { self.new.pattern ≡ self.old.pattern }
        ensures ok { OnOk result (self.new ≡ packed (L.lives living.now) self.old) }
        ensures err { OnErr result (self.new ≡ self.old) }
    {
        self.buckets.pack(alloc, living)
    }
}
