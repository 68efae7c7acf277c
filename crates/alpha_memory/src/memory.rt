//! All alpha stores of a program.

ghost use Rattle.std.specs.Prelude.{◌≡◌, ℕ, ◌+◌, ◌<◌, ◌≤◌, ◌^◌, ◌⊎◌, [], ◌∷◌, ◌++◌, ◌==◌, IfOk, IfSome, OnErr, OnOk, None, Some, if◌then◌else◌, length, map, slice_get};
ghost use Rattle.rule_base.specs.Views.{element_in};
ghost use Rattle.alpha_memory.specs.Dispatch.{IsDispatched, patterns_of};
ghost use Rattle.alpha_memory.specs.Stores.{AreFiledOrNot, Serves, admits, cleaned, filed, has_at, packed, places_filed, with_change, without_entries};
ghost use Rattle.alpha_memory.specs.Times.{times};

use crate::dispatch::{dispatch_hash, dispatch_of, list_dispatch};
use crate::filing::{file_in_all, find_alike, find_all};
use crate::store::AlphaStore;
use hash_buckets::{Buckets, Living};
use join_tests::{KeyPart, Pattern};
use ops_text::OutOfMemory;
use rule_base::ElementView;
use std::alloc::Global;
use std::marker::Model;

/// The alpha stores by number, and what leads from an element to those that may let it in: its class, and
/// its value at an attribute.
#[derive(Drop)]
pub struct AlphaMemory {
    stores: Vec<AlphaStore>,
    /// The numbers of stores, each once, by the hash of what leads there.
    numbers: Buckets,
    /// For each class, the attributes at which values lead to stores, each once.
    attributes: Buckets,
}

impl Model for AlphaMemory {
    ghost use Rattle.std.specs.Prelude.{List};
    ghost use Rattle.alpha_memory.specs.Dispatch.{IsDispatched, patterns_of};
    ghost use Rattle.alpha_memory.specs.Stores.{Store};

    ghost Value = { List Store };

    ghost view = { λ m. m.stores.items };

    ghost invariant = { λ m. IsDispatched (patterns_of m.stores.items) m.numbers.entries m.attributes.entries };
}

impl AlphaMemory {
    /// No stores, which takes no memory.
    pub fn new(alloc: Global) -> AlphaMemory
        ensures { result ≡ [] }
    {
        AlphaMemory {
            stores: Vec::new(alloc),
            numbers: Buckets::new(alloc),
            attributes: Buckets::new(alloc),
        }
    }

    /// How many stores there are.
    pub fn len(&self) -> usize
        ensures value { result ≡ length self.now }
        ensures few { length self.now < 2 ^ 32 }
    {
        self.stores.len()
    }

    /// The store with this number.
    pub fn store(&self, number: u32) -> &AlphaStore
        requires { number < length self.now }
        ensures { slice_get self.now number ≡ Some result.now }
    {
        &self.stores[number as usize]
    }

    /// The number of a store that asks for this: of one that there is, or else of a new one with nothing in
    /// it. It looks only at stores to which the same class and constant lead. It also fails where there are
    /// 2^32 - 1 stores.
    pub fn ask(
        &mut self,
        alloc: Global,
        pattern: &Pattern,
        key: &[KeyPart],
        kept: bool,
    ) -> Result<u32, OutOfMemory>
        ensures serves { IfOk result (Serves (without_entries pattern.now key.now kept) self.new) }
        ensures shared { (n : ℕ) → Serves (without_entries pattern.now key.now kept) self.old n
            → self.new ≡ self.old }
        ensures grows { OnOk result ((self.new ≡ self.old)
            ⊎ (self.new ≡ self.old ++ without_entries pattern.now key.now kept ∷ [])) }
        ensures err { OnErr result (self.new ≡ self.old) }
    {
        let wanted = AlphaStore::new(alloc, pattern, key, kept)?;
        match self.find(&wanted) {
            Some(number) => Ok(number),
            None => self.add(wanted),
        }
    }

    /// A store that asks like another one, if there is one.
    fn find(&self, wanted: &AlphaStore) -> Option<u32>
        ensures some { IfSome result (Serves wanted.now self.now) }
        ensures none { result ≡ None → (n : ℕ) → ¬ (Serves wanted.now self.now n) }
    {
        let pattern = wanted.pattern();
        let hash = dispatch_hash(pattern.class, dispatch_of(pattern.tests.as_slice()));
        find_alike(self.stores.as_slice(), self.numbers.bucket(hash), wanted)
    }

    /// Adds a store, and answers its number.
    fn add(&mut self, store: AlphaStore) -> Result<u32, OutOfMemory>
        ensures number { IfOk result (λ number. number ≡ length self.old) }
        ensures ok { OnOk result (self.new ≡ self.old ++ store ∷ []) }
        ensures err { OnErr result (self.new ≡ self.old) }
    {
        let number = self.stores.len();
        if number >= u32::MAX as usize {
            return Err(OutOfMemory);
        }
        let class = store.pattern().class;
        let dispatch = dispatch_of(store.pattern().tests.as_slice());
        self.stores.reserve(1)?;
        list_dispatch(&mut self.attributes, class, dispatch)?;
        self.numbers
            .push(dispatch_hash(class, dispatch), number as u32)?;
        self.stores.push_reserved(store);
        Ok(number as u32)
    }

    /// Files the place of an element in all stores that let it in, but for those that keep none, and adds
    /// the numbers of all of them to `passed`, each once. It looks only at stores that the element's class,
    /// or its class and a value, leads to, and takes no memory but where arrays grow. After want of memory
    /// what was added to `passed` is of no use, but no more places were filed than there are numbers.
    pub fn file(
        &mut self,
        place: u32,
        element: ElementView<'_>,
        passed: &mut Vec<u32>,
    ) -> Result<(), OutOfMemory>
        ensures ok { OnOk result (self.new ≡ map (filed place (element_in element.entry)) self.old) }
        ensures passed { OnOk result ((n : ℕ) → times (λ m. n == m) passed.new.items
            ≡ times (λ m. n == m) passed.old.items + (if has_at (admits (element_in element.entry)) self.old n then 1 else 0)) }
        ensures err { OnErr result (AreFiledOrNot place (element_in element.entry) self.old self.new) }
        ensures count { places_filed self.new ≤ places_filed self.old + length passed.new.items }
    {
        let start = passed.len();
        find_all(
            self.stores.as_slice(),
            &self.numbers,
            &self.attributes,
            element,
            passed,
        )?;
        file_in_all(self.stores.as_mut_slice(), &passed[start..], place, element)
    }

    /// Takes the places that don't live out of the bucket of this hash in one store. It looks at each place
    /// of that bucket once, and takes no memory.
    pub fn clean<L: Living>(&mut self, number: u32, hash: u64, living: &L)
        ensures { self.new ≡ with_change (cleaned hash (L.lives living.now)) number self.old }
    {
        if (number as usize) < self.stores.len() {
            let store = &mut self.stores[number as usize];
            store.clean(hash, living);
        }
    }

    /// Takes all places that don't live out of one store. It looks at each of its links once, and frees the
    /// memory of the others. After want of memory all is as before.
    pub fn pack<L: Living>(
        &mut self,
        alloc: Global,
        number: u32,
        living: &L,
    ) -> Result<(), OutOfMemory>
        ensures ok { OnOk result (self.new ≡ with_change (packed (L.lives living.now)) number self.old) }
        ensures err { OnErr result (self.new ≡ self.old) }
    {
        if number as usize >= self.stores.len() {
            return Ok(());
        }
        let store = &mut self.stores[number as usize];
        store.pack(alloc, living)
    }
}
