//! Which stores let an element in, and filing it there.

ghost use Rattle.std.specs.Prelude.{◌≡◌, ℕ, ◌==◌, ◌++◌, ◌↔◌, Some, None, IfSome, IsTrue, OnErr, OnOk, filter, map, take};
ghost use Rattle.rule_base.specs.Views.{element_in};
ghost use Rattle.alpha_memory.specs.Dispatch.{admits_at, found, found_at, patterns_of};
ghost use Rattle.alpha_memory.specs.Stores.{Serves, has_at, with_change, with_changes, with_place};
ghost use Rattle.alpha_memory.specs.Times.{times};

use crate::dispatch::{Dispatch, dispatch_hash, dispatch_of, is_at};
use crate::store::AlphaStore;
use hash_buckets::{Bucket, Buckets};
use join_tests::{passes, value_at};
use ops_text::OutOfMemory;
use rule_base::ElementView;

/// Adds the numbers of the stores that let the element in: of those that its class leads to, and of those
/// that its values at these attributes lead to.
pub(crate) fn find_all(
    stores: &[AlphaStore],
    numbers: &Buckets,
    attributes: &Buckets,
    element: ElementView<'_>,
    passed: &mut Vec<u32>,
) -> Result<(), OutOfMemory>
    ensures { OnOk result (passed.new.items
        ≡ passed.old.items ++ found stores.now numbers.now.entries attributes.now.entries (element_in element.entry)) }
{
    find_at(stores, numbers, None, element, passed)?;
    for attribute in attributes.bucket(u64::from(element.class)) {
        find_at(stores, numbers, Some(attribute), element, passed)?;
    }
    Ok(())
}

/// Adds the numbers of the stores that let the element in, of those that its value at an attribute leads to,
/// or without an attribute, its class alone.
fn find_at(
    stores: &[AlphaStore],
    numbers: &Buckets,
    attribute: Option<u32>,
    element: ElementView<'_>,
    passed: &mut Vec<u32>,
) -> Result<(), OutOfMemory>
    ensures { OnOk result (passed.new.items
        ≡ passed.old.items ++ found_at stores.now numbers.now.entries (element_in element.entry) attribute) }
{
    let dispatch = match attribute {
        None => Dispatch::ByClass,
        Some(attribute) => Dispatch::ByValue {
            attribute,
            value: value_at(element, attribute),
        },
    };
    let bucket = numbers.bucket(dispatch_hash(element.class, dispatch));
    find_among(stores, bucket, attribute, element, passed)
}

/// Adds those of these numbers whose stores are found at this attribute and let the element in.
fn find_among(
    stores: &[AlphaStore],
    numbers: Bucket<'_>,
    attribute: Option<u32>,
    element: ElementView<'_>,
    passed: &mut Vec<u32>,
) -> Result<(), OutOfMemory>
    ensures { OnOk result (passed.new.items
        ≡ passed.old.items ++ filter (has_at (admits_at attribute (element_in element.entry)) stores.now) numbers.entry) }
{
    for number in numbers {
        if admits_at(stores, number, attribute, element) {
            passed.push(number)?;
        }
    }
    Ok(())
}

/// Whether there is a store with this number, which is found at this attribute and lets the element in.
fn admits_at(
    stores: &[AlphaStore],
    number: u32,
    attribute: Option<u32>,
    element: ElementView<'_>,
) -> bool
    ensures { result ≡ has_at (admits_at attribute (element_in element.entry)) stores.now number }
{
    match stores.get(number as usize) {
        Some(store) => {
            let pattern = store.pattern();
            is_at(attribute, dispatch_of(pattern.tests.as_slice())) && passes(pattern, element)
        }
        None => false,
    }
}

/// Files the element's place in the stores with these numbers.
pub(crate) fn file_in_all(
    stores: &mut [AlphaStore],
    numbers: &[u32],
    place: u32,
    element: ElementView<'_>,
) -> Result<(), OutOfMemory>
    ensures ok { OnOk result (stores.new ≡ with_changes (with_place place (element_in element.entry)) numbers.now stores.old) }
    ensures err { OnErr result ((count : ℕ)
        × (stores.new ≡ with_changes (with_place place (element_in element.entry)) (take count numbers.now) stores.old)) }
    ensures patterns { patterns_of stores.new ≡ patterns_of stores.old }
{
    for number in numbers {
        file_in(stores, *number, place, element)?;
    }
    Ok(())
}

/// Files the element's place in the store with this number, if it is there.
fn file_in(
    stores: &mut [AlphaStore],
    number: u32,
    place: u32,
    element: ElementView<'_>,
) -> Result<(), OutOfMemory>
    ensures ok { OnOk result (stores.new ≡ with_change (with_place place (element_in element.entry)) number stores.old) }
    ensures err { OnErr result (stores.new ≡ stores.old) }
{
    if number as usize >= stores.len() {
        return Ok(());
    }
    let store = &mut stores[number as usize];
    store.file(place, element)
}

/// The newest store among these numbers that asks like another one, if there is one.
pub(crate) fn find_alike(
    stores: &[AlphaStore],
    numbers: Bucket<'_>,
    wanted: &AlphaStore,
) -> Option<u32>
    ensures some { IfSome result (Serves wanted.now stores.now) }
    ensures none { result ≡ None → (n : ℕ) → Serves wanted.now stores.now n → times (λ m. n == m) numbers.entry ≡ 0 }
{
    for number in numbers {
        if serves(stores, number, wanted) {
            return Some(number);
        }
    }
    None
}

/// Whether there is a store with this number that asks like another one.
fn serves(stores: &[AlphaStore], number: u32, wanted: &AlphaStore) -> bool
    ensures { IsTrue result ↔ Serves wanted.now stores.now number }
{
    match stores.get(number as usize) {
        Some(store) => store.asks_like(wanted),
        None => false,
    }
}
