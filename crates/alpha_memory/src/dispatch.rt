//! By what a store is found: by its class, or by a constant besides.

ghost use Rattle.std.specs.Prelude.{◌≡◌, ℕ, ◌==◌, ◌&&◌, OnErr, OnOk, if◌then◌else◌, max, nat_lt};
ghost use Rattle.alpha_memory.specs.Dispatch.{Lists, by_test, dispatch_hash, dispatch_of, how_often, is_at};
ghost use Rattle.alpha_memory.specs.Times.{times};

use hash_buckets::{Bucket, Buckets};
use join_tests::{LoneTest, mixed};
use ops_text::OutOfMemory;
use rule_base::{Pred, Value};

/// What leads to a store, beside its class.
#[derive(Clone, Copy)]
pub(crate) enum Dispatch {
    /// Nothing.
    ByClass,
    /// The value that each element has at an attribute.
    ByValue { attribute: u32, value: Value },
}

/// What leads to a store with these tests: the first that asks for one value.
pub(crate) fn dispatch_of(tests: &[LoneTest]) -> Dispatch
    ensures { result ≡ dispatch_of tests.now }
{
    for test in tests {
        if let Dispatch::ByValue { attribute, value } = by_test(test) {
            return Dispatch::ByValue { attribute, value };
        }
    }
    Dispatch::ByClass
}

/// What leads to a store with just this test.
fn by_test(test: &LoneTest) -> Dispatch
    ensures { result ≡ by_test test.now }
{
    match test {
        LoneTest::Constant {
            attribute,
            predicate: Pred::Eq,
            value,
        } => Dispatch::ByValue {
            attribute: *attribute,
            value: *value,
        },
        _ => Dispatch::ByClass,
    }
}

/// The hash under which a store of this class is found. The numbers of class and attribute are mixed in as
/// those of symbols are.
pub(crate) fn dispatch_hash(class: u32, dispatch: Dispatch) -> u64
    ensures { result ≡ dispatch_hash class dispatch }
{
    let hash = mixed(0, Value::Sym(class));
    match dispatch {
        Dispatch::ByClass => hash,
        Dispatch::ByValue { attribute, value } => mixed(mixed(hash, Value::Sym(attribute)), value),
    }
}

/// Whether a value at this attribute leads to the store, or where there is no attribute, its class
/// alone.
pub(crate) fn is_at(attribute: Option<u32>, dispatch: Dispatch) -> bool
    ensures { result ≡ is_at attribute dispatch }
{
    match (attribute, dispatch) {
        (None, Dispatch::ByClass) => true,
        (Some(wanted), Dispatch::ByValue { attribute, .. }) => attribute == wanted,
        _ => false,
    }
}

/// Lists the attribute that leads to stores of a class, if any does, unless it is listed.
pub(crate) fn list_dispatch(
    attributes: &mut Buckets,
    class: u32,
    dispatch: Dispatch,
) -> Result<(), OutOfMemory>
    ensures ok { OnOk result (Lists class dispatch attributes.old.entries attributes.new.entries) }
    ensures err { OnErr result (attributes.new ≡ attributes.old) }
{
    match dispatch {
        Dispatch::ByClass => Ok(()),
        Dispatch::ByValue { attribute, .. } => list_attribute(attributes, class, attribute),
    }
}

/// Lists an attribute for a class, unless it is listed.
fn list_attribute(attributes: &mut Buckets, class: u32, attribute: u32) -> Result<(), OutOfMemory>
    ensures ok { OnOk result ((c a : ℕ) → how_often attributes.new.entries c a
        ≡ (if (class == c) && (attribute == a) then max 1 (how_often attributes.old.entries c a) else how_often attributes.old.entries c a)) }
    ensures err { OnErr result (attributes.new ≡ attributes.old) }
{
    let class = u64::from(class);
    if is_among(attributes.bucket(class), attribute) {
        return Ok(());
    }
    attributes.push(class, attribute)
}

/// Whether an attribute is among these.
fn is_among(attributes: Bucket<'_>, attribute: u32) -> bool
    ensures { result ≡ nat_lt 0 (times (λ a. attribute == a) attributes.entry) }
{
    for other in attributes {
        if other == attribute {
            return true;
        }
    }
    false
}
