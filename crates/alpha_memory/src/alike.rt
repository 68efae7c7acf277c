//! Whether two patterns, or two keys, ask alike.

ghost use Rattle.std.specs.Prelude.{◌≡◌, ◌↔◌, IsTrue};
ghost use Rattle.alpha_memory.specs.Stores.{attributes_of};

use join_tests::{KeyPart, LoneTest, Pattern};
use rule_base::Value;

/// Whether both are the same pattern.
pub(crate) fn same_pattern(a: &Pattern, b: &Pattern) -> bool
    ensures { IsTrue result ↔ (a.now ≡ b.now) }
{
    a.class == b.class && a.size == b.size && same_tests(a.tests.as_slice(), b.tests.as_slice())
}

/// Whether both are the same tests, in the same order.
fn same_tests(a: &[LoneTest], b: &[LoneTest]) -> bool
    ensures { IsTrue result ↔ (a.now ≡ b.now) }
{
    if a.len() != b.len() {
        return false;
    }
    for at in 0..a.len() {
        if !same_test(&a[at], &b[at]) {
            return false;
        }
    }
    true
}

/// Whether both are the same test.
fn same_test(a: &LoneTest, b: &LoneTest) -> bool
    ensures { IsTrue result ↔ (a.now ≡ b.now) }
{
    match (a, b) {
        (
            LoneTest::Constant {
                attribute,
                predicate,
                value,
            },
            LoneTest::Constant {
                attribute: other_attribute,
                predicate: other_predicate,
                value: other_value,
            },
        ) => {
            attribute == other_attribute && predicate == other_predicate && value == other_value
        }
        (
            LoneTest::OneOf { attribute, among },
            LoneTest::OneOf {
                attribute: other_attribute,
                among: other_among,
            },
        ) => {
            attribute == other_attribute && same_values(among.as_slice(), other_among.as_slice())
        }
        (
            LoneTest::Within {
                attribute,
                predicate,
                other,
            },
            LoneTest::Within {
                attribute: other_attribute,
                predicate: other_predicate,
                other: other_other,
            },
        ) => {
            attribute == other_attribute && predicate == other_predicate && other == other_other
        }
        _ => false,
    }
}

/// Whether both are the same values, in the same order.
fn same_values(a: &[Value], b: &[Value]) -> bool
    ensures { IsTrue result ↔ (a.now ≡ b.now) }
{
    if a.len() != b.len() {
        return false;
    }
    for at in 0..a.len() {
        if a[at] != b[at] {
            return false;
        }
    }
    true
}

/// Whether both keys have the same attributes, in the same order.
pub(crate) fn same_attributes(a: &[KeyPart], b: &[KeyPart]) -> bool
    ensures { IsTrue result ↔ (attributes_of a.now ≡ attributes_of b.now) }
{
    if a.len() != b.len() {
        return false;
    }
    for at in 0..a.len() {
        if a[at].attribute != b[at].attribute {
            return false;
        }
    }
    true
}
