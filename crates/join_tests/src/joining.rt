//! Whether an element joins a partial match.

ghost use Rattle.std.specs.Prelude.{◌≡◌};
ghost use Rattle.std.specs.List.{list_all, list_any};
ghost use Rattle.rule_base.specs.Value.{same_value};
ghost use Rattle.rule_base.specs.Views.{element_in};
ghost use Rattle.join_tests.specs.Reading.{value_at, value_in};
ghost use Rattle.join_tests.specs.Joining.{fits, joins, lone_holds, passes, same_key, tests_hold};

use crate::{Join, JoinTest, KeyPart, LoneTest, Pattern, Row, Source};
use element_tests::holds;
use rule_base::{ElementView, Pred, Value};

/// The element's value at an attribute, and the symbol `nil` where it has none.
pub fn value_at(element: ElementView<'_>, attribute: u32) -> Value
    ensures { result ≡ value_at (element_in element.entry) attribute }
{
    match element.values.get(attribute as usize) {
        Some(value) => *value,
        None => Value::Sym(0),
    }
}

/// The value that lies at a source, and the symbol `nil` where none lies there.
pub fn value_in<R: Row>(row: &R, source: Source) -> Value
    ensures { result ≡ value_in (R.elements row.now) source }
{
    match row.element(source.condition) {
        Some(element) => value_at(element, source.attribute),
        None => Value::Sym(0),
    }
}

/// Whether the element passes what is asked of it alone.
pub fn passes(pattern: &Pattern, element: ElementView<'_>) -> bool
    ensures { result ≡ passes pattern.now (element_in element.entry) }
{
    fits(pattern, element) && all_hold(pattern.tests.as_slice(), element)
}

/// Whether the element is of the class, and has the values that are asked for.
fn fits(pattern: &Pattern, element: ElementView<'_>) -> bool
    ensures { result ≡ fits pattern.now (element_in element.entry) }
{
    pattern.class == element.class && pattern.size <= element.values.len()
}

/// Whether all tests of the element alone hold.
fn all_hold(tests: &[LoneTest], element: ElementView<'_>) -> bool
    ensures { result ≡ list_all (lone_holds (element_in element.entry)) tests.now }
{
    tests.iter().all(|test| lone_holds(test, element))
}

/// Whether a test of the element alone holds.
fn lone_holds(test: &LoneTest, element: ElementView<'_>) -> bool
    ensures { result ≡ lone_holds (element_in element.entry) test.now }
{
    match test {
        LoneTest::Constant {
            attribute,
            predicate,
            value,
        } => holds(*predicate, value_at(element, *attribute), *value),
        LoneTest::OneOf { attribute, among } => {
            is_among(value_at(element, *attribute), among.as_slice())
        }
        LoneTest::Within {
            attribute,
            predicate,
            other,
        } => holds(
            *predicate,
            value_at(element, *attribute),
            value_at(element, *other),
        ),
    }
}

fn is_among(value: Value, among: &[Value]) -> bool
    ensures { result ≡ list_any (same_value value) among.now }
{
    among.iter().any(|other| holds(Pred::Eq, value, *other))
}

/// Whether the element has the row's values for each part of the key. It looks at one part after
/// another, up to the first that differs.
pub fn same_key<R: Row>(key: &[KeyPart], row: &R, element: ElementView<'_>) -> bool
    ensures { result ≡ same_key key.now (R.elements row.now) (element_in element.entry) }
{
    key.iter().all(|part| {
        holds(
            Pred::Eq,
            value_at(element, part.attribute),
            value_in(row, part.source),
        )
    })
}

/// Whether all comparisons of the element with the row's values hold.
pub fn tests_hold<R: Row>(tests: &[JoinTest], row: &R, element: ElementView<'_>) -> bool
    ensures { result ≡ tests_hold tests.now (R.elements row.now) (element_in element.entry) }
{
    tests.iter().all(|test| {
        holds(
            test.predicate,
            value_at(element, test.attribute),
            value_in(row, test.source),
        )
    })
}

impl Join {
    /// Whether the element joins the row.
    pub fn admits<R: Row>(&self, row: &R, element: ElementView<'_>) -> bool
        ensures { result ≡ joins self.now (R.elements row.now) (element_in element.entry) }
    {
        passes(&self.pattern, element)
            && same_key(self.key.as_slice(), row, element)
            && tests_hold(self.tests.as_slice(), row, element)
    }
}
