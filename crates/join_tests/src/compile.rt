//! Rules as joins: each variable is read at the element that bound it.

ghost use Rattle.std.specs.Prelude.{◌≡◌, ℕ, ◌+◌, ◌&&◌, List, IfOk, OnOk, length, nat_lt, ◌==◌};
ghost use Rattle.rule_base.specs.declared.element.Element.{Element};
ghost use Rattle.join_tests.specs.Joining.{LooksBack, joins};
ghost use Rattle.join_tests.specs.Sources.{AreWithin, IsWithin, source_of, sources_after_test, sources_after_tests};
ghost use Rattle.join_tests.specs.Compiling.{attribute_of, part_holds, AsksMore, Compares, IsComparison, IsJoin, PartLooksBack, IsPart, TakesIn};
ghost use Rattle.join_tests.specs.Meaning.{IsCompiled};

use crate::{Join, JoinTest, Joins, KeyPart, LoneTest, Negated, Pattern, Source};
use ops_text::{Duplicate, OutOfMemory, Sequence};
use rule_base::{Arg, Cond, Pred, Rule, Test};
use std::alloc::Global;

/// What a test adds to a join.
#[derive(Drop)]
enum Part {
    Nothing,
    Lone(LoneTest),
    Equal(KeyPart),
    Compare(JoinTest),
}

impl Joins {
    /// The joins of a rule. It goes through the tests once, and copies the sources of all variables for
    /// each negated condition element.
    pub fn compile(alloc: Global, rule: &Rule) -> Result<Joins, OutOfMemory>
        ensures { IfOk result (IsCompiled rule.now) }
    {
        let mut sources = vec![in alloc; None; rule.vars as usize]?;
        let mut joins = Joins {
            positives: Sequence::new(alloc),
            negated: Sequence::new(alloc),
        };
        for cond in rule.conds.as_slice() {
            take_in(alloc, cond, sources.as_mut_slice(), &mut joins)?;
        }
        Ok(joins)
    }
}

/// Adds a condition element, and finds the sources of the variables that it binds.
fn take_in(
    alloc: Global,
    cond: &Cond,
    sources: &mut [Option<Source>],
    joins: &mut Joins,
) -> Result<(), OutOfMemory>
    ensures { OnOk result (TakesIn cond.now.negated cond.now joins.old sources.old joins.new sources.new) }
{
    let after = joins.positives.len();
    if cond.negated {
        let mut local = Vec::from_slice(alloc, sources)?;
        let join = join_of(alloc, cond, after, local.as_mut_slice())?;
        joins.negated.push(Negated { after, join })
    } else {
        let join = join_of(alloc, cond, after, sources)?;
        joins.positives.push(join)
    }
}

/// The join of a condition element with so many positive ones before it.
fn join_of(
    alloc: Global,
    cond: &Cond,
    number: usize,
    sources: &mut [Option<Source>],
) -> Result<Join, OutOfMemory>
    ensures join { IfOk result (IsJoin number sources.old cond.now) }
    ensures sources { OnOk result (sources.new ≡ sources_after_tests number sources.old cond.now.tests) }
{
    let mut join = Join::new(alloc, cond.class);
    for test in cond.tests.as_slice() {
        add_test(alloc, test, number, &mut join, sources)?;
        bind(test, number, sources);
    }
    Ok(join)
}

/// Adds a test to a join.
fn add_test(
    alloc: Global,
    test: &Test,
    number: usize,
    join: &mut Join,
    sources: &[Option<Source>],
) -> Result<(), OutOfMemory>
    ensures asks { OnOk result (AsksMore number sources.now test.now join.old join.new) }
    ensures back { OnOk result (AreWithin (number + 1) sources.now
        → LooksBack number join.old → LooksBack number join.new) }
{
    let part = part_of(alloc, test, number, sources)?;
    join.need(attribute_of(test));
    join.add(part)
}

/// The attribute that a test looks at.
fn attribute_of(test: &Test) -> u32
    ensures { result ≡ attribute_of test.now }
{
    match test {
        Test::Bind { attr, var: _ } => *attr,
        Test::Cmp {
            attr,
            pred: _,
            arg: _,
        } => *attr,
        Test::OneOf { attr, among: _ } => *attr,
    }
}

/// Makes the attribute the source of the variable that the test binds, if it binds one.
fn bind(test: &Test, number: usize, sources: &mut [Option<Source>])
    ensures { sources.new ≡ sources_after_test number sources.old test.now }
{
    if let Test::Bind { attr, var } = test {
        if (*var as usize) < sources.len() {
            sources[*var as usize] = Some(Source {
                condition: number,
                attribute: *attr,
            });
        }
    }
}

/// What a test becomes.
fn part_of(
    alloc: Global,
    test: &Test,
    number: usize,
    sources: &[Option<Source>],
) -> Result<Part, OutOfMemory>
    ensures part { IfOk result (IsPart number sources.now test.now) }
    ensures back { IfOk result (λ part. AreWithin (number + 1) sources.now → PartLooksBack number part) }
{
    match test {
        Test::Bind { attr: _, var: _ } => Ok(Part::Nothing),
        Test::Cmp { attr, pred, arg } => {
            Ok(part_of_comparison(alloc, number, *attr, *pred, *arg, sources))
        }
        Test::OneOf { attr, among } => Ok(Part::Lone(LoneTest::OneOf {
            attribute: *attr,
            among: among.duplicate(alloc)?,
        })),
    }
}

/// What a comparison becomes.
fn part_of_comparison(
    alloc: Global,
    number: usize,
    attribute: u32,
    predicate: Pred,
    arg: Arg,
    sources: &[Option<Source>],
) -> Part
    ensures compares { Compares number attribute predicate arg sources.now result }
    ensures back { AreWithin (number + 1) sources.now → PartLooksBack number result }
{
    match arg {
        Arg::Con(value) => Part::Lone(LoneTest::Constant {
            attribute,
            predicate,
            value,
        }),
        Arg::Var(var) => comparison(alloc, number, attribute, predicate, source_of(sources, var)),
    }
}

/// The variable's source, if it has one.
fn source_of(sources: &[Option<Source>], var: u32) -> Option<Source>
    ensures { result ≡ source_of sources.now var }
{
    match sources.get(var as usize) {
        Some(source) => *source,
        None => None,
    }
}

/// The comparison of an attribute's value with that at a source. Without one it holds nowhere, which a
/// sound rule has no use for.
fn comparison(
    alloc: Global,
    number: usize,
    attribute: u32,
    predicate: Pred,
    source: Option<Source>,
) -> Part
    ensures compares { IsComparison number attribute predicate source result }
    ensures back { IsWithin (number + 1) source → PartLooksBack number result }
{
    match source {
        None => Part::Lone(LoneTest::OneOf {
            attribute,
            among: Sequence::new(alloc),
        }),
        Some(source) => {
            if source.condition == number {
                Part::Lone(LoneTest::Within {
                    attribute,
                    predicate,
                    other: source.attribute,
                })
            } else if predicate == Pred::Eq {
                Part::Equal(KeyPart { attribute, source })
            } else {
                Part::Compare(JoinTest {
                    attribute,
                    predicate,
                    source,
                })
            }
        }
    }
}

impl Join {
    /// A join that asks for the class alone.
    fn new(alloc: Global, class: u32) -> Join
        ensures asks { (es : List Element) (e : Element) → joins result es e ≡ (class == e.class) }
        ensures back { (n : ℕ) → LooksBack n result }
    {
        Join {
            pattern: Pattern {
                class,
                size: 0,
                tests: Sequence::new(alloc),
            },
            key: Sequence::new(alloc),
            tests: Sequence::new(alloc),
        }
    }

    /// Asks for a value at this attribute, besides.
    fn need(&mut self, attribute: u32)
        ensures asks { (es : List Element) (e : Element) → joins self.new es e
            ≡ (joins self.old es e && nat_lt attribute (length e.values)) }
        ensures back { (n : ℕ) → LooksBack n self.old → LooksBack n self.new }
    {
        let size = attribute as usize + 1;
        if self.pattern.size < size {
            self.pattern.size = size;
        }
    }

    /// Asks for the part, besides.
    fn add(&mut self, part: Part) -> Result<(), OutOfMemory>
        ensures asks { OnOk result ((es : List Element) (e : Element) → joins self.new es e
            ≡ (joins self.old es e && part_holds es e part)) }
        ensures back { OnOk result ((n : ℕ) → LooksBack n self.old → PartLooksBack n part → LooksBack n self.new) }
    {
        match part {
            Part::Nothing => Ok(()),
            Part::Lone(test) => self.pattern.tests.push(test),
            Part::Equal(part) => self.key.push(part),
            Part::Compare(test) => self.tests.push(test),
        }
    }
}
