//! A rule of three condition elements, and elements that join or don't.

use crate::{Join, Joins, element_hash, row_hash};
use ops_text::{OutOfMemory, Sequence};
use rule_base::{Arg, Cond, ElementView, Elements, Pred, Rule, Test, Value};
use std::alloc::Global;
use std::test::Fail;

fn cond(alloc: Global, negated: bool, class: u32, tests: [Test; 3]) -> Result<Cond, OutOfMemory> {
    Ok(Cond {
        negated,
        class,
        tests: Sequence::from_vec(Vec::from_array(alloc, tests)?),
    })
}

fn compares(attr: u32, pred: Pred, var: u32) -> Test {
    Test::Cmp {
        attr,
        pred,
        arg: Arg::Var(var),
    }
}

/// `(first ^x <v> ^y <w> ^y > 3) - (third ^x <v> ^y <z> ^x > <z>) (second ^x <v> ^y <> <v> ^y < <w>)`
fn rule(alloc: Global) -> Result<Rule, OutOfMemory> {
    let above = Test::Cmp {
        attr: 1,
        pred: Pred::Gt,
        arg: Arg::Con(Value::Int(3)),
    };
    let first = [
        Test::Bind { attr: 0, var: 0 },
        Test::Bind { attr: 1, var: 1 },
        above,
    ];
    let third = [
        compares(0, Pred::Eq, 0),
        Test::Bind { attr: 1, var: 2 },
        compares(0, Pred::Gt, 2),
    ];
    let second = [
        compares(0, Pred::Eq, 0),
        compares(1, Pred::Ne, 0),
        compares(1, Pred::Lt, 1),
    ];
    let conds = [
        cond(alloc, false, 1, first)?,
        cond(alloc, true, 3, third)?,
        cond(alloc, false, 2, second)?,
    ];
    Ok(Rule {
        name: 0,
        vars: 3,
        positives: 2,
        conds: Sequence::from_vec(Vec::from_array(alloc, conds)?),
        actions: Sequence::new(alloc),
    })
}

/// An element with these two values.
fn view(class: u32, values: &[Value; 2]) -> ElementView<'_> {
    ElementView {
        tag: 1,
        class,
        values,
    }
}

/// What a join says of the element: whether it joins, and whether its hash is the row's.
fn answers(join: &Join, row: &Elements, element: ElementView<'_>) -> (bool, bool) {
    let key = join.key.as_slice();
    (
        join.admits(row, element),
        row_hash(key, row) == element_hash(key, element),
    )
}

/// What the joins of the rule say of an element of each class, behind a row of one element.
fn all_answers(joins: &Joins, row: &Elements, values: &[Value; 2]) -> Option<[(bool, bool); 3]> {
    let first = answers(joins.positives.get(0)?, row, view(1, values));
    let second = answers(joins.positives.get(1)?, row, view(2, values));
    let third = answers(&joins.negated.get(0)?.join, row, view(3, values));
    Some([first, second, third])
}

#[test]
fn elements_join_by_the_values_of_those_before(rt: HostRuntime) -> Result<(), Fail> {
    let alloc = rt.alloc();
    let joins = Joins::compile(alloc, &rule(alloc)?)?;
    let mut row = Elements::new(alloc);
    row.push(view(1, &[Value::Int(7), Value::Int(5)]))?;
    let rows = [
        ([7, 4], [(true, true), (true, true), (true, true)]),
        ([7, 3], [(false, true), (true, true), (true, true)]),
        ([7, 5], [(true, true), (false, true), (true, true)]),
        ([7, 7], [(true, true), (false, true), (false, true)]),
        ([8, 4], [(true, true), (false, false), (false, false)]),
    ];
    for ([x, y], want) in rows {
        let found = all_answers(&joins, &row, &[Value::Int(x), Value::Int(y)]);
        assert!(rt; found == Some(want));
    }
    Ok(())
}
