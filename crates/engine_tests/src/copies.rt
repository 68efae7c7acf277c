//! Copies are made where there is memory.

use ops_text::{OutOfMemory, Sequence};
use rule_base::{
    Action, Base, Candidate, Change, Choice, Class, Cond, Element, ElementView, Elements, Entry,
    Expr, Item, Op, Operand, Program, Refraction, Rule, Tagged, Term, Test, Value,
};
use sqlite_items::Items;
use std::alloc::Global;
use std::test::Fail;

fn choice(alloc: Global) -> Choice {
    Choice {
        rule: 1,
        tags: Sequence::new(alloc),
    }
}

#[test]
fn expressions_are_copied(rt: HostRuntime) -> Result<(), Fail> {
    let mut rest = Items::new(rt.alloc());
    rest.push((Op::Sub, Operand::Num(1)))?;
    let expression = Expr {
        first: Operand::Var(0),
        rest,
    };
    let copy = expression.copy(rt.alloc())?;
    assert_eq!(rt; copy.rest.len(), 1);
    Ok(())
}

#[test]
fn left_sides_are_copied(rt: HostRuntime) -> Result<(), Fail> {
    let test = Test::Bind { attr: 2, var: 1 }.copy(rt.alloc())?;
    assert!(rt; matches!(test, Test::Bind { attr: 2, var: 1 }));
    let mut tests = Sequence::new(rt.alloc());
    tests.push(test)?;
    let cond = Cond {
        negated: true,
        class: 3,
        tests,
    };
    assert_eq!(rt; cond.copy(rt.alloc())?.tests.len(), 1);
    Ok(())
}

#[test]
fn right_sides_are_copied(rt: HostRuntime) -> Result<(), Fail> {
    assert!(rt; matches!(Term::Var(5).copy(rt.alloc())?, Term::Var(5)));
    assert!(rt; matches!(Item::Tabto(9).copy(rt.alloc())?, Item::Tabto(9)));
    assert!(rt; matches!(Action::Halt.copy(rt.alloc())?, Action::Halt));
    Ok(())
}

#[test]
fn programs_are_copied(rt: HostRuntime) -> Result<(), Fail> {
    let class = Class {
        name: 4,
        attrs: Sequence::new(rt.alloc()),
    };
    assert_eq!(rt; class.copy(rt.alloc())?.name, 4);
    let rule = Rule {
        name: 3,
        vars: 1,
        positives: 1,
        conds: Sequence::new(rt.alloc()),
        actions: Sequence::new(rt.alloc()),
    };
    let mut rules = Sequence::new(rt.alloc());
    rules.push(rule.copy(rt.alloc())?)?;
    let program = Program {
        classes: Sequence::new(rt.alloc()),
        rules,
        makes: Sequence::new(rt.alloc()),
    };
    assert_eq!(rt; program.copy(rt.alloc())?.rules.len(), 1);
    Ok(())
}

#[test]
fn firings_are_copied(rt: HostRuntime) -> Result<(), Fail> {
    assert!(rt; matches!(Change::Remove(7).copy(rt.alloc())?, Change::Remove(7)));
    assert!(rt; matches!(Tagged::Gone(7).copy(rt.alloc())?, Tagged::Gone(7)));
    let entry = Entry {
        choice: choice(rt.alloc()),
        changes: Sequence::new(rt.alloc()),
        pieces: Sequence::new(rt.alloc()),
        halts: true,
    };
    assert!(rt; entry.copy(rt.alloc())?.halts);
    Ok(())
}

#[test]
fn candidates_are_copied(rt: HostRuntime) -> Result<(), Fail> {
    let element = Element {
        tag: 4,
        class: 0,
        values: Sequence::new(rt.alloc()),
    };
    assert_eq!(rt; element.copy(rt.alloc())?.tag, 4);
    let first = choice(rt.alloc());
    let candidate = Candidate {
        choice: first.copy(rt.alloc())?,
        elements: Elements::new(rt.alloc()),
    };
    assert!(rt; candidate.copy(rt.alloc())?.choice.same(&first));
    Ok(())
}

/// The elements with their tags and values, in a line.
fn told(alloc: Global, elements: &Elements) -> Result<String, OutOfMemory> {
    let mut text = String::new(alloc);
    for at in 0..elements.len() {
        let element = elements.at(at);
        text.push_str(&format!(in alloc;
            "{}:{}{:?} ",
            element.tag, element.class, element.values
        )?)?;
    }
    Ok(text)
}

#[test]
fn elements_lie_in_flat_arrays(rt: HostRuntime) -> Result<(), Fail> {
    let alloc = rt.alloc();
    let mut elements = Elements::new(alloc);
    for (tag, values) in [
        (1, [Value::Int(7)].as_slice()),
        (2, &[]),
        (3, &[Value::Sym(4), Value::Int(-1)]),
    ] {
        elements.push(ElementView {
            tag,
            class: 5,
            values,
        })?;
    }
    let copy = elements.copy(alloc)?;
    let listed = elements.to_elements(alloc)?;
    let again = Elements::from_slice(alloc, listed.as_slice())?;
    elements.change(alloc, &[1], &copy)?;
    assert_eq!(rt;
        told(alloc, &copy)?.as_str(),
        "1:5[Int(7)] 2:5[] 3:5[Sym(4), Int(-1)] "
    );
    assert_eq!(rt; told(alloc, &again)?.as_str(), told(alloc, &copy)?.as_str());
    assert_eq!(rt;
        told(alloc, &elements)?.as_str(),
        "2:5[] 3:5[Sym(4), Int(-1)] 1:5[Int(7)] 2:5[] 3:5[Sym(4), Int(-1)] "
    );
    assert!(rt; elements.with_tag(4).is_none());
    assert!(rt;
        elements
            .with_tag(1)
            .is_some_and(|element| element.values.len() == 1)
    );
    elements.clear();
    assert!(rt; elements.is_empty());
    Ok(())
}

#[test]
fn an_opening_has_the_next_tag(rt: HostRuntime) -> Result<(), Fail> {
    let base = Base::opening(rt.alloc(), Elements::new(rt.alloc()), Refraction::Renewed);
    assert_eq!(rt; base.next, 1);
    assert!(rt; base.fired.is_empty() && base.refraction == Refraction::Renewed);
    Ok(())
}
