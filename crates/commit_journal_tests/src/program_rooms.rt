//! The room that a program tells.

use commit_journal::room_of;
use ops_text::{OutOfMemory, Sequence};
use rule_base::{Action, Class, Item, Program, Rule};
use std::alloc::Global;
use std::test::Fail;

const ONE: &str = "Room { entries: 1, tags: 4, gone: 3, elements: 2, values: 7, pieces: 3 }";

const THREE: &str = "Room { entries: 3, tags: 12, gone: 9, elements: 6, values: 21, pieces: 9 }";

/// A make of three values, a modify of the second element, a remove of both, and a write of two items.
fn many_actions(alloc: Global) -> Result<Sequence<Action>, OutOfMemory> {
    let mut actions = Sequence::new(alloc);
    actions.push(Action::Make {
        class: 1,
        size: 3,
        sets: Sequence::new(alloc),
    })?;
    actions.push(Action::Modify {
        at: 1,
        sets: Sequence::new(alloc),
    })?;
    actions.push(Action::Remove {
        at: Sequence::from_vec(vec![in alloc; 0, 1]?),
    })?;
    actions.push(Action::Write {
        items: Sequence::from_vec(vec![in alloc; Item::Tabto(9), Item::Crlf]?),
    })?;
    Ok(actions)
}

/// A write of three items.
fn one_write(alloc: Global) -> Result<Sequence<Action>, OutOfMemory> {
    let mut actions = Sequence::new(alloc);
    actions.push(Action::Write {
        items: Sequence::from_vec(vec![in alloc; Item::Crlf, Item::Tabto(4), Item::Crlf]?),
    })?;
    Ok(actions)
}

fn rule(name: u32, positives: u32, actions: Sequence<Action>, alloc: Global) -> Rule {
    Rule {
        name,
        vars: 0,
        positives,
        conds: Sequence::new(alloc),
        actions,
    }
}

/// A class of four attributes and one of three.
fn classes(alloc: Global) -> Result<Sequence<Class>, OutOfMemory> {
    let mut classes = Sequence::new(alloc);
    classes.push(Class {
        name: 1,
        attrs: Sequence::from_vec(vec![in alloc; 5, 6, 7, 8]?),
    })?;
    classes.push(Class {
        name: 2,
        attrs: Sequence::from_vec(vec![in alloc; 5, 6, 7]?),
    })?;
    Ok(classes)
}

/// The rule with the many actions has two positive condition elements, and the one with the write four.
fn program(alloc: Global) -> Result<Program, OutOfMemory> {
    let mut rules = Sequence::new(alloc);
    rules.push(rule(3, 2, many_actions(alloc)?, alloc))?;
    rules.push(rule(4, 4, one_write(alloc)?, alloc))?;
    Ok(Program {
        classes: classes(alloc)?,
        rules,
        makes: Sequence::new(alloc),
    })
}

#[test]
fn rooms_are_told_and_added(rt: HostRuntime) -> Result<(), Fail> {
    let alloc = rt.alloc();
    let room = room_of(&program(alloc)?)?;
    let sum = room.plus(room)?.plus(room)?;
    let product = room.times(3)?;
    assert_eq!(rt; format!(in alloc; "{room:?}")?.as_str(), ONE);
    assert_eq!(rt; format!(in alloc; "{sum:?}")?.as_str(), THREE);
    assert_eq!(rt; format!(in alloc; "{product:?}")?.as_str(), THREE);
    Ok(())
}
