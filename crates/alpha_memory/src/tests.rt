//! Five condition elements of one class, and elements that pass some of them.

use crate::AlphaMemory;
use join_tests::{KeyPart, LoneTest, Pattern, Source, element_hash};
use ops_text::{OutOfMemory, Sequence};
use rule_base::{ElementView, Pred, Value};
use std::alloc::Global;
use std::test::Fail;

/// A key of one attribute.
fn key(attribute: u32) -> [KeyPart; 1] {
    [KeyPart {
        attribute,
        source: Source {
            condition: 0,
            attribute: 0,
        },
    }]
}

/// Asks for elements of class 1 that pass one test.
fn one_test(
    alloc: Global,
    attribute: u32,
    predicate: Pred,
    number: i64,
) -> Result<Pattern, OutOfMemory> {
    let test = LoneTest::Constant {
        attribute,
        predicate,
        value: Value::Int(number),
    };
    Ok(Pattern {
        class: 1,
        size: 2,
        tests: Sequence::from_vec(Vec::from_array(alloc, [test])?),
    })
}

/// `(one ^0 <k>)`, `(one ^0 = 7 ^1 <k>)`, `(one ^1 > 3)`, `(one ^1 = 5 ^0 <k>)`, and the second once more.
fn ask_all(alloc: Global, memory: &mut AlphaMemory) -> Result<[u32; 5], OutOfMemory> {
    let any = Pattern {
        class: 1,
        size: 1,
        tests: Sequence::new(alloc),
    };
    let seven = one_test(alloc, 0, Pred::Eq, 7)?;
    let above = one_test(alloc, 1, Pred::Gt, 3)?;
    let five = one_test(alloc, 1, Pred::Eq, 5)?;
    Ok([
        memory.ask(alloc, &any, &key(0), true)?,
        memory.ask(alloc, &seven, &key(1), true)?,
        memory.ask(alloc, &above, &[], false)?,
        memory.ask(alloc, &five, &key(0), true)?,
        memory.ask(alloc, &seven, &key(1), true)?,
    ])
}

/// Files an element at a place, and tells how often each store is among those that it passed.
fn file(
    alloc: Global,
    memory: &mut AlphaMemory,
    place: u32,
    class: u32,
    values: &[Value; 2],
) -> Result<[usize; 4], OutOfMemory> {
    let element = ElementView {
        tag: 1,
        class,
        values,
    };
    let mut passed = Vec::new(alloc);
    memory.file(place, element, &mut passed)?;
    let often = |number: u32| passed.iter().filter(|other| **other == number).count();
    Ok([often(0), often(1), often(2), often(3)])
}

/// The newest place in a store among those of elements whose value for the key is 7.
fn newest(memory: &AlphaMemory, number: u32, key: &[KeyPart]) -> Option<u32> {
    let element = ElementView {
        tag: 1,
        class: 1,
        values: &[Value::Int(7)],
    };
    if number as usize >= memory.len() {
        return None;
    }
    memory
        .store(number)
        .bucket(element_hash(key, element))
        .next()
}

#[test]
fn condition_elements_that_ask_alike_share_a_store(rt: HostRuntime) -> Result<(), Fail> {
    let alloc = rt.alloc();
    let mut memory = AlphaMemory::new(alloc);
    let numbers = ask_all(alloc, &mut memory)?;
    assert!(rt; numbers == [0, 1, 2, 3, 1]);
    assert!(rt; memory.len() == 4);
    Ok(())
}

#[test]
fn elements_pass_each_store_once(rt: HostRuntime) -> Result<(), Fail> {
    let alloc = rt.alloc();
    let mut memory = AlphaMemory::new(alloc);
    ask_all(alloc, &mut memory)?;
    let rows = [
        (1, 7, 4, [1, 1, 1, 0]),
        (1, 8, 5, [1, 0, 1, 1]),
        (1, 7, 5, [1, 1, 1, 1]),
        (1, 8, 3, [1, 0, 0, 0]),
        (2, 7, 5, [0, 0, 0, 0]),
    ];
    for (class, x, y, want) in rows {
        let often = file(
            alloc,
            &mut memory,
            0,
            class,
            &[Value::Int(x), Value::Int(y)],
        )?;
        assert!(rt; often == want);
    }
    Ok(())
}

#[test]
fn places_are_found_by_their_keys(rt: HostRuntime) -> Result<(), Fail> {
    let alloc = rt.alloc();
    let mut memory = AlphaMemory::new(alloc);
    ask_all(alloc, &mut memory)?;
    file(alloc, &mut memory, 3, 1, &[Value::Int(7), Value::Int(5)])?;
    file(alloc, &mut memory, 4, 1, &[Value::Int(7), Value::Int(7)])?;
    assert!(rt; newest(&memory, 0, &key(0)) == Some(4));
    assert!(rt; newest(&memory, 3, &key(0)) == Some(3));
    assert!(rt; newest(&memory, 2, &[]) == None);
    Ok(())
}
