//! Which places are in working memory, and groups of places by values.

ghost use Rattle.std.specs.Prelude.{◌≡◌};

use ops_text::OutOfMemory;
use rule_base::{Steps, Value};
use std::alloc::Global;
use std::marker::Brand;
use std::sync::ledger::{Blank, Ledger};
use std::test::Fail;
use working_memory::{Groups, Key, Memory};

/// The places in working memory, how many there are, and how many ever came.
fn told(alloc: Global, memory: &Memory) -> Result<String, OutOfMemory> {
    let mut here = Vec::new(alloc);
    for place in memory.slots() {
        if memory.has(*place) {
            here.push(*place)?;
        }
    }
    format!(in alloc; "{here:?}, {} of {}", memory.len(), memory.came())
}

/// A memory of three after one more came, and the second went twice. Then all but the new one go, and
/// the slots are told that are left.
fn changes<L: Ledger>(alloc: Global, blank: Blank) -> Result<String, OutOfMemory>
    requires name { blank.name ≡ L.name }
    requires parts { blank.parts ≡ L.parts }
    requires one { blank.parts ≡ 1 }
{
    let mut steps = Steps::<L>::new(blank);
    let mut memory = Memory::new(alloc, 3)?;
    memory.reserve(2)?;
    memory.insert(&mut steps);
    let went = memory.remove(1, &mut steps);
    let went_again = memory.remove(1, &mut steps);
    let text = told(alloc, &memory)?;
    memory.remove(0, &mut steps);
    memory.remove(2, &mut steps);
    memory.reserve(0)?;
    let slots = memory.slots();
    format!(in alloc; "{went}, {went_again}: {text}, then {slots:?}")
}

#[test]
fn places_come_and_go(rt: HostRuntime) -> Result<(), Fail> {
    let text = changes::<Brand>(rt.alloc(), Blank::new(1))?;
    assert_eq!(rt; text.as_str(), "true, false: [0, 2, 3], 3 of 4, then [3]");
    Ok(())
}

/// The groups of two keys, of three places, before and after the first group is cleaned of what went.
fn groups<L: Ledger>(alloc: Global, blank: Blank) -> Result<String, OutOfMemory>
    requires name { blank.name ≡ L.name }
    requires parts { blank.parts ≡ L.parts }
    requires one { blank.parts ≡ 1 }
{
    let number = Key {
        class: 1,
        attribute: 0,
        value: Value::Int(5),
    };
    let symbol = Key {
        value: Value::Sym(5),
        ..number
    };
    let mut groups = Groups::new(alloc);
    groups.add(alloc, number, 0)?;
    groups.add(alloc, symbol, 1)?;
    groups.add(alloc, number, 2)?;
    let text = format!(in alloc; "{:?} and {:?}", groups.group(number), groups.group(symbol))?;
    let mut steps = Steps::<L>::new(blank);
    let mut memory = Memory::new(alloc, 3)?;
    memory.remove(0, &mut steps);
    memory.remove(1, &mut steps);
    groups.clean(number, &memory);
    format!(in alloc;
        "{text}, then {:?} and {:?}",
        groups.group(number),
        groups.group(symbol)
    )
}

#[test]
fn places_are_found_by_values(rt: HostRuntime) -> Result<(), Fail> {
    let text = groups::<Brand>(rt.alloc(), Blank::new(1))?;
    assert_eq!(rt; text.as_str(), "[0, 2] and [1], then [2] and [1]");
    Ok(())
}
