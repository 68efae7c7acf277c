//! When choices last fired, by an index that takes in a journal.

ghost use Rattle.std.specs.Prelude.{◌≡◌, ◌+◌, OnOk, length};

use commit_journal::{Journal, Room};
use ops_text::{OutOfMemory, Sequence};
use refraction_index::RefractionIndex;
use rule_base::{Choice, Elements};
use std::alloc::Global;
use std::test::Fail;

/// Takes an entry in that changes nothing and writes nothing.
fn record(alloc: Global, journal: &mut Journal, rule: u32, tags: &[u64]) -> Result<(), OutOfMemory>
    ensures { OnOk result (length journal.new.entries ≡ length journal.old.entries + 1) }
{
    let born = Elements::new(alloc);
    let room = Room::for_entry(tags, &[], &born, &[])?;
    journal.reserve(room)?;
    journal.push(rule, tags, &[], &born, &[], false);
    Ok(())
}

fn choice_of(alloc: Global, rule: u32, tags: &[u64]) -> Result<Choice, OutOfMemory> {
    let tags = Sequence::from_vec(Vec::from_slice(alloc, tags)?);
    Ok(Choice { rule, tags })
}

/// What the index tells of the choice that fires twice, of one that fires once, of one that had fired
/// before the journal begins, and of one that never fires.
fn told(alloc: Global, index: &mut RefractionIndex) -> Result<String, OutOfMemory>
    ensures { index.new ≡ index.old }
{
    let twice = index.fired_at(&choice_of(alloc, 0, &[2, 3])?);
    let once = index.fired_at(&choice_of(alloc, 41, &[5])?);
    let before = index.fired_at(&choice_of(alloc, 7, &[1])?);
    let never = index.fired_at(&choice_of(alloc, 41, &[2, 3])?);
    format!(in alloc; "{twice:?}, {once:?}, {before:?}, {never:?}")
}

/// What the index tells after two entries, and after a third.
fn told_twice(alloc: Global) -> Result<String, OutOfMemory> {
    let before = [choice_of(alloc, 7, &[1])?];
    let mut index = RefractionIndex::new(alloc, &before)?;
    let mut journal = Journal::new(alloc, 6);
    record(alloc, &mut journal, 0, &[2, 3])?;
    record(alloc, &mut journal, 41, &[5])?;
    index.take_in(alloc, &journal)?;
    let first = told(alloc, &mut index)?;
    record(alloc, &mut journal, 0, &[2, 3])?;
    index.take_in(alloc, &journal)?;
    let second = told(alloc, &mut index)?;
    format!(in alloc; "{first}; {second}")
}

#[test]
fn the_last_firing_is_told(rt: HostRuntime) -> Result<(), Fail> {
    let text = told_twice(rt.alloc())?;
    assert_eq!(rt;
        text.as_str(),
        "Some(1), Some(2), Some(0), None; Some(3), Some(2), Some(0), None"
    );
    Ok(())
}
