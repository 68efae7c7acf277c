//! A journal takes two entries in and tells of them.

ghost use Rattle.std.specs.Prelude.{◌≡◌, ◌+◌, OnOk, length};

use commit_journal::{Journal, Room, journal_text, lay_out};
use ops_text::{OutOfMemory, Symbols};
use rule_base::{ElementView, Elements, Piece, Refraction, Value};
use std::alloc::Global;
use std::test::Fail;

const FIRST: &str =
    "2 Some(Entry { choice: Choice { rule: 0, tags: Sequence { elements: [2, 3] } }, \
    changes: Sequence { elements: [Gone(3), \
    Born(Element { tag: 5, class: 3, values: Sequence { elements: [Int(7)] } })] }, \
    pieces: Sequence { elements: [Put(Int(12))] }, halts: false })";

/// Takes an entry in that makes one element, which gets the next tag.
fn record(
    alloc: Global,
    journal: &mut Journal,
    rule: u32,
    tags: &[u64],
    gone: &[u64],
    values: &[Value],
    pieces: &[Piece],
) -> Result<(), OutOfMemory>
    ensures { OnOk result (length journal.new.entries ≡ length journal.old.entries + 1) }
{
    let tag = journal.next();
    let mut born = Elements::new(alloc);
    born.push(ElementView {
        tag,
        class: 3,
        values,
    })?;
    let room = Room::for_entry(tags, gone, &born, pieces)?;
    journal.reserve(room)?;
    journal.push(rule, tags, gone, &born, pieces, false);
    Ok(())
}

fn record_two(alloc: Global, journal: &mut Journal) -> Result<(), OutOfMemory> {
    let twelve = [Piece::Put(Value::Int(12))];
    record(alloc, journal, 0, &[2, 3], &[3], &[Value::Int(7)], &twelve)?;
    let aligned = [Piece::Rjust(4), Piece::Put(Value::Int(-3))];
    record(alloc, journal, 41, &[5], &[], &[Value::Int(8)], &aligned)
}

fn texts_are_right(alloc: Global, journal: &Journal) -> Result<bool, OutOfMemory> {
    let text = journal_text(alloc, journal, Refraction::Once)?;
    let symbols = Symbols::new(alloc)?;
    let written = lay_out(alloc, journal.pieces(), &symbols)?;
    Ok(
        text.as_slice() == b"ops5-journal 2 once\n1 2 3\n42 5\nend\n".as_slice()
            && written.as_slice() == b"12  -3".as_slice(),
    )
}

fn last_is_right(alloc: Global, journal: &Journal) -> Result<bool, OutOfMemory> {
    let last = journal.stretch(alloc, 1, 9)?;
    let is_found = match last.born(6) {
        Some(element) => element.values == [Value::Int(8)].as_slice(),
        None => false,
    };
    Ok(is_found && last.len() == 1 && last.next() == 7 && last.born(5).is_none())
}

/// The first entry as a value of its own: its choice, what it took away and made, and what it wrote.
fn first_in_words(alloc: Global, journal: &Journal) -> Result<String, OutOfMemory> {
    let entries = journal.to_entries(alloc)?;
    let first = entries.as_slice().first();
    format!(in alloc; "{} {first:?}", entries.len())
}

#[test]
fn two_entries_are_told(rt: HostRuntime) -> Result<(), Fail> {
    let alloc = rt.alloc();
    let mut journal = Journal::new(alloc, 5);
    let taken = record_two(alloc, &mut journal);
    let texts = texts_are_right(alloc, &journal);
    let last = last_is_right(alloc, &journal);
    let first = first_in_words(alloc, &journal);
    assert!(rt; taken.is_ok() && journal.len() == 2);
    assert!(rt; matches!(texts, Ok(true)));
    assert!(rt; matches!(last, Ok(true)));
    assert_eq!(rt; first?.as_str(), FIRST);
    Ok(())
}
