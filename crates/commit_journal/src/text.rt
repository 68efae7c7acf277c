//! The text of a journal, from which the run can be run again.

ghost use Rattle.std.specs.Prelude.{◌≡◌, ◌+◌, ◌∷◌, [], ◌++◌, decimal, IfOk, OnOk};
ghost use Rattle.std.specs.List.{flat_map};
ghost use Rattle.rule_base.specs.State.{choices_of};
ghost use Rattle.commit_journal.specs.JournalText.{choice_line, first_line, journal_text};

use crate::Journal;
use itoa::Buffer;
use ops_text::OutOfMemory;
use rule_base::Refraction;
use std::alloc::Global;

/// The text of a journal. It takes time in proportion to the text.
pub fn journal_text(
    alloc: Global,
    journal: &Journal,
    refraction: Refraction,
) -> Result<Vec<u8>, OutOfMemory>
    ensures { IfOk result (λ text. text.items ≡ journal_text refraction (choices_of journal.now.entries)) }
{
    let mut text = Vec::new(alloc);
    put_line(first_line(refraction), &mut text)?;
    for place in 0..journal.len() {
        let entry = journal.entry(place);
        put_choice(entry.rule, entry.tags, &mut text)?;
    }
    put_line(b"end", &mut text)?;
    Ok(text)
}

fn first_line(refraction: Refraction) -> &'static [u8]
    ensures { result.now ≡ first_line refraction }
{
    match refraction {
        Refraction::Once => b"ops5-journal 2 once",
        Refraction::Renewed => b"ops5-journal 2 renewed",
    }
}

fn put_line(line: &[u8], text: &mut Vec<u8>) -> Result<(), OutOfMemory>
    ensures { OnOk result (text.new.items ≡ text.old.items ++ (line.now ++ 10 ∷ [])) }
{
    text.extend_from_slice(line)?;
    text.push(b'\n')?;
    Ok(())
}

fn put_choice(rule: u32, tags: &[u64], text: &mut Vec<u8>) -> Result<(), OutOfMemory>
    ensures { OnOk result (text.new.items ≡ text.old.items ++ (choice_line (record { rule = rule; tags = tags.now }) ++ 10 ∷ [])) }
{
    put_decimal(rule as u64 + 1, text)?;
    put_tags(tags, text)?;
    text.push(b'\n')?;
    Ok(())
}

fn put_tags(tags: &[u64], text: &mut Vec<u8>) -> Result<(), OutOfMemory>
    ensures { OnOk result (text.new.items ≡ text.old.items ++ flat_map (λ tag. 32 ∷ decimal tag) tags.now) }
{
    for tag in tags {
        text.push(b' ')?;
        put_decimal(*tag, text)?;
    }
    Ok(())
}

fn put_decimal(number: u64, text: &mut Vec<u8>) -> Result<(), OutOfMemory>
    ensures { OnOk result (text.new.items ≡ text.old.items ++ decimal number) }
{
    let mut buffer = Buffer::new();
    text.extend_from_slice(buffer.format(number).as_bytes())
}
