//! The report of a run: what its rules wrote, and a line about how it ended.

ghost use Rattle.std.specs.Prelude.{◌≡◌, ◌++◌, decimal, OnOk, IfOk};
ghost use Rattle.ops_command.specs.RunReport.{ends_line, whole_lines, summary_line, run_report};

use crate::ending_words::ending_words;
use commit_journal::lay_out;
use firing_core::Core;
use itoa::Buffer;
use ops_text::{OutOfMemory, Symbols};
use rule_base::Ending;
use std::alloc::Global;

/// Appends a number in decimal.
pub fn put_decimal(number: u64, text: &mut Vec<u8>) -> Result<(), OutOfMemory>
    ensures { OnOk result (text.new.items ≡ text.old.items ++ decimal number) }
{
    let mut buffer = Buffer::new();
    text.extend_from_slice(buffer.format(number).as_bytes())
}

/// Ends the last line of a text.
fn end_line(text: &mut Vec<u8>) -> Result<(), OutOfMemory>
    ensures { OnOk result (text.new.items ≡ whole_lines text.old.items) }
{
    if !ends_line(text.as_slice()) {
        text.push(b'\n')?;
    }
    Ok(())
}

fn ends_line(text: &[u8]) -> bool
    ensures { result ≡ ends_line text.now }
{
    match text.last() {
        Some(byte) => *byte == b'\n',
        None => true,
    }
}

fn summary_line(
    alloc: Global,
    words: &[u8],
    firings: u64,
    elements: u64,
    next: u64,
) -> Result<Vec<u8>, OutOfMemory>
    ensures { IfOk result (λ line. line.items ≡ summary_line words.now firings elements next) }
{
    let mut line = Vec::from_slice(alloc, b"; ")?;
    line.extend_from_slice(words)?;
    line.extend_from_slice(b", firings ")?;
    put_decimal(firings, &mut line)?;
    line.extend_from_slice(b", elements ")?;
    put_decimal(elements, &mut line)?;
    line.extend_from_slice(b", next ")?;
    put_decimal(next, &mut line)?;
    line.extend_from_slice(b"\n")?;
    Ok(line)
}

/// The report of the run that a core has come to, and that ended so.
pub fn run_report(
    alloc: Global,
    symbols: &Symbols,
    ending: &Ending,
    core: &Core,
) -> Result<Vec<u8>, OutOfMemory>
    ensures { IfOk result
        (λ text. text.items ≡ run_report core.now.program symbols.now ending.now core.now.state) }
{
    let elements = core.memory_len() as u64;
    let words = ending_words(alloc, core.program(), symbols, ending)?;
    let mut text = lay_out(alloc, core.journal().pieces(), symbols)?;
    end_line(&mut text)?;
    let line = summary_line(alloc, words.as_slice(), core.count(), elements, core.next())?;
    text.extend_from_slice(&line)?;
    Ok(text)
}
