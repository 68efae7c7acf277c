//! Words, a shelf with two files, and calls over them.

use ops_command::{Report, run_without_threads};
use ops_text::{MemShelf, MemSink, OutOfMemory};
use std::alloc::Global;

/// The words of a command line.
pub fn words_of(alloc: Global, texts: &[&str]) -> Result<Vec<String>, OutOfMemory> {
    let mut words = Vec::new(alloc);
    for text in texts {
        words.push(String::from_str(alloc, text)?)?;
    }
    Ok(words)
}

/// A shelf with the program file `p` and the memory file `m`.
pub fn shelf_with(alloc: Global, program: &str, memory: &str) -> Result<MemShelf, OutOfMemory> {
    let p = (
        String::from_str(alloc, "p")?,
        Vec::from_slice(alloc, program.as_bytes())?,
    );
    let m = (
        String::from_str(alloc, "m")?,
        Vec::from_slice(alloc, memory.as_bytes())?,
    );
    Ok(MemShelf {
        files: vec![in alloc; p, m]?,
        failing: Vec::new(alloc),
        calls: 0,
        faults: 0,
    })
}

/// What a call with these words reports and prints, over these two files.
pub fn call(
    alloc: Global,
    texts: &[&str],
    program: &str,
    memory: &str,
) -> Result<(Report, Vec<u8>), OutOfMemory> {
    let words = words_of(alloc, texts)?;
    let mut shelf = shelf_with(alloc, program, memory)?;
    let mut out = MemSink::with_room(alloc, 200, 200)?;
    let report = run_without_threads(alloc, &words, &mut shelf, &mut out);
    Ok((report, out.held))
}
