//! Faults in mid-file and in mid-text, by a shelf and an output that fail at calls that are listed.

use crate::setting::{shelf_with, words_of};
use ops_command::run_without_threads;
use ops_text::MemSink;
use std::test::Fail;

#[test]
fn a_fault_in_the_middle_is_told(rt: HostRuntime) -> Result<(), Fail> {
    let alloc = rt.alloc();
    let mut spaces = String::new(alloc);
    for _ in 0..70_000 {
        spaces.push(' ')?;
    }
    let fires = "(literalize a x)(make a ^x 1)(p r (a ^x <v>) --> (write <v>) (remove 1))";
    // the program, the failing calls of the shelf and of the output; the status, the text, and how many firings there are
    let rows: [(&str, &[u64], &[u64], &str, &str, usize); 3] = [
        (
            &spaces,
            &[2],
            &[],
            "ReadFault { file: Program }",
            "ops: cannot read program\n",
            0,
        ),
        // the run stands, with a part of its report
        (fires, &[], &[2], "WriteFault", "1\n; quiet, firin", 1),
        // the refusal that can't be written is a fault of writing
        ("(make a)", &[], &[1], "WriteFault", "", 0),
    ];
    for (program, reads, writes, status, held, firings) in rows {
        let words = words_of(alloc, &["run", "p"])?;
        let mut shelf = shelf_with(alloc, program, "")?;
        shelf.failing.extend_from_slice(reads)?;
        let mut out = MemSink::with_room(alloc, 200, 16)?;
        out.failing.extend_from_slice(writes)?;
        let report = run_without_threads(alloc, &words, &mut shelf, &mut out);
        let told = format!(in alloc; "{:?}", report.status)?;
        assert_eq!(rt; told.as_str(), status, "status of {held}");
        assert_eq!(rt; out.held.as_slice(), held.as_bytes(), "text of {held}");
        assert_eq!(rt; report.journal.len(), firings, "firings of {held}");
    }
    Ok(())
}
