//! Outputs in memory and real ones, and their faults.

use ops_text::{MemSink, OutSink, Sink, SinkFailed, SureSink, WriteFault, write_all};
use std::io;
use std::io::{ErrorKind, Write};
use std::test::Fail;

#[test]
fn a_write_ends_with_all_or_with_a_part(rt: HostRuntime) -> Result<(), Fail> {
    let all = "hello world";
    let rows: [(u64, u64, &[u64], &str, u64); 7] = [
        (99, 99, &[], all, 1),
        (11, 4, &[], all, 3),
        (99, 0, &[12], all, 11),
        (99, 4, &[2], "hell", 2),
        (99, 4, &[1], "", 1),
        (6, 4, &[], "hello ", 3),
        (0, 4, &[], "", 1),
    ];
    for (room, most, failing, held, calls) in rows {
        let mut sink = MemSink::with_room(rt.alloc(), room, most)?;
        sink.failing.extend_from_slice(failing)?;
        let written = write_all(&mut sink, all.as_bytes());
        assert_eq!(rt; written.is_ok(), held == all, "where {held:?} is held");
        assert_eq!(rt; sink.held.as_slice(), held.as_bytes());
        assert_eq!(rt; (sink.calls, sink.faults), (calls, written.is_err() as u64));
    }
    Ok(())
}

#[test]
fn a_call_without_bytes_needs_no_room(rt: HostRuntime) -> Result<(), Fail> {
    let mut sink = MemSink::with_room(rt.alloc(), 0, 9)?;
    sink.failing.push(2)?;
    assert_eq!(rt; sink.write(b""), Ok(0));
    assert_eq!(rt; sink.write(b""), Err(SinkFailed));
    assert_eq!(rt; sink.write(b"a"), Err(SinkFailed));
    assert_eq!(rt; write_all(&mut sink, b""), Ok(()));
    assert_eq!(rt; (sink.calls, sink.faults), (3, 2));
    Ok(())
}

#[test]
fn a_sure_sink_counts_to_the_end(rt: HostRuntime) {
    let mut sink = SureSink {
        length: u64::MAX - 4,
    };
    for want in [u64::MAX - 1, u64::MAX, u64::MAX] {
        assert_eq!(rt; write_all(&mut sink, b"abc"), Ok(()));
        assert_eq!(rt; sink.length, want);
    }
}

// A writer that takes two bytes a call, then fails or takes nothing.
#[derive(Drop)]
struct Weak {
    calls: u64,
    fails: bool,
}

impl Write for Weak {
    fn write(&mut self, bytes: &[u8]) -> io::Result<usize> {
        self.calls = self.calls.saturating_add(1);
        if self.calls < 3 {
            return Ok(bytes.len().min(2));
        }
        if self.fails {
            return Err(io::Error::from(ErrorKind::BrokenPipe));
        }
        Ok(0)
    }

    fn flush(&mut self) -> io::Result<()> {
        Ok(())
    }
}

#[test]
fn a_real_write_that_fails_or_takes_nothing_is_a_fault(rt: HostRuntime) {
    for fails in [true, false] {
        let mut sink = OutSink::new(Weak { calls: 0, fails });
        assert_eq!(rt; write_all(&mut sink, b"four"), Ok(()));
        assert_eq!(rt; write_all(&mut sink, b"more"), Err(WriteFault));
        assert_eq!(rt; sink.faults, 1);
    }
    let mut out = OutSink::new(io::writer(&rt));
    assert_eq!(rt; write_all(&mut out, b"written\n"), Ok(()));
}
