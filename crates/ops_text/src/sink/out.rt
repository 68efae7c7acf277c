//! A sink over a writer of the system, as standard output.

ghost use Rattle.std.specs.Prelude.{◌≡◌, ◌<◌, ◌≤◌, None, length, is_err, IfOk};
ghost use Rattle.ops_text.specs.Faults.{counted_if};

use super::{Sink, SinkFailed};
use std::io::Write;

/// What it is given goes to a writer at once, and it tells nothing of it. A write that takes none of
/// the bytes is a fault.
#[derive(Drop)]
pub struct OutSink<W: Write + Drop> {
    out: W,
    /// How many calls failed. It stands still at its end.
    pub faults: u64,
}

impl<W: Write + Drop> OutSink<W> {
    /// A sink without a fault so far.
    pub fn new(out: W) -> OutSink<W>
        ensures { result.faults ≡ 0 }
    {
        OutSink { out, faults: 0 }
    }
}

impl<W: Write + Drop> Sink for OutSink<W> {
    ghost told = { λ sink. None };

    ghost faults = { λ sink. sink.faults };

    fn write(&mut self, bytes: &[u8]) -> Result<usize, SinkFailed>
        ensures within { IfOk result (λ taken. taken ≤ length bytes.now) }
        ensures some { IfOk result (λ taken. 0 < length bytes.now → 0 < taken) }
        ensures counts { self.new.faults ≡ counted_if (is_err result) self.old.faults }
    {
        match self.out.write(bytes) {
            Ok(taken) if taken > 0 || bytes.is_empty() => Ok(taken),
            _ => {
                self.faults = self.faults.saturating_add(1);
                Err(SinkFailed)
            }
        }
    }
}
