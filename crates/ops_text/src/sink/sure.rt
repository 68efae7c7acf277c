//! A sink that never fails.

ghost use Rattle.std.specs.Prelude.{◌≡◌, ◌+◌, ◌-◌, ◌^◌, None, length, min};

use super::{Sink, SinkFailed};

/// Takes everything, and keeps how many bytes there were alone. So it tells nothing of them.
#[derive(Debug, Drop)]
pub struct SureSink {
    /// How many bytes it took. It stands still at its end.
    pub length: u64,
}

impl Sink for SureSink {
    ghost told = { λ sink. None };

    ghost faults = { λ sink. 0 };

    fn write(&mut self, bytes: &[u8]) -> Result<usize, SinkFailed>
        ensures all { result ≡ Ok (length bytes.now) }
        ensures length { self.new.length ≡ min (self.old.length + length bytes.now) (2 ^ 64 - 1) }
    {
        self.length = self.length.saturating_add(bytes.len() as u64);
        Ok(bytes.len())
    }
}
