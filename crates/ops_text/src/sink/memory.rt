//! A sink in memory, of limited room. It counts its calls, and fails those that it is told to fail.

ghost use Rattle.std.specs.Prelude.{◌≡◌, ◌<◌, ◌≤◌, ◌++◌, ◌↔◌, ◌⊎◌, [], Some, length, take, min, max, IsTrue, IsErr, IfOk, OnOk, OnErr, vec_capacity};
ghost use Rattle.ops_text.specs.Faults.{counted, IsListed};
ghost use Rattle.ops_text.specs.Output.{room_left};

use super::{Sink, SinkFailed};
use crate::OutOfMemory;
use std::alloc::Global;

/// Bytes in memory. It takes no more than `held` has room for, and a call with bytes is a fault where
/// no room is left.
#[derive(Debug, Drop)]
pub struct MemSink {
    pub held: Vec<u8>,
    /// How many bytes a call takes at most, where 0 counts as 1.
    pub most: u64,
    /// The numbers of the calls that are to fail. The first call has number 1.
    pub failing: Vec<u64>,
    /// How many calls there have been, those that failed among them. It stands still at its end.
    pub calls: u64,
    /// How many calls failed. It stands still at its end.
    pub faults: u64,
}

impl Sink for MemSink {
    ghost told = { λ sink. Some sink.held.items };

    ghost faults = { λ sink. sink.faults };

    fn write(&mut self, bytes: &[u8]) -> Result<usize, SinkFailed>
        ensures taken { IfOk result (λ taken.
            taken ≡ min (length bytes.now) (min (max self.old.most 1) (room_left self.old.held))) }
        ensures held { IfOk result (λ taken.
            self.new.held.items ≡ self.old.held.items ++ take taken bytes.now) }
        ensures fails { IsErr result ↔ (IsListed self.old.failing.items self.old.calls
            ⊎ ((0 < length bytes.now) × (room_left self.old.held ≡ 0))) }

        // There is never more room, and each call and each fault counts.
        ensures room { vec_capacity self.new.held ≡ vec_capacity self.old.held }
        ensures ok { OnOk result (self.new ≡ record self.old {
          held = self.new.held;
          calls = counted self.old.calls;
        }) }
        ensures err { OnErr result (self.new ≡ record self.old {
          calls = counted self.old.calls;
          faults = counted self.old.faults;
        }) }
    {
        if self.counts_failing_call() {
            return Err(self.count_fault());
        }
        let room = self.held.capacity() - self.held.len();
        if room == 0 && !bytes.is_empty() {
            return Err(self.count_fault());
        }
        let taken = bytes.len().min((self.most.max(1) as usize).min(room));
        append(&mut self.held, &bytes[..taken]);
        Ok(taken)
    }
}

impl MemSink {
    /// An empty sink with room for `room` bytes, which takes at most `most` bytes a call and fails
    /// none that it has room for.
    pub fn with_room(alloc: Global, room: u64, most: u64) -> Result<MemSink, OutOfMemory>
        ensures empty { IfOk result (λ sink. sink.held.items ≡ []) }
        ensures room { IfOk result (λ sink. vec_capacity sink.held ≡ room) }
        ensures most { IfOk result (λ sink. sink.most ≡ most) }
        ensures failing { IfOk result (λ sink. sink.failing.items ≡ []) }
        ensures calls { IfOk result (λ sink. sink.calls ≡ 0) }
        ensures faults { IfOk result (λ sink. sink.faults ≡ 0) }
    {
        Ok(MemSink {
            held: Vec::with_capacity(alloc, room as usize)?,
            most,
            failing: Vec::new(alloc),
            calls: 0,
            faults: 0,
        })
    }

    /// Counts a call, and tells whether it is to fail.
    fn counts_failing_call(&mut self) -> bool
        ensures listed { IsTrue result ↔ IsListed self.old.failing.items self.old.calls }
        ensures calls { self.new ≡ record self.old { calls = counted self.old.calls } }
    {
        self.calls = self.calls.saturating_add(1);
        self.failing.contains(&self.calls)
    }

    fn count_fault(&mut self) -> SinkFailed
        ensures { self.new ≡ record self.old { faults = counted self.old.faults } }
    {
        self.faults = self.faults.saturating_add(1);
        SinkFailed
    }
}

/// Appends bytes for which there is room.
fn append(held: &mut Vec<u8>, bytes: &[u8])
    requires { length bytes.now ≤ room_left held.old }
    ensures bytes { held.new.items ≡ held.old.items ++ bytes.now }
    ensures room { vec_capacity held.new ≡ vec_capacity held.old }
{
    for byte in bytes {
        held.push_reserved(*byte);
    }
}
