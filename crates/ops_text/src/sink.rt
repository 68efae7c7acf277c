//! Where bytes are written to, as many at a time as it takes. It knows nothing of what they say.

ghost use Rattle.std.specs.Prelude.{◌≡◌, ℕ, ◌<◌, ◌≤◌, List, Option, length, take, OnOk, OnErr, IfOk};
ghost use Rattle.ops_text.specs.Faults.{Rose};
ghost use Rattle.ops_text.specs.Output.{Extends, ExtendsInPart};

mod memory;
mod out;
mod sure;

pub use memory::MemSink;
pub use out::OutSink;
pub use sure::SureSink;

/// Bytes couldn't be written.
#[derive(Clone, Copy, Debug, PartialEq, Eq)]
pub struct SinkFailed;

/// Where bytes are written to.
pub trait Sink {
    /// The bytes that it holds, or none where it doesn't tell them.
    ghost told: { Self → Option (List ℕ) };

    /// How many faults have come. It never falls.
    ghost faults: { Self → ℕ };

    /// Takes a front of the bytes, at least one byte where there is one, and answers how many.
    fn write(&mut self, bytes: &[u8]) -> Result<usize, SinkFailed>
        ensures within { IfOk result (λ taken. taken ≤ length bytes.now) }
        ensures some { IfOk result (λ taken. 0 < length bytes.now → 0 < taken) }
        ensures ok { IfOk result (λ taken.
            Extends (told self.old) (told self.new) (take taken bytes.now)) }
        ensures err { OnErr result (told self.new ≡ told self.old) }
        ensures failed { OnErr result (Rose (faults self.old) (faults self.new)) }
        ensures passed { OnOk result (faults self.new ≡ faults self.old) }
        ensures later { faults self.old ≤ faults self.new };
}

/// Not all was written.
#[derive(Clone, Copy, Debug, PartialEq, Eq)]
pub struct WriteFault;

/// Writes all the bytes, by as many calls as it takes. After a fault a part of them, from the first
/// on, was written. It takes no memory.
pub fn write_all<K: Sink>(sink: &mut K, bytes: &[u8]) -> Result<(), WriteFault>
    ensures ok { OnOk result (Extends (K.told sink.old) (K.told sink.new) bytes.now) }
    ensures part { OnErr result (ExtendsInPart (K.told sink.old) (K.told sink.new) bytes.now) }
    ensures fault { OnErr result (Rose (K.faults sink.old) (K.faults sink.new)) }
    ensures no_fault { OnOk result (K.faults sink.new ≡ K.faults sink.old) }
    ensures later { K.faults sink.old ≤ K.faults sink.new }
{
    let mut done = 0;
    while done < bytes.len() {
        let Ok(taken) = sink.write(&bytes[done..]) else {
            return Err(WriteFault);
        };
        done += taken;
    }
    Ok(())
}
