ghost use Rattle.std.specs.Prelude.{◌≡◌, ◌+◌, ◌<◌, ◌≤◌, ◌⊎◌, [], Some, length, IsErr, IfOk, OnOk, OnErr};
ghost use Rattle.std.specs.Io.{WritesAtMost};
ghost use Rattle.std.specs.Io.KnownBytes.{WriteAppends};
ghost use Rattle.dcr_base.specs.Count.{CountsFault};
ghost use Rattle.dcr_fakes.specs.CallLog.{no_calls, counted, faulted};
ghost use Rattle.dcr_fakes.specs.SinkState.{fitting, Refuses};

use crate::calls::Calls;
use dcr_base::{Failed, Sink};
use std::alloc::Global;
use std::marker::Model;

/// A [`Sink`] that keeps the bytes it takes, up to a room for all. It fails at the next write of
/// something, and at the writes that its maker named. Contracts see the bytes taken, the room, the
/// bytes that it has memory for, and the writes so far with their faults.
#[derive(Drop)]
pub struct MemSink {
    taken: Vec<u8>,
    room: usize,
    calls: Calls,
}

impl Model for MemSink {
    ghost use Rattle.dcr_fakes.specs.SinkState.{SinkState};

    ghost Value = { SinkState };

    ghost use Rattle.dcr_fakes.specs.MemSinkModel.{sink_of, FitsRoom};

    ghost view = { sink_of };

    ghost invariant = { FitsRoom };
}

impl MemSink {
    /// A sink that takes `room` bytes in all. Takes no memory.
    pub fn new(alloc: Global, room: usize) -> MemSink
        ensures taken { result.taken ≡ [] }
        ensures room { result.room ≡ room }
        ensures no_calls { result.calls ≡ no_calls [] }
    {
        MemSink::failing(alloc, room, Vec::new(alloc))
    }

    /// The same, where the writes of these numbers fail too, counted from 1. Takes no memory.
    pub fn failing(alloc: Global, room: usize, failing: Vec<u32>) -> MemSink
        ensures taken { result.taken ≡ [] }
        ensures room { result.room ≡ room }
        ensures no_calls { result.calls ≡ no_calls failing.items }
    {
        MemSink {
            taken: Vec::new(alloc),
            room,
            calls: Calls::new(failing),
        }
    }

    /// The bytes taken.
    pub fn taken(&self) -> &[u8]
        ensures taken { result.now ≡ self.now.taken }
        ensures room { length self.now.taken ≤ self.now.room }
    {
        self.taken.as_slice()
    }
}

impl Sink for MemSink {
    ghost use Rattle.std.specs.Prelude.{Some};
    ghost use Rattle.dcr_base.specs.Side.{no_side, side};

    ghost takes = { λ sink. side (Some sink.taken) sink.calls.faults };

    ghost source_side = { λ _. no_side };

    /// Takes as much of the bytes as there is room for. `Failed` comes at the writes that fail,
    /// where there is something to take and no room, and where memory for the bytes could not be
    /// had.
    fn write(&mut self, bytes: &[u8]) -> Result<usize, Failed>
        // What each sink promises.
        ensures within { WritesAtMost result bytes.now }
        ensures appended { WriteAppends (Some self.old.taken) (Some self.new.taken)
            result bytes.now }
        ensures at_least_one { 0 < length bytes.now → IfOk result (λ n. 1 ≤ n) }
        ensures counts { CountsFault result self.old.calls.faults self.new.calls.faults }

        // The exact answer, but for want of memory.
        ensures refused { Refuses self.old (length bytes.now) → IsErr result }
        ensures only_refused { OnErr result (Refuses self.old (length bytes.now)
            ⊎ (self.old.memory < length self.old.taken + fitting self.old (length bytes.now))) }
        ensures piece { IfOk result (λ n. n ≡ fitting self.old (length bytes.now)) }
        ensures room { self.new.room ≡ self.old.room }
        ensures memory { self.old.memory ≤ self.new.memory }
        ensures counted { OnOk result (self.new.calls ≡ counted self.old.calls) }
        ensures failed { OnErr result (self.new.calls ≡ faulted (counted self.old.calls)) }
    {
        if self.calls.count() {
            return Err(self.calls.fault());
        }
        let n = bytes.len().min(self.room - self.taken.len());
        if n == 0 && !bytes.is_empty() {
            return Err(self.calls.fault());
        }
        match self.taken.extend_from_slice(&bytes[..n]) {
            Ok(()) => Ok(n),
            Err(_) => Err(self.calls.fault()),
        }
    }
}
