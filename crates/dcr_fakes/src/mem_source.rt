ghost use Rattle.std.specs.Prelude.{◌≡◌, ◌<◌, ◌≤◌, ◌++◌, ◌↔◌, [], Ok, Some, length, take, drop, IsErr, IfOk, OnOk, OnErr};
ghost use Rattle.std.specs.Io.{ReadsAtMost};
ghost use Rattle.std.specs.Io.KnownBytes.{ReadConsumes};
ghost use Rattle.dcr_base.specs.Count.{CountsFault};
ghost use Rattle.dcr_fakes.specs.CallLog.{no_calls, counted, faulted, FailsNext};
ghost use Rattle.dcr_fakes.specs.SourceState.{piece_len};

use crate::calls::Calls;
use dcr_base::{Failed, Source};
use std::marker::Model;

/// A [`Source`] of bytes in memory. It gives at most `step` of them a read, and fails at the reads
/// that its maker named. Contracts see the bytes left, the step, and the reads so far with their
/// faults.
#[derive(Drop)]
pub struct MemSource {
    bytes: Vec<u8>,
    // How many bytes were given, from the front.
    given: usize,
    step: usize,
    calls: Calls,
}

impl Model for MemSource {
    ghost use Rattle.dcr_fakes.specs.SourceState.{SourceState};

    ghost Value = { SourceState };

    ghost use Rattle.dcr_fakes.specs.MemSourceModel.{source_of, GivesSome};

    ghost view = { source_of };

    ghost invariant = { GivesSome };
}

impl MemSource {
    /// A source of these bytes, of which each read gives at most `step`. `failing` holds the
    /// numbers of the reads that fail, counted from 1. Takes no memory.
    pub fn new(bytes: Vec<u8>, step: usize, failing: Vec<u32>) -> MemSource
        requires { 1 ≤ step }
        ensures left { result.left ≡ bytes.items }
        ensures step { result.step ≡ step }
        ensures no_calls { result.calls ≡ no_calls failing.items }
    {
        MemSource {
            bytes,
            given: 0,
            step,
            calls: Calls::new(failing),
        }
    }
}

impl Source for MemSource {
    ghost use Rattle.std.specs.Prelude.{◌≡◌, [], Some};
    ghost use Rattle.dcr_base.specs.Side.{no_side, side};

    ghost gives = { λ source. side (Some source.left) source.calls.faults };

    ghost has_ended = { λ source. source.left ≡ [] };

    ghost sink_side = { λ _. no_side };

    /// `Failed` comes exactly at the reads that fail. Any other read gives the next bytes: as many
    /// as the step, the buffer and the bytes left allow.
    fn read(&mut self, buf: &mut [u8]) -> Result<usize, Failed>
        // What each source promises.
        ensures within { ReadsAtMost result buf.new }
        ensures moved { ReadConsumes (Some self.old.left) (Some self.new.left) result buf.new }
        ensures no_more { Some self.old.left ≡ Some [] → IfOk result (λ n. n ≡ 0) }
        ensures ends { result ≡ Ok 0 → 0 < length buf.new → self.new.left ≡ [] }
        ensures stays_ended { self.old.left ≡ [] → self.new.left ≡ [] }
        ensures gives_none { self.old.left ≡ [] → IfOk result (λ n. n ≡ 0) }
        ensures counts { CountsFault result self.old.calls.faults self.new.calls.faults }

        // The exact answer.
        ensures fails { IsErr result ↔ FailsNext self.old.calls }
        ensures piece { IfOk result (λ n. n ≡ piece_len self.old (length buf.old)) }
        ensures front { IfOk result (λ n. buf.new ≡ take n self.old.left ++ drop n buf.old) }
        ensures given { IfOk result (λ n. self.new ≡ record self.old
            { left = drop n self.old.left; calls = counted self.old.calls }) }
        ensures failed { OnErr result
            (self.new ≡ record self.old { calls = faulted (counted self.old.calls) }) }
        ensures untouched { OnErr result (buf.new ≡ buf.old) }
    {
        if self.calls.count() {
            return Err(self.calls.fault());
        }
        let left = &self.bytes[self.given..];
        let n = self.step.min(buf.len()).min(left.len());
        buf[..n].copy_from_slice(&left[..n]);
        self.given += n;
        Ok(n)
    }

    ghost ended_has_none = { λ source ended. ended };
}
