ghost use Rattle.std.specs.Prelude.{◌≡◌, ◌+◌, ◌<◌, ◌≤◌, ◌++◌, ◌↔◌, ◌⊎◌, Ok, [], Some, length, take, drop, IsErr, IfOk, OnOk, OnErr};
ghost use Rattle.std.specs.Io.{ReadsAtMost, WritesAtMost};
ghost use Rattle.std.specs.Io.KnownBytes.{ReadConsumes, WriteAppends};
ghost use Rattle.dcr_base.specs.Count.{CountsFault};
ghost use Rattle.dcr_fakes.specs.CallLog.{counted, faulted, FailsNext};
ghost use Rattle.dcr_fakes.specs.SinkState.{fitting, Refuses};
ghost use Rattle.dcr_fakes.specs.SourceState.{piece_len};

use crate::{MemSink, MemSource};
use dcr_base::{Failed, Link, Sink, Source, Spent};
use std::marker::Model;

/// A [`Link`] in memory: a source of what is asked, and a sink that keeps the answers. What stays of it is the link itself.
/// Contracts see the source and the sink.
#[derive(Drop)]
pub struct MemLink {
    source: MemSource,
    sink: MemSink,
}

impl Model for MemLink {
    ghost use Rattle.dcr_fakes.specs.LinkState.{LinkState};

    ghost Value = { LinkState };

    ghost view = { λ link. record { source = link.source; sink = link.sink } };
}

impl MemLink {
    /// A link of these two directions. Takes no memory.
    pub fn new(source: MemSource, sink: MemSink) -> MemLink
        ensures { result ≡ record { source = source; sink = sink } }
    {
        MemLink { source, sink }
    }

    /// The bytes that it has taken, in order.
    pub fn taken(&self) -> &[u8]
        ensures { result.now ≡ self.now.sink.taken }
    {
        self.sink.taken()
    }
}

impl Source for MemLink {
    ghost use Rattle.std.specs.Prelude.{◌≡◌, [], Some};
    ghost use Rattle.dcr_fakes.specs.LinkState.{asked_of, answered_of};

    ghost gives = { asked_of };

    ghost has_ended = { λ link. link.source.left ≡ [] };

    ghost sink_side = { answered_of };

    /// As its source reads: `Failed` comes exactly at the reads of the source that fail, and any other read gives the next
    /// bytes, as many as the step, the buffer and the bytes left allow. What is answered stays as it was.
    fn read(&mut self, buf: &mut [u8]) -> Result<usize, Failed>
        // What each source promises.
        ensures within { ReadsAtMost result buf.new }
        ensures moved { ReadConsumes (Some self.old.source.left) (Some self.new.source.left) result buf.new }
        ensures no_more { Some self.old.source.left ≡ Some [] → IfOk result (λ n. n ≡ 0) }
        ensures ends { result ≡ Ok 0 → 0 < length buf.new → self.new.source.left ≡ [] }
        ensures stays_ended { self.old.source.left ≡ [] → self.new.source.left ≡ [] }
        ensures gives_none { self.old.source.left ≡ [] → IfOk result (λ n. n ≡ 0) }
        ensures counts { CountsFault result self.old.source.calls.faults self.new.source.calls.faults }

        // The exact answer.
        ensures fails { IsErr result ↔ FailsNext self.old.source.calls }
        ensures piece { IfOk result (λ n. n ≡ piece_len self.old.source (length buf.old)) }
        ensures front { IfOk result (λ n. buf.new ≡ take n self.old.source.left ++ drop n buf.old) }
        ensures given { IfOk result (λ n. self.new.source ≡ record self.old.source
            { left = drop n self.old.source.left; calls = counted self.old.source.calls }) }
        ensures failed { OnErr result (self.new.source ≡ record self.old.source { calls = faulted (counted self.old.source.calls) }) }
        ensures untouched { OnErr result (buf.new ≡ buf.old) }
        ensures sink { self.new.sink ≡ self.old.sink }
    {
        self.source.read(buf)
    }

    ghost ended_has_none = { λ link ended. ended };
}

impl Sink for MemLink {
    ghost use Rattle.std.specs.Prelude.{Some};
    ghost use Rattle.dcr_fakes.specs.LinkState.{asked_of, answered_of};

    ghost takes = { answered_of };

    ghost source_side = { asked_of };

    /// As its sink writes: `Failed` comes at the writes of the sink that fail, where there is something to take and no room,
    /// and where memory for the bytes could not be had. What is asked stays as it was.
    fn write(&mut self, bytes: &[u8]) -> Result<usize, Failed>
        // What each sink promises.
        ensures within { WritesAtMost result bytes.now }
        ensures appended { WriteAppends (Some self.old.sink.taken) (Some self.new.sink.taken) result bytes.now }
        ensures at_least_one { 0 < length bytes.now → IfOk result (λ n. 1 ≤ n) }
        ensures counts { CountsFault result self.old.sink.calls.faults self.new.sink.calls.faults }

        // The exact answer, but for want of memory.
        ensures refused { Refuses self.old.sink (length bytes.now) → IsErr result }
        ensures only_refused { OnErr result (Refuses self.old.sink (length bytes.now)
            ⊎ (self.old.sink.memory < length self.old.sink.taken + fitting self.old.sink (length bytes.now))) }
        ensures piece { IfOk result (λ n. n ≡ fitting self.old.sink (length bytes.now)) }
        ensures room { self.new.sink.room ≡ self.old.sink.room }
        ensures memory { self.old.sink.memory ≤ self.new.sink.memory }
        ensures calls { OnOk result (self.new.sink.calls ≡ counted self.old.sink.calls) }
        ensures failed { OnErr result (self.new.sink.calls ≡ faulted (counted self.old.sink.calls)) }
        ensures source { self.new.source ≡ self.old.source }
    {
        self.sink.write(bytes)
    }
}

impl Spent for MemLink {
    ghost use Rattle.std.specs.Prelude.{Some};
    ghost use Rattle.dcr_fakes.specs.LinkState.{asked_of, answered_of};

    ghost unread = { asked_of };

    ghost sent = { answered_of };
}

impl Link for MemLink {
    type Rest = MemLink;

    /// The link itself, with what it had left and what it had taken.
    fn finish(self) -> MemLink
        ensures { result ≡ self }
    {
        self
    }

    ghost use Rattle.std.specs.Prelude.{refl};

    ghost sink_is = { λ link. refl };

    ghost source_is = { λ link. refl };
}
