ghost use Rattle.std.specs.Prelude.{◌≡◌, ◌<◌, ◌≤◌, ◌+◌, Ok, [], Some, false, length, IsTrue, IfOk, OnOk, OnErr};
ghost use Rattle.std.specs.Io.{ReadsAtMost, WritesAtMost};
ghost use Rattle.std.specs.Io.Iter.{u64_saturate};
ghost use Rattle.std.specs.Io.KnownBytes.{ReadConsumes, WriteAppends};
ghost use Rattle.dcr_base.specs.Count.{CountsFault};

use dcr_base::{Failed, Link, Sink, Source, Spent, StdSink, StdSource};
use std::marker::Model;
use std::net::{Shutdown, TcpStream};
use std::time::Duration;

/// What stays of a [`TcpLink`]: how many of its reads and of its writes had failed, each 2^64 - 1 where there were
/// more.
#[derive(Clone, Copy, Debug, PartialEq, Eq)]
pub struct TcpRest {
    /// How many reads had failed.
    pub failed_reads: u64,
    /// How many writes had failed.
    pub failed_writes: u64,
}

// What a client still sends when its link is dropped is taken by so many reads at most, of at most so many bytes each, and
// none waits longer.
const LAST_READS: u32 = 32;

const LAST_BYTES: usize = 65_536;

const LAST_MILLIS: u64 = 500;

/// A [`Link`] over one connection. It tells no bytes. Each write is sent at once. Before the connection is dropped its
/// writing side is shut, and what the client still sends is read and thrown away, up to its end, a failure, 2 MiB or 16
/// seconds: a connection that is closed while bytes are unread is reset, and replies that are on their way are lost. Once a read into room gave nothing the link has ended,
/// and the connection is asked no more for bytes. A call that a signal interrupted is tried again, as those of
/// [`StdSource`] and [`StdSink`] are; no other failure is. No call takes memory. Contracts see whether it has ended,
/// and what failed.
///
/// This is a trusted edge: what a real connection gives and takes is not proved.
pub struct TcpLink {
    stream: TcpStream,
    has_ended: bool,
    faults: TcpRest,
}

impl Model for TcpLink {
    ghost use Rattle.dcr_serve.specs.TcpLink.{TcpLinkValue, link_of};

    ghost Value = { TcpLinkValue };

    ghost view = { link_of };
}

impl TcpLink {
    /// Over a connection that sends at once.
    pub(crate) fn new(stream: TcpStream) -> TcpLink
        ensures open { result.has_ended ≡ false }
        ensures no_failed_reads { result.faults.failed_reads ≡ 0 }
        ensures no_failed_writes { result.faults.failed_writes ≡ 0 }
    {
        TcpLink {
            stream,
            has_ended: false,
            faults: TcpRest {
                failed_reads: 0,
                failed_writes: 0,
            },
        }
    }
}

impl Source for TcpLink {
    ghost use Rattle.std.specs.Prelude.{IsTrue};
    ghost use Rattle.dcr_base.specs.Side.{side};
    ghost use Rattle.dcr_serve.specs.TcpLink.{untold};

    ghost gives = { λ link. side untold link.faults.failed_reads };

    ghost has_ended = { λ link. IsTrue link.has_ended };

    ghost sink_side = { λ link. side untold link.faults.failed_writes };

    fn read(&mut self, buf: &mut [u8]) -> Result<usize, Failed>
        ensures within { ReadsAtMost result buf.new }
        ensures moved { ReadConsumes untold untold result buf.new }
        ensures no_more { untold ≡ Some [] → IfOk result (λ n. n ≡ 0) }
        ensures ends { result ≡ Ok 0 → 0 < length buf.new → IsTrue self.new.has_ended }
        ensures stays_ended { IsTrue self.old.has_ended → IsTrue self.new.has_ended }
        ensures gives_none { IsTrue self.old.has_ended → IfOk result (λ n. n ≡ 0) }
        ensures counts { CountsFault result self.old.faults.failed_reads self.new.faults.failed_reads }

        // The count is exact, and that of the writes stays.
        ensures ok_counts_none { OnOk result (self.new.faults ≡ self.old.faults) }
        ensures err_counts_one { OnErr result
            (self.new.faults.failed_reads ≡ u64_saturate (self.old.faults.failed_reads + 1)) }
        ensures writes { self.new.faults.failed_writes ≡ self.old.faults.failed_writes }

        // At the end nothing is asked.
        ensures unasked { IsTrue self.old.has_ended → (self.new ≡ self.old) × (result ≡ Ok 0) }
    {
        if self.has_ended {
            return Ok(0);
        }
        match StdSource::new(&self.stream).read(buf) {
            Ok(n) => {
                self.has_ended = n == 0 && !buf.is_empty();
                Ok(n)
            }
            Err(Failed) => {
                self.faults.failed_reads = self.faults.failed_reads.saturating_add(1);
                Err(Failed)
            }
        }
    }

    ghost ended_has_none = { λ link ended. tt };
}

impl Sink for TcpLink {
    ghost use Rattle.dcr_base.specs.Side.{side};
    ghost use Rattle.dcr_serve.specs.TcpLink.{untold};

    ghost takes = { λ link. side untold link.faults.failed_writes };

    ghost source_side = { λ link. side untold link.faults.failed_reads };

    fn write(&mut self, bytes: &[u8]) -> Result<usize, Failed>
        ensures within { WritesAtMost result bytes.now }
        ensures appended { WriteAppends untold untold result bytes.now }
        ensures at_least_one { 0 < length bytes.now → IfOk result (λ n. 1 ≤ n) }
        ensures counts { CountsFault result self.old.faults.failed_writes self.new.faults.failed_writes }

        // The count is exact, and what is read stays as it was.
        ensures ok_counts_none { OnOk result (self.new.faults ≡ self.old.faults) }
        ensures err_counts_one { OnErr result
            (self.new.faults.failed_writes ≡ u64_saturate (self.old.faults.failed_writes + 1)) }
        ensures reads { self.new.faults.failed_reads ≡ self.old.faults.failed_reads }
        ensures ended { self.new.has_ended ≡ self.old.has_ended }
    {
        match StdSink::new(&self.stream).write(bytes) {
            Ok(n) => Ok(n),
            Err(Failed) => {
                self.faults.failed_writes = self.faults.failed_writes.saturating_add(1);
                Err(Failed)
            }
        }
    }
}

impl Spent for TcpRest {
    ghost use Rattle.dcr_base.specs.Side.{side};
    ghost use Rattle.dcr_serve.specs.TcpLink.{untold};

    ghost unread = { λ rest. side untold rest.failed_reads };

    ghost sent = { λ rest. side untold rest.failed_writes };
}

impl Link for TcpLink {
    type Rest = TcpRest;

    /// Drops the connection.
    fn finish(self) -> TcpRest
        ensures { result ≡ self.faults }
    {
        let rest = self.faults;
        drop(self);
        rest
    }

    ghost use Rattle.std.specs.Prelude.{refl};

    ghost sink_is = { λ link. refl };

    ghost source_is = { λ link. refl };
}

impl Drop for TcpLink {
    /// Shuts the writing side, and reads what still comes.
    fn drop(self) {
        let TcpLink {
            stream,
            has_ended,
            faults: _,
        } = self;
        if stream.shutdown(Shutdown::Write).is_ok() && !has_ended {
            read_rest(&stream);
        }
    }
}

// Reads what the client still sends, for a while.
fn read_rest(stream: &TcpStream) {
    let wait = Duration::from_millis(LAST_MILLIS);
    if stream.set_read_timeout(Some(wait)).is_err() {
        return;
    }
    let mut bytes = [0; LAST_BYTES];
    for _ in 0..LAST_READS {
        match StdSource::new(stream).read(&mut bytes) {
            Ok(0) | Err(Failed) => return,
            Ok(_) => {}
        }
    }
}
