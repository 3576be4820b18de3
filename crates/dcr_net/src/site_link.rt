ghost use Rattle.std.specs.Prelude.{◌≡◌, ◌<◌, ◌≤◌, ◌+◌, Ok, [], Some, false, length, IsTrue, IfOk, OnOk, OnErr};
ghost use Rattle.std.specs.Io.{ReadsAtMost, WritesAtMost};
ghost use Rattle.std.specs.Io.Iter.{u64_saturate};
ghost use Rattle.std.specs.Io.KnownBytes.{ReadConsumes, WriteAppends};
ghost use Rattle.dcr_base.specs.Count.{CountsFault};

use dcr_base::{Failed, Link, Sink, Source, Spent, StdSink, StdSource};
use std::marker::Model;
use std::net::TcpStream;

/// What stays of a [`SiteLink`]: how many of its reads and of its writes had failed, each 2^64 - 1 where there were more.
#[derive(Clone, Copy, Debug, PartialEq, Eq)]
pub struct SiteRest {
    /// How many reads had failed.
    pub failed_reads: u64,
    /// How many writes had failed.
    pub failed_writes: u64,
}

/// A [`Link`] over one connection between a site and who orders its calls. It tells no bytes. Each write is sent at once. The
/// connection is closed when the link is dropped, whatever is still on its way: neither side waits for the other. Once a read
/// into room gave nothing the link has ended, and the connection is asked no more for bytes. A call that a signal interrupted is
/// tried again, as those of [`StdSource`] and [`StdSink`] are; no other failure is, and one that waited too long has failed. No
/// call takes memory. Contracts see whether it has ended, and what failed.
///
/// This is a trusted edge: what a real connection gives and takes is not proved.
#[derive(Drop)]
pub struct SiteLink {
    stream: TcpStream,
    has_ended: bool,
    faults: SiteRest,
}

impl Model for SiteLink {
    ghost use Rattle.dcr_net.specs.SiteLink.{SiteLinkValue, link_of};

    ghost Value = { SiteLinkValue };

    ghost view = { link_of };
}

impl SiteLink {
    /// Over a connection that sends at once.
    pub(crate) fn new(stream: TcpStream) -> SiteLink
        ensures open { result.has_ended ≡ false }
        ensures no_failed_reads { result.faults.failed_reads ≡ 0 }
        ensures no_failed_writes { result.faults.failed_writes ≡ 0 }
    {
        SiteLink {
            stream,
            has_ended: false,
            faults: SiteRest {
                failed_reads: 0,
                failed_writes: 0,
            },
        }
    }
}

impl Source for SiteLink {
    ghost use Rattle.std.specs.Prelude.{IsTrue};
    ghost use Rattle.dcr_base.specs.Side.{side};
    ghost use Rattle.dcr_net.specs.SiteLink.{untold};

    ghost gives = { λ link. side untold link.faults.failed_reads };

    ghost has_ended = { λ link. IsTrue link.has_ended };

    ghost sink_side = { λ link. side untold link.faults.failed_writes };

    fn read(&mut self, buf: &mut [u8]) -> Result<usize, Failed>
        ensures within { ReadsAtMost result buf.new }
        ensures moved { ReadConsumes untold untold result buf.new }
        ensures no_more { untold ≡ Some [] → IfOk result (λ n. n ≡ 0) }
        ensures ends { result ≡ Ok 0 → 0 < length buf.new → IsTrue self.new.has_ended }
        ensures stays_ended { IsTrue self.old.has_ended → IsTrue self.new.has_ended }
        ensures gives_none { IsTrue self.old.has_ended → IfOk result (λ n. n ≡ 0) }
        ensures counts { CountsFault result self.old.faults.failed_reads self.new.faults.failed_reads }

        // The count is exact, and that of the writes stays.
        ensures ok_counts_none { OnOk result (self.new.faults ≡ self.old.faults) }
        ensures err_counts_one { OnErr result
            (self.new.faults.failed_reads ≡ u64_saturate (self.old.faults.failed_reads + 1)) }
        ensures writes { self.new.faults.failed_writes ≡ self.old.faults.failed_writes }

        // At the end nothing is asked.
        ensures unasked { IsTrue self.old.has_ended → (self.new ≡ self.old) × (result ≡ Ok 0) }
    {
        if self.has_ended {
            return Ok(0);
        }
        match StdSource::new(&self.stream).read(buf) {
            Ok(n) => {
                self.has_ended = n == 0 && !buf.is_empty();
                Ok(n)
            }
            Err(Failed) => {
                self.faults.failed_reads = self.faults.failed_reads.saturating_add(1);
                Err(Failed)
            }
        }
    }

    ghost ended_has_none = { λ link ended. tt };
}

impl Sink for SiteLink {
    ghost use Rattle.dcr_base.specs.Side.{side};
    ghost use Rattle.dcr_net.specs.SiteLink.{untold};

    ghost takes = { λ link. side untold link.faults.failed_writes };

    ghost source_side = { λ link. side untold link.faults.failed_reads };

    fn write(&mut self, bytes: &[u8]) -> Result<usize, Failed>
        ensures within { WritesAtMost result bytes.now }
        ensures appended { WriteAppends untold untold result bytes.now }
        ensures at_least_one { 0 < length bytes.now → IfOk result (λ n. 1 ≤ n) }
        ensures counts { CountsFault result self.old.faults.failed_writes self.new.faults.failed_writes }

        // The count is exact, and what is read stays as it was.
        ensures ok_counts_none { OnOk result (self.new.faults ≡ self.old.faults) }
        ensures err_counts_one { OnErr result
            (self.new.faults.failed_writes ≡ u64_saturate (self.old.faults.failed_writes + 1)) }
        ensures reads { self.new.faults.failed_reads ≡ self.old.faults.failed_reads }
        ensures ended { self.new.has_ended ≡ self.old.has_ended }
    {
        match StdSink::new(&self.stream).write(bytes) {
            Ok(n) => Ok(n),
            Err(Failed) => {
                self.faults.failed_writes = self.faults.failed_writes.saturating_add(1);
                Err(Failed)
            }
        }
    }
}

impl Spent for SiteRest {
    ghost use Rattle.dcr_base.specs.Side.{side};
    ghost use Rattle.dcr_net.specs.SiteLink.{untold};

    ghost unread = { λ rest. side untold rest.failed_reads };

    ghost sent = { λ rest. side untold rest.failed_writes };
}

impl Link for SiteLink {
    type Rest = SiteRest;

    /// Closes the connection.
    fn finish(self) -> SiteRest
        ensures { result ≡ self.faults }
    {
        self.faults
    }

    ghost use Rattle.std.specs.Prelude.{refl};

    ghost sink_is = { λ link. refl };

    ghost source_is = { λ link. refl };
}
