ghost use Rattle.std.specs.Prelude.{◌≡◌, ◌<◌, ◌≤◌, ◌+◌, length, IfOk, OnOk, OnErr};
ghost use Rattle.std.specs.Io.{WritesAtMost};
ghost use Rattle.std.specs.Io.Iter.{u64_saturate};
ghost use Rattle.std.specs.Io.KnownBytes.{WriteAppends};
ghost use Rattle.dcr_base.specs.Asked.{ToldWrite};
ghost use Rattle.dcr_base.specs.Count.{CountsFault};

use crate::{Failed, Sink, WriteOnce};
use std::io::ErrorKind;

/// A [`Sink`] over a writer of std. It tells the bytes that the writer tells, and counts failed
/// writes in a `u64` that stops at its largest value. A write that takes none of the bytes it was
/// given has failed. A write that a signal interrupted is tried again, at most 2^64 - 1 times in a
/// row, as std's own loops do. No other failure is tried again.
///
/// This is a trusted edge: what a real file, pipe or terminal takes is not proved.
#[derive(Drop)]
pub struct StdSink<W> {
    writer: W,
    faults: u64,
}

impl<W: WriteOnce> StdSink<W> {
    ghost use Rattle.dcr_base.specs.StdSink.{writer_of};
    ghost use Rattle.dcr_base.specs.Side.{side};

    /// A sink that hands on to this writer.
    pub fn new(writer: W) -> StdSink<W>
        ensures takes { ⟦<StdSink<W> as Sink>⟧.takes result ≡ side (W.taken writer) 0 }
    {
        StdSink { writer, faults: 0 }
    }

    /// The writer, where the last write left it. It is not flushed.
    pub fn into_inner(self) -> W
        ensures { result ≡ writer_of self }
    {
        self.writer
    }
}

impl<W: WriteOnce> Sink for StdSink<W> {
    ghost use Rattle.dcr_base.specs.Side.{no_side, side};
    ghost use Rattle.dcr_base.specs.StdSink.{writer_of, failed_writes};

    ghost takes = { λ sink. side (W.taken (writer_of sink)) (failed_writes sink) };

    ghost source_side = { λ _. no_side };

    fn write(&mut self, bytes: &[u8]) -> Result<usize, Failed>
        ensures within { WritesAtMost result bytes.now }
        ensures appended { WriteAppends (W.taken (writer_of self.old))
            (W.taken (writer_of self.new)) result bytes.now }
        ensures at_least_one { 0 < length bytes.now → IfOk result (λ n. 1 ≤ n) }

        // The count is exact.
        ensures counts { CountsFault result (failed_writes self.old) (failed_writes self.new) }
        ensures err_counts_one { OnErr result
            (failed_writes self.new ≡ u64_saturate (failed_writes self.old + 1)) }

        // The writer was asked until it was not interrupted, and no more.
        ensures told { ToldWrite W.answered (length bytes.now) (writer_of self.old) result
            (writer_of self.new) }
    {
        match write_uninterrupted(&mut self.writer, bytes) {
            Ok(n) => Ok(n),
            Err(Failed) => {
                self.faults = self.faults.saturating_add(1);
                Err(Failed)
            }
        }
    }
}

// One write, tried again where a signal interrupts it. One that takes nothing of something has
// failed.
fn write_uninterrupted<W: WriteOnce>(writer: &mut W, bytes: &[u8]) -> Result<usize, Failed>
    ensures within { WritesAtMost result bytes.now }
    ensures appended { WriteAppends (W.taken writer.old) (W.taken writer.new) result bytes.now }
    ensures at_least_one { 0 < length bytes.now → IfOk result (λ n. 1 ≤ n) }
    ensures told { ToldWrite W.answered (length bytes.now) writer.old result writer.new }
{
    let mut times = 0;
    while times < u64::MAX {
        match writer.write_once(bytes) {
            Ok(0) if !bytes.is_empty() => return Err(Failed),
            Ok(n) => return Ok(n),
            Err(e) if e.kind() == ErrorKind::Interrupted => times += 1,
            Err(_) => return Err(Failed),
        }
    }
    Err(Failed)
}
