ghost use Rattle.std.specs.Prelude.{◌≡◌, ◌<◌, ◌≤◌, ◌+◌, [], length, Ok, Some, IfOk, OnOk, OnErr};
ghost use Rattle.std.specs.Io.{ReadsAtMost};
ghost use Rattle.std.specs.Io.Iter.{u64_saturate};
ghost use Rattle.std.specs.Io.KnownBytes.{ReadConsumes};
ghost use Rattle.dcr_base.specs.Asked.{ToldRead};
ghost use Rattle.dcr_base.specs.Count.{CountsFault};

use crate::{Failed, ReadOnce, Source};
use std::io::ErrorKind;

/// A [`Source`] over a reader of std. It tells the bytes that the reader tells, and counts failed
/// reads in a `u64` that stops at its largest value. A read that a signal interrupted is tried
/// again, at most 2^64 - 1 times in a row, as std's own loops do. No other failure is tried again.
/// Once a read into room gave nothing the source has ended, and the reader is asked no more, also
/// where it would give bytes again, as a terminal does.
///
/// This is a trusted edge: what a real file, pipe or terminal gives is not proved.
#[derive(Drop)]
pub struct StdSource<R> {
    reader: R,
    has_ended: bool,
    faults: u64,
}

impl<R: ReadOnce> StdSource<R> {
    ghost use Rattle.dcr_base.specs.StdSource.{reader_of, HasEnded};
    ghost use Rattle.dcr_base.specs.Side.{side};

    /// A source of what this reader gives from here on.
    pub fn new(reader: R) -> StdSource<R>
        ensures gives { ⟦<StdSource<R> as Source>⟧.gives result ≡ side (R.left reader) 0 }
        ensures open { HasEnded result → ⊥ }
    {
        StdSource {
            reader,
            has_ended: false,
            faults: 0,
        }
    }

    /// The reader, where the last read left it.
    pub fn into_inner(self) -> R
        ensures { result ≡ reader_of self }
    {
        self.reader
    }
}

impl<R: ReadOnce> Source for StdSource<R> {
    ghost use Rattle.dcr_base.specs.Side.{no_side, side};
    ghost use Rattle.dcr_base.specs.StdSource.{reader_of, HasEnded, left_of, left_at_end, failed_reads};

    ghost gives = { λ source. side (left_of R.left source) (failed_reads source) };

    ghost has_ended = { HasEnded };

    ghost sink_side = { λ _. no_side };

    fn read(&mut self, buf: &mut [u8]) -> Result<usize, Failed>
        ensures within { ReadsAtMost result buf.new }
        ensures moved { ReadConsumes (left_of R.left self.old) (left_of R.left self.new) result buf.new }
        ensures no_more { left_of R.left self.old ≡ Some [] → IfOk result (λ n. n ≡ 0) }
        ensures ends { result ≡ Ok 0 → 0 < length buf.new → HasEnded self.new }
        ensures stays_ended { HasEnded self.old → HasEnded self.new }
        ensures gives_none { HasEnded self.old → IfOk result (λ n. n ≡ 0) }

        // The count is exact.
        ensures counts { CountsFault result (failed_reads self.old) (failed_reads self.new) }
        ensures err_counts_one { OnErr result
            (failed_reads self.new ≡ u64_saturate (failed_reads self.old + 1)) }

        // What the reader was asked: nothing at the end, and else until it was not interrupted.
        ensures unasked { HasEnded self.old → (self.new ≡ self.old) × (result ≡ Ok 0) }
        ensures told { (HasEnded self.old → ⊥)
            → ToldRead R.answered (reader_of self.old) result (reader_of self.new) }
    {
        if self.has_ended {
            return Ok(0);
        }
        match read_uninterrupted(&mut self.reader, buf) {
            Ok(n) => {
                self.has_ended = n == 0 && !buf.is_empty();
                Ok(n)
            }
            Err(Failed) => {
                self.faults = self.faults.saturating_add(1);
                Err(Failed)
            }
        }
    }

    ghost ended_has_none = { λ source ended. left_at_end source.has_ended (R.left source.reader) ended };
}

// One read, tried again where a signal interrupts it.
fn read_uninterrupted<R: ReadOnce>(reader: &mut R, buf: &mut [u8]) -> Result<usize, Failed>
    ensures within { ReadsAtMost result buf.new }
    ensures moved { ReadConsumes (R.left reader.old) (R.left reader.new) result buf.new }
    ensures told { ToldRead R.answered reader.old result reader.new }
{
    let mut times = 0;
    while times < u64::MAX {
        match reader.read_once(buf) {
            Ok(n) => return Ok(n),
            Err(e) if e.kind() == ErrorKind::Interrupted => times += 1,
            Err(_) => return Err(Failed),
        }
    }
    Err(Failed)
}
