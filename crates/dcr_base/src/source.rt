ghost use Rattle.std.specs.Prelude.{◌≡◌, ◌<◌, [], length, Some, Ok, IfOk};
ghost use Rattle.std.specs.Io.{ReadsAtMost};
ghost use Rattle.std.specs.Io.KnownBytes.{ReadConsumes, IsAtEnd};
ghost use Rattle.dcr_base.specs.Count.{CountsFault};
ghost use Rattle.dcr_base.specs.Side.{Side};

use crate::Failed;

/// Where bytes come from: an input, or one direction of a link.
///
/// A source ends at the first read into room that gives nothing, and stays at its end: from there on no read gives a
/// byte. So each run of reads is one that a source can show which tells its bytes.
pub trait Source {
    /// What it has left, where the source tells it, and how many reads have failed.
    ghost gives: { Self → Side };

    /// That the source is at its end, whether it tells its bytes or not.
    ghost has_ended: { Self → Type 0 };

    /// Where the source is one direction of a link, what the other one tells. No read changes it.
    ghost sink_side: { Self → Side };

    /// Moves the next bytes into the front of `buf`, and answers how many. For a `buf` with room,
    /// 0 is the end of input, and each later read that doesn't fail answers 0. `Failed` comes when the
    /// outside fails; it takes no byte.
    fn read(&mut self, buf: &mut [u8]) -> Result<usize, Failed>
        ensures within { ReadsAtMost result buf.new }
        ensures moved { ReadConsumes (gives self.old).bytes (gives self.new).bytes result buf.new }
        ensures no_more { (gives self.old).bytes ≡ Some [] → IfOk result (λ n. n ≡ 0) }
        ensures ends { result ≡ Ok 0 → 0 < length buf.new → has_ended self.new }
        ensures stays_ended { has_ended self.old → has_ended self.new }
        ensures gives_none { has_ended self.old → IfOk result (λ n. n ≡ 0) }
        ensures counts { CountsFault result (gives self.old).faults (gives self.new).faults }
        ensures apart { sink_side self.new ≡ sink_side self.old };

    /// A source at its end that tells its bytes has none left.
    ghost ended_has_none: { (source : Self) → has_ended source → IsAtEnd (gives source).bytes };
}
