ghost use Rattle.std.specs.Prelude.{◌≡◌, ◌<◌, ◌≤◌, length, IfOk};
ghost use Rattle.std.specs.Io.{WritesAtMost};
ghost use Rattle.std.specs.Io.KnownBytes.{WriteAppends};
ghost use Rattle.dcr_base.specs.Count.{CountsFault};
ghost use Rattle.dcr_base.specs.Side.{Side};

use crate::Failed;

/// Where bytes go: an output, or one direction of a link.
pub trait Sink {
    /// What it has taken so far, where the sink tells it, and how many writes have failed.
    ghost takes: { Self → Side };

    /// Where the sink is one direction of a link, what the other one tells. No write changes it.
    ghost source_side: { Self → Side };

    /// Takes the first bytes of `bytes`, and answers how many: at least one where there is one.
    /// `Failed` comes when the outside fails; it takes no byte.
    fn write(&mut self, bytes: &[u8]) -> Result<usize, Failed>
        ensures within { WritesAtMost result bytes.now }
        ensures appended { WriteAppends (takes self.old).bytes (takes self.new).bytes result bytes.now }
        ensures at_least_one { 0 < length bytes.now → IfOk result (λ n. 1 ≤ n) }
        ensures counts { CountsFault result (takes self.old).faults (takes self.new).faults }
        ensures apart { source_side self.new ≡ source_side self.old };
}
