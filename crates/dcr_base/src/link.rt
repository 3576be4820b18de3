ghost use Rattle.std.specs.Prelude.{◌≡◌};
ghost use Rattle.dcr_base.specs.Side.{Side};

use crate::{Sink, Source};

/// What stays of a link that was ended. It has no calls, and tells what the link told at its end.
pub trait Spent {
    /// What was left, where the link told it, and how many reads had failed.
    ghost unread: { Self → Side };

    /// What it had taken, where the link told it, and how many writes had failed.
    ghost sent: { Self → Side };
}

/// A connection to somebody who asks and is answered: a source of what is asked, and a sink for the answers. Reading leaves
/// alone what was taken, and writing what is left.
pub trait Link: Source + Sink {
    /// What stays of it when it is ended.
    type Rest: Spent + Drop;

    /// Ends the link: nothing is read from it or written to it any more. Takes no memory.
    fn finish(self) -> Self::Rest
        ensures unread { Self.Rest.unread result ≡ Self.gives self }
        ensures sent { Self.Rest.sent result ≡ Self.takes self };

    /// What reads leave alone is what it has taken.
    ghost sink_is: { (link : Self) → Self.sink_side link ≡ Self.takes link };

    /// What writes leave alone is what it has left.
    ghost source_is: { (link : Self) → Self.source_side link ≡ Self.gives link };
}
