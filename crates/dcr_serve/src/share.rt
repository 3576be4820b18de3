ghost use Rattle.std.specs.Prelude.{◌≡◌, ◌+◌, ◌<◌};

use std::marker::Model;
use std::sync::ledger::{Ledger, Share};

/// A worker's part in a desk. Contracts see its parts, of which there is at least one, and the number of items taken
/// with it. It takes no memory. One that is let go takes its parts with it, so that the desk can't be finished any
/// more.
#[derive(Drop)]
pub struct DeskShare<N: Ledger> {
    pub(crate) share: Share<N>,
}

impl<N: Ledger> Model for DeskShare<N> {
    ghost use Rattle.dcr_serve.specs.ShareModel.{share_of, HasAPart};
    ghost use Rattle.dcr_serve.specs.ShareValue.{ShareValue};

    ghost Value = { ShareValue };

    ghost view = { share_of };

    ghost invariant = { HasAPart };
}

impl<N: Ledger> DeskShare<N> {
    /// Gives one part, with no item taken. The items taken so far stay with this share. Takes no memory.
    pub fn split(&mut self) -> DeskShare<N>
        requires { 1 < self.old.parts }
        ensures one { result.parts ≡ 1 }
        ensures none_taken { result.taken ≡ 0 }
        ensures parts { self.new.parts + 1 ≡ self.old.parts }
        ensures taken { self.new.taken ≡ self.old.taken }
    {
        DeskShare {
            share: self.share.split_off(1, 0),
        }
    }

    /// Adds the parts of another share, and the items taken with it. Takes no memory.
    pub fn merge(&mut self, other: DeskShare<N>)
        ensures parts { self.new.parts ≡ self.old.parts + other.parts }
        ensures taken { self.new.taken ≡ self.old.taken + other.taken }
    {
        let DeskShare { share } = other;
        self.share.merge(share);
    }
}
