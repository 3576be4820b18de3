ghost use Rattle.std.specs.Prelude.{◌≡◌, ◌≢◌, ◌+◌, ◌<◌, ◌≤◌, IfSome, IfNone, map};
ghost use Rattle.dcr_base.specs.Link.{IsUnfailed};
ghost use Rattle.dcr_serve.specs.Left.{numbers_from, AreAllButFirst, HasNumber};
ghost use Rattle.dcr_serve.specs.Stand.{StandsSo};

use crate::counter::Counter;
use crate::{DeskName, DeskShare, DoorStand, Numbered};
use dcr_base::Door;
use std::sync::ledger::Blank;
use std::sync::{Mutex, Wait};

/// A desk at which workers take items in order, each with the next link that comes in at the door. Workers may be
/// threads, which share it by reference.
#[derive(Drop)]
pub struct Desk<B: Door, P: Numbered, N: DeskName<B::Link>> {
    counter: Mutex<Counter<B, P, N>>,
}

impl<B: Door, P: Numbered, N: DeskName<B::Link>> Desk<B, P, N> {
    /// A desk with these items and this door, and the share that has all parts of the blank and no item taken. Takes
    /// no memory.
    pub fn new(door: B, items: Vec<P>, blank: Blank) -> (Desk<B, P, N>, DeskShare<N>)
        requires in_order { map P.number items.items ≡ numbers_from 0 N.items }
        requires some_part { 0 < blank.parts }
        requires ledger { (blank.name ≡ N.name) × (blank.parts ≡ N.parts) }
        requires faults { B.tells.faults door ≡ N.faults }
        requires links { B.tells.links door ≡ N.links }
        ensures parts { result.1.parts ≡ N.parts }
        ensures none_taken { result.1.taken ≡ 0 }
    {
        let (counter, share) = Counter::new(door, items, blank);
        let desk = Desk {
            counter: Mutex::new(counter),
        };
        (desk, share)
    }

    /// The first item that is left, with the next link of the door: item n comes with the n-th link that the door had
    /// at first. None where no item is left, and where the door has shut or failed; from the first None on it is
    /// always None. The door is asked only where an item is left. It waits for the lock, and for the door. Takes no
    /// memory.
    pub fn take<R: Wait>(&self, rt: &R, share: &mut DeskShare<N>) -> Option<(P, B::Link)>
        ensures number { IfSome result (λ given.
            (share.old.taken ≤ P.number given.0) × (P.number given.0 < N.items)) }
        ensures link { IfSome result (λ given. HasNumber N.links (P.number given.0) given.1) }
        ensures fresh { IfSome result (λ given. IsUnfailed B.tells.each given.1) }
        ensures counted { IfSome result (λ _. share.new.taken ≡ share.old.taken + 1) }
        ensures parts { share.new.parts ≡ share.old.parts }
        ensures none { IfNone result (share.new ≡ share.old) }
    {
        self.counter.lock(rt).take(share)
    }

    /// Ends the desk: its door, the items that are left in order, and how the door stands: `Shut` where it had no link
    /// to give when it was asked last, `Failed` where it failed then, else `Open`. Takes no memory.
    pub fn finish(self, share: DeskShare<N>) -> (B, Vec<P>, DoorStand)
        requires { share.parts ≡ N.parts }
        ensures items { map P.number result.1.items ≡ numbers_from share.taken N.items }
        ensures within { share.taken ≤ N.items }
        ensures links { AreAllButFirst N.links share.taken (B.tells.links result.0) }
        ensures stands { StandsSo B.tells N.faults result.2 result.0 }
    {
        self.counter.into_inner().finish(share)
    }
}
