use crate::Unmade;
use crate::making::make;
use dcr_base::{Disk, Link};
use dcr_cell::StoreName;
use dcr_journal::{Call, Outcome};
use dcr_order::{Ordering, PorterName};
use dcr_porter::Porter;
use dcr_turn::{Pass, Turn};
use std::marker::Model;
use std::sync::Wait;

/// The one order of all calls over sites apart. Calls may come from any thread, which share it by reference. It decides nothing: a
/// site is asked over its link, and what it answers is the entry of the call. One call is asked at a time.
#[derive(Drop)]
pub struct Orderer<
    D: Disk,
    P: Porter,
    N: StoreName<D> + PorterName<P::Link, <P::Link as Link>::Rest>,
> {
    pub(crate) turn: Turn<Ordering<D, P, N>, N>,
}

impl<D: Disk, P: Porter, N: StoreName<D> + PorterName<P::Link, <P::Link as Link>::Rest>> Model
    for Orderer<D, P, N> {
    ghost use Rattle.dcr_order.specs.Orders.{HasRoomAfter, IsNamedApart};

    ghost Value = { Unit {0} };

    ghost view = { λ _. record {} };

    ghost invariant = { λ _. IsNamedApart N.cluster N.turn × HasRoomAfter N.cluster N.capacity };
}

impl<D: Disk, P: Porter, N: StoreName<D> + PorterName<P::Link, <P::Link as Link>::Rest>> Orderer<
    D,
    P,
    N,
> {
    ghost use Rattle.std.specs.Prelude.{◌≡◌, ◌≢◌, ◌⊎◌, List, IfOk, IfErr};
    ghost use Rattle.dcr_journal.specs.declared.call.Entry.{Entry};
    ghost use Rattle.dcr_turn.specs.PassValue.{HasMadeAll};
    ghost use Rattle.dcr_cell.specs.ClusterId.{IsCall};
    ghost use Rattle.dcr_orderer.specs.Making.{EnteredAfter, UnmadeAfter};

    /// Makes one call of the pass's session, and answers what the sites that it asks answer after all entries before it. It waits
    /// for the lock, and then for these sites, one after the other; all other calls wait meanwhile. Takes no memory.
    ///
    /// `Faulted` comes where the execution could be done and the tape failed to keep it. `Away` comes with a site that the call
    /// asks and that is not there: it had no link, or its link failed or gave something else than an answer, and was ended.
    /// `Stopped` comes where a fault ends the entries before it, else `Full` where they are as many as there may
    /// be. No entry was made then.
    pub fn call<R: Wait>(&self, rt: &R, pass: &mut Pass<N>, call: &Call) -> Result<Outcome, Unmade>
        requires { IsCall N.cluster call.now }
        ensures made { IfOk result (λ outcome. (J : List Entry) × EnteredAfter N.cluster N.first N.capacity J pass.old pass.new call.now outcome) }
        ensures unmade { IfErr result (λ why. (J : List Entry) × UnmadeAfter N.cluster N.first N.capacity J pass.old pass.new call.now why) }
    {
        let mut guard = self.turn.lock(rt);
        guard.meet(pass);
        let made = make(&mut guard, pass, call);
        guard.unlock();
        made
    }

    /// The first pass has seen the longer of what both have seen then, which both begin. The session's entries there are those
    /// that its pass made, for both, and the sessions differ. It takes no lock and no memory.
    pub fn learn(&self, to: &mut Pass<N>, from: &mut Pass<N>)
        ensures from { from.new ≡ from.old }
        ensures session { to.new.session ≡ to.old.session }
        ensures made { to.new.made ≡ to.old.made }
        ensures longer { (to.new.front ≡ to.old.front) ⊎ (to.new.front ≡ from.old.front) }
        ensures to_seen { HasMadeAll to.old to.new.front }
        ensures from_seen { HasMadeAll from.old to.new.front }
        ensures apart { to.old.session ≢ from.old.session }
    {
        self.turn.learn(to, from);
    }
}
