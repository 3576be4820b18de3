ghost use Rattle.std.specs.Prelude.{◌≡◌, ◌≢◌, ◌⊎◌, ◌<◌, ◌≤◌, List, [], ◌∷◌, ◌++◌, length, IfOk, IfErr};
ghost use Rattle.std.specs.List.{All};
ghost use Rattle.dcr_journal.specs.declared.call.Entry.{Entry};
ghost use Rattle.dcr_turn.specs.FrontValue.{FrontValue, HasMissedNone, new_fronts};
ghost use Rattle.dcr_turn.specs.PassValue.{HasMadeAll, new_passes};

use crate::ledger::Ledger;
use crate::order::Order;
use crate::{Front, FrontRow, Keeps, Pass, TurnBlank, TurnGuard, TurnName, TurnReady};
use dcr_journal::Journal;
use dcr_lock::{Placed, Row};
use dcr_set::SiteId;
use std::alloc::Global;
use std::sync::Wait;

/// The journal and what is kept beside it.
#[derive(Drop)]
pub(crate) struct Beside<K, N: TurnName> {
    pub(crate) ledger: Ledger<N>,
    pub(crate) kept: K,
}

/// What lies under the journal's lock. It has memory of its own, so that little is moved when the lock is taken and given
/// back.
#[derive(Drop)]
pub(crate) struct Locked<K, N: TurnName> {
    pub(crate) beside: Box<Beside<K, N>>,
}

impl<K: Keeps, N: TurnName> Placed for Locked<K, N> {
    ghost use Rattle.std.specs.Prelude.{◌≡◌, []};

    ghost belongs = { λ _ locked. (locked.beside.value.ledger.enlisted ≡ []) × K.stands locked.beside.value.ledger.entries locked.beside.value.kept };
}

/// The journal and a kept value behind one lock: the one order of all calls. Threads share it by reference.
#[derive(Drop)]
pub struct Turn<K: Keeps, N: TurnName> {
    row: Row<Locked<K, N>>,
    order: Order<N>,
    ghost one: { row ≡ 1 },
}

/// There was no memory for the turn. The kept value comes back.
#[derive(Drop)]
pub struct TurnRefused<K> {
    pub kept: K,
}

impl<K: Keeps, N: TurnName> Turn<K, N> {
    /// The turn of a blank, with an empty journal of this capacity, 200,000 at most, and a kept value that stands for
    /// no entry. With it come the fronts of its sites and the passes of its sessions, in order; they have seen and
    /// done nothing. It is refused for want of memory alone.
    pub fn open(
        alloc: Global,
        blank: TurnBlank,
        capacity: u32,
        kept: K,
    ) -> Result<(Turn<K, N>, Vec<Front<N>>, Vec<Pass<N>>), TurnRefused<K>>
        requires turn { blank ≡ N.turn }
        requires capacity { capacity ≡ N.capacity }
        requires most { capacity ≤ 200000 }
        requires kept { K.stands [] kept }
        ensures fronts { IfOk result (λ opened. opened.1.items ≡ new_fronts (length N.turn.alphabets)) }
        ensures passes { IfOk result (λ opened. opened.2.items ≡ new_passes N.turn.sessions) }
        ensures refused { IfErr result (λ refused. refused.kept ≡ kept) }
    {
        let made = TurnReady::new(alloc, blank, capacity);
        let Ok((ready, fronts, passes)) = made else {
            return Err(TurnRefused { kept });
        };
        let turn = ready.begin(alloc, kept)?;
        Ok((turn, fronts, passes))
    }

    /// Of a row of one place, under the name of its turn.
    pub(crate) fn of(row: Row<Locked<K, N>>, order: Order<N>) -> Turn<K, N>
        requires { row ≡ 1 }
    {
        Turn { row, order }
    }

    /// Waits until the journal's lock is free, and holds it. No front is enlisted, and the kept value stands for the
    /// journal's list. Takes no memory.
    pub fn lock<R: Wait>(&self, rt: &R) -> TurnGuard<'_, K, N>
        ensures enlisted { result.enlisted ≡ [] }
        ensures kept { K.stands result.entries result.kept }
    {
        self.lock_noting(rt, &mut false)
    }

    /// As `lock`. Where the lock was not free at once, `waited` becomes true: it says something of speed alone.
    pub fn lock_noting<R: Wait>(&self, rt: &R, waited: &mut bool) -> TurnGuard<'_, K, N>
        ensures enlisted { result.enlisted ≡ [] }
        ensures kept { K.stands result.entries result.kept }
    {
        let (grip, locked) = self.row.lock_noting(rt, 0, waited).split();
        TurnGuard::new(grip, &self.order, locked)
    }

    /// A row of no front.
    pub fn row(&self) -> FrontRow<N>
        ensures { result ≡ [] }
    {
        FrontRow::new(&self.order)
    }

    /// Adds a front to a row, behind the others.
    pub fn put_on(&self, row: &mut FrontRow<N>, front: Front<N>)
        ensures { row.new ≡ row.old ++ front ∷ [] }
    {
        row.push(&self.order, front);
    }

    /// Takes the last front off a row, which is the site's and has seen what the pass has.
    pub fn take_off(&self, row: &mut FrontRow<N>, site: SiteId, pass: &Pass<N>) -> Front<N>
        requires { (rest : List FrontValue) × (row.old ≡ rest ++ record { site = site; front = pass.now.front } ∷ []) }
        ensures front { result ≡ record { site = site; front = pass.now.front } }
        ensures rest { row.old ≡ row.new ++ result ∷ [] }
    {
        row.pop(&self.order, site, pass)
    }

    /// The first pass has seen the longer of both lists then, which both begin. The session's entries there are those
    /// that its pass made, for both, and the sessions differ. It takes no lock and no memory.
    pub fn learn(&self, to: &mut Pass<N>, from: &mut Pass<N>)
        ensures from { from.new ≡ from.old }
        ensures session { to.new.session ≡ to.old.session }
        ensures made { to.new.made ≡ to.old.made }
        ensures longer { (to.new.front ≡ to.old.front) ⊎ (to.new.front ≡ from.old.front) }
        ensures to_seen { HasMadeAll to.old to.new.front }
        ensures from_seen { HasMadeAll from.old to.new.front }
        ensures apart { to.old.session ≢ from.old.session }
    {
        to.learn(&self.order, from);
    }

    /// Waits until the journal's lock is free, and ends the turn, whose fronts and passes are handed in. Each front
    /// begins the journal's list, and no execution after a site's front was of its alphabet. A pass's entries there
    /// are those that it made, and no other session has one. The kept value stands for the list. Takes no memory.
    pub fn close<R: Wait>(self, rt: &R, fronts: Vec<Front<N>>, passes: Vec<Pass<N>>) -> (Journal, K)
        ensures fronts { All (λ front. HasMissedNone N.turn front result.0.entries) fronts.items }
        ensures passes { All (λ pass. HasMadeAll pass result.0.entries) passes.items }
        ensures sessions { All (λ (entry : Entry). entry.session < N.turn.sessions) result.0.entries }
        ensures capacity { result.0.capacity ≡ N.capacity }
        ensures kept { K.stands result.0.entries result.1 }
    {
        let Turn { row, order } = self;
        let mut end = row.close();
        let Locked { beside } = end.take(rt);
        let Beside { mut ledger, kept } = Box::into_inner(beside);
        end.finish();
        ledger.enlist_all(&order, fronts);
        ledger.meet_all(&order, passes);
        (ledger.into_journal(&order), kept)
    }
}
