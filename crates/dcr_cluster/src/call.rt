ghost use Rattle.std.specs.Prelude.{◌≡◌, ℕ, List, [], ◌++◌, length, IfOk, IfErr, OnOk};
ghost use Rattle.std.specs.List.{All};
ghost use Rattle.dcr_journal.specs.declared.call.Call.TheVariants.{Exec, Accepting};
ghost use Rattle.dcr_journal.specs.declared.call.Entry.{Entry};
ghost use Rattle.dcr_journal.specs.declared.call.Outcome.TheVariants.{NotHere, AllDone};
ghost use Rattle.dcr_cell.specs.Asking.{AreEnough, sites_for, sites_of, Found};
ghost use Rattle.dcr_cell.specs.ClusterId.{IsCall};
ghost use Rattle.dcr_cluster.specs.Calls.{AnsweredAfter, HaltedAfter, Made, Tried, done_by, ending};

use crate::push::enter;
use crate::{Cluster, Halt};
use dcr_base::{Disk, Gate};
use dcr_cell::{Cell, StoreName};
use dcr_journal::{Call, Outcome};
use dcr_set::{EventId, SiteId};
use dcr_turn::{FrontRow, Pass};
use std::slice;
use std::sync::Wait;

// How a call has ended that took the locks of its sites: what it was told beside its answer, the event where it is an
// execution that was done, and whether a lock was waited for.
#[derive(Drop)]
struct Ended {
    told: Result<(), Halt>,
    done: Option<EventId>,
    waited: bool,
}

impl<D: Disk, G: Gate, N: StoreName<D>> Cluster<D, G, N> {
    ghost use Rattle.std.specs.Prelude.{◌<◌};

    /// Makes one call of the pass's session, and answers what the graph answers after all entries before it. It takes the
    /// locks of the sites that it asks in ascending order, each site answering by its own marks, comes by the gate, takes
    /// the journal's lock and pushes its one entry; an execution that was done is then applied at each site that must
    /// hear of it. An execution that several sites must hear of first asks its own site alone, and takes no other site's
    /// lock where that blocks it. An execution by a site that doesn't own the event takes no site's lock. It waits for
    /// each lock, and takes no memory.
    ///
    /// `Faulted` comes where the execution could be done and the tape failed to keep it; no mark changed then. `Stopped`
    /// comes exactly where a fault ends the entries before it, else `Full` exactly where they are as many as there may
    /// be; no entry was made then, and no mark changed.
    ///
    /// The entries `J` after which a call is answered are a beginning of one list, which all calls of the cluster have in
    /// common: what a pass has seen then is that beginning and the call's own entry, of any two passes what one has seen
    /// begins what the other has (`learn`), and the history at the end begins with what each has seen (`close`).
    pub fn call<R: Wait>(&self, rt: &R, pass: &mut Pass<N>, call: Call) -> Result<Outcome, Halt>
        requires { IsCall N.cluster call }
        ensures answered { IfOk result (λ outcome. (J : List Entry) × AnsweredAfter N.cluster N.first N.capacity J pass.old pass.new call outcome) }
        ensures halted { IfErr result (λ halt. (J : List Entry) × HaltedAfter N.cluster N.first N.capacity J pass.old pass.new halt) }
    {
        let mut told = Outcome::AllDone;
        match self.call_into(rt, pass, &call, &mut told, &mut false) {
            Ok(()) => Ok(told),
            Err(halt) => Err(halt),
        }
    }

    /// As `call`, with the answer in a place of the caller's, so that a caller of many calls has room for one answer alone.
    /// Where the call halted, what stands there says nothing. Where a lock was not free at once, `waited` becomes true: it
    /// says something of speed alone.
    pub fn call_into<R: Wait>(
        &self,
        rt: &R,
        pass: &mut Pass<N>,
        call: &Call,
        told: &mut Outcome,
        waited: &mut bool,
    ) -> Result<(), Halt>
        requires { IsCall N.cluster call.now }
        ensures answered { OnOk result ((J : List Entry) × AnsweredAfter N.cluster N.first N.capacity J pass.old pass.new call.now told.new) }
        ensures halted { IfErr result (λ halt. (J : List Entry) × HaltedAfter N.cluster N.first N.capacity J pass.old pass.new halt) }
    {
        let mut fronts = self.turn.row();
        self.make(rt, pass, &mut fronts, call, told, waited)
    }

    // Makes the call, with as few locks as it wants.
    fn make<R: Wait>(
        &self,
        rt: &R,
        pass: &mut Pass<N>,
        fronts: &mut FrontRow<N>,
        call: &Call,
        found: &mut Outcome,
        waited: &mut bool,
    ) -> Result<(), Halt>
        requires call { IsCall N.cluster call.now }
        requires none { fronts.old ≡ [] }
        ensures { Made N.cluster N.first N.capacity N.turn pass.old pass.new fronts.old fronts.new call.now (ending found.new result) }
    {
        let needed = self.needed(call);
        if needed.len() > 1 {
            if let Some(ended) = self.block(rt, pass, fronts, call, found, waited) {
                return ended;
            }
        }
        unask(call, needed, found);
        let mut ended = Ended {
            told: Ok(()),
            done: None,
            waited: *waited,
        };
        self.gather(rt, pass, fronts, call, needed, found, &mut ended);
        *waited = ended.waited;
        ended.told
    }

    // The sites whose locks the call takes.
    fn needed(&self, call: &Call) -> &[SiteId]
        requires { IsCall N.cluster call.now }
        ensures sites { result.now ≡ sites_for N.cluster N.turn call.now }
        ensures within { All (λ i. i < length N.cluster.owned) result.now }
    {
        match call {
            Call::Exec(i, e) => {
                if self.owned[usize::from(i.0)].contains(*e) {
                    self.network.participants(*e)
                } else {
                    &[]
                }
            }
            Call::Look(i) | Call::Enabled(i) => slice::from_ref(&self.every[usize::from(i.0)]),
            Call::Accepting => self.every.as_slice(),
        }
    }

    // Makes the call where it is an execution that its site blocks, with the lock of that site alone. None of any other
    // call, and where the site doesn't block it: nothing was done then.
    fn block<R: Wait>(
        &self,
        rt: &R,
        pass: &mut Pass<N>,
        fronts: &mut FrontRow<N>,
        call: &Call,
        found: &mut Outcome,
        waited: &mut bool,
    ) -> Option<Result<(), Halt>>
        requires call { IsCall N.cluster call.now }
        requires none { fronts.old ≡ [] }
        ensures { Tried N.cluster N.first N.capacity N.turn pass.old pass.new fronts.old fronts.new call.now found.old found.new result }
    {
        let Call::Exec(first, e) = call else {
            return None;
        };
        let (grip, own) = self.cells.lock_noting(rt, first.0, waited).split();
        if !own.blocks(*e, found) {
            grip.join(own).unlock();
            return None;
        }
        let Cell { site, front } = own;
        self.turn.put_on(fronts, front);
        let ended = self.commit(rt, pass, fronts, call, found, waited);
        let front = self.turn.take_off(fronts, *first, pass);
        grip.join(Cell { site, front }).unlock();
        Some(ended)
    }

    // Takes the locks of the sites that are left, one after the other, and asks each; makes the call; and gives the
    // locks back, the last one first. What was found stands in one place on the way down, and what the call is told on
    // the way back, and so does how it has ended, so that neither is handed from one lock to the next, and no site finds
    // out again whether it has something to hear.
    fn gather<R: Wait>(
        &self,
        rt: &R,
        pass: &mut Pass<N>,
        fronts: &mut FrontRow<N>,
        call: &Call,
        left: &[SiteId],
        found: &mut Outcome,
        ended: &mut Ended,
    )
        requires call { IsCall N.cluster call.now }
        requires sites { sites_of fronts.old ++ left.now ≡ sites_for N.cluster N.turn call.now }
        requires within { All (λ i. i < length N.cluster.owned) left.now }
        requires found { Found N.cluster call.now fronts.old found.old }
        ensures made { Made N.cluster N.first N.capacity N.turn pass.old pass.new fronts.old fronts.new call.now (ending found.new ended.new.told) }
        ensures done { ended.new.done ≡ done_by call.now (ending found.new ended.new.told) }
    {
        let Some((first, rest)) = left.split_first() else {
            ended.told = self.commit(rt, pass, fronts, call, found, &mut ended.waited);
            ended.done = done_by(call, found, &ended.told);
            return;
        };
        let (grip, mut cell) = self
            .cells
            .lock_noting(rt, first.0, &mut ended.waited)
            .split();
        cell.ask(call, found);
        let Cell { mut site, front } = cell;
        self.turn.put_on(fronts, front);
        self.gather(rt, pass, fronts, call, rest, found, ended);
        let front = self.turn.take_off(fronts, *first, pass);
        if let Some(e) = ended.done {
            site.apply(e);
        }
        grip.join(Cell { site, front }).unlock();
    }

    // Comes by the gate, takes the journal's lock and makes the entry.
    fn commit<R: Wait>(
        &self,
        rt: &R,
        pass: &mut Pass<N>,
        fronts: &mut FrontRow<N>,
        call: &Call,
        found: &mut Outcome,
        waited: &mut bool,
    ) -> Result<(), Halt>
        requires call { IsCall N.cluster call.now }
        requires enough { AreEnough N.cluster N.turn call.now (sites_of fronts.old) found.old }
        requires found { Found N.cluster call.now fronts.old found.old }
        ensures { Made N.cluster N.first N.capacity N.turn pass.old pass.new fronts.old fronts.new call.now (ending found.new result) }
    {
        self.gate.at(rt, pass.session(), pass.made());
        let mut guard = self.turn.lock_noting(rt, waited);
        guard.meet(pass);
        let ended = enter(&mut guard, pass, fronts, call, found);
        guard.unlock();
        ended
    }
}

// Makes a value what is found before a site was asked, where that is told: a verdict without sites, and where there is no
// site to ask that it isn't there. Of another call, what the asked site answers takes its place.
fn unask(call: &Call, sites: &[SiteId], found: &mut Outcome)
    ensures all { call.now ≡ Accepting → found.new ≡ AllDone }
    ensures nowhere { (i e : ℕ) → call.now ≡ Exec i e → sites.now ≡ [] → found.new ≡ NotHere }
{
    if let Call::Accepting = call {
        *found = Outcome::AllDone;
    } else if sites.is_empty() {
        *found = Outcome::NotHere;
    }
}

// The event of an execution that was done.
fn done_by(call: &Call, told: &Outcome, ended: &Result<(), Halt>) -> Option<EventId>
    ensures { result ≡ done_by call.now (ending told.now ended.now) }
{
    let Ok(()) = ended else {
        return None;
    };
    match call {
        Call::Exec(_, e) => match told {
            Outcome::Done => Some(*e),
            _ => None,
        },
        _ => None,
    }
}
