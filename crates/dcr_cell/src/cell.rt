ghost use Rattle.std.specs.Prelude.{◌≡◌, ℕ, Option, Some};
ghost use Rattle.dcr_journal.specs.Answer.{outcome_decided, verdict_of};
ghost use Rattle.dcr_cell.specs.Laws.{asked};
ghost use Rattle.dcr_set.specs.Least.{lesser};

use crate::ClusterName;
use dcr_graph::Cause;
use dcr_journal::{Call, Outcome};
use dcr_lock::Placed;
use dcr_set::{EventId, SiteId};
use dcr_site::{Decision, Site};
use dcr_turn::Front;

/// What lies under the lock of a site: its part of the rules with its marks, and how much of the journal it has seen.
/// The site lies in memory of its own, so that little is moved when the lock is taken and given back.
#[derive(Drop)]
pub struct Cell<N: ClusterName> {
    pub site: Box<Site>,
    pub front: Front<N>,
}

impl<N: ClusterName> Placed for Cell<N> {
    ghost use Rattle.dcr_cell.specs.CellStands.{CellStands};

    ghost belongs = { λ place cell. CellStands N.cluster place cell.site.value cell.front };
}

impl<N: ClusterName> Cell<N> {
    ghost use Rattle.std.specs.Prelude.{◌≡◌, ◌≢◌, ◌<◌, ℕ, true, false, List, [], ◌∷◌, ◌++◌, length, Some};
    ghost use Rattle.dcr_graph.specs.Rows.{row};
    ghost use Rattle.dcr_journal.specs.declared.call.Call.TheVariants.{Exec};
    ghost use Rattle.dcr_journal.specs.declared.call.Entry.{Entry};
    ghost use Rattle.dcr_journal.specs.declared.call.Outcome.TheVariants.{Done};
    ghost use Rattle.dcr_turn.specs.FrontValue.{FrontValue};
    ghost use Rattle.dcr_cell.specs.Asking.{Found};
    ghost use Rattle.dcr_cell.specs.CellStands.{CellStands};
    ghost use Rattle.dcr_site.specs.Seen.{StandsAt};
    ghost use Rattle.dcr_cell.specs.ClusterId.{IsNamed, IsCall, answer_after, marking_after};
    ghost use Rattle.dcr_cell.specs.Laws.{asked};

    /// What was found of a call becomes what is found where this site is asked besides those that found it. It answers
    /// by its own marks, and keeps what it found until they change. It is inlined where the locks are taken, since most
    /// sites that hear of an execution aren't asked.
    #[inline(always)]
    pub fn ask(&mut self, call: &Call, found: &mut Outcome)
        requires named { IsNamed N.cluster N.turn }
        requires call { IsCall N.cluster call.now }
        requires site { self.old.front.site < length N.cluster.owned }
        requires stands { CellStands N.cluster self.old.front.site self.old.site.value self.old.front }
        ensures same { self.new ≡ self.old }
        ensures found { (fronts : List FrontValue) → Found N.cluster call.now fronts found.old → Found N.cluster call.now (fronts ++ self.old.front ∷ []) found.new }
    {
        match asked_site(call) {
            None => wait_besides(found, self.site.waits_again()),
            Some(i) => {
                if i == self.front.site() {
                    self.answer(call, found);
                }
            }
        }
    }

    /// Whether an execution of the event can't be done by this site's own marks: what was found becomes its answer then.
    /// Else what was found stays.
    pub fn blocks(&self, e: EventId, found: &mut Outcome) -> bool
        requires named { IsNamed N.cluster N.turn }
        requires atom { e < N.cluster.rules.atoms }
        requires site { self.now.front.site < length N.cluster.owned }
        requires stands { CellStands N.cluster self.now.front.site self.now.site.value self.now.front }
        ensures blocked { result ≡ true → (found.new ≢ Done) × (found.new ≡ answer_after N.cluster self.now.front.front (Exec self.now.front.site e)) }
        ensures free { result ≡ false → (found.new ≡ found.old) × (Done ≡ answer_after N.cluster self.now.front.front (Exec self.now.front.site e)) }
    {
        match self.site.decide(e) {
            Decision::Enabled => false,
            decision => {
                decided(decision, found);
                true
            }
        }
    }

    // What the one site that a call asks answers.
    #[inline(never)]
    fn answer(&mut self, call: &Call, told: &mut Outcome)
        requires named { IsNamed N.cluster N.turn }
        requires call { IsCall N.cluster call.now }
        requires asked { asked call.now ≡ Some self.old.front.site }
        requires site { self.old.front.site < length N.cluster.owned }
        requires stands { CellStands N.cluster self.old.front.site self.old.site.value self.old.front }
        ensures same { self.new ≡ self.old }
        ensures told { told.new ≡ answer_after N.cluster self.old.front.front call.now }
    {
        match call {
            Call::Exec(_, e) => decided(self.site.decide(*e), told),
            _ => Self::show(&mut self.site, self.front.site(), call, told),
        }
    }

    // The same of a call that is no execution, of the site alone, which stands after some entries. It stands by itself,
    // since room for sets of events is cleared where it begins, which executions need not wait for.
    #[inline(never)]
    fn show(site: &mut Site, i: SiteId, call: &Call, told: &mut Outcome)
        requires asked { asked call.now ≡ Some i }
        requires other { (j e : ℕ) → call.now ≢ Exec j e }
        ensures same { site.new ≡ site.old }
        ensures told { (J : List Entry) → StandsAt N.cluster.rules (row N.cluster.owned i) (marking_after N.cluster J) site.old → told.new ≡ answer_after N.cluster J call.now }
    {
        match call {
            Call::Look(_) => *told = Outcome::Marks(site.mark()),
            Call::Enabled(_) => *told = Outcome::Can(site.can_again()),
            Call::Exec(..) | Call::Accepting => unreachable!(),
        }
    }
}

// What an execution is told of which a site decides this. Each answer is written where it is to stand, so that no room for
// sets is moved. It stands by itself, since room for an outcome is cleared where it begins.
#[inline(never)]
fn decided(decision: Decision, told: &mut Outcome)
    ensures { told.new ≡ outcome_decided decision }
{
    match decision {
        Decision::NotHere => *told = Outcome::NotHere,
        Decision::Enabled => *told = Outcome::Done,
        Decision::Blocked(Cause::Excluded) => *told = Outcome::Excluded,
        Decision::Blocked(Cause::Condition(EventId(c))) => *told = Outcome::Condition(EventId(c)),
        Decision::Blocked(Cause::Milestone(EventId(m))) => *told = Outcome::Milestone(EventId(m)),
    }
}

// The one site that a call asks. None where it asks all.
fn asked_site(call: &Call) -> Option<SiteId>
    ensures { result ≡ asked call.now }
{
    match call {
        Call::Exec(i, _) => Some(*i),
        Call::Look(i) => Some(*i),
        Call::Enabled(i) => Some(*i),
        Call::Accepting => None,
    }
}

// The verdict becomes that where a site waits for this event besides.
fn wait_besides(verdict: &mut Outcome, waits: Option<EventId>)
    ensures { (before : Option ℕ) → verdict.old ≡ verdict_of before → verdict.new ≡ verdict_of (lesser before waits) }
{
    match waits {
        None => {}
        Some(e) => wait_for(verdict, e),
    }
}

// The same where it waits for one. A verdict that waits already is changed where it stands; the other stands by itself,
// since room for an outcome is cleared where it begins.
fn wait_for(verdict: &mut Outcome, event: EventId)
    ensures { (before : Option ℕ) → verdict.old ≡ verdict_of before → verdict.new ≡ verdict_of (lesser before (Some event)) }
{
    match verdict {
        Outcome::Waits(least) => *least = EventId(least.0.min(event.0)),
        _ => wait_first(verdict, event),
    }
}

// The verdict becomes that where a site waits for this event, and none was found to wait before.
#[inline(never)]
fn wait_first(verdict: &mut Outcome, event: EventId)
    ensures { verdict.new ≡ verdict_of (Some event) }
{
    *verdict = Outcome::Waits(event);
}
