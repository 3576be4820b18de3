// The executions from before, done again on the list of sites.
ghost use Rattle.std.specs.Prelude.{◌≡◌, ◌≤◌, ◌<◌, ◌↔◌, IsTrue, List, length, IfNone, IfSome, true};
ghost use Rattle.dcr_graph.specs.Rules.{Rules};
ghost use Rattle.dcr_graph.specs.Step.{step};
ghost use Rattle.dcr_graph.specs.declared.marking.Marking.{Marking as Marks};
ghost use Rattle.dcr_proj.specs.CoverValue.{IsCovered};
ghost use Rattle.dcr_set.specs.EventSet.{Set};
ghost use Rattle.dcr_site.specs.Together.{AllStand};
ghost use Rattle.dcr_cell.specs.ClusterId.{ClusterId, IsNamed, begun};
ghost use Rattle.dcr_cluster.specs.Opening.{ArePossible, IsFirstBad, IsPossible};

use dcr_cell::ClusterName;
use dcr_graph::Marking;
use dcr_journal::{Call, Outcome};
use dcr_run::Sites;
use dcr_set::{EventId, EventSet, SiteId};
use dcr_site::Site;
use dcr_tape::TapeEntry;

/// Does the executions on the sites, which stand at the opening marking. Some place is that of the first that can't be
/// done; the sites stand at the marking before it then.
pub(crate) fn go_on(sites: &mut Sites, atoms: u16, old: &[TapeEntry]) -> Option<u32>
    requires most { length old.now ≤ 1000000 }
    requires atoms { atoms ≡ sites.old.atoms }
    ensures all { (c : ClusterId) → AllStand c.rules c.owned c.opening sites.old.sites → IsCovered c.rules.atoms c.owned → sites.old.atoms ≡ c.rules.atoms → c.old ≡ old.now
        → IfNone result (AllStand c.rules c.owned (begun c) sites.new.sites × ArePossible c (length c.old)) }
    ensures bad { (c : ClusterId) → AllStand c.rules c.owned c.opening sites.old.sites → IsCovered c.rules.atoms c.owned → sites.old.atoms ≡ c.rules.atoms → c.old ≡ old.now
        → IfSome result (IsFirstBad c) }
    ensures atoms { sites.new.atoms ≡ sites.old.atoms }
{
    let mut place = 0;
    for x in old {
        if !execute(sites, atoms, x) {
            return Some(place);
        }
        place += 1;
    }
    None
}

// Does one execution, where it can be done.
fn execute(sites: &mut Sites, atoms: u16, x: &TapeEntry) -> bool
    requires { atoms ≡ sites.old.atoms }
    ensures possible { (c : ClusterId) (M : Marks) → AllStand c.rules c.owned M sites.old.sites → IsCovered c.rules.atoms c.owned → sites.old.atoms ≡ c.rules.atoms
        → IsTrue result ↔ IsPossible c M x.now }
    ensures stepped { (G : Rules) (C : List Set) (M : Marks) → AllStand G C M sites.old.sites → result ≡ true → AllStand G C (step G M x.now.event) sites.new.sites }
    ensures atoms { sites.new.atoms ≡ sites.old.atoms }
{
    if usize::from(x.site) >= sites.members().len() || x.event >= atoms {
        return false;
    }
    let outcome = sites.call(Call::Exec(SiteId(x.site), EventId(x.event)));
    matches!(outcome, Outcome::Done)
}

/// The marking at which the sites stand, put together from what each has of the events that it owns.
pub(crate) fn marking_of<N: ClusterName>(sites: &[Site], owned: &[EventSet], atoms: u16) -> Marking
    requires named { IsNamed N.cluster N.turn }
    requires most { atoms ≤ 1024 }
    requires atoms { atoms ≡ N.cluster.rules.atoms }
    requires owned { owned.now ≡ N.cluster.owned }
    requires stand { AllStand N.cluster.rules N.cluster.owned (begun N.cluster) sites.now }
    ensures { result ≡ begun N.cluster }
{
    let mut executed = EventSet::new(atoms);
    let mut pending = EventSet::new(atoms);
    let mut included = EventSet::new(atoms);
    for i in 0..sites.len() {
        let mark = sites[i].mark();
        let own = &owned[i];
        executed.union_with(&mark.executed.common(own));
        pending.union_with(&mark.pending.common(own));
        included.union_with(&mark.included.common(own));
    }
    Marking {
        executed,
        pending,
        included,
    }
}
