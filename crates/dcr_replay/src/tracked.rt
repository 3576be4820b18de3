// The marks of a site, cut from a marking of all atoms.
ghost use Rattle.std.specs.Prelude.{◌≡◌, length, map, IfOk};
ghost use Rattle.std.specs.List.{All};
ghost use Rattle.dcr_set.specs.EventSet.{intersection};
ghost use Rattle.dcr_graph.specs.GraphValue.{rules_of};
ghost use Rattle.dcr_replay.specs.Tracks.{tracked_of};

use dcr_graph::{Graph, Kind, Marking, SiteMark};
use dcr_proj::Cover;
use dcr_set::{EventSet, NoMemory};
use std::alloc::Global;

/// The atoms whose executed, pending and included marks a site tracks.
#[derive(Drop)]
pub(crate) struct Tracked {
    pub executed: EventSet,
    pub pending: EventSet,
    pub included: EventSet,
}

/// What each site tracks, in the order of the sites.
pub(crate) fn tracked_by_each(
    alloc: Global,
    graph: &Graph,
    cover: &Cover,
) -> Result<Vec<Tracked>, NoMemory>
    requires { All (λ set. length set ≡ length graph.now.names) cover.now.owned }
    ensures { IfOk result (λ each. each.items ≡ map (tracked_of (rules_of graph.now)) cover.now.owned) }
{
    let sets = cover.owned_sets();
    let mut each = Vec::with_capacity(alloc, sets.len())?;
    for owned in sets {
        each.push(tracked_by(graph, owned))?;
    }
    Ok(each)
}

// What the site that owns these atoms tracks.
fn tracked_by(graph: &Graph, owned: &EventSet) -> Tracked
    requires { length owned.now ≡ length graph.now.names }
    ensures { result ≡ tracked_of (rules_of graph.now) owned.now }
{
    let conditions = graph.sources_into(Kind::Condition, owned);
    let milestones = graph.sources_into(Kind::Milestone, owned);
    let executed = owned.joined(&conditions);
    let pending = owned.joined(&milestones);
    let included = owned.joined(&conditions.joined(&milestones));
    Tracked {
        executed,
        pending,
        included,
    }
}

/// The marks of the marking that the site tracks.
pub(crate) fn cut(tracked: &Tracked, marking: &Marking) -> SiteMark
    requires executed { length marking.now.executed ≡ length tracked.now.executed }
    requires pending { length marking.now.pending ≡ length tracked.now.pending }
    requires included { length marking.now.included ≡ length tracked.now.included }
    ensures executed { result.executed ≡ intersection marking.now.executed tracked.now.executed }
    ensures pending { result.pending ≡ intersection marking.now.pending tracked.now.pending }
    ensures included { result.included ≡ intersection marking.now.included tracked.now.included }
{
    SiteMark {
        executed: marking.executed.common(&tracked.executed),
        pending: marking.pending.common(&tracked.pending),
        included: marking.included.common(&tracked.included),
    }
}
