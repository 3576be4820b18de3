// Which atoms of a case are no atoms of the next one any more.
ghost use Rattle.std.specs.Prelude.{◌≡◌, IfOk, IfSome, option_map};
ghost use Rattle.std.specs.Borrow.{Bor};
ghost use Rattle.dcr_json.specs.Built.{case_of, IsCase};
ghost use Rattle.dcr_json.specs.declared.case.Case.{Case};
ghost use Rattle.dcr_adapt.specs.Stages.{Says, by_dropped, first_dropped as dropped_among, kept};

use crate::StageStop;
use crate::names::index_of;
use dcr_graph::Graph;
use dcr_json::Case;
use dcr_set::{EventId, NoMemory};
use std::alloc::Global;

/// Whether each atom of the case before, if there is one, is an atom of this case, by name; or else the refusal of this
/// stage for the least that isn't.
pub(crate) fn keep_atoms(
    alloc: Global,
    i: u32,
    before: Option<&Case>,
    case: &Case,
) -> Result<(), StageStop>
    requires before { IfSome before (λ (was : Bor Case). IsCase was.now) }
    requires case { IsCase case.now }
    ensures { Says (λ _. tt) result
        (kept i (option_map (λ (was : Bor Case). case_of was.now) before.entry) (case_of case.now)) }
{
    match before {
        Some(was) => keep_each(alloc, i, &was.graph, &case.graph),
        None => Ok(()),
    }
}

// The same of two graphs.
fn keep_each(alloc: Global, i: u32, graph: &Graph, next: &Graph) -> Result<(), StageStop>
    ensures { Says (λ _. tt) result
        (by_dropped i graph.now.names (dropped_among graph.now.names next.now.names)) }
{
    let Some(a) = first_dropped(alloc, graph, next)? else {
        return Ok(());
    };
    Err(StageStop::Dropped {
        i,
        a: graph.name(a).copy(alloc)?,
    })
}

// The least atom whose name no atom of the next graph has.
fn first_dropped(alloc: Global, graph: &Graph, next: &Graph) -> Result<Option<EventId>, NoMemory>
    ensures { IfOk result (λ found. found ≡ dropped_among graph.now.names next.now.names) }
{
    let names = index_of(alloc, next)?;
    for number in 0..graph.atoms() {
        let a = EventId(number);
        if names.find(graph.name(a).text().as_bytes()).is_none() {
            return Ok(Some(a));
        }
    }
    Ok(None)
}
