// What a cluster of a case is opened from.
ghost use Rattle.std.specs.Prelude.{◌≡◌, ◌≤◌, length, IfOk, List};
ghost use Rattle.std.specs.List.{All};
ghost use Rattle.dcr_graph.specs.GraphValue.{rules_of};
ghost use Rattle.dcr_graph.specs.Projection.{HasRoom};
ghost use Rattle.dcr_site.specs.Together.{AllStand};
ghost use Rattle.dcr_cell.specs.ClusterId.{IsNamed};
ghost use Rattle.dcr_cluster.specs.declared.refused.OpenCause.TheVariants.{NoMemory as ForMemory};
ghost use Rattle.dcr_engine.specs.Ran.{cluster_of};
ghost use Rattle.dcr_tape.specs.declared.entry.TapeEntry.{TapeEntry};

use dcr_cluster::{ClusterBlank, OpenCause, OpenRefused};
use dcr_graph::{Graph, Marking};
use dcr_proj::Cover;
use dcr_run::Sites;
use dcr_set::NoMemory;
use dcr_site::Site;
use dcr_tape::Store;
use std::alloc::Global;

/// The turn of the cover's sites and so many sessions, 1,024 at most, and the sites at the opening marking. The cover is one
/// of the graph's atoms.
pub(crate) fn parts_of(
    alloc: Global,
    graph: &Graph,
    cover: &Cover,
    opening: &Marking,
    sessions: u32,
) -> Result<(ClusterBlank, Vec<Site>), NoMemory>
    requires rooms { All (λ set. length set ≡ length graph.now.names) cover.now.owned }
    requires opening { HasRoom (length graph.now.names) opening.now }
    requires most_sessions { sessions ≤ 1024 }
    ensures named { IfOk result (λ parts. (old : List TapeEntry) → length old ≤ 1000000
        → IsNamed (cluster_of graph.now cover.now opening.now old) parts.0) }
    ensures sessions { IfOk result (λ parts. parts.0.sessions ≡ sessions) }
    ensures stand { IfOk result (λ parts. AllStand (rules_of graph.now) cover.now.owned opening.now parts.1.items) }
{
    // A cover has 1 to 64 sites.
    cover.sites();
    let sites = Sites::open(alloc, graph, cover, opening)?;
    let (network, sites) = sites.into_parts();
    let blank = ClusterBlank::new(alloc, network, sessions)?;
    Ok((blank, sites))
}

/// There was no memory for a cluster or its workers.
pub(crate) fn no_memory<D>(store: Store<D>) -> OpenRefused<D>
    ensures { result ≡ record { cause = ForMemory; store = store } }
{
    OpenRefused {
        cause: OpenCause::NoMemory,
        store,
    }
}
