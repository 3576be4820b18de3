ghost use Rattle.std.specs.Prelude.{◌≡◌, ◌≤◌, length, sum_by, IfOk};
ghost use Rattle.std.specs.List.{All};
ghost use Rattle.dcr_graph.specs.GraphValue.{rules_of};
ghost use Rattle.dcr_graph.specs.Projection.{HasRoom};
ghost use Rattle.dcr_journal.specs.Run.{IsInRange};
ghost use Rattle.dcr_schedule.specs.Apart.{HasRunApart};

use crate::count::count_executions;
use crate::run::run_nodes;
use dcr_graph::{Graph, Marking};
use dcr_journal::{CallList, Closed};
use dcr_node::World;
use dcr_proj::Cover;
use dcr_set::NoMemory;
use std::alloc::Global;

/// Runs the executions that the sessions of a case ask for at sites apart, which talk by messages alone, over the network of
/// a number. What comes back is the world after it, and what it tells: the told run of the executions, whatever the number
/// (`HasRunApart`). There are at most 1,024 sessions and 200,000 calls, whose numbers are those of sites and atoms.
pub fn run_apart(
    alloc: Global,
    graph: &Graph,
    cover: &Cover,
    opening: &Marking,
    sessions: &[CallList],
    number: u32,
) -> Result<(World, Closed), NoMemory>
    requires rooms { All (λ set. length set ≡ length graph.now.names) cover.now.owned }
    requires opening { HasRoom (length graph.now.names) opening.now }
    requires most_sessions { length sessions.now ≤ 1024 }
    requires most_calls { sum_by (λ calls. length calls) sessions.now ≤ 200000 }
    requires in_range { All (λ calls. All (IsInRange (length cover.now.owned) (length graph.now.names)) calls) sessions.now }
    ensures { IfOk result (λ ran. HasRunApart (rules_of graph.now) cover.now.owned opening.now sessions.now ran.0 ran.1) }
{
    let capacity = count_executions(sessions);
    let mut world = World::open(
        alloc,
        graph,
        cover,
        opening,
        sessions.len() as u32,
        capacity,
    )?;
    run_nodes(&mut world, sessions, number)?;
    let closed = world.close(alloc)?;
    Ok((world, closed))
}
