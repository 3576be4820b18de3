ghost use Rattle.std.specs.Prelude.{◌≡◌, ◌<◌, ◌≤◌, ◌^◌, ◌↔◌, length, map, vec_len, IfOk};
ghost use Rattle.std.specs.List.{All};
ghost use Rattle.dcr_graph.specs.Projection.{HasRoom};
ghost use Rattle.dcr_conform.specs.Judge.{IsJudged, AreJudged, FitsJudged};
ghost use Rattle.dcr_log.specs.declared.trace.Trace.{Trace};

use crate::Judged;
use crate::atoms::AtomIndex;
use dcr_graph::{Graph, Marking};
use dcr_log::{TextList, Trace};
use dcr_mark::Plain;
use dcr_set::{EventId, NoMemory};
use rayon::prelude::*;
use std::alloc::Global;
use std::thread::Threads;

// A thread takes traces of so many events at least, where there are so many.
const PIECE: u64 = 4096;

// The events of so many traces are counted at most, to tell how long they are.
const SEEN: usize = 1024;

/// How a trace is judged over the graph, from this marking, which is over as many atoms.
/// `NoMemory` where memory for the index of the atoms' names could not be had.
pub fn judge(
    alloc: Global,
    graph: &Graph,
    start: &Marking,
    trace: &Trace,
) -> Result<Judged, NoMemory>
    requires room { HasRoom (length graph.now.names) start.now }
    requires few { length trace.now.events < 2 ^ 32 }
    ensures judged { IfOk result (IsJudged graph.now start.now trace.now.events) }
    ensures fits { IfOk result (FitsJudged (length graph.now.names)) }
{
    let names = AtomIndex::new(alloc, graph)?;
    Ok(walk(alloc, &names, graph, start, &trace.events))
}

/// How each of the traces is judged over the graph, each from this marking, which is over as many atoms: the answers in
/// order, as `judge` gives them one by one. They are found by as many threads as there are processors, where there is work
/// for them, over one index of the atoms' names. `NoMemory` where memory for the index or for the answers could not be had.
pub fn judge_all<R: Threads + Sync>(
    rt: &R,
    alloc: Global,
    graph: &Graph,
    start: &Marking,
    traces: &[Trace],
) -> Result<Vec<Judged>, NoMemory>
    requires room { HasRoom (length graph.now.names) start.now }
    requires few { All (λ (trace : Trace). length trace.events < 2 ^ 32) traces.now }
    ensures judged { IfOk result (λ answers. AreJudged graph.now start.now traces.now answers.items) }
    ensures as_many { IfOk result (λ answers. length answers.items ≡ length traces.now) }
    ensures fits { IfOk result (λ answers. All (FitsJudged (length graph.now.names)) answers.items) }
{
    let names = AtomIndex::new(alloc, graph)?;
    let index = &names;
    let answers = traces
        .par_iter()
        .with_min_len(piece_of(traces))
        .map(
            |trace: &Trace| -> Judged
                requires { (index.now ≡ graph.now.names) × HasRoom (length graph.now.names) start.now × (length trace.now.events < 2 ^ 32) }
                ensures { IsJudged graph.entry.now start.entry.now trace.now.events result × FitsJudged (length graph.entry.now.names) result }
            { walk(alloc, index, graph, start, &trace.events) },
        )
        .collect(rt, alloc)?;
    Ok(answers)
}

// How the events are judged, each at the marking that those before it have left. It takes no memory.
fn walk(
    alloc: Global,
    names: &AtomIndex<'_>,
    graph: &Graph,
    start: &Marking,
    events: &TextList,
) -> Judged
    requires names { names.now ≡ graph.now.names }
    requires room { HasRoom (length graph.now.names) start.now }
    requires few { length events.now < 2 ^ 32 }
    ensures judged { IsJudged graph.now start.now events.now result }
    ensures fits { FitsJudged (length graph.now.names) result }
{
    let mut plain = Plain::new(alloc, graph, start).unwrap();
    for place in 0..events.len() {
        let text = events.get(place).unwrap();
        let Some(number) = names.find(text.as_bytes()) else {
            return Judged::Unknown(place as u32);
        };
        let e = EventId(number);
        if let Some(why) = plain.why(e) {
            return Judged::Refused(place as u32, why);
        }
        plain.execute(e);
    }
    let count = events.len() as u32;
    match plain.waits() {
        Some(e) => Judged::Waits(e, count),
        None => Judged::Accepting(count),
    }
}

// How many traces make a piece for a thread, by the events of some of them. It decides what a judging costs, and no answer.
fn piece_of(traces: &[Trace]) -> usize {
    let mut seen: u64 = 0;
    let mut events: u64 = 0;
    for trace in traces.iter().step_by(traces.len() / SEEN + 1) {
        seen = seen.saturating_add(1);
        events = events.saturating_add(trace.events.len() as u64);
    }
    (seen.saturating_mul(PIECE) / events.max(1)).max(1) as usize
}
