ghost use Rattle.std.specs.Prelude.{◌≡◌, ◌≢◌, ℕ, ◌<◌, [], length, IfOk, slice_index_or};
ghost use Rattle.dcr_nest.specs.FlatRelation.{IsFlattening};
ghost use Rattle.dcr_format.specs.Facts.{Judges};
ghost use Rattle.dcr_graph_json.specs.Build.{atom_names, clash_fact};

use dcr_format::CaseStop;
use dcr_graph::{Graph, GraphStop, Name};
use dcr_nest::Nested;
use dcr_set::EventId;
use std::alloc::Global;

// The flat graph of the atoms, or its clash.
pub(crate) fn flatten(alloc: Global, nested: &Nested) -> Result<Graph, CaseStop>
    ensures fact { Judges (clash_fact nested.now) result }
    ensures flat { IfOk result (λ graph. IsFlattening nested.now graph) }
{
    match nested.flatten(alloc) {
        Ok(graph) => Ok(graph),
        Err(stop) => Err(refused(alloc, nested, stop)),
    }
}

// The refusal of a graph, with the names of the atoms of a clash.
fn refused(alloc: Global, nested: &Nested, stop: GraphStop) -> CaseStop
    requires { (a b : ℕ) → stop ≡ GraphStop.Clash a b → (a < length (atom_names nested.now)) × (b < length (atom_names nested.now)) }
    ensures clash { result ≢ CaseStop.NoMemory → (a b : ℕ) → stop ≡ GraphStop.Clash a b
        → result ≡ CaseStop.Clash (slice_index_or (atom_names nested.now) a []) (slice_index_or (atom_names nested.now) b []) }
    ensures no_memory { stop ≡ GraphStop.NoMemory → result ≡ CaseStop.NoMemory }
{
    match stop {
        GraphStop::NoMemory => CaseStop::NoMemory,
        GraphStop::Clash {
            a: EventId(a),
            b: EventId(b),
        } => match nested.atom_names(alloc) {
            Ok(names) => clash_of(alloc, &names, a, b),
            Err(_) => CaseStop::NoMemory,
        },
    }
}

// The refusal of a pair that is both included and excluded.
fn clash_of(alloc: Global, names: &[Name], a: u16, b: u16) -> CaseStop
    requires a { a < length names.now }
    requires b { b < length names.now }
    ensures { result ≢ CaseStop.NoMemory → result ≡ CaseStop.Clash (slice_index_or names.now a []) (slice_index_or names.now b []) }
{
    let Ok(a) = names[usize::from(a)].copy(alloc) else {
        return CaseStop::NoMemory;
    };
    let Ok(b) = names[usize::from(b)].copy(alloc) else {
        return CaseStop::NoMemory;
    };
    CaseStop::Clash { a, b }
}
