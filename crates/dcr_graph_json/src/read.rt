ghost use Rattle.std.specs.Prelude.{◌≡◌, ◌≢◌, ◌<◌, ◌^◌, length, None, Some, Ok, Err, option_map, IfOk, IfSome, MatchBool};
ghost use Rattle.serde_json.specs.View.{view};
ghost use Rattle.dcr_format.specs.Size.{size};
ghost use Rattle.dcr_nest.specs.FlatRelation.{IsFlattening};
ghost use Rattle.dcr_format.specs.Facts.{Judges, first};
ghost use Rattle.dcr_format.specs.declared.json_value.TheConstants.{MAX_BYTES};
ghost use Rattle.dcr_graph_json.specs.Accepted.{IsAcceptedGraph, IsGraphIn, graph_facts};
ghost use Rattle.dcr_graph_json.specs.Build.{nest_in};
ghost use Rattle.dcr_graph_json.specs.Shape.{shape_facts, written_in};
ghost use Rattle.dcr_graph_json.specs.Text.{graph_text as text_of};

use crate::{Built, Flattened, GraphText, graph_text};
use dcr_format::{CaseStop, MAX_BYTES, read_json};
use dcr_nest::{Nested, Version};
use dcr_set::NoMemory;
use serde_json::Value;
use std::alloc::Global;

/// The nested graph of this version whose canonical text the bytes are, with its flattening. None exactly where they are
/// the text of no graph that is accepted. `NoMemory` where memory could not be had; none is taken for a text of more than
/// `MAX_BYTES` bytes.
pub fn read_graph_text(
    alloc: Global,
    bytes: &[u8],
    version: Version,
) -> Result<Option<Flattened>, NoMemory>
    ensures found { IfOk result (λ found. IsGraphIn version bytes.now (option_map (λ built. built.nested) found)) }
    ensures flat { IfOk result (λ found. IfSome found (λ built. IsFlattening built.nested built.graph)) }
    ensures too_long { MAX_BYTES < length bytes.now → result ≡ Ok None }
{
    if bytes.len() > MAX_BYTES {
        return Ok(None);
    }
    let Some(value) = read_json(alloc, bytes)? else {
        return Ok(None);
    };
    let Some(built) = read_value(alloc, version, value)? else {
        return Ok(None);
    };
    if !is_graph_text(alloc, &built.nested, bytes)? {
        return Ok(None);
    }
    Ok(Some(built))
}

// The graph that a JSON value writes. None exactly where one of the facts of a graph fails. Memory is not wanted where it
// is not of the right shape. The value is let go here, before the text is written again.
fn read_value(alloc: Global, version: Version, value: Value) -> Result<Option<Flattened>, NoMemory>
    requires { size (view value) < 2 ^ 32 }
    ensures fails { IfOk result (λ found. found ≡ None → first (graph_facts version (Some (view value))) ≢ None) }
    ensures nested { IfOk result (λ found. IfSome found (λ built. built.nested ≡ nest_in (written_in version (Some (view value))))) }
    ensures flat { IfOk result (λ found. IfSome found (λ built. IsFlattening built.nested built.graph)) }
    ensures accepted { IfOk result (λ found. IfSome found (λ built. IsAcceptedGraph version built.nested)) }
    ensures misshapen { IfSome (first (shape_facts version (Some (view value)))) (λ _. result ≡ Ok None) }
{
    match try_value(alloc, version, &value) {
        Ok(built) => Ok(Some(flattened(built))),
        Err(CaseStop::NoMemory) => Err(NoMemory),
        Err(_) => Ok(None),
    }
}

// The graph without its opening, which a canonical text doesn't have.
fn flattened(built: Built) -> Flattened
    ensures nested { result.nested ≡ built.nested }
    ensures graph { result.graph ≡ built.graph }
{
    let Built {
        nested,
        graph,
        opening: _opening,
    } = built;
    Flattened { nested, graph }
}

// The same, or the first refusal.
fn try_value(alloc: Global, version: Version, value: &Value) -> Result<Built, CaseStop>
    requires { size (view value.now) < 2 ^ 32 }
    ensures facts { Judges (first (graph_facts version (Some (view value.now)))) result }
    ensures nested { IfOk result (λ built. built.nested ≡ nest_in (written_in version (Some (view value.now)))) }
    ensures flat { IfOk result (λ built. IsFlattening built.nested built.graph) }
    ensures accepted { IfOk result (λ built. IsAcceptedGraph version built.nested) }
    ensures misshapen { IfSome (first (shape_facts version (Some (view value.now)))) (λ stop. result ≡ Err stop) }
{
    let graph = GraphText::shape(version, Some(value))?;
    graph.limits(alloc)?;
    let built = graph.build(alloc)?;
    Ok(built)
}

// Whether the bytes are the canonical text of the graph.
fn is_graph_text(alloc: Global, nested: &Nested, bytes: &[u8]) -> Result<bool, NoMemory>
    ensures { IfOk result (λ is. MatchBool is (bytes.now ≡ text_of nested.now) (bytes.now ≢ text_of nested.now)) }
{
    let text = graph_text(alloc, nested)?;
    Ok(text.as_slice() == bytes)
}
