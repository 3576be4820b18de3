ghost use Rattle.std.specs.Prelude.{◌≡◌, ◌<◌, ℕ, true, length, IfOk, IsSome, slice_index_or, Some, None, [], if◌then◌else◌};
ghost use Rattle.serde_json.specs.View.{view};
ghost use Rattle.dcr_set.specs.EventSet.{has};
ghost use Rattle.dcr_graph.specs.GraphValue.{rules_of};
ghost use Rattle.dcr_graph.specs.Projection.{local_rules, HasRoom};
ghost use Rattle.dcr_proj.specs.Local.{projection_of};
ghost use Rattle.dcr_part.specs.PartText.{part_value, told_text};
ghost use Rattle.dcr_part.specs.Told.{told, told_names};
ghost use Rattle.dcr_part.specs.Whole.{part_text, whole};

use crate::PartHead;
use crate::values::{alphabet_value, opening_value, relations_value};
use dcr_graph::{Graph, Marking, Name, SiteMark};
use dcr_proj::{Projection, project};
use dcr_set::{EventId, EventSet, NoMemory};
use serde_json::{Map, Value};
use std::alloc::Global;

// What the text says of itself.
const FORMAT: &str = "dcr part 1";

/// The text of the part that a site of a case has: of the site that owns this set, where the case has this graph and this
/// opening marking. It tells of the graph what `part_of` says, and nothing else. `NoMemory` where memory could not be had.
pub fn part_text(
    alloc: Global,
    head: &PartHead,
    graph: &Graph,
    own: &EventSet,
    opening: &Marking,
) -> Result<Vec<u8>, NoMemory>
    requires own { length own.now ≡ length graph.now.names }
    requires opening { HasRoom (length graph.now.names) opening.now }
    ensures { IfOk result (λ text. text.items ≡ part_text (whole head.now graph.now.names (rules_of graph.now) own.now opening.now)) }
{
    let projection = project(alloc, graph, own)?;
    let names = told_names(alloc, graph, projection.alphabet())?;
    let mark = projection.start(opening);
    written(alloc, head, graph, &projection, &names, &mark)
}

// The names of the events in a set, each at its number.
fn told_names(alloc: Global, graph: &Graph, set: &EventSet) -> Result<Vec<Option<Name>>, NoMemory>
    requires { length set.now ≡ length graph.now.names }
    ensures { IfOk result (λ names. names.items ≡ told_names set.now graph.now.names) }
{
    let mut names = Vec::with_capacity(alloc, usize::from(graph.atoms()))?;
    for number in 0..graph.atoms() {
        let e = EventId(number);
        names.push(name_in(alloc, graph, set, e)?)?;
    }
    Ok(names)
}

// The name of an event, where it is in the set.
fn name_in(
    alloc: Global,
    graph: &Graph,
    set: &EventSet,
    e: EventId,
) -> Result<Option<Name>, NoMemory>
    requires { e < length graph.now.names }
    ensures { IfOk result (λ name. name ≡ (if has set.now e then Some (slice_index_or graph.now.names e []) else None)) }
{
    if set.contains(e) {
        return Ok(Some(graph.name(e).copy(alloc)?));
    }
    Ok(None)
}

/// The text of what is told: the projection is one of the graph, and has these marks; each event of its alphabet has a
/// name.
pub(crate) fn written(
    alloc: Global,
    head: &PartHead,
    graph: &Graph,
    projection: &Projection,
    names: &[Option<Name>],
    mark: &SiteMark,
) -> Result<Vec<u8>, NoMemory>
    requires projection { projection.now ≡ projection_of (rules_of graph.now) projection.now.own }
    requires room { length projection.now.alphabet ≡ length names.now }
    requires named { (e : ℕ) → has projection.now.alphabet e ≡ true → IsSome (slice_index_or names.now e None) }
    ensures { IfOk result (λ text. text.items
        ≡ told_text (told head.now (local_rules (rules_of graph.now) projection.now.own) projection.now.own projection.now.alphabet names.now mark.now)) }
{
    let value = value_of(alloc, head, graph, projection, names, mark)?;
    let mut text = value.to_vec(alloc)?;
    text.push(b'\n')?;
    Ok(text)
}

// The JSON value of what is told.
#[tactic(auto, unfolding(crate::specs::PartText::part_value))]
fn value_of(
    alloc: Global,
    head: &PartHead,
    graph: &Graph,
    projection: &Projection,
    names: &[Option<Name>],
    mark: &SiteMark,
) -> Result<Value, NoMemory>
    requires projection { projection.now ≡ projection_of (rules_of graph.now) projection.now.own }
    requires room { length projection.now.alphabet ≡ length names.now }
    requires named { (e : ℕ) → has projection.now.alphabet e ≡ true → IsSome (slice_index_or names.now e None) }
    ensures { IfOk result (λ value. view value
        ≡ part_value (told head.now (local_rules (rules_of graph.now) projection.now.own) projection.now.own projection.now.alphabet names.now mark.now)) }
{
    let alphabet = alphabet_value(alloc, projection.own(), names, projection.alphabet())?;
    let opening = opening_value(alloc, mark)?;
    let relations = relations_value(alloc, graph, projection)?;
    let digest = Value::from(hex::encode(alloc, head.digest)?);
    let mut members = Map::new(alloc);
    serde_json::put(&mut members, alloc, "alphabet", alphabet)?;
    serde_json::put(&mut members, alloc, "atoms", Value::from(graph.atoms()))?;
    serde_json::put(&mut members, alloc, "digest", digest)?;
    serde_json::put(
        &mut members,
        alloc,
        "format",
        Value::try_from_str(alloc, FORMAT)?,
    )?;
    serde_json::put(&mut members, alloc, "number", Value::from(head.site.0))?;
    serde_json::put(&mut members, alloc, "opening", opening)?;
    serde_json::put(&mut members, alloc, "relations", relations)?;
    serde_json::put(
        &mut members,
        alloc,
        "site",
        Value::try_from_str(alloc, head.name.text())?,
    )?;
    Ok(Value::Object(members))
}
