// The JSON values that stand in a part.
ghost use Rattle.std.specs.Prelude.{◌≡◌, ◌&&◌, ◌<◌, ℕ, true, length, IfOk, IsSome, slice_index_or, None};
ghost use Rattle.serde_json.specs.Data.{boolean, string, array, no_items, item};
ghost use Rattle.serde_json.specs.View.{view};
ghost use Rattle.dcr_set.specs.EventSet.{has};
ghost use Rattle.dcr_graph.specs.GraphValue.{rules_of};
ghost use Rattle.dcr_graph.specs.Projection.{is_local_target, local_rules};
ghost use Rattle.dcr_graph.specs.Rules.{Rules};
ghost use Rattle.dcr_proj.specs.Local.{projection_of};
ghost use Rattle.dcr_part.specs.PartText.{number_value, set_value, rows_value, relations_value, opening_value, alphabet_value};

use dcr_graph::{Graph, Kind, Name, SiteMark};
use dcr_proj::Projection;
use dcr_set::{EventId, EventSet, NoMemory};
use serde_json::{Map, Value};
use std::alloc::Global;

/// The numbers in a set.
pub(crate) fn set_value(alloc: Global, set: &EventSet) -> Result<Value, NoMemory>
    ensures { IfOk result (λ value. view value ≡ set_value set.now) }
{
    let mut values = Vec::new(alloc);
    for e in set.iter() {
        values.push(Value::from(e.0))?;
    }
    Ok(Value::Array(values))
}

/// The events of the alphabet, each of which has a name.
pub(crate) fn alphabet_value(
    alloc: Global,
    own: &EventSet,
    names: &[Option<Name>],
    alphabet: &EventSet,
) -> Result<Value, NoMemory>
    requires room { length alphabet.now ≡ length names.now }
    requires named { (e : ℕ) → has alphabet.now e ≡ true → IsSome (slice_index_or names.now e None) }
    ensures { IfOk result (λ value. view value ≡ alphabet_value own.now names.now alphabet.now) }
{
    let mut values = Vec::new(alloc);
    for e in alphabet.iter() {
        let Some(name) = &names[usize::from(e.0)] else {
            unreachable!()
        };
        values.push(event_value(alloc, e, name, own.contains(e))?)?;
    }
    Ok(Value::Array(values))
}

// An event with its name, and whether it is owned.
fn event_value(alloc: Global, e: EventId, name: &Name, owned: bool) -> Result<Value, NoMemory>
    ensures { IfOk result (λ value. view value ≡ array (item (number_value e) (item (string name.now) (item (boolean owned) no_items)))) }
{
    let mut items = Vec::with_capacity(alloc, 3)?;
    items.push(Value::from(e.0))?;
    items.push(Value::try_from_str(alloc, name.text())?)?;
    items.push(Value::from(owned))?;
    Ok(Value::Array(items))
}

/// The marks that are tracked.
pub(crate) fn opening_value(alloc: Global, mark: &SiteMark) -> Result<Value, NoMemory>
    ensures { IfOk result (λ value. view value ≡ opening_value mark.now) }
{
    let mut members = Map::new(alloc);
    serde_json::put(
        &mut members,
        alloc,
        "executed",
        set_value(alloc, &mark.executed)?,
    )?;
    serde_json::put(
        &mut members,
        alloc,
        "included",
        set_value(alloc, &mark.included)?,
    )?;
    serde_json::put(
        &mut members,
        alloc,
        "pending",
        set_value(alloc, &mark.pending)?,
    )?;
    Ok(Value::Object(members))
}

/// The local relation of each kind. The projection is one of the graph.
pub(crate) fn relations_value(
    alloc: Global,
    graph: &Graph,
    projection: &Projection,
) -> Result<Value, NoMemory>
    requires { projection.now ≡ projection_of (rules_of graph.now) projection.now.own }
    ensures { IfOk result (λ value. view value ≡ relations_value (local_rules (rules_of graph.now) projection.now.own)) }
{
    let cancels = local_value(alloc, graph, projection, Kind::Cancel)?;
    let conditions = local_value(alloc, graph, projection, Kind::Condition)?;
    let excludes = local_value(alloc, graph, projection, Kind::Exclude)?;
    let includes = local_value(alloc, graph, projection, Kind::Include)?;
    let milestones = local_value(alloc, graph, projection, Kind::Milestone)?;
    let responses = local_value(alloc, graph, projection, Kind::Response)?;
    let mut members = Map::new(alloc);
    serde_json::put(&mut members, alloc, "cancel", cancels)?;
    serde_json::put(&mut members, alloc, "condition", conditions)?;
    serde_json::put(&mut members, alloc, "exclude", excludes)?;
    serde_json::put(&mut members, alloc, "include", includes)?;
    serde_json::put(&mut members, alloc, "milestone", milestones)?;
    serde_json::put(&mut members, alloc, "response", responses)?;
    Ok(Value::Object(members))
}

// The local relation of one kind.
fn local_value(
    alloc: Global,
    graph: &Graph,
    projection: &Projection,
    kind: Kind,
) -> Result<Value, NoMemory>
    requires { projection.now ≡ projection_of (rules_of graph.now) projection.now.own }
    ensures { IfOk result (λ value. view value
        ≡ rows_value (length graph.now.names) ((local_rules (rules_of graph.now) projection.now.own).related kind)) }
{
    rows_value(alloc, graph, kind, targets_of(projection, kind))
}

// The atoms that the local relations of a kind lead to.
fn targets_of(projection: &Projection, kind: Kind) -> &EventSet
    ensures targets { (G : Rules) → projection.now ≡ projection_of G projection.now.own
        → (b : ℕ) → b < G.atoms → has result.now b ≡ is_local_target G projection.now.own kind b }
    ensures room { (G : Rules) → projection.now ≡ projection_of G projection.now.own → length result.now ≡ G.atoms }
{
    match kind {
        Kind::Condition => projection.own(),
        Kind::Milestone => projection.own(),
        Kind::Response => projection.tracked_re(),
        Kind::Cancel => projection.tracked_re(),
        Kind::Include => projection.tracked_in(),
        Kind::Exclude => projection.tracked_in(),
    }
}

// The relation of one kind to these atoms.
fn rows_value(
    alloc: Global,
    graph: &Graph,
    kind: Kind,
    within: &EventSet,
) -> Result<Value, NoMemory>
    requires { length within.now ≡ length graph.now.names }
    ensures { IfOk result (λ value. view value
        ≡ rows_value (length graph.now.names) (λ a b. (rules_of graph.now).related kind a b && has within.now b)) }
{
    let mut rows = Vec::new(alloc);
    let sources = graph.sources_into(kind, within);
    for a in sources.iter() {
        let targets = graph.targets(kind, a).common(within);
        rows.push(row_value(alloc, a, &targets)?)?;
    }
    Ok(Value::Array(rows))
}

// An atom and its targets.
fn row_value(alloc: Global, a: EventId, targets: &EventSet) -> Result<Value, NoMemory>
    ensures { IfOk result (λ value. view value ≡ array (item (number_value a) (item (set_value targets.now) no_items))) }
{
    let mut items = Vec::with_capacity(alloc, 2)?;
    items.push(Value::from(a.0))?;
    items.push(set_value(alloc, targets)?)?;
    Ok(Value::Array(items))
}
