ghost use Rattle.std.specs.Prelude.{◌≡◌, ◌<◌, [], length, map, option_map, Some, None, IfOk, slice_index_or};
ghost use Rattle.std.specs.Option.{ForSome};
ghost use Rattle.serde_json.specs.Data.{string};
ghost use Rattle.serde_json.specs.View.{view};
ghost use Rattle.dcr_graph.specs.Pairs.{AreInRange};
ghost use Rattle.dcr_nest.specs.Nest.{names_of, parents_of};
ghost use Rattle.dcr_nest.specs.Tree.{atom_number};
ghost use Rattle.dcr_format.specs.SizeLaws.{json_in};
ghost use Rattle.dcr_graph_json.specs.Text.{event_value_at, event_values, graph_text, graph_value, marks_of, relation_value, relation_values, unusual};

use crate::kind::kind_word;
use dcr_format::{put_mark, put_text};
use dcr_graph::{Kind, Marking};
use dcr_nest::{Nested, Node};
use dcr_set::NoMemory;
use serde_json::{Map, Value};
use std::alloc::Global;

// The marks that are written of an event.
#[derive(Clone, Copy)]
pub(crate) struct Marks {
    pub(crate) executed: Option<bool>,
    pub(crate) pending: Option<bool>,
    pub(crate) included: Option<bool>,
}

/// The canonical text of a nested graph: the compact JSON text of its value, without marks. It is the JSON text of that
/// value. `NoMemory` where memory could not be had.
pub fn graph_text(alloc: Global, nested: &Nested) -> Result<Vec<u8>, NoMemory>
    ensures text { IfOk result (λ text. text.items ≡ graph_text nested.now) }
    ensures reads_back { IfOk result (λ text. json_in text.items ≡ Some (graph_value nested.now None)) }
{
    let value = graph_value(alloc, nested, None)?;
    Ok(value.to_vec(alloc)?)
}

/// The JSON value of a nested graph: an object with `events`, an object for each node in order, and `relations`, the
/// written relations in order. Where an opening marking is given an atom has those marks alone that differ from included
/// alone. `NoMemory` where memory could not be had.
#[tactic(auto, unfolding(crate::specs::Text::graph_value))]
pub fn graph_value(
    alloc: Global,
    nested: &Nested,
    opening: Option<&Marking>,
) -> Result<Value, NoMemory>
    ensures { IfOk result (λ value. view value ≡ graph_value nested.now (option_map (λ m. m.now) opening.entry)) }
{
    let events = event_values(alloc, nested, opening)?;
    let relations = relation_values(alloc, nested.nodes(), nested.relations())?;
    let mut members = Map::new(alloc);
    serde_json::put(&mut members, alloc, "events", Value::Array(events))?;
    serde_json::put(&mut members, alloc, "relations", Value::Array(relations))?;
    Ok(Value::Object(members))
}

// The JSON value of each node.
fn event_values(
    alloc: Global,
    nested: &Nested,
    opening: Option<&Marking>,
) -> Result<Vec<Value>, NoMemory>
    ensures { IfOk result (λ values. map view values.items ≡ event_values nested.now (option_map (λ m. m.now) opening.entry)) }
{
    let count = nested.nodes().len() as u16;
    let mut values = Vec::with_capacity(alloc, usize::from(count))?;
    for x in 0..count {
        values.push(event_value(alloc, nested, opening, x)?)?;
    }
    Ok(values)
}

// The JSON value of node x. Its members are put in by ascending keys.
fn event_value(
    alloc: Global,
    nested: &Nested,
    opening: Option<&Marking>,
    x: u16,
) -> Result<Value, NoMemory>
    requires { x < length nested.now.nodes }
    ensures { IfOk result (λ value. view value ≡ event_value_at nested.now (option_map (λ m. m.now) opening.entry) x) }
{
    let node = &nested.nodes()[usize::from(x)];
    let marks = marks_written(nested, opening, x);
    let mut members = Map::new(alloc);
    put_mark(&mut members, alloc, "executed", marks.executed)?;
    put_mark(&mut members, alloc, "included", marks.included)?;
    put_text(&mut members, alloc, "label", Some(node.label.text()))?;
    put_text(&mut members, alloc, "name", Some(node.name.text()))?;
    let parent = parent_name(nested, node.parent);
    put_text(&mut members, alloc, "parent", parent)?;
    put_mark(&mut members, alloc, "pending", marks.pending)?;
    Ok(Value::Object(members))
}

// The marks of node x, each where it is not the usual one. A node that is no atom has none.
fn marks_written(nested: &Nested, opening: Option<&Marking>, x: u16) -> Marks
    requires { x < length nested.now.nodes }
    ensures { result ≡ marks_of (option_map (λ m. m.now) opening.entry) (atom_number (parents_of nested.now.nodes) x) }
{
    let Some(opening) = opening else {
        return no_marks();
    };
    let Some(atom) = nested.atom(x) else {
        return no_marks();
    };
    Marks {
        executed: unusual(false, opening.executed.contains(atom)),
        pending: unusual(false, opening.pending.contains(atom)),
        included: unusual(true, opening.included.contains(atom)),
    }
}

// None.
fn no_marks() -> Marks
    ensures executed { result.executed ≡ None }
    ensures pending { result.pending ≡ None }
    ensures included { result.included ≡ None }
{
    Marks {
        executed: None,
        pending: None,
        included: None,
    }
}

// A mark where it is not the usual one.
fn unusual(usual: bool, mark: bool) -> Option<bool>
    ensures { result ≡ unusual usual mark }
{
    if mark == usual { None } else { Some(mark) }
}

// The name of the parent, where there is one.
fn parent_name(nested: &Nested, parent: Option<u16>) -> Option<&str>
    requires { ForSome parent (λ p. p < length nested.now.nodes) }
    ensures { option_map (λ name. name.now) result ≡ option_map (λ p. slice_index_or (names_of nested.now.nodes) p []) parent }
{
    let parent = parent?;
    Some(nested.nodes()[usize::from(parent)].name.text())
}

// The JSON value of each relation.
fn relation_values(
    alloc: Global,
    nodes: &[Node],
    relations: &[(Kind, u16, u16)],
) -> Result<Vec<Value>, NoMemory>
    requires { AreInRange (length nodes.now) relations.now }
    ensures { IfOk result (λ values. map view values.items ≡ relation_values (names_of nodes.now) relations.now) }
{
    let mut values = Vec::with_capacity(alloc, relations.len())?;
    for relation in relations {
        let value = relation_value(alloc, nodes, relation.0, relation.1, relation.2)?;
        values.push(value)?;
    }
    Ok(values)
}

// The JSON value of one relation.
fn relation_value(
    alloc: Global,
    nodes: &[Node],
    kind: Kind,
    source: u16,
    target: u16,
) -> Result<Value, NoMemory>
    requires source { source < length nodes.now }
    requires target { target < length nodes.now }
    ensures { IfOk result (λ value. view value ≡ relation_value (names_of nodes.now) (kind, source, target)) }
{
    let mut texts = Vec::with_capacity(alloc, 3)?;
    texts.push(Value::try_from_str(alloc, kind_word(kind))?)?;
    texts.push(name_value(alloc, nodes, source)?)?;
    texts.push(name_value(alloc, nodes, target)?)?;
    Ok(Value::Array(texts))
}

// The JSON value of a node's name.
fn name_value(alloc: Global, nodes: &[Node], node: u16) -> Result<Value, NoMemory>
    requires { node < length nodes.now }
    ensures { IfOk result (λ value. view value ≡ string (slice_index_or (names_of nodes.now) node [])) }
{
    Ok(Value::try_from_str(alloc, nodes[usize::from(node)].name.text())?)
}
