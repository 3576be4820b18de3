ghost use Rattle.std.specs.Prelude.{◌≡◌, ◌≤◌, ◌<◌, true, ◌&&◌, length, map, None, unwrap_or, IfOk, IfErr, IsUtf8};
ghost use Rattle.dcr_graph.specs.Names.{is_label};
ghost use Rattle.dcr_nest.specs.Nest.{labels_of};
ghost use Rattle.std.specs.List.{All};
ghost use Rattle.serde_json.specs.View.{view};
ghost use Rattle.dcr_format.specs.Facts.{Judges, refusal, unless};
ghost use Rattle.dcr_format.specs.declared.stop.CaseStop.TheVariants.{NoMemory, Parent};
ghost use Rattle.dcr_graph_json.specs.Build.{has_earlier_parent, marks_fact, names_fact, node_in, nodes_in, parents_fact};
ghost use Rattle.dcr_graph_json.specs.Limits.{has_short_label};
ghost use Rattle.dcr_graph_json.specs.Written.{label_in, name_in, names_in, writes_mark};

use crate::event::{label, parent, writes_mark};
use dcr_format::CaseStop;
use dcr_graph::{Label, LabelStop, Name, NameIndex};
use dcr_nest::{Node, parent_marks};
use serde_json::Value;
use std::alloc::Global;

// The nodes of the events, which have these names, or the first whose parent is no earlier event's name.
pub(crate) fn read_nodes(
    alloc: Global,
    index: &NameIndex<'_>,
    names: Vec<Name>,
    events: &[Value],
) -> Result<Vec<Node>, CaseStop>
    requires most { length events.now ≤ 2048 }
    requires short { All (λ v. has_short_label (view v) ≡ true) events.now }
    requires index { index.now ≡ names_in (map view events.now) }
    requires names { names.items ≡ names_in (map view events.now) }
    requires texts { All IsUtf8 names.items }
    ensures fact { Judges (parents_fact (map view events.now)) result }
    ensures nodes { IfOk result (λ nodes. nodes.items ≡ nodes_in (map view events.now)) }
    ensures texts { IfOk result (λ nodes. All IsUtf8 (labels_of nodes.items)) }
{
    let mut nodes = Vec::with_capacity(alloc, names.len())?;
    for name in names {
        let i = nodes.len();
        let node = read_node(alloc, index, i, name, &events[i])?;
        nodes.push(node)?;
    }
    Ok(nodes)
}

// The node of event `i`, which has this name.
fn read_node(
    alloc: Global,
    index: &NameIndex<'_>,
    i: usize,
    name: Name,
    event: &Value,
) -> Result<Node, CaseStop>
    requires within { i < 2048 }
    requires short { has_short_label (view event.now) ≡ true }
    requires name { name ≡ name_in (view event.now) }
    requires text { IsUtf8 name }
    ensures fact { Judges (unless (has_earlier_parent index.now i (view event.now)) (Parent i)) result }
    ensures node { IfOk result (λ node. node ≡ node_in index.now (view event.now)) }
    ensures text { IfOk result (λ node. IsUtf8 node.label) }
{
    let parent = read_parent(index, i, event)?;
    let label = read_label(alloc, &name, event)?;
    Ok(Node {
        name,
        parent,
        label,
    })
}

// The parent of event `i`.
fn read_parent(index: &NameIndex<'_>, i: usize, event: &Value) -> Result<Option<u16>, CaseStop>
    requires { i < 2048 }
    ensures fact { refusal result ≡ unless (has_earlier_parent index.now i (view event.now)) (Parent i) }
    ensures parent { IfOk result (λ parent. parent ≡ (node_in index.now (view event.now)).parent) }
{
    let Some(text) = parent(event) else {
        return Ok(None);
    };
    let Some(number) = index.find(text.as_bytes()) else {
        return Err(CaseStop::Parent { i: i as u32 });
    };
    if usize::from(number) >= i {
        return Err(CaseStop::Parent { i: i as u32 });
    }
    Ok(Some(number))
}

// The label that is written, or else the name.
fn read_label(alloc: Global, name: &Name, event: &Value) -> Result<Label, CaseStop>
    requires short { has_short_label (view event.now) ≡ true }
    requires name { name.now ≡ name_in (view event.now) }
    requires text { IsUtf8 name.now }
    ensures label { IfOk result (λ label. label ≡ unwrap_or (label_in (view event.now)) (name_in (view event.now))) }
    ensures text { IfOk result (λ label. IsUtf8 label) }
    ensures memory { IfErr result (λ stop. stop ≡ NoMemory) }
{
    let Some(text) = label(event) else {
        return Ok(Label::of_name(alloc, name)?);
    };
    let label = label_of(alloc, text)?;
    Ok(label)
}

// The label that a text within the limit is.
fn label_of(alloc: Global, text: &str) -> Result<Label, CaseStop>
    requires { is_label text.now ≡ true }
    ensures label { IfOk result (λ label. label ≡ text.now) }
    ensures text { IfOk result (λ label. IsUtf8 label) }
    ensures memory { IfErr result (λ stop. stop ≡ NoMemory) }
{
    match Label::read(alloc, text) {
        Ok(label) => Ok(label),
        Err(LabelStop::Long) => unreachable!(),
        Err(LabelStop::NoMemory) => Err(CaseStop::NoMemory),
    }
}

// Whether no node that is a parent has a mark, or the first that has one.
pub(crate) fn try_marks(nodes: &[Node], events: &[Value]) -> Result<(), CaseStop>
    requires most { length events.now ≤ 2048 }
    requires names { names_fact (map view events.now) ≡ None }
    requires parents { parents_fact (map view events.now) ≡ None }
    requires nodes { nodes.now ≡ nodes_in (map view events.now) }
    ensures { refusal result ≡ marks_fact (map view events.now) }
{
    let is_parent = parent_marks(nodes);
    for i in 0..events.len() {
        if is_marked_nest(is_parent[i], &events[i]) {
            return Err(CaseStop::MarkOnNest { i: i as u32 });
        }
    }
    Ok(())
}

// Whether an event that is a parent writes a mark.
fn is_marked_nest(is_parent: bool, event: &Value) -> bool
    ensures { result ≡ (is_parent && writes_mark (view event.now)) }
{
    is_parent && writes_mark(event)
}
