ghost use Rattle.std.specs.Prelude.{◌≡◌, ◌<◌, None, IfOk};
ghost use Rattle.dcr_graph.specs.Pairs.{first_clash};
ghost use Rattle.dcr_nest.specs.FlatRelation.{IsFlattening, flat_relation};
ghost use Rattle.dcr_load.specs.Each.{each_below, some_of_each_below};
ghost use Rattle.dcr_load.specs.LoadGraph.{node_at, forward, include_or_exclude, drawn, relation_at, load_nest};

use crate::draw::pick;
use crate::names::atom_name;
use dcr_graph::{Graph, GraphStop, Kind, Label};
use dcr_nest::{Nested, Node, Version};
use dcr_set::NoMemory;
use std::alloc::Global;

/// How many atoms there are.
pub(crate) const ATOMS: u16 = 200;

// How many relations are drawn.
const DRAWS: u32 = 600;

// The first word that they are drawn by: one for each atom stands before it.
const FIRST_WORD: u32 = 200;

// The nested graph of a number.
pub(crate) fn nested(alloc: Global, number: u32) -> Result<Nested, NoMemory>
    ensures { IfOk result (λ nested. nested ≡ load_nest number) }
{
    let nodes = nodes(alloc)?;
    let relations = relations(alloc, number)?;
    Ok(Nested::new(Version::V1, nodes, relations))
}

// Its flat graph.
pub(crate) fn flat(alloc: Global, nested: &Nested) -> Result<Graph, NoMemory>
    requires { first_clash (flat_relation nested.now) ≡ None }
    ensures { IfOk result (λ graph. IsFlattening nested.now graph) }
{
    match nested.flatten(alloc) {
        Ok(graph) => Ok(graph),
        Err(GraphStop::NoMemory) => Err(NoMemory),
        Err(GraphStop::Clash { .. }) => unreachable!(),
    }
}

// The nodes.
#[tactic(auto, using(crate::proofs::EachLemmas::each))]
fn nodes(alloc: Global) -> Result<Vec<Node>, NoMemory>
    ensures { IfOk result (λ nodes. nodes.items ≡ each_below 200 node_at) }
{
    let mut nodes = Vec::with_capacity(alloc, usize::from(ATOMS))?;
    for i in 0..ATOMS {
        nodes.push(node(alloc, i)?)?;
    }
    Ok(nodes)
}

// A node without a parent, whose label is its name.
fn node(alloc: Global, i: u16) -> Result<Node, NoMemory>
    ensures { IfOk result (λ node. node ≡ node_at i) }
{
    let name = atom_name(alloc, i)?;
    let label = Label::of_name(alloc, &name)?;
    Ok(Node {
        name,
        parent: None,
        label,
    })
}

// The relations in the order in which they are drawn.
#[tactic(auto, using(crate::proofs::EachLemmas::each))]
fn relations(alloc: Global, number: u32) -> Result<Vec<(Kind, u16, u16)>, NoMemory>
    ensures { IfOk result (λ relations. relations.items ≡ some_of_each_below 600 (relation_at number)) }
{
    let mut relations = Vec::with_capacity(alloc, DRAWS as usize)?;
    for t in 0..DRAWS {
        if let Some(relation) = relation(number, t) {
            relations.push(relation)?;
        }
    }
    Ok(relations)
}

// What draw t relates.
fn relation(number: u32, t: u32) -> Option<(Kind, u16, u16)>
    requires { t < 600 }
    ensures { result ≡ relation_at number t }
{
    let place = FIRST_WORD + 3 * t;
    let kind = pick(number, place, 4);
    let a = pick(number, place + 1, ATOMS);
    let b = pick(number, place + 2, ATOMS);
    related(kind, a, b)
}

// The relation of two atoms by the kind that was drawn.
#[tactic(auto, unfolding(crate::specs::LoadGraph::drawn))]
fn related(kind: u16, a: u16, b: u16) -> Option<(Kind, u16, u16)>
    requires a { a < 200 }
    requires b { b < 200 }
    ensures { result ≡ drawn kind a b }
{
    match kind {
        0 => forward(Kind::Condition, a, b),
        1 => forward(Kind::Milestone, a, b),
        2 => Some((Kind::Response, a, b)),
        _ => Some((include_or_exclude(a, b), a, b)),
    }
}

// From the smaller to the larger, and none from an atom to itself.
fn forward(kind: Kind, a: u16, b: u16) -> Option<(Kind, u16, u16)>
    ensures { result ≡ forward kind a b }
{
    if a == b {
        return None;
    }
    Some((kind, a.min(b), a.max(b)))
}

// An include where the sum is even, and else an exclude.
fn include_or_exclude(a: u16, b: u16) -> Kind
    requires a { a < 200 }
    requires b { b < 200 }
    ensures { result ≡ include_or_exclude a b }
{
    if (a + b) % 2 == 0 {
        Kind::Include
    } else {
        Kind::Exclude
    }
}
