ghost use Rattle.serde_json.specs.View.{items_view, view};
ghost use Rattle.dcr_format.specs.Size.{items_size};
ghost use Rattle.std.specs.Prelude.{◌≡◌, ◌<◌, ◌^◌, true, All, length};
ghost use Rattle.dcr_format.specs.declared.stop.Part.TheVariants as part;
ghost use Rattle.dcr_graph_json.specs.Shape.{is_relation};

use crate::arrays::{read_arrays, try_events, try_relations};
use crate::atoms::try_atoms;
use crate::flat::flatten;
use crate::limits::try_labels;
use crate::names::{index_names, read_names};
use crate::nodes::{read_nodes, try_marks};
use crate::opening::read_opening;
use crate::pairs::read_pairs;
use dcr_format::{CaseStop, LimitKind, MAX_NODES, MAX_RELATIONS, Part, try_count};
use dcr_graph::{Graph, Marking};
use dcr_nest::{Nested, Version};
use serde_json::Value;
use std::alloc::Global;

/// The graph of a case file as it is written, of the right shape. It is lent from the JSON value.
#[derive(Drop)]
pub struct GraphText<'v> {
    pub(crate) version: Version,
    pub(crate) events: &'v [Value],
    pub(crate) relations: &'v [Value],
    ghost few_events: { items_size (items_view events.now) < 2 ^ 32 },
    ghost few_relations: { length relations.now < 2 ^ 32 },
    ghost kinds: { All (λ v. is_relation version (view v) ≡ true) relations.now },
}

/// The nested graph that a case file writes, its flattening, and the opening marking of its atoms.
#[derive(Drop)]
pub struct Built {
    pub nested: Nested,
    pub graph: Graph,
    pub opening: Marking,
}

/// A nested graph, and its flattening.
#[derive(Drop)]
pub struct Flattened {
    pub nested: Nested,
    pub graph: Graph,
}

impl<'v> GraphText<'v> {
    ghost use Rattle.std.specs.Prelude.{◌≡◌, ◌<◌, ◌≤◌, ◌^◌, length, None, option_map, IfOk};
    ghost use Rattle.std.specs.Option.{ForSome};
    ghost use Rattle.serde_json.specs.View.{view};
    ghost use Rattle.dcr_format.specs.Size.{size};
    ghost use Rattle.dcr_format.specs.Facts.{Judges, first, refusal};
    ghost use Rattle.dcr_nest.specs.FlatRelation.{IsFlattening};
    ghost use Rattle.dcr_graph_json.specs.Accepted.{IsAcceptedGraph};
    ghost use Rattle.dcr_graph_json.specs.Build.{build_facts, nest_in, opening_in};
    ghost use Rattle.dcr_graph_json.specs.Limits.{limit_facts};
    ghost use Rattle.dcr_graph_json.specs.Seen.{written};
    ghost use Rattle.dcr_graph_json.specs.Shape.{shape_facts, written_in};

    /// The graph of this version that is written in the member `graph`, where it is there, or the first part that is not
    /// of its shape: `graph`, then the events, then the relations, by the least index. It takes no memory.
    #[tactic(auto, unfolding(crate::specs::Shape::shape_facts))]
    pub fn shape(version: Version, graph: Option<&'v Value>) -> Result<GraphText<'v>, CaseStop>
        requires { ForSome graph (λ v. size (view v.now) < 2 ^ 32) }
        ensures facts { refusal result ≡ first (shape_facts version (option_map (λ v. view v.now) graph.entry)) }
        ensures written { IfOk result (λ text. written text ≡ written_in version (option_map (λ v. view v.now) graph.entry)) }
    {
        let Some(graph) = graph else {
            return Err(no_graph());
        };
        let Some(arrays) = read_arrays(graph) else {
            return Err(no_graph());
        };
        let events = arrays.events;
        let relations = arrays.relations;
        try_events(events)?;
        try_relations(version, relations)?;
        Ok(GraphText {
            version,
            events,
            relations,
        })
    }

    /// Whether the graph keeps its limits, or the first that it breaks, with the count that was found: the nodes, the
    /// atoms, the relations, and the labels one by one. Memory is taken only to count the atoms of more than 1,024 and at
    /// most 2,048 nodes; there `NoMemory` may come in the place of any answer.
    #[tactic(auto, unfolding(crate::specs::Limits::limit_facts))]
    pub fn limits(&self, alloc: Global) -> Result<(), CaseStop>
        ensures facts { Judges (first (limit_facts (written self.now))) result }
        ensures few_nodes { length (written self.now).events ≤ 1024 → refusal result ≡ first (limit_facts (written self.now)) }
        ensures too_many_nodes { 2048 < length (written self.now).events → refusal result ≡ first (limit_facts (written self.now)) }
    {
        let events = self.events;
        try_count(LimitKind::Nodes, MAX_NODES, events.len())?;
        try_atoms(alloc, events)?;
        try_count(LimitKind::Relations, MAX_RELATIONS, self.relations.len())?;
        try_labels(events)?;
        Ok(())
    }

    /// The nested graph of what is written within the limits, its flattening and the opening marking, or the first that is
    /// wrong: a name, a parent, a mark on a nest, an end of a relation, or a clash. `NoMemory` may come in the place of any
    /// answer.
    #[tactic(auto, unfolding(crate::specs::Build::build_facts))]
    pub fn build(&self, alloc: Global) -> Result<Built, CaseStop>
        requires { first (limit_facts (written self.now)) ≡ None }
        ensures facts { Judges (first (build_facts (written self.now))) result }
        ensures nested { IfOk result (λ built. built.nested ≡ nest_in (written self.now)) }
        ensures flat { IfOk result (λ built. IsFlattening built.nested built.graph) }
        ensures accepted { IfOk result (λ built. IsAcceptedGraph (written self.now).version built.nested) }
        ensures opening { IfOk result (λ built. built.opening ≡ opening_in (written self.now)) }
    {
        let events = self.events;
        let index = index_names(alloc, events)?;
        let names = read_names(alloc, &index, events)?;
        let nodes = read_nodes(alloc, &index, names, events)?;
        try_marks(&nodes, events)?;
        let pairs = read_pairs(alloc, &index, self.relations)?;
        let opening = read_opening(alloc, &nodes, events)?;
        let nested = Nested::new(self.version, nodes, pairs);
        let graph = flatten(alloc, &nested)?;
        Ok(Built {
            nested,
            graph,
            opening,
        })
    }
}

// The refusal of what is no graph.
fn no_graph() -> CaseStop
    ensures { result ≡ CaseStop.Shape part.Graph 0 }
{
    CaseStop::Shape {
        part: Part::Graph,
        index: 0,
    }
}
