use crate::tree::{self, Tree};
use crate::{Node, Version, flatten};
use dcr_graph::{AtomNames, Graph, GraphStop, Kind, Name};
use dcr_set::{EventId, EventSet, NoMemory};
use std::alloc::Global;
use std::marker::Model;

/// A nested graph: at most 2,048 nodes with distinct names, each parent earlier than its children, at most
/// 1,024 of them atoms, and at most 4,096 relations written between nodes. An atom is a node that is
/// nobody's parent; atoms are numbered from 0 in the order of the nodes. Contracts see it as `Nest`.
#[derive(Drop)]
pub struct Nested {
    version: Version,
    nodes: Vec<Node>,
    relations: Vec<(Kind, u16, u16)>,
}

impl Model for Nested {
    ghost use Rattle.dcr_nest.specs.Nest.{Nest};

    ghost Value = { Nest };

    ghost use Rattle.dcr_nest.specs.NestModel.{nest_of, IsNestedInside};

    ghost view = { nest_of };

    ghost invariant = { IsNestedInside };
}

impl Nested {
    ghost use Rattle.std.specs.Prelude.{◌≡◌, ◌<◌, length, map, IfOk, IfErr, OnOk, None};
    ghost use Rattle.std.specs.List.{range_with_len};
    ghost use Rattle.dcr_graph.specs.Names.{number_of};
    ghost use Rattle.dcr_graph.specs.Pairs.{AreInRange, first_clash, TellsClash};
    ghost use Rattle.dcr_nest.specs.Tree.{atoms, atom_number, atoms_below};
    ghost use Rattle.dcr_nest.specs.Nest.{nest, names_of, parents_of, IsNested};
    ghost use Rattle.dcr_nest.specs.FlatRelation.{flat_relation, of_atoms, IsFlattening};

    /// The nested graph of these nodes and relations.
    pub fn new(version: Version, nodes: Vec<Node>, relations: Vec<(Kind, u16, u16)>) -> Nested
        requires { IsNested (nest version nodes.items relations.items) }
        ensures { result ≡ nest version nodes.items relations.items }
    {
        Nested {
            version,
            nodes,
            relations,
        }
    }

    /// The version.
    pub fn version(&self) -> Version
        ensures { result ≡ self.now.version }
    {
        self.version
    }

    /// The nodes, in order.
    pub fn nodes(&self) -> &[Node]
        ensures nodes { result.now ≡ self.now.nodes }
        ensures nested { IsNested self.now }
    {
        &self.nodes
    }

    /// The written relations, in order, each between two nodes by their numbers.
    pub fn relations(&self) -> &[(Kind, u16, u16)]
        ensures relations { result.now ≡ self.now.relations }
        ensures ends { AreInRange (length self.now.nodes) self.now.relations }
    {
        &self.relations
    }

    /// The node with this name. None exactly where no node has it.
    pub fn find(&self, name: &str) -> Option<u16>
        ensures { result ≡ number_of (names_of self.now.nodes) name.now }
    {
        for number in 0..self.nodes.len() as u16 {
            if self.nodes[usize::from(number)].name.text() == name {
                return Some(number);
            }
        }
        None
    }

    /// The number of the atom that the node is. None exactly where the node is a parent.
    pub fn atom(&self, node: u16) -> Option<EventId>
        requires { node < length self.now.nodes }
        ensures { result ≡ atom_number (parents_of self.now.nodes) node }
    {
        let is_parent = tree::parent_marks(&self.nodes);
        if is_parent[usize::from(node)] {
            return None;
        }
        Some(EventId(tree::atoms_before(&is_parent, node)))
    }

    /// The names of the atoms, in order, again.
    pub fn atom_names(&self, alloc: Global) -> Result<Vec<Name>, NoMemory>
        ensures { IfOk result (λ names. names.items ≡ of_atoms (parents_of self.now.nodes) (names_of self.now.nodes)) }
    {
        let tree = Tree::of(alloc, &self.nodes)?;
        flatten::names(alloc, tree.atoms(), &self.nodes)
    }

    /// The atoms at or below a node. The room is the number of atoms.
    pub fn below(&self, alloc: Global, node: u16) -> Result<EventSet, NoMemory>
        requires { node < length self.now.nodes }
        ensures below { IfOk result (λ set. set ≡ atoms_below (parents_of self.now.nodes) node) }
        ensures room { IfOk result (λ set. length set ≡ length (atoms (parents_of self.now.nodes))) }
    {
        Tree::of(alloc, &self.nodes)?.below(alloc, node)
    }

    /// The atoms at or below each node, in the order of the nodes: one walk for callers that ask of many.
    pub fn all_below(&self, alloc: Global) -> Result<Vec<EventSet>, NoMemory>
        ensures below { IfOk result (λ sets. sets.items
            ≡ map (atoms_below (parents_of self.now.nodes)) (range_with_len 0 (length self.now.nodes))) }
    {
        Tree::of(alloc, &self.nodes)?.all_below(alloc)
    }

    /// The flat graph of the atoms: atoms a and b are related by a kind where a relation of the kind is
    /// written between a node that a is at or below and one that b is at or below. `Clash` comes exactly
    /// where an atom includes and excludes another, with the least such pair.
    pub fn flatten(&self, alloc: Global) -> Result<Graph, GraphStop>
        ensures flat { IfOk result (λ graph. IsFlattening self.now graph) }
        ensures no_clash { OnOk result (first_clash (flat_relation self.now) ≡ None) }
        ensures clash { IfErr result (TellsClash (first_clash (flat_relation self.now))) }
    {
        let tree = Tree::of(alloc, &self.nodes)?;
        let texts = flatten::names(alloc, tree.atoms(), &self.nodes)?;
        let labels = flatten::labels(alloc, tree.atoms(), &self.nodes)?;
        let tables = flatten::tables(alloc, &tree, &self.relations)?;
        let names = AtomNames::new(alloc, texts)?;
        Graph::of_tables(names, labels, tables)
    }
}
