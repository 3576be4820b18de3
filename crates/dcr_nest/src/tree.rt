ghost use Rattle.std.specs.Prelude.{◌≡◌, ℕ, ◌<◌, ◌≤◌, Bool, false, not, ◌||◌, ◌==◌, length, filter, map, IfOk, slice_index_or};
ghost use Rattle.std.specs.List.{All, range_with_len};
ghost use Rattle.std.specs.Option.{ForSome, option_map_or};
ghost use Rattle.dcr_set.specs.EventSet.{those};
ghost use Rattle.dcr_nest.specs.Tree.{Parents, AreEarlier, is_at_or_below, is_parent, atoms};
ghost use Rattle.dcr_nest.specs.Nest.{parents_of};

use crate::Node;
use crate::sets::{hand_up, own};
use dcr_set::{EventId, EventSet, NoMemory};
use std::alloc::Global;
use std::marker::Model;

/// The parents of the nodes, and the nodes that are atoms, both in order. Contracts see the parents.
#[derive(Drop)]
pub(crate) struct Tree {
    parents: Vec<Option<u16>>,
    atoms: Vec<u16>,
}

impl Model for Tree {
    ghost use Rattle.std.specs.Prelude.{List, ℕ, Option};

    ghost Value = { List (Option ℕ) };

    ghost use Rattle.dcr_nest.specs.TreeModel.{parents_in, IsTree};

    ghost view = { parents_in };

    ghost invariant = { IsTree };
}

impl Tree {
    ghost use Rattle.std.specs.Prelude.{◌≡◌, ◌<◌, ◌≤◌, length, map, IfOk};
    ghost use Rattle.std.specs.List.{All, range_with_len};
    ghost use Rattle.dcr_nest.specs.Tree.{AreEarlier, atoms, atoms_below};
    ghost use Rattle.dcr_nest.specs.Nest.{parents_of};

    /// The tree of these nodes.
    pub(crate) fn of(alloc: Global, nodes: &[Node]) -> Result<Tree, NoMemory>
        requires most { length nodes.now ≤ 2048 }
        requires earlier { AreEarlier (parents_of nodes.now) }
        requires most_atoms { length (atoms (parents_of nodes.now)) ≤ 1024 }
        ensures { IfOk result (λ tree. tree ≡ parents_of nodes.now) }
    {
        let parents = parents(alloc, nodes)?;
        let atoms = atoms_of(alloc, nodes)?;
        Ok(Tree { parents, atoms })
    }

    /// The parent of each node.
    pub(crate) fn parents(&self) -> &[Option<u16>]
        ensures parents { result.now ≡ self.now }
        ensures most { length self.now ≤ 2048 }
        ensures earlier { AreEarlier self.now }
    {
        &self.parents
    }

    /// The node of each atom.
    pub(crate) fn atoms(&self) -> &[u16]
        ensures atoms { result.now ≡ atoms self.now }
        ensures most { length (atoms self.now) ≤ 1024 }
    {
        &self.atoms
    }

    /// The atoms at or below a node.
    pub(crate) fn below(&self, alloc: Global, node: u16) -> Result<EventSet, NoMemory>
        ensures { IfOk result (λ set. set ≡ atoms_below self.now node) }
    {
        let marks = below_marks(alloc, &self.parents, node)?;
        Ok(marked(&self.atoms, &marks))
    }

    /// The atoms at or below each node, in one walk over the nodes.
    pub(crate) fn all_below(&self, alloc: Global) -> Result<Vec<EventSet>, NoMemory>
        ensures { IfOk result (λ sets. sets.items
            ≡ map (atoms_below self.now) (range_with_len 0 (length self.now))) }
    {
        let mut sets = own(alloc, self.atoms(), self.parents().len())?;
        hand_up(&mut sets, self.parents());
        Ok(sets)
    }
}

// The parent of each node.
fn parents(alloc: Global, nodes: &[Node]) -> Result<Vec<Option<u16>>, NoMemory>
    ensures { IfOk result (λ parents. parents.items ≡ parents_of nodes.now) }
{
    let mut parents = Vec::with_capacity(alloc, nodes.len())?;
    for node in nodes {
        parents.push(node.parent)?;
    }
    Ok(parents)
}

/// Which of the nodes is a parent, by their numbers. A number that is no node has no mark.
pub fn parent_marks(nodes: &[Node]) -> [bool; 2048]
    requires most { length nodes.now ≤ 2048 }
    requires earlier { AreEarlier (parents_of nodes.now) }
    ensures len { length result ≡ 2048 }
    ensures marks { (x : ℕ) → x < 2048 → slice_index_or result x false ≡ is_parent (parents_of nodes.now) x }
{
    let mut marks = [false; 2048];
    for node in nodes {
        if let Some(parent) = node.parent {
            marks[usize::from(parent)] = true;
        }
    }
    marks
}

/// The nodes that are nobody's parent, in order.
pub fn atoms_of(alloc: Global, nodes: &[Node]) -> Result<Vec<u16>, NoMemory>
    requires most { length nodes.now ≤ 2048 }
    requires earlier { AreEarlier (parents_of nodes.now) }
    ensures { IfOk result (λ found. found.items ≡ atoms (parents_of nodes.now)) }
{
    let found = unmarked(alloc, &parent_marks(nodes), nodes.len() as u16)?;
    Ok(found)
}

/// How many of the nodes before this one are not marked.
pub(crate) fn atoms_before(marks: &[bool; 2048], node: u16) -> u16
    requires { node ≤ 2048 }
    ensures { result ≡ length (filter (λ x. not (slice_index_or marks.now x false)) (range_with_len 0 node)) }
{
    let mut count = 0;
    for x in 0..node {
        if !marks[usize::from(x)] {
            count += 1;
        }
    }
    count
}

// Those of so many nodes that are not marked.
fn unmarked(alloc: Global, marks: &[bool; 2048], count: u16) -> Result<Vec<u16>, NoMemory>
    requires { count ≤ 2048 }
    ensures { IfOk result (λ nodes. nodes.items ≡ filter (λ x. not (slice_index_or marks.now x false)) (range_with_len 0 count)) }
{
    let mut nodes = Vec::new(alloc);
    for x in 0..count {
        if !marks[usize::from(x)] {
            nodes.push(x)?;
        }
    }
    Ok(nodes)
}

// Whether each node is at or below this one.
fn below_marks(alloc: Global, parents: &[Option<u16>], node: u16) -> Result<Vec<bool>, NoMemory>
    requires most { length parents.now ≤ 2048 }
    requires earlier { AreEarlier parents.now }
    ensures { IfOk result (λ marks. marks.items
        ≡ map (λ x. is_at_or_below parents.now x node) (range_with_len 0 (length parents.now))) }
{
    let mut marks = Vec::with_capacity(alloc, parents.len())?;
    for x in 0..parents.len() {
        marks.push(is_below(x, parents[x], node, &marks))?;
    }
    Ok(marks)
}

// Whether this is the node, or its parent is marked.
fn is_below(x: usize, parent: Option<u16>, node: u16, marks: &[bool]) -> bool
    requires { ForSome parent (λ p. p < length marks.now) }
    ensures { result ≡ ((x == node) || option_map_or (λ p. slice_index_or marks.now p false) parent false) }
{
    match parent {
        None => x == usize::from(node),
        Some(p) => x == usize::from(node) || marks[usize::from(p)],
    }
}

// The atoms whose nodes are marked.
fn marked(atoms: &[u16], marks: &[bool]) -> EventSet
    requires most { length atoms.now ≤ 1024 }
    requires nodes { All (λ x. x < length marks.now) atoms.now }
    ensures { result ≡ those (length atoms.now) (λ e. slice_index_or marks.now (slice_index_or atoms.now e 0) false) }
{
    let mut set = EventSet::new(atoms.len() as u16);
    for e in 0..atoms.len() as u16 {
        if marks[usize::from(atoms[usize::from(e)])] {
            set.insert(EventId(e));
        }
    }
    set
}
