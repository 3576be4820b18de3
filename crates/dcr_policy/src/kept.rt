ghost use Rattle.std.specs.Prelude.{◌≡◌, ◌≤◌, length, map, IfOk};
ghost use Rattle.dcr_nest.specs.Nest.{parents_of};
ghost use Rattle.dcr_nest.specs.Tree.{AreEarlier, atoms};
ghost use Rattle.dcr_policy.specs.Numbered.{AreBelow};
ghost use Rattle.dcr_policy.specs.Sets.{asking_for};

use crate::RoleList;
use crate::sets::{asking, granted};
use dcr_nest::{Nested, Node, atoms_of};
use dcr_set::{EventSet, NoMemory};
use std::alloc::Global;

/// What a policy keeps of a nested graph, the parent of each node and the node of each atom, and for each user the atoms
/// that ask for one of his roles.
#[derive(Drop)]
pub(crate) struct Kept {
    pub(crate) parents: Vec<Option<u16>>,
    pub(crate) nodes: Vec<u16>,
    pub(crate) may: Vec<EventSet>,
}

/// What a policy keeps of a nested graph, where so many roles are named, and the sets of its users.
pub(crate) fn prepare(
    alloc: Global,
    nested: &Nested,
    count: usize,
    own: &[RoleList],
    users: &[RoleList],
) -> Result<Kept, NoMemory>
    requires as_many { length own.now ≡ length nested.now.nodes }
    requires own { AreBelow count own.now }
    requires users { AreBelow count users.now }
    ensures parents { IfOk result (λ kept. kept.parents.items ≡ parents_of nested.now.nodes) }
    ensures earlier { AreEarlier (parents_of nested.now.nodes) }
    ensures nodes { IfOk result (λ kept. kept.nodes.items ≡ atoms (parents_of nested.now.nodes)) }
    ensures most { length (atoms (parents_of nested.now.nodes)) ≤ 1024 }
    ensures may { IfOk result (λ kept. kept.may.items
        ≡ map (asking_for (parents_of nested.now.nodes) own.now (atoms (parents_of nested.now.nodes))) users.now) }
{
    let parents = parents(alloc, nested.nodes())?;
    let nodes = atoms_of(alloc, nested.nodes())?;
    let below = nested.all_below(alloc)?;
    let room = nodes.len() as u16;
    let sets = asking(alloc, count, own, &below, room)?;
    let may = granted(alloc, users, &sets, room)?;
    Ok(Kept {
        parents,
        nodes,
        may,
    })
}

// The parent of each node.
fn parents(alloc: Global, nodes: &[Node]) -> Result<Vec<Option<u16>>, NoMemory>
    ensures { IfOk result (λ parents. parents.items ≡ parents_of nodes.now) }
{
    let mut parents = Vec::with_capacity(alloc, nodes.len())?;
    for node in nodes {
        parents.push(node.parent)?;
    }
    Ok(parents)
}
