ghost use Rattle.std.specs.Prelude.{◌≡◌, ◌≤◌, length, map, option_map, IfOk, IfSome};
ghost use Rattle.std.specs.List.{range_with_len};
ghost use Rattle.dcr_nest.specs.Nest.{names_of, parents_of};
ghost use Rattle.dcr_nest.specs.Tree.{atoms_below};
ghost use Rattle.dcr_cover_json.specs.Sites.{atom_count};

use dcr_graph::{Graph, NameIndex};
use dcr_nest::{Nested, Node};
use dcr_set::{EventSet, NoMemory};
use std::alloc::Global;

// The nodes of a nested graph by name, so that a name is found without a walk over all of them, and the atoms at or
// below each, so that they are gathered once and not at every text.
#[derive(Drop)]
pub(crate) struct Index<'n> {
    pub(crate) nested: &'n Nested,
    pub(crate) atoms: u16,
    names: NameIndex<'n>,
    below: Vec<EventSet>,
    ghost named: { names ≡ names_of nested.now.nodes },
    ghost gathered: { below.items ≡ map (atoms_below (parents_of nested.now.nodes)) (range_with_len 0 (length nested.now.nodes)) },
    ghost counted: { atoms ≡ atom_count nested.now },
    ghost most_atoms: { atoms ≤ 1024 },
}

impl<'n> Index<'n> {
    ghost use Rattle.std.specs.Prelude.{◌≡◌, length, option_map, IfOk, IfSome};
    ghost use Rattle.dcr_nest.specs.FlatRelation.{IsFlattening};
    ghost use Rattle.dcr_nest.specs.Nest.{parents_of};
    ghost use Rattle.dcr_nest.specs.Tree.{atoms_below};
    ghost use Rattle.dcr_cover_json.specs.Sites.{atom_count, node_named};

    // Of a nested graph, whose flattening has as many atoms.
    pub(crate) fn new(
        alloc: Global,
        nested: &'n Nested,
        graph: &Graph,
    ) -> Result<Index<'n>, NoMemory>
        requires { IsFlattening nested.now graph.now }
        ensures { IfOk result (λ index. index.nested.now ≡ nested.now) }
    {
        let names = NameIndex::new(alloc, name_texts(alloc, nested.nodes())?)?;
        let below = nested.all_below(alloc)?;
        Ok(Index {
            nested,
            atoms: graph.atoms(),
            names,
            below,
        })
    }

    // What an owned text means: the atoms at or below the node that has this name. None exactly where no node has it.
    pub(crate) fn meaning(&self, text: &str) -> Option<&EventSet>
        ensures meaning { option_map (λ set. set.now) result ≡ option_map (atoms_below (parents_of self.now.nested.now.nodes)) (node_named self.now.nested.now text.now) }
        ensures room { IfSome result (λ set. length set.now ≡ atom_count self.now.nested.now) }
    {
        let node = self.names.find(text.as_bytes())?;
        Some(&self.below[usize::from(node)])
    }
}

// The names of the nodes, in order.
fn name_texts(alloc: Global, nodes: &[Node]) -> Result<Vec<&[u8]>, NoMemory>
    ensures { IfOk result (λ texts. map (λ text. text.now) texts.items ≡ names_of nodes.now) }
{
    let mut texts = Vec::with_capacity(alloc, nodes.len())?;
    for node in nodes {
        texts.push(node.name.text().as_bytes())?;
    }
    Ok(texts)
}
