ghost use Rattle.std.specs.Prelude.{◌≡◌, ◌<◌, ◌≤◌, [], length, vec_len, map, slice_index_or, IfOk};

use dcr_graph::{Graph, NameIndex};
use dcr_set::{EventId, NoMemory};
use std::alloc::Global;
use std::hash::{FoldHasher, Hasher};
use std::marker::Model;

// As many slots as twice the atoms that a graph has at most.
const SLOTS: usize = 4096;

/// The atoms of a graph by their names, for a look-up at each event of a log. The hash of a text tells its slot, and mostly
/// the atom of this name stands there: one comparison tells. Where it doesn't, since two names share a slot, the names' index
/// is asked, which costs little whatever they are. Contracts see the names.
#[derive(Drop)]
pub(crate) struct AtomIndex<'g> {
    graph: &'g Graph,
    // An atom whose name has the slot, or 0.
    slots: [u16; SLOTS],
    names: NameIndex<'g>,
}

impl<'g> Model for AtomIndex<'g> {
    ghost use Rattle.std.specs.Prelude.{◌≡◌, List, ℕ};

    ghost Value = { List (List ℕ) };

    ghost view = { λ index. index.names };

    ghost invariant = { λ index. index.names ≡ index.graph.now.names };
}

impl<'g> AtomIndex<'g> {
    ghost use Rattle.std.specs.Prelude.{◌≡◌, IfOk};
    ghost use Rattle.dcr_graph.specs.Names.{number_of};

    /// Of this graph. `NoMemory` where memory could not be had.
    pub(crate) fn new(alloc: Global, graph: &'g Graph) -> Result<AtomIndex<'g>, NoMemory>
        ensures { IfOk result (λ index. index ≡ graph.now.names) }
    {
        let names = NameIndex::new(alloc, name_texts(alloc, graph)?)?;
        let mut slots = [0; SLOTS];
        for number in 0..graph.atoms() {
            slots[slot_of(bytes_of(graph, number))] = number;
        }
        Ok(AtomIndex {
            graph,
            slots,
            names,
        })
    }

    /// The number of the atom with this name. None exactly where none has it.
    pub(crate) fn find(&self, text: &[u8]) -> Option<u16>
        ensures { result ≡ number_of self.now text.now }
    {
        let number = self.slots[slot_of(text)];
        if number < self.graph.atoms() && bytes_of(self.graph, number) == text {
            return Some(number);
        }
        self.names.find(text)
    }
}

// The slot of a text. It decides what a look-up costs, and no number.
fn slot_of(text: &[u8]) -> usize
    ensures { result < SLOTS }
{
    let mut hasher = FoldHasher::default();
    hasher.write(text);
    (hasher.finish() % (SLOTS as u64)) as usize
}

// The name of an atom.
fn bytes_of(graph: &Graph, number: u16) -> &[u8]
    requires { number < length graph.now.names }
    ensures { result.now ≡ slice_index_or graph.now.names number [] }
{
    graph.name(EventId(number)).text().as_bytes()
}

// The names of the atoms, in order.
fn name_texts(alloc: Global, graph: &Graph) -> Result<Vec<&[u8]>, NoMemory>
    ensures names { IfOk result (λ texts. map (λ text. text.now) texts.items ≡ graph.now.names) }
    ensures most { IfOk result (λ texts. vec_len texts ≤ 2048) }
{
    let mut texts = Vec::with_capacity(alloc, usize::from(graph.atoms()))?;
    for number in 0..graph.atoms() {
        texts.push(bytes_of(graph, number))?;
    }
    Ok(texts)
}
