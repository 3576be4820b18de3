ghost use Rattle.std.specs.Prelude.{◌≡◌, ◌≤◌, map, vec_len, IfOk};

use dcr_graph::{Graph, NameIndex};
use dcr_set::{EventId, NoMemory};
use std::alloc::Global;

/// The atoms' names by number.
pub(crate) fn index_of(alloc: Global, graph: &Graph) -> Result<NameIndex<'_>, NoMemory>
    ensures { IfOk result (λ index. index ≡ graph.now.names) }
{
    NameIndex::new(alloc, name_texts(alloc, graph)?)
}

// The texts of the atoms' names, in order.
fn name_texts(alloc: Global, graph: &Graph) -> Result<Vec<&[u8]>, NoMemory>
    ensures names { IfOk result (λ texts. map (λ text. text.now) texts.items ≡ graph.now.names) }
    ensures most { IfOk result (λ texts. vec_len texts ≤ 2048) }
{
    let mut texts = Vec::with_capacity(alloc, usize::from(graph.atoms()))?;
    for number in 0..graph.atoms() {
        texts.push(graph.name(EventId(number)).text().as_bytes())?;
    }
    Ok(texts)
}
