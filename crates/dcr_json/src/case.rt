use dcr_graph::{Graph, Marking};
use dcr_nest::Nested;
use dcr_proj::Cover;
use dcr_session_json::SessionList;

/// A case: a nested graph and its flattening, its cover by sites, the marking that it opens with, and its
/// sessions: at most 1,024, of at most 200,000 calls in all.
#[derive(Drop)]
pub struct Case {
    /// The nodes and the relations as they are written.
    pub nested: Nested,
    /// The flat graph of the atoms.
    pub graph: Graph,
    /// The sites, and the atoms that each of them owns.
    pub cover: Cover,
    /// The marking before the first call.
    pub opening: Marking,
    /// The calls of each session.
    pub sessions: SessionList,
}
