use dcr_graph::{Label, Name};

/// The version of a nested graph. Version 1 has no cancel.
#[derive(Clone, Copy, Debug, PartialEq, Eq)]
pub enum Version {
    V1,
    V2,
}

/// A node of a nested graph. Its parent is the number of an earlier node, or none.
#[derive(Debug, Drop)]
pub struct Node {
    pub name: Name,
    pub parent: Option<u16>,
    pub label: Label,
}
