//! Nested graphs: nodes with parents, relations written between nodes, and the flat graph of the atoms.
#![tactic(auto)]

mod flatten;
mod laws;
mod nested;
mod node;
mod sets;
mod tree;

pub use laws::nodes_are_below_as_parents_lead;
pub use nested::Nested;
pub use node::{Node, Version};
pub use tree::{atoms_of, parent_marks};
