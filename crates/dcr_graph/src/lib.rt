//! Names, the flat relation of a graph, markings, and why an event is blocked.
#![tactic(auto)]

mod atom_names;
mod graph;
mod index;
mod kind;
mod label;
mod laws;
mod marking;
mod name;
mod table;

pub use atom_names::AtomNames;
pub use graph::{Graph, GraphStop};
pub use index::NameIndex;
pub use kind::{Cause, Kind};
pub use label::{Label, LabelStop};
pub use laws::{the_cause_is_the_first_that_blocks, the_least_that_waits_is_told};
pub use marking::{Marking, SiteMark};
pub use name::{Name, NameStop};
pub use table::Table;
