//! The plain engine: one marking of all atoms over the whole graph, with which a run is checked.
#![tactic(auto)]

mod plain;

pub use plain::Plain;
