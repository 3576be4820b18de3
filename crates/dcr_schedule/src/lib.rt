//! The executions of a case at sites apart, over a network that loses, repeats and reorders as a number picks.
#![tactic(auto)]

mod apart;
mod count;
mod draws;
mod hear;
mod run;

pub use apart::run_apart;
pub use run::run_nodes;
