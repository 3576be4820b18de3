//! Worked rows of the journal behind its lock, with threads and without.
#![tactic(auto)]

#[cfg(test)]
mod build;
mod executing;
#[cfg(test)]
mod many;
#[cfg(test)]
mod two;

pub use executing::{Cell, NoFault, executed, let_go};
