//! Loads: the large cases that numbers spell, for runs that are measured, and their texts.
#![tactic(auto)]

mod cover;
mod draw;
mod graph;
mod laws;
mod names;
mod sessions;
mod text;

pub use laws::{loads_are_large, words_are_the_generators};
pub use text::{load_case, load_text};
