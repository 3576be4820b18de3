//! The graph of a case file: its shape, its limits, the nested graph and the opening marking that it writes, and its text.
#![tactic(auto)]

mod accepted;
mod arrays;
mod atoms;
mod event;
mod flat;
mod kind;
mod laws;
mod limits;
mod names;
mod nodes;
mod opening;
mod pairs;
mod read;
mod relation;
mod text;
mod written;

pub use accepted::see_graph;
pub use kind::kind_word;
pub use laws::graphs_are_read_back;
pub use read::read_graph_text;
pub use text::{graph_text, graph_value};
pub use written::{Built, Flattened, GraphText};
