//! The lines that calls, marks and entries are written as: from values to texts, and back.
#![tactic(auto)]

mod call;
mod directory;
mod entry;
pub mod laws;
mod mark;
mod pieces;
mod put;
mod write;

pub use call::read_call;
pub use directory::Directory;
pub use entry::{Head, read_entry, read_head};
pub use mark::read_mark;
pub use write::{write_call, write_entry, write_event, write_mark, write_marking};
