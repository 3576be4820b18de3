//! Calls, their outcomes, and the journal of a run.
#![tactic(auto)]

mod call;
mod closed;
mod journal;
mod list;
mod slot;

pub use call::{Call, Entry, Outcome};
pub use closed::Closed;
pub use journal::Journal;
pub use list::{CallList, MarkList};
