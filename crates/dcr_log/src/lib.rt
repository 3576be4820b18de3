//! Event logs: tables of CSV whose records name a trace and an event each, read as their traces.
#![tactic(auto)]

mod gathering;
mod list;
mod name;
mod places;
mod read;
mod stop;
mod trace;

pub use list::TextList;
pub use name::TraceName;
pub use read::read_log;
pub use stop::LogStop;
pub use trace::Trace;
