//! The top call: a case file in, its report out, with its own sessions or with others over links; a report in, its verdict
//! out; or a case and an event log in, how each trace is judged out; or several cases in, each of which goes on from the one before,
//! and their reports out; or a case in, and the part of one of its sites out.
#![tactic(auto)]

mod adapt;
mod alone;
mod answer;
mod apart;
mod app;
mod command;
mod conform;
mod lines;
mod load;
mod part;
mod refusal;
mod replay;
mod report;
mod run;
mod say;
mod stored;
mod word;

pub use app::{End, dcr};
pub use dcr_base::Status;
pub use dcr_journal::{Call, CallList, Closed, Entry, Journal, MarkList, Outcome};
pub use dcr_link::{WorkCause, WorkEnd};
pub use dcr_node::World;
pub use dcr_schedule::run_nodes;
pub use dcr_serving::LinkEnd;
