//! Checking event logs: which traces the graph allows, and why not the others. Each is judged by the plain engine of the
//! whole graph, one by one or by several threads.
#![tactic(auto)]

mod atoms;
mod judged;
mod judging;
mod laws;
mod lines;

pub use dcr_log::{LogStop, TextList, Trace, TraceName, read_log};
pub use judged::Judged;
pub use judging::{judge, judge_all};
pub use laws::each_trace_has_one_answer;
pub use lines::write_judged;
