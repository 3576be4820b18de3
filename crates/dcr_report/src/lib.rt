//! The report of a run: the graph, the cover and the opening marking, every call with its answer, the marks
//! of the sites at the end, and the verdict.
#![tactic(auto)]

mod digest;
mod head;
mod lines;
mod pieces;
mod report;
mod write;
mod writer;

pub use digest::case_digest;
pub use report::{ReportStop, write_report, write_report_by_threads, write_told_by_threads};
pub use write::{write_end, write_site, write_verdict};
pub use writer::{Lines, write_lines};
