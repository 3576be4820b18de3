//! The replay of a report: whether a text is the report of a legal history, or else which of its lines is the
//! first wrong one, with which no report begins. The plain engine of the whole graph decides; it knows no site.
#![tactic(auto)]

mod answer;
mod canonical;
mod check;
mod ends;
mod entries;
mod head;
mod laws;
mod lines;
mod tracked;
mod verdict;

pub use check::check_report;
pub use entries::is_done;
pub use laws::{a_text_has_one_verdict, each_text_has_a_verdict};
pub use verdict::{Verdict, Wrong};
