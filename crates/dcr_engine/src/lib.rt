//! The engine: the run of a case by its workers, and its serving over links, over a cluster and a store.
#![tactic(auto)]

mod laws;
mod parts;
mod run;
mod serve;

pub use laws::ordered_is_told;
pub use run::run_case;
pub use serve::{CaseServed, CaseUnserved, MAX_ENTRIES, serve_case};
