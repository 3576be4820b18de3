//! The workers: the calls of all sessions, made in several threads over one cluster.
#![tactic(auto)]

mod deal;
mod laws;
mod run;
mod session;
mod turnstile;
mod worker;

pub use laws::history_in_worker_order;
pub use run::{RunStop, run_sessions};
