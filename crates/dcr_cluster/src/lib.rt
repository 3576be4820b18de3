//! The cluster: every site behind a lock of its own, one journal, and calls that may come from any thread.
#![tactic(auto)]

mod blank;
mod call;
mod close;
mod cluster;
mod going_on;
mod halt;
mod lend;
mod open;
mod prepare;
mod push;
mod refused;
mod room;

pub use blank::ClusterBlank;
pub use close::Finished;
pub use cluster::Cluster;
pub use halt::Halt;
pub use refused::{OpenCause, OpenRefused};
