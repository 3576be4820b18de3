//! What the locks of a cluster keep: the cell of each site, and what lies beside the journal.
#![tactic(auto)]

mod cell;
mod kept;
mod laws;
mod name;

pub use cell::Cell;
pub use kept::Kept;
pub use laws::a_decision_holds;
pub use name::{ClusterName, StoreName};
