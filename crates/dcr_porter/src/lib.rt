//! Links that come and go: who brings the links of the sites apart and is handed back what stays of them, and the loop that
//! reads a buffer full.
#![tactic(auto)]

mod brought;
mod filling;
mod porter;

pub use brought::Brought;
pub use filling::{Unfilled, fill};
pub use porter::Porter;
