//! A site that decides and applies from its own marks alone.
#![tactic(auto)]

mod site;

pub use site::{Decision, Site};
