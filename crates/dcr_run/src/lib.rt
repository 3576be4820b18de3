//! The sites of a case in a list, without locks: they decide from their own marks.
#![tactic(auto)]

mod sites;

pub use sites::Sites;
