//! A porter of links in memory, for tests. It tells all that it holds, and fails at the calls that a test names.
#![tactic(auto)]

mod mem_porter;

pub use mem_porter::MemPorter;
