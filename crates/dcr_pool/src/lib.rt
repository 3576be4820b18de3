//! Blocks of room for entries, whose memory is all taken at one moment.
#![tactic(auto)]

mod block;
mod pool;

pub use block::Block;
pub use pool::Pool;
