//! A row of places, each with a lock of its own, that keeps at each place what belongs there.
#![tactic(auto)]

mod grip;
mod held;
mod placed;
mod row;
mod row_end;
mod seats;
mod steps;
#[cfg(test)]
mod tests;
mod waiters;

pub use grip::Grip;
pub use held::Held;
pub use placed::Placed;
pub use row::{Row, RowRefused};
pub use row_end::RowEnd;
