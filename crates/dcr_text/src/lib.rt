//! Numbers in texts, and bytes cut into lines.
#![tactic(auto)]

mod cutter;
mod laws;
mod number;

pub use cutter::{Cut, LineCutter};
pub use laws::decimal_is_one_number;
pub use number::{decimal, read_decimal};
