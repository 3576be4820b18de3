//! The order of calls over sites apart: what lies under its lock. The journal apart makes the entries of calls by what the sites
//! answer over their links, and the executions that are done are kept.
#![tactic(auto)]

mod calling;
mod closing;
mod ending;
mod gathering;
mod guest;
mod hearing;
mod keeping;
mod making;
mod name;
mod opening;
mod ordering;
mod place;
mod seating;
mod sending;
mod telling;
mod welcoming;

pub use closing::Ended;
pub use guest::Guest;
pub use name::PorterName;
pub use opening::Unbegun;
pub use ordering::Ordering;
pub use place::Place;
