//! The journal behind its lock: the one order of all calls, and how much of it each site and session has seen.
#![tactic(auto)]

mod blank;
mod front;
mod front_row;
mod guard;
mod laws;
mod ledger;
mod name;
mod opening;
mod order;
mod pass;
mod record;
mod records;
mod turn;

pub use blank::TurnBlank;
pub use front::Front;
pub use front_row::FrontRow;
pub use guard::TurnGuard;
pub use laws::covered_fronts_are_enough;
pub use name::{Keeps, TurnName};
pub use opening::TurnReady;
pub use pass::Pass;
pub use turn::{Turn, TurnRefused};
