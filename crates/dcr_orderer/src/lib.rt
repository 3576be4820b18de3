//! The order of calls over sites apart: calls of sessions, from any thread, in one order.
#![tactic(auto)]

mod close;
mod lend;
mod making;
mod orderer;
mod unmade;

pub use orderer::Orderer;
pub use unmade::Unmade;
