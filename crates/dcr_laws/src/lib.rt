//! Why local decisions are global ones: laws over the definitions alone, for all graphs, covers, markings and
//! lists. Each is a function without arguments, answer and body, whose contract is the law. There is no body to
//! get wrong, so this crate has no edits that must be refused: what the laws speak of is guarded by the edits of
//! the crates that compute it.
#![tactic(auto)]

mod laws;

pub use laws::{a_run_is_done, l1, l2, l3, l4, l6, told_has_each_call};
