//! The policy that a case file of the third version writes, or why it is refused; and case and policy, read together.
#![tactic(auto)]

mod accepted;
mod allowed;
mod by;
mod events;
mod laws;
mod names;
mod numbers;
mod read;
mod roles;
mod stop;
mod users;

pub use accepted::{AcceptStop, Accepted, read_accepted};
pub use laws::{other_versions_allow_all, when_each_policy_is_refused, when_each_refusal_comes};
pub use read::read_policy;
pub use stop::{PolicyPart, PolicyStop};
