//! Who may execute which events: the roles that events ask for and sessions have, and which calls are denied.
#![tactic(auto)]

mod kept;
mod laws;
mod list;
mod policy;
mod sets;
mod upwards;

pub use laws::{nothing_asked_is_allowed, repeats_do_not_count, roles_come_from_above};
pub use list::RoleList;
pub use policy::Policy;
