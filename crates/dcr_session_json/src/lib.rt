//! The sessions of a case file: their shape, their limits, the calls that they write, and their value.
#![tactic(auto)]

mod arrays;
mod calls;
mod laws;
mod session_list;
mod value;
mod written;

pub use laws::sessions_are_read_back;
pub use session_list::SessionList;
pub use value::sessions_value;
pub use written::SessionText;
