//! Sessions over links: each line that comes is answered by one line.
#![tactic(auto)]

mod end;
mod reply;
mod scene;
mod session;
mod talk;

pub use end::{WorkCause, WorkEnd};
pub use scene::Scene;
pub use session::serve_session;
