//! The links of sites apart over sockets: who dials for them, who listens for them, and the links.
#![tactic(auto)]

mod asked;
mod dial_porter;
mod listen_porter;
mod local;
mod site_link;

pub use asked::{Dial, Unwaiting};
pub use dial_porter::DialPorter;
pub use listen_porter::ListenPorter;
pub use site_link::{SiteLink, SiteRest};
