//! The calls of a case from sites in processes of their own: a site that reads its part, goes out to who orders the calls, and
//! answers over each link that it is brought.
#![tactic(auto)]

mod counting_link;
mod pauses;
mod say;
mod serve;
mod site_end;

pub use site_end::{SiteEnd, site};
