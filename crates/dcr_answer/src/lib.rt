//! A site over a link: it is greeted, and then answers what it is asked, until the link ends.
#![tactic(auto)]

mod asks;
mod end;
mod laws;
mod link;
mod next;
mod telling;

pub use asks::answer_asks;
pub use end::AnswerEnd;
pub use laws::a_site_could_say;
pub use link::answer_link;
