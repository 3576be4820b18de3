//! Talks over links: frames read from a link, what a link gave and took that the machine of a site could have had, and the
//! laws that make what such a link gave true.
#![tactic(auto)]

mod hear;
mod laws;

pub use hear::{hear_answer, hear_vote};
pub use laws::{a_beginning_is_of_the_first, answers_are_true, answers_come_in_order};
