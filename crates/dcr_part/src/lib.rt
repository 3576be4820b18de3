//! The part of a site: the text that tells a site its own part of the rules and nothing else, written and read.
#![tactic(auto)]

mod alphabet;
mod fields;
mod graph;
mod head;
mod laws;
mod names;
mod numbers;
mod part;
mod stop;
mod tables;
mod values;
mod write;

pub use head::PartHead;
pub use laws::{local_rules_are_enough, what_a_part_tells};
pub use part::{Part, read_part};
pub use stop::PartStop;
pub use write::part_text;
