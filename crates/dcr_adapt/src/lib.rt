//! A case that goes on as another one: the stages that a text spells, a case in each line, and the marking that is carried
//! from one case to the next.
#![tactic(auto)]

mod carrying;
mod dropping;
mod laws;
mod lines;
mod names;
mod read;
mod stop;

pub use carrying::carry;
pub use laws::when_each_stage_is_refused;
pub use read::read_stages;
pub use stop::StageStop;
