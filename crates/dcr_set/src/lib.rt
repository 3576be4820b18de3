//! Sets of events as words of bits, and the numbers by which events and sites are known.
#![tactic(auto)]

mod id;
mod iter;
mod kept;
mod laws;
mod lowest;
mod runs;
mod set;
mod words;

pub use id::{EventId, MAX_ATOMS, NoMemory, SiteId};
pub use iter::EventIter;
pub use laws::{least_is_the_least_that_passes, set_is_its_numbers};
pub use set::EventSet;
