//! The seat of a site: the link over which it is told what it takes part in and is asked, with what was told so far.
#![tactic(auto)]

mod laws;
mod parcel;
mod seat;

pub use laws::{a_right_journal_goes_on, parts_are_honest};
pub use seat::Seat;
