//! A cluster of a case, calls that are made one after the other as a table says, and rows of such calls, of calls from many
//! threads and of workers.
#![tactic(auto)]

#[cfg(test)]
mod calls;
#[cfg(test)]
mod gates;
mod making;
mod playing;
#[cfg(test)]
mod same;
mod texts;
#[cfg(test)]
mod workers;
#[cfg(test)]
mod working;

pub use making::{Parts, is_in_range, no_tape, opened, parts_of};
pub use playing::{
    Beginning, Step, case_of, expect, expect_report, expect_valid, played, without_tape,
};
pub use texts::{GUARDED, HOSPITAL, HOSPITAL_STEPS, NO_SESSION, TWO_SITES};
