//! Worked rows of the tape: what is written at each call, what a crash leaves, and what is refused.
#![tactic(auto)]

#[cfg(test)]
mod crashes;
#[cfg(test)]
mod refusals;
#[cfg(test)]
mod same;
#[cfg(test)]
mod support;
#[cfg(test)]
mod written;
