//! Worked rows of a cluster on a tape: faults of its disk, executions from before, and a stop within each call of the disk.
#![tactic(auto)]

#[cfg(test)]
mod crashes;
#[cfg(test)]
mod tapes;
