//! Worked rows of the values: sets, pools, sources and sinks, decimal text, lines, and the stand-ins of the outside.
#![tactic(auto)]

#[cfg(test)]
mod adapters;
#[cfg(test)]
mod cutter;
#[cfg(test)]
mod disk;
#[cfg(test)]
mod fakes;
#[cfg(test)]
mod pool;
#[cfg(test)]
mod reading;
#[cfg(test)]
mod same;
#[cfg(test)]
mod set;
#[cfg(test)]
mod text;
