//! Links in memory that somebody asks over, and worked rows of the desk that hands them out, of the sessions over them, of the
//! door that listens, and of policies that are read by themselves.
#![tactic(auto)]

#[cfg(test)]
mod alone;
#[cfg(test)]
mod build;
#[cfg(test)]
mod desk;
mod links;
#[cfg(test)]
mod policies;
#[cfg(test)]
mod rows;
#[cfg(test)]
mod same;
#[cfg(test)]
mod serving;
#[cfg(test)]
mod tcp;
#[cfg(test)]
mod threads;
#[cfg(test)]
mod working;

pub use links::{Asking, Told, door_of, ends_of, links_of, whole};
