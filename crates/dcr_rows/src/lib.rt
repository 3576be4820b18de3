//! Worked rows through the top call that are no data: faults, gates, several workers, and what errors say. The others are
//! those of `dcr_cases`.
#![tactic(auto)]

#[cfg(test)]
mod apart;
#[cfg(test)]
mod faults;
#[cfg(test)]
mod polite;
#[cfg(test)]
mod same;
#[cfg(test)]
mod served;
#[cfg(test)]
mod stages;
#[cfg(test)]
mod stored;
#[cfg(test)]
mod texts;
#[cfg(test)]
mod whole;
#[cfg(test)]
mod workers;
#[cfg(test)]
mod written;
