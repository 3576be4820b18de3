//! Worked rows of the sites apart: how a site and who orders its calls greet, how they meet over sockets, and how a site answers
//! over scripted links.
#![tactic(auto)]

#[cfg(test)]
mod greeting;
#[cfg(test)]
mod meeting;
#[cfg(test)]
mod same;
#[cfg(test)]
mod serving;
