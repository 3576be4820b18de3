//! Worked rows of graphs, nests, projections, the engines, journals, lines, messages, nodes and event logs that no whole case
//! or report shows.
#![tactic(auto)]

#[cfg(test)]
mod asked;
#[cfg(test)]
mod build;
#[cfg(test)]
mod drawn;
#[cfg(test)]
mod engines;
#[cfg(test)]
mod graph;
#[cfg(test)]
mod journal;
#[cfg(test)]
mod laws;
#[cfg(test)]
mod line;
#[cfg(test)]
mod logs;
#[cfg(test)]
mod names;
#[cfg(test)]
mod nest;
#[cfg(test)]
mod nodes;
#[cfg(test)]
mod parts;
#[cfg(test)]
mod proj;
#[cfg(test)]
mod same;
#[cfg(test)]
mod steps;
#[cfg(test)]
mod stops;
#[cfg(test)]
mod wire;
