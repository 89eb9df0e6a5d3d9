//! The rows of dataflow: graphs, the machines of their nodes, runs over ends, over lists of ends and on an engine, and nodes on threads.
#![tactic(auto)]

#[cfg(test)]
mod aggregates;
#[cfg(test)]
mod chains;
#[cfg(test)]
mod commands;
#[cfg(test)]
mod end_lists;
#[cfg(test)]
mod engines;
#[cfg(test)]
mod graph;
#[cfg(test)]
mod hand_on;
#[cfg(test)]
mod joints;
#[cfg(test)]
mod machines;
#[cfg(test)]
mod meeting;
#[cfg(test)]
mod nets;
#[cfg(test)]
mod nodes;
#[cfg(test)]
mod pipelines;
#[cfg(test)]
mod rewrites;
