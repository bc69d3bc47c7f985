//! The tree of the timer migration hierarchy. The placed CPUs of each node, those that aren't
//! isolated, are put into groups of at most eight in ascending order, these groups into groups of
//! the next level, and so on until one group is left, the top. Below the number of CPU levels a
//! group takes its children from one node, from there on from all nodes.
#![tactic(auto)]

mod cutting;
mod hierarchy;
mod laws;

pub use hierarchy::{Tree, plan};
pub use laws::{
    law_below, law_cuts, law_edges, law_levels, law_log2up, law_nodes, law_paths, law_placed,
};

#[cfg(test)]
mod tests;
