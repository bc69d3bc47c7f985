//! What was seen of a machine in a kernel's trace, each answer known or not, and the rules over it:
//! the words of groups, the tree, the walks of CPUs, and what groups and CPUs are while no walk is
//! under way.
#![tactic(auto)]

pub mod counts;
pub mod rests;
mod rules;
pub mod seen;
pub mod tree;
pub mod walks;
pub mod whom;
pub mod words;

pub use rules::Rule;
pub use whom::Whom;
