//! The text of a tree of the hierarchy.
//!
//! The first line has the measures, and a line for each group follows in the order of its number:
//!
//! ```text
//! levels 2 groups 3
//! group 0:0 parent 1:0 bit 0 children 8
//! group 0:1 parent 1:0 bit 1 children 1
//! group 1:0 top children 2
//! ```

mod trees;

pub use trees::print_tree;
