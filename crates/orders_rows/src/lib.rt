//! Worked rows of plain worlds against the core: one list of steps is made on both, and before each
//! of them both are asked where every step is enabled, and who answers. They stand apart since a
//! crate with tests is proved twice.
#![tactic(auto)]

#[cfg(test)]
mod both;
#[cfg(test)]
mod rows;
