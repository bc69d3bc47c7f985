//! Worked rows of the program `tmig`, of its texts and of `tmigstory`, apart from these since a
//! crate with tests is proved twice.
#![tactic(auto)]

#[cfg(test)]
mod days;
#[cfg(test)]
mod programs;
#[cfg(test)]
mod rows;
#[cfg(test)]
mod stories;
#[cfg(test)]
mod trees;
