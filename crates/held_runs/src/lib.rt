//! Scripts that are run past gates which hold CPUs until others stand there too, or have answered:
//! two threads are inside the tree at once.
#![tactic(auto)]

#[cfg(test)]
mod tests;
