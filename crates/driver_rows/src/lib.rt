//! Worked rows of plays on the core, apart from these since their proofs take long.
#![tactic(auto)]

#[cfg(test)]
mod tests;
