//! Worked rows of `base_calls`, `cpu_bases` and `delayed_work`, apart from them since a crate with
//! tests is proved twice.
#![tactic(auto)]

#[cfg(test)]
mod bases;
#[cfg(test)]
mod calls;
#[cfg(test)]
mod delayed_works;
