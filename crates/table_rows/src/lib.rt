//! Episodes of calls on a shared table, from `table_stress`, apart from it since a crate with tests
//! is proved twice.
#![tactic(auto)]

#[cfg(test)]
mod episodes;
