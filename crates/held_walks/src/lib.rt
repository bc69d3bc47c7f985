//! Walks that are held at each point that they pass, while another CPU of their leaf wakes: no lock
//! is in its way.
#![tactic(auto)]

#[cfg(test)]
mod tests;
