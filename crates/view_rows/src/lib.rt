//! Worked rows of what stands under `tmigview`: traces of kernels and of steps, reports that are
//! read, and charts. They stand apart since a crate with tests is proved twice.
#![tactic(auto)]

#[cfg(test)]
mod charts;
#[cfg(test)]
mod checks;
#[cfg(test)]
mod explanations;
#[cfg(test)]
mod lines;
#[cfg(test)]
mod reports;
#[cfg(test)]
mod rules;
#[cfg(test)]
mod runs;
#[cfg(test)]
mod text_charts;
#[cfg(test)]
mod timers;
#[cfg(test)]
mod traces;
#[cfg(test)]
mod views;
