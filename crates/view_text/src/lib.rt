//! Charts of reports as text, for a terminal of 100 columns: the rows of CPUs in pages, and below
//! them the expiries, and who answers for idle CPUs.
#![tactic(auto)]

mod charting;
mod lists;
mod pages;
mod pieces;

pub use charting::text_chart;
pub use pages::{ASLEEP, AWAKE, LABEL, OFFLINE, SPACE, WIDTH};
