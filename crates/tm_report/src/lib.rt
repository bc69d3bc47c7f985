//! The report of a run: its lines, and their exact texts.
#![tactic(auto)]

mod drafts;
mod lines;
mod reports;
mod texts;

pub use drafts::Draft;
pub use lines::{Line, ShownCover, ShownReason, ShownReply};
pub use reports::{Report, text_of};
