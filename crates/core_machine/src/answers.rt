//! Who answers for the first global timer of an idle CPU of a core: one CPU, chosen by the core's
//! groups, and that it answers.

mod above;
mod choice;
mod cover;

pub use choice::{answerer_of, cover_of};
pub use cover::Cover;
