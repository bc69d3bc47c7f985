//! A page in columns: rows of a label and a text whose words go on within a width, the places of
//! columns, and lines across all of them that are printed where they are new.
#![tactic(auto)]

mod filling;
mod fresh;
mod heads;
mod rows;
mod sheets;

pub use fresh::push_all_fresh;
pub use heads::{head_of, push_heading};
pub use rows::{GAP, LABEL, SPACE, push_row, push_words};
pub use sheets::{LEAST, Place, Sheet, place_for, sheet_of};
