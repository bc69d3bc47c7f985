//! Texts of lines and words: a line feed (byte 10) ends each line, and one space parts its words. A
//! word is a number where it has one to thirteen digits and no zero stands in front of another
//! digit.
#![tactic(auto)]

mod pieces;
mod words;

pub use pieces::{push_bytes, push_number};
pub use words::{cut, is_number, read_number};

#[cfg(test)]
mod tests;
