//! How the command ends where `linux` of tmigview never does.

/// The limit of states was met, and in none of the ends that were found by then a timer is left to
/// nobody.
pub const NOT_ALL: u8 = 13;

/// The search is at fault: a step that it found couldn't be followed.
pub const FAULT: u8 = 15;
