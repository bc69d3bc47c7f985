//! Lists of keys that need no memory of their own for a key more.
#![tactic(auto)]

mod key_lists;
mod link;

pub use key_lists::KeyLists;
pub use link::MOST_PLACES;
