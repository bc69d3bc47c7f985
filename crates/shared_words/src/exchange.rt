//! What the exchanges of a group's state make of its word.

ghost use Rattle.std.specs.Prelude.{◌≡◌, ◌<◌, ◌+◌, ◌/◌, ◌^◌, is_some};
ghost use Rattle.group_word.specs.declared.state.GroupState.{GroupState};
ghost use Rattle.group_word.specs.State.{IsStateOf};
ghost use Rattle.shared_words.specs.Exchanges.{HasRoom, IsJoinOf, IsSwapOf, shows_migrator};

use group_word::{activated, pack, swapped, unpack};

/// Whether the state of this word has a migrator. Of a word that no state has, whether a bit of the
/// migrator is set.
pub fn has_migrator(word: u64) -> bool
    ensures exact { result ≡ shows_migrator word }
    ensures migrator { (s : GroupState) → IsStateOf word s → result ≡ is_some s.migrator }
{
    (word >> 8) & 0xff != 0
}

/// The word after an activation's exchange, by which a child, 0 to 7, joins (`tmigr_active_up`).
pub fn joined_word(word: u64, child: u8) -> u64
    requires room { HasRoom word }
    requires a_child { child < 8 }
    ensures exact { IsJoinOf word child result }
    ensures counted { result / 2 ^ 16 ≡ word / 2 ^ 16 + 1 }
{
    match unpack(word) {
        Some(state) => pack(activated(state, child).0),
        None => unreachable!(),
    }
}

/// The word after a deactivation's exchange, by which a child, 0 to 7, leaves unless it was found
/// active (`tmigr_inactive_up`).
pub fn swapped_word(word: u64, child: u8, child_on: bool) -> u64
    requires room { HasRoom word }
    requires a_child { child < 8 }
    ensures exact { IsSwapOf word child child_on result }
    ensures counted { result / 2 ^ 16 ≡ word / 2 ^ 16 + 1 }
{
    match unpack(word) {
        Some(state) => pack(swapped(state, child, child_on)),
        None => unreachable!(),
    }
}
