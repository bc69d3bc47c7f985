//! The states of groups, and which follows from which by an exchange.

ghost use Rattle.std.specs.Prelude.{◌≡◌, ◌<◌, IfSome};
ghost use Rattle.group_word.specs.State.{IsLawfulState};
ghost use Rattle.linux_seen.specs.Words.{exchanged, follows, named_by, same_number, same_state};
ghost use Rattle.linux_seen.specs.Words.{state_asleep, state_led, state_of, word_after};

use crate::seen::Word;
use group_word::{GroupState, activated, swapped};
use linux_lines::Exchange;

/// The child whose bit alone this is.
#[tactic(auto, unfolding(crate::specs::Words::named_by))]
pub fn named_by(bit: u8) -> Option<u8>
    ensures value { result ≡ named_by bit }
    ensures bound { IfSome result (λ k. k < 8) }
{
    match bit {
        1 => Some(0),
        2 => Some(1),
        4 => Some(2),
        8 => Some(3),
        16 => Some(4),
        32 => Some(5),
        64 => Some(6),
        128 => Some(7),
        _ => None,
    }
}

/// The lawful state that a word shows, with no exchange counted; None where no lawful one has it.
#[tactic(auto, unfolding(crate::specs::Words::state_of))]
pub fn state_of(word: Word) -> Option<GroupState>
    ensures value { result ≡ state_of word }
    ensures lawful { IfSome result IsLawfulState }
    ensures start { IfSome result (λ s. s.seq ≡ 0) }
{
    if word.migrator == 0 {
        return state_asleep(word.active);
    }
    match named_by(word.migrator) {
        Some(migrator) => state_led(migrator, word.active),
        None => None,
    }
}

/// The state with no migrator.
fn state_asleep(active: u8) -> Option<GroupState>
    ensures value { result ≡ state_asleep active }
    ensures lawful { IfSome result IsLawfulState }
    ensures start { IfSome result (λ s. s.seq ≡ 0) }
{
    if active == 0 {
        Some(GroupState {
            active: 0,
            migrator: None,
            seq: 0,
        })
    } else {
        None
    }
}

/// The state with this migrator.
fn state_led(migrator: u8, active: u8) -> Option<GroupState>
    requires { migrator < 8 }
    ensures value { result ≡ state_led migrator active }
    ensures lawful { IfSome result IsLawfulState }
    ensures start { IfSome result (λ s. s.seq ≡ 0) }
{
    if (active >> migrator) & 1 == 1 {
        Some(GroupState {
            active,
            migrator: Some(migrator),
            seq: 0,
        })
    } else {
        None
    }
}

/// The state after an exchange. A deactivation that finds its child active leaves the bit.
fn exchanged(state: GroupState, exchange: &Exchange) -> GroupState
    requires lawful { IsLawfulState state }
    requires start { state.seq ≡ 0 }
    requires a_child { exchange.now.bit < 8 }
    ensures { result ≡ exchanged state exchange.now }
{
    if exchange.joins {
        let (next, _) = activated(state, exchange.bit);
        next
    } else {
        let stays = (exchange.active >> exchange.bit) & 1 == 1;
        swapped(state, exchange.bit, stays)
    }
}

/// Whether two numbers are there and equal, or both aren't.
pub fn same_number(a: Option<u8>, b: Option<u8>) -> bool
    ensures { result ≡ same_number a b }
{
    match a {
        Some(n) => match b {
            Some(m) => n == m,
            None => false,
        },
        None => b.is_none(),
    }
}

/// Whether two states are one, but for the count of exchanges.
fn same_state(a: GroupState, b: GroupState) -> bool
    ensures { result ≡ same_state a b }
{
    a.active == b.active && same_number(a.migrator, b.migrator)
}

/// What an exchange's line shows of its group.
pub fn word_after(exchange: &Exchange) -> Word
    ensures { result ≡ word_after exchange.now }
{
    Word {
        active: exchange.active,
        migrator: exchange.migrator,
    }
}

/// Whether an exchange, made on this word, gives the word that its line shows
/// (`tmigr_active_up`, `tmigr_inactive_up`).
#[tactic(auto, unfolding(crate::specs::Words::follows))]
pub fn follows(before: Word, exchange: &Exchange) -> bool
    ensures { result ≡ follows before exchange.now }
{
    if exchange.bit >= 8 {
        return false;
    }
    let Some(old) = state_of(before) else {
        return false;
    };
    let Some(new) = state_of(word_after(exchange)) else {
        return false;
    };
    same_state(exchanged(old, exchange), new)
}
