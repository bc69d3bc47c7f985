//! The word of a group's state: bits 0 to 7 are the active set, bits 8 to 15 the migrator as one
//! bit or 0, and bits 16 to 63 the sequence.

ghost use Rattle.std.specs.Prelude.{◌≡◌, ◌<◌, ◌↔◌, IfSome, IfNone, IsTrue, Some};
ghost use Rattle.std.specs.Option.{ForSome};
ghost use Rattle.group_word.specs.Group.{GroupLaw};
ghost use Rattle.group_word.specs.State.{IsLawfulState, IsStateOf, migrator_bits, state_word};

use crate::GroupState;
use crate::exchange::lowest;

/// The word of a lawful state.
pub fn pack(state: GroupState) -> u64
    requires { IsLawfulState state }
    ensures { result ≡ state_word state }
{
    (state.seq << 16) | (u64::from(mark(state.migrator)) << 8) | u64::from(state.active)
}

/// The lawful state that has this word, or None exactly where no lawful state has it.
pub fn unpack(word: u64) -> Option<GroupState>
    ensures found { IfSome result (IsStateOf word) }
    ensures back { (s : GroupState) → IsStateOf word s → result ≡ Some s }
    ensures none { IfNone result ((s : GroupState) → IsStateOf word s → ⊥) }
{
    let active = (word & 0xff) as u8;
    let bit = (word >> 8 & 0xff) as u8;
    // Where this is the one bit of a migrator, it is the lowest child of the set that has this bit.
    let migrator = lowest(bit);
    if mark(migrator) == bit && meets_law(active, migrator) {
        Some(GroupState {
            active,
            migrator,
            seq: word >> 16,
        })
    } else {
        None
    }
}

/// A migrator as one bit, or 0 where there is none.
fn mark(migrator: Option<u8>) -> u8
    requires { ForSome migrator (λ m. m < 8) }
    ensures { result ≡ migrator_bits migrator }
{
    match migrator {
        Some(migrator) => 1 << migrator,
        None => 0,
    }
}

/// Whether a group may have this active set with this migrator.
fn meets_law(active: u8, migrator: Option<u8>) -> bool
    requires { ForSome migrator (λ m. m < 8) }
    ensures { IsTrue result ↔ GroupLaw active migrator }
{
    match migrator {
        Some(migrator) => (active >> migrator) & 1 == 1,
        None => active == 0,
    }
}
