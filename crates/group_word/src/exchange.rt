//! The exchanges that walks make on a group's state.

ghost use Rattle.std.specs.Prelude.{◌≡◌, ◌-◌, ◌^◌, ◌<◌, ◌↔◌, IsTrue, is_none};
ghost use Rattle.std.specs.Bool.{OnFalse};
ghost use Rattle.group_word.specs.Group.{Joins, Leaves, IsLowest, TakesRole, PassesOn};
ghost use Rattle.group_word.specs.Group.{LooksAfter};
ghost use Rattle.group_word.specs.State.{IsLawfulState, activated_state, swapped_state};
ghost use Rattle.group_word.specs.State.{lowest_child, migrator_without};

use crate::GroupState;

/// The exchange of an activation (`tmigr_active_up`): the child, 0 to 7, joins the active set, and
/// where there was no migrator it becomes it. The truth value says that there was none, so that the
/// walk goes on to the parent.
pub fn activated(state: GroupState, child: u8) -> (GroupState, bool)
    requires lawful { IsLawfulState state }
    requires a_child { child < 8 }
    requires room { state.seq < 2 ^ 48 - 1 }
    ensures exact { result.0 ≡ activated_state state child }
    ensures joins { Joins state.active result.0.active child }
    ensures role { TakesRole state.migrator child result.0.migrator }
    ensures lawful { IsLawfulState result.0 }
    ensures first { result.1 ≡ is_none state.migrator }
{
    let next = GroupState {
        active: state.active | (1 << child),
        migrator: state.migrator.or(Some(child)),
        seq: state.seq + 1,
    };
    (next, state.migrator.is_none())
}

/// The exchange of a deactivation (`tmigr_inactive_up`). Where the child, 0 to 7, was found
/// inactive it leaves the active set, and where it was the migrator the lowest remaining child is,
/// or none. Where `child_on` says that it was found active, only the sequence rises.
pub fn swapped(state: GroupState, child: u8, child_on: bool) -> GroupState
    requires lawful { IsLawfulState state }
    requires a_child { child < 8 }
    requires room { state.seq < 2 ^ 48 - 1 }
    ensures exact { result ≡ swapped_state state child child_on }
    ensures leaves { OnFalse child_on (Leaves state.active result.active child) }
    ensures role { OnFalse child_on (PassesOn state.migrator child result.active result.migrator) }
    ensures lawful { IsLawfulState result }
{
    let seq = state.seq + 1;
    if child_on {
        return GroupState { seq, ..state };
    }
    let active = state.active & !(1 << child);
    GroupState {
        active,
        migrator: passed_on(state.migrator, child, active),
        seq,
    }
}

/// Whether a walk that comes from this child looks after the group (`tmigr_check_migrator`): the
/// child is the migrator, or there is none. The call is defined for every state.
pub fn looks(state: GroupState, child: u8) -> bool
    ensures { IsTrue result ↔ LooksAfter state.migrator child }
{
    match state.migrator {
        Some(migrator) => migrator == child,
        None => true,
    }
}

/// The migrator where the child has left, and this set remains.
fn passed_on(migrator: Option<u8>, child: u8, remaining: u8) -> Option<u8>
    ensures exact { result ≡ migrator_without migrator child remaining }
    ensures passes_on { PassesOn migrator child remaining result }
{
    match migrator {
        Some(migrator) if migrator == child => lowest(remaining),
        _ => migrator,
    }
}

/// The lowest child of a set.
pub(crate) fn lowest(active: u8) -> Option<u8>
    ensures exact { result ≡ lowest_child active }
    ensures lowest { IsLowest active result }
{
    if active == 0 {
        None
    } else {
        Some(active.trailing_zeros() as u8)
    }
}
