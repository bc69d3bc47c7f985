//! The groups, read off the words.

ghost use Rattle.std.specs.Prelude.{◌≡◌, ℕ, ◌<◌, length, slice_set};
ghost use Rattle.event_queue.specs.EventMap.{event_at};
ghost use Rattle.event_queue.specs.Word.{slot_of};
ghost use Rattle.core_world.specs.World.{World, group_of};
ghost use Rattle.shared_rule.specs.Whole.{slot_at};
ghost use Rattle.shared_table.specs.Endings.{SpellsAtRest, word_in};

use crate::last_words::LastWords;
use event_queue::{Events, unpack_event};
use group_word::unpack;
use shared_rule::{CoreGroup, core_laws};
use shared_words::{SharedWord, law_ways_back};
use tm_base::GroupId;

/// The children of a group, each of which has a slot.
const CHILDREN: u8 = 8;

/// Writes into each group what the words say of it; what it was isn't read.
pub(crate) fn read_groups(words: &LastWords, groups: &mut Vec<CoreGroup>)
    requires count { length groups.old.items ≡ words.now.layout.groups }
    requires rest { (w : World) × SpellsAtRest words.now w }
    ensures { (w : World) → SpellsAtRest words.now w → groups.new.items ≡ w.groups }
{
    for group in 0..words.layout().groups {
        groups[usize::from(group)] = read_group(words, GroupId(group));
    }
}

/// The group that the words spell, whose lock nobody has.
fn read_group(words: &LastWords, group: GroupId) -> CoreGroup
    requires low { group.0 < words.now.layout.groups }
    requires rest { (w : World) × SpellsAtRest words.now w }
    ensures { (w : World) → SpellsAtRest words.now w → result ≡ group_of w group.0 }
{
    core_laws();
    law_ways_back();
    let events = read_events(words, group);
    match unpack(words.get(SharedWord::State(group))) {
        Some(state) => CoreGroup::from_parts(state.active, state.migrator, None, events),
        None => unreachable!(),
    }
}

/// The events that the slots of a group spell.
fn read_events(words: &LastWords, group: GroupId) -> Events
    requires { group.0 < words.now.layout.groups }
    ensures eight { length result ≡ 8 }
    ensures each { (k : ℕ) → k < 8
        → event_at result k ≡ slot_of (word_in words.now (slot_at group.0 k)) }
{
    let mut events = Events::new();
    for child in 0..CHILDREN {
        read_slot(words, group, child, &mut events);
    }
    events
}

/// Writes the event that a slot spells, if there is one.
fn read_slot(words: &LastWords, group: GroupId, child: u8, events: &mut Events)
    requires low { group.0 < words.now.layout.groups }
    requires a_child { child < 8 }
    ensures { events.new
        ≡ slice_set events.old child (slot_of (word_in words.now (slot_at group.0 child))) }
{
    match unpack_event(words.get(SharedWord::Slot(group, child))) {
        Some(event) => events.set(child, event),
        None => events.clear(child),
    }
}
