//! The words with which a run begins: those of a core at rest.

ghost use Rattle.std.specs.Prelude.{◌≡◌, ℕ, ◌+◌, ◌<◌, IfOk, OnOk, length};
ghost use Rattle.core_world.specs.Covered.{IsSettled};
ghost use Rattle.shared_words.specs.Layout.{index_of};
ghost use Rattle.shared_rule.specs.Starts.{first_whole, spot_in};
ghost use Rattle.shared_rule.specs.Whole.{Spell, cpu_at, layout_of, lock_at, slot_at, state_at};
ghost use Rattle.shared_rule.specs.Whole.{timer_at};
ghost use Rattle.shared_table.specs.Spelled.{SpelledBelow, SpelledTo};

use cpu_word::pack_cpu;
use event_queue::pack_event;
use group_word::{GroupState, pack};
use shared_rule::{Core, law_bounds, law_rest};
use shared_words::{
    Layout, Spot, WORDS_OF_GROUP, WORDS_OF_LINE, law_words_apart, pack_lock, pack_spot,
};
use std::alloc::Global;
use tm_base::{CpuId, GroupId, NoMemory, TimerId};
use wheel_core::TimerBase;

/// The children of a group, each of which has a slot.
const CHILDREN: u8 = 8;

/// Where each word of a core's table stands.
pub(crate) fn layout<B: TimerBase>(core: &Core<B>) -> Layout
    ensures { result ≡ layout_of core.now }
{
    let tree = core.tree();
    Layout {
        groups: tree.group_count(),
        cpus: tree.cpu_count(),
        timers: core.timers(),
    }
}

/// The words of a core at rest, in the order of its layout.
pub(crate) fn first_words<B: TimerBase>(alloc: Global, core: &Core<B>) -> Result<Vec<u64>, NoMemory>
    requires { IsSettled core.now }
    ensures { IfOk result (λ words. (made : ℕ) →
        Spell (layout_of core.now) words.items (first_whole core.now made)) }
{
    let layout = layout(core);
    let mut words = Vec::new(alloc);
    words.reserve(layout.count())?;
    fill(&mut words, core, WORDS_OF_GROUP)?;
    push_groups(&mut words, core, layout.groups)?;
    push_cpus(&mut words, core, layout.cpus)?;
    push_timers(&mut words, core, layout.timers)?;
    Ok(words)
}

/// Adds words that say nothing, up to an index. The core's words below it are written.
fn fill<B: TimerBase>(words: &mut Vec<u64>, core: &Core<B>, index: usize) -> Result<(), NoMemory>
    requires { SpelledBelow core.now index words.old.items }
    ensures { OnOk result (SpelledTo core.now index words.new.items) }
{
    words.resize(index, 0)?;
    Ok(())
}

/// Adds the words of all groups.
fn push_groups<B: TimerBase>(
    words: &mut Vec<u64>,
    core: &Core<B>,
    groups: u16,
) -> Result<(), NoMemory>
    requires count { groups ≡ length core.now.groups }
    requires before { SpelledTo core.now (index_of (layout_of core.now) (state_at 0))
        words.old.items }
    ensures { OnOk result
        (SpelledTo core.now (index_of (layout_of core.now) (cpu_at 0)) words.new.items) }
{
    for group in 0..groups {
        push_group(words, core, GroupId(group))?;
    }
    Ok(())
}

/// Adds the words of a group, with those that say nothing.
fn push_group<B: TimerBase>(
    words: &mut Vec<u64>,
    core: &Core<B>,
    group: GroupId,
) -> Result<(), NoMemory>
    requires low { group.0 < length core.now.groups }
    requires before { SpelledTo core.now (index_of (layout_of core.now) (state_at group.0))
        words.old.items }
    ensures { OnOk result (SpelledTo core.now
        (index_of (layout_of core.now) (state_at (group.0 + 1))) words.new.items) }
{
    let index = words.len();
    push_state(words, core, group)?;
    push_lock(words, core, group)?;
    for child in 0..CHILDREN {
        push_slot(words, core, group, child)?;
    }
    fill(words, core, index + WORDS_OF_GROUP)
}

/// Adds the word of a group's state, of which no exchange has been made.
fn push_state<B: TimerBase>(
    words: &mut Vec<u64>,
    core: &Core<B>,
    group: GroupId,
) -> Result<(), NoMemory>
    requires low { group.0 < length core.now.groups }
    requires before { SpelledTo core.now (index_of (layout_of core.now) (state_at group.0))
        words.old.items }
    ensures { OnOk result (SpelledTo core.now
        (index_of (layout_of core.now) (lock_at group.0)) words.new.items) }
{
    law_words_apart();
    let group = core.group(group);
    words.push(pack(GroupState {
        active: group.active(),
        migrator: group.migrator(),
        seq: 0,
    }))?;
    Ok(())
}

/// Adds the word of a group's lock.
fn push_lock<B: TimerBase>(
    words: &mut Vec<u64>,
    core: &Core<B>,
    group: GroupId,
) -> Result<(), NoMemory>
    requires low { group.0 < length core.now.groups }
    requires before { SpelledTo core.now (index_of (layout_of core.now) (lock_at group.0))
        words.old.items }
    ensures { OnOk result (SpelledTo core.now
        (index_of (layout_of core.now) (slot_at group.0 0)) words.new.items) }
{
    law_words_apart();
    words.push(pack_lock(core.lock_of(group)))?;
    Ok(())
}

/// Adds the word of a child's slot.
fn push_slot<B: TimerBase>(
    words: &mut Vec<u64>,
    core: &Core<B>,
    group: GroupId,
    child: u8,
) -> Result<(), NoMemory>
    requires low { group.0 < length core.now.groups }
    requires a_child { child < 8 }
    requires before { SpelledTo core.now (index_of (layout_of core.now) (slot_at group.0 child))
        words.old.items }
    ensures { OnOk result (SpelledTo core.now
        (index_of (layout_of core.now) (slot_at group.0 (child + 1))) words.new.items) }
{
    law_words_apart();
    words.push(pack_event(core.events(group).get(child)))?;
    Ok(())
}

/// Adds the words of all CPUs.
fn push_cpus<B: TimerBase>(words: &mut Vec<u64>, core: &Core<B>, cpus: u16) -> Result<(), NoMemory>
    requires rest { IsSettled core.now }
    requires count { cpus ≡ length core.now.cpus }
    requires before { SpelledTo core.now (index_of (layout_of core.now) (cpu_at 0))
        words.old.items }
    ensures { OnOk result
        (SpelledTo core.now (index_of (layout_of core.now) (timer_at 0)) words.new.items) }
{
    for cpu in 0..cpus {
        push_cpu(words, core, CpuId(cpu))?;
    }
    Ok(())
}

/// Adds the words of a CPU's line: its own, which says that nobody has marked it, and those that
/// say nothing.
fn push_cpu<B: TimerBase>(words: &mut Vec<u64>, core: &Core<B>, cpu: CpuId) -> Result<(), NoMemory>
    requires rest { IsSettled core.now }
    requires low { cpu.0 < length core.now.cpus }
    requires before { SpelledTo core.now (index_of (layout_of core.now) (cpu_at cpu.0))
        words.old.items }
    ensures { OnOk result (SpelledTo core.now
        (index_of (layout_of core.now) (cpu_at (cpu.0 + 1))) words.new.items) }
{
    law_words_apart();
    law_bounds();
    law_rest();
    core.tree();
    let index = words.len();
    words.push(pack_cpu(core.cpu(cpu)))?;
    fill(words, core, index + WORDS_OF_LINE)
}

/// Adds the words of all timers.
fn push_timers<B: TimerBase>(
    words: &mut Vec<u64>,
    core: &Core<B>,
    timers: u16,
) -> Result<(), NoMemory>
    requires count { timers ≡ core.now.timers }
    requires before { SpelledTo core.now (index_of (layout_of core.now) (timer_at 0))
        words.old.items }
    ensures { OnOk result (SpelledTo core.now
        (index_of (layout_of core.now) (timer_at timers)) words.new.items) }
{
    for timer in 0..timers {
        push_timer(words, core, TimerId(timer))?;
    }
    Ok(())
}

/// Adds the word of a timer.
fn push_timer<B: TimerBase>(
    words: &mut Vec<u64>,
    core: &Core<B>,
    timer: TimerId,
) -> Result<(), NoMemory>
    requires low { timer.0 < core.now.timers }
    requires before { SpelledTo core.now (index_of (layout_of core.now) (timer_at timer.0))
        words.old.items }
    ensures { OnOk result (SpelledTo core.now
        (index_of (layout_of core.now) (timer_at (timer.0 + 1))) words.new.items) }
{
    law_words_apart();
    words.push(pack_spot(spot(core, timer)))?;
    Ok(())
}

/// Where a timer is queued.
fn spot<B: TimerBase>(core: &Core<B>, timer: TimerId) -> Option<Spot>
    requires { timer.0 < core.now.timers }
    ensures { result ≡ spot_in core.now timer.0 }
{
    core.kept();
    let cpu = core.queued_on(timer)?;
    let class = core.bases(cpu).where_is(timer)?;
    Some(Spot { cpu, class })
}
