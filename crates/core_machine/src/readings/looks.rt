//! What the groups of a core say: what was told, who looks, and whom a look names.

ghost use Rattle.std.specs.Prelude.{◌≡◌, ◌<◌, IfSome, length, option_map, true};
ghost use Rattle.tree_plan.specs.Paths.{is_placed_in};
ghost use Rattle.play_rules.specs.Hierarchy.{looks_after};
ghost use Rattle.step_play.specs.Rules.Live.{counting, expiry_of, live, told_by};
ghost use Rattle.step_play.specs.Rules.Seen.{state_of};
ghost use Rattle.step_play.specs.Rules.StepRules.{can_be_taken, is_waiting, named_at};
ghost use Rattle.step_play.specs.Rules.StepRules.{named_by_queue};

use crate::walks::goes_on;
use core_steps::Core;
use event_queue::Event;
use tm_base::{CpuId, CpuSet, GroupId, Jiffy, NEVER};
use wheel_core::TimerBase;

/// When an event comes that isn't ignored; `NEVER` where there is none.
fn expiry_of(event: Option<Event>) -> Jiffy
    ensures { result ≡ expiry_of (counting event) }
{
    match event {
        Some(event) => { if event.ignored { NEVER } else { event.expiry } }
        None => NEVER,
    }
}

/// When the event of a child of a group comes, in jiffies; `NEVER` where there is none that isn't
/// ignored.
pub fn live_expiry<B: TimerBase>(core: &Core<B>, group: GroupId, child: u8) -> Jiffy
    requires group { group.0 < length core.now.groups }
    requires a_child { child < 8 }
    ensures { result ≡ expiry_of (live core.now group.0 child) }
{
    expiry_of(core.event_of(group, child))
}

/// What a CPU told its leaf, in jiffies; `NEVER` where it told nothing or has no leaf.
pub fn told_by<B: TimerBase>(core: &Core<B>, cpu: CpuId) -> Jiffy
    requires { cpu.0 < length core.now.cpus }
    ensures { result ≡ told_by core.now cpu.0 }
{
    let Some(leaf) = core.tree().group_at(cpu, 0) else {
        return NEVER;
    };
    live_expiry(core, leaf, core.side(cpu, 0))
}

/// Whether a CPU looks after its group at a level: it has one there, and the child towards the CPU
/// is the migrator or there is none. It is placed then.
pub fn looks_after<B: TimerBase>(core: &Core<B>, cpu: CpuId, level: u8) -> bool
    requires { cpu.0 < length core.now.cpus }
    ensures looks { result ≡ looks_after (state_of core.now) cpu.0 level }
    ensures placed { result ≡ true → is_placed_in core.now.tree cpu.0 ≡ true }
{
    core.kept();
    let Some(group) = core.tree().group_at(cpu, level) else {
        return false;
    };
    match core.migrator(group) {
        Some(number) => core.side(cpu, level) == number,
        None => true,
    }
}

/// The CPU of the first due event of a group, besides those that were tried.
fn named_at<B: TimerBase>(core: &Core<B>, group: GroupId, tried: &CpuSet) -> Option<CpuId>
    requires { group.0 < length core.now.groups }
    ensures named { option_map (λ d. d.0) result ≡ named_at core.now tried.now group.0 }
    ensures in_range { IfSome result (λ d. d.0 < length core.now.cpus) }
{
    core.kept();
    match core.events(group).due(core.now(), tried) {
        Some((_, event)) => Some(event.cpu),
        None => None,
    }
}

/// The CPU whose due timers a look at the group of a CPU's path at a level names next, besides
/// those that were tried.
pub fn named<B: TimerBase>(core: &Core<B>, cpu: CpuId, level: u8, tried: &CpuSet) -> Option<CpuId>
    requires { cpu.0 < length core.now.cpus }
    ensures named { option_map (λ d. d.0) result
        ≡ named_by_queue core.now cpu.0 level tried.now }
    ensures in_range { IfSome result (λ d. d.0 < length core.now.cpus) }
{
    match core.tree().group_at(cpu, level) {
        Some(group) => named_at(core, group, tried),
        None => None,
    }
}

/// Whether a CPU that a look named is taken, or left alone: one is taken that is online, idle,
/// unmarked and at rest, and whose event in its leaf has come.
pub fn is_taken<B: TimerBase>(core: &Core<B>, cpu: CpuId) -> bool
    requires { cpu.0 < length core.now.cpus }
    ensures { result ≡ can_be_taken core.now cpu.0 }
{
    let status = core.status(cpu);
    status.online
        && (status.idle
            && (status.walk.is_none()
                && (status.mark.is_none() && told_by(core, cpu) <= core.now())))
}

/// Whether a CPU that went offline has to hand on its duty; it is placed then.
pub fn hands_on<B: TimerBase>(core: &Core<B>, cpu: CpuId) -> bool
    requires { cpu.0 < length core.now.cpus }
    ensures hands { result ≡ is_waiting core.now cpu.0 }
    ensures placed { result ≡ true → is_placed_in core.now.tree cpu.0 ≡ true }
{
    core.tree();
    core.walk(cpu).is_some() && !goes_on(core, cpu)
}
