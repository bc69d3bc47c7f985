//! What the groups above a CPU say.

ghost use Rattle.std.specs.Prelude.{◌≡◌, ◌<◌, IfSome, length, option_and_then, option_map};
ghost use Rattle.tree_plan.specs.Paths.{child_at};
ghost use Rattle.play_rules.specs.Covers.{led_from, led_to, lowest_active_group};
ghost use Rattle.play_rules.specs.Covers.{waker_by, wakes_by};
ghost use Rattle.play_rules.specs.State.{migrator_at};
ghost use Rattle.step_play.specs.Rules.Seen.{state_of};
ghost use Rattle.step_play.specs.Rules.StepRules.{time_at_top};
ghost use Rattle.core_machine.specs.Covers.Choice.{IsInWorld};

use crate::readings::{is_idle, is_online, is_placed, live_expiry, wakeup};
use core_steps::Core;
use tm_base::{Child, CpuId, GroupId, Jiffy, NEVER};
use wheel_core::TimerBase;

/// Whether a CPU is online, idle and placed, and wakes by a time, in jiffies.
fn wakes_by<B: TimerBase>(core: &Core<B>, time: Jiffy, cpu: CpuId) -> bool
    requires { cpu.0 < length core.now.cpus }
    ensures { result ≡ wakes_by (state_of core.now) time cpu.0 }
{
    is_online(core, cpu)
        && (is_idle(core, cpu) && (is_placed(core, cpu) && wakeup(core, cpu) <= time))
}

/// The lowest online idle placed CPU that wakes by a time, in jiffies.
pub(crate) fn waker_by<B: TimerBase>(core: &Core<B>, time: Jiffy) -> Option<CpuId>
    ensures waker { option_map (λ d. d.0) result ≡ waker_by (state_of core.now) time }
    ensures in_range { IfSome result (λ d. d.0 < length core.now.cpus) }
{
    for cpu in 0..core.count() {
        if wakes_by(core, time, CpuId(cpu)) {
            return Some(CpuId(cpu));
        }
    }
    None
}

/// When the top's event towards a CPU comes, in jiffies.
pub(crate) fn time_at_top<B: TimerBase>(core: &Core<B>, cpu: CpuId) -> Jiffy
    requires { cpu.0 < length core.now.cpus }
    ensures { result ≡ time_at_top core.now cpu.0 }
{
    let last = core.tree().levels().saturating_sub(1);
    match core.tree().group_at(cpu, last) {
        Some(top) => live_expiry(core, top, core.side(cpu, last)),
        None => NEVER,
    }
}

/// The lowest active group of a CPU's path.
pub(crate) fn lowest_active_group<B: TimerBase>(core: &Core<B>, cpu: CpuId) -> Option<GroupId>
    requires { cpu.0 < length core.now.cpus }
    ensures group { option_map (λ g. g.0) result ≡ lowest_active_group (state_of core.now) cpu.0 }
    ensures in_range { IfSome result (λ g. g.0 < length core.now.groups) }
{
    core.kept();
    let tree = core.tree();
    for level in 0..tree.levels() {
        let Some(group) = tree.group_at(cpu, level) else {
            return None;
        };
        if core.is_on(group) {
            return Some(group);
        }
    }
    None
}

/// The child to which the migrator of a group leads.
fn leads_to<B: TimerBase>(core: &Core<B>, group: GroupId) -> Option<Child>
    requires { group.0 < length core.now.groups }
    ensures child { result ≡ option_and_then (child_at core.now.tree group.0)
        (migrator_at (state_of core.now) group.0) }
    ensures in_world { IfSome result (IsInWorld core.now) }
{
    core.kept();
    let Some(number) = core.migrator(group) else {
        return None;
    };
    core.tree().child(group, number)
}

/// The CPU to which the migrators lead from a group, where they come to one within so many levels.
fn led_from<B: TimerBase>(core: &Core<B>, levels: u8, group: GroupId) -> Option<CpuId>
    requires { group.0 < length core.now.groups }
    ensures led { option_map (λ d. d.0) result ≡ led_from (state_of core.now) levels group.0 }
    ensures in_range { IfSome result (λ d. d.0 < length core.now.cpus) }
{
    if levels == 0 {
        return None;
    }
    let Some(child) = leads_to(core, group) else {
        return None;
    };
    match child {
        Child::Cpu(cpu) => Some(cpu),
        Child::Group(below) => led_from(core, levels - 1, below),
    }
}

/// The CPU to which the migrators lead from a group.
pub(crate) fn led_to<B: TimerBase>(core: &Core<B>, group: GroupId) -> Option<CpuId>
    requires { group.0 < length core.now.groups }
    ensures led { option_map (λ d. d.0) result ≡ led_to (state_of core.now) group.0 }
    ensures in_range { IfSome result (λ d. d.0 < length core.now.cpus) }
{
    led_from(core, core.tree().levels(), group)
}
