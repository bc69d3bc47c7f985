//! What a core says of all its CPUs.

ghost use Rattle.std.specs.Prelude.{◌≡◌, ◌<◌, ◌&&◌, ◌==◌, IfSome, None, Some, length, not};
ghost use Rattle.std.specs.Prelude.{if◌then◌else◌, option_map, true};
ghost use Rattle.std.specs.Option.{option_or};
ghost use Rattle.tree_plan.specs.Paths.{is_placed_in};
ghost use Rattle.play_rules.specs.Play.{next_interrupt, successor};
ghost use Rattle.play_rules.specs.State.{cpu_at, is_active};
ghost use Rattle.play_rules.specs.Timers.{controller};
ghost use Rattle.core_world.specs.World.{cpu_of};
ghost use Rattle.step_play.specs.Rules.Seen.{state_of};

use crate::readings::cpu::{is_active, is_online, is_placed, wakeup};
use core_steps::Core;
use tm_base::{CpuId, Jiffy, NEVER};
use wheel_core::TimerBase;

/// When the next interrupt comes, in jiffies; `NEVER` where none does. It looks no further than the
/// first active CPU.
pub fn next_interrupt<B: TimerBase>(core: &Core<B>) -> Jiffy
    ensures { result ≡ next_interrupt (state_of core.now) }
{
    core.kept();
    let mut least = NEVER;
    for cpu in 0..core.count() {
        if is_active(core, CpuId(cpu)) {
            return core.now() + 1;
        }
        least = least.min(wakeup(core, CpuId(cpu)));
    }
    least
}

/// Whether a CPU is placed and online.
fn is_up<B: TimerBase>(core: &Core<B>, cpu: CpuId) -> bool
    requires { cpu.0 < length core.now.cpus }
    ensures { result
        ≡ (is_placed_in core.now.tree cpu.0 && (cpu_at (state_of core.now) cpu.0).online) }
{
    is_placed(core, cpu) && is_online(core, cpu)
}

/// Whether a CPU is online and placed, and another one than the CPU that would hand on to it.
fn may_succeed<B: TimerBase>(core: &Core<B>, cpu: CpuId, other: CpuId) -> bool
    requires { other.0 < length core.now.cpus }
    ensures { result ≡ (not (other.0 == cpu.0)
        && (is_placed_in core.now.tree other.0 && (cpu_at (state_of core.now) other.0).online)) }
{
    other.0 != cpu.0 && is_up(core, other)
}

/// The lowest other CPU that is online and placed; None exactly where there is none.
pub fn successor<B: TimerBase>(core: &Core<B>, cpu: CpuId) -> Option<CpuId>
    ensures successor { option_map (λ d. d.0) result ≡ successor (state_of core.now) cpu.0 }
    ensures in_range { IfSome result (λ d. d.0 < length core.now.cpus) }
{
    for other in 0..core.count() {
        if may_succeed(core, cpu, CpuId(other)) {
            return Some(CpuId(other));
        }
    }
    None
}

/// Whether a CPU is placed and active.
fn is_placed_active<B: TimerBase>(core: &Core<B>, cpu: CpuId) -> bool
    requires { cpu.0 < length core.now.cpus }
    ensures { result
        ≡ (is_placed_in core.now.tree cpu.0 && is_active (state_of core.now) cpu.0) }
{
    is_placed(core, cpu) && is_active(core, cpu)
}

/// The lowest so far that is placed and online, with one CPU more.
fn lowest_up<B: TimerBase>(core: &Core<B>, so_far: Option<CpuId>, cpu: CpuId) -> Option<CpuId>
    requires { cpu.0 < length core.now.cpus }
    ensures { option_map (λ d. d.0) result ≡ option_or (option_map (λ d. d.0) so_far)
        (if is_placed_in core.now.tree cpu.0 && (cpu_at (state_of core.now) cpu.0).online
        then Some cpu.0 else None) }
{
    match so_far {
        Some(lowest) => Some(lowest),
        None => { if is_up(core, cpu) { Some(cpu) } else { None } }
    }
}

/// The CPU that controls.
fn first_to_control<B: TimerBase>(core: &Core<B>) -> Option<CpuId>
    ensures { option_map (λ d. d.0) result ≡ controller (state_of core.now) }
{
    let mut up = None;
    for cpu in 0..core.count() {
        if is_placed_active(core, CpuId(cpu)) {
            return Some(CpuId(cpu));
        }
        up = lowest_up(core, up, CpuId(cpu));
    }
    up
}

/// The CPU that gets the timers of one that went offline: the lowest placed active one, else the
/// lowest placed one that is online.
pub fn controller<B: TimerBase>(core: &Core<B>) -> Option<CpuId>
    ensures controller { option_map (λ d. d.0) result ≡ controller (state_of core.now) }
    ensures in_range { IfSome result (λ d. d.0 < length core.now.cpus) }
    ensures online { IfSome result (λ d. (cpu_of core.now d.0).online ≡ true) }
{
    first_to_control(core)
}
