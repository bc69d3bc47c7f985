//! Who answers.

ghost use Rattle.std.specs.Prelude.{◌≡◌, ◌<◌, ℕ, IfSome, Some, is_some, length};
ghost use Rattle.tm_base.specs.declared.names.CpuId.{CpuId};
ghost use Rattle.tm_base.specs.declared.names.GroupId.{GroupId};
ghost use Rattle.core_world.specs.Covered.{IsSettled};
ghost use Rattle.core_world.specs.World.{cpu_of};
ghost use Rattle.step_play.specs.Rules.StepRules.{cover_by_queue};
ghost use Rattle.core_machine.specs.Covers.Answers.{IsHeldByMigrators, IsWokenAt};
ghost use Rattle.core_machine.specs.Covers.Choice.{IsThere, choice_above, choice_for, choice_of};
ghost use Rattle.core_machine.specs.Covers.Choice.{cover_shown, first_wheel, waits};
ghost use Rattle.core_machine.specs.declared.answers.cover.Cover.TheVariants as covers;

use crate::answers::above::{led_to, lowest_active_group, time_at_top, waker_by};
use crate::answers::cover::Cover;
use crate::readings::{is_idle, is_online, wakeup};
use core_steps::Core;
use play_rules::Answerer;
use tm_base::{Class, CpuId, GroupId, Jiffy};
use tm_report::ShownCover;
use wheel_core::TimerBase;

/// The CPU to which the migrators of a group lead.
fn migrator_of<B: TimerBase>(core: &Core<B>, cpu: CpuId, group: GroupId) -> Option<Cover>
    requires { group.0 < length core.now.groups }
    ensures choice { result ≡ choice_above core.now cpu.0 (Some group.0) }
    ensures there { IfSome result (IsThere core.now) }
{
    match led_to(core, group) {
        Some(runner) => Some(Cover::Migrator { group, cpu: runner }),
        None => None,
    }
}

/// The CPU that wakes for the top's event towards a CPU.
fn waker_of<B: TimerBase>(core: &Core<B>, cpu: CpuId) -> Option<Cover>
    requires { cpu.0 < length core.now.cpus }
    ensures choice { result ≡ choice_above core.now cpu.0 None }
    ensures there { IfSome result (IsThere core.now) }
{
    match waker_by(core, time_at_top(core, cpu)) {
        Some(waker) => Some(Cover::Wake {
            cpu: waker,
            at: wakeup(core, waker),
        }),
        None => None,
    }
}

/// Who answers for a wheel expiry of an online idle CPU, in jiffies.
fn cover_for<B: TimerBase>(core: &Core<B>, cpu: CpuId, wheel: Jiffy) -> Option<Cover>
    requires { cpu.0 < length core.now.cpus }
    ensures choice { result ≡ choice_for core.now cpu.0 wheel }
    ensures there { IfSome result (IsThere core.now) }
{
    let at = wakeup(core, cpu);
    if at <= wheel {
        return Some(Cover::Wake { cpu, at });
    }
    match lowest_active_group(core, cpu) {
        Some(group) => migrator_of(core, cpu, group),
        None => waker_of(core, cpu),
    }
}

/// The least wheel expiry of a CPU's global timers, in jiffies.
fn first_global<B: TimerBase>(core: &Core<B>, cpu: CpuId) -> Option<Jiffy>
    requires { cpu.0 < length core.now.cpus }
    ensures { result ≡ first_wheel (cpu_of core.now cpu.0) }
{
    core.bases(cpu).base(Class::Global).first()
}

/// Who answers for the first global timer of a CPU.
fn choose<B: TimerBase>(core: &Core<B>, cpu: CpuId) -> Option<Cover>
    requires { cpu.0 < length core.now.cpus }
    ensures choice { result ≡ choice_of core.now cpu.0 }
    ensures in_range { IfSome result (IsThere core.now) }
{
    if !is_online(core, cpu) || !is_idle(core, cpu) {
        return None;
    }
    match first_global(core, cpu) {
        Some(wheel) => cover_for(core, cpu, wheel),
        None => None,
    }
}

/// Who answers for the first global timer of a CPU: the CPU itself where its wakeup is in time;
/// where a group of its path is active, the CPU to which the migrators lead from the lowest of
/// these; else the lowest online idle placed CPU whose wakeup isn't past the top's event towards
/// it. With no walk and no interrupt under way it is None exactly where the CPU isn't online and
/// idle or has no global timer.
pub fn cover_of<B: TimerBase>(core: &Core<B>, cpu: CpuId) -> Option<Cover>
    requires { cpu.0 < length core.now.cpus }
    ensures choice { result ≡ choice_of core.now cpu.0 }
    ensures in_range { IfSome result (IsThere core.now) }
    ensures held { IsSettled core.now → (g : GroupId) (m : CpuId) →
        result ≡ Some (covers.Migrator g m) → IsHeldByMigrators core.now cpu.0 g.0 m.0 }
    ensures woken { IsSettled core.now → (d : CpuId) (at : ℕ) →
        result ≡ Some (covers.Wake d at) → IsWokenAt core.now cpu.0 d.0 at }
    ensures there { IsSettled core.now → is_some result ≡ waits (cpu_of core.now cpu.0) }
{
    core.kept();
    choose(core, cpu)
}

/// An answer as a report shows it.
fn shown<B: TimerBase>(core: &Core<B>, cover: Cover) -> ShownCover
    requires { IsThere core.now cover }
    ensures { result ≡ cover_shown core.now cover }
{
    match cover {
        Cover::Migrator { group, cpu } => ShownCover::Migrator {
            level: core.tree().level(group),
            place: core.tree().place(group),
            cpu,
        },
        Cover::Wake { cpu, at } => ShownCover::Wake { cpu, at },
    }
}

/// The wheel expiry of the first global timer of a CPU, in jiffies, and who answers for it, as the
/// rules of steps say.
pub fn answerer_of<B: TimerBase>(core: &Core<B>, cpu: CpuId) -> Option<Answerer>
    requires { cpu.0 < length core.now.cpus }
    ensures { result ≡ cover_by_queue core.now cpu.0 }
{
    let Some(wheel) = first_global(core, cpu) else {
        return None;
    };
    match choose(core, cpu) {
        Some(cover) => Some(Answerer {
            wheel,
            cover: shown(core, cover),
        }),
        None => None,
    }
}
