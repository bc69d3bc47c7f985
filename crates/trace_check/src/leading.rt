//! Where the migrators lead.

ghost use Rattle.std.specs.Prelude.{◌≡◌, ℕ, ◌<◌, ◌&&◌, IfNone, IfSome, Some, length};
ghost use Rattle.tm_base.specs.declared.names.Child.{Child};
ghost use Rattle.tree_plan.specs.Paths.{level_of};
ghost use Rattle.coverage.specs.Coverage.{Leads};
ghost use Rattle.core_world.specs.Covered.{machine_of};
ghost use Rattle.core_world.specs.World.{cpu_of, is_active};
ghost use Rattle.trace_check.specs.Leading.{IsChildInWorld, IsMigrator};

use step_core::Core;
use tm_base::{Child, CpuId, GroupId};
use wheel_core::TimerBase;

/// Whether a CPU is online and not idle.
fn is_active<B: TimerBase>(core: &Core<B>, cpu: CpuId) -> bool
    requires { cpu.0 < length core.now.cpus }
    ensures { result ≡ is_active (cpu_of core.now cpu.0) }
{
    let status = core.status(cpu);
    status.online && !status.idle
}

/// The child that is the migrator of a group.
fn migrator_of<B: TimerBase>(core: &Core<B>, group: GroupId) -> Option<Child>
    requires { group.0 < length core.now.groups }
    ensures migrator { IfSome result (IsMigrator core.now group.0) }
    ensures in_world { IfSome result (IsChildInWorld core.now) }
    ensures none { IfNone result ((m : Child) → IsMigrator core.now group.0 m → ⊥) }
{
    core.kept();
    let Some(number) = core.migrator(group) else {
        return None;
    };
    let Some(child) = core.tree().child(group, number) else {
        return None;
    };
    Some(child)
}

/// The active CPU to which the migrators lead from a group that is below so many levels.
fn led_from<B: TimerBase>(core: &Core<B>, levels: u8, group: GroupId) -> Option<CpuId>
    requires group { group.0 < length core.now.groups }
    requires levels { level_of core.now.tree group.0 < levels }
    ensures leads { IfSome result (λ m. Leads (machine_of core.now) m.0 group.0) }
    ensures none { IfNone result ((m : ℕ) → Leads (machine_of core.now) m group.0 → ⊥) }
{
    core.kept();
    let Some(child) = migrator_of(core, group) else {
        return None;
    };
    match child {
        Child::Cpu(cpu) => {
            if is_active(core, cpu) {
                Some(cpu)
            } else {
                None
            }
        }
        Child::Group(below) => led_from(core, levels - 1, below),
    }
}

/// The active CPU to which the migrators lead from a group.
pub(crate) fn led_to<B: TimerBase>(core: &Core<B>, group: GroupId) -> Option<CpuId>
    requires { group.0 < length core.now.groups }
    ensures leads { IfSome result (λ m. Leads (machine_of core.now) m.0 group.0) }
    ensures none { IfNone result ((m : ℕ) → Leads (machine_of core.now) m group.0 → ⊥) }
{
    core.kept();
    let tree = core.tree();
    led_from(core, tree.levels(), group)
}
