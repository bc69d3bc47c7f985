//! Whose walk carries.

ghost use Rattle.std.specs.Prelude.{◌≡◌, ◌↔◌, ℕ, ◌<◌, ◌||◌, Option, Some, length, not, IsTrue};
ghost use Rattle.core_world.specs.Wakeups.{is_undisturbed};
ghost use Rattle.core_world.specs.World.{cpu_of};
ghost use Rattle.walk_rules.specs.Edges.{edge_level};
ghost use Rattle.trace_check.specs.Told.{MeetsBelow, SeesToBelow, level_under, tells_level};
ghost use Rattle.trace_check.specs.Told.{will_tell_level};

use crate::waking::is_undisturbed;
use step_core::Core;
use tm_base::CpuId;
use walk_rules::{Stage, Walk};
use wheel_core::TimerBase;

/// Whether a CPU has a walk of its own, or is inside its interrupt.
pub(crate) fn is_busy<B: TimerBase>(core: &Core<B>, cpu: CpuId) -> bool
    requires { cpu.0 < length core.now.cpus }
    ensures { result ≡ (not (is_undisturbed (cpu_of core.now cpu.0).walk)
        || (cpu_of core.now cpu.0).inside) }
{
    let status = core.status(cpu);
    !is_undisturbed(status.walk) || status.inside
}

/// The level of the group that an activation has to make know of its child.
fn edge_level(walk: Walk) -> Option<u8>
    requires { walk.level < 255 }
    ensures { result ≡ edge_level walk.level walk.stage }
{
    match walk.stage {
        Stage::Own => Some(0),
        Stage::Up => Some(walk.level),
        Stage::Mark { more } => { if more { Some(walk.level + 1) } else { None } }
        _ => None,
    }
}

/// The level of the group that a walk will tell of one level higher.
fn will_tell_level(walk: Walk) -> Option<u8>
    ensures { result ≡ will_tell_level walk }
{
    match walk.stage {
        Stage::Own => None,
        Stage::Up => None,
        Stage::Mark { more: _ } => None,
        Stage::Read => None,
        Stage::Child => None,
        Stage::Swap => None,
        _ => { if walk.over { None } else { Some(walk.level) } }
    }
}

/// The level below one.
fn level_under(level: u8) -> Option<u8>
    ensures { result ≡ level_under level }
{
    if level == 0 { None } else { Some(level - 1) }
}

/// The level of the group of which a walk tells.
fn tells_level(walk: Walk) -> Option<u8>
    ensures { result ≡ tells_level walk }
{
    match walk.stage {
        Stage::Own => None,
        Stage::Up => None,
        Stage::Mark { more: _ } => None,
        Stage::First { k: _ } => None,
        Stage::FreeGroup => None,
        Stage::FreeChild => None,
        Stage::Finish => None,
        Stage::Handing => None,
        _ => level_under(walk.level),
    }
}

/// Whether the paths of two CPUs meet at this level of the first, and that is below this level of
/// the second.
fn meets<B: TimerBase>(core: &Core<B>, other: CpuId, at: Option<u8>, cpu: CpuId, level: u8) -> bool
    requires other { other.0 < length core.now.cpus }
    requires cpu { cpu.0 < length core.now.cpus }
    ensures { IsTrue result ↔ MeetsBelow core.now other.0 at cpu.0 level }
{
    core.kept();
    let Some(at) = at else {
        return false;
    };
    if at >= level {
        return false;
    }
    let tree = core.tree();
    let Some(one) = tree.group_at(cpu, at) else {
        return false;
    };
    let Some(group) = tree.group_at(other, at) else {
        return false;
    };
    one.0 == group.0
}

/// Whether the walk of a CPU is an activation below a group of the path of another one below a
/// level, or a carrier at it.
fn sees_to<B: TimerBase>(core: &Core<B>, other: CpuId, cpu: CpuId, level: u8) -> bool
    requires other { other.0 < length core.now.cpus }
    requires cpu { cpu.0 < length core.now.cpus }
    ensures { IsTrue result ↔ SeesToBelow core.now other.0 cpu.0 level }
{
    core.kept();
    let Some(walk) = core.walk(other) else {
        return false;
    };
    meets(core, other, edge_level(walk), cpu, level)
        || (meets(core, other, will_tell_level(walk), cpu, level)
            || meets(core, other, tells_level(walk), cpu, level))
}

/// Whether some walk is an activation below a group of a CPU's path below a level, or a carrier at
/// it.
pub(crate) fn is_seen_to<B: TimerBase>(core: &Core<B>, cpu: CpuId, level: u8) -> bool
    requires { cpu.0 < length core.now.cpus }
    ensures { IsTrue result ↔ ((d : ℕ) × SeesToBelow core.now d cpu.0 level) }
{
    core.kept();
    for other in 0..core.count() {
        if sees_to(core, CpuId(other), cpu, level) {
            return true;
        }
    }
    false
}
