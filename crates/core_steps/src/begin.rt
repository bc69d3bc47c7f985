//! How a walk of the core begins.

ghost use Rattle.std.specs.Prelude.{◌≡◌, ◌^◌, ◌<◌, length};
ghost use Rattle.walk_rules.specs.Ranges.{IsInRange};
ghost use Rattle.core_world.specs.Steps.{begins, begins_with};

use core_state::Core;
use tm_base::{CpuId, Jiffy};
use walk_rules::{Stage, Walk, WalkKind, begun_where};
use wheel_core::TimerBase;

/// The walk with which a CPU begins, to tell a time, in jiffies.
pub(crate) fn begins_with<B: TimerBase>(
    core: &Core<B>,
    cpu: CpuId,
    kind: WalkKind,
    stage: Stage,
    next: Jiffy,
) -> Option<Walk>
    requires cpu { cpu.0 < length core.now.cpus }
    requires next { next < 2 ^ 48 }
    ensures walk { result ≡ begins_with core.now cpu.0 kind stage next }
    ensures in_range { IsInRange result }
{
    let pin = core.events_of(cpu).pin;
    begun_where(core.has_group(cpu), kind, stage, pin, next)
}

/// The walk with which a CPU begins, to tell what it has.
pub(crate) fn begins<B: TimerBase>(
    core: &Core<B>,
    cpu: CpuId,
    kind: WalkKind,
    stage: Stage,
) -> Option<Walk>
    requires { cpu.0 < length core.now.cpus }
    ensures walk { result ≡ begins core.now cpu.0 kind stage }
    ensures in_range { IsInRange result }
{
    let next = core.events_of(cpu).next;
    begins_with(core, cpu, kind, stage, next)
}
