//! How far up the groups of a CPU's path were told of a wheel expiry.

ghost use Rattle.std.specs.Prelude.{◌≡◌, ◌<◌, ◌≤◌, IfNone, IfSome, Some, length};
ghost use Rattle.event_queue.specs.EventMap.{event_at};
ghost use Rattle.tree_plan.specs.Paths.{group_at_of};
ghost use Rattle.coverage.specs.Coverage.{HasEvent};
ghost use Rattle.walk_rules.specs.Hierarchy.{side};
ghost use Rattle.core_world.specs.Covered.{live_expiry, machine_of};
ghost use Rattle.core_world.specs.World.{group_of};
ghost use Rattle.trace_check.specs.Told.{IsReach};

use event_queue::Event;
use step_core::Core;
use tm_base::{CpuId, GroupId, Jiffy};
use wheel_core::TimerBase;

/// What stands at the level at which a climb ends.
#[derive(Clone, Copy)]
pub(crate) enum End {
    /// An active group, which was told.
    Active(GroupId),
    /// The top, which is inactive and was told of this time, in jiffies.
    Top(Jiffy),
    /// Nothing was told there, or the path ends below.
    Untold,
}

/// How far up a wheel expiry was told.
#[derive(Clone, Copy)]
pub(crate) struct Reach {
    /// Below this level each group of the path is inactive, was told, and isn't the top.
    pub level: u8,
    /// What stands at this level.
    pub end: End,
}

/// When an event comes that isn't ignored, in jiffies.
fn live_expiry(event: Option<Event>) -> Option<Jiffy>
    ensures { result ≡ live_expiry event }
{
    match event {
        Some(event) => {
            if event.ignored {
                None
            } else {
                Some(event.expiry)
            }
        }
        None => None,
    }
}

/// What a group of a CPU's path was told of a wheel expiry, in jiffies.
fn told_at<B: TimerBase>(
    core: &Core<B>,
    cpu: CpuId,
    level: u8,
    group: GroupId,
    wheel: Jiffy,
) -> Option<Jiffy>
    requires cpu { cpu.0 < length core.now.cpus }
    requires group { group.0 < length core.now.groups }
    requires path { group_at_of core.now.tree cpu.0 level ≡ Some group.0 }
    ensures event { IfSome result (λ at. live_expiry (event_at (group_of core.now group.0).events
        (side core.now.tree cpu.0 level)) ≡ Some at) }
    ensures in_time { IfSome result (λ at. at ≤ wheel) }
    ensures told { IfSome result (λ at. HasEvent (machine_of core.now) cpu.0 wheel level) }
    ensures untold { IfNone result (HasEvent (machine_of core.now) cpu.0 wheel level → ⊥) }
{
    let Some(expiry) = live_expiry(core.event_of(group, core.side(cpu, level))) else {
        return None;
    };
    if expiry > wheel {
        return None;
    }
    Some(expiry)
}

/// How far up the groups of a CPU's path were told of a wheel expiry, in jiffies.
pub(crate) fn climb<B: TimerBase>(core: &Core<B>, cpu: CpuId, wheel: Jiffy) -> Reach
    requires { cpu.0 < length core.now.cpus }
    ensures { IsReach core.now cpu.0 wheel result }
{
    core.kept();
    let tree = core.tree();
    let levels = tree.levels();
    for level in 0..levels {
        let Some(group) = tree.group_at(cpu, level) else {
            return Reach {
                level,
                end: End::Untold,
            };
        };
        let Some(expiry) = told_at(core, cpu, level, group, wheel) else {
            return Reach {
                level,
                end: End::Untold,
            };
        };
        if core.is_on(group) {
            return Reach {
                level,
                end: End::Active(group),
            };
        }
        if core.at_top(cpu, level) {
            return Reach {
                level,
                end: End::Top(expiry),
            };
        }
    }
    Reach {
        level: levels,
        end: End::Untold,
    }
}
