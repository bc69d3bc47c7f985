//! How far up a wheel expiry was told.

ghost use Rattle.std.specs.Prelude.{◌≡◌, ◌↔◌, IsTrue};
ghost use Rattle.event_queue.specs.EventMap.{event_at};
ghost use Rattle.coverage.specs.Coverage.{HasEvent, Told};
ghost use Rattle.walk_rules.specs.Hierarchy.{side};
ghost use Rattle.core_world.specs.Covered.{live_expiry, machine_of};
ghost use Rattle.core_world.specs.World.{group_of};
ghost use Rattle.orders_world.specs.Seeking.{GoesThrough, IsAsleepAt};

use event_queue::Event;
use plain_world::PlainWorld;
use tm_base::{CpuId, GroupId, Jiffy};

/// When an event comes that isn't ignored, in jiffies.
fn live_expiry(event: Option<Event>) -> Option<Jiffy>
    ensures { result ≡ live_expiry event }
{
    match event {
        Some(event) => {
            if event.ignored {
                None
            } else {
                Some(event.expiry)
            }
        },
        None => None,
    }
}

/// When a group's event towards a CPU comes, whose path it is on at a level, in jiffies.
pub(crate) fn event_towards(
    world: &PlainWorld,
    cpu: CpuId,
    level: u8,
    group: GroupId,
) -> Option<Jiffy>
    ensures { result ≡ live_expiry (event_at (group_of world.now group.0).events
        (side world.now.tree cpu.0 level)) }
{
    live_expiry(world.event_of(group, world.side(cpu, level)))
}

/// Whether the event towards a CPU at a level of its path is there and isn't later than a time.
fn has_event(world: &PlainWorld, cpu: CpuId, wheel: Jiffy, level: u8) -> bool
    ensures { IsTrue result ↔ HasEvent (machine_of world.now) cpu.0 wheel level }
{
    let Some(group) = world.group_at(cpu, level) else {
        return false;
    };
    match event_towards(world, cpu, level, group) {
        Some(expiry) => expiry <= wheel,
        None => false,
    }
}

/// Whether the path of a CPU has no active group at a level.
fn is_asleep(world: &PlainWorld, cpu: CpuId, level: u8) -> bool
    ensures { IsTrue result ↔ IsAsleepAt world.now cpu.0 level }
{
    match world.group_at(cpu, level) {
        Some(group) => world.is_off(group),
        None => true,
    }
}

/// Whether a level of a CPU's path was told of a wheel expiry, and is asleep, so that the level
/// above has to know of it.
fn goes_through(world: &PlainWorld, cpu: CpuId, wheel: Jiffy, level: u8) -> bool
    ensures { IsTrue result ↔ GoesThrough world.now cpu.0 wheel level }
{
    has_event(world, cpu, wheel, level) && is_asleep(world, cpu, level)
}

/// Whether a wheel expiry of a CPU was told upwards to a level of its path.
pub(crate) fn is_told(world: &PlainWorld, cpu: CpuId, wheel: Jiffy, level: u8) -> bool
    ensures { IsTrue result ↔ Told (machine_of world.now) cpu.0 wheel level }
{
    for below in 0..level {
        if !goes_through(world, cpu, wheel, below) {
            return false;
        }
    }
    has_event(world, cpu, wheel, level)
}
