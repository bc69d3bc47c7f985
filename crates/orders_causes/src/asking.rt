//! What a CPU of a plain world is, as causes ask.

ghost use Rattle.std.specs.Prelude.{◌≡◌, ◌↔◌, ◌+◌, ◌≤◌, Some, IsFalse, IsTrue};
ghost use Rattle.core_world.specs.Enabled.{IsDueAtLeaf, MarksNobody, MayBeMissed};
ghost use Rattle.core_world.specs.World.{cpu_of};
ghost use Rattle.orders_world.specs.Asking.{IsOtherOnline, OthersOnline};
ghost use Rattle.walk_rules.specs.declared.walk.Walk.{Walk};
ghost use Rattle.walk_rules.specs.declared.walk.WalkKind.TheVariants as kinds;

use plain_world::PlainWorld;
use tm_base::{CpuId, Jiffy};
use walk_rules::{Walk, WalkKind};

/// Whether a walk is a re-evaluation.
pub(crate) fn is_reeval(walk: Option<Walk>) -> bool
    ensures { IsTrue result ↔ ((k : Walk) × (walk ≡ Some k) × (k.kind ≡ kinds.Reeval)) }
{
    match walk {
        Some(walk) => matches!(walk.kind, WalkKind::Reeval),
        None => false,
    }
}

/// Whether a number is that of a CPU.
pub(crate) fn is_number(number: Option<u16>, cpu: CpuId) -> bool
    ensures { IsTrue result ↔ (number ≡ Some cpu.0) }
{
    match number {
        Some(number) => number == cpu.0,
        None => false,
    }
}

/// Whether one CPU has the mark of another one.
fn is_marked_by(world: &PlainWorld, other: CpuId, cpu: CpuId) -> bool
    ensures { IsTrue result ↔ ((cpu_of world.now other.0).mark ≡ Some cpu.0) }
{
    is_number(world.status(other).mark, cpu)
}

/// Whether a CPU has marked another one, to run its timers. It looks at each CPU.
pub(crate) fn has_marked(world: &PlainWorld, cpu: CpuId) -> bool
    ensures { IsFalse result ↔ MarksNobody world.now cpu.0 }
{
    for other in 0..world.count() {
        if is_marked_by(world, CpuId(other), cpu) {
            return true;
        }
    }
    false
}

/// Whether a CPU is placed and online, and another one than this.
fn is_other_online(world: &PlainWorld, other: CpuId, cpu: CpuId) -> bool
    ensures { IsTrue result ↔ IsOtherOnline world.now cpu.0 other.0 }
{
    other.0 != cpu.0 && world.is_placed(other) && world.status(other).online
}

/// Whether another placed CPU is online. It looks at each CPU.
fn others_online(world: &PlainWorld, cpu: CpuId) -> bool
    ensures { IsTrue result ↔ OthersOnline world.now cpu.0 }
{
    for other in 0..world.count() {
        if is_other_online(world, CpuId(other), cpu) {
            return true;
        }
    }
    false
}

/// Whether the CPU is isolated, or another placed CPU is online.
pub(crate) fn may_be_missed(world: &PlainWorld, cpu: CpuId) -> bool
    ensures { IsTrue result ↔ MayBeMissed world.now cpu.0 }
{
    if !world.is_placed(cpu) {
        return true;
    }
    others_online(world, cpu)
}

/// Whether an event is at most a jiffy ahead of a time.
pub(crate) fn is_soon(now: Jiffy, first: Jiffy) -> bool
    ensures { IsTrue result ↔ (first ≤ now + 1) }
{
    first <= now || first - now <= 1
}

/// Whether a CPU's event in its leaf is due.
pub(crate) fn is_due_at_leaf(world: &PlainWorld, cpu: CpuId) -> bool
    ensures { IsTrue result ↔ IsDueAtLeaf world.now cpu.0 }
{
    let Some(leaf) = world.group_at(cpu, 0) else {
        return false;
    };
    match world.event_of(leaf, world.side(cpu, 0)) {
        Some(event) => !event.ignored && event.expiry <= world.now(),
        None => false,
    }
}
