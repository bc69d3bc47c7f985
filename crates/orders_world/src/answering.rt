//! Who answers for the global timers of a CPU.

ghost use Rattle.std.specs.Prelude.{◌≡◌, ◌↔◌, ℕ, ◌+◌, IfNone, IfSome, IsFalse, IsTrue};
ghost use Rattle.tree_plan.specs.Paths.{level_count_of};
ghost use Rattle.coverage.specs.Coverage.{Held, WakesItself, Woken};
ghost use Rattle.core_world.specs.Covered.{IsSettled, machine_of};
ghost use Rattle.orders_world.specs.Answering.{IsAnswer, SomeUnderWay};
ghost use Rattle.orders_world.specs.Seeking.{RestsAt, TopTold};

use crate::leading::led_to;
use crate::telling::{event_towards, is_told};
use crate::waking::{lowest_waker, own_wakeup};
use plain_world::PlainWorld;
use tm_base::{CpuId, GroupId, Jiffy};
use tree_plan::law_paths;

/// Who answers for a wheel expiry of a CPU.
#[derive(Clone, Copy, Debug, PartialEq, Eq)]
pub enum Answer {
    /// This active group of the CPU's path, at this level, was told, and its migrators lead to this
    /// CPU, which is active.
    Held {
        level: u8,
        group: GroupId,
        cpu: CpuId,
    },
    /// This CPU wakes in time: the CPU of the timers, else the lowest that wakes for all of the
    /// tree.
    Woken {
        cpu: CpuId,
        /// In jiffies.
        at: Jiffy,
    },
    /// Neither; but some CPU has a walk or is inside its interrupt, which may yet see to it.
    UnderWay,
    /// Neither, and nothing is under way.
    Nobody,
}

/// The group of a CPU's path at a level where it holds a wheel expiry.
fn held_at(world: &PlainWorld, cpu: CpuId, wheel: Jiffy, level: u8) -> Option<Answer>
    ensures held { IfSome result (IsAnswer world.now cpu.0 wheel) }
    ensures none { IfNone result
        ((held : Held (machine_of world.now) cpu.0 wheel) → held.level ≡ level → ⊥) }
{
    law_paths();
    world.tree();
    let Some(group) = world.group_at(cpu, level) else {
        return None;
    };
    if !is_told(world, cpu, wheel, level) {
        return None;
    }
    match led_to(world, group) {
        Some(runner) => Some(Answer::Held {
            level,
            group,
            cpu: runner,
        }),
        None => None,
    }
}

/// The group that holds a wheel expiry.
fn holder(world: &PlainWorld, cpu: CpuId, wheel: Jiffy) -> Option<Answer>
    ensures held { IfSome result (IsAnswer world.now cpu.0 wheel) }
    ensures none { IfNone result (Held (machine_of world.now) cpu.0 wheel → ⊥) }
{
    law_paths();
    let tree = world.tree();
    for level in 0..tree.levels() {
        if let Some(held) = held_at(world, cpu, wheel, level) {
            return Some(held);
        }
    }
    None
}

/// The level of the top, None where there is no group.
fn top_level(world: &PlainWorld) -> Option<u8>
    ensures last { IfSome result (λ level. level + 1 ≡ level_count_of world.now.tree) }
    ensures none { IfNone result (level_count_of world.now.tree ≡ 0) }
{
    let levels = world.tree().levels();
    if levels == 0 { None } else { Some(levels - 1) }
}

/// The time of the event towards a CPU in the top, in jiffies, where the top is inactive and was
/// told of a wheel expiry.
fn top_time(world: &PlainWorld, cpu: CpuId, wheel: Jiffy) -> Option<Jiffy>
    ensures told { IfSome result (TopTold world.now cpu.0 wheel) }
    ensures none { IfNone result ((time : ℕ) → TopTold world.now cpu.0 wheel time → ⊥) }
{
    law_paths();
    world.tree();
    let Some(level) = top_level(world) else {
        return None;
    };
    let Some(top) = world.group_at(cpu, level) else {
        return None;
    };
    if world.is_on(top) {
        return None;
    }
    if !is_told(world, cpu, wheel, level) {
        return None;
    }
    event_towards(world, cpu, level, top)
}

/// The lowest CPU that wakes for the top, of a wheel expiry that nobody holds, and for which the
/// CPU itself doesn't wake.
fn waker_above(world: &PlainWorld, cpu: CpuId, wheel: Jiffy) -> Option<Answer>
    requires not_held { Held (machine_of world.now) cpu.0 wheel → ⊥ }
    requires not_itself { WakesItself (machine_of world.now) cpu.0 wheel → ⊥ }
    ensures woken { IfSome result (IsAnswer world.now cpu.0 wheel) }
    ensures none { IfNone result (Woken (machine_of world.now) cpu.0 wheel → ⊥) }
{
    law_paths();
    world.tree();
    let Some(time) = top_time(world, cpu, wheel) else {
        return None;
    };
    match lowest_waker(world, time) {
        Some(waker) => Some(Answer::Woken {
            cpu: waker.cpu,
            at: waker.at,
        }),
        None => None,
    }
}

/// Whether a CPU has no walk and is outside its interrupt.
fn rests(world: &PlainWorld, cpu: CpuId) -> bool
    ensures { IsTrue result ↔ RestsAt world.now cpu.0 }
{
    let status = world.status(cpu);
    status.walk.is_none() && !status.inside
}

/// Whether no walk and no interrupt is under way. It looks at each CPU.
fn is_settled(world: &PlainWorld) -> bool
    ensures settled { IsTrue result → IsSettled world.now }
    ensures under_way { IsFalse result → SomeUnderWay world.now }
{
    for cpu in 0..world.count() {
        if !rests(world, CpuId(cpu)) {
            return false;
        }
    }
    true
}

/// Who answers for a wheel expiry of a CPU, in jiffies: the group that holds it, else the CPU that
/// wakes for it; where neither is there, whether anything is under way. It is asked of CPUs that
/// are online and idle, and can be asked of any.
pub fn answer_for(world: &PlainWorld, cpu: CpuId, wheel: Jiffy) -> Answer
    ensures { IsAnswer world.now cpu.0 wheel result }
{
    if let Some(held) = holder(world, cpu, wheel) {
        return held;
    }
    if let Some(at) = own_wakeup(world, cpu, wheel) {
        return Answer::Woken { cpu, at };
    }
    if let Some(woken) = waker_above(world, cpu, wheel) {
        return woken;
    }
    if is_settled(world) {
        Answer::Nobody
    } else {
        Answer::UnderWay
    }
}
