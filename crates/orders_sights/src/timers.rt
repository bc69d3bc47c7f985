//! Global timers of CPUs that are online and idle, and who answers for them.

ghost use Rattle.std.specs.Prelude.{◌≡◌, ◌↔◌, ℕ, IfNone, IfOk, IfSome, IsFalse, IsTrue, OnOk, Some};
ghost use Rattle.std.specs.Prelude.{length};
ghost use Rattle.tm_base.specs.declared.names.Class.TheVariants as classes;
ghost use Rattle.orders_world.specs.Answering.{IsAnswer};
ghost use Rattle.orders_sights.specs.Gathering.{AddsOne, AddsSome};
ghost use Rattle.orders_sights.specs.Seeing.{AreSeenBelow, AreSeenOn, IsAnswerer, IsSeenTimer};
ghost use Rattle.orders_sights.specs.Seeing.{PassesTimer, Waits, answerer_of};

use crate::sleepers::sleeps;
use orders_answer::{Answerer, TimerShown};
use orders_world::{Answer, answer_for};
use plain_world::PlainWorld;
use std::alloc::Global;
use tm_base::{Class, CpuId, Jiffy, NoMemory, TimerId};
use tree_plan::law_paths;
use wheel_core::Item;

/// An answer for a wheel expiry of a CPU, with its group by level and place.
fn shown_as(world: &PlainWorld, cpu: CpuId, wheel: Jiffy, answer: Answer) -> Answerer
    requires { IsAnswer world.now cpu.0 wheel answer }
    ensures { result ≡ answerer_of world.now.tree answer }
{
    law_paths();
    let tree = world.tree();
    match answer {
        Answer::Held { level, group, cpu } => Answerer::Held {
            level,
            place: tree.place(group),
            cpu,
        },
        Answer::Woken { cpu, at } => Answerer::Woken { cpu, at },
        Answer::UnderWay => Answerer::Carried,
        Answer::Nobody => Answerer::Nobody,
    }
}

/// Who answers for a wheel expiry of a CPU.
fn answerer(world: &PlainWorld, cpu: CpuId, wheel: Jiffy) -> Answerer
    ensures { IsAnswerer world.now cpu.0 wheel result }
{
    let answer = answer_for(world, cpu, wheel);
    shown_as(world, cpu, wheel, answer)
}

/// Whether a class is the global one.
fn is_global(class: Option<Class>) -> bool
    ensures { IsTrue result ↔ (class ≡ Some classes.Global) }
{
    match class {
        Some(class) => matches!(class, Class::Global),
        None => false,
    }
}

/// The item of a global timer that is queued on a CPU that is online and idle.
fn waiting_item(world: &PlainWorld, cpu: CpuId, timer: TimerId) -> Option<Item>
    ensures waits { IfSome result (Waits world.now cpu.0 timer.0) }
    ensures passes { IfNone result (PassesTimer world.now cpu.0 timer.0) }
{
    if !sleeps(world, cpu) {
        return None;
    }
    if !is_global(world.class_of(cpu, timer)) {
        return None;
    }
    let Some(item) = world.item_of(cpu, timer) else {
        return None;
    };
    Some(item)
}

/// A timer of a CPU, where it is a global one and the CPU is online and idle.
fn timer_seen(world: &PlainWorld, cpu: CpuId, timer: TimerId) -> Option<TimerShown>
    ensures seen { IfSome result (IsSeenTimer world.now cpu.0 timer.0) }
    ensures passes { IfNone result (PassesTimer world.now cpu.0 timer.0) }
{
    let Some(item) = waiting_item(world, cpu, timer) else {
        return None;
    };
    Some(TimerShown {
        timer,
        cpu,
        by: answerer(world, cpu, item.wheel),
    })
}

/// Puts a timer behind others, where it waits.
fn push_timer(
    list: &mut Vec<TimerShown>,
    world: &PlainWorld,
    cpu: CpuId,
    timer: TimerId,
) -> Result<(), NoMemory>
    ensures { OnOk result (AddsOne (PassesTimer world.now cpu.0) (IsSeenTimer world.now cpu.0)
        timer.0 list.old.items list.new.items) }
{
    let Some(seen) = timer_seen(world, cpu, timer) else {
        return Ok(());
    };
    list.push(seen)?;
    Ok(())
}

/// Whether a CPU is online and idle, and has a global timer.
fn has_waiting(world: &PlainWorld, cpu: CpuId) -> bool
    ensures { IsFalse result → (timer : ℕ) → PassesTimer world.now cpu.0 timer }
{
    if !sleeps(world, cpu) {
        return false;
    }
    match world.first_of(cpu, Class::Global) {
        Some(_) => true,
        None => false,
    }
}

/// The timers of a CPU that wait, in the order of their numbers.
fn timers_on(alloc: Global, world: &PlainWorld, cpu: CpuId) -> Result<Vec<TimerShown>, NoMemory>
    ensures { IfOk result (λ list. AreSeenOn world.now cpu.0 list.items) }
{
    let mut list = Vec::new(alloc);
    for timer in 0..world.timers() {
        push_timer(&mut list, world, cpu, TimerId(timer))?;
    }
    Ok(list)
}

/// Puts the timers of a CPU behind those of others.
fn push_cpu(
    alloc: Global,
    list: &mut Vec<TimerShown>,
    world: &PlainWorld,
    cpu: CpuId,
) -> Result<(), NoMemory>
    ensures { OnOk result (AddsSome (AreSeenOn world.now cpu.0) list.old.items list.new.items) }
{
    if !has_waiting(world, cpu) {
        return Ok(());
    }
    let timers = timers_on(alloc, world, cpu)?;
    list.extend_from_slice(&timers)?;
    Ok(())
}

/// Each queued global timer of a CPU that is online and idle, and who answers for it; in the order
/// of the CPUs, and for one CPU in that of the timers. It asks of each timer of the case on each
/// such CPU that has one.
pub fn timers_seen(alloc: Global, world: &PlainWorld) -> Result<Vec<TimerShown>, NoMemory>
    ensures { IfOk result (λ list. AreSeenBelow world.now (length world.now.cpus) list.items) }
{
    let mut list = Vec::new(alloc);
    for cpu in 0..world.count() {
        push_cpu(alloc, &mut list, world, CpuId(cpu))?;
    }
    Ok(list)
}
