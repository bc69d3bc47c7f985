//! What a core says, as a list of numbers that is compared with another core's.

ghost use Rattle.std.specs.Prelude.{◌<◌, length};

use event_queue::Event;
use shared_table::Core;
use std::alloc::Global;
use tm_base::{Class, CpuId, GroupId, NoMemory, TimerId};
use wheel_base::WheelBase;

/// The children of a group, each of which has a slot.
const CHILDREN: u8 = 8;

/// Stands for what isn't there.
const NONE: u64 = u64::MAX;

/// The number of a CPU.
fn cpu_fact(cpu: Option<CpuId>) -> u64 {
    match cpu {
        Some(cpu) => u64::from(cpu.0),
        None => NONE,
    }
}

/// A truth as a number.
fn truth(holds: bool) -> u64 {
    if holds { 1 } else { 0 }
}

/// Adds what an event says.
fn add_event(facts: &mut Vec<u64>, event: Option<Event>) -> Result<(), NoMemory> {
    match event {
        Some(event) => {
            facts.push(event.expiry)?;
            facts.push(u64::from(event.cpu.0))?;
            facts.push(truth(event.ignored))?;
        },
        None => facts.push(NONE)?,
    }
    Ok(())
}

/// Adds what a group says.
fn add_group(facts: &mut Vec<u64>, core: &Core<WheelBase>, group: GroupId) -> Result<(), NoMemory>
    requires { group.0 < length core.now.groups }
{
    facts.push(u64::from(core.active(group)))?;
    match core.migrator(group) {
        Some(child) => facts.push(u64::from(child))?,
        None => facts.push(NONE)?,
    }
    facts.push(cpu_fact(core.lock_of(group)))?;
    for child in 0..CHILDREN {
        add_event(facts, core.events(group).get(child))?;
    }
    Ok(())
}

/// Adds what a CPU says.
fn add_cpu(facts: &mut Vec<u64>, core: &Core<WheelBase>, cpu: CpuId) -> Result<(), NoMemory>
    requires { cpu.0 < length core.now.cpus }
{
    let state = core.cpu(cpu);
    facts.push(truth(state.online))?;
    facts.push(truth(state.idle))?;
    facts.push(truth(state.inside))?;
    facts.push(cpu_fact(state.remote))?;
    facts.push(state.wakeup)?;
    facts.push(truth(core.walk(cpu).is_some()))?;
    let next = core.bases(cpu).next();
    facts.push(next.pin)?;
    facts.push(next.next)?;
    facts.push(core.bases(cpu).journal().len() as u64)?;
    Ok(())
}

/// The number of the class in which a timer is queued on a CPU.
fn class_fact(core: &Core<WheelBase>, cpu: CpuId, timer: TimerId) -> u64
    requires { cpu.0 < length core.now.cpus }
{
    match core.class_of(cpu, timer) {
        Some(Class::Pinned) => 0,
        Some(Class::Global) => 1,
        Some(Class::Deferrable) => 2,
        None => NONE,
    }
}

/// Adds where a timer is queued.
fn add_timer(facts: &mut Vec<u64>, core: &Core<WheelBase>, timer: TimerId) -> Result<(), NoMemory>
    requires { timer.0 < core.now.timers }
{
    match core.queued_on(timer) {
        Some(cpu) => {
            facts.push(u64::from(cpu.0))?;
            facts.push(class_fact(core, cpu, timer))?;
        },
        None => facts.push(NONE)?,
    }
    Ok(())
}

/// What a core says: its clock, its groups with their events, its CPUs with their first events, and
/// where its timers are queued.
pub fn facts_of(alloc: Global, core: &Core<WheelBase>) -> Result<Vec<u64>, NoMemory> {
    let mut facts = Vec::new(alloc);
    facts.push(core.now())?;
    for group in 0..core.tree().group_count() {
        add_group(&mut facts, core, GroupId(group))?;
    }
    for cpu in 0..core.count() {
        add_cpu(&mut facts, core, CpuId(cpu))?;
    }
    for timer in 0..core.timers() {
        add_timer(&mut facts, core, TimerId(timer))?;
    }
    Ok(facts)
}
