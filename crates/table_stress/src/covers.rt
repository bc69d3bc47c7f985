//! Whether the groups of a core at rest are as its CPUs are, and who answers for idle ones.

ghost use Rattle.std.specs.Prelude.{◌<◌, length};

use core_machine::answers::{Cover, cover_of};
use idle_wakeup::Core;
use shared_rows::law_settled;
use tm_base::{Child, CpuId, GroupId, NEVER};
use wheel_base::WheelBase;

/// The children of a group, each of which has a bit.
const CHILDREN: u8 = 8;

/// Whether a CPU is active; false where there is no such CPU.
pub fn is_active(core: &Core<WheelBase>, cpu: CpuId) -> bool {
    cpu.0 < core.count() && !core.cpu(cpu).idle
}

/// Whether a child of a group is active.
fn child_is_active(core: &Core<WheelBase>, child: Option<Child>) -> bool {
    match child {
        Some(Child::Cpu(cpu)) => is_active(core, cpu),
        Some(Child::Group(group)) => {
            group.0 < core.tree().group_count() && core.active(group) != 0
        },
        None => false,
    }
}

/// Whether a group's set has exactly its active children.
fn has_its_active(core: &Core<WheelBase>, group: GroupId) -> bool
    requires { group.0 < length core.now.groups }
{
    let mut active = 0u8;
    for bit in 0..CHILDREN {
        if child_is_active(core, core.tree().child(group, bit)) {
            active |= 1 << bit;
        }
    }
    core.active(group) == active
}

/// Whether a group's lock is free, its set is right, and its migrator is one of the set, if there
/// is one.
fn group_agrees(core: &Core<WheelBase>, group: GroupId) -> bool
    requires { group.0 < length core.now.groups }
{
    let active = core.active(group);
    let led = match core.migrator(group) {
        Some(child) => child < CHILDREN && active >> child & 1 == 1,
        None => active == 0,
    };
    led && core.lock_of(group).is_none() && has_its_active(core, group)
}

/// Whether who answers for a CPU's first global timer can: it is active, or wakes in time; and
/// somebody answers exactly where the CPU is idle and has one.
fn is_answered(core: &Core<WheelBase>, cpu: CpuId) -> bool
    requires { cpu.0 < length core.now.cpus }
{
    let first = core.bases(cpu).next().first_global;
    match cover_of(core, cpu) {
        Some(Cover::Migrator { group: _, cpu: by }) => is_active(core, by),
        Some(Cover::Wake { cpu: by, at }) => {
            at <= first && by.0 < core.count() && core.cpu(by).idle && core.cpu(by).wakeup == at
        },
        None => !core.cpu(cpu).idle || first == NEVER,
    }
}

/// Whether the groups of a core at rest are as its CPUs are, and each idle CPU with a global timer
/// is answered for.
pub fn agrees(core: &Core<WheelBase>) -> bool {
    law_settled(core);
    for group in 0..core.tree().group_count() {
        if !group_agrees(core, GroupId(group)) {
            return false;
        }
    }
    for cpu in 0..core.count() {
        if !is_answered(core, CpuId(cpu)) {
            return false;
        }
    }
    true
}
