//! What the step of a walk makes of a world, stage by stage.

ghost use Rattle.std.specs.Prelude.{◌≡◌, ◌↔◌, ◌<◌, IsTrue, false, suc, true};
ghost use Rattle.walk_rules.specs.declared.walk.Stage.TheVariants as stages;
ghost use Rattle.core_world.specs.Steps.{swapped, walked};
ghost use Rattle.core_parts.specs.Status.{finished_status, handing_walk};
ghost use Rattle.plain_world.specs.Limits.{SlotFits, WalkFits};

use crate::world::PlainWorld;
use core_parts::{CpuStatus, GroupChange};
use tm_base::{CpuId, NEVER};
use walk_rules::{
    Stage, Walk, WalkKind, at_stage, child_next, first_next, first_sight, free_group_next,
    freed_next, mark_next, read_next, scan_next, see_child_next, see_group_next, store_next,
    stored_event, swap_next, up_next,
};

/// Whether a stage reads a slot that a group has, if it reads one.
fn slot_fits(stage: Stage) -> bool
    ensures { IsTrue result ↔ SlotFits stage }
{
    match stage {
        Stage::Scan { k } => k < 8,
        Stage::First { k } => k < 8,
        _ => true,
    }
}

/// Whether a walk can be followed: it has a level above its own, and reads a slot that there is.
pub fn walk_fits(walk: Walk) -> bool
    ensures { IsTrue result ↔ WalkFits walk }
{
    walk.level < 255 && slot_fits(walk.stage)
}

/// The level above.
fn above(level: u8) -> u8
    requires { level < 255 }
    ensures { result ≡ suc level }
{
    level + 1
}

/// Marks the CPU's own event as ignored.
fn pass_own(world: &mut PlainWorld, cpu: CpuId, walk: Walk)
    ensures { world.new ≡ walked world.old cpu.0 walk stages.Own }
{
    let group = world.group_on(cpu, 0);
    let child = world.side(cpu, 0);
    let next = at_stage(walk, Stage::Up);
    world.walk_at(group, GroupChange::Mark { child }, cpu, Some(next), false);
}

/// The child joins the group's active set.
fn go_up(world: &mut PlainWorld, cpu: CpuId, walk: Walk)
    requires { walk.level < 255 }
    ensures { world.new ≡ walked world.old cpu.0 walk stages.Up }
{
    let group = world.group_on(cpu, walk.level);
    let child = world.side(cpu, walk.level);
    let more = world.is_off(group);
    let top = world.at_top(cpu, walk.level);
    let next = up_next(top, more, walk);
    world.walk_at(group, GroupChange::Join { child }, cpu, next, true);
}

/// Marks the group's event in its parent as ignored.
fn pass_mark(world: &mut PlainWorld, cpu: CpuId, walk: Walk, more: bool)
    requires { walk.level < 255 }
    ensures { world.new ≡ walked world.old cpu.0 walk (stages.Mark more) }
{
    let level = above(walk.level);
    let group = world.group_on(cpu, level);
    let child = world.side(cpu, level);
    let next = mark_next(more, walk);
    world.walk_at(group, GroupChange::Mark { child }, cpu, next, false);
}

/// Reads the group's word.
fn read_group(world: &mut PlainWorld, cpu: CpuId, walk: Walk)
    ensures { world.new ≡ walked world.old cpu.0 walk stages.Read }
{
    let next = read_next(walk);
    world.set_walk(cpu, Some(next));
}

/// Reads the child's word.
fn read_child(world: &mut PlainWorld, cpu: CpuId, walk: Walk)
    ensures { world.new ≡ walked world.old cpu.0 walk stages.Child }
{
    let child_on = world.child_on(cpu, walk.level);
    let next = child_next(child_on, walk);
    world.set_walk(cpu, Some(next));
}

/// The child leaves the group's active set, unless it was found active.
fn exchange(world: &mut PlainWorld, cpu: CpuId, walk: Walk)
    ensures { world.new ≡ swapped world.old cpu.0 walk true }
{
    let group = world.group_on(cpu, walk.level);
    let child = world.side(cpu, walk.level);
    let next = swap_next(true, walk);
    let child_on = walk.child_on;
    world.walk_at(
        group,
        GroupChange::Leave { child, child_on },
        cpu,
        Some(next),
        true,
    );
}

/// The exchange fails, and reads the word again.
fn read_again(world: &mut PlainWorld, cpu: CpuId, walk: Walk)
    ensures { world.new ≡ swapped world.old cpu.0 walk false }
{
    let next = swap_next(false, walk);
    world.set_walk(cpu, Some(next));
}

/// Makes the exchange, or finds the word changed.
fn swap(world: &mut PlainWorld, cpu: CpuId, walk: Walk)
    ensures { world.new ≡ walked world.old cpu.0 walk stages.Swap }
{
    if walk.fresh {
        exchange(world, cpu, walk);
    } else {
        read_again(world, cpu, walk);
    }
}

/// Takes the child's lock.
fn lock_child(world: &mut PlainWorld, cpu: CpuId, walk: Walk)
    ensures { world.new ≡ walked world.old cpu.0 walk stages.LockChild }
{
    let group = world.group_below(cpu, walk.level);
    let next = at_stage(walk, Stage::LockGroup);
    world.walk_at(
        group,
        GroupChange::Lock { cpu: cpu.0 },
        cpu,
        Some(next),
        false,
    );
}

/// Takes the group's lock.
fn lock_group(world: &mut PlainWorld, cpu: CpuId, walk: Walk)
    ensures { world.new ≡ walked world.old cpu.0 walk stages.LockGroup }
{
    let group = world.group_on(cpu, walk.level);
    let stage = first_sight(walk.level);
    let next = at_stage(walk, stage);
    world.walk_at(
        group,
        GroupChange::Lock { cpu: cpu.0 },
        cpu,
        Some(next),
        false,
    );
}

/// Reads the child's word under its lock.
fn see_child(world: &mut PlainWorld, cpu: CpuId, walk: Walk)
    ensures { world.new ≡ walked world.old cpu.0 walk stages.SeeChild }
{
    let child_on = world.child_on(cpu, walk.level);
    let next = see_child_next(child_on, walk);
    world.set_walk(cpu, Some(next));
}

/// Reads the group's word under its lock.
fn see_group(world: &mut PlainWorld, cpu: CpuId, walk: Walk)
    requires { walk.level < 255 }
    ensures { world.new ≡ walked world.old cpu.0 walk stages.SeeGroup }
{
    let group = world.group_on(cpu, walk.level);
    let on = world.is_on(group);
    let top = world.at_top(cpu, walk.level);
    let next = see_group_next(on, top, walk);
    world.set_walk(cpu, Some(next));
}

/// Reads an event of the child.
fn scan(world: &mut PlainWorld, cpu: CpuId, walk: Walk, k: u8)
    requires { k < 8 }
    ensures { world.new ≡ walked world.old cpu.0 walk (stages.Scan k) }
{
    let group = world.group_below(cpu, walk.level);
    let event = world.event_of(group, k);
    let next = scan_next(event, k, walk);
    world.set_walk(cpu, Some(next));
}

/// Writes the child's event into the group.
fn store(world: &mut PlainWorld, cpu: CpuId, walk: Walk)
    requires { walk.level < 255 }
    ensures { world.new ≡ walked world.old cpu.0 walk stages.Store }
{
    let group = world.group_on(cpu, walk.level);
    let child = world.side(cpu, walk.level);
    let event = stored_event(cpu, walk);
    let top = world.at_top(cpu, walk.level);
    let next = store_next(top, walk);
    world.walk_at(
        group,
        GroupChange::Store { child, event },
        cpu,
        Some(next),
        false,
    );
}

/// Reads an event of the top.
fn read_first(world: &mut PlainWorld, cpu: CpuId, walk: Walk, k: u8)
    requires { k < 8 }
    ensures { world.new ≡ walked world.old cpu.0 walk (stages.First k) }
{
    let group = world.group_on(cpu, walk.level);
    let event = world.event_of(group, k);
    let next = first_next(event, k, walk);
    world.set_walk(cpu, Some(next));
}

/// Gives the group's lock back.
fn free_group(world: &mut PlainWorld, cpu: CpuId, walk: Walk)
    requires { walk.level < 255 }
    ensures { world.new ≡ walked world.old cpu.0 walk stages.FreeGroup }
{
    let group = world.group_on(cpu, walk.level);
    let next = free_group_next(walk);
    world.walk_at(group, GroupChange::Free, cpu, Some(next), false);
}

/// Gives the child's lock back.
fn free_child(world: &mut PlainWorld, cpu: CpuId, walk: Walk)
    requires { walk.level < 255 }
    ensures { world.new ≡ walked world.old cpu.0 walk stages.FreeChild }
{
    let group = world.group_below(cpu, walk.level);
    let next = freed_next(walk.over, walk);
    world.walk_at(group, GroupChange::Free, cpu, Some(next), false);
}

/// The walk of a CPU that went offline ends, or waits for another CPU to take over.
fn handing(walk: Walk) -> Option<Walk>
    ensures { result ≡ handing_walk walk }
{
    if walk.first == NEVER {
        None
    } else {
        Some(at_stage(walk, Stage::Handing))
    }
}

/// What a walk leaves in its CPU.
fn finished(status: CpuStatus, walk: Walk) -> CpuStatus
    ensures { result ≡ finished_status status walk walk.kind }
{
    match walk.kind {
        WalkKind::Activate => CpuStatus {
            walk: None,
            ..status
        },
        WalkKind::Deactivate => CpuStatus {
            wakeup: walk.pin.min(walk.first),
            walk: None,
            ..status
        },
        WalkKind::Offline => CpuStatus {
            walk: handing(walk),
            ..status
        },
        WalkKind::Reeval => CpuStatus {
            wakeup: walk.pin.min(walk.first),
            inside: false,
            walk: None,
            ..status
        },
        WalkKind::Remote { by: _ } => CpuStatus {
            mark: None,
            walk: None,
            ..status
        },
    }
}

/// Writes what came out into the CPU.
fn finish(world: &mut PlainWorld, cpu: CpuId, walk: Walk)
    ensures { world.new ≡ walked world.old cpu.0 walk stages.Finish }
{
    let status = world.status(cpu);
    let left = finished(status, walk);
    world.set(cpu, left);
}

/// What the stage of a walk does, where this is the CPU's walk.
pub fn walk_from(world: &mut PlainWorld, cpu: CpuId, walk: Walk)
    requires { WalkFits walk }
    ensures { world.new ≡ walked world.old cpu.0 walk walk.stage }
{
    match walk.stage {
        Stage::Own => pass_own(world, cpu, walk),
        Stage::Up => go_up(world, cpu, walk),
        Stage::Mark { more } => pass_mark(world, cpu, walk, more),
        Stage::Read => read_group(world, cpu, walk),
        Stage::Child => read_child(world, cpu, walk),
        Stage::Swap => swap(world, cpu, walk),
        Stage::LockChild => lock_child(world, cpu, walk),
        Stage::LockGroup => lock_group(world, cpu, walk),
        Stage::SeeChild => see_child(world, cpu, walk),
        Stage::SeeGroup => see_group(world, cpu, walk),
        Stage::Scan { k } => scan(world, cpu, walk, k),
        Stage::Store => store(world, cpu, walk),
        Stage::First { k } => read_first(world, cpu, walk, k),
        Stage::FreeGroup => free_group(world, cpu, walk),
        Stage::FreeChild => free_child(world, cpu, walk),
        Stage::Finish => finish(world, cpu, walk),
        Stage::Handing => {}
    }
}
