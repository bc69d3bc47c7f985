//! A run in which one thread makes the steps of two CPUs, one call a step, in an order that is
//! given.

ghost use Rattle.std.specs.Prelude.{◌≡◌, ◌+◌, ◌^◌, ◌≤◌, ◌<◌, [], ◌∷◌, IfOk, None, length, suc};
ghost use Rattle.std.specs.Prelude.{true};
ghost use Rattle.core_world.specs.Covered.{IsSettled};
ghost use Rattle.core_world.specs.Enabled.{first_event};
ghost use Rattle.walk_rules.specs.declared.walk.WalkKind.TheVariants as kinds;
ghost use Rattle.walk_rules.specs.declared.walk.Stage.TheVariants as stages;
ghost use Rattle.idle_wakeup.specs.shared_rule.declared.parts.PassView.{PassView};
ghost use Rattle.shared_rows.specs.shared_table.Ended.{AreAllPasses, HasNoBaseBehind, IsPassAt};
ghost use Rattle.shared_rows.specs.shared_table.Ended.{PassesFrom};
ghost use Rattle.idle_wakeup.specs.shared_walks.Walks.{is_under_way};
ghost use Rattle.shared_rows.specs.Looks.{StaysAt};
ghost use Rattle.walk_rows.specs.Driven.{DrivenOn, IsDriven};
ghost use Rattle.walk_rows.specs.Standing.{IsOneOf};

use crate::crews::count_below;
use core_world::Step;
use idle_wakeup::{
    BoxPart, Core, Pass, Run, RunName, bring, idle_step, part_off, rest_step, wake_step, walk_step,
};
use shared_rows::{CpuBox, MOST_MADE, Ready, Shared};
use std::alloc::Global;
use std::marker::Brand;
use std::sync::Wait;
use tm_base::{CpuId, Jiffy, NoMemory};
use walk_rules::{Stage, Walk, WalkKind};
use wheel_base::WheelBase;
use wheel_core::TimerBase;

/// The core that such a run gives back, and how many of its steps were made.
#[derive(Drop)]
pub(crate) struct Stepped {
    pub(crate) core: Core<WheelBase>,
    pub(crate) made: u64,
}

/// Whether one walk more may begin with the pass that is brought into a part.
fn may_begin<N: RunName, B: TimerBase>(part: &BoxPart<N, B>) -> bool
    ensures { result ≡ true → (p : PassView) → part.now.brought ≡ p ∷ [] → suc p.walks < 2 ^ 32 }
{
    match &part.guest {
        Some(guest) => guest.walks < MOST_MADE,
        None => false,
    }
}

/// Whether the CPU of a part has no walk, and is online.
fn is_ready<N: RunName, B: TimerBase>(part: &BoxPart<N, B>) -> bool
    ensures walkless { result ≡ true → part.now.box.own.walk ≡ None }
    ensures online { result ≡ true → part.now.box.own.online ≡ true }
{
    part.walk().is_none() && part.state().online
}

/// Whether the CPU of a part is idle.
fn is_idle<N: RunName, B: TimerBase>(part: &BoxPart<N, B>) -> bool
    ensures { result ≡ part.now.box.own.idle }
{
    part.state().idle
}

/// Whether the first event of the CPU of a part is more than a jiffy ahead.
fn may_sleep<N: RunName, B: TimerBase>(part: &BoxPart<N, B>, now: Jiffy) -> bool
    ensures { result ≡ true → now + 1 < first_event part.now.box.own.bases }
{
    let next = part.bases().next();
    let first = next.pin.min(next.first_global);
    first > now && first - now > 1
}

/// The CPU of a part goes idle, where it may: it is online, active and without walk, and its first
/// event is more than a jiffy ahead.
fn rest<N: RunName, B: TimerBase>(run: &Run<N, B>, part: &mut BoxPart<N, B>, now: Jiffy) -> bool
    requires driven { IsDriven part.old.box.cpu part.old }
    requires now { now ≡ N.opening.clock }
    ensures { DrivenOn part.old part.new }
{
    part.law();
    if !is_ready(part) {
        return false;
    }
    if !may_begin(part) {
        return false;
    }
    if is_idle(part) {
        return false;
    }
    if !may_sleep(part, now) {
        return false;
    }
    idle_step(run, part);
    true
}

/// The CPU of a part wakes, where it is online, idle and without walk.
fn rouse<N: RunName, B: TimerBase>(run: &Run<N, B>, part: &mut BoxPart<N, B>) -> bool
    requires { IsDriven part.old.box.cpu part.old }
    ensures { DrivenOn part.old part.new }
{
    if !is_ready(part) {
        return false;
    }
    if !may_begin(part) {
        return false;
    }
    if !is_idle(part) {
        return false;
    }
    wake_step(run, part);
    true
}

/// Whether a walk at this stage has a step on the groups still to make.
fn is_under_way(stage: Stage) -> bool
    ensures { result ≡ is_under_way stage }
{
    !matches!(stage, Stage::Finish | Stage::Handing)
}

/// Whether a walk out of the active sets has come to its end.
fn has_rested(walk: Walk) -> bool
    ensures { result ≡ true → (walk.stage ≡ stages.Finish) × (walk.kind ≡ kinds.Deactivate) }
{
    matches!(walk.stage, Stage::Finish) && matches!(walk.kind, WalkKind::Deactivate)
}

/// The walk of a part makes its next step, or ends; false where it has none, or where the step left
/// all as it was.
fn go_on<N: RunName, B: TimerBase>(run: &Run<N, B>, part: &mut BoxPart<N, B>) -> bool
    requires { IsDriven part.old.box.cpu part.old }
    ensures { DrivenOn part.old part.new }
{
    let Some(walk) = part.walk() else {
        return false;
    };
    if is_under_way(walk.stage) {
        return walk_step(run, part);
    }
    if has_rested(walk) {
        rest_step(run, part, walk);
        return true;
    }
    false
}

/// A step of the CPU of a part; false where it isn't made. It is one of going idle, waking and
/// walking.
fn make<N: RunName, B: TimerBase>(
    run: &Run<N, B>,
    part: &mut BoxPart<N, B>,
    step: Step,
    now: Jiffy,
) -> bool
    requires driven { IsDriven part.old.box.cpu part.old }
    requires now { now ≡ N.opening.clock }
    ensures { DrivenOn part.old part.new }
{
    match step {
        Step::Idle { cpu: _ } => rest(run, part, now),
        Step::Wake { cpu: _ } => rouse(run, part),
        Step::Walk { cpu: _ } => go_on(run, part),
        _ => false,
    }
}

/// The CPU whose step it is, where it is one of going idle, waking and walking.
fn cpu_of(step: Step) -> Option<CpuId> {
    match step {
        Step::Idle { cpu } => Some(cpu),
        Step::Wake { cpu } => Some(cpu),
        Step::Walk { cpu } => Some(cpu),
        _ => None,
    }
}

/// A step of one of the CPUs of two parts; false where it isn't made.
fn make_either<N: RunName, B: TimerBase>(
    run: &Run<N, B>,
    one: &mut BoxPart<N, B>,
    other: &mut BoxPart<N, B>,
    step: Step,
    now: Jiffy,
) -> bool
    requires one { IsDriven one.old.box.cpu one.old }
    requires other { IsDriven other.old.box.cpu other.old }
    requires now { now ≡ N.opening.clock }
    ensures one { DrivenOn one.old one.new }
    ensures other { DrivenOn other.old other.new }
{
    let cpu = cpu_of(step);
    if cpu == Some(one.cpu()) {
        return make(run, one, step, now);
    }
    if cpu == Some(other.cpu()) {
        return make(run, other, step, now);
    }
    false
}

/// These steps of the CPUs of two parts, in order; how many were made.
fn make_all<N: RunName, B: TimerBase>(
    run: &Run<N, B>,
    one: &mut BoxPart<N, B>,
    other: &mut BoxPart<N, B>,
    steps: &[Step],
    now: Jiffy,
) -> u64
    requires one { IsDriven one.old.box.cpu one.old }
    requires other { IsDriven other.old.box.cpu other.old }
    requires now { now ≡ N.opening.clock }
    ensures one { DrivenOn one.old one.new }
    ensures other { DrivenOn other.old other.new }
{
    let mut made = 0u64;
    for step in steps {
        if make_either(run, one, other, *step, now) {
            made = made.saturating_add(1);
        }
    }
    made
}

/// The walk of a part goes to its end, if it has one.
fn end_walk<N: RunName, B: TimerBase, R: Wait>(rt: &R, run: &Run<N, B>, part: &mut BoxPart<N, B>)
    requires { IsDriven part.old.box.cpu part.old }
    ensures driven { DrivenOn part.old part.new }
    ensures ended { part.new.box.own.walk ≡ None }
{
    for _ in rt.forever() {
        if part.walk().is_none() {
            return;
        }
        go_on(run, part);
    }
    unreachable!()
}

/// These steps of the CPUs of two boxes, in order, each with its own pass, and then their walks to
/// their ends; how many of the steps were made.
fn drive_boxes<N: RunName, B: TimerBase, R: Wait>(
    rt: &R,
    run: &Run<N, B>,
    now: Jiffy,
    steps: &[Step],
    one: &mut Pass,
    one_box: &mut CpuBox<N, B>,
    other: &mut Pass,
    other_box: &mut CpuBox<N, B>,
) -> u64
    requires now { now ≡ N.opening.clock }
    requires one { IsPassAt N.table one_box.old.box.cpu one.old }
    requires one_cpu { one.old.cpu ≡ one_box.old.box.cpu }
    requires other { IsPassAt N.table other_box.old.box.cpu other.old }
    requires other_cpu { other.old.cpu ≡ other_box.old.box.cpu }
    ensures one { IsPassAt N.table one_box.old.box.cpu one.new }
    ensures other { IsPassAt N.table other_box.old.box.cpu other.new }
{
    let part = &mut one_box.part;
    let second = &mut other_box.part;
    bring(run, part, one);
    bring(run, second, other);
    let made = make_all(run, part, second, steps, now);
    end_walk(rt, run, part);
    end_walk(rt, run, second);
    part_off(run, part, one);
    part_off(run, second, other);
    made
}

/// These steps of the CPUs of two passes, in order, and then their walks to their ends; how many of
/// the steps were made. The thread has the locks of both CPUs meanwhile.
fn drive<N: RunName, B: TimerBase, R: Wait>(
    rt: &R,
    shared: &Shared<N, B>,
    now: Jiffy,
    steps: &[Step],
    one: &mut Pass,
    other: &mut Pass,
) -> u64
    requires now { now ≡ N.opening.clock }
    requires one { IsOneOf N.table N.opening one.old }
    requires other { IsOneOf N.table N.opening other.old }
    ensures one { StaysAt N.table one.old one.new }
    ensures other { StaysAt N.table other.old other.new }
{
    one.law();
    other.law();
    let mut first = shared.lock(rt, one.cpu());
    let mut second = shared.lock(rt, other.cpu());
    drive_boxes(
        rt,
        shared.run(),
        now,
        steps,
        one,
        &mut *first,
        other,
        &mut *second,
    )
}

/// These steps of the CPU of number `one` and of the first CPU of the other passes; none where
/// there are no such CPUs.
fn drive_both<N: RunName, B: TimerBase, R: Wait>(
    rt: &R,
    shared: &Shared<N, B>,
    now: Jiffy,
    steps: &[Step],
    one: usize,
    front: Vec<Pass>,
    middle: usize,
    back: Vec<Pass>,
) -> (Vec<Pass>, Vec<Pass>, u64)
    requires front { PassesFrom N.table 0 front.items }
    requires back { PassesFrom N.table middle back.items }
    requires few { length front.items ≤ length N.opening.cpus }
    requires others { middle + length back.items ≤ length N.opening.cpus }
    requires now { now ≡ N.opening.clock }
    ensures front { PassesFrom N.table 0 result.0.items }
    ensures back { PassesFrom N.table middle result.1.items }
    ensures counts { (length result.0.items ≡ length front.items)
        × (length result.1.items ≡ length back.items) }
{
    let (mut front, mut back) = (front, back);
    if one >= front.len() || back.is_empty() {
        return (front, back, 0);
    }
    let made = drive(rt, shared, now, steps, &mut front[one], &mut back[0]);
    (front, back, made)
}

/// These steps of two CPUs of a run, with all passes.
fn drive_all<N: RunName, B: TimerBase, R: Wait>(
    rt: &R,
    shared: &Shared<N, B>,
    now: Jiffy,
    steps: &[Step],
    cpus: (CpuId, CpuId),
    passes: Vec<Pass>,
) -> Result<(Vec<Pass>, u64), NoMemory>
    requires each { PassesFrom N.table 0 passes.items }
    requires few { length passes.items ≤ length N.opening.cpus }
    requires now { now ≡ N.opening.clock }
    ensures each { IfOk result (λ r. PassesFrom N.table 0 r.0.items) }
    ensures count { IfOk result (λ r. length r.0.items ≡ length passes.items) }
{
    let (one, other) = cpus;
    let count = passes.len();
    let few = count_below(other.0, 0, count);
    let mut front = passes;
    let back = front.split_off(few)?;
    let (mut front, mut back, made) = drive_both(
        rt,
        shared,
        now,
        steps,
        usize::from(one.0),
        front,
        few,
        back,
    );
    front.append(&mut back)?;
    Ok((front, made))
}

/// These steps in a run that has begun, which then ends.
fn run_begun<N: RunName, R: Wait>(
    rt: &R,
    shared: Shared<N, WheelBase>,
    now: Jiffy,
    steps: &[Step],
    cpus: (CpuId, CpuId),
    passes: Vec<Pass>,
) -> Result<Stepped, NoMemory>
    requires all { AreAllPasses N.table (length N.opening.cpus) passes.items }
    requires now { now ≡ N.opening.clock }
{
    let (passes, made) = drive_all(rt, &shared, now, steps, cpus, passes)?;
    let core = shared.finish(passes);
    Ok(Stepped { core, made })
}

/// These steps in a run over a table that is ready.
fn run_over<N: RunName, R: Wait>(
    rt: &R,
    alloc: Global,
    now: Jiffy,
    steps: &[Step],
    cpus: (CpuId, CpuId),
    ready: Ready<WheelBase>,
) -> Result<Stepped, NoMemory>
    requires table { ready.table ≡ N.table }
    requires opening { ready.core ≡ N.opening }
    requires now { now ≡ ready.core.clock }
{
    match Shared::<N, WheelBase>::begin(alloc, ready) {
        Ok((shared, passes)) => run_begun(rt, shared, now, steps, cpus, passes),
        Err((_ready, refused)) => Err(refused),
    }
}

/// A run over a core at rest, in which one thread makes these steps of two CPUs, the lower one
/// first, each by one call, with both CPUs' locks; and then their walks to their ends.
pub(crate) fn run_by_steps<R: Wait>(
    rt: &R,
    alloc: Global,
    core: Core<WheelBase>,
    steps: &[Step],
    cpus: (CpuId, CpuId),
) -> Result<Stepped, NoMemory>
    requires settled { IsSettled core }
    requires whole { HasNoBaseBehind core }
{
    let now = core.now();
    match Ready::prepare(alloc, core, 0) {
        Ok(ready) => run_over::<Brand, R>(rt, alloc, now, steps, cpus, ready),
        Err((_core, refused)) => Err(refused),
    }
}
