//! A run in which two threads load words.

ghost use Rattle.std.specs.Prelude.{◌≡◌, ◌<◌, length};
ghost use Rattle.shared_table.specs.shared_rule.Passes.{IsOfRun};
ghost use Rattle.shared_rows.specs.Looks.{StaysAt};
ghost use Rattle.shared_table.specs.Ended.{AreAllPasses, PassesFrom};
ghost use Rattle.core_world.specs.Covered.{IsSettled};
ghost use Rattle.shared_table.specs.Ended.{HasNoBaseBehind};

use shared_table::{Core, Pass, Ready, Run, RunName, Shared};
use shared_words::{SharedWord, unpack_spot};
use std::alloc::Global;
use std::marker::Brand;
use std::thread;
use std::thread::Threads;
use tm_base::{GroupId, NoMemory, TimerId};
use wheel_base::WheelBase;
use wheel_core::TimerBase;

/// The core that a run gives back, and for each of its two threads how many of the timers' words
/// that it loaded said that the timer is queued.
#[derive(Drop)]
pub struct Seen {
    pub core: Core<WheelBase>,
    pub front: u64,
    pub back: u64,
}

/// Loads the word of a group.
fn see_group<N: RunName, B: TimerBase>(run: &Run<N, B>, pass: &mut Pass, group: GroupId)
    requires run { IsOfRun N.table pass.old }
    requires group { group.0 < length N.opening.groups }
    ensures run { IsOfRun N.table pass.new }
    ensures stays { StaysAt N.table pass.old pass.new }
{
    pass.see_state(run, group);
}

/// Loads the words of all groups.
fn see_groups<N: RunName, B: TimerBase>(run: &Run<N, B>, pass: &mut Pass)
    requires { IsOfRun N.table pass.old }
    ensures run { IsOfRun N.table pass.new }
    ensures stays { StaysAt N.table pass.old pass.new }
{
    for group in 0..run.layout.groups {
        see_group(run, pass, GroupId(group));
    }
}

/// Loads the word of a timer, and answers whether it says that the timer is queued.
fn see_timer<N: RunName, B: TimerBase>(run: &Run<N, B>, pass: &mut Pass, timer: TimerId) -> bool
    requires run { IsOfRun N.table pass.old }
    requires timer { timer.0 < N.opening.timers }
    ensures run { IsOfRun N.table pass.new }
    ensures stays { StaysAt N.table pass.old pass.new }
{
    unpack_spot(pass.see(run, SharedWord::Timer(timer))).is_some()
}

/// Loads the words of all timers, and answers how many say that the timer is queued.
fn see_timers<N: RunName, B: TimerBase>(run: &Run<N, B>, pass: &mut Pass) -> u64
    requires { IsOfRun N.table pass.old }
    ensures run { IsOfRun N.table pass.new }
    ensures stays { StaysAt N.table pass.old pass.new }
{
    let mut queued = 0u64;
    for timer in 0..run.layout.timers {
        if see_timer(run, pass, TimerId(timer)) {
            queued = queued.saturating_add(1);
        }
    }
    queued
}

/// Loads the words of groups and timers, and answers how many timers are queued.
fn see_words<N: RunName, B: TimerBase>(run: &Run<N, B>, pass: &mut Pass) -> u64
    requires { IsOfRun N.table pass.old }
    ensures { StaysAt N.table pass.old pass.new }
{
    see_groups(run, pass);
    see_timers(run, pass)
}

/// Loads the words of groups and timers by each of these passes, which are those of the CPUs from
/// `first` on.
fn see_all<N: RunName, B: TimerBase>(
    run: &Run<N, B>,
    first: usize,
    mut passes: Vec<Pass>,
) -> (Vec<Pass>, u64)
    requires { PassesFrom N.table first passes.items }
    ensures count { length result.0.items ≡ length passes.items }
    ensures each { PassesFrom N.table first result.0.items }
{
    let mut queued = 0u64;
    for i in 0..passes.len() {
        queued = queued.saturating_add(see_words(run, &mut passes[i]));
    }
    (passes, queued)
}

/// Two threads load, each with passes of its own.
fn see_by_two<N: RunName + Send + Sync, B: TimerBase + Send + Sync, R: Threads + Sync>(
    rt: &R,
    run: &Run<N, B>,
    front: Vec<Pass>,
    middle: usize,
    back: Vec<Pass>,
) -> ((Vec<Pass>, u64), (Vec<Pass>, u64))
    requires front { PassesFrom N.table 0 front.items }
    requires back { PassesFrom N.table middle back.items }
    ensures front { PassesFrom N.table 0 result.0.0.items }
    ensures back { PassesFrom N.table middle result.1.0.items }
    ensures counts { (length result.0.0.items ≡ length front.items)
        × (length result.1.0.items ≡ length back.items) }
{
    thread::join(
        rt,
        || -> (Vec<Pass>, u64)
            requires { PassesFrom N.table 0 front.items }
            ensures { PassesFrom N.table 0 result.0.items
                × (length result.0.items ≡ length front.items) }
        { see_all(run, 0, front) },
        || -> (Vec<Pass>, u64)
            requires { PassesFrom N.table middle back.items }
            ensures { PassesFrom N.table middle result.0.items
                × (length result.0.items ≡ length back.items) }
        { see_all(run, middle, back) },
    )
}

/// Two threads load words, each with half of the passes, and the run ends.
fn run_begun<N: RunName + Send + Sync, R: Threads + Sync>(
    rt: &R,
    shared: Shared<N, WheelBase>,
    passes: Vec<Pass>,
) -> Result<Seen, NoMemory>
    requires { AreAllPasses N.table (length N.opening.cpus) passes.items }
{
    let mut front = passes;
    let middle = front.len() / 2;
    let back = front.split_off(middle)?;
    let run = shared.run();
    let ((mut front, first), (mut back, second)) = see_by_two(rt, run, front, middle, back);
    front.append(&mut back)?;
    let core = shared.finish(front);
    Ok(Seen {
        core,
        front: first,
        back: second,
    })
}

/// A run over a table that is ready.
fn run_over<N: RunName + Send + Sync, R: Threads + Sync>(
    rt: &R,
    alloc: Global,
    ready: Ready<WheelBase>,
) -> Result<Seen, NoMemory>
    requires table { ready.table ≡ N.table }
    requires opening { ready.core ≡ N.opening }
{
    match Shared::<N, WheelBase>::begin(alloc, ready) {
        Ok((shared, passes)) => run_begun(rt, shared, passes),
        Err((_ready, refused)) => Err(refused),
    }
}

/// The same over a core at rest.
pub fn run_once<R: Threads + Sync>(
    rt: &R,
    alloc: Global,
    core: Core<WheelBase>,
) -> Result<Seen, NoMemory>
    requires settled { IsSettled core }
    requires whole { HasNoBaseBehind core }
{
    match Ready::prepare(alloc, core, 0) {
        Ok(ready) => run_over::<Brand, R>(rt, alloc, ready),
        Err((_core, refused)) => Err(refused),
    }
}
