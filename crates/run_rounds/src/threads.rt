//! The threads of a round.

ghost use Rattle.std.specs.Prelude.{◌≡◌, ◌-◌, ◌^◌, ◌≤◌, [], IfOk, false, length};
ghost use Rattle.std.specs.Thread.{IsSend, IsSync};
ghost use Rattle.tm_base.specs.declared.names.TheConstants.{TIME_LIMIT};
ghost use Rattle.play_rules.specs.Interrupts.{Replies};
ghost use Rattle.run_shares.specs.shared_rule.Rule.{Each};
ghost use Rattle.run_shares.specs.Progress.{AllDone, IsShareDone, MayShare};
ghost use Rattle.run_rounds.specs.UnderWay.{AllBegun, AllEnded, IsBegun, IsKept};

use crate::shares::do_share;
use job_table::Jobs;
use run_shares::{RunName, Share, Shared, Task};
use std::alloc::Global;
use std::marker::PhantomData;
use std::snapshot::Snapshot;
use std::sync::Wait;
use std::thread;
use std::thread::{Promise, PromisedHandle, Scope, Threads};
use tm_base::{CpuId, Gate, Jiffy, NoMemory};
use tm_script::Op;
use wheel_core::TimerBase;

/// What a thread promises: to give back the share of this CPU, with these operations and jobs.
#[derive(Drop)]
pub(crate) struct Does<N: RunName, J: Jobs> {
    pub(crate) cpu: CpuId,
    pub(crate) due: bool,
    pub(crate) ops: Snapshot<Vec<Op>>,
    pub(crate) jobs: Snapshot<J>,
    pub(crate) name: PhantomData<N>,
}

impl<N: RunName, J: Jobs> Promise<Share> for Does<N, J> {
    ghost kept_by = { λ p s. IsShareDone N.table N.opening (J.replies p.jobs.value) p.due
        p.ops.value.items p.cpu.0 s };
}

/// A share that a thread is doing, or one that is done, where there was nothing to do or no thread
/// could be had.
#[derive(Drop)]
pub(crate) enum Begun<N: RunName, J: Jobs> {
    There(PromisedHandle<Share, Does<N, J>>),
    Here(Share),
}

/// The share of a CPU with nothing to do: it keeps its pass and tells nothing.
fn idle_share<N: RunName>(alloc: Global, task: Task) -> Share
    requires may { MayShare N.table N.opening task }
    requires not_due { task.due ≡ false }
    requires no_ops { task.ops.items ≡ [] }
    ensures { (jobs : Replies) → IsShareDone N.table N.opening jobs task.due task.ops.items
        task.pass.cpu result }
{
    Share {
        pass: task.pass,
        lines: Vec::new(alloc),
        ended: Ok(()),
    }
}

/// The share of a CPU with something to do, in a thread of its own, or at once where none can be
/// had.
fn begin_busy<
    's,
    E,
    N: RunName + Send + Sync,
    B: TimerBase + Send + Sync,
    J: Jobs + Sync,
    G: Gate + Sync,
    R: Threads + Wait + Sync,
>(
    scope: &'s Scope<'s, E>,
    rt: &'s R,
    alloc: Global,
    shared: &'s Shared<N, B>,
    task: Task,
    now: Jiffy,
    jobs: &'s J,
    gate: &'s G,
) -> Begun<N, J>
    requires may { MayShare N.table N.opening task }
    requires now { now ≡ N.opening.clock }
    requires in_time { now ≤ TIME_LIMIT - 2 ^ 32 }
    ensures { IsBegun N.table N.opening J.replies (J.replies jobs.now) task.due task.ops.items
        task.pass.cpu result }
{
    let Task { pass, due, ops } = task;
    let promise = Does {
        cpu: pass.cpu(),
        due,
        ops: Snapshot::of(&ops),
        jobs: Snapshot::of(jobs),
        name: PhantomData,
    };
    match scope.spawn_with(
        promise,
        move || -> Share
            requires { MayShare N.table N.opening
                (record { pass = pass; due = due; ops = ops }) × (now ≡ N.opening.clock)
                × (now ≤ TIME_LIMIT - 2 ^ 32) }
            ensures { IsShareDone N.table N.opening (J.replies jobs.entry.now) due ops.items
                pass.cpu result }
        {
            do_share(
                rt,
                alloc,
                shared,
                pass,
                now,
                due,
                ops.as_slice(),
                jobs,
                gate,
            )
        },
    ) {
        Ok(child) => Begun::There(child),
        Err(refused) => Begun::Here((refused.value)()),
    }
}

/// The share of a CPU: no thread begins where there is nothing to do.
fn begin<
    's,
    E,
    N: RunName + Send + Sync,
    B: TimerBase + Send + Sync,
    J: Jobs + Sync,
    G: Gate + Sync,
    R: Threads + Wait + Sync,
>(
    scope: &'s Scope<'s, E>,
    rt: &'s R,
    alloc: Global,
    shared: &'s Shared<N, B>,
    task: Task,
    now: Jiffy,
    jobs: &'s J,
    gate: &'s G,
) -> Begun<N, J>
    requires may { MayShare N.table N.opening task }
    requires now { now ≡ N.opening.clock }
    requires in_time { now ≤ TIME_LIMIT - 2 ^ 32 }
    ensures { IsBegun N.table N.opening J.replies (J.replies jobs.now) task.due task.ops.items
        task.pass.cpu result }
{
    if !task.due && task.ops.is_empty() {
        Begun::Here(idle_share::<N>(alloc, task))
    } else {
        begin_busy(scope, rt, alloc, shared, task, now, jobs, gate)
    }
}

/// Begins the shares of all CPUs, in their order.
fn begin_all<
    's,
    E,
    N: RunName + Send + Sync,
    B: TimerBase + Send + Sync,
    J: Jobs + Sync,
    G: Gate + Sync,
    R: Threads + Wait + Sync,
>(
    scope: &'s Scope<'s, E>,
    rt: &'s R,
    alloc: Global,
    shared: &'s Shared<N, B>,
    tasks: Vec<Task>,
    now: Jiffy,
    jobs: &'s J,
    gate: &'s G,
) -> Result<Vec<Begun<N, J>>, NoMemory>
    requires may { Each (MayShare N.table N.opening) tasks.items }
    requires now { now ≡ N.opening.clock }
    requires in_time { now ≤ TIME_LIMIT - 2 ^ 32 }
    ensures each { IfOk result (λ v. AllBegun N.table N.opening J.replies (J.replies jobs.now)
        tasks.items v.items) }
    ensures count { IfOk result (λ v. length v.items ≡ length tasks.items) }
{
    let mut begun = Vec::with_capacity(alloc, tasks.len())?;
    for task in tasks {
        begun.push(begin(scope, rt, alloc, shared, task, now, jobs, gate))?;
    }
    Ok(begun)
}

/// The share, once its thread has ended.
fn end<N: RunName, J: Jobs, R: Threads>(rt: &R, begun: Begun<N, J>) -> Share
    ensures { IsKept N.table N.opening J.replies begun result }
{
    match begun {
        Begun::There(child) => child.join(rt),
        Begun::Here(share) => share,
    }
}

/// The shares of all CPUs, in their order, once all threads have ended.
fn end_all<N: RunName, J: Jobs, R: Threads>(
    rt: &R,
    alloc: Global,
    begun: Vec<Begun<N, J>>,
) -> Result<Vec<Share>, NoMemory>
    ensures each { IfOk result
        (λ v. AllEnded N.table N.opening J.replies begun.items v.items) }
    ensures count { IfOk result (λ v. length v.items ≡ length begun.items) }
{
    let mut shares = Vec::with_capacity(alloc, begun.len())?;
    for one in begun {
        shares.push(end(rt, one))?;
    }
    Ok(shares)
}

/// The shares of all CPUs, in their order, each with something to do in a thread of its own.
pub(crate) fn do_all<
    N: RunName + Send + Sync,
    B: TimerBase + Send + Sync,
    J: Jobs + Sync,
    G: Gate + Sync,
    R: Threads + Wait + Sync,
>(
    rt: &R,
    alloc: Global,
    shared: &Shared<N, B>,
    tasks: Vec<Task>,
    now: Jiffy,
    jobs: &J,
    gate: &G,
) -> Result<Vec<Share>, NoMemory>
    requires may { Each (MayShare N.table N.opening) tasks.items }
    requires now { now ≡ N.opening.clock }
    requires in_time { now ≤ TIME_LIMIT - 2 ^ 32 }
    ensures each { IfOk result
        (λ v. AllDone N.table N.opening (J.replies jobs.now) tasks.items v.items) }
    ensures count { IfOk result (λ v. length v.items ≡ length tasks.items) }
{
    thread::scope(
        thread::scope_env(),
        rt,
        move |scope| -> Result<Vec<Share>, NoMemory>
            requires { IsSync R.row × IsSync J.row × IsSync G.row × IsSend N.row × IsSync N.row
                × IsSend B.row × IsSync B.row × Each (MayShare N.table N.opening) tasks.items
                × (now ≡ N.opening.clock) × (now ≤ TIME_LIMIT - 2 ^ 32) }
            ensures { IfOk result
                (λ v. AllDone N.table N.opening (J.replies jobs.entry.now) tasks.items v.items)
                × IfOk result (λ v. length v.items ≡ length tasks.items) }
        {
            let begun = begin_all(scope, rt, alloc, shared, tasks, now, jobs, gate)?;
            end_all(rt, alloc, begun)
        },
    )
}
