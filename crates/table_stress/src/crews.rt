//! Threads that share the CPUs of a run.

ghost use Rattle.std.specs.Prelude.{◌≡◌, ◌+◌, ◌≤◌, IfOk, length};
ghost use Rattle.std.specs.Thread.{IsSend, IsSync};
ghost use Rattle.table_stress.specs.Quiet.{Fits, QuietFrom};

use crate::gates::Watch;
use crate::runs::{Crew, Plan};
use crate::tally::Tally;
use crate::turns::take_rounds;
use idle_wakeup::{Pass, RunName};
use job_table::Jobs;
use shared_rows::Shared;
use std::alloc::Global;
use std::sync::Wait;
use std::thread;
use std::thread::Threads;
use tm_base::{Jiffy, NoMemory};
use wheel_core::TimerBase;

/// How many of so many CPUs from `first` on are below `cut`.
fn count_below(cut: u16, first: usize, count: usize) -> usize
    ensures { result ≤ count }
{
    usize::from(cut).saturating_sub(first).min(count)
}

/// One thread, with the passes of the CPUs from `first` on.
fn one<N: RunName, B: TimerBase, J: Jobs, G: Watch, R: Wait>(
    rt: &R,
    alloc: Global,
    shared: &Shared<N, B>,
    now: Jiffy,
    timers: u16,
    jobs: &J,
    gate: &G,
    plan: &Plan,
    first: usize,
    mut passes: Vec<Pass>,
) -> (Vec<Pass>, Tally)
    requires each { QuietFrom N.table N.opening first passes.items }
    requires few { first + length passes.items ≤ length N.opening.cpus }
    requires fits { Fits N.opening now timers }
    ensures each { QuietFrom N.table N.opening first result.0.items }
    ensures count { length result.0.items ≡ length passes.items }
{
    let tally = take_rounds(
        rt,
        alloc,
        shared,
        now,
        timers,
        jobs,
        gate,
        plan,
        first,
        passes.as_mut_slice(),
    );
    (passes, tally)
}

/// Two threads, each with passes of its own: those of the CPUs from `first` and from `middle` on.
fn both<
    N: RunName + Send + Sync,
    B: TimerBase + Send + Sync,
    J: Jobs + Sync,
    G: Watch + Sync,
    R: Threads + Wait + Sync,
>(
    rt: &R,
    alloc: Global,
    shared: &Shared<N, B>,
    now: Jiffy,
    timers: u16,
    jobs: &J,
    gate: &G,
    plan: &Plan,
    first: usize,
    front: Vec<Pass>,
    middle: usize,
    back: Vec<Pass>,
) -> ((Vec<Pass>, Tally), (Vec<Pass>, Tally))
    requires front { QuietFrom N.table N.opening first front.items }
    requires back { QuietFrom N.table N.opening middle back.items }
    requires few { first + length front.items ≤ length N.opening.cpus }
    requires others { middle + length back.items ≤ length N.opening.cpus }
    requires fits { Fits N.opening now timers }
    ensures front { QuietFrom N.table N.opening first result.0.0.items }
    ensures back { QuietFrom N.table N.opening middle result.1.0.items }
    ensures counts { (length result.0.0.items ≡ length front.items)
        × (length result.1.0.items ≡ length back.items) }
{
    thread::join(
        rt,
        || -> (Vec<Pass>, Tally)
            requires { QuietFrom N.table N.opening first front.items
                × (first + length front.items ≤ length N.opening.cpus)
                × Fits N.opening now timers }
            ensures { QuietFrom N.table N.opening first result.0.items
                × (length result.0.items ≡ length front.items) }
        {
            one(
                rt, alloc, shared, now, timers, jobs, gate, plan, first, front,
            )
        },
        || -> (Vec<Pass>, Tally)
            requires { QuietFrom N.table N.opening middle back.items
                × (middle + length back.items ≤ length N.opening.cpus)
                × Fits N.opening now timers }
            ensures { QuietFrom N.table N.opening middle result.0.items
                × (length result.0.items ≡ length back.items) }
        {
            one(
                rt, alloc, shared, now, timers, jobs, gate, plan, middle, back,
            )
        },
    )
}

/// Two threads, with the passes of the CPUs below `cut` and with the others.
fn cut_in_two<
    N: RunName + Send + Sync,
    B: TimerBase + Send + Sync,
    J: Jobs + Sync,
    G: Watch + Sync,
    R: Threads + Wait + Sync,
>(
    rt: &R,
    alloc: Global,
    shared: &Shared<N, B>,
    now: Jiffy,
    timers: u16,
    jobs: &J,
    gate: &G,
    plan: &Plan,
    first: usize,
    cut: u16,
    passes: Vec<Pass>,
) -> Result<(Vec<Pass>, Tally), NoMemory>
    requires each { QuietFrom N.table N.opening first passes.items }
    requires few { first + length passes.items ≤ length N.opening.cpus }
    requires fits { Fits N.opening now timers }
    ensures each { IfOk result (λ r. QuietFrom N.table N.opening first r.0.items) }
    ensures count { IfOk result (λ r. length r.0.items ≡ length passes.items) }
{
    let count = passes.len();
    let few = count_below(cut, first, count);
    let mut front = passes;
    let back = front.split_off(few)?;
    let ((mut front, a), (mut back, b)) = both(
        rt,
        alloc,
        shared,
        now,
        timers,
        jobs,
        gate,
        plan,
        first,
        front,
        first + few,
        back,
    );
    front.append(&mut back)?;
    Ok((front, a.with(b)))
}

/// Four threads, each with passes of its own: two with those of the CPUs from `first` on, cut at
/// `low`, and two with those from `middle` on, cut at `high`.
fn pairs<
    N: RunName + Send + Sync,
    B: TimerBase + Send + Sync,
    J: Jobs + Sync,
    G: Watch + Sync,
    R: Threads + Wait + Sync,
>(
    rt: &R,
    alloc: Global,
    shared: &Shared<N, B>,
    now: Jiffy,
    timers: u16,
    jobs: &J,
    gate: &G,
    plan: &Plan,
    first: usize,
    low: u16,
    front: Vec<Pass>,
    middle: usize,
    high: u16,
    back: Vec<Pass>,
) -> (
    Result<(Vec<Pass>, Tally), NoMemory>,
    Result<(Vec<Pass>, Tally), NoMemory>,
)
    requires front { QuietFrom N.table N.opening first front.items }
    requires back { QuietFrom N.table N.opening middle back.items }
    requires few { first + length front.items ≤ length N.opening.cpus }
    requires others { middle + length back.items ≤ length N.opening.cpus }
    requires fits { Fits N.opening now timers }
    ensures front { IfOk result.0 (λ r. QuietFrom N.table N.opening first r.0.items) }
    ensures back { IfOk result.1 (λ r. QuietFrom N.table N.opening middle r.0.items) }
    ensures few { IfOk result.0 (λ r. length r.0.items ≡ length front.items) }
    ensures others { IfOk result.1 (λ r. length r.0.items ≡ length back.items) }
{
    thread::join(
        rt,
        || -> Result<(Vec<Pass>, Tally), NoMemory>
            requires { IsSync R.row × IsSync G.row × IsSync J.row × IsSend N.row × IsSync N.row
                × IsSend B.row × IsSync B.row × QuietFrom N.table N.opening first front.items
                × (first + length front.items ≤ length N.opening.cpus)
                × Fits N.opening now timers }
            ensures { IfOk result (λ r. QuietFrom N.table N.opening first r.0.items)
                × IfOk result (λ r. length r.0.items ≡ length front.items) }
        {
            cut_in_two(
                rt, alloc, shared, now, timers, jobs, gate, plan, first, low, front,
            )
        },
        || -> Result<(Vec<Pass>, Tally), NoMemory>
            requires { IsSync R.row × IsSync G.row × IsSync J.row × IsSend N.row × IsSync N.row
                × IsSend B.row × IsSync B.row × QuietFrom N.table N.opening middle back.items
                × (middle + length back.items ≤ length N.opening.cpus)
                × Fits N.opening now timers }
            ensures { IfOk result (λ r. QuietFrom N.table N.opening middle r.0.items)
                × IfOk result (λ r. length r.0.items ≡ length back.items) }
        {
            cut_in_two(
                rt, alloc, shared, now, timers, jobs, gate, plan, middle, high, back,
            )
        },
    )
}

/// Four threads, each with some of these passes, which are cut at three CPUs.
fn cut_in_four<
    N: RunName + Send + Sync,
    B: TimerBase + Send + Sync,
    J: Jobs + Sync,
    G: Watch + Sync,
    R: Threads + Wait + Sync,
>(
    rt: &R,
    alloc: Global,
    shared: &Shared<N, B>,
    now: Jiffy,
    timers: u16,
    jobs: &J,
    gate: &G,
    plan: &Plan,
    first: usize,
    cuts: (u16, u16, u16),
    passes: Vec<Pass>,
) -> Result<(Vec<Pass>, Tally), NoMemory>
    requires each { QuietFrom N.table N.opening first passes.items }
    requires few { first + length passes.items ≤ length N.opening.cpus }
    requires fits { Fits N.opening now timers }
    ensures each { IfOk result (λ r. QuietFrom N.table N.opening first r.0.items) }
    ensures count { IfOk result (λ r. length r.0.items ≡ length passes.items) }
{
    let (low, middle, high) = cuts;
    let count = passes.len();
    let few = count_below(middle, first, count);
    let mut front = passes;
    let back = front.split_off(few)?;
    let (ones, others) = pairs(
        rt,
        alloc,
        shared,
        now,
        timers,
        jobs,
        gate,
        plan,
        first,
        low,
        front,
        first + few,
        high,
        back,
    );
    let (mut front, a) = ones?;
    let (mut back, b) = others?;
    front.append(&mut back)?;
    Ok((front, a.with(b)))
}

/// The threads of a plan, with all these passes.
pub(crate) fn all<
    N: RunName + Send + Sync,
    B: TimerBase + Send + Sync,
    J: Jobs + Sync,
    G: Watch + Sync,
    R: Threads + Wait + Sync,
>(
    rt: &R,
    alloc: Global,
    shared: &Shared<N, B>,
    now: Jiffy,
    timers: u16,
    jobs: &J,
    gate: &G,
    plan: &Plan,
    passes: Vec<Pass>,
) -> Result<(Vec<Pass>, Tally), NoMemory>
    requires each { QuietFrom N.table N.opening 0 passes.items }
    requires few { length passes.items ≤ length N.opening.cpus }
    requires fits { Fits N.opening now timers }
    ensures each { IfOk result (λ r. QuietFrom N.table N.opening 0 r.0.items) }
    ensures count { IfOk result (λ r. length r.0.items ≡ length passes.items) }
{
    match plan.crew {
        Crew::One => Ok(one(rt, alloc, shared, now, timers, jobs, gate, plan, 0, passes)),
        Crew::Two(cut) => cut_in_two(
            rt, alloc, shared, now, timers, jobs, gate, plan, 0, cut, passes,
        ),
        Crew::Four(low, middle, high) => {
            cut_in_four(
                rt,
                alloc,
                shared,
                now,
                timers,
                jobs,
                gate,
                plan,
                0,
                (low, middle, high),
                passes,
            )
        },
    }
}
