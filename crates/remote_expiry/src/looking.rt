//! A CPU looks after the others, level by level from its leaf upwards (`tmigr_handle_remote`).

ghost use Rattle.std.specs.Prelude.{◌≡◌, ℕ, ◌-◌, ◌^◌, ◌≤◌, [], Some, true, MatchResult, length};
ghost use Rattle.tm_base.specs.declared.names.TheConstants.{TIME_LIMIT};
ghost use Rattle.tree_plan.specs.Paths.{group_at_of, is_placed_in, level_count_of};
ghost use Rattle.shared_acts.specs.Tries.{AtWork};
ghost use Rattle.remote_expiry.specs.Trying.{BreaksRound, HasClimbedLevels, HasRounds, IsLookRound};
ghost use Rattle.remote_expiry.specs.Trying.{StopsPass};

use crate::serving::serve;
use job_table::Jobs;
use shared_acts::{Look, Runs, look};
use std::alloc::Global;
use std::sync::Wait;
use tm_base::{CPU_SET_SIZE, CpuSet, Gate, Jiffy, NoMemory};
use tree_plan::{law_cuts, law_paths};
use walk_inactive::{Pass, Run, RunName, Shared};
use wheel_core::TimerBase;

/// One round more than there may be CPUs.
const MOST_ROUNDS: u16 = 513;

const _: () = prove!(MOST_ROUNDS == CPU_SET_SIZE + 1);

/// What a round of a look at a group came to.
#[derive(Clone, Copy)]
pub(crate) enum Round {
    /// A CPU was tried, and the look begins again.
    Again,
    /// Nothing untried is due there, and the look goes on further upwards.
    Up,
    /// The look has come to its end.
    Done,
}

/// Does nothing: its contract says that a CPU that has a group is placed, that there are at most
/// 512 CPUs, and that a tree has at most three levels.
fn law_shape<N: RunName, B: TimerBase>(run: &Run<N, B>)
    ensures placed { (c l group : ℕ) → group_at_of N.opening.tree c l ≡ Some group
        → is_placed_in N.opening.tree c ≡ true }
    ensures many { length N.opening.cpus ≤ 512 }
    ensures low { level_count_of N.opening.tree ≤ 3 }
{
    law_paths();
    law_cuts();
    run.tree.cpu_count();
}

/// One round of a look at the group of a level: the first CPU that is due there and that wasn't
/// tried yet is tried. Want of memory comes only as such a one is tried.
fn look_once<N: RunName, B: TimerBase, J: Jobs, G: Gate, R: Wait>(
    rt: &R,
    alloc: Global,
    shared: &Shared<N, B>,
    pass: &mut Pass,
    now: Jiffy,
    level: u8,
    tried: &mut CpuSet,
    jobs: &J,
    gate: &G,
    runs: &mut Runs,
) -> Result<Round, NoMemory>
    requires at_work { AtWork N.table N.opening [] 1 pass.old }
    requires now { now ≡ N.opening.clock }
    requires in_time { now ≤ TIME_LIMIT - 2 ^ 32 }
    ensures { MatchResult result
        (IsLookRound N.table N.opening (J.replies jobs.now) level tried.old tried.new
        pass.old pass.new runs.old.runs runs.new.runs)
        (λ e. BreaksRound N.table N.opening (J.replies jobs.now) tried.old pass.old pass.new
        runs.old.runs runs.new.runs) }
{
    pass.law();
    law_shape(shared.run());
    match look(shared.run(), pass, level, now, tried) {
        Look::NoGroup => Ok(Round::Done),
        Look::Other => Ok(Round::Done),
        Look::Nothing => Ok(Round::Up),
        Look::Due { cpu } => {
            tried.add(cpu);
            serve(rt, alloc, shared, pass, now, cpu, jobs, gate, runs)?;
            Ok(Round::Again)
        },
    }
}

/// The CPU looks at its group at a level until nothing untried is due there
/// (`tmigr_handle_remote_up`), and answers whether it looks further upwards. Each round tries a CPU
/// that wasn't tried yet, and so there is a last one.
fn look_at<N: RunName, B: TimerBase, J: Jobs, G: Gate, R: Wait>(
    rt: &R,
    alloc: Global,
    shared: &Shared<N, B>,
    pass: &mut Pass,
    now: Jiffy,
    level: u8,
    jobs: &J,
    gate: &G,
    runs: &mut Runs,
) -> Result<bool, NoMemory>
    requires at_work { AtWork N.table N.opening [] 513 pass.old }
    requires now { now ≡ N.opening.clock }
    requires in_time { now ≤ TIME_LIMIT - 2 ^ 32 }
    ensures { MatchResult result
        (HasRounds N.table N.opening (J.replies jobs.now) level pass.old pass.new runs.old.runs
        runs.new.runs)
        (λ e. StopsPass N.table N.opening (J.replies jobs.now) 512 pass.old pass.new
        runs.old.runs runs.new.runs) }
{
    law_shape(shared.run());
    let mut tried = CpuSet::new();
    for _turn in 0..MOST_ROUNDS {
        match look_once(
            rt, alloc, shared, pass, now, level, &mut tried, jobs, gate, runs,
        )? {
            Round::Again => {},
            Round::Up => return Ok(true),
            Round::Done => return Ok(false),
        }
    }
    unreachable!()
}

/// The CPU looks at its groups from the leaf upwards, up to the top or to a group that another CPU
/// looks after (`tmigr_handle_remote`).
pub(crate) fn look_up<N: RunName, B: TimerBase, J: Jobs, G: Gate, R: Wait>(
    rt: &R,
    alloc: Global,
    shared: &Shared<N, B>,
    pass: &mut Pass,
    now: Jiffy,
    jobs: &J,
    gate: &G,
    runs: &mut Runs,
) -> Result<(), NoMemory>
    requires at_work { AtWork N.table N.opening [] 1537 pass.old }
    requires now { now ≡ N.opening.clock }
    requires in_time { now ≤ TIME_LIMIT - 2 ^ 32 }
    ensures { MatchResult result
        (λ done. HasClimbedLevels N.table N.opening (J.replies jobs.now) pass.old pass.new
        runs.old.runs runs.new.runs)
        (λ e. StopsPass N.table N.opening (J.replies jobs.now) 1536 pass.old pass.new
        runs.old.runs runs.new.runs) }
{
    law_shape(shared.run());
    for level in 0..shared.run().tree.levels() {
        if !look_at(rt, alloc, shared, pass, now, level, jobs, gate, runs)? {
            return Ok(());
        }
    }
    Ok(())
}
