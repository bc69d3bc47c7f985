//! A CPU that a look named is tried (`tmigr_handle_remote_cpu`).

ghost use Rattle.std.specs.Prelude.{◌≡◌, ◌-◌, ◌^◌, ◌≤◌, ◌∷◌, [], IfOk, MatchResult, length, true};
ghost use Rattle.tm_base.specs.declared.names.TheConstants.{TIME_LIMIT};
ghost use Rattle.tree_plan.specs.Paths.{is_placed_in};
ghost use Rattle.walk_rules.specs.Hierarchy.{HasGroup};
ghost use Rattle.walk_inactive.specs.shared_rule.Slots.{IsGrouped};
ghost use Rattle.walk_inactive.specs.shared_table.Begun.{IsFree};
ghost use Rattle.shared_acts.specs.Pieces.{Piece};
ghost use Rattle.shared_acts.specs.Tries.{AtWork, HasLetGo, HasTried, IsRunnable};
ghost use Rattle.shared_acts.specs.Tries.{TakesOrLeaves};
ghost use Rattle.remote_expiry.specs.Trying.{StopsPass};

use crate::jobs::run_all;
use crate::marking::carry_for;
use job_table::Jobs;
use shared_acts::{Runs, may_take, take_back, take_part};
use std::alloc::Global;
use std::sync::Wait;
use tm_base::{CpuId, Gate, Jiffy, NoMemory};
use walk_inactive::{BoxPart, CpuBox, Pass, Run, RunName, Shared};
use wheel_core::{Item, TimerBase};

/// The CPU of the pass marks that of the box, where that may be, and takes all that is due out of
/// its global base. It answers whether it did.
fn take_box<N: RunName, B: TimerBase, G: Gate>(
    run: &Run<N, B>,
    cpu_box: &mut CpuBox<N, B>,
    pass: &mut Pass,
    now: Jiffy,
    gate: &G,
    items: &mut Vec<Item>,
    runs: &mut Runs,
) -> Result<bool, NoMemory>
    requires at_work { AtWork N.table N.opening [] 1 pass.old }
    requires placed { is_placed_in N.opening.tree pass.old.cpu ≡ true }
    requires grouped { HasGroup N.opening.tree cpu_box.old.box.cpu }
    requires now { now ≡ N.opening.clock }
    requires none { items.old.items ≡ [] }
    ensures done { MatchResult result
        (TakesOrLeaves N.table N.opening cpu_box.old.box.cpu items.new.items pass.old pass.new)
        (λ e. Piece N.table pass.old pass.new [] [] 0) }
    ensures runs { runs.new.runs ≡ runs.old.runs }
    ensures runnable { IfOk result (λ taken. taken ≡ true
        → IsRunnable N.opening items.new.items (length runs.new.runs) runs.new.capacity) }
{
    take_part(run, &mut cpu_box.part, pass, now, gate, items, runs)
}

/// The same, with the CPU's lock taken for it.
fn take<N: RunName, B: TimerBase, G: Gate, R: Wait>(
    rt: &R,
    shared: &Shared<N, B>,
    pass: &mut Pass,
    now: Jiffy,
    due: CpuId,
    gate: &G,
    items: &mut Vec<Item>,
    runs: &mut Runs,
) -> Result<bool, NoMemory>
    requires at_work { AtWork N.table N.opening [] 1 pass.old }
    requires placed { is_placed_in N.opening.tree pass.old.cpu ≡ true }
    requires due { IsGrouped N.opening due.0 }
    requires now { now ≡ N.opening.clock }
    requires none { items.old.items ≡ [] }
    ensures done { MatchResult result
        (TakesOrLeaves N.table N.opening due.0 items.new.items pass.old pass.new)
        (λ e. Piece N.table pass.old pass.new [] [] 0) }
    ensures runs { runs.new.runs ≡ runs.old.runs }
    ensures runnable { IfOk result (λ taken. taken ≡ true
        → IsRunnable N.opening items.new.items (length runs.new.runs) runs.new.capacity) }
{
    let mut guard = shared.lock(rt, due);
    take_box(shared.run(), &mut *guard, pass, now, gate, items, runs)
}

/// What follows on the jobs of a CPU that was marked: where it still sleeps its next event is
/// carried upwards, and else its mark is taken back. Its word is loaded once more, and shows which.
fn let_go_part<N: RunName, B: TimerBase, G: Gate, R: Wait>(
    rt: &R,
    shared: &Shared<N, B>,
    part: &mut BoxPart<N, B>,
    pass: &mut Pass,
    now: Jiffy,
    gate: &G,
)
    requires marked { AtWork N.table N.opening (part.old.box.cpu ∷ []) 1 pass.old }
    requires free { IsFree part.old }
    requires now { now ≡ N.opening.clock }
    ensures free { IsFree part.new }
    ensures pass { HasLetGo N.table N.opening part.old.box.cpu pass.old pass.new }
{
    part.law();
    may_take(shared.run(), part, pass, now);
    let state = part.state();
    if state.online && state.idle {
        carry_for(rt, shared, part, pass, gate);
    } else {
        take_back(shared.run(), part, pass);
    }
}

/// The same in the box of a CPU.
fn let_go_box<N: RunName, B: TimerBase, G: Gate, R: Wait>(
    rt: &R,
    shared: &Shared<N, B>,
    cpu_box: &mut CpuBox<N, B>,
    pass: &mut Pass,
    now: Jiffy,
    gate: &G,
)
    requires marked { AtWork N.table N.opening (cpu_box.old.box.cpu ∷ []) 1 pass.old }
    requires now { now ≡ N.opening.clock }
    ensures { HasLetGo N.table N.opening cpu_box.old.box.cpu pass.old pass.new }
{
    let_go_part(rt, shared, &mut cpu_box.part, pass, now, gate);
}

/// The same, with the CPU's lock taken for it.
fn let_go<N: RunName, B: TimerBase, G: Gate, R: Wait>(
    rt: &R,
    shared: &Shared<N, B>,
    pass: &mut Pass,
    now: Jiffy,
    due: CpuId,
    gate: &G,
)
    requires due { IsGrouped N.opening due.0 }
    requires marked { AtWork N.table N.opening (due.0 ∷ []) 1 pass.old }
    requires now { now ≡ N.opening.clock }
    ensures { HasLetGo N.table N.opening due.0 pass.old pass.new }
{
    let mut guard = shared.lock(rt, due);
    let_go_box(rt, shared, &mut *guard, pass, now, gate);
}

/// A CPU that a look named is tried: it is left alone, or marked, and then its global timers that
/// are due run on the pass's CPU, and the mark is gone again, after want of memory too.
pub(crate) fn serve<N: RunName, B: TimerBase, J: Jobs, G: Gate, R: Wait>(
    rt: &R,
    alloc: Global,
    shared: &Shared<N, B>,
    pass: &mut Pass,
    now: Jiffy,
    due: CpuId,
    jobs: &J,
    gate: &G,
    runs: &mut Runs,
) -> Result<(), NoMemory>
    requires at_work { AtWork N.table N.opening [] 1 pass.old }
    requires placed { is_placed_in N.opening.tree pass.old.cpu ≡ true }
    requires due { IsGrouped N.opening due.0 }
    requires now { now ≡ N.opening.clock }
    requires in_time { now ≤ TIME_LIMIT - 2 ^ 32 }
    ensures { MatchResult result
        (λ done. HasTried N.table N.opening (J.replies jobs.now) due.0 pass.old pass.new
        runs.old.runs runs.new.runs)
        (λ e. StopsPass N.table N.opening (J.replies jobs.now) 1 pass.old pass.new
        runs.old.runs runs.new.runs) }
{
    let mut items = Vec::new(alloc);
    if !take(rt, shared, pass, now, due, gate, &mut items, runs)? {
        return Ok(());
    }
    let ended = run_all(rt, shared, pass, now, jobs, due, &items, runs);
    let_go(rt, shared, pass, now, due, gate);
    ended
}
