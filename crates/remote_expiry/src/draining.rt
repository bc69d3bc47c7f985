//! Drains: all that is due of a base goes out under a CPU's lock, and its jobs run without it.

ghost use Rattle.std.specs.Prelude.{◌≡◌, ◌-◌, ◌^◌, ◌≤◌, [], MatchResult};
ghost use Rattle.tm_base.specs.declared.names.TheConstants.{TIME_LIMIT};
ghost use Rattle.shared_acts.specs.Handing.{HasHanded};
ghost use Rattle.shared_acts.specs.Pieces.{HeldInside, Piece};
ghost use Rattle.remote_expiry.specs.Trying.{DrainsOwn, StopsPass};

use crate::jobs::run_all;
use job_table::Jobs;
use shared_acts::{Runs, hand_all, room_for};
use std::alloc::Global;
use std::sync::Wait;
use tm_base::{Class, Jiffy, NoMemory};
use walk_inactive::{CpuBox, Pass, Run, RunName, Shared};
use wheel_core::{Item, TimerBase};

/// All due timers of a class go out of the box of the pass's CPU, with room for all that comes.
fn hand_box<N: RunName, B: TimerBase>(
    run: &Run<N, B>,
    cpu_box: &mut CpuBox<N, B>,
    pass: &mut Pass,
    now: Jiffy,
    class: Class,
    items: &mut Vec<Item>,
    runs: &mut Runs,
) -> Result<(), NoMemory>
    requires inside { HeldInside N.table N.opening pass.old }
    requires own { pass.old.cpu ≡ cpu_box.old.box.cpu }
    requires now { now ≡ N.opening.clock }
    requires none { items.old.items ≡ [] }
    ensures done { MatchResult result
        (λ done. HasHanded N.table N.opening class pass.old pass.new items.new.items
        runs.new.capacity runs.old.runs)
        (λ e. Piece N.table pass.old pass.new [] [] 0) }
    ensures runs { runs.new.runs ≡ runs.old.runs }
{
    pass.law();
    room_for(&mut cpu_box.part, pass, class, items, runs)?;
    hand_all(run, &mut cpu_box.part, pass, now, class, items);
    Ok(())
}

/// The same, with the CPU's lock taken for it.
fn hand_own<N: RunName, B: TimerBase, R: Wait>(
    rt: &R,
    shared: &Shared<N, B>,
    pass: &mut Pass,
    now: Jiffy,
    class: Class,
    items: &mut Vec<Item>,
    runs: &mut Runs,
) -> Result<(), NoMemory>
    requires inside { HeldInside N.table N.opening pass.old }
    requires now { now ≡ N.opening.clock }
    requires none { items.old.items ≡ [] }
    ensures done { MatchResult result
        (λ done. HasHanded N.table N.opening class pass.old pass.new items.new.items
        runs.new.capacity runs.old.runs)
        (λ e. Piece N.table pass.old pass.new [] [] 0) }
    ensures runs { runs.new.runs ≡ runs.old.runs }
{
    pass.law();
    let mut guard = shared.lock(rt, pass.cpu());
    hand_box(shared.run(), &mut *guard, pass, now, class, items, runs)
}

/// A drain of an own base of the pass's CPU (`__run_timers`): all that is due goes out under the
/// CPU's lock, and the jobs run without it.
pub(crate) fn drain_own<N: RunName, B: TimerBase, J: Jobs, R: Wait>(
    rt: &R,
    alloc: Global,
    shared: &Shared<N, B>,
    pass: &mut Pass,
    now: Jiffy,
    class: Class,
    jobs: &J,
    runs: &mut Runs,
) -> Result<(), NoMemory>
    requires inside { HeldInside N.table N.opening pass.old }
    requires now { now ≡ N.opening.clock }
    requires in_time { now ≤ TIME_LIMIT - 2 ^ 32 }
    ensures { MatchResult result
        (λ done. DrainsOwn N.table N.opening (J.replies jobs.now) class pass.old pass.new
        runs.old.runs runs.new.runs)
        (λ e. StopsPass N.table N.opening (J.replies jobs.now) 0 pass.old pass.new
        runs.old.runs runs.new.runs) }
{
    let mut items = Vec::new(alloc);
    hand_own(rt, shared, pass, now, class, &mut items, runs)?;
    run_all(rt, shared, pass, now, jobs, pass.cpu(), &items, runs)
}
