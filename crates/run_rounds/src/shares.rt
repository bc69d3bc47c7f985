//! The share of a CPU in a round: what its thread does.

ghost use Rattle.std.specs.Prelude.{◌≡◌, ◌-◌, ◌^◌, ◌<◌, ◌≤◌, [], All, OnOk, false, length, true};
ghost use Rattle.tm_base.specs.declared.limits.TheConstants.{MOST_OPS};
ghost use Rattle.tm_base.specs.declared.names.TheConstants.{TIME_LIMIT};
ghost use Rattle.core_world.specs.World.{cpu_of};
ghost use Rattle.run_shares.specs.shared_table.Begun.{begun_pass};
ghost use Rattle.run_shares.specs.Doing.{HasDone, IsShareOp};

use crate::interrupts::run_if_due;
use job_table::Jobs;
use run_shares::{Pass, RunName, Share, Shared, answer_all};
use std::alloc::Global;
use std::sync::Wait;
use tm_base::{Gate, Jiffy, NoMemory};
use tm_report::Line;
use tm_script::Op;
use wheel_core::TimerBase;

/// The CPU's interrupt, where it is due one, and then its own operations.
fn tell_share<N: RunName, B: TimerBase, J: Jobs, G: Gate, R: Wait>(
    rt: &R,
    alloc: Global,
    shared: &Shared<N, B>,
    pass: &mut Pass,
    now: Jiffy,
    due: bool,
    ops: &[Op],
    jobs: &J,
    gate: &G,
    lines: &mut Vec<Line>,
) -> Result<(), NoMemory>
    requires first { pass.old ≡ begun_pass N.table N.opening 0 pass.old.cpu }
    requires none { lines.old.items ≡ [] }
    requires cpu { pass.old.cpu < length N.opening.cpus }
    requires outside { (cpu_of N.opening pass.old.cpu).inside ≡ false }
    requires now { now ≡ N.opening.clock }
    requires in_time { now ≤ TIME_LIMIT - 2 ^ 32 }
    requires online { due ≡ true → (cpu_of N.opening pass.old.cpu).online ≡ true }
    requires ops { All (IsShareOp pass.old.cpu N.opening.timers) ops.now }
    requires few { length ops.now ≤ MOST_OPS }
    ensures { OnOk result (HasDone N.table N.opening (J.replies jobs.now) due ops.now
        pass.old.cpu pass.new lines.new.items) }
{
    run_if_due(rt, alloc, shared, pass, now, due, jobs, gate, lines)?;
    answer_all(rt, shared, pass, now, ops, gate, lines)
}

/// The share of a CPU in a round, with the pass with which the round began for it: its interrupt,
/// where it is due one, and then its own operations in line order, each with its line.
pub(crate) fn do_share<N: RunName, B: TimerBase, J: Jobs, G: Gate, R: Wait>(
    rt: &R,
    alloc: Global,
    shared: &Shared<N, B>,
    pass: Pass,
    now: Jiffy,
    due: bool,
    ops: &[Op],
    jobs: &J,
    gate: &G,
) -> Share
    requires first { pass ≡ begun_pass N.table N.opening 0 pass.cpu }
    requires cpu { pass.cpu < length N.opening.cpus }
    requires outside { (cpu_of N.opening pass.cpu).inside ≡ false }
    requires now { now ≡ N.opening.clock }
    requires in_time { now ≤ TIME_LIMIT - 2 ^ 32 }
    requires online { due ≡ true → (cpu_of N.opening pass.cpu).online ≡ true }
    requires ops { All (IsShareOp pass.cpu N.opening.timers) ops.now }
    requires few { length ops.now ≤ MOST_OPS }
    ensures { OnOk result.ended (HasDone N.table N.opening (J.replies jobs.now) due ops.now
        pass.cpu result.pass result.lines.items) }
{
    let mut pass = pass;
    let mut lines = Vec::new(alloc);
    let ended = tell_share(
        rt, alloc, shared, &mut pass, now, due, ops, jobs, gate, &mut lines,
    );
    Share { pass, lines, ended }
}
