//! What a CPU's thread tells of the CPU's interrupt.

ghost use Rattle.std.specs.Prelude.{◌≡◌, ◌-◌, ◌^◌, ◌≤◌, OnOk, true};
ghost use Rattle.tm_base.specs.declared.names.TheConstants.{TIME_LIMIT};
ghost use Rattle.core_world.specs.World.{cpu_of};
ghost use Rattle.run_shares.specs.shared_rule.declared.parts.PassView.{PassView};
ghost use Rattle.run_shares.specs.shared_rule.Passes.{IsPassIn};
ghost use Rattle.remote_expiry.specs.Interrupts.{IsPassAtRest, most_walks};
ghost use Rattle.run_shares.specs.Standing.{HasRun, MayAnswer};

use job_table::Jobs;
use remote_expiry::{Runs, interrupt};
use run_shares::{Pass, RunName, Shared, tell_runs};
use std::alloc::Global;
use std::sync::Wait;
use tm_base::{Gate, Jiffy, NoMemory, OpFault};
use tm_report::Line;
use wheel_core::TimerBase;

/// The interrupt of the CPU, and its lines.
fn run_due<N: RunName, B: TimerBase, J: Jobs, G: Gate, R: Wait>(
    rt: &R,
    alloc: Global,
    shared: &Shared<N, B>,
    pass: &mut Pass,
    now: Jiffy,
    jobs: &J,
    gate: &G,
    lines: &mut Vec<Line>,
) -> Result<(), NoMemory>
    requires may { MayAnswer N.table N.opening most_walks pass.old }
    requires rest { (p : PassView) → IsPassIn N.table pass.old p → IsPassAtRest N.opening p }
    requires now { now ≡ N.opening.clock }
    requires in_time { now ≤ TIME_LIMIT - 2 ^ 32 }
    requires online { (cpu_of N.opening pass.old.cpu).online ≡ true }
    ensures { OnOk result (HasRun N.table N.opening now (J.replies jobs.now) true pass.old pass.new
        lines.old.items lines.new.items) }
{
    let cpu = pass.cpu();
    let mut runs = Runs::new(alloc);
    let ended = interrupt(rt, alloc, shared, pass, now, jobs, gate, &mut runs);
    pass.law();
    match ended {
        Ok(()) => tell_runs(&runs, now, cpu, lines),
        Err(OpFault::NoMemory) => Err(NoMemory),
        Err(_) => unreachable!(),
    }
}

/// The same where the CPU is due an interrupt, and nothing where it isn't.
pub(crate) fn run_if_due<N: RunName, B: TimerBase, J: Jobs, G: Gate, R: Wait>(
    rt: &R,
    alloc: Global,
    shared: &Shared<N, B>,
    pass: &mut Pass,
    now: Jiffy,
    due: bool,
    jobs: &J,
    gate: &G,
    lines: &mut Vec<Line>,
) -> Result<(), NoMemory>
    requires may { MayAnswer N.table N.opening most_walks pass.old }
    requires rest { (p : PassView) → IsPassIn N.table pass.old p → IsPassAtRest N.opening p }
    requires now { now ≡ N.opening.clock }
    requires in_time { now ≤ TIME_LIMIT - 2 ^ 32 }
    requires online { due ≡ true → (cpu_of N.opening pass.old.cpu).online ≡ true }
    ensures { OnOk result (HasRun N.table N.opening now (J.replies jobs.now) due pass.old pass.new
        lines.old.items lines.new.items) }
{
    if due {
        run_due(rt, alloc, shared, pass, now, jobs, gate, lines)
    } else {
        Ok(())
    }
}
