//! Running a script with threads for the CPUs of a moment.

ghost use Rattle.std.specs.Prelude.{IfErr, IfOk};
ghost use Rattle.std.specs.Thread.{IsSync};
ghost use Rattle.tm_script.specs.Grammar.{IsScript};
ghost use Rattle.run_moments.specs.Runs.{BreaksRun, RunsToEnd};
ghost use Rattle.run_moments.specs.story.Asked.{AsksRound};
ghost use Rattle.run_moments.specs.story.Rounds.{IsRound};

use job_table::Jobs;
use play_driver::DriveFault;
use run_moments::{Core, Rounded, run_by};
use run_rounds::round;
use std::alloc::Global;
use std::sync::Wait;
use std::thread::Threads;
use tm_base::{CpuSet, Gate};
use tm_report::Report;
use tm_script::{Op, Script};
use wheel_base::WheelBase;

/// Runs a script from its start into a report, with threads: in a moment each CPU that has an
/// interrupt or operations gets a thread, which does its interrupt and then its operations in line
/// order; a moment that takes a CPU offline or online, or has no operation and at most one
/// interrupt, is played without threads. It answers the core that the last moment leaves. The lines
/// of a moment are told by ascending CPU, so that they don't depend on which thread was first but
/// where the threads met.
///
/// `BadJob` comes exactly where an `arm` line names a job that the table hasn't, before anything is
/// run. `WorkSpent` comes where the moments finished, interrupts made and timers handed out
/// together have reached the limit of the script's version after a moment that isn't the last; the
/// report has gained the lines of the finished moments then. After the others it is as it was.
pub fn run<J: Jobs + Sync, G: Gate + Sync, R: Threads + Wait + Sync>(
    rt: &R,
    alloc: Global,
    script: &Script,
    jobs: &J,
    gate: &G,
    report: &mut Report,
) -> Result<Core<WheelBase>, DriveFault>
    requires { IsScript script.now }
    ensures whole { IfOk result
        (RunsToEnd (J.replies jobs.now) (J.count jobs.now) script.now report.old report.new) }
    ensures fault { IfErr result (λ fault.
        BreaksRun (J.replies jobs.now) (J.count jobs.now) script.now fault report.old report.new) }
{
    let by_threads = |core: Core<WheelBase>, due: &CpuSet, ops: &[Op]| -> Rounded
        requires { IsSync R.row × IsSync J.row × IsSync G.row × AsksRound core due.now ops.now }
        ensures { IfOk result
            (λ r. IsRound (J.replies jobs.entry.now) core due.now ops.now r.0 r.1.items) }
    { round(rt, alloc, core, due, ops, jobs, gate) };
    run_by(alloc, script, jobs, &by_threads, report)
}
