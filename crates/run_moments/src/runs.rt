//! Running a script, by whatever makes its rounds.

ghost use Rattle.std.specs.Prelude.{◌≡◌, ◌≤◌, All, IfErr, IfOk, length};
ghost use Rattle.tm_base.specs.declared.limits.TheConstants.{MOST_OPS};
ghost use Rattle.tm_script.specs.Grammar.{IsScript};
ghost use Rattle.play_rules.specs.Parts.{Gains};
ghost use Rattle.run_plain.specs.step_play.Rules.Seen.{InRun, resting};
ghost use Rattle.run_plain.specs.step_play.SamePlay.{core_start};
ghost use Rattle.play_driver.specs.Conditions.{IsPlayable};
ghost use Rattle.run_moments.specs.Rounds.{MakesRounds};
ghost use Rattle.run_moments.specs.Runs.{BreaksRun, EndsRunEarly, RunsToEnd, RunsWhole};

use crate::moments::{Rounded, run_moments};
use crate::turns::{close, started};
use core_plays::{Core, RunPlayer};
use job_table::Jobs;
use play_driver::{DriveFault, Telling, first_unknown_job};
use play_rules::UnknownJob;
use std::alloc::Global;
use std::mem;
use tm_base::{CpuSet, NoMemory};
use tm_report::Report;
use tm_script::{Op, Script};
use wheel_base::WheelBase;

/// The moments of a script, and what is left at its end.
fn run_known<J: Jobs, F: Fn(Core<WheelBase>, &CpuSet, &[Op]) -> Rounded>(
    alloc: Global,
    player: RunPlayer<WheelBase>,
    script: &Script,
    jobs: &J,
    round: &F,
    telling: &mut Telling<Report>,
) -> Result<RunPlayer<WheelBase>, DriveFault>
    requires start { player ≡ core_start script.now }
    requires playable { IsPlayable (length player.cpus) player.timers script.now }
    requires few { All (λ m. length m.ops ≤ MOST_OPS) script.now.moments }
    requires no_work { telling.old.work ≡ 0 }
    requires rounds { MakesRounds (J.replies jobs.now) (F.pre round.now) (F.post round.now) }
    requires fit { InRun resting player }
    ensures whole { IfOk result
        (RunsWhole (J.replies jobs.now) script.now telling.old.text telling.new.text) }
    ensures fault { IfErr result (λ fault.
        EndsRunEarly (J.replies jobs.now) script.now fault telling.old.text telling.new.text) }
    ensures gains { Gains telling.old.text telling.new.text }
{
    let player = run_moments(alloc, player, jobs, round, script, telling)?;
    match close(&player, script.end, telling) {
        Ok(()) => Ok(player),
        Err(refused) => {
            drop(player);
            Err(refused.into())
        }
    }
}

/// Runs a script from its start into a report. A moment that takes a CPU offline or online, or has
/// no operation and at most one interrupt, is played here; of every other one `round` makes a
/// round, of the core as the clock has come to the moment, of the CPUs that are due an interrupt
/// and of the operations. It answers the core that the last moment leaves. The lines of a moment
/// stand by ascending CPU.
///
/// `BadJob` comes exactly where an `arm` line names a job that the table hasn't, before anything is
/// run. `WorkSpent` comes where the moments finished, interrupts made and timers handed out
/// together have reached the limit of the script's version after a moment that isn't the last; the
/// report has gained the lines of the finished moments then. After the others it is as it was.
pub fn run_by<J: Jobs, F: Fn(Core<WheelBase>, &CpuSet, &[Op]) -> Rounded>(
    alloc: Global,
    script: &Script,
    jobs: &J,
    round: &F,
    report: &mut Report,
) -> Result<Core<WheelBase>, DriveFault>
    requires script { IsScript script.now }
    requires rounds { MakesRounds (J.replies jobs.now) (F.pre round.now) (F.post round.now) }
    ensures whole { IfOk result
        (RunsToEnd (J.replies jobs.now) (J.count jobs.now) script.now report.old report.new) }
    ensures fault { IfErr result (λ fault.
        BreaksRun (J.replies jobs.now) (J.count jobs.now) script.now fault report.old report.new) }
{
    if let Some(UnknownJob { line, job }) = first_unknown_job(script, jobs) {
        return Err(DriveFault::BadJob { line, job });
    }
    let player = started(alloc, script)?;
    let begin = report.text().len();
    let mut telling = Telling::new(mem::replace(report, Report::new(alloc)));
    let ran = run_known(alloc, player, script, jobs, round, &mut telling);
    *report = telling.into_report();
    match ran {
        Ok(player) => Ok(player.into_core()),
        Err(DriveFault::NoMemory) => {
            report.truncate(begin);
            Err(DriveFault::NoMemory)
        }
        Err(fault) => Err(fault),
    }
}
