//! The moments of a run.

ghost use Rattle.std.specs.Prelude.{◌≡◌, ◌<◌, ◌≤◌, All, IfErr, IfOk, false, length};
ghost use Rattle.std.specs.List.{list_any};
ghost use Rattle.std.specs.Option.{ForSome, option_copied};
ghost use Rattle.tm_base.specs.declared.limits.TheConstants.{MOST_OPS, SCRIPT_TIME_LIMIT};
ghost use Rattle.play_rules.specs.Machines.{SameBuild};
ghost use Rattle.play_rules.specs.Parts.{Gains};
ghost use Rattle.run_plain.specs.step_play.Rules.Seen.{InRun, resting};
ghost use Rattle.run_plain.specs.step_play.Rules.StepRules.{step_rules};
ghost use Rattle.run_plain.specs.step_play.SamePlay.{core_start};
ghost use Rattle.run_plain.specs.run_story.Stories.{is_hotplug, ops_of};
ghost use Rattle.play_driver.specs.Conditions.{AreOnline, IsPlayable};
ghost use Rattle.run_moments.specs.Rounds.{MakesRounds};
ghost use Rattle.run_moments.specs.Runs.{EndsRunEarly, IsRunMoment, RunsOut, TellsMoment};
ghost use Rattle.run_moments.specs.Runs.{TellsThreaded};

use crate::telling::tell_round;
use crate::turns::{come_to, count_due, cpu_count, is_plain, moment_after, ops_of, plain_moment};
use core_plays::{Core, RunPlayer};
use job_table::Jobs;
use play_driver::{DriveFault, Telling, moment_due, still_to_come, work_limit};
use run_plain::law_each_settled;
use std::alloc::Global;
use tm_base::{CpuSet, Jiffy, NoMemory};
use tm_report::{Line, Report};
use tm_script::{Moment, Op, Script};
use wheel_base::WheelBase;

/// What comes of a round: the core after it, and its lines by ascending CPU. After want of memory
/// the core is gone.
pub type Rounded = Result<(Core<WheelBase>, Vec<Line>), NoMemory>;

/// A moment with a round, of which the CPUs that have an interrupt are known.
fn threaded_moment<J: Jobs, F: Fn(Core<WheelBase>, &CpuSet, &[Op]) -> Rounded>(
    alloc: Global,
    player: RunPlayer<WheelBase>,
    jobs: &J,
    round: &F,
    due: &CpuSet,
    m: Option<&Moment>,
    telling: &mut Telling<Report>,
) -> Result<RunPlayer<WheelBase>, NoMemory>
    requires in_time { player.clock < SCRIPT_TIME_LIMIT }
    requires in_range { ForSome (option_copied m)
        (IsRunMoment (length player.cpus) player.timers) }
    requires online { AreOnline step_rules player due.now }
    requires stay { list_any (λ o. is_hotplug o.what) (ops_of (option_copied m)) ≡ false }
    requires rounds { MakesRounds (J.replies jobs.now) (F.pre round.now) (F.post round.now) }
    requires fit { InRun resting player }
    ensures tells { IfOk result (λ after.
        TellsThreaded (J.replies jobs.now) due.now (option_copied m.entry) player
        telling.old telling.new after) }
    ensures clock { IfOk result (λ after. after.clock ≡ player.clock) }
    ensures same { IfOk result (SameBuild step_rules player) }
    ensures fit { IfOk result (InRun resting) }
    ensures gains { Gains telling.old.text telling.new.text }
{
    let count = count_due(cpu_count(&player), due);
    let (core, lines) = round(player.into_core(), due, ops_of(m))?;
    let player = RunPlayer::new(alloc, core);
    let told = tell_round(&player, count, lines.as_slice(), m, telling);
    drop(lines);
    match told {
        Ok(()) => Ok(player),
        Err(refused) => {
            drop(player);
            Err(refused)
        }
    }
}

/// The moment of a time, which the clock comes to.
fn run_turn<J: Jobs, F: Fn(Core<WheelBase>, &CpuSet, &[Op]) -> Rounded>(
    alloc: Global,
    mut player: RunPlayer<WheelBase>,
    jobs: &J,
    round: &F,
    left: &[Moment],
    now: Jiffy,
    telling: &mut Telling<Report>,
) -> Result<RunPlayer<WheelBase>, NoMemory>
    requires not_back { player.clock ≤ now }
    requires in_time { now < SCRIPT_TIME_LIMIT }
    requires in_range { All (IsRunMoment (length player.cpus) player.timers) left.now }
    requires rounds { MakesRounds (J.replies jobs.now) (F.pre round.now) (F.post round.now) }
    requires fit { InRun resting player }
    ensures tells { IfOk result
        (TellsMoment (J.replies jobs.now) left.now now player telling.old telling.new) }
    ensures clock { IfOk result (λ after. after.clock ≡ now) }
    ensures same { IfOk result (SameBuild step_rules player) }
    ensures fit { IfOk result (InRun resting) }
    ensures gains { Gains telling.old.text telling.new.text }
{
    let due = come_to(&mut player, now);
    let m = moment_due(left, now);
    if is_plain(cpu_count(&player), &due, ops_of(m)) {
        return match plain_moment(alloc, &mut player, jobs, &due, m, telling) {
            Ok(()) => Ok(player),
            Err(refused) => {
                drop(player);
                Err(refused)
            }
        };
    }
    threaded_moment(alloc, player, jobs, round, &due, m, telling)
}

/// The moments of a script from jiffy 0 to its end. Where the work has reached the limit after a
/// moment that isn't the last, the run is broken off there with that count.
pub(crate) fn run_moments<J: Jobs, F: Fn(Core<WheelBase>, &CpuSet, &[Op]) -> Rounded>(
    alloc: Global,
    player: RunPlayer<WheelBase>,
    jobs: &J,
    round: &F,
    script: &Script,
    telling: &mut Telling<Report>,
) -> Result<RunPlayer<WheelBase>, DriveFault>
    requires start { player ≡ core_start script.now }
    requires playable { IsPlayable (length player.cpus) player.timers script.now }
    requires few { All (λ m. length m.ops ≤ MOST_OPS) script.now.moments }
    requires no_work { telling.old.work ≡ 0 }
    requires rounds { MakesRounds (J.replies jobs.now) (F.pre round.now) (F.post round.now) }
    requires fit { InRun resting player }
    ensures whole { IfOk result
        (RunsOut (J.replies jobs.now) script.now telling.old.text telling.new.text) }
    ensures fault { IfErr result (λ fault.
        EndsRunEarly (J.replies jobs.now) script.now fault telling.old.text telling.new.text) }
    ensures gains { Gains telling.old.text telling.new.text }
{
    law_each_settled();
    let limit = work_limit(script.version);
    let mut player = player;
    let mut left = script.moments.as_slice();
    let mut now = 0;
    while now < script.end {
        player = run_turn(alloc, player, jobs, round, left, now, telling)?;
        if telling.work() >= limit {
            drop(player);
            return Err(DriveFault::WorkSpent {
                count: telling.work(),
            });
        }
        left = still_to_come(left, now);
        now = moment_after(&player, left, script.end);
    }
    let player = run_turn(alloc, player, jobs, round, left, now, telling)?;
    Ok(player)
}
