//! Playing a script on the core.

ghost use Rattle.std.specs.Prelude.{◌≡◌, ◌≤◌, [], IfErr, IfOk, OnErr, OnOk};
ghost use Rattle.tm_script.specs.Grammar.{IsScript};
ghost use Rattle.play_rules.specs.Moments.{moment};
ghost use Rattle.play_rules.specs.Play.{plain_rules, play_start};
ghost use Rattle.core_machine.specs.Fitting.{CoreFits};
ghost use Rattle.core_machine.specs.step_play.Rules.Seen.{InPlay, resting, state_of};
ghost use Rattle.core_machine.specs.step_play.Rules.StepRules.{step_rules};
ghost use Rattle.core_machine.specs.step_play.SamePlay.{core_start};
ghost use Rattle.play_driver.specs.Conditions.{AreOnline};
ghost use Rattle.play_driver.specs.Outcomes.{moment_of};
ghost use Rattle.core_plays.specs.OnCore.{HasMachineOf, core_end};
ghost use Rattle.play_driver.specs.Outcomes.{ForSomeText, PlaysMoment, PlaysWhole};
ghost use Rattle.core_plays.specs.Plays.{BreaksPlay, BreaksSummary, LawsHold, LawsHoldOfEach};
ghost use Rattle.core_plays.specs.Plays.{PlaysToEnd, Summarizes, summary_with};

use crate::numbers::Summary;
use crate::starting::start_core;
use core_machine::{CoreFit, CorePlayer, Player, law_steps_are_play};
use job_table::Jobs;
use play_driver::{Counts, DriveFault, moment_by_itself, play_on, play_unheard};
use play_laws::{
    law_covers, law_each_answered, law_each_runs, law_ends, law_in_its_jiffy, law_left, law_lines,
    law_moments,
};
use std::alloc::Global;
use step_core::{Core, law_each_settled};
use tm_base::{CpuSet, Jiffy, NoMemory};
use tm_report::Report;
use tm_script::Script;
use wheel_base::WheelBase;

/// Every script's play is made of the core's steps, of which the headline holds; it goes on to the
/// script's end, keeps the laws of Play, and its lines are true.
pub(crate) fn law_plays()
    ensures { LawsHoldOfEach }
{
    law_moments();
    law_each_answered();
    law_in_its_jiffy();
    law_ends();
    law_lines();
    law_left();
    law_covers();
    law_each_runs();
    law_steps_are_play();
    law_each_settled();
}

/// The core at the start of a script, which is to play it.
pub(crate) fn started(alloc: Global, script: &Script) -> Result<Player<WheelBase>, NoMemory>
    requires { IsScript script.now }
    ensures start { IfOk result (λ player. player ≡ core_start script.now) }
    ensures in_play { IfOk result (InPlay resting) }
{
    let core = start_core(alloc, script)?;
    Ok(Player::new(alloc, core))
}

/// Plays a script on the core of its start, by steps: what that tells and leaves is as Play has it.
fn play_by_steps<J: Jobs>(
    alloc: Global,
    player: &mut Player<WheelBase>,
    script: &Script,
    jobs: &J,
    report: &mut Report,
) -> Result<Counts, DriveFault>
    requires script { IsScript script.now }
    requires start { player.old ≡ core_start script.now }
    requires in_play { InPlay resting player.old }
    ensures whole { IfOk result (λ counts.
        PlaysWhole plain_rules (J.replies jobs.now) (J.count jobs.now) script.now
        (play_start script.now) report.old report.new counts (state_of player.new)) }
    ensures core { OnOk result (player.new ≡ core_end (J.replies jobs.now) script.now) }
    ensures laws { LawsHold (J.replies jobs.now) script.now }
    ensures fault { IfErr result (λ fault.
        BreaksPlay (J.replies jobs.now) (J.count jobs.now) script.now fault report.old report.new) }
{
    law_plays();
    law_steps_are_play();
    play_on(alloc, player, script, jobs, report)
}

/// Plays a script from its start into a report, and answers the core that its last moment leaves.
///
/// `BadJob` comes exactly where an `arm` line names a job that the table hasn't, before anything is
/// played. `WorkSpent` comes where the moments finished, interrupts made and timers handed out
/// together have reached the limit of the script's version after a moment that isn't the last; the
/// report has gained the lines of the finished moments then. After the others it is as it was.
pub fn play<J: Jobs>(
    alloc: Global,
    script: &Script,
    jobs: &J,
    report: &mut Report,
) -> Result<Core<WheelBase>, DriveFault>
    requires { IsScript script.now }
    ensures whole { IfOk result (λ core.
        PlaysToEnd (J.replies jobs.now) (J.count jobs.now) script.now
        report.old report.new core) }
    ensures fault { IfErr result (λ fault.
        BreaksPlay (J.replies jobs.now) (J.count jobs.now) script.now fault report.old report.new) }
{
    let mut player = started(alloc, script)?;
    match play_by_steps(alloc, &mut player, script, jobs, report) {
        Ok(_) => Ok(player.into_core()),
        Err(fault) => {
            drop(player);
            Err(fault)
        }
    }
}

/// Plays one moment of a script on a core, whose clock comes to it, with the interrupts of these
/// CPUs, which are online; `play` plays each of its moments so, with the CPUs of
/// `having_interrupt`. The core may be one in play, or one in a run, which threads left at rest:
/// what its player asks of it stays so. The answer is how many timers were handed out; the count
/// stands still at 2^32 - 1. After want of memory the report is as it was; the core may stand
/// anywhere within the moment, as lawful as every core.
pub fn play_moment<F: CoreFit, J: Jobs>(
    alloc: Global,
    player: &mut CorePlayer<WheelBase, F>,
    script: &Script,
    jobs: &J,
    at: Jiffy,
    interrupts: &CpuSet,
    report: &mut Report,
) -> Result<u32, NoMemory>
    requires script { IsScript script.now }
    requires machine { HasMachineOf script.now player.old }
    requires not_back { player.old.clock ≤ at }
    requires by_end { at ≤ script.now.end }
    requires online { AreOnline step_rules player.old interrupts.now }
    requires fits { CoreFits F.exact resting player.old }
    ensures plays { IfOk result (λ hand_outs.
        PlaysMoment
        (moment (J.replies jobs.now) step_rules interrupts.now (moment_of at script.now.moments)
        (step_rules.at_clock at player.old))
        report.old report.new hand_outs player.new) }
    ensures clock { OnOk result (player.new.clock ≡ at) }
    ensures machine { OnOk result (HasMachineOf script.now player.new) }
    ensures fits { OnOk result (CoreFits F.exact resting player.new) }
    ensures err { OnErr result (report.new ≡ report.old) }
{
    moment_by_itself(alloc, player, script, jobs, at, interrupts, report)
}

/// The numbers of a play that ended there, of so many moments and lines.
fn summary_with(end: Jiffy, counts: Counts) -> Summary
    ensures { result ≡ summary_with end counts.moments counts.lines }
{
    let lines = counts.lines;
    Summary {
        moments: counts.moments,
        runs: lines.runs,
        remote: lines.remote,
        armed: lines.armed,
        cancels: lines.cancels,
        idles: lines.idles,
        stays: lines.stays,
        wakes: lines.wakes,
        refused: lines.refused,
        left: lines.left,
        end,
    }
}

/// Plays a script on the core of its start, by steps, with no report.
fn unheard_by_steps<J: Jobs>(
    player: &mut Player<WheelBase>,
    script: &Script,
    jobs: &J,
) -> Result<Counts, DriveFault>
    requires script { IsScript script.now }
    requires start { player.old ≡ core_start script.now }
    requires in_play { InPlay resting player.old }
    ensures whole { IfOk result (λ counts. ForSomeText (λ new.
        PlaysWhole plain_rules (J.replies jobs.now) (J.count jobs.now) script.now
        (play_start script.now) [] new counts (state_of player.new))) }
    ensures laws { LawsHold (J.replies jobs.now) script.now }
    ensures fault { IfErr result (λ fault. ForSomeText (λ new.
        BreaksPlay (J.replies jobs.now) (J.count jobs.now) script.now fault [] new)) }
{
    law_plays();
    law_steps_are_play();
    play_unheard(player, script, jobs)
}

/// Plays a script as `play` does, with the same refusals, and answers the numbers of its play. No
/// text of a line is made, so memory is wanting only where the core wants it.
pub fn summary<J: Jobs>(alloc: Global, script: &Script, jobs: &J) -> Result<Summary, DriveFault>
    requires { IsScript script.now }
    ensures whole { IfOk result
        (Summarizes (J.replies jobs.now) (J.count jobs.now) script.now) }
    ensures fault { IfErr result
        (BreaksSummary (J.replies jobs.now) (J.count jobs.now) script.now) }
{
    let mut player = started(alloc, script)?;
    let played = unheard_by_steps(&mut player, script, jobs);
    drop(player);
    let counts = played?;
    Ok(summary_with(script.end, counts))
}
