//! The moments of a play.

ghost use Rattle.std.specs.Prelude.{◌≡◌, ◌<◌, ◌≤◌, All, IfErr, IfOk, OnErr, OnOk, length};
ghost use Rattle.std.specs.Option.{ForSome, option_copied};
ghost use Rattle.play_rules.specs.Machines.{Same, SameBuild};
ghost use Rattle.play_rules.specs.Moments.{moment, moment_at, moments_after, next_moment};
ghost use Rattle.play_rules.specs.Moments.{scripted, turn};
ghost use Rattle.play_rules.specs.Parts.{Gains, Prints, counted};
ghost use Rattle.play_rules.specs.Phases.{resting};
ghost use Rattle.tm_base.specs.declared.limits.TheConstants.{SCRIPT_TIME_LIMIT};
ghost use Rattle.play_driver.specs.Outcomes.{moment_of};
ghost use Rattle.play_driver.specs.Outcomes.{EndsEarly, PlaysMoment, PlaysOut, script_turns};
ghost use Rattle.play_driver.specs.Outcomes.{work_limit};
ghost use Rattle.play_driver.specs.Conditions.{AreOnline, IsMomentInRange, IsPlayable};
ghost use Rattle.play_driver.specs.PartLeaves.{PartLeaves};

use crate::interrupts::{having_interrupt, interrupts};
use crate::listeners::Listener;
use crate::moving::{clear_after, covers};
use crate::operations::operations;
use crate::outcomes::DriveFault;
use crate::telling::Telling;
use job_table::Jobs;
use play_rules::PlayMachine;
use std::alloc::Global;
use std::mem;
use tm_base::{CpuSet, Jiffy, NoMemory, WORK_LIMIT_V1, WORK_LIMIT_V2};
use tm_report::Report;
use tm_script::{Moment, Script};

/// What the script has for a moment: its operations, the timers of a CPU that went offline, and the
/// covers.
fn scripted<M: PlayMachine, L: Listener>(
    machine: &mut M,
    due: Option<&Moment>,
    telling: &mut Telling<L>,
) -> Result<(), NoMemory>
    requires in_range { ForSome (option_copied due)
        (IsMomentInRange
        (M.rules.cpus (M.world machine.old)) (M.rules.timers (M.world machine.old))) }
    requires fit { M.Fit resting (M.world machine.old) }
    ensures { PartLeaves
        (Prints (scripted M.rules (option_copied due.entry) (M.world machine.old)))
        (Same M.rules) (M.Fit resting) result
        (M.world machine.old) (M.world machine.new) telling.old telling.new }
{
    let Some(due) = due else {
        return Ok(());
    };
    operations(machine, due.ops.as_slice(), telling)?;
    clear_after(machine, due.ops.as_slice(), telling)?;
    covers(machine, telling)
}

/// One moment, of which the CPUs that have an interrupt are known: it may be handed others than
/// those of the clock.
pub fn moment<M: PlayMachine, J: Jobs, L: Listener>(
    machine: &mut M,
    jobs: &J,
    interrupted: &CpuSet,
    due: Option<&Moment>,
    telling: &mut Telling<L>,
) -> Result<(), NoMemory>
    requires in_range { ForSome (option_copied due)
        (IsMomentInRange
        (M.rules.cpus (M.world machine.old)) (M.rules.timers (M.world machine.old))) }
    requires online { AreOnline M.rules (M.world machine.old) interrupted.now }
    requires fit { M.Fit resting (M.world machine.old) }
    ensures { PartLeaves
        (Prints (moment (J.replies jobs.now) M.rules interrupted.now (option_copied due.entry)
        (M.world machine.old)))
        (Same M.rules) (M.Fit resting) result
        (M.world machine.old) (M.world machine.new) telling.old telling.new }
{
    telling.count();
    interrupts(machine, jobs, interrupted, telling)?;
    scripted(machine, due, telling)
}

/// The script's moment of a time, where these are still to come.
pub fn moment_due(left: &[Moment], now: Jiffy) -> Option<&Moment>
    ensures { option_copied result ≡ moment_at now left.now }
{
    match left {
        [due, ..] if due.at == now => Some(due),
        _ => None,
    }
}

/// The moments that are still to come after a time.
pub fn still_to_come(left: &[Moment], now: Jiffy) -> &[Moment]
    ensures { result.now ≡ moments_after now left.now }
{
    match left {
        [due, rest @ ..] if due.at == now => rest,
        _ => left,
    }
}

/// The moment of a time, which the clock comes to.
fn turn<M: PlayMachine, J: Jobs, L: Listener>(
    machine: &mut M,
    jobs: &J,
    left: &[Moment],
    now: Jiffy,
    telling: &mut Telling<L>,
) -> Result<(), NoMemory>
    requires not_back { M.rules.clock (M.world machine.old) ≤ now }
    requires in_time { now < SCRIPT_TIME_LIMIT }
    requires in_range { All
        (IsMomentInRange
        (M.rules.cpus (M.world machine.old)) (M.rules.timers (M.world machine.old))) left.now }
    requires fit { M.Fit resting (M.world machine.old) }
    ensures clock { OnOk result (M.rules.clock (M.world machine.new) ≡ now) }
    ensures leaves { PartLeaves
        (Prints (turn (J.replies jobs.now) M.rules left.now now (M.world machine.old)).played)
        (SameBuild M.rules) (M.Fit resting) result
        (M.world machine.old) (M.world machine.new) telling.old telling.new }
{
    machine.set_clock(now);
    let interrupted = having_interrupt(machine);
    moment(machine, jobs, &interrupted, moment_due(left, now), telling)
}

/// The moment of a script at a time, where there is one.
fn moment_of(moments: &[Moment], at: Jiffy) -> Option<&Moment>
    ensures { option_copied result ≡ moment_of at moments.now }
{
    let mut left = moments;
    while let [first, rest @ ..] = left {
        if first.at == at {
            return Some(first);
        }
        left = rest;
    }
    None
}

/// One moment of a script into a report, with the interrupts of these CPUs; how many timers were
/// handed out. After want of memory the report is as it was.
pub fn moment_by_itself<M: PlayMachine, J: Jobs>(
    alloc: Global,
    machine: &mut M,
    script: &Script,
    jobs: &J,
    at: Jiffy,
    interrupts: &CpuSet,
    report: &mut Report,
) -> Result<u32, NoMemory>
    requires playable { IsPlayable
        (M.rules.cpus (M.world machine.old)) (M.rules.timers (M.world machine.old)) script.now }
    requires not_back { M.rules.clock (M.world machine.old) ≤ at }
    requires by_end { at ≤ script.now.end }
    requires online { AreOnline M.rules
        (M.rules.at_clock at (M.world machine.old)) interrupts.now }
    requires fit { M.Fit resting (M.world machine.old) }
    ensures plays { IfOk result (λ hand_outs.
        PlaysMoment
        (moment (J.replies jobs.now) M.rules interrupts.now (moment_of at script.now.moments)
        (M.rules.at_clock at (M.world machine.old)))
        report.old report.new hand_outs (M.world machine.new)) }
    ensures clock { OnOk result (M.rules.clock (M.world machine.new) ≡ at) }
    ensures same { OnOk result (SameBuild M.rules (M.world machine.old) (M.world machine.new)) }
    ensures fit { OnOk result (M.Fit resting (M.world machine.new)) }
    ensures err { OnErr result (report.new ≡ report.old) }
{
    machine.set_clock(at);
    let begin = report.text().len();
    let mut telling = Telling::new(mem::replace(report, Report::new(alloc)));
    let due = moment_of(script.moments.as_slice(), at);
    let played = moment(machine, jobs, interrupts, due, &mut telling);
    let runs = telling.tally().runs;
    *report = telling.into_report();
    match played {
        Ok(()) => Ok(runs),
        Err(wanting) => {
            report.truncate(begin);
            Err(wanting)
        }
    }
}

/// When the next moment comes, in jiffies: the next interrupt, the script's next moment or the end.
pub fn moment_after<M: PlayMachine>(machine: &M, left: &[Moment], end: Jiffy) -> Jiffy
    requires { M.rules.clock (M.world machine.now) < SCRIPT_TIME_LIMIT }
    ensures { result ≡ next_moment M.rules end left.now (M.world machine.now) }
{
    let said = match left {
        [next, ..] => next.at,
        [] => end,
    };
    machine.next_interrupt().min(said).max(machine.clock() + 1)
}

/// The moments of a script from jiffy 0 to its end, and how many they are. Where the work has
/// reached the limit after a moment that isn't the last, the play is broken off there with that
/// count.
pub(crate) fn moments<M: PlayMachine, J: Jobs, L: Listener>(
    machine: &mut M,
    jobs: &J,
    script: &Script,
    telling: &mut Telling<L>,
) -> Result<u32, DriveFault>
    requires start { M.rules.clock (M.world machine.old) ≡ 0 }
    requires playable { IsPlayable
        (M.rules.cpus (M.world machine.old)) (M.rules.timers (M.world machine.old)) script.now }
    requires no_work { telling.old.work ≡ 0 }
    requires fit { M.Fit resting (M.world machine.old) }
    ensures whole { OnOk result
        (PlaysOut (work_limit script.now.version)
        (script_turns (J.replies jobs.now) M.rules script.now (M.world machine.old))
        (M.world machine.old)
        telling.old telling.new (M.world machine.new)) }
    ensures count { IfOk result (λ count. count ≡ counted (length
        (script_turns (J.replies jobs.now) M.rules script.now (M.world machine.old)))) }
    ensures fault { IfErr result (λ fault.
        EndsEarly (work_limit script.now.version)
        (script_turns (J.replies jobs.now) M.rules script.now (M.world machine.old)) fault
        telling.old.text telling.new.text) }
    ensures fit { OnOk result (M.Fit resting (M.world machine.new)) }
    ensures gains { Gains telling.old.text telling.new.text }
{
    let limit = work_limit(script.version);
    let mut left = script.moments.as_slice();
    let mut now = 0;
    let mut count: u32 = 0;
    while now < script.end {
        turn(machine, jobs, left, now, telling)?;
        if telling.work() >= limit {
            return Err(DriveFault::WorkSpent {
                count: telling.work(),
            });
        }
        count = count.saturating_add(1);
        left = still_to_come(left, now);
        now = moment_after(machine, left, script.end);
    }
    turn(machine, jobs, left, now, telling)?;
    Ok(count.saturating_add(1))
}

/// How much work a play may have before its last moment, by the version of its script.
pub fn work_limit(version: u8) -> u32
    ensures { result ≡ work_limit version }
{
    if version == 1 {
        WORK_LIMIT_V1
    } else {
        WORK_LIMIT_V2
    }
}
