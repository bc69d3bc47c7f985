//! Playing a script from its start to its end.

ghost use Rattle.std.specs.Prelude.{◌≡◌, [], IfErr, IfOk, OnOk, length};
ghost use Rattle.play_rules.specs.Jobs.{first_unknown_job, unknown_in_ops, unknown_job_of};
ghost use Rattle.play_rules.specs.Parts.{Gains, counted};
ghost use Rattle.play_rules.specs.Phases.{resting};
ghost use Rattle.play_driver.specs.Conditions.{IsPlayable};
ghost use Rattle.play_driver.specs.Outcomes.{EndsEarly, ForSomeText, PlaysWhole, SaysFault};
ghost use Rattle.play_driver.specs.Outcomes.{TellsAll, script_turns, work_limit};

use crate::closing::close;
use crate::listeners::{Listener, NoReport};
use crate::moments::moments;
use crate::outcomes::{Counts, DriveFault};
use crate::telling::Telling;
use job_table::Jobs;
use play_rules::{PlayMachine, UnknownJob};
use std::alloc::Global;
use std::mem;
use tm_report::Report;
use tm_script::{Moment, Op, Script, What};

/// The job of an operation, where the table hasn't it.
fn unknown_job<J: Jobs>(op: &Op, jobs: &J) -> Option<UnknownJob>
    ensures { result ≡ unknown_job_of (J.count jobs.now) op.now }
{
    match op.what {
        What::Arm { job, .. } if usize::from(job) >= jobs.len() => Some(UnknownJob {
            line: op.line,
            job,
        }),
        _ => None,
    }
}

/// The first operation of a moment that names a job which the table hasn't.
fn unknown_in_moment<J: Jobs>(moment: &Moment, jobs: &J) -> Option<UnknownJob>
    ensures { result ≡ unknown_in_ops (J.count jobs.now) moment.now.ops }
{
    for op in moment.ops.as_slice() {
        if let Some(unknown) = unknown_job(op, jobs) {
            return Some(unknown);
        }
    }
    None
}

/// The first operation of a script that names a job which the table hasn't.
pub fn first_unknown_job<J: Jobs>(script: &Script, jobs: &J) -> Option<UnknownJob>
    ensures { result ≡ first_unknown_job (J.count jobs.now) script.now.moments }
{
    for moment in script.moments.as_slice() {
        if let Some(unknown) = unknown_in_moment(moment, jobs) {
            return Some(unknown);
        }
    }
    None
}

/// The moments of a script, of which there are so many, and what is left at its end.
fn play_known<M: PlayMachine, J: Jobs, L: Listener>(
    machine: &mut M,
    script: &Script,
    jobs: &J,
    telling: &mut Telling<L>,
) -> Result<u32, DriveFault>
    requires start { M.rules.clock (M.world machine.old) ≡ 0 }
    requires playable { IsPlayable
        (M.rules.cpus (M.world machine.old)) (M.rules.timers (M.world machine.old)) script.now }
    requires no_work { telling.old.work ≡ 0 }
    requires fit { M.Fit resting (M.world machine.old) }
    ensures whole { OnOk result
        (TellsAll M.rules (J.replies jobs.now) script.now (M.world machine.old)
        telling.old telling.new (M.world machine.new)) }
    ensures count { IfOk result (λ count. count ≡ counted (length
        (script_turns (J.replies jobs.now) M.rules script.now (M.world machine.old)))) }
    ensures fault { IfErr result (λ fault.
        EndsEarly (work_limit script.now.version)
        (script_turns (J.replies jobs.now) M.rules script.now (M.world machine.old)) fault
        telling.old.text telling.new.text) }
    ensures fit { OnOk result (M.Fit resting (M.world machine.new)) }
    ensures gains { Gains telling.old.text telling.new.text }
{
    let count = moments(machine, jobs, script, telling)?;
    close(machine, script.end, telling)?;
    Ok(count)
}

/// Plays a script on a machine that stands at its start, into a report, and answers how many
/// moments and lines there were. After `BadJob` and want of memory the report is as it was; after
/// `WorkSpent` it has gained the lines of the finished moments.
pub fn play_on<M: PlayMachine, J: Jobs>(
    alloc: Global,
    machine: &mut M,
    script: &Script,
    jobs: &J,
    report: &mut Report,
) -> Result<Counts, DriveFault>
    requires start { M.rules.clock (M.world machine.old) ≡ 0 }
    requires playable { IsPlayable
        (M.rules.cpus (M.world machine.old)) (M.rules.timers (M.world machine.old)) script.now }
    requires fit { M.Fit resting (M.world machine.old) }
    ensures whole { IfOk result (λ counts.
        PlaysWhole M.rules (J.replies jobs.now) (J.count jobs.now) script.now (M.world machine.old)
        report.old report.new counts (M.world machine.new)) }
    ensures fault { IfErr result (λ fault.
        SaysFault M.rules (J.replies jobs.now) (J.count jobs.now) script.now
        (M.world machine.old) fault
        report.old report.new) }
    ensures fit { OnOk result (M.Fit resting (M.world machine.new)) }
{
    if let Some(UnknownJob { line, job }) = first_unknown_job(script, jobs) {
        return Err(DriveFault::BadJob { line, job });
    }
    let begin = report.text().len();
    let mut telling = Telling::new(mem::replace(report, Report::new(alloc)));
    let played = play_known(machine, script, jobs, &mut telling);
    let lines = telling.tally();
    *report = telling.into_report();
    match played {
        Ok(moments) => Ok(Counts { moments, lines }),
        Err(DriveFault::NoMemory) => {
            report.truncate(begin);
            Err(DriveFault::NoMemory)
        }
        Err(fault) => Err(fault),
    }
}

/// Plays a script as `play_on` does, but with no report.
pub fn play_unheard<M: PlayMachine, J: Jobs>(
    machine: &mut M,
    script: &Script,
    jobs: &J,
) -> Result<Counts, DriveFault>
    requires start { M.rules.clock (M.world machine.old) ≡ 0 }
    requires playable { IsPlayable
        (M.rules.cpus (M.world machine.old)) (M.rules.timers (M.world machine.old)) script.now }
    requires fit { M.Fit resting (M.world machine.old) }
    ensures whole { IfOk result (λ counts. ForSomeText (λ new.
        PlaysWhole M.rules (J.replies jobs.now) (J.count jobs.now) script.now (M.world machine.old)
        [] new counts (M.world machine.new))) }
    ensures fault { IfErr result (λ fault. ForSomeText (λ new.
        SaysFault M.rules (J.replies jobs.now) (J.count jobs.now) script.now
        (M.world machine.old) fault [] new)) }
{
    if let Some(UnknownJob { line, job }) = first_unknown_job(script, jobs) {
        return Err(DriveFault::BadJob { line, job });
    }
    let mut telling = Telling::new(NoReport::new());
    let moments = play_known(machine, script, jobs, &mut telling)?;
    Ok(Counts {
        moments,
        lines: telling.tally(),
    })
}
