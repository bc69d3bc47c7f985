//! The moments of a play whose idle CPUs sleep under one broadcast device.

ghost use Rattle.std.specs.Prelude.{◌≡◌, ◌<◌, ◌≤◌, All, IfErr, None, OnOk};
ghost use Rattle.tm_base.specs.declared.limits.TheConstants.{SCRIPT_TIME_LIMIT};
ghost use Rattle.deep_idle.specs.Device.{new_device};
ghost use Rattle.play_rules.specs.Jobs.{first_unknown_job};
ghost use Rattle.play_rules.specs.Machines.{SameBuild};
ghost use Rattle.play_rules.specs.Moments.{turn};
ghost use Rattle.play_rules.specs.Phases.{resting};
ghost use Rattle.play_driver.specs.Conditions.{IsMomentInRange, IsPlayable};
ghost use Rattle.play_driver.specs.PartLeaves.{PartLeaves, Tells};
ghost use Rattle.core_plays.specs.Deep.{device_after, with_device_line};
ghost use Rattle.play_driver.specs.Outcomes.{script_turns, work_limit};
ghost use Rattle.core_plays.specs.Sleepers.{ByWakeups, DeepEarly, DeepOut, DeepWhole, IsFor};
ghost use Rattle.core_plays.specs.Sleepers.{SaysDeep, script_deep};

use crate::devices::{fire_at, interrupted, settle_after};
use deep_idle::Device;
use job_table::Jobs;
use play_driver::{
    DriveFault, Telling, close, first_unknown_job, moment, moment_after, moment_due, still_to_come,
    work_limit,
};
use play_rules::{PlayMachine, UnknownJob};
use std::alloc::Global;
use std::mem;
use tm_base::{Jiffy, NoMemory};
use tm_report::Report;
use tm_script::{Moment, Script};

/// The moment of a time, in which the device fires where it is time, and after which it is settled.
fn deep_turn<M: PlayMachine, J: Jobs>(
    machine: &mut M,
    device: &mut Device,
    jobs: &J,
    left: &[Moment],
    now: Jiffy,
    telling: &mut Telling<Report>,
) -> Result<(), NoMemory>
    requires by_wakeups { ByWakeups M.rules }
    requires not_back { M.rules.clock (M.world machine.old) ≤ now }
    requires in_time { now < SCRIPT_TIME_LIMIT }
    requires in_range { All
        (IsMomentInRange
        (M.rules.cpus (M.world machine.old)) (M.rules.timers (M.world machine.old))) left.now }
    requires fit { M.Fit resting (M.world machine.old) }
    requires device { IsFor M.rules (M.world machine.old) device.old }
    ensures after { OnOk result (device.new ≡ device_after M.rules
        (turn (J.replies jobs.now) M.rules left.now now (M.world machine.old)) device.old) }
    ensures settled { OnOk result (IsFor M.rules (M.world machine.new) device.new) }
    ensures clock { OnOk result (M.rules.clock (M.world machine.new) ≡ now) }
    ensures leaves { PartLeaves
        (Tells (with_device_line M.rules device.old
        (turn (J.replies jobs.now) M.rules left.now now (M.world machine.old))).played)
        (SameBuild M.rules) (M.Fit resting) result
        (M.world machine.old) (M.world machine.new) telling.old telling.new }
{
    let before = device.time();
    machine.set_clock(now);
    let answered = fire_at(device, now);
    let due = interrupted(machine, &answered);
    moment(machine, jobs, &due, moment_due(left, now), telling)?;
    settle_after(machine, device, now, before, telling)
}

/// The moments of a script from jiffy 0 to its end, as `moments` plays them, with the lines of a
/// device.
fn deep_moments<M: PlayMachine, J: Jobs>(
    machine: &mut M,
    device: &mut Device,
    jobs: &J,
    script: &Script,
    telling: &mut Telling<Report>,
) -> Result<(), DriveFault>
    requires by_wakeups { ByWakeups M.rules }
    requires start { M.rules.clock (M.world machine.old) ≡ 0 }
    requires playable { IsPlayable
        (M.rules.cpus (M.world machine.old)) (M.rules.timers (M.world machine.old)) script.now }
    requires no_work { telling.old.work ≡ 0 }
    requires fit { M.Fit resting (M.world machine.old) }
    requires device { IsFor M.rules (M.world machine.old) device.old }
    ensures whole { OnOk result
        (DeepOut (work_limit script.now.version)
        (script_turns (J.replies jobs.now) M.rules script.now (M.world machine.old))
        (script_deep (J.replies jobs.now) M.rules script.now device.old (M.world machine.old))
        (M.world machine.old) telling.old.text telling.new.text (M.world machine.new)) }
    ensures fault { IfErr result (λ fault.
        DeepEarly (work_limit script.now.version)
        (script_turns (J.replies jobs.now) M.rules script.now (M.world machine.old))
        (script_deep (J.replies jobs.now) M.rules script.now device.old (M.world machine.old))
        fault telling.old.text telling.new.text) }
{
    let limit = work_limit(script.version);
    let mut left = script.moments.as_slice();
    let mut now = 0;
    while now < script.end {
        deep_turn(machine, device, jobs, left, now, telling)?;
        if telling.work() >= limit {
            return Err(DriveFault::WorkSpent {
                count: telling.work(),
            });
        }
        left = still_to_come(left, now);
        now = moment_after(machine, left, script.end);
    }
    deep_turn(machine, device, jobs, left, now, telling)?;
    Ok(())
}

/// The moments of a script under a device for the machine's CPUs, of which none sleeps, and what is
/// left at its end.
fn deep_known<M: PlayMachine, J: Jobs>(
    alloc: Global,
    machine: &mut M,
    script: &Script,
    jobs: &J,
    telling: &mut Telling<Report>,
) -> Result<(), DriveFault>
    requires by_wakeups { ByWakeups M.rules }
    requires start { M.rules.clock (M.world machine.old) ≡ 0 }
    requires playable { IsPlayable
        (M.rules.cpus (M.world machine.old)) (M.rules.timers (M.world machine.old)) script.now }
    requires no_work { telling.old.work ≡ 0 }
    requires fit { M.Fit resting (M.world machine.old) }
    requires awake { IsFor M.rules (M.world machine.old)
        (new_device (M.rules.cpus (M.world machine.old))) }
    ensures whole { OnOk result
        (DeepWhole M.rules (J.replies jobs.now) script.now
        (new_device (M.rules.cpus (M.world machine.old))) (M.world machine.old)
        telling.old.text telling.new.text) }
    ensures fault { IfErr result (λ fault.
        DeepEarly (work_limit script.now.version)
        (script_turns (J.replies jobs.now) M.rules script.now (M.world machine.old))
        (script_deep (J.replies jobs.now) M.rules script.now
        (new_device (M.rules.cpus (M.world machine.old))) (M.world machine.old))
        fault telling.old.text telling.new.text) }
{
    let mut device = Device::new(alloc, machine.cpus())?;
    deep_moments(machine, &mut device, jobs, script, telling)?;
    close(machine, script.end, telling)?;
    Ok(())
}

/// Plays a script on a machine that stands at its start, as `play_on` does, with a device.
pub(crate) fn deep_on<M: PlayMachine, J: Jobs>(
    alloc: Global,
    machine: &mut M,
    script: &Script,
    jobs: &J,
    report: &mut Report,
) -> Result<(), DriveFault>
    requires by_wakeups { ByWakeups M.rules }
    requires start { M.rules.clock (M.world machine.old) ≡ 0 }
    requires playable { IsPlayable
        (M.rules.cpus (M.world machine.old)) (M.rules.timers (M.world machine.old)) script.now }
    requires fit { M.Fit resting (M.world machine.old) }
    requires awake { IsFor M.rules (M.world machine.old)
        (new_device (M.rules.cpus (M.world machine.old))) }
    ensures known { OnOk result (first_unknown_job (J.count jobs.now) script.now.moments ≡ None) }
    ensures whole { OnOk result
        (DeepWhole M.rules (J.replies jobs.now) script.now
        (new_device (M.rules.cpus (M.world machine.old))) (M.world machine.old)
        report.old report.new) }
    ensures fault { IfErr result (λ fault.
        SaysDeep M.rules (J.replies jobs.now) (J.count jobs.now) script.now
        (new_device (M.rules.cpus (M.world machine.old))) (M.world machine.old) fault
        report.old report.new) }
{
    if let Some(UnknownJob { line, job }) = first_unknown_job(script, jobs) {
        return Err(DriveFault::BadJob { line, job });
    }
    let begin = report.text().len();
    let mut telling = Telling::new(mem::replace(report, Report::new(alloc)));
    let played = deep_known(alloc, machine, script, jobs, &mut telling);
    *report = telling.into_report();
    match played {
        Err(DriveFault::NoMemory) => {
            report.truncate(begin);
            Err(DriveFault::NoMemory)
        }
        told => told,
    }
}
