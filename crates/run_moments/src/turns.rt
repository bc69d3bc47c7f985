//! A moment of a run: what it asks before it is played, and its play where it is plain.

ghost use Rattle.std.specs.Prelude.{◌≡◌, ◌<◌, ◌≤◌, IfOk, OnOk, length};
ghost use Rattle.std.specs.Option.{ForSome, option_copied};
ghost use Rattle.tm_base.specs.declared.limits.TheConstants.{CPU_SET_SIZE, SCRIPT_TIME_LIMIT};
ghost use Rattle.tm_script.specs.Grammar.{IsScript};
ghost use Rattle.play_rules.specs.Interrupts.{having_interrupt};
ghost use Rattle.play_rules.specs.Machines.{Same};
ghost use Rattle.play_rules.specs.Moments.{closing, moment, next_moment};
ghost use Rattle.play_rules.specs.Parts.{Gains, Prints, lines_told};
ghost use Rattle.run_plain.specs.Plain.{by_cpus};
ghost use Rattle.run_plain.specs.step_play.Rules.Seen.{InRun, resting};
ghost use Rattle.run_plain.specs.step_play.Rules.StepRules.{step_rules};
ghost use Rattle.run_plain.specs.step_play.SamePlay.{core_start};
ghost use Rattle.run_plain.specs.run_story.Stories.{count_due, is_hotplug, is_plain, ops_of};
ghost use Rattle.play_driver.specs.Conditions.{AreOnline, IsMomentInRange};
ghost use Rattle.play_driver.specs.PartLeaves.{PartLeaves, Tells};

use core_plays::{RunPlayer, start_core};
use job_table::Jobs;
use play_driver::{Telling, having_interrupt};
use play_rules::PlayMachine;
use std::alloc::Global;
use tm_base::{CpuId, CpuSet, Jiffy, NoMemory};
use tm_report::Report;
use tm_script::{Moment, Op, Script, What};
use wheel_base::WheelBase;

/// The core at the start of a script, which is to run it.
pub(crate) fn started(alloc: Global, script: &Script) -> Result<RunPlayer<WheelBase>, NoMemory>
    requires { IsScript script.now }
    ensures start { IfOk result (λ player. player ≡ core_start script.now) }
    ensures in_run { IfOk result (InRun resting) }
{
    let core = start_core(alloc, script)?;
    Ok(RunPlayer::new(alloc, core))
}

/// How many CPUs there are.
pub(crate) fn cpu_count(player: &RunPlayer<WheelBase>) -> u16
    ensures count { result ≡ length player.now.cpus }
    ensures few { result ≤ CPU_SET_SIZE }
{
    player.cpus()
}

/// Brings the clock to a moment, and answers the CPUs that have an interrupt in it.
pub(crate) fn come_to(player: &mut RunPlayer<WheelBase>, now: Jiffy) -> CpuSet
    requires not_back { player.old.clock ≤ now }
    requires in_time { now < SCRIPT_TIME_LIMIT }
    requires fit { InRun resting player.old }
    ensures set { result ≡ having_interrupt step_rules player.new }
    ensures online { AreOnline step_rules player.new result }
    ensures fit { InRun resting player.new }
    ensures state { player.new ≡ step_rules.at_clock now player.old }
    ensures clock { player.new.clock ≡ now }
    ensures timers { player.new.timers ≡ player.old.timers }
    ensures cpus { length player.new.cpus ≡ length player.old.cpus }
{
    player.set_clock(now);
    having_interrupt(player)
}

/// The operations that the script has for a moment.
pub(crate) fn ops_of(m: Option<&Moment>) -> &[Op]
    ensures { result.now ≡ ops_of (option_copied m.entry) }
{
    match m {
        Some(moment) => moment.ops.as_slice(),
        None => &[],
    }
}

/// Whether an operation takes a CPU offline or online.
fn is_hotplug(op: &Op) -> bool
    ensures { result ≡ is_hotplug op.now.what }
{
    matches!(op.what, What::Offline | What::Online)
}

/// How many of so many CPUs are due an interrupt.
pub(crate) fn count_due(cpus: u16, due: &CpuSet) -> u16
    requires { cpus ≤ CPU_SET_SIZE }
    ensures count { result ≡ count_due cpus due.now }
    ensures few { result ≤ cpus }
{
    let mut count = 0;
    for cpu in 0..cpus {
        count += u16::from(due.has(CpuId(cpu)));
    }
    count
}

/// Whether a moment is played without threads: it has an operation that takes a CPU offline or
/// online, or no operation and at most one interrupt.
pub(crate) fn is_plain(cpus: u16, due: &CpuSet, ops: &[Op]) -> bool
    requires { cpus ≤ CPU_SET_SIZE }
    ensures { result ≡ is_plain cpus due.now ops.now }
{
    if ops.iter().any(|op| is_hotplug(op)) {
        return true;
    }
    ops.is_empty() && count_due(cpus, due) <= 1
}

/// A plain moment of a run, of which the CPUs that have an interrupt are known, on the core that
/// the clock has come to it. After want of memory the core may stand anywhere within the moment.
pub(crate) fn plain_moment<J: Jobs>(
    alloc: Global,
    player: &mut RunPlayer<WheelBase>,
    jobs: &J,
    due: &CpuSet,
    m: Option<&Moment>,
    telling: &mut Telling<Report>,
) -> Result<(), NoMemory>
    requires in_range { ForSome (option_copied m)
        (IsMomentInRange (length player.old.cpus) player.old.timers) }
    requires online { AreOnline step_rules player.old due.now }
    requires fit { InRun resting player.old }
    ensures { PartLeaves
        (Tells (by_cpus (length player.old.cpus)
        (moment (J.replies jobs.now) step_rules due.now (option_copied m.entry) player.old)))
        (Same step_rules) (InRun resting) result
        player.old player.new telling.old telling.new }
{
    run_plain::plain_moment(alloc, player, jobs, due, m, telling)
}

/// When the next moment of a run comes, in jiffies: the next interrupt, the script's next moment or
/// the end.
pub(crate) fn moment_after(player: &RunPlayer<WheelBase>, left: &[Moment], end: Jiffy) -> Jiffy
    requires { player.now.clock < SCRIPT_TIME_LIMIT }
    ensures { result ≡ next_moment step_rules end left.now player.now }
{
    play_driver::moment_after(player, left, end)
}

/// The last lines of a run: the timers that are still queued, and the end.
pub(crate) fn close(
    player: &RunPlayer<WheelBase>,
    end: Jiffy,
    telling: &mut Telling<Report>,
) -> Result<(), NoMemory>
    ensures prints { OnOk result
        (Prints (lines_told (closing step_rules end player.now) player.now)
        telling.old telling.new player.now) }
    ensures gains { Gains telling.old.text telling.new.text }
{
    play_driver::close(player, end, telling)
}
