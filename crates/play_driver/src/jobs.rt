//! Draining a base and running the jobs of what was due.

ghost use Rattle.std.specs.Prelude.{◌≡◌, ◌<◌, All, IfOk, OnOk};
ghost use Rattle.play_rules.specs.Interrupts.{again, drain, reply_to, run_job, run_jobs};
ghost use Rattle.play_rules.specs.Machines.{IsTimerOf, Same, SameOnline};
ghost use Rattle.play_rules.specs.Phases.{FitsSome, MayDrain, MayRunIn, StaysFit};
ghost use Rattle.play_rules.specs.Parts.{Prints};
ghost use Rattle.play_driver.specs.PartLeaves.{PartLeaves, SameInside};

use crate::listeners::Listener;
use crate::telling::Telling;
use job_table::{JobCall, JobReply, Jobs};
use play_rules::{Arming, PlayMachine};
use tm_base::{Class, CpuId, NoMemory, TimerId};
use tm_report::{Line, ShownReply};
use wheel_core::Item;

/// A job asks for its timer again: it is armed on the runner, unless it is queued by then.
fn arm_again<M: PlayMachine>(
    machine: &mut M,
    runner: CpuId,
    item: Item,
    class: Class,
    delay: u32,
) -> Result<ShownReply, NoMemory>
    requires runner { runner.0 < M.rules.cpus (M.world machine.old) }
    requires timer { IsTimerOf (M.rules.timers (M.world machine.old)) item }
    requires fit { FitsSome M.Fit (λ ph. MayRunIn ph runner.0) (M.world machine.old) }
    ensures reply { IfOk result (λ shown.
        shown ≡ (again M.rules
        (M.rules.queued (M.world machine.old) item.id) runner.0 item class delay
        (M.world machine.old)).reply) }
    ensures state { OnOk result (M.world machine.new ≡
        (again M.rules (M.rules.queued (M.world machine.old) item.id) runner.0 item class delay
        (M.world machine.old)).state) }
    ensures same { OnOk result (Same M.rules (M.world machine.old) (M.world machine.new)) }
    ensures fit { OnOk result
        (StaysFit M.Fit (λ ph. MayRunIn ph runner.0) (M.world machine.old) (M.world machine.new)) }
    ensures online { OnOk result (SameOnline M.rules (M.world machine.old) (M.world machine.new)) }
{
    let timer = TimerId(item.id as u16);
    if let Some(cpu) = machine.holder(timer) {
        return Ok(ShownReply::Skip { cpu });
    }
    let arming = Arming {
        timer,
        class,
        delay,
        job: item.job,
        arg: item.arg,
        line: 0,
    };
    let wheel = machine.arm(runner, arming)?;
    Ok(ShownReply::Again { class, wheel })
}

/// Runs the job of an item that was taken out, and answers what a line shows of its reply.
fn reply_to<M: PlayMachine, J: Jobs>(
    machine: &mut M,
    jobs: &J,
    runner: CpuId,
    item: Item,
) -> Result<ShownReply, NoMemory>
    requires runner { runner.0 < M.rules.cpus (M.world machine.old) }
    requires timer { IsTimerOf (M.rules.timers (M.world machine.old)) item }
    requires fit { FitsSome M.Fit (λ ph. MayRunIn ph runner.0) (M.world machine.old) }
    ensures reply { IfOk result (λ shown.
        shown ≡ (reply_to (J.replies jobs.now) M.rules runner.0 item (M.world machine.old)).reply) }
    ensures state { OnOk result (M.world machine.new ≡
        (reply_to (J.replies jobs.now) M.rules runner.0 item (M.world machine.old)).state) }
    ensures same { OnOk result (Same M.rules (M.world machine.old) (M.world machine.new)) }
    ensures fit { OnOk result
        (StaysFit M.Fit (λ ph. MayRunIn ph runner.0) (M.world machine.old) (M.world machine.new)) }
    ensures online { OnOk result (SameOnline M.rules (M.world machine.old) (M.world machine.new)) }
{
    let call = JobCall {
        timer: TimerId(item.id as u16),
        arg: item.arg,
        now: machine.clock(),
        runner,
    };
    match jobs.run(item.job, &call) {
        JobReply::Done => Ok(ShownReply::Done),
        JobReply::Mark(n) => Ok(ShownReply::Mark(n)),
        JobReply::Again { class, delay } => arm_again(machine, runner, item, class, delay),
    }
}

/// The job of an item of CPU `home` runs on CPU `runner`, with its line.
#[inline(never)]
fn run_job<M: PlayMachine, J: Jobs, L: Listener>(
    machine: &mut M,
    jobs: &J,
    home: CpuId,
    runner: CpuId,
    item: Item,
    telling: &mut Telling<L>,
) -> Result<(), NoMemory>
    requires runner { runner.0 < M.rules.cpus (M.world machine.old) }
    requires timer { IsTimerOf (M.rules.timers (M.world machine.old)) item }
    requires fit { FitsSome M.Fit (λ ph. MayRunIn ph runner.0) (M.world machine.old) }
    ensures { PartLeaves
        (Prints (run_job (J.replies jobs.now) M.rules home.0 runner.0 item (M.world machine.old)))
        (SameInside M.rules)
        (StaysFit M.Fit (λ ph. MayRunIn ph runner.0) (M.world machine.old)) result
        (M.world machine.old) (M.world machine.new) telling.old telling.new }
{
    let now = machine.clock();
    let reply = reply_to(machine, jobs, runner, item)?;
    telling.count();
    telling.tell(&Line::Run {
        now,
        runner,
        timer: TimerId(item.id as u16),
        home,
        wheel: item.wheel,
        reply,
    })
}

/// The jobs of the items that were taken out of a base of CPU `home` run on CPU `runner`, in that
/// order.
#[inline(always)]
fn run_jobs<M: PlayMachine, J: Jobs, L: Listener>(
    machine: &mut M,
    jobs: &J,
    home: CpuId,
    runner: CpuId,
    items: &[Item],
    telling: &mut Telling<L>,
) -> Result<(), NoMemory>
    requires runner { runner.0 < M.rules.cpus (M.world machine.old) }
    requires timers { All (IsTimerOf (M.rules.timers (M.world machine.old))) items.now }
    requires fit { FitsSome M.Fit (λ ph. MayRunIn ph runner.0) (M.world machine.old) }
    ensures { PartLeaves
        (Prints (run_jobs (J.replies jobs.now) M.rules home.0 runner.0 items.now
        (M.world machine.old)))
        (SameInside M.rules)
        (StaysFit M.Fit (λ ph. MayRunIn ph runner.0) (M.world machine.old)) result
        (M.world machine.old) (M.world machine.new) telling.old telling.new }
{
    for item in items {
        run_job(machine, jobs, home, runner, *item, telling)?;
    }
    Ok(())
}

/// All that is due of a base of CPU `home` is taken out, and then its jobs run on CPU `runner`.
#[inline(always)]
pub(crate) fn drain<M: PlayMachine, J: Jobs, L: Listener>(
    machine: &mut M,
    jobs: &J,
    home: CpuId,
    class: Class,
    runner: CpuId,
    telling: &mut Telling<L>,
) -> Result<(), NoMemory>
    requires home { home.0 < M.rules.cpus (M.world machine.old) }
    requires runner { runner.0 < M.rules.cpus (M.world machine.old) }
    requires fit { FitsSome M.Fit (λ ph. MayDrain ph home.0 class runner.0) (M.world machine.old) }
    ensures { PartLeaves
        (Prints (drain (J.replies jobs.now) M.rules home.0 class runner.0 (M.world machine.old)))
        (SameInside M.rules)
        (StaysFit M.Fit (λ ph. MayDrain ph home.0 class runner.0) (M.world machine.old)) result
        (M.world machine.old) (M.world machine.new) telling.old telling.new }
{
    let items = machine.drain(home, class, runner)?;
    run_jobs(machine, jobs, home, runner, items.as_slice(), telling)
}
