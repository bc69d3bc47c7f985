//! What is counted in a script's play.

ghost use Rattle.std.specs.Prelude.{◌≡◌, IfErr, IfOk, replicate};
ghost use Rattle.tm_script.specs.Grammar.{IsScript};
ghost use Rattle.tm_script.specs.Texts.{cpu_count};
ghost use Rattle.core_machine.specs.step_play.Rules.Seen.{InPlay, resting};
ghost use Rattle.view_counts.specs.Counts.{no_counts};
ghost use Rattle.view_counts.specs.Wakeups.{counted};
ghost use Rattle.view_stat.specs.Stats.{IsCounted, IsCountedOn, IsMachineFor, IsUncounted};
ghost use Rattle.view_stat.specs.Stats.{IsUncountedOn, watched_start};

use crate::interrupt::Interrupt;
use crate::laws::law_watched;
use crate::machine::Watching;
use core_machine::Player;
use core_plays::start_core;
use job_table::Jobs;
use play_driver::{DriveFault, play_unheard};
use play_rules::PlayMachine;
use std::alloc::Global;
use tm_base::NoMemory;
use tm_script::Script;
use view_counts::{Cause, CpuCounts, Reason, Wakeup, count_wakeups, none_counted};

/// Nothing stands behind a wakeup of so many CPUs.
fn no_reasons(alloc: Global, cpus: u16) -> Result<Vec<Reason>, NoMemory>
    ensures { IfOk result (λ reasons. reasons.items ≡ replicate cpus Reason.NoWakeup) }
{
    let mut reasons = Vec::new(alloc);
    reasons.resize(usize::from(cpus), Reason::NoWakeup)?;
    Ok(reasons)
}

/// The core at the start on a script's machine, of which nothing was counted.
fn watched(alloc: Global, machine: &Script) -> Result<Watching, NoMemory>
    requires { IsScript machine.now }
    ensures start { IfOk result (λ w. record {
      world = w.player;
      cpus = w.cpus.items;
      interrupt = w.interrupt;
      reasons = w.reasons.items;
      wakeups = w.wakeups.items;
    } ≡ watched_start machine.now) }
    ensures in_play { IfOk result (λ w. InPlay resting w.player) }
{
    let core = start_core(alloc, machine)?;
    let player = Player::new(alloc, core);
    let count = player.cpus();
    Ok(Watching {
        cpus: none_counted(alloc, count)?,
        player,
        interrupt: Interrupt {
            idle: false,
            cause: Cause::Nothing,
            queued: 0,
        },
        reasons: no_reasons(alloc, count)?,
        wakeups: Vec::new(alloc),
    })
}

/// What was counted of the CPUs of a play, by ascending CPU, and its wakeups, in order.
#[derive(Drop)]
pub struct Stats {
    pub cpus: Vec<CpuCounts>,
    pub wakeups: Vec<Wakeup>,
}

/// What was counted of a play that has ended.
fn stats_of(watching: Watching) -> Stats
    ensures cpus { result.cpus.items ≡ counted watching.cpus.items watching.wakeups.items }
    ensures wakeups { result.wakeups.items ≡ watching.wakeups.items }
{
    let Watching {
        mut cpus,
        wakeups,
        ..
    } = watching;
    count_wakeups(&mut cpus, &wakeups);
    Stats { cpus, wakeups }
}

/// Plays a script on the core of a machine's start, and answers what was counted of each CPU, by
/// ascending CPU, and the wakeups that were. The refusals are those of `core_plays::summary`.
pub fn stat_on<J: Jobs>(
    alloc: Global,
    machine: &Script,
    script: &Script,
    jobs: &J,
) -> Result<Stats, DriveFault>
    requires script { IsScript script.now }
    requires machine { IsMachineFor script.now machine.now }
    ensures counted { IfOk result (λ stats.
        IsCountedOn (J.replies jobs.now) (J.count jobs.now) machine.now script.now
        stats.cpus.items stats.wakeups.items) }
    ensures fault { IfErr result
        (IsUncountedOn (J.replies jobs.now) (J.count jobs.now) machine.now script.now) }
{
    law_watched();
    let mut watching = watched(alloc, machine)?;
    match play_unheard(&mut watching, script, jobs) {
        Ok(_counts) => Ok(stats_of(watching)),
        Err(fault) => {
            drop(watching);
            Err(fault)
        }
    }
}

/// Plays a script on the core of its own start, and answers what was counted as `stat_on` does.
pub fn stat<J: Jobs>(alloc: Global, script: &Script, jobs: &J) -> Result<Stats, DriveFault>
    requires { IsScript script.now }
    ensures counted { IfOk result (λ stats.
        IsCounted (J.replies jobs.now) (J.count jobs.now) script.now
        stats.cpus.items stats.wakeups.items) }
    ensures fault { IfErr result
        (IsUncounted (J.replies jobs.now) (J.count jobs.now) script.now) }
{
    stat_on(alloc, script, script, jobs)
}
