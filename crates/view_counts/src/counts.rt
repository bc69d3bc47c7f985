//! What is counted of a CPU.

ghost use Rattle.std.specs.Prelude.{◌≡◌, IfOk, length, replicate};
ghost use Rattle.view_counts.specs.Counts.{at_cpu, lived, ran_for, run_by, was_awake};
ghost use Rattle.view_counts.specs.Counts.{no_counts, slept, was_asleep, was_offline, woke, woken_for};

use std::alloc::Global;
use tm_base::{CpuId, NoMemory};

/// What a wakeup is for: the first of these that applies.
#[derive(Clone, Copy)]
pub enum Cause {
    /// A pinned timer of its own is due.
    Pinned,
    /// A global timer of its own is.
    Global,
    /// It runs timers of other CPUs.
    Others,
    /// A deferrable timer of its own is due, which didn't wake it.
    Deferrable,
    /// It runs nothing.
    Nothing,
}

/// What was counted of a CPU. Times are in jiffies; each number stands still at 2^64 - 1.
#[derive(Clone, Copy)]
pub struct CpuCounts {
    /// How long it was online and active.
    pub awake: u64,
    /// How long it was online and idle.
    pub asleep: u64,
    /// How long it was offline.
    pub offline: u64,
    /// How long the sleep is that is under way: from going idle or the last wakeup on.
    pub sleep: u64,
    /// The longest sleep.
    pub longest: u64,
    /// Interrupts that found it idle.
    pub wakeups: u64,
    /// Wakeups for pinned timers of its own.
    pub pinned: u64,
    /// Wakeups for global timers of its own.
    pub global: u64,
    /// Wakeups for timers of other CPUs.
    pub others: u64,
    /// Wakeups in which it ran deferrable timers alone.
    pub deferrable: u64,
    /// Wakeups for nothing.
    pub nothing: u64,
    /// Timers of other CPUs that it ran.
    pub runs_for: u64,
    /// Timers of its own that other CPUs ran.
    pub runs_by: u64,
    /// For each of its groups, how long it was migrator of it and awake, added up.
    pub migrator: u64,
}

/// A CPU was asleep for so long.
fn was_asleep(counts: CpuCounts, jiffies: u64) -> CpuCounts
    ensures { result ≡ was_asleep jiffies counts }
{
    let sleep = counts.sleep.saturating_add(jiffies);
    CpuCounts {
        asleep: counts.asleep.saturating_add(jiffies),
        sleep,
        longest: counts.longest.max(sleep),
        ..counts
    }
}

/// A CPU was awake for so long, and migrator of so many groups.
fn was_awake(counts: CpuCounts, jiffies: u64, groups: u64) -> CpuCounts
    ensures { result ≡ was_awake jiffies groups counts }
{
    CpuCounts {
        awake: counts.awake.saturating_add(jiffies),
        sleep: 0,
        migrator: counts
            .migrator
            .saturating_add(groups.saturating_mul(jiffies)),
        ..counts
    }
}

/// A CPU was offline for so long.
fn was_offline(counts: CpuCounts, jiffies: u64) -> CpuCounts
    ensures { result ≡ was_offline jiffies counts }
{
    CpuCounts {
        offline: counts.offline.saturating_add(jiffies),
        sleep: 0,
        ..counts
    }
}

/// So many jiffies went by for a CPU, which is migrator of so many groups.
fn lived(counts: CpuCounts, online: bool, idle: bool, jiffies: u64, groups: u64) -> CpuCounts
    ensures { result ≡ lived online idle jiffies groups counts }
{
    if !online {
        return was_offline(counts, jiffies);
    }
    if idle {
        return was_asleep(counts, jiffies);
    }
    was_awake(counts, jiffies, groups)
}

/// A wakeup counts by its cause.
fn woken_for(counts: CpuCounts, cause: Cause) -> CpuCounts
    ensures { result ≡ woken_for cause counts }
{
    match cause {
        Cause::Pinned => CpuCounts {
            pinned: counts.pinned.saturating_add(1),
            ..counts
        },
        Cause::Global => CpuCounts {
            global: counts.global.saturating_add(1),
            ..counts
        },
        Cause::Others => CpuCounts {
            others: counts.others.saturating_add(1),
            ..counts
        },
        Cause::Deferrable => CpuCounts {
            deferrable: counts.deferrable.saturating_add(1),
            ..counts
        },
        Cause::Nothing => CpuCounts {
            nothing: counts.nothing.saturating_add(1),
            ..counts
        },
    }
}

/// A CPU woke, and its sleep is over.
fn woke(counts: CpuCounts, cause: Cause) -> CpuCounts
    ensures { result ≡ woke cause counts }
{
    let counts = woken_for(counts, cause);
    CpuCounts {
        wakeups: counts.wakeups.saturating_add(1),
        sleep: 0,
        ..counts
    }
}

/// So many jiffies went by for a CPU of a list, which is migrator of so many groups.
pub fn lived_at(
    cpus: &mut Vec<CpuCounts>,
    cpu: CpuId,
    online: bool,
    idle: bool,
    jiffies: u64,
    groups: u64,
)
    ensures { cpus.new.items ≡
        at_cpu cpu.0 (lived online idle jiffies groups) cpus.old.items }
{
    let at = usize::from(cpu.0);
    if at < cpus.len() {
        cpus[at] = lived(cpus[at], online, idle, jiffies, groups);
    }
}

/// The sleep of a CPU of a list is over.
pub fn slept_at(cpus: &mut Vec<CpuCounts>, cpu: CpuId)
    ensures { cpus.new.items ≡ at_cpu cpu.0 slept cpus.old.items }
{
    let at = usize::from(cpu.0);
    if at < cpus.len() {
        cpus[at] = CpuCounts {
            sleep: 0,
            ..cpus[at]
        };
    }
}

/// A CPU of a list woke.
pub fn woke_at(cpus: &mut Vec<CpuCounts>, cpu: CpuId, cause: Cause)
    ensures { cpus.new.items ≡ at_cpu cpu.0 (woke cause) cpus.old.items }
{
    let at = usize::from(cpu.0);
    if at < cpus.len() {
        cpus[at] = woke(cpus[at], cause);
    }
}

/// A CPU of a list ran so many timers of other CPUs.
pub fn ran_for_at(cpus: &mut Vec<CpuCounts>, cpu: CpuId, count: u64)
    ensures { cpus.new.items ≡ at_cpu cpu.0 (ran_for count) cpus.old.items }
{
    let at = usize::from(cpu.0);
    if at < cpus.len() {
        let counts = cpus[at];
        cpus[at] = CpuCounts {
            runs_for: counts.runs_for.saturating_add(count),
            ..counts
        };
    }
}

/// So many timers of a CPU of a list were run by another.
pub fn run_by_at(cpus: &mut Vec<CpuCounts>, cpu: CpuId, count: u64)
    ensures { cpus.new.items ≡ at_cpu cpu.0 (run_by count) cpus.old.items }
{
    let at = usize::from(cpu.0);
    if at < cpus.len() {
        let counts = cpus[at];
        cpus[at] = CpuCounts {
            runs_by: counts.runs_by.saturating_add(count),
            ..counts
        };
    }
}

/// Nothing was counted of a CPU.
pub fn no_counts() -> CpuCounts
    ensures { result ≡ no_counts }
{
    CpuCounts {
        awake: 0,
        asleep: 0,
        offline: 0,
        sleep: 0,
        longest: 0,
        wakeups: 0,
        pinned: 0,
        global: 0,
        others: 0,
        deferrable: 0,
        nothing: 0,
        runs_for: 0,
        runs_by: 0,
        migrator: 0,
    }
}

/// Nothing was counted of so many CPUs.
pub fn none_counted(alloc: Global, cpus: u16) -> Result<Vec<CpuCounts>, NoMemory>
    ensures { IfOk result (λ counts. counts.items ≡ replicate cpus no_counts) }
{
    let mut counts = Vec::new(alloc);
    counts.resize(usize::from(cpus), no_counts())?;
    Ok(counts)
}
