//! The interrupts of a moment.

ghost use Rattle.std.specs.Prelude.{◌≡◌, ◌<◌, true};
ghost use Rattle.std.specs.FinSet as set;
ghost use Rattle.play_rules.specs.Interrupts.{drains, having_interrupt, interrupt, interrupt_where};
ghost use Rattle.play_rules.specs.Interrupts.{interrupts, look, looks, try};
ghost use Rattle.play_rules.specs.Machines.{Same};
ghost use Rattle.play_rules.specs.Parts.{Prints};
ghost use Rattle.play_rules.specs.Phases.{inside, resting};
ghost use Rattle.play_driver.specs.Conditions.{AreOnline};
ghost use Rattle.play_driver.specs.PartLeaves.{PartLeaves, SameInside};

use crate::jobs::drain;
use crate::listeners::Listener;
use crate::telling::Telling;
use job_table::Jobs;
use play_rules::PlayMachine;
use tm_base::{Class, CpuId, CpuSet, NoMemory};

/// A look tries a CPU that it named: it leaves it alone, or runs its due global timers.
fn try_one<M: PlayMachine, J: Jobs, L: Listener>(
    machine: &mut M,
    jobs: &J,
    cpu: CpuId,
    other: CpuId,
    telling: &mut Telling<L>,
) -> Result<(), NoMemory>
    requires cpu { cpu.0 < M.rules.cpus (M.world machine.old) }
    requires other { other.0 < M.rules.cpus (M.world machine.old) }
    requires placed { M.rules.is_placed (M.world machine.old) cpu.0 ≡ true }
    requires fit { M.Fit (inside cpu.0) (M.world machine.old) }
    ensures { PartLeaves
        (Prints (try (J.replies jobs.now) M.rules cpu.0 other.0 (M.world machine.old)))
        (SameInside M.rules) (M.Fit (inside cpu.0)) result
        (M.world machine.old) (M.world machine.new) telling.old telling.new }
{
    if !machine.takes(cpu, other) {
        return Ok(());
    }
    machine.take(cpu, other);
    drain(machine, jobs, other, Class::Global, cpu, telling)?;
    machine.let_go(cpu, other);
    Ok(())
}

/// The look of a CPU at its group of a level: it tries one CPU after the other, as long as one is
/// named.
fn look<M: PlayMachine, J: Jobs, L: Listener>(
    machine: &mut M,
    jobs: &J,
    cpu: CpuId,
    level: u8,
    telling: &mut Telling<L>,
) -> Result<(), NoMemory>
    requires cpu { cpu.0 < M.rules.cpus (M.world machine.old) }
    requires placed { M.rules.is_placed (M.world machine.old) cpu.0 ≡ true }
    requires fit { M.Fit (inside cpu.0) (M.world machine.old) }
    ensures { PartLeaves
        (Prints (look (J.replies jobs.now) M.rules (M.rules.cpus (M.world machine.old)) cpu.0 level
        set.empty (M.world machine.old)))
        (SameInside M.rules) (M.Fit (inside cpu.0)) result
        (M.world machine.old) (M.world machine.new) telling.old telling.new }
{
    let mut tried = CpuSet::new();
    for _turn in 0..machine.cpus() {
        let Some(other) = machine.named(cpu, level, &tried) else {
            return Ok(());
        };
        try_one(machine, jobs, cpu, other, telling)?;
        tried.add(other);
    }
    Ok(())
}

/// A CPU looks after its groups from the leaf upwards, as long as that is its part.
fn looks<M: PlayMachine, J: Jobs, L: Listener>(
    machine: &mut M,
    jobs: &J,
    cpu: CpuId,
    telling: &mut Telling<L>,
) -> Result<(), NoMemory>
    requires cpu { cpu.0 < M.rules.cpus (M.world machine.old) }
    requires fit { M.Fit (inside cpu.0) (M.world machine.old) }
    ensures { PartLeaves
        (Prints (looks (J.replies jobs.now) M.rules (M.rules.levels (M.world machine.old)) cpu.0 0
        (M.world machine.old)))
        (SameInside M.rules) (M.Fit (inside cpu.0)) result
        (M.world machine.old) (M.world machine.new) telling.old telling.new }
{
    for level in 0..machine.levels() {
        if !machine.looks_after(cpu, level) {
            return Ok(());
        }
        look(machine, jobs, cpu, level, telling)?;
    }
    Ok(())
}

/// A CPU drains its own three bases.
fn drains<M: PlayMachine, J: Jobs, L: Listener>(
    machine: &mut M,
    jobs: &J,
    cpu: CpuId,
    telling: &mut Telling<L>,
) -> Result<(), NoMemory>
    requires cpu { cpu.0 < M.rules.cpus (M.world machine.old) }
    requires fit { M.Fit (inside cpu.0) (M.world machine.old) }
    ensures { PartLeaves
        (Prints (drains (J.replies jobs.now) M.rules cpu.0 (M.world machine.old)))
        (SameInside M.rules) (M.Fit (inside cpu.0)) result
        (M.world machine.old) (M.world machine.new) telling.old telling.new }
{
    drain(machine, jobs, cpu, Class::Pinned, cpu, telling)?;
    drain(machine, jobs, cpu, Class::Global, cpu, telling)?;
    drain(machine, jobs, cpu, Class::Deferrable, cpu, telling)
}

/// The interrupt of a CPU: its own due timers, the looks after its groups, and the end.
fn interrupt<M: PlayMachine, J: Jobs, L: Listener>(
    machine: &mut M,
    jobs: &J,
    cpu: CpuId,
    telling: &mut Telling<L>,
) -> Result<(), NoMemory>
    requires cpu { cpu.0 < M.rules.cpus (M.world machine.old) }
    requires online { M.rules.is_online (M.world machine.old) cpu.0 ≡ true }
    requires fit { M.Fit resting (M.world machine.old) }
    ensures { PartLeaves
        (Prints (interrupt (J.replies jobs.now) M.rules cpu.0 (M.world machine.old)))
        (SameInside M.rules) (M.Fit resting) result
        (M.world machine.old) (M.world machine.new) telling.old telling.new }
{
    telling.count();
    machine.enter(cpu);
    drains(machine, jobs, cpu, telling)?;
    looks(machine, jobs, cpu, telling)?;
    machine.end(cpu);
    Ok(())
}

/// The interrupt of a CPU, where it is due one.
pub fn interrupt_if_due<M: PlayMachine, J: Jobs, L: Listener>(
    machine: &mut M,
    jobs: &J,
    due: &CpuSet,
    cpu: CpuId,
    telling: &mut Telling<L>,
) -> Result<(), NoMemory>
    requires cpu { cpu.0 < M.rules.cpus (M.world machine.old) }
    requires online { AreOnline M.rules (M.world machine.old) due.now }
    requires fit { M.Fit resting (M.world machine.old) }
    ensures { PartLeaves
        (Prints (interrupt_where (J.replies jobs.now) M.rules (set.contains due.now cpu.0) cpu.0
        (M.world machine.old)))
        (SameInside M.rules) (M.Fit resting) result
        (M.world machine.old) (M.world machine.new) telling.old telling.new }
{
    if due.has(cpu) {
        return interrupt(machine, jobs, cpu, telling);
    }
    Ok(())
}

/// The interrupts of the CPUs that are due one, by ascending number.
pub(crate) fn interrupts<M: PlayMachine, J: Jobs, L: Listener>(
    machine: &mut M,
    jobs: &J,
    due: &CpuSet,
    telling: &mut Telling<L>,
) -> Result<(), NoMemory>
    requires online { AreOnline M.rules (M.world machine.old) due.now }
    requires fit { M.Fit resting (M.world machine.old) }
    ensures { PartLeaves
        (Prints (interrupts (J.replies jobs.now) M.rules (M.rules.cpus (M.world machine.old)) 0
        due.now (M.world machine.old)))
        (Same M.rules) (M.Fit resting) result
        (M.world machine.old) (M.world machine.new) telling.old telling.new }
{
    for cpu in 0..machine.cpus() {
        interrupt_if_due(machine, jobs, due, CpuId(cpu), telling)?;
    }
    Ok(())
}

/// The CPUs that have an interrupt at the clock.
pub fn having_interrupt<M: PlayMachine>(machine: &M) -> CpuSet
    ensures set { result ≡ having_interrupt M.rules (M.world machine.now) }
    ensures online { AreOnline M.rules (M.world machine.now) result }
{
    let mut due = CpuSet::new();
    for cpu in 0..machine.cpus() {
        if machine.has_interrupt(CpuId(cpu)) {
            due.add(CpuId(cpu));
        }
    }
    due
}
