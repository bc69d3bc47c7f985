//! Plain moments of a run: those of a play, with the lines of each CPU together.

ghost use Rattle.std.specs.Prelude.{◌≡◌, ◌+◌, ◌<◌, ◌++◌, [], All, IfOk, OnOk, length};
ghost use Rattle.std.specs.List as lists;
ghost use Rattle.std.specs.FinSet as set;
ghost use Rattle.std.specs.Option.{ForSome, option_copied};
ghost use Rattle.play_rules.specs.Interrupts.{interrupt_where, interrupts};
ghost use Rattle.play_rules.specs.Machines.{Same};
ghost use Rattle.play_rules.specs.Moments.{moment};
ghost use Rattle.play_rules.specs.Operations.{operation, operations};
ghost use Rattle.play_rules.specs.Parts.{Gains, Progress, and_then, counted};
ghost use Rattle.play_rules.specs.Phases.{resting};
ghost use Rattle.run_plain.specs.Apart.{PartLeavesApart, Spreads, ToldApart};
ghost use Rattle.run_plain.specs.Plain.{by_cpus};
ghost use Rattle.play_driver.specs.Conditions.{AreOnline, IsMomentInRange, IsOpInRange};
ghost use Rattle.play_driver.specs.PartLeaves.{PartLeaves, SameInside, Tells};

use job_table::Jobs;
use play_driver::{Telling, clear_after, covers, interrupt_if_due, operation};
use play_rules::PlayMachine;
use std::alloc::Global;
use tm_base::{CpuId, CpuSet, NoMemory};
use tm_report::Report;
use tm_script::{Moment, Op};

/// A report for each of so many CPUs, in which nothing is told yet.
fn nobody(alloc: Global, cpus: u16) -> Result<Vec<Telling<Report>>, NoMemory>
    ensures { IfOk result (λ own. ToldApart cpus own.items [] 0) }
{
    let mut own = Vec::with_capacity(alloc, usize::from(cpus))?;
    for _cpu in 0..cpus {
        own.push(Telling::new(Report::new(alloc)))?;
    }
    Ok(own)
}

/// The interrupt of a CPU, where it is due one, in the CPU's own report.
fn interrupt_apart<M: PlayMachine, J: Jobs>(
    machine: &mut M,
    jobs: &J,
    due: &CpuSet,
    cpu: CpuId,
    own: &mut Vec<Telling<Report>>,
) -> Result<(), NoMemory>
    requires count { length own.old.items ≡ M.rules.cpus (M.world machine.old) }
    requires cpu { cpu.0 < M.rules.cpus (M.world machine.old) }
    requires online { AreOnline M.rules (M.world machine.old) due.now }
    requires fit { M.Fit resting (M.world machine.old) }
    ensures { PartLeavesApart
        (Spreads (M.rules.cpus (M.world machine.old)) (interrupt_where (J.replies jobs.now) M.rules
        (set.contains due.now cpu.0) cpu.0 (M.world machine.old)))
        (SameInside M.rules) (M.Fit resting) result
        (M.world machine.old) (M.world machine.new) own.old.items own.new.items }
{
    interrupt_if_due(machine, jobs, due, cpu, &mut own[usize::from(cpu.0)])
}

/// The interrupts of the CPUs that are due one, by ascending number, each in its CPU's own report.
fn interrupts_apart<M: PlayMachine, J: Jobs>(
    machine: &mut M,
    jobs: &J,
    due: &CpuSet,
    own: &mut Vec<Telling<Report>>,
) -> Result<(), NoMemory>
    requires count { length own.old.items ≡ M.rules.cpus (M.world machine.old) }
    requires online { AreOnline M.rules (M.world machine.old) due.now }
    requires fit { M.Fit resting (M.world machine.old) }
    ensures { PartLeavesApart
        (Spreads (M.rules.cpus (M.world machine.old)) (interrupts (J.replies jobs.now) M.rules
        (M.rules.cpus (M.world machine.old)) 0 due.now (M.world machine.old)))
        (Same M.rules) (M.Fit resting) result
        (M.world machine.old) (M.world machine.new) own.old.items own.new.items }
{
    for cpu in 0..machine.cpus() {
        interrupt_apart(machine, jobs, due, CpuId(cpu), own)?;
    }
    Ok(())
}

/// An operation of the script, in the own report of its CPU.
fn operation_apart<M: PlayMachine>(
    machine: &mut M,
    op: &Op,
    own: &mut Vec<Telling<Report>>,
) -> Result<(), NoMemory>
    requires count { length own.old.items ≡ M.rules.cpus (M.world machine.old) }
    requires in_range { IsOpInRange
        (M.rules.cpus (M.world machine.old)) (M.rules.timers (M.world machine.old)) op.now }
    requires fit { M.Fit resting (M.world machine.old) }
    ensures { PartLeavesApart
        (Spreads (M.rules.cpus (M.world machine.old)) (operation M.rules op.now
        (M.world machine.old)))
        (Same M.rules) (M.Fit resting) result
        (M.world machine.old) (M.world machine.new) own.old.items own.new.items }
{
    operation(machine, op, &mut own[usize::from(op.cpu.0)])
}

/// The operations of a moment, in line order, each in the own report of its CPU.
fn operations_apart<M: PlayMachine>(
    machine: &mut M,
    ops: &[Op],
    own: &mut Vec<Telling<Report>>,
) -> Result<(), NoMemory>
    requires count { length own.old.items ≡ M.rules.cpus (M.world machine.old) }
    requires in_range { All (IsOpInRange
        (M.rules.cpus (M.world machine.old)) (M.rules.timers (M.world machine.old))) ops.now }
    requires fit { M.Fit resting (M.world machine.old) }
    ensures { PartLeavesApart
        (Spreads (M.rules.cpus (M.world machine.old)) (operations M.rules ops.now
        (M.world machine.old)))
        (Same M.rules) (M.Fit resting) result
        (M.world machine.old) (M.world machine.new) own.old.items own.new.items }
{
    for op in ops {
        operation_apart(machine, op, own)?;
    }
    Ok(())
}

/// The reports of all CPUs, one behind the other, come behind a report.
fn gather(own: &[Telling<Report>], telling: &mut Telling<Report>) -> Result<(), NoMemory>
    ensures text { OnOk result (telling.new.text
        ≡ telling.old.text ++ lists.flat_map (λ (t : Progress). t.text) own.now) }
    ensures work { OnOk result (counted telling.new.work ≡ counted
        (telling.old.work + lists.sum_by (λ (t : Progress). t.work) own.now)) }
    ensures gains { Gains telling.old.text telling.new.text }
{
    for part in own {
        telling.append(part)?;
    }
    Ok(())
}

/// The interrupts and operations of a moment, those of each CPU in its own report, and then all of
/// these by ascending CPU.
fn done_apart<M: PlayMachine, J: Jobs>(
    alloc: Global,
    machine: &mut M,
    jobs: &J,
    due: &CpuSet,
    ops: &[Op],
    telling: &mut Telling<Report>,
) -> Result<(), NoMemory>
    requires in_range { All (IsOpInRange
        (M.rules.cpus (M.world machine.old)) (M.rules.timers (M.world machine.old))) ops.now }
    requires online { AreOnline M.rules (M.world machine.old) due.now }
    requires fit { M.Fit resting (M.world machine.old) }
    ensures { PartLeaves
        (Tells (by_cpus (M.rules.cpus (M.world machine.old)) (and_then (interrupts (J.replies
        jobs.now) M.rules (M.rules.cpus (M.world machine.old)) 0 due.now (M.world machine.old))
        (operations M.rules ops.now))))
        (Same M.rules) (M.Fit resting) result
        (M.world machine.old) (M.world machine.new) telling.old telling.new }
{
    let mut own = nobody(alloc, machine.cpus())?;
    interrupts_apart(machine, jobs, due, &mut own)?;
    operations_apart(machine, ops, &mut own)?;
    gather(own.as_slice(), telling)
}

/// A plain moment of a run, of which the CPUs that have an interrupt are known: that of a play, but
/// the lines of interrupts and operations stand by ascending CPU.
pub fn plain_moment<M: PlayMachine, J: Jobs>(
    alloc: Global,
    machine: &mut M,
    jobs: &J,
    due: &CpuSet,
    m: Option<&Moment>,
    telling: &mut Telling<Report>,
) -> Result<(), NoMemory>
    requires in_range { ForSome (option_copied m)
        (IsMomentInRange
        (M.rules.cpus (M.world machine.old)) (M.rules.timers (M.world machine.old))) }
    requires online { AreOnline M.rules (M.world machine.old) due.now }
    requires fit { M.Fit resting (M.world machine.old) }
    ensures { PartLeaves
        (Tells (by_cpus (M.rules.cpus (M.world machine.old)) (moment (J.replies jobs.now) M.rules
        due.now (option_copied m.entry) (M.world machine.old))))
        (Same M.rules) (M.Fit resting) result
        (M.world machine.old) (M.world machine.new) telling.old telling.new }
{
    telling.count();
    let Some(m) = m else {
        return done_apart(alloc, machine, jobs, due, &[], telling);
    };
    let ops = m.ops.as_slice();
    done_apart(alloc, machine, jobs, due, ops, telling)?;
    clear_after(machine, ops, telling)?;
    covers(machine, telling)
}
