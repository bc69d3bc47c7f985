//! What each CPU has to do in a round.

ghost use Rattle.std.specs.Prelude.{◌≡◌, ◌<◌, [], All, IfOk, OnOk, length};
ghost use Rattle.core_world.specs.World.{World};
ghost use Rattle.atomic_table.specs.Seated.{TableId};
ghost use Rattle.idle_wakeup.specs.shared_table.Begun.{begun_passes};
ghost use Rattle.run_story.specs.Asked.{IsRoundOp};
ghost use Rattle.run_shares.specs.Tasks.{AreTasks, EachFrom};
ghost use Rattle.run_shares.specs.Progress.{AreGiven, IsFirstPass, IsGiven};

use idle_wakeup::{Pass, RunName};
use std::alloc::Global;
use tm_base::{CpuSet, NoMemory};
use tm_script::Op;

/// What a CPU has to do, with the pass with which it begins: its interrupt, where it is due one,
/// and its own operations, in line order.
#[derive(Drop)]
pub struct Task {
    pub pass: Pass,
    pub due: bool,
    pub ops: Vec<Op>,
}

/// A task for each pass, in their order, with no operation yet.
fn first_tasks(alloc: Global, passes: Vec<Pass>, due: &CpuSet) -> Result<Vec<Task>, NoMemory>
    ensures { IfOk result (λ v. (table : TableId) (o : World)
        → EachFrom (IsFirstPass table o) 0 passes.items
        → AreTasks table o (record { due = due.now; ops = [] }) (length passes.items) v.items) }
{
    let mut tasks = Vec::with_capacity(alloc, passes.len())?;
    for pass in passes {
        let due = due.has(pass.cpu());
        let ops = Vec::new(alloc);
        tasks.push(Task { pass, due, ops })?;
    }
    Ok(tasks)
}

/// Gives an operation to its CPU, behind those that the CPU has by now.
fn give(tasks: &mut Vec<Task>, op: Op) -> Result<(), NoMemory>
    requires { op.cpu.0 < length tasks.old.items }
    ensures given { OnOk result (IsGiven op tasks.old.items tasks.new.items) }
    ensures count { length tasks.new.items ≡ length tasks.old.items }
{
    let task = &mut tasks[usize::from(op.cpu.0)];
    task.ops.push(op)?;
    Ok(())
}

/// Gives each operation to its CPU, in line order.
#[tactic(auto, using(std::proofs::lemmas::List::take_all))]
fn give_all(tasks: &mut Vec<Task>, ops: &[Op]) -> Result<(), NoMemory>
    requires { All (λ (op : Op). op.cpu.0 < length tasks.old.items) ops.now }
    ensures { OnOk result (AreGiven ops.now tasks.old.items tasks.new.items) }
{
    for op in ops {
        give(tasks, *op)?;
    }
    Ok(())
}

/// What each CPU has to do, in the order of the CPUs.
pub fn tasks_of<N: RunName>(
    alloc: Global,
    passes: Vec<Pass>,
    due: &CpuSet,
    ops: &[Op],
) -> Result<Vec<Task>, NoMemory>
    requires passes { passes.items ≡ begun_passes N.table N.opening 0 }
    requires ops { All (IsRoundOp (length N.opening.cpus) N.opening.timers) ops.now }
    ensures { IfOk result (λ v. AreTasks N.table N.opening
        (record { due = due.now; ops = ops.now }) (length N.opening.cpus) v.items) }
{
    let mut tasks = first_tasks(alloc, passes, due)?;
    give_all(&mut tasks, ops)?;
    Ok(tasks)
}
