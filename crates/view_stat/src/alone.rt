//! The machine of a script without its hierarchy.

ghost use Rattle.std.specs.Prelude.{◌≡◌, ◌≤◌, ◌==◌};
ghost use Rattle.tm_base.specs.declared.limits.TheConstants.{CPU_SET_SIZE};
ghost use Rattle.tm_script.specs.Grammar.{IsScript};
ghost use Rattle.view_stat.specs.Alone.{AreAllButLowest, IsAlone, first_leave, is_lowest_leaving};
ghost use Rattle.view_stat.specs.Alone.{leave_in_ops, leave_of};

use std::alloc::Global;
use tm_base::{CpuId, CpuSet};
use tm_script::{Moment, Moments, Op, Script, What};

/// All CPUs but the lowest.
fn all_but_lowest(cpus: u16) -> CpuSet
    requires some { 1 ≤ cpus }
    requires few { cpus ≤ CPU_SET_SIZE }
    ensures { AreAllButLowest cpus result }
{
    let mut isolated = CpuSet::new();
    for cpu in 1..cpus {
        isolated.add(CpuId(cpu));
    }
    isolated
}

/// The machine of a script with every CPU isolated but the lowest, as a script in which nothing
/// happens: each CPU wakes for its own timers, as if there were no hierarchy.
pub(crate) fn alone_machine(alloc: Global, script: &Script) -> Script
    requires { IsScript script.now }
    ensures { IsAlone script.now result }
{
    let cpus = u16::from(script.nodes) * u16::from(script.cpus);
    Script {
        version: 2,
        nodes: script.nodes,
        cpus: script.cpus,
        timers: script.timers,
        isolated: all_but_lowest(cpus),
        moments: Moments::new(alloc),
        end: 0,
    }
}

/// Whether an operation takes the lowest CPU offline.
fn is_lowest_leaving(cpu: CpuId, what: What) -> bool
    ensures { result ≡ is_lowest_leaving cpu.0 what }
{
    match what {
        What::Offline => cpu.0 == 0,
        _ => false,
    }
}

/// The line of an operation that takes the lowest CPU offline.
fn leave_of(op: &Op) -> Option<u32>
    ensures { result ≡ leave_of op.now }
{
    if is_lowest_leaving(op.cpu, op.what) {
        Some(op.line)
    } else {
        None
    }
}

/// The line of the first operation of these that does so.
#[tactic(auto, unfolding(crate::specs::Alone::leave_in_ops))]
fn leave_in_ops(ops: &[Op]) -> Option<u32>
    ensures { result ≡ leave_in_ops ops.now }
{
    for op in ops {
        if let Some(line) = leave_of(op) {
            return Some(line);
        }
    }
    None
}

/// The line of the first operation of a script that takes the lowest CPU offline: without the
/// hierarchy it can't be done, since no other CPU is in the tree.
#[tactic(auto, unfolding(crate::specs::Alone::first_leave))]
pub(crate) fn first_leave(moments: &[Moment]) -> Option<u32>
    ensures { result ≡ first_leave moments.now }
{
    for moment in moments {
        if let Some(line) = leave_in_ops(moment.ops.as_slice()) {
            return Some(line);
        }
    }
    None
}
