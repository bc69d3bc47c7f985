//! A CPU's thread looks whether timers of other CPUs are due.

ghost use Rattle.std.specs.Prelude.{◌≡◌, ◌<◌, true, false, length};
ghost use Rattle.shared_words.specs.Exchanges.{HasRoom};
ghost use Rattle.shared_cpus.specs.shared_rule.Passes.{IsOfRun};
ghost use Rattle.shared_looks.specs.Sights.{HasLooked, LooksBy, NeedsRemote, OtherBy};

use crate::path::{group_at, side_on};
use crate::sight::Look;
use crate::slots::see_events;
use group_word::{looks, unpack};
use shared_cpus::{Pass, Run, RunName};
use tm_base::{CpuSet, Jiffy};
use wheel_core::TimerBase;

/// Whether a child looks after its group by this word (`tmigr_check_migrator`).
fn looks_after(word: u64, child: u8) -> bool
    requires { HasRoom word }
    ensures yes { result ≡ true → LooksBy word child }
    ensures no { result ≡ false → OtherBy word child }
{
    match unpack(word) {
        Some(state) => looks(state, child),
        None => unreachable!(),
    }
}

/// Looks at the group of a CPU's path at a level, from the leaf counted as 0, at `now` in jiffies:
/// loads its word, and where the CPU's side looks after it (`tmigr_check_migrator`), its eight
/// slots (`tmigr_handle_remote_up`). `NoGroup` comes exactly where the CPU has no group there,
/// `Other` exactly where the group has another migrator, `Nothing` exactly where neither comes and
/// no event that was loaded is due and of a CPU that isn't in `tried`; `Due` has the CPU of the
/// first such event, which is one of the run and has a group. What was loaded is remembered. It
/// takes no lock and no memory.
pub fn look<N: RunName, B: TimerBase>(
    run: &Run<N, B>,
    pass: &mut Pass,
    level: u8,
    now: Jiffy,
    tried: &CpuSet,
) -> Look
    requires run { IsOfRun N.table pass.old }
    requires cpu { pass.old.cpu < length N.opening.cpus }
    ensures { HasLooked N.table N.opening now tried.now pass.old.cpu level pass.old pass.new
        result }
{
    let cpu = pass.cpu();
    let Some(group) = group_at(run, cpu, level) else {
        return Look::NoGroup;
    };
    let word = pass.see_state(run, group);
    if !looks_after(word, side_on(run, cpu, level)) {
        return Look::Other;
    }
    let events = see_events(run, pass, group);
    match events.due(now, tried) {
        Some(due) => Look::Due { cpu: due.1.cpu },
        None => Look::Nothing,
    }
}

/// Whether a CPU has to run timers for others at `now`, in jiffies
/// (`tmigr_requires_handle_remote`): true exactly where its pass saw an event that is due and isn't
/// ignored, in a group that the CPU looks after. Otherwise it saw the eight slots of each such
/// group, and nothing due. It takes no lock and no memory.
pub fn needs_remote<N: RunName, B: TimerBase>(run: &Run<N, B>, pass: &mut Pass, now: Jiffy) -> bool
    requires run { IsOfRun N.table pass.old }
    requires cpu { pass.old.cpu < length N.opening.cpus }
    ensures { NeedsRemote N.table N.opening now pass.old.cpu pass.old pass.new result }
{
    let tried = CpuSet::new();
    for level in 0..run.tree.levels() {
        match look(run, pass, level, now, &tried) {
            Look::Due { .. } => return true,
            Look::Nothing => {},
            Look::NoGroup => return false,
            Look::Other => return false,
        }
    }
    false
}
