//! CPUs that are online and idle, and when they wake.

ghost use Rattle.std.specs.Prelude.{◌≡◌, IfOk, OnOk, length};
ghost use Rattle.orders_sights.specs.Gathering.{gathered, with_more};
ghost use Rattle.orders_sights.specs.Seeing.{sleeper_seen, sleeps};

use orders_answer::SleeperShown;
use plain_world::PlainWorld;
use std::alloc::Global;
use tm_base::{CpuId, NoMemory};

/// Whether a CPU is online and idle.
pub(crate) fn sleeps(world: &PlainWorld, cpu: CpuId) -> bool
    ensures { result ≡ sleeps world.now cpu.0 }
{
    let status = world.status(cpu);
    status.online && status.idle
}

/// A CPU, where it is online and idle.
fn sleeper_seen(world: &PlainWorld, cpu: CpuId) -> Option<SleeperShown>
    ensures { result ≡ sleeper_seen world.now cpu.0 }
{
    if !sleeps(world, cpu) {
        return None;
    }
    Some(SleeperShown {
        cpu,
        wakeup: world.status(cpu).wakeup,
    })
}

/// Puts a CPU behind others, where there is one.
fn push_sleeper(list: &mut Vec<SleeperShown>, sleeper: Option<SleeperShown>) -> Result<(), NoMemory>
    ensures { OnOk result (list.new.items ≡ with_more sleeper list.old.items) }
{
    let Some(sleeper) = sleeper else {
        return Ok(());
    };
    list.push(sleeper)?;
    Ok(())
}

/// All CPUs that are online and idle, in the order of their numbers.
pub(crate) fn sleepers_seen(
    alloc: Global,
    world: &PlainWorld,
) -> Result<Vec<SleeperShown>, NoMemory>
    ensures { IfOk result (λ list. list.items
        ≡ gathered (sleeper_seen world.now) (length world.now.cpus)) }
{
    let mut list = Vec::new(alloc);
    for cpu in 0..world.count() {
        push_sleeper(&mut list, sleeper_seen(world, CpuId(cpu)))?;
    }
    Ok(list)
}
