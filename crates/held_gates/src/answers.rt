//! Whether the sleepers of a core at rest are answered for.

ghost use Rattle.std.specs.Prelude.{◌<◌, length};

use core_machine::answers::{Cover, cover_of};
use step_laws::{Core, is_settled, law_settled};
use tm_base::{CpuId, NEVER};
use wheel_core::TimerBase;

/// Whether a CPU of the core is idle.
fn is_idle<B: TimerBase>(core: &Core<B>, cpu: CpuId) -> bool {
    cpu.0 < core.count() && core.cpu(cpu).idle
}

/// Whether who answers for a CPU's first global timer can: it is active, or wakes in time; and
/// somebody answers exactly where the CPU is idle and has one.
fn has_answer<B: TimerBase>(core: &Core<B>, cpu: CpuId) -> bool
    requires { cpu.0 < length core.now.cpus }
{
    let first = core.bases(cpu).next().first_global;
    match cover_of(core, cpu) {
        Some(Cover::Migrator { group: _, cpu: by }) => by.0 < core.count() && !is_idle(core, by),
        Some(Cover::Wake { cpu: by, at }) => {
            at <= first && is_idle(core, by) && by.0 < core.count() && core.cpu(by).wakeup == at
        },
        None => !core.cpu(cpu).idle || first == NEVER,
    }
}

/// Whether the core is at rest, and each idle CPU with a global timer is answered for.
pub fn is_answered<B: TimerBase>(core: &Core<B>) -> bool {
    if !is_settled(core) {
        return false;
    }
    law_settled(core);
    for cpu in 0..core.count() {
        if !has_answer(core, CpuId(cpu)) {
            return false;
        }
    }
    true
}
