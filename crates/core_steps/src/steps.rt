//! Steps by their names.

ghost use Rattle.std.specs.Prelude.{◌≡◌, OnErr, OnOk};
ghost use Rattle.core_world.specs.Enabled.{Enabled};
ghost use Rattle.core_world.specs.Steps.{stepped};
ghost use Rattle.core_steps.specs.Wants.{WantsMemory};

use crate::finishing::step_walk;
use crate::flags::{
    carry, come_online, enter, go_idle, go_offline, hand_on, leave, reevaluate, release, take, wake,
};
use core_state::Core;
use core_world::Step;
use tm_base::NoMemory;
use wheel_core::TimerBase;

/// Makes a step that is enabled. Only `Arm`, `Cancel`, `Hand`, `Ticked` and `Move` may want
/// memory, and then the core is as before.
#[inline(always)]
pub fn apply<B: TimerBase>(core: &mut Core<B>, step: Step) -> Result<(), NoMemory>
    requires { Enabled core.old step }
    ensures ok { OnOk result (core.new ≡ stepped core.old step) }
    ensures err { OnErr result (core.new ≡ core.old) }
    ensures wants { OnErr result (WantsMemory step) }
{
    match step {
        Step::Arm {
            cpu,
            timer,
            class,
            expires,
            job,
            arg,
            line,
        } => {
            core.arm(cpu, timer, class, expires, job, arg, line)?;
        },
        Step::Cancel {
            cpu,
            timer,
            by,
            line,
        } => return core.cancel(cpu, timer, by, line),
        Step::Hand { cpu, timer, runner } => return core.hand(cpu, timer, runner),
        Step::Ticked { cpu, class, runner } => return core.drained(cpu, class, runner),
        Step::Move { from, to, timer } => {
            core.move_timer(from, to, timer)?;
        },
        Step::Clock { now } => core.bring_to(now),
        Step::Enter { cpu } => enter(core, cpu),
        Step::Leave { cpu } => leave(core, cpu),
        Step::Idle { cpu } => go_idle(core, cpu),
        Step::Wake { cpu } => wake(core, cpu),
        Step::Offline { cpu } => go_offline(core, cpu),
        Step::Online { cpu } => come_online(core, cpu),
        Step::Reeval { cpu } => reevaluate(core, cpu),
        Step::Take { cpu, by } => take(core, cpu, by),
        Step::Carry { cpu } => carry(core, cpu),
        Step::Release { cpu } => release(core, cpu),
        Step::Walk { cpu } => step_walk(core, cpu),
        Step::HandOn { cpu, to } => hand_on(core, cpu, to),
    }
    Ok(())
}
