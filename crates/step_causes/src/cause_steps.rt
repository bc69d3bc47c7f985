//! What forbids any step.

ghost use Rattle.std.specs.Prelude.{IfNone, IfSome};
ghost use Rattle.core_world.specs.Enabled.{Enabled};
ghost use Rattle.step_causes.specs.Causes.{IsCause};

use crate::cause_flags::{
    no_carry, no_enter, no_idle, no_leave, no_offline, no_online, no_reeval, no_release, no_time,
    no_wake,
};
use crate::cause_looks::{no_hand_on, no_take, no_walk};
use crate::cause_timers::{no_arm, no_cancel, no_hand, no_move, no_tick};
use crate::causes::Cause;
use core_world::Step;
use step_core::Core;
use wheel_core::TimerBase;

fn no_step<B: TimerBase>(core: &Core<B>, step: Step) -> Option<Cause>
    ensures none { IfNone result (Enabled core.now step) }
    ensures named { IfSome result (IsCause core.now (λ w. Enabled w step)) }
{
    match step {
        Step::Clock { now } => no_time(core, now),
        Step::Enter { cpu } => no_enter(core, cpu),
        Step::Leave { cpu } => no_leave(core, cpu),
        Step::Arm {
            cpu,
            timer,
            class,
            expires,
            job: _,
            arg: _,
            line: _,
        } => no_arm(core, cpu, timer, class, expires),
        Step::Cancel {
            cpu,
            timer,
            by,
            line: _,
        } => no_cancel(core, cpu, timer, by),
        Step::Hand { cpu, timer, runner } => no_hand(core, cpu, timer, runner),
        Step::Ticked { cpu, class, runner } => no_tick(core, cpu, class, runner),
        Step::Move { from, to, timer } => no_move(core, from, to, timer),
        Step::Idle { cpu } => no_idle(core, cpu),
        Step::Wake { cpu } => no_wake(core, cpu),
        Step::Offline { cpu } => no_offline(core, cpu),
        Step::Online { cpu } => no_online(core, cpu),
        Step::Reeval { cpu } => no_reeval(core, cpu),
        Step::Take { cpu, by } => no_take(core, cpu, by),
        Step::Carry { cpu } => no_carry(core, cpu),
        Step::Release { cpu } => no_release(core, cpu),
        Step::Walk { cpu } => no_walk(core, cpu),
        Step::HandOn { cpu, to } => no_hand_on(core, cpu, to),
    }
}

/// Why a step can't be made now: a fact of the core that forbids it. None exactly where the step is
/// enabled. Of several such facts it is the first in the order in which they are looked for; it
/// costs what `step_core::enabled` does.
pub fn cause<B: TimerBase>(core: &Core<B>, step: &Step) -> Option<Cause>
    ensures none { IfNone result (Enabled core.now step.now) }
    ensures named { IfSome result (IsCause core.now (λ w. Enabled w step.now)) }
{
    no_step(core, *step)
}
