//! What forbids any step.

ghost use Rattle.std.specs.Prelude.{IfNone, IfSome};
ghost use Rattle.core_world.specs.Enabled.{Enabled};
ghost use Rattle.step_causes.specs.Causes.{IsCause};

use crate::flags::{
    no_carry, no_enter, no_idle, no_leave, no_offline, no_online, no_reeval, no_release, no_time,
    no_wake,
};
use crate::looks::{no_hand_on, no_take, no_walk};
use crate::timers::{no_arm, no_cancel, no_hand, no_move, no_tick};
use core_world::Step;
use plain_world::PlainWorld;
use step_causes::Cause;

fn no_step(world: &PlainWorld, step: Step) -> Option<Cause>
    ensures none { IfNone result (Enabled world.now step) }
    ensures named { IfSome result (IsCause world.now (λ w. Enabled w step)) }
{
    match step {
        Step::Clock { now } => no_time(world, now),
        Step::Enter { cpu } => no_enter(world, cpu),
        Step::Leave { cpu } => no_leave(world, cpu),
        Step::Arm {
            cpu,
            timer,
            class,
            expires,
            job: _,
            arg: _,
            line: _,
        } => no_arm(world, cpu, timer, class, expires),
        Step::Cancel {
            cpu,
            timer,
            by,
            line: _,
        } => no_cancel(world, cpu, timer, by),
        Step::Hand { cpu, timer, runner } => no_hand(world, cpu, timer, runner),
        Step::Ticked { cpu, class, runner } => no_tick(world, cpu, class, runner),
        Step::Move { from, to, timer } => no_move(world, from, to, timer),
        Step::Idle { cpu } => no_idle(world, cpu),
        Step::Wake { cpu } => no_wake(world, cpu),
        Step::Offline { cpu } => no_offline(world, cpu),
        Step::Online { cpu } => no_online(world, cpu),
        Step::Reeval { cpu } => no_reeval(world, cpu),
        Step::Take { cpu, by } => no_take(world, cpu, by),
        Step::Carry { cpu } => no_carry(world, cpu),
        Step::Release { cpu } => no_release(world, cpu),
        Step::Walk { cpu } => no_walk(world, cpu),
        Step::HandOn { cpu, to } => no_hand_on(world, cpu, to),
    }
}

/// Why a step can't be made now: a fact of the world that forbids it. None exactly where the step is
/// enabled. Of several such facts it is the first in the order in which they are looked for; it
/// costs what `orders_world::enabled` does.
pub fn cause(world: &PlainWorld, step: &Step) -> Option<Cause>
    ensures none { IfNone result (Enabled world.now step.now) }
    ensures named { IfSome result (IsCause world.now (λ w. Enabled w step.now)) }
{
    no_step(world, *step)
}
