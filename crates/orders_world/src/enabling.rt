//! Where any step is enabled, in any plain world.

ghost use Rattle.std.specs.Prelude.{◌↔◌, IsTrue};
ghost use Rattle.core_world.specs.Enabled.{Enabled};

use crate::asking::{
    may_carry, may_come_online, may_enter, may_go_offline, may_hand_on, may_idle, may_leave,
    may_reevaluate, may_release, may_take, may_time, may_wake,
};
use crate::asking_timers::{may_arm, may_cancel, may_hand, may_move, may_tick, may_walk};
use core_world::Step;
use plain_world::PlainWorld;

fn is_enabled(world: &PlainWorld, step: Step) -> bool
    ensures { IsTrue result ↔ Enabled world.now step }
{
    match step {
        Step::Clock { now } => may_time(world, now),
        Step::Enter { cpu } => may_enter(world, cpu),
        Step::Leave { cpu } => may_leave(world, cpu),
        Step::Arm {
            cpu,
            timer,
            class,
            expires,
            job: _,
            arg: _,
            line: _,
        } => may_arm(world, cpu, timer, class, expires),
        Step::Cancel {
            cpu,
            timer,
            by,
            line: _,
        } => may_cancel(world, cpu, timer) && by.0 < world.count(),
        Step::Hand { cpu, timer, runner } => may_hand(world, cpu, timer, runner),
        Step::Ticked { cpu, class, runner } => may_tick(world, cpu, class, runner),
        Step::Move { from, to, timer } => may_move(world, from, to, timer),
        Step::Idle { cpu } => may_idle(world, cpu),
        Step::Wake { cpu } => may_wake(world, cpu),
        Step::Offline { cpu } => may_go_offline(world, cpu),
        Step::Online { cpu } => may_come_online(world, cpu),
        Step::Reeval { cpu } => may_reevaluate(world, cpu),
        Step::Take { cpu, by } => may_take(world, cpu, by),
        Step::Carry { cpu } => may_carry(world, cpu),
        Step::Release { cpu } => may_release(world, cpu),
        Step::Walk { cpu } => may_walk(world, cpu),
        Step::HandOn { cpu, to } => may_hand_on(world, cpu, to),
    }
}

/// Whether a step may be made now.
pub fn enabled(world: &PlainWorld, step: &Step) -> bool
    ensures { IsTrue result ↔ Enabled world.now step.now }
{
    let step = *step;
    is_enabled(world, step)
}
