//! Where any step is enabled.

ghost use Rattle.std.specs.Prelude.{◌↔◌, IsTrue};
ghost use Rattle.core_world.specs.Enabled.{Enabled};

use crate::asking::{
    may_carry, may_come_online, may_enter, may_go_offline, may_hand_on, may_idle, may_leave,
    may_reevaluate, may_release, may_take, may_time, may_wake,
};
use crate::asking_timers::{may_arm, may_cancel, may_hand, may_move, may_tick, may_walk};
use core_steps::Core;
use core_world::Step;
use wheel_core::TimerBase;

fn is_enabled<B: TimerBase>(core: &Core<B>, step: Step) -> bool
    ensures { IsTrue result ↔ Enabled core.now step }
{
    match step {
        Step::Clock { now } => may_time(core, now),
        Step::Enter { cpu } => may_enter(core, cpu),
        Step::Leave { cpu } => may_leave(core, cpu),
        Step::Arm {
            cpu,
            timer,
            class,
            expires,
            job: _,
            arg: _,
            line: _,
        } => may_arm(core, cpu, timer, class, expires),
        Step::Cancel {
            cpu,
            timer,
            by,
            line: _,
        } => may_cancel(core, cpu, timer) && by.0 < core.count(),
        Step::Hand { cpu, timer, runner } => may_hand(core, cpu, timer, runner),
        Step::Ticked { cpu, class, runner } => may_tick(core, cpu, class, runner),
        Step::Move { from, to, timer } => may_move(core, from, to, timer),
        Step::Idle { cpu } => may_idle(core, cpu),
        Step::Wake { cpu } => may_wake(core, cpu),
        Step::Offline { cpu } => may_go_offline(core, cpu),
        Step::Online { cpu } => may_come_online(core, cpu),
        Step::Reeval { cpu } => may_reevaluate(core, cpu),
        Step::Take { cpu, by } => may_take(core, cpu, by),
        Step::Carry { cpu } => may_carry(core, cpu),
        Step::Release { cpu } => may_release(core, cpu),
        Step::Walk { cpu } => may_walk(core, cpu),
        Step::HandOn { cpu, to } => may_hand_on(core, cpu, to),
    }
}

/// Whether a step may be made now.
pub fn enabled<B: TimerBase>(core: &Core<B>, step: &Step) -> bool
    ensures { IsTrue result ↔ Enabled core.now step.now }
{
    let step = *step;
    is_enabled(core, step)
}
