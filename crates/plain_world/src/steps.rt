//! Any step.

ghost use Rattle.std.specs.Prelude.{◌≡◌, IfErr, OnOk};
ghost use Rattle.std.specs.Option.{ForSome};
ghost use Rattle.core_world.specs.Steps.{stepped, walk_made};
ghost use Rattle.core_world.specs.World.{cpu_of};
ghost use Rattle.plain_world.specs.Limits.{MayLack, WalkFits};
ghost use Rattle.plain_world.specs.declared.lack.Lack.TheVariants as lacks;

use crate::flags::{
    carry, come_online, enter, go_idle, go_offline, hand_on, leave, reevaluate, release, take, wake,
};
use crate::lack::Lack;
use crate::walking::{walk_fits, walk_from};
use crate::world::PlainWorld;
use core_world::Step;
use tm_base::CpuId;

/// The walk of a CPU makes its next step.
fn step_walk(world: &mut PlainWorld, cpu: CpuId) -> Result<(), Lack>
    ensures ok { OnOk result (world.new
        ≡ walk_made world.old cpu.0 (cpu_of world.old cpu.0).walk) }
    ensures err { IfErr result (λ e. e ≡ lacks.Range) }
    ensures past { IfErr result (λ e. ForSome (cpu_of world.old cpu.0).walk WalkFits → ⊥) }
{
    let Some(walk) = world.walk(cpu) else {
        return Ok(());
    };
    if !walk_fits(walk) {
        return Err(Lack::Range);
    }
    walk_from(world, cpu, walk);
    Ok(())
}

/// Makes a step, enabled or not: the world is then what the step makes of it. What a world is after
/// an error isn't said.
pub fn make_step(world: &mut PlainWorld, step: Step) -> Result<(), Lack>
    ensures made { OnOk result (world.new ≡ stepped world.old step) }
    ensures lacks { IfErr result (MayLack world.old step) }
{
    match step {
        Step::Clock { now } => world.set_clock(now),
        Step::Enter { cpu } => enter(world, cpu),
        Step::Leave { cpu } => leave(world, cpu),
        Step::Arm {
            cpu,
            timer,
            class,
            expires,
            job,
            arg,
            line,
        } => return world.arm(cpu, timer, class, expires, job, arg, line),
        Step::Cancel {
            cpu,
            timer,
            by,
            line,
        } => return world.cancel(cpu, timer, by, line),
        Step::Hand { cpu, timer, runner } => return world.hand(cpu, timer, runner),
        Step::Ticked { cpu, class, runner } => return world.drain(cpu, class, runner),
        Step::Move { from, to, timer: _ } => return world.move_first(from, to),
        Step::Idle { cpu } => go_idle(world, cpu),
        Step::Wake { cpu } => wake(world, cpu),
        Step::Offline { cpu } => go_offline(world, cpu),
        Step::Online { cpu } => come_online(world, cpu),
        Step::Reeval { cpu } => reevaluate(world, cpu),
        Step::Take { cpu, by } => take(world, cpu, by),
        Step::Carry { cpu } => carry(world, cpu),
        Step::Release { cpu } => release(world, cpu),
        Step::Walk { cpu } => return step_walk(world, cpu),
        Step::HandOn { cpu, to } => hand_on(world, cpu, to),
    }
    Ok(())
}
