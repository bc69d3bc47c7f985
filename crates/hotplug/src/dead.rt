//! The timers of a dead CPU move to the controlling one.

ghost use Rattle.std.specs.Prelude.{◌≡◌, ◌+◌, ◌<◌, IfOk, OnErr, OnOk, false, is_some, length, true};
ghost use Rattle.core_world.specs.Covered.{IsSettled};
ghost use Rattle.play_rules.specs.Machines.{after_move};
ghost use Rattle.core_machine.specs.step_play.Rules.StepRules.{step_rules};
ghost use Rattle.hotplug.specs.Afterwards.{AllMoved, PartMoved, SomeMoved, StillQueued};
ghost use Rattle.hotplug.specs.Frames.{MayMoveAll};
ghost use Rattle.core_machine.specs.step_play.Rules.Lone.{Reaches};
ghost use Rattle.hotplug.specs.Settled.{AllWhole, MovedSome, SomeOnline, heir_of, moved_off};
ghost use Rattle.hotplug.specs.Settled.{MovedTimes};

use crate::activation::make_active;
use core_machine::readings::controller;
use core_machine::timers::first_timer;
use core_machine::{Core, law_step};
use tm_base::{CpuId, NoMemory};
use wheel_core::TimerBase;

/// The first timer of a CPU moves; whether there was one. Want of memory leaves all as before.
fn move_next<B: TimerBase>(core: &mut Core<B>, from: CpuId, to: CpuId) -> Result<bool, NoMemory>
    requires { MayMoveAll core.old from.0 to.0 }
    ensures some { IfOk result
        (λ more. more ≡ is_some (step_rules.moved core.old from.0 to.0)) }
    ensures moved { OnOk result
        (core.new ≡ after_move (step_rules.moved core.old from.0 to.0) core.old) }
    ensures may { OnOk result (MayMoveAll core.new from.0 to.0) }
    ensures fewer { IfOk result (λ more. more ≡ true →
        step_rules.count_queued core.new from.0 + 1 ≡ step_rules.count_queued core.old from.0) }
    ensures none { IfOk result (λ more. more ≡ false →
        step_rules.count_queued core.new from.0 ≡ 0) }
    ensures same { IfOk result (λ more. more ≡ false → core.new ≡ core.old) }
    ensures err { OnErr result (core.new ≡ core.old) }
    ensures over { SomeMoved core.old from.0 to.0 core.new }
    ensures left { OnErr result (StillQueued core.new from.0) }
    ensures run { Reaches core.old core.new }
{
    law_step();
    core.tree();
    let Some(timer) = first_timer(core, from) else {
        return Ok(false);
    };
    core.move_timer(from, to, timer)?;
    core.tree();
    Ok(true)
}

/// All timers of a CPU move. After want of memory the first of them have moved.
fn move_all<B: TimerBase>(core: &mut Core<B>, from: CpuId, to: CpuId) -> Result<(), NoMemory>
    requires { MayMoveAll core.old from.0 to.0 }
    ensures moved { MovedTimes core.old from.0 to.0 core.new }
    ensures none_left { OnOk result (step_rules.count_queued core.new from.0 ≡ 0) }
    ensures over { SomeMoved core.old from.0 to.0 core.new }
    ensures left { OnErr result (StillQueued core.new from.0) }
    ensures may { MayMoveAll core.new from.0 to.0 }
    ensures run { Reaches core.old core.new }
{
    while move_next(core, from, to)? {}
    Ok(())
}

/// The CPU that gets the timers of a dead one; None exactly where it has none.
fn heir_of<B: TimerBase>(core: &Core<B>, dead: CpuId) -> Option<CpuId>
    requires { dead.0 < length core.now.cpus }
    ensures { result ≡ heir_of core.now dead.0 }
{
    let Some(_timer) = first_timer(core, dead) else {
        return None;
    };
    controller(core)
}

/// The timers of an offline CPU move to the controlling CPU, which is answered: the lowest active
/// placed one, or else the lowest online placed one, which is woken; None exactly where nothing is
/// queued on the dead CPU (in the kernel `timers_dead_cpu` moves them to the CPU that does the
/// hotplug work). Pinned timers move first, then global and then deferrable ones, each class in
/// arming order. After want of memory the controlling CPU is active, and the first of the timers
/// may have moved.
pub fn move_dead<B: TimerBase>(core: &mut Core<B>, dead: CpuId) -> Result<Option<CpuId>, NoMemory>
    requires dead { dead.0 < length core.old.cpus }
    requires settled { IsSettled core.old }
    requires offline { step_rules.is_online core.old dead.0 ≡ false }
    requires some_online { SomeOnline core.old }
    requires whole { AllWhole core.old }
    ensures heir { IfOk result (λ heir. heir ≡ heir_of core.old dead.0) }
    ensures moved { OnOk result (core.new ≡ moved_off core.old dead.0) }
    ensures none_left { OnOk result (step_rules.count_queued core.new dead.0 ≡ 0) }
    ensures err { OnErr result (MovedSome core.old dead.0 core.new) }
    ensures all { IfOk result (λ heir. AllMoved core.old dead.0 heir core.new) }
    ensures part { OnErr result (PartMoved core.old dead.0 core.new) }
    ensures settled { IsSettled core.new }
    ensures whole { AllWhole core.new }
    ensures run { Reaches core.old core.new }
{
    let Some(heir) = heir_of(core, dead) else {
        return Ok(None);
    };
    make_active(core, heir);
    move_all(core, dead, heir)?;
    Ok(Some(heir))
}
