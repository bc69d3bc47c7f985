//! A base is drained.

ghost use Rattle.std.specs.Prelude.{◌≡◌, ◌<◌, All, IfOk, None, OnErr, OnOk, OnSome, false};
ghost use Rattle.std.specs.Prelude.{length, nat_le};
ghost use Rattle.std.specs.Option.{option_map_or};
ghost use Rattle.wheel_core.specs.PlainBase.{OneFewer, least, next_out};
ghost use Rattle.cpu_bases.specs.CpuBases.{base_of};
ghost use Rattle.core_world.specs.declared.step.Step.TheVariants as steps;
ghost use Rattle.core_world.specs.Steps.{stepped};
ghost use Rattle.core_world.specs.World.{cpu_of};
ghost use Rattle.play_rules.specs.Machines.{IsTimerOf, PartDrained, Same, SameOnline};
ghost use Rattle.play_rules.specs.Phases.{FitsSome, MayDrain, StaysFit};
ghost use Rattle.play_rules.specs.Timers.{item_then};
ghost use Rattle.step_play.specs.Rules.Seen.{InPlay, InRun};
ghost use Rattle.step_play.specs.Rules.StepRules.{items_due, step_rules};
ghost use Rattle.core_machine.specs.Draining.Turns.{DrainedSome, Drains, handed_next};

use core_steps::{Core, law_step};
use std::alloc::Global;
use tm_base::{Class, CpuId, NoMemory, TimerId};
use wheel_core::{Item, TimerBase};

/// Hands the next due timer of a class out for a runner; None, with nothing changed, where none is
/// due.
fn hand_next<B: TimerBase>(
    core: &mut Core<B>,
    home: CpuId,
    class: Class,
    runner: CpuId,
) -> Result<Option<Item>, NoMemory>
    requires drains { Drains core.old home.0 class runner.0 }
    ensures item { IfOk result (λ item. item
        ≡ next_out core.old.clock (base_of class (cpu_of core.old home.0).bases)) }
    ensures state { IfOk result
        (λ item. core.new ≡ handed_next core.old home.0 runner.0 item) }
    ensures due { IfOk result (λ item. items_due core.old home.0 class
        ≡ item_then item (items_due core.new home.0 class)) }
    ensures fewer { IfOk result (λ item. OnSome item
        (OneFewer (base_of class (cpu_of core.old home.0).bases)
        (base_of class (cpu_of core.new home.0).bases))) }
    ensures same { Same step_rules core.old core.new }
    ensures online { SameOnline step_rules core.old core.new }
    ensures drains { OnOk result (Drains core.new home.0 class runner.0) }
    ensures clock { core.new.clock ≡ core.old.clock }
    ensures err { OnErr result (core.new ≡ core.old) }
{
    law_step();
    core.tree();
    let Some(item) = core.next_out(home, class) else {
        return Ok(None);
    };
    core.hand(home, TimerId(item.id as u16), runner)?;
    Ok(Some(item))
}

/// Hands all due timers of a class out. It is kept out of its caller, which mostly finds that none
/// is due.
#[inline(never)]
fn hand_all<B: TimerBase>(
    core: &mut Core<B>,
    alloc: Global,
    home: CpuId,
    class: Class,
    runner: CpuId,
) -> Result<Vec<Item>, NoMemory>
    requires drains { Drains core.old home.0 class runner.0 }
    ensures items { IfOk result (λ out. out.items ≡ items_due core.old home.0 class) }
    ensures state { OnOk result (stepped core.new (steps.Ticked home class runner)
        ≡ (step_rules.drained core.old home.0 class runner.0).state) }
    ensures none { OnOk result (next_out core.new.clock
        (base_of class (cpu_of core.new home.0).bases) ≡ None) }
    ensures drains { OnOk result (Drains core.new home.0 class runner.0) }
    ensures clock { core.new.clock ≡ core.old.clock }
    ensures some { DrainedSome core.old home.0 class runner.0 core.new }
    ensures part { PartDrained step_rules core.old home.0 class runner.0 core.new }
{
    let mut items = Vec::new(alloc);
    while let Some(item) = hand_next(core, home, class, runner)? {
        items.push(item)?;
    }
    Ok(items)
}

/// Whether the first timer of a class on a CPU is due.
#[inline(always)]
fn has_due<B: TimerBase>(core: &Core<B>, home: CpuId, class: Class) -> bool
    requires { home.0 < length core.now.cpus }
    ensures due { result ≡ option_map_or (λ first. nat_le first core.now.clock)
        (least (base_of class (cpu_of core.now home.0).bases).items) false }
    ensures none { result ≡ false → next_out core.now.clock
        (base_of class (cpu_of core.now home.0).bases) ≡ None }
{
    match core.bases(home).base(class).first() {
        Some(first) => first <= core.now(),
        None => false,
    }
}

/// Hands all due timers of a class out, where there are any: mostly there are none, and then this
/// is all that it costs.
#[inline(always)]
fn hand_due<B: TimerBase>(
    core: &mut Core<B>,
    alloc: Global,
    home: CpuId,
    class: Class,
    runner: CpuId,
) -> Result<Vec<Item>, NoMemory>
    requires drains { Drains core.old home.0 class runner.0 }
    ensures items { IfOk result (λ out. out.items ≡ items_due core.old home.0 class) }
    ensures state { OnOk result (stepped core.new (steps.Ticked home class runner)
        ≡ (step_rules.drained core.old home.0 class runner.0).state) }
    ensures none { OnOk result (next_out core.new.clock
        (base_of class (cpu_of core.new home.0).bases) ≡ None) }
    ensures drains { OnOk result (Drains core.new home.0 class runner.0) }
    ensures clock { core.new.clock ≡ core.old.clock }
    ensures some { DrainedSome core.old home.0 class runner.0 core.new }
    ensures part { PartDrained step_rules core.old home.0 class runner.0 core.new }
{
    law_step();
    core.tree();
    if !has_due(core, home, class) {
        return Ok(Vec::new(alloc));
    }
    hand_all(core, alloc, home, class, runner)
}

/// Takes out all timers of a base of CPU `home` that are due at the clock, for CPU `runner` to run
/// their jobs, in the order of hand-out (the kernel's `__run_timers`; of the global base of another
/// CPU `timer_expire_remote`). After want of memory the first of them may be out.
#[inline(always)]
pub fn drain<B: TimerBase>(
    core: &mut Core<B>,
    alloc: Global,
    home: CpuId,
    class: Class,
    runner: CpuId,
) -> Result<Vec<Item>, NoMemory>
    requires home { home.0 < step_rules.cpus core.old }
    requires runner { runner.0 < step_rules.cpus core.old }
    requires fit { FitsSome InRun (λ ph. MayDrain ph home.0 class runner.0) core.old }
    ensures fit { OnOk result
        (StaysFit InRun (λ ph. MayDrain ph home.0 class runner.0) core.old core.new) }
    ensures play { OnOk result
        (StaysFit InPlay (λ ph. MayDrain ph home.0 class runner.0) core.old core.new) }
    ensures items { IfOk result
        (λ out. out.items ≡ (step_rules.drained core.old home.0 class runner.0).items) }
    ensures timers { IfOk result
        (λ out. All (IsTimerOf (step_rules.timers core.old)) out.items) }
    ensures state { OnOk result
        (core.new ≡ (step_rules.drained core.old home.0 class runner.0).state) }
    ensures same { OnOk result (Same step_rules core.old core.new) }
    ensures online { OnOk result (SameOnline step_rules core.old core.new) }
    ensures clock { step_rules.clock core.new ≡ step_rules.clock core.old }
    ensures err { OnErr result (DrainedSome core.old home.0 class runner.0 core.new) }
    ensures part { OnErr result
        (PartDrained step_rules core.old home.0 class runner.0 core.new) }
{
    law_step();
    core.tree();
    let _timers = core.timers();
    let items = hand_due(core, alloc, home, class, runner)?;
    core.drained(home, class, runner)?;
    Ok(items)
}
