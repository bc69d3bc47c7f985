//! The next due timer of a class goes out, or its base counts as drained.

ghost use Rattle.std.specs.Prelude.{◌≡◌, ◌<◌, ◌^◌, ◌∷◌, [], IfNone, OnSome};
ghost use Rattle.wheel_core.specs.PlainBase.{NoneBehind, OneFewer, OutIsDue, next_out};
ghost use Rattle.cpu_bases.specs.CpuBases.{base_of};
ghost use Rattle.cpu_bases.specs.Laws.{HandsOut};
ghost use Rattle.shared_rule.specs.declared.parts.PassView.{PassView};
ghost use Rattle.shared_timers.specs.Draining.{MayDrain, drained_part};
ghost use Rattle.shared_timers.specs.Exchanging.{IsNext};

use crate::exchanges::drain;
use crate::noting::note;
use shared_rule::{BoxPart, Run, RunName};
use tm_base::{Class, Jiffy, TimerId};
use wheel_core::{Item, TimerBase};

/// The timer of an item.
fn timer_of(item: &Item) -> TimerId
    requires { item.now.id < 2 ^ 16 }
    ensures { result.0 ≡ item.now.id }
{
    TimerId(item.id as u16)
}

/// The next timer of a class in the part of a CPU that is due at `now`, the time of the run in
/// jiffies; None exactly where none is due.
pub fn next_timer<N: RunName, B: TimerBase>(
    part: &BoxPart<N, B>,
    now: Jiffy,
    class: Class,
) -> Option<TimerId>
    requires now { now ≡ N.opening.clock }
    ensures { IsNext N.opening part.now.box class result }
{
    part.law();
    let item = part.bases().base(class).peek_next(now)?;
    Some(timer_of(&item))
}

/// The next timer of a class that is due at `now`, the time of the run in jiffies, goes out of the
/// part of a CPU, to be run by the CPU of the pass that is brought (`expire_timers`); or, exactly
/// where none is due, the base counts as drained (the end of `__run_timers`).
pub fn drain_step<N: RunName, B: TimerBase>(
    run: &Run<N, B>,
    part: &mut BoxPart<N, B>,
    now: Jiffy,
    class: Class,
) -> Option<Item>
    requires now { now ≡ N.opening.clock }
    requires may { MayDrain part.old class }
    ensures item { result ≡ next_out now (base_of class part.old.box.own.bases) }
    ensures part { part.new ≡ drained_part class part.old }
    ensures due { OutIsDue now (base_of class part.old.box.own.bases).items result }
    ensures one_fewer { OnSome result (OneFewer (base_of class part.old.box.own.bases)
        (base_of class part.new.box.own.bases)) }
    ensures none_behind { IfNone result (NoneBehind (base_of class part.new.box.own.bases)) }
    ensures keeps { (p : PassView) → part.old.brought ≡ p ∷ []
        → HandsOut now class p.cpu part.old.box.own.bases part.new.box.own.bases }
{
    let place = part.bases.journal().len();
    let next = next_timer(part, now, class);
    drain(run, &mut part.seat, part.cpu, class, next);
    match part.guest.as_mut() {
        Some(guest) => {
            let item = part.bases.take_due(now, class, guest.cpu);
            note(guest, part.cpu, &part.bases, place);
            item
        },
        None => unreachable!(),
    }
}
