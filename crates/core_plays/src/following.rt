//! The moment that follows the clock of a core.

ghost use Rattle.std.specs.Prelude.{◌≡◌, ◌<◌, ◌≤◌};
ghost use Rattle.tm_script.specs.Grammar.{IsScript};
ghost use Rattle.play_rules.specs.Moments.{next_moment};
ghost use Rattle.core_world.specs.Covered.{IsSettled};
ghost use Rattle.core_machine.specs.step_play.Rules.StepRules.{step_rules};
ghost use Rattle.core_plays.specs.Following.{IsNextOfPlay, PassesNone, moments_past};

use core_machine::law_steps_are_play;
use core_machine::readings::next_interrupt;
use step_core::{Core, law_next_moment};
use tm_base::Jiffy;
use tm_script::{Moment, Script};
use wheel_core::TimerBase;

/// The moments that come after a time, in jiffies.
fn moments_past(moments: &[Moment], now: Jiffy) -> &[Moment]
    ensures { result.now ≡ moments_past now moments.now }
{
    let mut left = moments;
    while let [first, rest @ ..] = left {
        if now < first.at {
            return left;
        }
        left = rest;
    }
    left
}

/// The core's next interrupt, the first moment of the script that is still to come, or its end,
/// whatever comes first, but later than the core's clock; in jiffies.
fn next_time<B: TimerBase>(core: &Core<B>, script: &Script) -> Jiffy
    ensures next { result ≡ next_moment step_rules script.now.end
        (moments_past core.now.clock script.now.moments) core.now }
    ensures later { core.now.clock < result }
{
    core.kept();
    let said = match moments_past(script.moments.as_slice(), core.now()) {
        [next, ..] => next.at,
        [] => script.end,
    };
    next_interrupt(core).min(said).max(core.now() + 1)
}

/// When the next moment of a script comes that a core plays, in jiffies: the core's next interrupt,
/// the first moment of the script that is still to come, or its end, whatever comes first.
///
/// It is later than the core's clock, and where that is before the script's end it isn't past the
/// end. On a core at rest it isn't later than the wheel expiry of any pinned or global timer of an
/// online CPU, if that is still to come. Where a moment of the script's play left this core, it is
/// the time of the moment that the play makes next.
pub fn next_moment<B: TimerBase>(core: &Core<B>, script: &Script) -> Jiffy
    ensures next { result ≡ next_moment step_rules script.now.end
        (moments_past core.now.clock script.now.moments) core.now }
    ensures later { core.now.clock < result }
    ensures by_the_end { IsScript script.now → core.now.clock < script.now.end →
        result ≤ script.now.end }
    ensures passes_none { IsSettled core.now → PassesNone core.now result }
    ensures of_the_play { IsScript script.now → IsNextOfPlay core.now script.now result }
{
    core.kept();
    law_next_moment();
    law_steps_are_play();
    next_time(core, script)
}
