//! Who answers for the timers of an idle CPU: in every lawful world, also while walks and
//! interrupts are under way. The functions do nothing: what they say are their contracts.

ghost use Rattle.core_facts.specs.Cover.Headline.{EachCovered, EachSettled, FirstSettled};
ghost use Rattle.core_facts.specs.Cover.Once.{EachOnce};
ghost use Rattle.core_facts.specs.Cover.Rest.{EachEventRests, EachRests, EachWakes};
ghost use Rattle.core_facts.specs.Cover.Runs.{AlwaysAnswered, EachLawfulIsAnswered};

use core_laws::{law_start, law_steps};

/// THE HEADLINE: on every machine, whatever order the CPUs' steps fall in, after each step each
/// global timer that is queued on an online idle CPU is held, woken for, or carried by a walk or an
/// interrupt under way; and where none is under way, it is held or woken for.
pub fn law_always_answered()
    ensures { AlwaysAnswered }
{
    law_start();
    law_steps();
    law_answered();
}

/// In every lawful world each global timer that is queued on an online idle CPU is held, woken for
/// or carried; and where no walk and no interrupt is under way, it is held or woken for.
pub fn law_answered()
    ensures { EachLawfulIsAnswered }
{
    law_covered();
    law_each_settled();
}

/// In every lawful world a global timer that is queued on an online idle CPU is covered: held,
/// woken for, or carried.
pub fn law_covered()
    ensures { EachCovered }
{}

/// In a lawful world where no walk and no interrupt is under way, each global timer that is queued
/// on an online idle CPU is held or woken for.
pub fn law_each_settled()
    ensures { EachSettled }
{}

/// At rest the first global timer of an online idle CPU is held or woken for: the CPU wakes for it
/// itself; or the lowest active group of its path was told, and leads to an active CPU; or no group
/// of its path is active, the top was told, and a placed CPU keeps a wakeup for it.
pub fn law_cover()
    ensures { FirstSettled }
{}

/// A timer is queued at most once, and each arming has at most one end.
pub fn law_once()
    ensures { EachOnce }
{}

/// At rest no lock is taken and no CPU is marked, a bit is set exactly where its child is active,
/// and active groups lead to active CPUs below them.
pub fn law_rest()
    ensures { EachRests }
{}

/// At rest events upwards aren't later than what they stand for, and wakeups aren't later than what
/// their CPUs, and an idle top, have to be woken for.
pub fn law_rest_events()
    ensures { EachEventRests }
{}

/// At rest with nobody active, some online CPU wakes in time for each pinned or global timer of an
/// online CPU.
pub fn law_next_moment()
    ensures { EachWakes }
{}
