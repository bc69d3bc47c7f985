//! What holds of every core. Each of these functions does nothing; its contract is the law.

ghost use Rattle.std.specs.Prelude.{◌⊎◌, ℕ};
ghost use Rattle.coverage.specs.Coverage.{Held, Woken};
ghost use Rattle.wheel_core.specs.declared.item.Item.{Item};
ghost use Rattle.core_world.specs.Covered.{Covered, IsSettled, machine_of};
ghost use Rattle.core_world.specs.Lawful.{IsLawful};
ghost use Rattle.step_core.specs.core_facts.Cover.Headline.{IsWaiting};
ghost use Rattle.step_core.specs.core_facts.Cover.Once.{IsOnce};
ghost use Rattle.step_core.specs.core_state.Kept.{WorldsStayFit};
ghost use Rattle.step_laws.specs.Reached.{EachReachedFits};

use core_world::law_sizes;
use step_core::{Core, law_height, law_replay, law_start, law_step};
use wheel_core::TimerBase;

/// Every core is lawful: it began so, and each step keeps it.
pub fn law_lawful<B: TimerBase>(core: &Core<B>)
    ensures { IsLawful core.now }
{
    core.tree();
}

/// THE HEADLINE: each global timer that is queued on an online idle CPU is covered, whatever walks
/// and interrupts are under way.
pub fn law_covered<B: TimerBase>(core: &Core<B>)
    ensures { (c : ℕ) (item : Item) → IsWaiting core.now c item → Covered core.now c item.wheel }
{
    law_lawful(core);
    step_core::law_covered();
}

/// Where none is under way, each of them is held or woken for.
pub fn law_settled<B: TimerBase>(core: &Core<B>)
    ensures { IsSettled core.now → (c : ℕ) (item : Item) → IsWaiting core.now c item →
        Held (machine_of core.now) c item.wheel ⊎ Woken (machine_of core.now) c item.wheel }
{
    law_lawful(core);
    step_core::law_each_settled();
}

/// A timer is queued at most once, and each arming has at most one end.
pub fn law_once<B: TimerBase>(core: &Core<B>)
    ensures { IsOnce core.now }
{
    law_lawful(core);
    step_core::law_once();
}

/// No step leaves what a core keeps.
fn law_stay()
    ensures { WorldsStayFit }
{
    law_sizes();
    law_step();
    law_replay();
    law_height();
}

/// Each world that enabled steps reach from a machine's start is one of which a core can be made:
/// it keeps all that `Core::from_parts` asks of a world, walks at levels that fit among it.
pub fn law_reached()
    ensures { EachReachedFits }
{
    law_start();
    law_replay();
    law_height();
    law_stay();
}
