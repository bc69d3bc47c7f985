//! The step in front of a case's threads that can't be made.

ghost use Rattle.core_world.specs.Enabled.{Enabled};
ghost use Rattle.step_causes.specs.Causes.{IsCause};

use core_world::Step;
use orders_causes::{Cause, cause};
use orders_plain::Tried;

/// Why a step that isn't enabled can't be made.
pub(crate) fn cause_of(world: &Tried, step: Step) -> Cause
    requires { Enabled world.now.world step → ⊥ }
    ensures { IsCause world.now.world (λ w. Enabled w step) result }
{
    match cause(&world.world, &step) {
        Some(found) => found,
        None => unreachable!(),
    }
}
