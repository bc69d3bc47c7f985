//! The same calls on both bases.

ghost use Rattle.std.specs.Prelude.{◌≡◌, IfOk};
ghost use Rattle.base_calls.specs.WheelCalls.{MayCallBaseAll, answers_of_base};
ghost use Rattle.wheel_base.specs.Wheels.{no_base};

use crate::wheel::{BaseAnswer, BaseCall, make_calls};
use std::alloc::Global;
use wheel_base::WheelBase;
use wheel_core::{ListBase, NoRoom};

/// What an empty list and an empty wheel answer to the same calls, each by the one function over
/// any base. Both answer as the plain base does, and so alike.
pub fn calls_on_both(
    alloc: Global,
    calls: &[BaseCall],
) -> Result<(Vec<BaseAnswer>, Vec<BaseAnswer>), NoRoom>
    requires { MayCallBaseAll calls.now no_base }
    ensures list { IfOk result (λ both. both.0.items ≡ answers_of_base calls.now no_base) }
    ensures wheel { IfOk result (λ both. both.1.items ≡ answers_of_base calls.now no_base) }
    ensures alike { IfOk result (λ both. both.0.items ≡ both.1.items) }
{
    let mut list = ListBase::new(alloc);
    let by_list = make_calls(alloc, &mut list, calls)?;
    let mut wheel = WheelBase::new(alloc)?;
    let by_wheel = make_calls(alloc, &mut wheel, calls)?;
    Ok((by_list, by_wheel))
}
