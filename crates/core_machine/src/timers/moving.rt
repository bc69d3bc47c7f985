//! A timer moves from a CPU that is offline to an active one.

ghost use Rattle.std.specs.Prelude.{◌≡◌, ◌≢◌, ◌<◌, IfOk, OnErr, OnOk, false, length, option_map};
ghost use Rattle.std.specs.Prelude.{true};
ghost use Rattle.tm_base.specs.declared.names.TimerId.{TimerId};
ghost use Rattle.play_rules.specs.Machines.{Same, SameFlags, after_move};
ghost use Rattle.play_rules.specs.Phases.{IsUp};
ghost use Rattle.play_rules.specs.Timers.{first_to_move};
ghost use Rattle.core_world.specs.World.{cpu_of};
ghost use Rattle.step_play.specs.Rules.Seen.{InPlay, InRun, resting};
ghost use Rattle.step_play.specs.Rules.StepRules.{step_rules};
ghost use Rattle.core_machine.specs.Draining.Turns.{mover_at, timer_found};

use core_steps::{Core, law_step};
use play_rules::Mover;
use tm_base::{CpuId, Jiffy, NoMemory, TimerId};
use wheel_core::TimerBase;

/// The first timer to move from a CPU: pinned ones come first, then global, then deferrable ones,
/// each class in arming order.
pub fn first_timer<B: TimerBase>(core: &Core<B>, from: CpuId) -> Option<TimerId>
    requires { from.0 < length core.now.cpus }
    ensures { result ≡ option_map timer_found (first_to_move (cpu_of core.now from.0).bases) }
{
    core.timers_kept(from);
    let class = core.class_to_move(from)?;
    let id = core.oldest(from, class)?;
    Some(TimerId(id as u16))
}

/// A timer that came to a wheel expiry, in jiffies.
fn mover_at(timer: TimerId, wheel: Option<Jiffy>) -> Option<Mover>
    ensures { result ≡ option_map (mover_at timer) wheel }
{
    match wheel {
        Some(wheel) => Some(Mover { timer, wheel }),
        None => None,
    }
}

/// The first timer of CPU `from`, which is offline, moves to CPU `to`, which is active and placed
/// (in the place of the kernel's `migrate_timer_list`, which goes by buckets); None, with nothing
/// changed, exactly where nothing is queued on `from`. Want of memory leaves all as before.
pub fn move_first<B: TimerBase>(
    core: &mut Core<B>,
    from: CpuId,
    to: CpuId,
) -> Result<Option<Mover>, NoMemory>
    requires from { from.0 < step_rules.cpus core.old }
    requires to { to.0 < step_rules.cpus core.old }
    requires other { from.0 ≢ to.0 }
    requires offline { step_rules.is_online core.old from.0 ≡ false }
    requires placed { step_rules.is_placed core.old to.0 ≡ true }
    requires active { IsUp step_rules core.old to.0 false }
    requires fit { InRun resting core.old }
    ensures fit { OnOk result (InRun resting core.new) }
    ensures play { OnOk result (InPlay resting core.old → InPlay resting core.new) }
    ensures moved { IfOk result (λ mover. mover
        ≡ option_map (λ m. m.mover) (step_rules.moved core.old from.0 to.0)) }
    ensures state { OnOk result
        (core.new ≡ after_move (step_rules.moved core.old from.0 to.0) core.old) }
    ensures same { OnOk result (Same step_rules core.old core.new) }
    ensures flags { OnOk result (SameFlags step_rules core.old core.new) }
    ensures err { OnErr result (core.new ≡ core.old) }
{
    law_step();
    let Some(timer) = first_timer(core, from) else {
        return Ok(None);
    };
    let wheel = core.move_timer(from, to, timer)?;
    Ok(mover_at(timer, wheel))
}
