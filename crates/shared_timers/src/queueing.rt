//! A timer is armed, and cancelled.

ghost use Rattle.std.specs.Prelude.{◌≡◌, IfErr, IfOk, OnOk};
ghost use Rattle.cpu_bases.specs.CpuBases.{item_queued};
ghost use Rattle.cpu_bases.specs.Laws.{CallKeeps};
ghost use Rattle.shared_timers.specs.Queueing.{FoundQueued, MayArm, MayCancel, armed_part};
ghost use Rattle.shared_timers.specs.Queueing.{cancelled_part};

use crate::arming::Arming;
use crate::exchanges::{take_out, try_arm};
use crate::noting::note;
use shared_rule::{BoxPart, Run, RunName};
use shared_words::unpack_spot;
use tm_base::{Jiffy, OpFault, TimerId};
use wheel_core::TimerBase;

/// A CPU, with its own pass brought into its part, tries to arm a timer at `now`, the time of the
/// run in jiffies, and answers its wheel expiry, in jiffies (`__mod_timer`). `Queued`, with nothing
/// changed but that the pass remembers it, exactly where the timer's word names that CPU.
pub fn arm_step<N: RunName, B: TimerBase>(
    run: &Run<N, B>,
    part: &mut BoxPart<N, B>,
    now: Jiffy,
    arming: Arming,
) -> Result<Jiffy, OpFault>
    requires now { now ≡ N.opening.clock }
    requires may { MayArm N.opening part.old arming }
    ensures wheel { IfOk result (λ wheel. wheel ≡ (item_queued now arming.class arming.timer.0
        arming.expires arming.job arming.arg part.old.box.own.bases).wheel) }
    ensures armed { OnOk result (part.new ≡ armed_part arming part.old) }
    ensures keeps { OnOk result (CallKeeps now part.old.box.own.bases part.new.box.own.bases) }
    ensures queued { IfErr result
        (FoundQueued N.opening arming.timer.0 part.old part.new) }
{
    let place = part.bases.journal().len();
    let found = try_arm(run, &mut part.seat, part.cpu, arming);
    if let Some(spot) = unpack_spot(found) {
        return Err(OpFault::Queued { cpu: spot.cpu });
    }
    let Arming {
        timer,
        class,
        expires,
        job,
        arg,
        line,
    } = arming;
    let wheel = part
        .bases
        .arm(now, class, timer, expires, job, arg, line, part.cpu);
    match part.guest.as_mut() {
        Some(guest) => note(guest, part.cpu, &part.bases, place),
        None => unreachable!(),
    }
    Ok(wheel)
}

/// A timer that is queued in the part of a CPU is cancelled at `now`, the time of the run in
/// jiffies, by the CPU of the pass that is brought (`__timer_delete`).
pub fn cancel_step<N: RunName, B: TimerBase>(
    run: &Run<N, B>,
    part: &mut BoxPart<N, B>,
    now: Jiffy,
    timer: TimerId,
    line: u32,
)
    requires now { now ≡ N.opening.clock }
    requires may { MayCancel N.opening part.old timer }
    ensures part { part.new ≡ cancelled_part timer.0 line part.old }
    ensures keeps { CallKeeps now part.old.box.own.bases part.new.box.own.bases }
{
    let place = part.bases.journal().len();
    let Some(class) = part.bases.where_is(timer) else {
        unreachable!()
    };
    take_out(run, &mut part.seat, part.cpu, class, timer, line);
    match part.guest.as_mut() {
        Some(guest) => {
            part.bases.cancel(now, timer, line, guest.cpu);
            note(guest, part.cpu, &part.bases, place);
        },
        None => unreachable!(),
    }
}
