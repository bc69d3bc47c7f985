//! The exchanges of a timer's word, and the load by which a base counts as drained, with a seat
//! that has a CPU's part and a pass.

ghost use Rattle.std.specs.Prelude.{◌≡◌, ◌==◌, Some};
ghost use mathlib.Core.Option.{some};
ghost use Rattle.shared_rule.specs.declared.parts.Said.TheVariants as saids;
ghost use Rattle.shared_rule.specs.Plays.{Sound};
ghost use Rattle.shared_rule.specs.Timers.{ArmTells, cancelled_box, cancelled_pass};
ghost use Rattle.shared_rule.specs.Timers.{handed_box, handed_pass};
ghost use Rattle.shared_rule.specs.Turns.{on_pair, ticked_box, ticked_pass};
ghost use Rattle.shared_timers.specs.Draining.{drained_pass};
ghost use Rattle.shared_timers.specs.Exchanging.{MayTakeOut, MayTryArm, MayTryDrain, MayTryHand};
ghost use Rattle.shared_timers.specs.Exchanging.{MayTryTick, timer_word};

use crate::arming::Arming;
use shared_rule::{
    Arms, Cancels, Hands, Run, RunName, Said, Seat, TicksDeferrable, TicksGlobal, TicksPinned,
    law_arm, law_cancel, law_hand, law_tick,
};
use shared_words::{SharedWord, Spot, pack_spot};
use tm_base::{Class, CpuId, TimerId};
use wheel_core::TimerBase;

/// The exchange of a timer's word by which it comes to the base of a CPU, unless it is queued;
/// answers the word that it found, 0 exactly where it wasn't queued (`__mod_timer`).
pub fn try_arm<N: RunName, B: TimerBase>(
    run: &Run<N, B>,
    seat: &mut Seat,
    cpu: CpuId,
    arming: Arming,
) -> u64
    requires table { seat.old.table_id ≡ N.table }
    requires may { MayTryArm N.opening seat.old.me cpu.0 arming }
    ensures table { seat.new.table_id ≡ N.table }
    ensures told { ArmTells (some (saids.Arm arming.timer arming.class arming.expires arming.job
        arming.arg arming.line)) (result == 0) (timer_word N.opening arming.timer.0) result
        seat.old.me seat.new.me }
    ensures sound { Sound seat.new.me }
{
    law_arm();
    let place = run.layout.index(SharedWord::Timer(arming.timer));
    let mine = pack_spot(Some(Spot {
        cpu,
        class: arming.class,
    }));
    let said = Said::Arm {
        timer: arming.timer,
        class: arming.class,
        expires: arming.expires,
        job: arming.job,
        arg: arming.arg,
        line: arming.line,
    };
    run.words
        .shared
        .compare_exchange_with::<Arms>(seat, place, 0, mine, &said)
}

/// The exchange of a timer's word by which it is cancelled, where it is queued in the base of a
/// class on a CPU (`__timer_delete`).
pub fn take_out<N: RunName, B: TimerBase>(
    run: &Run<N, B>,
    seat: &mut Seat,
    cpu: CpuId,
    class: Class,
    timer: TimerId,
    line: u32,
)
    requires table { seat.old.table_id ≡ N.table }
    requires may { MayTakeOut N.opening seat.old.me cpu.0 class timer }
    ensures table { seat.new.table_id ≡ N.table }
    ensures told { seat.new.me
        ≡ on_pair (cancelled_box timer.0 line) (cancelled_pass timer.0 line) seat.old.me }
    ensures sound { Sound seat.new.me }
{
    law_cancel();
    let place = run.layout.index(SharedWord::Timer(timer));
    let here = pack_spot(Some(Spot { cpu, class }));
    let said = Said::Cancel { timer, line };
    run.words
        .shared
        .compare_exchange_with::<Cancels>(seat, place, here, 0, &said);
}

/// The exchange of a timer's word by which it goes out to be run, where it is the next due one of
/// a class on a CPU.
fn hand_out<N: RunName, B: TimerBase>(
    run: &Run<N, B>,
    seat: &mut Seat,
    cpu: CpuId,
    class: Class,
    timer: TimerId,
)
    requires table { seat.old.table_id ≡ N.table }
    requires may { MayTryHand N.opening seat.old.me cpu.0 class timer }
    ensures table { seat.new.table_id ≡ N.table }
    ensures told { seat.new.me ≡ on_pair (handed_box class) (handed_pass class) seat.old.me }
    ensures sound { Sound seat.new.me }
{
    law_hand();
    let place = run.layout.index(SharedWord::Timer(timer));
    let here = pack_spot(Some(Spot { cpu, class }));
    let said = Said::Hand { class };
    run.words
        .shared
        .compare_exchange_with::<Hands>(seat, place, here, 0, &said);
}

/// The load of a CPU's word at which its base of a class counts as drained.
fn tick<N: RunName, B: TimerBase>(run: &Run<N, B>, seat: &mut Seat, cpu: CpuId, class: Class)
    requires table { seat.old.table_id ≡ N.table }
    requires may { MayTryTick N.opening seat.old.me cpu.0 class }
    ensures table { seat.new.table_id ≡ N.table }
    ensures told { seat.new.me ≡ on_pair (ticked_box class) (ticked_pass class) seat.old.me }
    ensures sound { Sound seat.new.me }
{
    law_tick();
    let place = run.layout.index(SharedWord::Cpu(cpu));
    match class {
        Class::Pinned => run.words.shared.load::<TicksPinned>(seat, place),
        Class::Global => run.words.shared.load::<TicksGlobal>(seat, place),
        Class::Deferrable => run.words.shared.load::<TicksDeferrable>(seat, place),
    };
}

/// The next due timer of a class goes out of the bases of a CPU, where there is one, or else its
/// base counts as drained (`expire_timers`, `__run_timers`).
pub fn drain<N: RunName, B: TimerBase>(
    run: &Run<N, B>,
    seat: &mut Seat,
    cpu: CpuId,
    class: Class,
    next: Option<TimerId>,
)
    requires table { seat.old.table_id ≡ N.table }
    requires may { MayTryDrain N.opening seat.old.me cpu.0 class next }
    ensures table { seat.new.table_id ≡ N.table }
    ensures told { seat.new.me ≡ on_pair (handed_box class) (drained_pass class) seat.old.me }
    ensures sound { Sound seat.new.me }
{
    match next {
        Some(timer) => hand_out(run, seat, cpu, class, timer),
        None => tick(run, seat, cpu, class),
    }
}
