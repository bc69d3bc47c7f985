//! A CPU's thread arms a timer.

ghost use Rattle.std.specs.Prelude.{◌≡◌, ◌+◌, ◌<◌, MatchResult, length};
ghost use Rattle.tm_base.specs.declared.names.TheConstants.{TIME_LIMIT};
ghost use Rattle.shared_table.specs.shared_rule.Parts.{HeldPart, without_guest};
ghost use Rattle.shared_table.specs.shared_rule.Passes.{IsOfRun};
ghost use Rattle.shared_table.specs.Begun.{IsFree};
ghost use Rattle.shared_calls.specs.Arms.{HasArmed, HasFailed, IsArmable, IsArmed, MayArmInPart};
ghost use Rattle.shared_calls.specs.Arms.{MetBy};
ghost use Rattle.shared_calls.specs.Arms.{NotArmed, arm_fault_of, timer_arming_of};

use cpu_word::CpuState;
use shared_looks::take_room;
use shared_table::{BoxPart, CpuBox, Pass, Run, RunName, Shared, visit};
use shared_timers::{Arming, arm_with};
use std::sync::Wait;
use tm_base::{Class, Jiffy, OpFault, TimerId};
use wheel_core::TimerBase;

/// Why a CPU that shows this can't arm.
fn arm_fault(state: CpuState) -> Option<OpFault>
    ensures { result ≡ arm_fault_of state.online state.idle state.inside }
{
    if !state.online {
        Some(OpFault::Offline)
    } else if state.idle && !state.inside {
        Some(OpFault::NotActive)
    } else {
        None
    }
}

/// Arms in a part that lies behind its CPU's lock, with the CPU's own pass.
fn arm_free<N: RunName, B: TimerBase>(
    run: &Run<N, B>,
    part: &mut BoxPart<N, B>,
    pass: &mut Pass,
    now: Jiffy,
    arming: Arming,
) -> Result<Jiffy, OpFault>
    requires run { IsOfRun N.table pass.old }
    requires free { IsFree part.old }
    requires now { now ≡ N.opening.clock }
    requires may { MayArmInPart N.table N.opening part.old pass.old arming }
    ensures free { IsFree part.new }
    ensures done { MatchResult result (IsArmed N.table now arming part.old pass.old pass.new)
        (HasFailed N.table N.opening arming.timer.0 part.old pass.old pass.new) }
{
    match take_room(part, pass, 1, 1) {
        Ok(()) => arm_with(run, part, pass, now, arming),
        Err(_) => Err(OpFault::NoMemory),
    }
}

/// The same, where the CPU may arm.
fn arm_part<N: RunName, B: TimerBase>(
    run: &Run<N, B>,
    part: &mut BoxPart<N, B>,
    pass: &mut Pass,
    now: Jiffy,
    arming: Arming,
) -> Result<Jiffy, OpFault>
    requires run { IsOfRun N.table pass.old }
    requires own { pass.old.cpu ≡ part.old.box.cpu }
    requires free { IsFree part.old }
    requires now { now ≡ N.opening.clock }
    requires arming { IsArmable N.opening arming }
    ensures free { IsFree part.new }
    ensures met { MetBy N.table (without_guest part.old) pass.old }
    ensures done { MatchResult result
        (HasArmed N.table now arming (without_guest part.old) pass.old pass.new)
        (NotArmed N.table N.opening arming.timer.0 (without_guest part.old) pass.old pass.new) }
{
    visit(run, part, pass);
    match arm_fault(part.state()) {
        Some(fault) => Err(fault),
        None => arm_free(run, part, pass, now, arming),
    }
}

/// The same in the box of the CPU.
fn arm_in<N: RunName, B: TimerBase>(
    run: &Run<N, B>,
    cpu_box: &mut CpuBox<N, B>,
    pass: &mut Pass,
    now: Jiffy,
    arming: Arming,
) -> Result<Jiffy, OpFault>
    requires run { IsOfRun N.table pass.old }
    requires own { pass.old.cpu ≡ cpu_box.old.box.cpu }
    requires now { now ≡ N.opening.clock }
    requires arming { IsArmable N.opening arming }
    ensures met { MetBy N.table (without_guest cpu_box.old) pass.old }
    ensures done { MatchResult result
        (HasArmed N.table now arming (without_guest cpu_box.old) pass.old pass.new)
        (NotArmed N.table N.opening arming.timer.0 (without_guest cpu_box.old) pass.old pass.new) }
{
    arm_part(run, &mut cpu_box.part, pass, now, arming)
}

/// Arms a timer on the CPU of a pass at `now`, the time of the run in jiffies, for `now + delay`,
/// with the receipt, and answers its wheel expiry, in jiffies (`__mod_timer`). `Offline` comes
/// exactly where the CPU is offline, `NotActive` exactly where it is online, idle and outside its
/// interrupt, `Queued` exactly where the timer's word named that CPU; `NoMemory` leaves timers and
/// receipts as they were. In each case the pass knows its CPU's journal as it is by then. It takes
/// the CPU's lock; no clause says that it takes no other.
pub fn arm<N: RunName, B: TimerBase, R: Wait>(
    rt: &R,
    shared: &Shared<N, B>,
    pass: &mut Pass,
    now: Jiffy,
    timer: TimerId,
    class: Class,
    delay: u32,
    job: u8,
    arg: u32,
    line: u32,
) -> Result<Jiffy, OpFault>
    requires run { IsOfRun N.table pass.old }
    requires cpu { pass.old.cpu < length N.opening.cpus }
    requires now { now ≡ N.opening.clock }
    requires timer { timer.0 < N.opening.timers }
    requires in_time { now + delay < TIME_LIMIT }
    ensures { (part : HeldPart) × MetBy N.table part pass.old × MatchResult result
        (HasArmed N.table now (timer_arming_of timer class (now + delay) job arg line) part pass.old
        pass.new)
        (NotArmed N.table N.opening timer.0 part pass.old pass.new) }
{
    let arming = Arming {
        timer,
        class,
        expires: now + u64::from(delay),
        job,
        arg,
        line,
    };
    let mut guard = shared.lock(rt, pass.cpu());
    arm_in(shared.run(), &mut *guard, pass, now, arming)
}
