//! A CPU's thread cancels a timer.

ghost use Rattle.std.specs.Prelude.{◌≡◌, ◌<◌, MatchResult, length};
ghost use Rattle.shared_table.specs.shared_rule.Parts.{HeldPart, without_guest};
ghost use Rattle.shared_table.specs.shared_rule.Passes.{IsOfRun};
ghost use Rattle.shared_table.specs.Begun.{IsFree};
ghost use Rattle.shared_looks.specs.Looks.{IsPassBegunWith};
ghost use Rattle.shared_calls.specs.Arms.{MetBy};
ghost use Rattle.shared_calls.specs.Cancels.{CameTo, HasCancelled, HasFallenShort, HasTriedCancel};
ghost use Rattle.shared_calls.specs.Cancels.{IsCancelAsked};
ghost use Rattle.shared_calls.specs.Cancels.{IsElsewhere, IsPartOf, NotCancelled, TookOut};
ghost use Rattle.shared_calls.specs.Cancels.{cancel_fault_of, tried_of};

use cpu_word::CpuState;
use shared_looks::take_room;
use shared_table::{BoxPart, CpuBox, Pass, Run, RunName, Shared, visit};
use shared_timers::cancel_with;
use shared_words::unpack_spot;
use std::sync::Wait;
use tm_base::{CpuId, Jiffy, NoMemory, OpFault, TimerId};
use wheel_core::TimerBase;

/// What one load of a timer's word, with a look into the part of the CPU that it names, came to.
#[derive(Clone, Copy)]
pub(crate) enum Tried {
    /// The timer isn't queued.
    Nowhere,
    /// The timer was there, and is cancelled.
    Cancelled(CpuId),
    /// The timer has gone from there meanwhile.
    Gone,
}

/// Why a CPU that shows this can't cancel.
fn cancel_fault(state: CpuState) -> Option<OpFault>
    ensures { result ≡ cancel_fault_of state.online state.idle }
{
    if !state.online {
        Some(OpFault::Offline)
    } else if state.idle {
        Some(OpFault::NotActive)
    } else {
        None
    }
}

/// A pass asks the part of its CPU whether the CPU may cancel.
fn ask_part<N: RunName, B: TimerBase>(
    run: &Run<N, B>,
    part: &mut BoxPart<N, B>,
    pass: &mut Pass,
) -> Option<OpFault>
    requires run { IsOfRun N.table pass.old }
    requires own { pass.old.cpu ≡ part.old.box.cpu }
    requires free { IsFree part.old }
    ensures free { IsFree part.new }
    ensures asked { IsCancelAsked N.table N.opening (without_guest part.old) pass.old pass.new
        result }
{
    visit(run, part, pass);
    cancel_fault(part.state())
}

/// The same of the box of the CPU.
fn ask_box<N: RunName, B: TimerBase>(
    run: &Run<N, B>,
    cpu_box: &mut CpuBox<N, B>,
    pass: &mut Pass,
) -> Option<OpFault>
    requires run { IsOfRun N.table pass.old }
    requires own { pass.old.cpu ≡ cpu_box.old.box.cpu }
    ensures { IsCancelAsked N.table N.opening (without_guest cpu_box.old) pass.old pass.new result }
{
    ask_part(run, &mut cpu_box.part, pass)
}

/// The same, with the CPU's lock taken for it.
fn ask<N: RunName, B: TimerBase, R: Wait>(
    rt: &R,
    shared: &Shared<N, B>,
    pass: &mut Pass,
) -> Option<OpFault>
    requires run { IsOfRun N.table pass.old }
    requires cpu { pass.old.cpu < length N.opening.cpus }
    ensures { (part : HeldPart) × IsCancelAsked N.table N.opening part pass.old pass.new result }
{
    let mut guard = shared.lock(rt, pass.cpu());
    ask_box(shared.run(), &mut *guard, pass)
}

/// Cancels a timer in a part that lies behind its CPU's lock, where it is queued there; false, with
/// nothing changed, where it isn't.
fn cancel_part<N: RunName, B: TimerBase>(
    run: &Run<N, B>,
    part: &mut BoxPart<N, B>,
    pass: &mut Pass,
    now: Jiffy,
    timer: TimerId,
    line: u32,
) -> Result<bool, NoMemory>
    requires run { IsOfRun N.table pass.old }
    requires free { IsFree part.old }
    requires now { now ≡ N.opening.clock }
    requires timer { timer.0 < N.opening.timers }
    ensures free { IsFree part.new }
    ensures part { IsPartOf N.opening part.old.box.cpu part.old }
    ensures done { MatchResult result (TookOut N.table timer.0 line part.old pass.old pass.new)
        (λ e. pass.new ≡ pass.old) }
{
    part.law();
    if part.bases().where_is(timer).is_none() {
        return Ok(false);
    }
    take_room(part, pass, 0, 1)?;
    cancel_with(run, part, pass, now, timer, line);
    Ok(true)
}

/// The same in the box of a CPU.
fn cancel_box<N: RunName, B: TimerBase>(
    run: &Run<N, B>,
    cpu_box: &mut CpuBox<N, B>,
    pass: &mut Pass,
    now: Jiffy,
    timer: TimerId,
    line: u32,
) -> Result<bool, NoMemory>
    requires run { IsOfRun N.table pass.old }
    requires now { now ≡ N.opening.clock }
    requires timer { timer.0 < N.opening.timers }
    ensures part { IsPartOf N.opening cpu_box.old.box.cpu cpu_box.old }
    ensures done { MatchResult result (TookOut N.table timer.0 line cpu_box.old pass.old pass.new)
        (λ e. pass.new ≡ pass.old) }
{
    cancel_part(run, &mut cpu_box.part, pass, now, timer, line)
}

/// The same, with the CPU's lock taken for it.
fn cancel_at<N: RunName, B: TimerBase, R: Wait>(
    rt: &R,
    shared: &Shared<N, B>,
    pass: &mut Pass,
    cpu: CpuId,
    now: Jiffy,
    timer: TimerId,
    line: u32,
) -> Result<bool, NoMemory>
    requires run { IsOfRun N.table pass.old }
    requires cpu { cpu.0 < length N.opening.cpus }
    requires now { now ≡ N.opening.clock }
    requires timer { timer.0 < N.opening.timers }
    ensures { (home : HeldPart) × IsPartOf N.opening cpu.0 home × MatchResult result
        (TookOut N.table timer.0 line home pass.old pass.new) (λ e. pass.new ≡ pass.old) }
{
    let mut guard = shared.lock(rt, cpu);
    cancel_box(shared.run(), &mut *guard, pass, now, timer, line)
}

/// What a look into the part of a CPU came to.
fn outcome(taken: bool, cpu: CpuId) -> Tried
    ensures { result ≡ tried_of taken cpu }
{
    if taken {
        Tried::Cancelled(cpu)
    } else {
        Tried::Gone
    }
}

/// Loads a timer's word once, and cancels the timer on the CPU that it names.
fn try_cancel<N: RunName, B: TimerBase, R: Wait>(
    rt: &R,
    shared: &Shared<N, B>,
    pass: &mut Pass,
    now: Jiffy,
    timer: TimerId,
    line: u32,
) -> Result<Tried, NoMemory>
    requires run { IsPassBegunWith N.table N.opening pass.old }
    requires now { now ≡ N.opening.clock }
    requires timer { timer.0 < N.opening.timers }
    ensures { MatchResult result (HasTriedCancel N.table N.opening timer.0 line pass.old pass.new)
        (λ e. IsElsewhere N.opening timer.0 pass.old pass.new) }
{
    let found = pass.see_timer(shared.run(), timer);
    let Some(spot) = unpack_spot(found) else {
        return Ok(Tried::Nowhere);
    };
    match cancel_at(rt, shared, pass, spot.cpu, now, timer, line) {
        Ok(taken) => Ok(outcome(taken, spot.cpu)),
        Err(error) => Err(error),
    }
}

/// Loads a timer's word until it says that the timer isn't queued, or the timer is cancelled on the
/// CPU that it names.
fn cancel_named<N: RunName, B: TimerBase, R: Wait>(
    rt: &R,
    shared: &Shared<N, B>,
    pass: &mut Pass,
    now: Jiffy,
    timer: TimerId,
    line: u32,
) -> Result<Option<CpuId>, OpFault>
    requires run { IsPassBegunWith N.table N.opening pass.old }
    requires now { now ≡ N.opening.clock }
    requires timer { timer.0 < N.opening.timers }
    ensures { MatchResult result (CameTo N.table N.opening timer.0 line pass.old pass.new)
        (HasFallenShort N.opening timer.0 pass.old pass.new) }
{
    for _ in rt.forever() {
        match try_cancel(rt, shared, pass, now, timer, line) {
            Ok(Tried::Nowhere) => return Ok(None),
            Ok(Tried::Cancelled(cpu)) => return Ok(Some(cpu)),
            Ok(Tried::Gone) => {},
            Err(_) => return Err(OpFault::NoMemory),
        }
    }
    unreachable!()
}

/// Cancels a timer, wherever it is queued, at `now`, the time of the run in jiffies, with the
/// receipt, and answers its CPU (`__timer_delete`, with the CPU's base found as in
/// `lock_timer_base`). None exactly where a load of the timer's word found that it isn't queued.
/// `Offline` comes exactly where the pass's CPU is offline, `NotActive` exactly where it is online
/// and idle; `NoMemory` leaves timers and receipts as they were. In each case the pass knows its
/// CPU's journal as it was when the call began. It waits for the lock of its own CPU, and then for
/// that of the CPU that the word names; no clause says that it has one lock at a time. The word is
/// loaded again only where the timer wasn't queued in the part of the CPU that it named; what each
/// load found is remembered.
pub fn cancel<N: RunName, B: TimerBase, R: Wait>(
    rt: &R,
    shared: &Shared<N, B>,
    pass: &mut Pass,
    now: Jiffy,
    timer: TimerId,
    line: u32,
) -> Result<Option<CpuId>, OpFault>
    requires run { IsOfRun N.table pass.old }
    requires cpu { pass.old.cpu < length N.opening.cpus }
    requires now { now ≡ N.opening.clock }
    requires timer { timer.0 < N.opening.timers }
    ensures { (part : HeldPart) × MetBy N.table part pass.old × MatchResult result
        (HasCancelled N.table N.opening timer.0 line part pass.old pass.new)
        (NotCancelled N.table N.opening timer.0 part pass.old pass.new) }
{
    match ask(rt, shared, pass) {
        Some(fault) => Err(fault),
        None => cancel_named(rt, shared, pass, now, timer, line),
    }
}
