//! A CPU goes idle.

ghost use Rattle.std.specs.Prelude.{◌≡◌, ◌+◌, ◌^◌, ◌<◌, IfOk, MatchResult, None, OnErr, Some};
ghost use Rattle.std.specs.Prelude.{false, length, suc, true};
ghost use Rattle.core_world.specs.Enabled.{first_event};
ghost use Rattle.walk_active.specs.shared_rule.Passes.{IsOfRun, walks_of};
ghost use Rattle.walk_active.specs.Activated.{IsOwnPass};
ghost use Rattle.idle_wakeup.specs.Calls.{Renews, idle_fault_of, refusal};
ghost use Rattle.idle_wakeup.specs.Resting.{IsBoxAnswer, IsIdleAnswer, IsOutside};

use crate::meeting::meet_own;
use cpu_word::CpuState;
use std::sync::Wait;
use tm_base::{Gate, Jiffy, OpFault};
use walk_active::{CpuBox, MOST_MADE, Pass, RunName, Shared};
use walk_inactive::deactivate;
use wheel_core::TimerBase;

/// What a CPU is told that is to go idle, in jiffies.
#[derive(Clone, Copy, Debug, PartialEq, Eq)]
pub enum IdleAnswer {
    /// It has gone idle, and has to be woken at this time, or never where that is `NEVER`.
    Until(Jiffy),
    /// It stays active, since its first event comes by the next jiffy, at this time.
    Stay(Jiffy),
}

/// Why a CPU that shows this, and with whose pass so many walks were begun, can't go idle.
fn idle_fault(state: CpuState, walks: u32) -> Option<OpFault>
    ensures { result ≡ idle_fault_of state.online state.idle walks }
{
    if !state.online {
        Some(OpFault::Offline)
    } else if state.idle {
        Some(OpFault::NotActive)
    } else if walks >= MOST_MADE {
        Some(OpFault::Spent { made: walks })
    } else {
        None
    }
}

/// The first event of the CPU of a box, in jiffies, or `NEVER`.
fn first_event<N: RunName, B: TimerBase>(cpu_box: &CpuBox<N, B>) -> Jiffy
    ensures { result ≡ first_event cpu_box.now.box.own.bases }
{
    let next = cpu_box.bases().next();
    next.pin.min(next.first_global)
}

/// An active CPU goes idle with its pass, unless it has an event by the next jiffy.
fn rest<N: RunName, B: TimerBase, G: Gate, R: Wait>(
    rt: &R,
    shared: &Shared<N, B>,
    pass: &mut Pass,
    cpu_box: &mut CpuBox<N, B>,
    now: Jiffy,
    gate: &G,
) -> IdleAnswer
    requires own { IsOwnPass N.table cpu_box.old.box.cpu pass.old }
    requires left { suc (walks_of pass.old.seated) < 2 ^ 32 }
    requires online { cpu_box.old.box.own.online ≡ true }
    requires awake { cpu_box.old.box.own.idle ≡ false }
    requires outside { cpu_box.old.box.own.inside ≡ false }
    requires clock { now ≡ cpu_box.old.box.opening.clock }
    requires in_time { now < 2 ^ 47 }
    ensures { IsBoxAnswer cpu_box.old.box result pass.old pass.new }
{
    let first = first_event(cpu_box);
    if first <= now + 1 {
        IdleAnswer::Stay(first)
    } else {
        IdleAnswer::Until(deactivate(rt, shared, pass, cpu_box, gate))
    }
}

/// The CPU of a box goes idle with its pass, where nothing refuses it and it has no event by the
/// next jiffy.
fn idle_in<N: RunName, B: TimerBase, G: Gate, R: Wait>(
    rt: &R,
    shared: &Shared<N, B>,
    pass: &mut Pass,
    cpu_box: &mut CpuBox<N, B>,
    now: Jiffy,
    gate: &G,
) -> Result<IdleAnswer, OpFault>
    requires own { IsOwnPass N.table cpu_box.old.box.cpu pass.old }
    requires clock { now ≡ N.opening.clock }
    requires outside { IsOutside N.table pass.old }
    ensures refused { MatchResult result
        (λ answer. refusal idle_fault_of pass.old.seated ≡ None)
        (λ fault. refusal idle_fault_of pass.old.seated ≡ Some fault) }
    ensures ok { IfOk result (λ answer. IsIdleAnswer N.opening answer pass.old pass.new) }
    ensures err { OnErr result (Renews (λ p. p) pass.old pass.new) }
{
    meet_own(shared.run(), pass, cpu_box);
    if let Some(fault) = idle_fault(cpu_box.state(), pass.walks()) {
        return Err(fault);
    }
    Ok(rest(rt, shared, pass, cpu_box, now, gate))
}

/// The CPU of a pass goes idle (`timer_base_try_to_set_idle`, `tmigr_cpu_deactivate`), at the time
/// with which the run began: its thread takes the CPU's lock and makes the CPU's deactivation, with
/// the gate. It answers `Until` with the CPU's wakeup; or `Stay` with its first event, where that
/// comes by the next jiffy, and then nothing changes. `Offline`, `NotActive` and `Spent` refuse it,
/// in this order, and change nothing. Either way the pass knows its CPU's journal as it is by then.
/// At most one walk is begun.
pub fn go_idle<N: RunName, B: TimerBase, G: Gate, R: Wait>(
    rt: &R,
    shared: &Shared<N, B>,
    pass: &mut Pass,
    now: Jiffy,
    gate: &G,
) -> Result<IdleAnswer, OpFault>
    requires run { IsOfRun N.table pass.old }
    requires cpu { pass.old.cpu < length N.opening.cpus }
    requires clock { now ≡ N.opening.clock }
    requires outside { IsOutside N.table pass.old }
    ensures refused { MatchResult result
        (λ answer. refusal idle_fault_of pass.old.seated ≡ None)
        (λ fault. refusal idle_fault_of pass.old.seated ≡ Some fault) }
    ensures ok { IfOk result (λ answer. IsIdleAnswer N.opening answer pass.old pass.new) }
    ensures err { OnErr result (Renews (λ p. p) pass.old pass.new) }
{
    pass.law();
    let mut guard = shared.lock(rt, pass.cpu());
    idle_in(rt, shared, pass, &mut *guard, now, gate)
}
