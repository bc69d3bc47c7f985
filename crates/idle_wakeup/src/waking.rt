//! A CPU wakes.

ghost use Rattle.std.specs.Prelude.{◌≡◌, ◌<◌, MatchResult, None, OnErr, OnOk, Some, length};
ghost use Rattle.walk_active.specs.shared_rule.Passes.{IsOfRun};
ghost use Rattle.walk_active.specs.Activated.{IsOwnPass};
ghost use Rattle.idle_wakeup.specs.Calls.{Renews, awake, refusal, wake_fault_of};

use crate::meeting::meet_own;
use cpu_word::CpuState;
use std::sync::Wait;
use tm_base::{Gate, OpFault};
use walk_active::{CpuBox, MOST_MADE, Pass, RunName, Shared, activate};
use wheel_core::TimerBase;

/// Why a CPU that shows this, and with whose pass so many walks were begun, can't wake.
fn wake_fault(state: CpuState, walks: u32) -> Option<OpFault>
    ensures { result ≡ wake_fault_of state.online state.idle walks }
{
    if !state.online {
        Some(OpFault::Offline)
    } else if !state.idle {
        Some(OpFault::NotIdle)
    } else if walks >= MOST_MADE {
        Some(OpFault::Spent { made: walks })
    } else {
        None
    }
}

/// The CPU of a box wakes with its pass, where nothing refuses it.
fn wake_in<N: RunName, B: TimerBase, G: Gate, R: Wait>(
    rt: &R,
    shared: &Shared<N, B>,
    pass: &mut Pass,
    cpu_box: &mut CpuBox<N, B>,
    gate: &G,
) -> Result<(), OpFault>
    requires own { IsOwnPass N.table cpu_box.old.box.cpu pass.old }
    ensures refused { MatchResult result
        (λ done. refusal wake_fault_of pass.old.seated ≡ None)
        (λ fault. refusal wake_fault_of pass.old.seated ≡ Some fault) }
    ensures ok { OnOk result (Renews awake pass.old pass.new) }
    ensures err { OnErr result (Renews (λ p. p) pass.old pass.new) }
{
    meet_own(shared.run(), pass, cpu_box);
    if let Some(fault) = wake_fault(cpu_box.state(), pass.walks()) {
        return Err(fault);
    }
    activate(rt, shared, pass, cpu_box, gate);
    Ok(())
}

/// The CPU of a pass wakes (`tmigr_cpu_activate`): its thread takes the CPU's lock and makes the
/// CPU's activation, with the gate. `Offline`, `NotIdle` and `Spent` refuse it, in this order, and
/// change nothing. Either way the pass knows its CPU's journal as it is by then.
pub fn wake<N: RunName, B: TimerBase, G: Gate, R: Wait>(
    rt: &R,
    shared: &Shared<N, B>,
    pass: &mut Pass,
    gate: &G,
) -> Result<(), OpFault>
    requires run { IsOfRun N.table pass.old }
    requires cpu { pass.old.cpu < length N.opening.cpus }
    ensures refused { MatchResult result
        (λ done. refusal wake_fault_of pass.old.seated ≡ None)
        (λ fault. refusal wake_fault_of pass.old.seated ≡ Some fault) }
    ensures ok { OnOk result (Renews awake pass.old pass.new) }
    ensures err { OnErr result (Renews (λ p. p) pass.old pass.new) }
{
    pass.law();
    let mut guard = shared.lock(rt, pass.cpu());
    wake_in(rt, shared, pass, &mut *guard, gate)
}
