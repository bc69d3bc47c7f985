//! The timers of a CPU that went offline, and the covers.

ghost use Rattle.std.specs.Prelude.{◌≡◌, ◌≢◌, ◌<◌, Some, All, IfSome, OnOk, false, true};
ghost use Rattle.std.specs.Prelude.{option_map};
ghost use Rattle.play_rules.specs.Machines.{Same};
ghost use Rattle.play_rules.specs.Operations.{clear, clear_after, covers, leaver, leaving};
ghost use Rattle.play_rules.specs.Operations.{move_all};
ghost use Rattle.play_rules.specs.Parts.{Gains, Prints};
ghost use Rattle.play_rules.specs.Phases.{IsUp, resting};
ghost use Rattle.play_driver.specs.Conditions.{IsOpInRange};
ghost use Rattle.play_driver.specs.PartLeaves.{PartLeaves};

use crate::listeners::Listener;
use crate::telling::Telling;
use play_rules::PlayMachine;
use tm_base::{CpuId, NoMemory};
use tm_report::Line;
use tm_script::{Op, What};

/// The timers of CPU `from` move to CPU `to`, first to last, each with its line.
fn moves<M: PlayMachine, L: Listener>(
    machine: &mut M,
    from: CpuId,
    to: CpuId,
    telling: &mut Telling<L>,
) -> Result<(), NoMemory>
    requires from { from.0 < M.rules.cpus (M.world machine.old) }
    requires to { to.0 < M.rules.cpus (M.world machine.old) }
    requires other { from.0 ≢ to.0 }
    requires offline { M.rules.is_online (M.world machine.old) from.0 ≡ false }
    requires placed { M.rules.is_placed (M.world machine.old) to.0 ≡ true }
    requires active { IsUp M.rules (M.world machine.old) to.0 false }
    requires fit { M.Fit resting (M.world machine.old) }
    ensures { PartLeaves
        (Prints (move_all M.rules from.0 to.0 (M.world machine.old)))
        (Same M.rules) (M.Fit resting) result
        (M.world machine.old) (M.world machine.new) telling.old telling.new }
{
    let now = machine.clock();
    for _turn in 0..machine.count_queued(from) {
        match machine.move_first(from, to)? {
            None => return Ok(()),
            Some(mover) => telling.tell(&Line::Moved {
                now,
                timer: mover.timer,
                from,
                to,
                wheel: mover.wheel,
            })?,
        }
    }
    Ok(())
}

/// What is queued on a CPU that is offline moves to the controlling CPU.
fn clear<M: PlayMachine, L: Listener>(
    machine: &mut M,
    from: CpuId,
    telling: &mut Telling<L>,
) -> Result<(), NoMemory>
    requires from { from.0 < M.rules.cpus (M.world machine.old) }
    requires fit { M.Fit resting (M.world machine.old) }
    ensures { PartLeaves
        (Prints (clear M.rules from.0 (M.world machine.old)))
        (Same M.rules) (M.Fit resting) result
        (M.world machine.old) (M.world machine.new) telling.old telling.new }
{
    if machine.is_online(from) || machine.count_queued(from) == 0 {
        return Ok(());
    }
    let Some(to) = machine.controller() else {
        return Ok(());
    };
    let now = machine.clock();
    machine.control(to);
    telling.tell(&Line::Control { now, cpu: to })?;
    moves(machine, from, to, telling)
}

/// The CPU that an operation takes offline.
fn leaving(op: &Op) -> Option<CpuId>
    ensures leaver { option_map (λ cpu. cpu.0) result ≡ leaving op.now.what op.now.cpu }
    ensures itself { IfSome result (λ cpu. cpu ≡ op.now.cpu) }
{
    match op.what {
        What::Offline => Some(op.cpu),
        _ => None,
    }
}

/// The CPU that the last operation of a moment takes offline.
fn leaver(ops: &[Op], cpus: u16, timers: u16) -> Option<CpuId>
    requires { All (IsOpInRange cpus timers) ops.now }
    ensures leaver { option_map (λ cpu. cpu.0) result ≡ leaver ops.now }
    ensures in_range { IfSome result (λ cpu. cpu.0 < cpus) }
{
    if ops.is_empty() {
        return None;
    }
    leaving(&ops[ops.len() - 1])
}

/// Behind the operations of a moment: the timers of the CPU that went offline move.
pub fn clear_after<M: PlayMachine, L: Listener>(
    machine: &mut M,
    ops: &[Op],
    telling: &mut Telling<L>,
) -> Result<(), NoMemory>
    requires in_range { All (IsOpInRange
        (M.rules.cpus (M.world machine.old)) (M.rules.timers (M.world machine.old))) ops.now }
    requires fit { M.Fit resting (M.world machine.old) }
    ensures { PartLeaves
        (Prints (clear_after M.rules (leaver ops.now) (M.world machine.old)))
        (Same M.rules) (M.Fit resting) result
        (M.world machine.old) (M.world machine.new) telling.old telling.new }
{
    if let Some(cpu) = leaver(ops, machine.cpus(), machine.timers()) {
        return clear(machine, cpu, telling);
    }
    Ok(())
}

/// Who answers for each idle CPU that has a global timer.
pub fn covers<M: PlayMachine, L: Listener>(
    machine: &M,
    telling: &mut Telling<L>,
) -> Result<(), NoMemory>
    requires fit { M.Fit resting (M.world machine.now) }
    ensures prints { OnOk result
        (Prints (covers M.rules (M.world machine.now))
        telling.old telling.new (M.world machine.now)) }
    ensures gains { Gains telling.old.text telling.new.text }
{
    let now = machine.clock();
    for cpu in 0..machine.cpus() {
        if let Some(answerer) = machine.cover_of(CpuId(cpu)) {
            telling.tell(&Line::Cover {
                now,
                cpu: CpuId(cpu),
                wheel: answerer.wheel,
                cover: answerer.cover,
            })?;
        }
    }
    Ok(())
}
