//! The operations of a moment: each is done, or refused.

ghost use Rattle.std.specs.Prelude.{◌≡◌, ◌<◌, None, All, false};
ghost use Rattle.play_rules.specs.Machines.{Same};
ghost use Rattle.play_rules.specs.Operations.{arm, cancel, done, hand_on, idle, last_online};
ghost use Rattle.play_rules.specs.Operations.{not_active, not_idle, offline, online, operation};
ghost use Rattle.play_rules.specs.Operations.{operations, refusal, refused_line, wake};
ghost use Rattle.play_rules.specs.Parts.{Prints};
ghost use Rattle.play_rules.specs.Phases.{after_offline, resting};
ghost use Rattle.play_driver.specs.Conditions.{IsOpInRange};
ghost use Rattle.play_driver.specs.PartLeaves.{PartLeaves};

use crate::listeners::Listener;
use crate::telling::Telling;
use play_rules::{Arming, Cancelling, PlayMachine};
use tm_base::{CpuId, Jiffy, NoMemory, OpFault};
use tm_report::Line;
use tm_script::{Op, What};

/// Why a CPU may not do what an active CPU does.
fn not_active<M: PlayMachine>(machine: &M, cpu: CpuId) -> Option<OpFault>
    requires { cpu.0 < M.rules.cpus (M.world machine.now) }
    ensures { result ≡ not_active M.rules (M.world machine.now) cpu.0 }
{
    if !machine.is_online(cpu) {
        Some(OpFault::Offline)
    } else if machine.is_idle(cpu) {
        Some(OpFault::NotActive)
    } else {
        None
    }
}

/// Why a CPU may not wake.
fn not_idle<M: PlayMachine>(machine: &M, cpu: CpuId) -> Option<OpFault>
    requires { cpu.0 < M.rules.cpus (M.world machine.now) }
    ensures { result ≡ not_idle M.rules (M.world machine.now) cpu.0 }
{
    if !machine.is_online(cpu) {
        Some(OpFault::Offline)
    } else if machine.is_idle(cpu) {
        None
    } else {
        Some(OpFault::NotIdle)
    }
}

/// Why a CPU may not go offline, where it is active: it is the last placed one that is online.
fn last_online<M: PlayMachine>(machine: &M, cpu: CpuId) -> Option<OpFault>
    requires { cpu.0 < M.rules.cpus (M.world machine.now) }
    ensures { result ≡ last_online M.rules (M.world machine.now) cpu.0 }
{
    if machine.is_placed(cpu) && machine.successor(cpu).is_none() {
        Some(OpFault::LastOnline)
    } else {
        None
    }
}

/// The first refusal that applies to an operation.
fn refusal<M: PlayMachine>(machine: &M, op: &Op) -> Option<OpFault>
    requires { IsOpInRange
        (M.rules.cpus (M.world machine.now)) (M.rules.timers (M.world machine.now)) op.now }
    ensures { result ≡ refusal M.rules op.now.what op.now.cpu.0 (M.world machine.now) }
{
    let cpu = op.cpu;
    match op.what {
        What::Arm { timer, .. } => match not_active(machine, cpu) {
            Some(fault) => Some(fault),
            None => match machine.holder(timer) {
                Some(holder) => Some(OpFault::Queued { cpu: holder }),
                None => None,
            },
        },
        What::Cancel { .. } | What::Idle => not_active(machine, cpu),
        What::Wake => not_idle(machine, cpu),
        What::Offline => match not_active(machine, cpu) {
            Some(fault) => Some(fault),
            None => last_online(machine, cpu),
        },
        What::Online => {
            if machine.is_online(cpu) {
                Some(OpFault::AlreadyOnline)
            } else {
                None
            }
        }
    }
}

/// The line of a refusal.
fn refused_line(fault: OpFault, now: Jiffy, line: u32, cpu: CpuId) -> Line
    ensures { result ≡ refused_line fault now line cpu }
{
    let number = fault.number().unwrap_or(0);
    match fault {
        OpFault::Queued { cpu: holder } => Line::RefusedQueued {
            now,
            cpu,
            line,
            number,
            holder,
        },
        _ => Line::Refused {
            now,
            cpu,
            line,
            number,
        },
    }
}

/// A CPU arms a timer that is queued nowhere.
fn arm<M: PlayMachine, L: Listener>(
    machine: &mut M,
    cpu: CpuId,
    arming: Arming,
    telling: &mut Telling<L>,
) -> Result<(), NoMemory>
    requires cpu { cpu.0 < M.rules.cpus (M.world machine.old) }
    requires timer { arming.timer.0 < M.rules.timers (M.world machine.old) }
    requires not_queued { M.rules.queued (M.world machine.old) arming.timer.0 ≡ None }
    requires allowed { not_active M.rules (M.world machine.old) cpu.0 ≡ None }
    requires fit { M.Fit resting (M.world machine.old) }
    ensures { PartLeaves
        (Prints (arm M.rules cpu arming (M.world machine.old)))
        (Same M.rules) (M.Fit resting) result
        (M.world machine.old) (M.world machine.new) telling.old telling.new }
{
    let now = machine.clock();
    let Arming { timer, class, .. } = arming;
    let wheel = machine.arm(cpu, arming)?;
    telling.tell(&Line::Arm {
        now,
        cpu,
        timer,
        class,
        wheel,
    })
}

/// A CPU cancels a timer, wherever it is queued.
fn cancel<M: PlayMachine, L: Listener>(
    machine: &mut M,
    cancelling: Cancelling,
    telling: &mut Telling<L>,
) -> Result<(), NoMemory>
    requires cpu { cancelling.by.0 < M.rules.cpus (M.world machine.old) }
    requires timer { cancelling.timer.0 < M.rules.timers (M.world machine.old) }
    requires fit { M.Fit resting (M.world machine.old) }
    ensures { PartLeaves
        (Prints (cancel M.rules cancelling (M.world machine.old)))
        (Same M.rules) (M.Fit resting) result
        (M.world machine.old) (M.world machine.new) telling.old telling.new }
{
    let now = machine.clock();
    let Cancelling { timer, by: cpu, .. } = cancelling;
    let Some(home) = machine.holder(timer) else {
        return telling.tell(&Line::NotQueued { now, cpu, timer });
    };
    machine.cancel(home, cancelling)?;
    telling.tell(&Line::Cancel {
        now,
        cpu,
        timer,
        home,
    })
}

/// A CPU tries to go idle.
fn idle<M: PlayMachine, L: Listener>(
    machine: &mut M,
    cpu: CpuId,
    telling: &mut Telling<L>,
) -> Result<(), NoMemory>
    requires cpu { cpu.0 < M.rules.cpus (M.world machine.old) }
    requires allowed { not_active M.rules (M.world machine.old) cpu.0 ≡ None }
    requires fit { M.Fit resting (M.world machine.old) }
    ensures { PartLeaves
        (Prints (idle M.rules cpu (M.world machine.old)))
        (Same M.rules) (M.Fit resting) result
        (M.world machine.old) (M.world machine.new) telling.old telling.new }
{
    let now = machine.clock();
    let first = machine.first_event(cpu);
    if first <= now + 1 {
        return telling.tell(&Line::Stay { now, cpu, first });
    }
    machine.idle(cpu);
    let until = machine.wakeup(cpu);
    telling.tell(&Line::Idle { now, cpu, until })
}

/// An idle CPU wakes.
fn wake<M: PlayMachine, L: Listener>(
    machine: &mut M,
    cpu: CpuId,
    telling: &mut Telling<L>,
) -> Result<(), NoMemory>
    requires cpu { cpu.0 < M.rules.cpus (M.world machine.old) }
    requires allowed { not_idle M.rules (M.world machine.old) cpu.0 ≡ None }
    requires fit { M.Fit resting (M.world machine.old) }
    ensures { PartLeaves
        (Prints (wake M.rules cpu (M.world machine.old)))
        (Same M.rules) (M.Fit resting) result
        (M.world machine.old) (M.world machine.new) telling.old telling.new }
{
    let now = machine.clock();
    machine.wake(cpu);
    telling.tell(&Line::Wake { now, cpu })
}

/// An offline CPU comes online.
fn online<M: PlayMachine, L: Listener>(
    machine: &mut M,
    cpu: CpuId,
    telling: &mut Telling<L>,
) -> Result<(), NoMemory>
    requires cpu { cpu.0 < M.rules.cpus (M.world machine.old) }
    requires offline { M.rules.is_online (M.world machine.old) cpu.0 ≡ false }
    requires fit { M.Fit resting (M.world machine.old) }
    ensures { PartLeaves
        (Prints (online M.rules cpu (M.world machine.old)))
        (Same M.rules) (M.Fit resting) result
        (M.world machine.old) (M.world machine.new) telling.old telling.new }
{
    let now = machine.clock();
    machine.come_online(cpu);
    telling.tell(&Line::Online { now, cpu })
}

/// A CPU that went offline hands on its duty, where it has one.
fn hand_on<M: PlayMachine, L: Listener>(
    machine: &mut M,
    cpu: CpuId,
    telling: &mut Telling<L>,
) -> Result<(), NoMemory>
    requires cpu { cpu.0 < M.rules.cpus (M.world machine.old) }
    requires missed { last_online M.rules (M.world machine.old) cpu.0 ≡ None }
    requires fit { M.Fit
        (after_offline (M.rules.hands_on (M.world machine.old) cpu.0) cpu.0) (M.world machine.old) }
    ensures { PartLeaves
        (Prints (hand_on M.rules cpu (M.world machine.old)))
        (Same M.rules) (M.Fit resting) result
        (M.world machine.old) (M.world machine.new) telling.old telling.new }
{
    if !machine.hands_on(cpu) {
        return Ok(());
    }
    let Some(to) = machine.successor(cpu) else {
        return Ok(());
    };
    let now = machine.clock();
    machine.hand_on(cpu, to);
    telling.tell(&Line::Handed { now, cpu, to })
}

/// A CPU goes offline.
fn offline<M: PlayMachine, L: Listener>(
    machine: &mut M,
    cpu: CpuId,
    telling: &mut Telling<L>,
) -> Result<(), NoMemory>
    requires cpu { cpu.0 < M.rules.cpus (M.world machine.old) }
    requires allowed { not_active M.rules (M.world machine.old) cpu.0 ≡ None }
    requires missed { last_online M.rules (M.world machine.old) cpu.0 ≡ None }
    requires fit { M.Fit resting (M.world machine.old) }
    ensures { PartLeaves
        (Prints (offline M.rules cpu (M.world machine.old)))
        (Same M.rules) (M.Fit resting) result
        (M.world machine.old) (M.world machine.new) telling.old telling.new }
{
    let now = machine.clock();
    machine.go_offline(cpu);
    telling.tell(&Line::Offline { now, cpu })?;
    hand_on(machine, cpu, telling)
}

/// An operation that isn't refused.
fn done<M: PlayMachine, L: Listener>(
    machine: &mut M,
    op: &Op,
    telling: &mut Telling<L>,
) -> Result<(), NoMemory>
    requires in_range { IsOpInRange
        (M.rules.cpus (M.world machine.old)) (M.rules.timers (M.world machine.old)) op.now }
    requires allowed { refusal M.rules op.now.what op.now.cpu.0 (M.world machine.old) ≡ None }
    requires fit { M.Fit resting (M.world machine.old) }
    ensures { PartLeaves
        (Prints (done M.rules op.now.what op.now.line op.now.cpu (M.world machine.old)))
        (Same M.rules) (M.Fit resting) result
        (M.world machine.old) (M.world machine.new) telling.old telling.new }
{
    let cpu = op.cpu;
    let line = op.line;
    match op.what {
        What::Arm {
            timer,
            class,
            delay,
            job,
            arg,
        } => arm(
            machine,
            cpu,
            Arming {
                timer,
                class,
                delay,
                job,
                arg,
                line,
            },
            telling,
        ),
        What::Cancel { timer } => cancel(
            machine,
            Cancelling {
                timer,
                by: cpu,
                line,
            },
            telling,
        ),
        What::Idle => idle(machine, cpu, telling),
        What::Wake => wake(machine, cpu, telling),
        What::Offline => offline(machine, cpu, telling),
        What::Online => online(machine, cpu, telling),
    }
}

/// One operation of a script: it is done, or refused.
pub fn operation<M: PlayMachine, L: Listener>(
    machine: &mut M,
    op: &Op,
    telling: &mut Telling<L>,
) -> Result<(), NoMemory>
    requires in_range { IsOpInRange
        (M.rules.cpus (M.world machine.old)) (M.rules.timers (M.world machine.old)) op.now }
    requires fit { M.Fit resting (M.world machine.old) }
    ensures { PartLeaves
        (Prints (operation M.rules op.now (M.world machine.old)))
        (Same M.rules) (M.Fit resting) result
        (M.world machine.old) (M.world machine.new) telling.old telling.new }
{
    if let Some(fault) = refusal(machine, op) {
        return telling.tell(&refused_line(fault, machine.clock(), op.line, op.cpu));
    }
    done(machine, op, telling)
}

/// The operations of a moment, in line order.
pub(crate) fn operations<M: PlayMachine, L: Listener>(
    machine: &mut M,
    ops: &[Op],
    telling: &mut Telling<L>,
) -> Result<(), NoMemory>
    requires in_range { All (IsOpInRange
        (M.rules.cpus (M.world machine.old)) (M.rules.timers (M.world machine.old))) ops.now }
    requires fit { M.Fit resting (M.world machine.old) }
    ensures { PartLeaves
        (Prints (operations M.rules ops.now (M.world machine.old)))
        (Same M.rules) (M.Fit resting) result
        (M.world machine.old) (M.world machine.new) telling.old telling.new }
{
    for op in ops {
        operation(machine, op, telling)?;
    }
    Ok(())
}
