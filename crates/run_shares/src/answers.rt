//! What a CPU's thread answers to its lines of the script.

ghost use Rattle.std.specs.Prelude.{◌≡◌, ◌≢◌, ◌-◌, ◌^◌, ◌<◌, ◌≤◌, All, IfOk, MatchResult};
ghost use Rattle.std.specs.Prelude.{OnOk, length};
ghost use Rattle.tm_base.specs.declared.faults.OpFault.TheVariants as faults;
ghost use Rattle.tm_base.specs.declared.names.TheConstants.{TIME_LIMIT};
ghost use Rattle.tm_script.specs.declared.syntax.What.TheVariants as whats;
ghost use Rattle.play_rules.specs.Operations.{refused_line};
ghost use Rattle.run_shares.specs.Doing.{IsShareOp};
ghost use Rattle.run_shares.specs.Lines.{cancel_line, idle_line};
ghost use Rattle.run_shares.specs.Standing.{HasAnswered, HaveAnswered, MayAnswer};

use idle_wakeup::{IdleAnswer, Pass, RunName, Shared, go_idle, wake};
use shared_calls::{arm, cancel};
use std::sync::Wait;
use tm_base::{Class, CpuId, Gate, Jiffy, NoMemory, OpFault, TimerId};
use tm_report::Line;
use tm_script::{Op, What};
use wheel_core::TimerBase;

/// The line of a refusal; want of memory has none.
fn refused(fault: OpFault, now: Jiffy, line: u32, cpu: CpuId) -> Result<Line, NoMemory>
    ensures { MatchResult result
        (λ told. (fault ≢ faults.NoMemory) × (told ≡ refused_line fault now line cpu))
        (λ e. fault ≡ faults.NoMemory) }
{
    let number = fault.number().unwrap_or(0);
    match fault {
        OpFault::NoMemory => Err(NoMemory),
        OpFault::Queued { cpu: holder } => Ok(Line::RefusedQueued {
            now,
            cpu,
            line,
            number,
            holder,
        }),
        _ => Ok(Line::Refused {
            now,
            cpu,
            line,
            number,
        }),
    }
}

/// The CPU arms a timer.
fn answer_arm<N: RunName, B: TimerBase, R: Wait>(
    rt: &R,
    shared: &Shared<N, B>,
    pass: &mut Pass,
    now: Jiffy,
    line: u32,
    timer: TimerId,
    class: Class,
    delay: u32,
    job: u8,
    arg: u32,
) -> Result<Line, NoMemory>
    requires may { MayAnswer N.table N.opening 1 pass.old }
    requires now { now ≡ N.opening.clock }
    requires in_time { now ≤ TIME_LIMIT - 2 ^ 32 }
    requires timer { timer.0 < N.opening.timers }
    ensures { IfOk result (HasAnswered N.table N.opening now
        (whats.Arm timer class delay job arg) line pass.old pass.new) }
{
    let cpu = pass.cpu();
    match arm(rt, shared, pass, now, timer, class, delay, job, arg, line) {
        Ok(wheel) => Ok(Line::Arm {
            now,
            cpu,
            timer,
            class,
            wheel,
        }),
        Err(fault) => refused(fault, now, line, cpu),
    }
}

/// The line of a cancelling.
fn cancel_line(home: Option<CpuId>, now: Jiffy, cpu: CpuId, timer: TimerId) -> Line
    ensures { result ≡ cancel_line home now cpu timer }
{
    match home {
        Some(home) => Line::Cancel {
            now,
            cpu,
            timer,
            home,
        },
        None => Line::NotQueued { now, cpu, timer },
    }
}

/// The CPU cancels a timer.
fn answer_cancel<N: RunName, B: TimerBase, R: Wait>(
    rt: &R,
    shared: &Shared<N, B>,
    pass: &mut Pass,
    now: Jiffy,
    line: u32,
    timer: TimerId,
) -> Result<Line, NoMemory>
    requires may { MayAnswer N.table N.opening 1 pass.old }
    requires now { now ≡ N.opening.clock }
    requires timer { timer.0 < N.opening.timers }
    ensures { IfOk result (HasAnswered N.table N.opening now (whats.Cancel timer) line pass.old
        pass.new) }
{
    let cpu = pass.cpu();
    match cancel(rt, shared, pass, now, timer, line) {
        Ok(home) => Ok(cancel_line(home, now, cpu, timer)),
        Err(fault) => refused(fault, now, line, cpu),
    }
}

/// The line of a CPU that was to go idle.
fn idle_line(answer: IdleAnswer, now: Jiffy, cpu: CpuId) -> Line
    ensures { result ≡ idle_line answer now cpu }
{
    match answer {
        IdleAnswer::Until(until) => Line::Idle { now, cpu, until },
        IdleAnswer::Stay(first) => Line::Stay { now, cpu, first },
    }
}

/// The CPU goes idle.
fn answer_idle<N: RunName, B: TimerBase, G: Gate, R: Wait>(
    rt: &R,
    shared: &Shared<N, B>,
    pass: &mut Pass,
    now: Jiffy,
    line: u32,
    gate: &G,
) -> Result<Line, NoMemory>
    requires may { MayAnswer N.table N.opening 1 pass.old }
    requires now { now ≡ N.opening.clock }
    ensures { IfOk result (HasAnswered N.table N.opening now whats.Idle line pass.old pass.new) }
{
    let cpu = pass.cpu();
    match go_idle(rt, shared, pass, now, gate) {
        Ok(answer) => Ok(idle_line(answer, now, cpu)),
        Err(fault) => refused(fault, now, line, cpu),
    }
}

/// The CPU wakes.
fn answer_wake<N: RunName, B: TimerBase, G: Gate, R: Wait>(
    rt: &R,
    shared: &Shared<N, B>,
    pass: &mut Pass,
    now: Jiffy,
    line: u32,
    gate: &G,
) -> Result<Line, NoMemory>
    requires may { MayAnswer N.table N.opening 1 pass.old }
    ensures { IfOk result (HasAnswered N.table N.opening now whats.Wake line pass.old pass.new) }
{
    let cpu = pass.cpu();
    match wake(rt, shared, pass, gate) {
        Ok(()) => Ok(Line::Wake { now, cpu }),
        Err(fault) => refused(fault, now, line, cpu),
    }
}

/// One operation of the CPU, and the line that answers it.
fn answer<N: RunName, B: TimerBase, G: Gate, R: Wait>(
    rt: &R,
    shared: &Shared<N, B>,
    pass: &mut Pass,
    now: Jiffy,
    op: Op,
    gate: &G,
) -> Result<Line, NoMemory>
    requires may { MayAnswer N.table N.opening 1 pass.old }
    requires now { now ≡ N.opening.clock }
    requires in_time { now ≤ TIME_LIMIT - 2 ^ 32 }
    requires op { IsShareOp pass.old.cpu N.opening.timers op }
    ensures { IfOk result (HasAnswered N.table N.opening now op.what op.line pass.old pass.new) }
{
    match op.what {
        What::Arm {
            timer,
            class,
            delay,
            job,
            arg,
        } => answer_arm(
            rt, shared, pass, now, op.line, timer, class, delay, job, arg,
        ),
        What::Cancel { timer } => answer_cancel(rt, shared, pass, now, op.line, timer),
        What::Idle => answer_idle(rt, shared, pass, now, op.line, gate),
        What::Wake => answer_wake(rt, shared, pass, now, op.line, gate),
        What::Offline => unreachable!(),
        What::Online => unreachable!(),
    }
}

/// The CPU's own operations in line order, each with its line.
pub fn answer_all<N: RunName, B: TimerBase, G: Gate, R: Wait>(
    rt: &R,
    shared: &Shared<N, B>,
    pass: &mut Pass,
    now: Jiffy,
    ops: &[Op],
    gate: &G,
    lines: &mut Vec<Line>,
) -> Result<(), NoMemory>
    requires may { MayAnswer N.table N.opening (length ops.now) pass.old }
    requires now { now ≡ N.opening.clock }
    requires in_time { now ≤ TIME_LIMIT - 2 ^ 32 }
    requires ops { All (IsShareOp pass.old.cpu N.opening.timers) ops.now }
    ensures { OnOk result (HaveAnswered N.table N.opening now ops.now pass.old pass.new
        lines.old.items lines.new.items) }
{
    for op in ops {
        let line = answer(rt, shared, pass, now, *op, gate)?;
        lines.push(line)?;
    }
    Ok(())
}
