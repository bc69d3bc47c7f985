//! Playing a trace: its steps are made as far as they can be, and its questions are answered.

ghost use Rattle.std.specs.Prelude.{◌≡◌, ℕ, ◌+◌, ◌<◌, ◌≤◌, List, ◌++◌, All, IfOk, IfSome};
ghost use Rattle.std.specs.Prelude.{OnErr, OnOk, length};
ghost use Rattle.core_world.specs.Frames.{SameSize};
ghost use Rattle.core_world.specs.Lists.{IsRun};
ghost use Rattle.core_world.specs.World.{World};
ghost use Rattle.tm_base.specs.declared.limits.TheConstants.{MOST_LINES};
ghost use Rattle.tm_report.specs.declared.lines.Line.TheVariants as report;
ghost use Rattle.tm_report.specs.declared.lines.ShownReason.{ShownReason};
ghost use Rattle.trace_text.specs.Texts.{IsTrace};
ghost use Rattle.trace_text.specs.declared.traces.TraceLine.TheVariants as lines;
ghost use Rattle.trace_check.specs.Answers.{IsCheckText, IsReasonShown, IsVerdict};
ghost use Rattle.trace_check.specs.Answers.{shown_of, start_for, steps_of};
ghost use Rattle.trace_check.specs.Playing.{Asks, AsksOf, IsReasonThere, PlaysLine, WritesPlayed};
ghost use Rattle.trace_check.specs.declared.verdict.Verdict.TheVariants as verdicts;

use crate::asking::why;
use crate::reason::Reason;
use crate::starting::start_core;
use crate::verdict::Verdict;
use core_world::{Step, law_sizes};
use std::alloc::Global;
use step_core::{Core, apply, enabled};
use tm_base::{CpuId, NoMemory, TimerId};
use tm_report::{Line, Report, ShownReason};
use trace_text::{Trace, TraceLine};
use wheel_core::TimerBase;

/// A reason as a report shows it.
fn shown_of<B: TimerBase>(core: &Core<B>, reason: Reason) -> ShownReason
    requires { IsReasonThere core.now reason }
    ensures { result ≡ shown_of core.now reason }
{
    match reason {
        Reason::Held { group, cpu } => ShownReason::Held {
            level: core.tree().level(group),
            place: core.tree().place(group),
            cpu,
        },
        Reason::Woken { cpu, at } => ShownReason::Woken { cpu, at },
        Reason::Carried { case } => ShownReason::Carried { case },
    }
}

/// What is shown of a question.
fn answer<B: TimerBase>(core: &Core<B>, cpu: CpuId, timer: TimerId) -> ShownReason
    requires { cpu.0 < length core.now.cpus }
    ensures { IsReasonShown core.now cpu.0 timer.0 result }
{
    core.kept();
    match why(core, cpu, timer) {
        Some(reason) => shown_of(core, reason),
        None => ShownReason::Nothing,
    }
}

/// Plays a step where so many were made before: how many are made then, None where it isn't
/// enabled.
fn play_step<B: TimerBase>(
    core: &mut Core<B>,
    step: Step,
    made: u32,
    out: &mut Report,
) -> Result<Option<u32>, NoMemory>
    requires { made < MOST_LINES }
    ensures same { OnOk result (SameSize core.old core.new) }
    ensures few { IfOk result (λ next. IfSome next (λ more. more ≤ made + 1)) }
    ensures plays { IfOk result (PlaysLine core.old made (lines.Do step) out.old out.new core.new) }
{
    law_sizes();
    if !enabled(core, &step) {
        out.push(&Line::No { index: made })?;
        return Ok(None);
    }
    apply(core, step)?;
    Ok(Some(made + 1))
}

/// Answers a question where so many steps were made before.
fn play_question<B: TimerBase>(
    core: &Core<B>,
    cpu: CpuId,
    timer: TimerId,
    made: u32,
    out: &mut Report,
) -> Result<(), NoMemory>
    requires { cpu.0 < length core.now.cpus }
    ensures { OnOk result (Asks core.now made cpu timer out.old out.new) }
{
    let shown = answer(core, cpu, timer);
    out.push(&Line::Why {
        steps: made,
        cpu,
        timer,
        shown,
    })?;
    Ok(())
}

/// Plays a line where so many steps were made before: how many are made then, None where the line's
/// step isn't enabled.
fn play_line<B: TimerBase>(
    core: &mut Core<B>,
    line: TraceLine,
    made: u32,
    out: &mut Report,
) -> Result<Option<u32>, NoMemory>
    requires few { made < MOST_LINES }
    requires in_range { AsksOf (length core.old.cpus) line }
    ensures same { OnOk result (SameSize core.old core.new) }
    ensures few { IfOk result (λ next. IfSome next (λ more. more ≤ made + 1)) }
    ensures plays { IfOk result (PlaysLine core.old made line out.old out.new core.new) }
{
    match line {
        TraceLine::Do(step) => play_step(core, step, made, out),
        TraceLine::Why { cpu, timer } => {
            play_question(core, cpu, timer, made, out)?;
            Ok(Some(made))
        }
    }
}

/// Plays lines up to the first whose step isn't enabled.
fn play_lines<B: TimerBase>(
    core: &mut Core<B>,
    lines: &[TraceLine],
    out: &mut Report,
) -> Result<Verdict, NoMemory>
    requires few { length lines.now ≤ MOST_LINES }
    requires in_range { All (AsksOf (length core.old.cpus)) lines.now }
    ensures { IfOk result (λ verdict. WritesPlayed core.old lines.now verdict out.old out.new) }
{
    let mut made = 0;
    for line in lines {
        match play_line(core, *line, made, out)? {
            Some(more) => made = more,
            None => return Ok(Verdict::No { index: made }),
        }
    }
    out.push(&Line::Yes { steps: made })?;
    Ok(Verdict::Yes { steps: made })
}

/// Whether the steps of a trace can be made one after the other, from the start of its machine: yes
/// exactly where they are a run of the core; else the first step that isn't enabled where it
/// stands. The report gets, for each question before that end, a line on who answers, and then the
/// verdict; or after want of memory nothing.
pub fn check(alloc: Global, trace: &Trace, out: &mut Report) -> Result<Verdict, NoMemory>
    requires { IsTrace trace.now }
    ensures verdict { IfOk result (IsVerdict (start_for trace.now) (steps_of trace.now.lines)) }
    ensures yes { IfOk result (λ verdict. (after : World) →
        IsRun (steps_of trace.now.lines) (start_for trace.now) after →
        verdict ≡ verdicts.Yes (length (steps_of trace.now.lines))) }
    ensures text { IfOk result (λ verdict. (text : List ℕ) × (out.new ≡ out.old ++ text)
        × IsCheckText trace.now text) }
    ensures err { OnErr result (out.new ≡ out.old) }
{
    let mut core = start_core(alloc, trace)?;
    core.kept();
    let mut told = Report::new(alloc);
    let verdict = play_lines(&mut core, trace.lines.as_slice(), &mut told)?;
    out.append(&told)?;
    Ok(verdict)
}
