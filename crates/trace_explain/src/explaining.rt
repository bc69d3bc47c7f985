//! Traces told line by line.

ghost use Rattle.std.specs.Prelude.{◌≡◌, ◌+◌, ◌<◌, ◌≤◌, ◌++◌, All, IfOk, IfSome, OnOk, length};
ghost use Rattle.core_world.specs.Enabled.{Enabled};
ghost use Rattle.core_world.specs.Frames.{SameSize};
ghost use Rattle.tm_base.specs.declared.limits.TheConstants.{MOST_LINES};
ghost use Rattle.trace_text.specs.Texts.{IsTrace};
ghost use Rattle.trace_text.specs.declared.traces.TraceLine.TheVariants as lines;
ghost use Rattle.trace_check.specs.Answers.{IsVerdict, start_for, steps_of};
ghost use Rattle.trace_check.specs.Playing.{AsksOf};
ghost use Rattle.trace_explain.specs.Explained.{IsExplained, made_text, refused_text};
ghost use Rattle.trace_explain.specs.Telling.{Tells};

use crate::answers::{push_answers, push_asked};
use crate::pieces::{push_after, push_around, push_line, push_words};
use crate::sentences::push_step;
use crate::starting::start_core;
use core_world::{Step, law_sizes};
use std::alloc::Global;
use step_causes::{Cause, Core, apply, cause, text_of};
use tm_base::NoMemory;
use trace_check::{Trace, TraceLine, Verdict};
use wheel_core::TimerBase;

/// What is told of a trace, and its verdict.
#[derive(Drop)]
pub struct Explanation {
    pub verdict: Verdict,
    pub text: Vec<u8>,
}

/// The line of a step that can't be made.
#[tactic(auto, using(std::proofs::lemmas::List::append_assoc), unfolding(crate::specs::Explained::refused_text))]
fn push_refused(alloc: Global, text: &mut Vec<u8>, made: u32, cause: Cause) -> Result<(), NoMemory>
    ensures { OnOk result (text.new.items ≡ text.old.items ++ refused_text made cause) }
{
    let sentence = text_of(alloc, &cause)?;
    push_line(
        text,
        b"step ",
        u64::from(made),
        b" can't be made: ",
        &sentence,
    )
}

/// The line of a step that is made.
#[tactic(auto, using(std::proofs::lemmas::List::append_assoc), unfolding(crate::specs::Explained::made_text))]
fn push_made<B: TimerBase>(
    text: &mut Vec<u8>,
    core: &Core<B>,
    made: u32,
    step: Step,
) -> Result<(), NoMemory>
    requires { Enabled core.now step }
    ensures { OnOk result (text.new.items ≡ text.old.items ++ made_text core.now made step) }
{
    push_after(text, b"step ", u64::from(made))?;
    push_words(text, b": ")?;
    push_step(text, core, step)?;
    push_words(text, b"\n")
}

/// Tells a step where so many were made before: how many are made then, None where it isn't
/// enabled.
fn tell_step<B: TimerBase>(
    alloc: Global,
    core: &mut Core<B>,
    step: Step,
    made: u32,
    text: &mut Vec<u8>,
) -> Result<Option<u32>, NoMemory>
    requires { made < MOST_LINES }
    ensures same { OnOk result (SameSize core.old core.new) }
    ensures few { IfOk result (λ next. IfSome next (λ more. more ≤ made + 1)) }
    ensures tells { IfOk result
        (Tells core.old made (lines.Do step) text.old.items text.new.items core.new) }
{
    law_sizes();
    if let Some(cause) = cause(core, &step) {
        push_refused(alloc, text, made, cause)?;
        return Ok(None);
    }
    push_made(text, core, made, step)?;
    apply(core, step)?;
    push_answers(text, core)?;
    Ok(Some(made + 1))
}

/// Tells a line where so many steps were made before: how many are made then, None where the line's
/// step isn't enabled.
fn tell_line<B: TimerBase>(
    alloc: Global,
    core: &mut Core<B>,
    line: TraceLine,
    made: u32,
    text: &mut Vec<u8>,
) -> Result<Option<u32>, NoMemory>
    requires few { made < MOST_LINES }
    requires in_range { AsksOf (length core.old.cpus) line }
    ensures same { OnOk result (SameSize core.old core.new) }
    ensures few { IfOk result (λ next. IfSome next (λ more. more ≤ made + 1)) }
    ensures tells { IfOk result
        (Tells core.old made line text.old.items text.new.items core.new) }
{
    match line {
        TraceLine::Do(step) => tell_step(alloc, core, step, made, text),
        TraceLine::Why { cpu, timer } => {
            push_asked(text, core, cpu, timer)?;
            Ok(Some(made))
        },
    }
}

/// Tells lines up to the first whose step isn't enabled.
fn tell_lines<B: TimerBase>(
    alloc: Global,
    core: &mut Core<B>,
    lines: &[TraceLine],
) -> Result<Explanation, NoMemory>
    requires few { length lines.now ≤ MOST_LINES }
    requires in_range { All (AsksOf (length core.old.cpus)) lines.now }
    ensures { IfOk result (λ e. IsExplained core.old 0 lines.now e.verdict e.text.items) }
{
    let mut text = Vec::new(alloc);
    let mut made = 0;
    for line in lines {
        match tell_line(alloc, core, *line, made, &mut text)? {
            Some(more) => made = more,
            None => {
                return Ok(Explanation {
                    verdict: Verdict::No { index: made },
                    text,
                });
            },
        }
    }
    push_around(
        &mut text,
        b"all steps can be made: ",
        u64::from(made),
        b"\n",
    )?;
    Ok(Explanation {
        verdict: Verdict::Yes { steps: made },
        text,
    })
}

/// Tells a trace step by step, from the start of its machine: what each step changes, and who
/// answers for each waiting timer after it; an answer to each question; and at the first step that
/// isn't enabled a fact of the machine that forbids it. The verdict is that of
/// `trace_check::check`.
pub fn explain(alloc: Global, trace: &Trace) -> Result<Explanation, NoMemory>
    requires { IsTrace trace.now }
    ensures text { IfOk result
        (λ e. IsExplained (start_for trace.now) 0 trace.now.lines e.verdict e.text.items) }
    ensures verdict { IfOk result
        (λ e. IsVerdict (start_for trace.now) (steps_of trace.now.lines) e.verdict) }
{
    let mut core = start_core(alloc, trace)?;
    core.kept();
    tell_lines(alloc, &mut core, trace.lines.as_slice())
}
