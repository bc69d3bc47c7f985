//! Who answers for timers, in words.

ghost use Rattle.std.specs.Prelude.{◌≡◌, ◌++◌, ◌<◌, length, OnOk};
ghost use Rattle.trace_check.specs.Playing.{IsReasonThere};
ghost use Rattle.trace_explain.specs.Answers.{case_text, reason_text, told_text};
ghost use Rattle.trace_explain.specs.Telling.{AddsAnswer, AddsAnswers, AddsTold};

use crate::pieces::{push_after, push_around_two, push_words};
use crate::places::push_group;
use step_causes::{Core, law_once};
use tm_base::{CpuId, GroupId, NoMemory, TimerId};
use trace_check::{Reason, why};
use wheel_core::TimerBase;

/// What carries, by the number of the case.
fn case_text(case: u8) -> &'static [u8]
    ensures { result.now ≡ case_text case }
{
    if case == 1 {
        return b"its CPU's own walk or interrupt carries it";
    }
    if case == 2 {
        return b"a walk carries what a sleeping group was told";
    }
    if case == 3 {
        return b"a walk is about to change the group that was told";
    }
    b"a walk or an interrupt is on its way to the sleeping top"
}

/// A group answers, and leads to a CPU.
#[tactic(auto, using(std::proofs::lemmas::List::append_assoc), unfolding(crate::specs::Answers::reason_text))]
fn push_held<B: TimerBase>(
    text: &mut Vec<u8>,
    core: &Core<B>,
    group: GroupId,
    cpu: CpuId,
) -> Result<(), NoMemory>
    requires { group.0 < length core.now.groups }
    ensures { OnOk result (text.new.items
        ≡ text.old.items ++ reason_text core.now (Reason.Held group cpu)) }
{
    push_words(text, b"group ")?;
    push_group(text, core, group)?;
    push_after(text, b" was told, and leads to CPU ", u64::from(cpu.0))
}

/// Who answers.
#[tactic(auto, unfolding(crate::specs::Answers::reason_text))]
fn push_reason<B: TimerBase>(
    text: &mut Vec<u8>,
    core: &Core<B>,
    reason: Reason,
) -> Result<(), NoMemory>
    requires { IsReasonThere core.now reason }
    ensures { OnOk result (text.new.items ≡ text.old.items ++ reason_text core.now reason) }
{
    match reason {
        Reason::Held { group, cpu } => push_held(text, core, group, cpu),
        Reason::Woken { cpu, at } => {
            push_around_two(text, b"CPU ", u64::from(cpu.0), b" wakes at ", at, b"")
        },
        Reason::Carried { case } => push_words(text, case_text(case)),
    }
}

/// A line on it.
#[tactic(auto, using(std::proofs::lemmas::List::append_assoc), unfolding(crate::specs::Answers::told_text))]
fn push_told<B: TimerBase>(
    text: &mut Vec<u8>,
    front: &[u8],
    core: &Core<B>,
    cpu: CpuId,
    timer: TimerId,
    reason: Reason,
) -> Result<(), NoMemory>
    requires { IsReasonThere core.now reason }
    ensures { OnOk result (text.new.items
        ≡ text.old.items ++ told_text front.now core.now cpu.0 timer.0 reason) }
{
    push_after(text, front, u64::from(timer.0))?;
    push_after(text, b" of CPU ", u64::from(cpu.0))?;
    push_words(text, b": ")?;
    push_reason(text, core, reason)?;
    push_words(text, b"\n")
}

/// A timer's line, if it waits.
fn push_answer<B: TimerBase>(
    text: &mut Vec<u8>,
    core: &Core<B>,
    timer: TimerId,
) -> Result<(), NoMemory>
    requires { timer.0 < core.now.timers }
    ensures { OnOk result (AddsAnswer core.now timer.0 text.old.items text.new.items) }
{
    core.tree();
    law_once();
    let Some(cpu) = core.queued_on(timer) else {
        return Ok(());
    };
    let Some(reason) = why(core, cpu, timer) else {
        return Ok(());
    };
    push_told(text, b"  timer ", core, cpu, timer, reason)?;
    Ok(())
}

/// The lines of all timers that wait.
pub(crate) fn push_answers<B: TimerBase>(text: &mut Vec<u8>, core: &Core<B>) -> Result<(), NoMemory>
    ensures { OnOk result
        (AddsAnswers core.now core.now.timers text.old.items text.new.items) }
{
    for timer in 0..core.timers() {
        push_answer(text, core, TimerId(timer))?;
    }
    Ok(())
}

/// What is told of a question.
pub(crate) fn push_asked<B: TimerBase>(
    text: &mut Vec<u8>,
    core: &Core<B>,
    cpu: CpuId,
    timer: TimerId,
) -> Result<(), NoMemory>
    requires { cpu.0 < length core.now.cpus }
    ensures { OnOk result (AddsTold core.now cpu.0 timer.0 text.old.items text.new.items) }
{
    core.kept();
    let Some(reason) = why(core, cpu, timer) else {
        push_around_two(
            text,
            b"why: nobody has to answer for timer ",
            u64::from(timer.0),
            b" of CPU ",
            u64::from(cpu.0),
            b"\n",
        )?;
        return Ok(());
    };
    push_told(text, b"why: timer ", core, cpu, timer, reason)?;
    Ok(())
}
