//! Writing the text of a trace.

ghost use Rattle.std.specs.Prelude.{◌≡◌, ◌∷◌, ◌++◌, [], IfOk, OnOk, map};
ghost use Rattle.std.specs.Fmt.{decimal};
ghost use Rattle.std.specs.List.{flat_map};
ghost use Rattle.text_words.specs.Words.{ended, spaced};
ghost use Rattle.tm_base.specs.Classes.{class_text};
ghost use Rattle.trace_text.specs.Lines.{trace_line_text};
ghost use Rattle.trace_text.specs.Texts.{IsTrace, machine_lines, trace_text};

use core_world::Step;
use std::alloc::Global;
use text_words::{push_bytes, push_number};
use tm_base::{Class, CpuId, Jiffy, NoMemory, TimerId};
use tm_script::{Moments, Script, print_script};
use trace_text::{Trace, TraceLine};

/// A word that is a number, behind a space.
#[tactic(auto, using(std::proofs::lemmas::List::append_assoc))]
fn push_next(text: &mut Vec<u8>, n: u64) -> Result<(), NoMemory>
    ensures { OnOk result (text.new.items ≡ text.old.items ++ 32 ∷ decimal n) }
{
    push_bytes(text, b" ")?;
    push_number(text, n)?;
    Ok(())
}

/// The word of a class, behind a space.
#[tactic(auto, using(std::proofs::lemmas::List::append_assoc))]
fn push_class(text: &mut Vec<u8>, class: Class) -> Result<(), NoMemory>
    ensures { OnOk result (text.new.items ≡ text.old.items ++ 32 ∷ class_text class) }
{
    push_bytes(text, b" ")?;
    push_bytes(text, class.word().as_bytes())?;
    Ok(())
}

/// A line of a word and a number.
#[tactic(auto, using(std::proofs::lemmas::List::append_assoc))]
fn push_one(text: &mut Vec<u8>, word: &[u8], n: u64) -> Result<(), NoMemory>
    ensures { OnOk result
        (text.new.items ≡ text.old.items ++ ended (spaced (word.now ∷ decimal n ∷ []))) }
{
    push_bytes(text, word)?;
    push_next(text, n)?;
    push_bytes(text, b"\n")?;
    Ok(())
}

/// A line of a word and two numbers.
#[tactic(auto, using(std::proofs::lemmas::List::append_assoc))]
fn push_two(text: &mut Vec<u8>, word: &[u8], m: u64, n: u64) -> Result<(), NoMemory>
    ensures { OnOk result (text.new.items
        ≡ text.old.items ++ ended (spaced (word.now ∷ decimal m ∷ decimal n ∷ []))) }
{
    push_bytes(text, word)?;
    push_next(text, m)?;
    push_next(text, n)?;
    push_bytes(text, b"\n")?;
    Ok(())
}

/// A line of a word and three numbers.
#[tactic(auto, using(std::proofs::lemmas::List::append_assoc))]
fn push_three(text: &mut Vec<u8>, word: &[u8], l: u64, m: u64, n: u64) -> Result<(), NoMemory>
    ensures { OnOk result (text.new.items ≡ text.old.items
        ++ ended (spaced (word.now ∷ decimal l ∷ decimal m ∷ decimal n ∷ []))) }
{
    push_bytes(text, word)?;
    push_next(text, l)?;
    push_next(text, m)?;
    push_next(text, n)?;
    push_bytes(text, b"\n")?;
    Ok(())
}

/// The line of a cancelling.
#[tactic(auto, using(std::proofs::lemmas::List::append_assoc))]
fn push_cancel(
    text: &mut Vec<u8>,
    cpu: CpuId,
    timer: TimerId,
    by: CpuId,
    line: u32,
) -> Result<(), NoMemory>
    ensures { OnOk result (text.new.items ≡ text.old.items
        ++ ended (trace_line_text (TraceLine.Do (Step.Cancel cpu timer by line)))) }
{
    push_bytes(text, b"cancel")?;
    push_next(text, u64::from(cpu.0))?;
    push_next(text, u64::from(timer.0))?;
    push_next(text, u64::from(by.0))?;
    push_next(text, u64::from(line))?;
    push_bytes(text, b"\n")?;
    Ok(())
}

/// The line of the end of a drain.
#[tactic(auto, using(std::proofs::lemmas::List::append_assoc))]
fn push_ticked(text: &mut Vec<u8>, cpu: CpuId, class: Class, runner: CpuId) -> Result<(), NoMemory>
    ensures { OnOk result (text.new.items ≡ text.old.items
        ++ ended (trace_line_text (TraceLine.Do (Step.Ticked cpu class runner)))) }
{
    push_bytes(text, b"ticked")?;
    push_next(text, u64::from(cpu.0))?;
    push_class(text, class)?;
    push_next(text, u64::from(runner.0))?;
    push_bytes(text, b"\n")?;
    Ok(())
}

/// What an arming says.
#[derive(Clone, Copy)]
struct Arming {
    cpu: CpuId,
    timer: TimerId,
    class: Class,
    expires: Jiffy,
    job: u8,
    arg: u32,
    line: u32,
}

/// Two words that are numbers, each behind a space.
#[tactic(auto, using(std::proofs::lemmas::List::append_assoc))]
fn push_pair(text: &mut Vec<u8>, m: u64, n: u64) -> Result<(), NoMemory>
    ensures { OnOk result
        (text.new.items ≡ text.old.items ++ 32 ∷ (decimal m ++ 32 ∷ decimal n)) }
{
    push_next(text, m)?;
    push_next(text, n)?;
    Ok(())
}

/// The line of an arming.
#[tactic(auto, using(std::proofs::lemmas::List::append_assoc))]
fn push_arm(text: &mut Vec<u8>, arming: Arming) -> Result<(), NoMemory>
    ensures { OnOk result (text.new.items ≡ text.old.items ++ ended (trace_line_text (TraceLine.Do
        (Step.Arm arming.cpu arming.timer arming.class arming.expires arming.job arming.arg
        arming.line)))) }
{
    push_bytes(text, b"arm")?;
    push_pair(text, u64::from(arming.cpu.0), u64::from(arming.timer.0))?;
    push_class(text, arming.class)?;
    push_next(text, arming.expires)?;
    push_pair(text, u64::from(arming.job), u64::from(arming.arg))?;
    push_next(text, u64::from(arming.line))?;
    push_bytes(text, b"\n")?;
    Ok(())
}

/// The line of a step.
fn push_step(text: &mut Vec<u8>, step: Step) -> Result<(), NoMemory>
    ensures { OnOk result
        (text.new.items ≡ text.old.items ++ ended (trace_line_text (TraceLine.Do step))) }
{
    match step {
        Step::Clock { now } => push_one(text, b"clock", now),
        Step::Enter { cpu } => push_one(text, b"enter", u64::from(cpu.0)),
        Step::Leave { cpu } => push_one(text, b"leave", u64::from(cpu.0)),
        Step::Arm {
            cpu,
            timer,
            class,
            expires,
            job,
            arg,
            line,
        } => push_arm(
            text,
            Arming {
                cpu,
                timer,
                class,
                expires,
                job,
                arg,
                line,
            },
        ),
        Step::Cancel {
            cpu,
            timer,
            by,
            line,
        } => push_cancel(text, cpu, timer, by, line),
        Step::Hand { cpu, timer, runner } => push_three(
            text,
            b"hand",
            u64::from(cpu.0),
            u64::from(timer.0),
            u64::from(runner.0),
        ),
        Step::Ticked { cpu, class, runner } => push_ticked(text, cpu, class, runner),
        Step::Move { from, to, timer } => push_three(
            text,
            b"move",
            u64::from(from.0),
            u64::from(to.0),
            u64::from(timer.0),
        ),
        Step::Idle { cpu } => push_one(text, b"idle", u64::from(cpu.0)),
        Step::Wake { cpu } => push_one(text, b"wake", u64::from(cpu.0)),
        Step::Offline { cpu } => push_one(text, b"offline", u64::from(cpu.0)),
        Step::Online { cpu } => push_one(text, b"online", u64::from(cpu.0)),
        Step::Reeval { cpu } => push_one(text, b"reeval", u64::from(cpu.0)),
        Step::Take { cpu, by } => push_two(text, b"take", u64::from(cpu.0), u64::from(by.0)),
        Step::Carry { cpu } => push_one(text, b"carry", u64::from(cpu.0)),
        Step::Release { cpu } => push_one(text, b"release", u64::from(cpu.0)),
        Step::Walk { cpu } => push_one(text, b"walk", u64::from(cpu.0)),
        Step::HandOn { cpu, to } => push_two(text, b"handon", u64::from(cpu.0), u64::from(to.0)),
    }
}

fn push_line(text: &mut Vec<u8>, line: &TraceLine) -> Result<(), NoMemory>
    ensures { OnOk result (text.new.items ≡ text.old.items ++ ended (trace_line_text line.now)) }
{
    let line = *line;
    match line {
        TraceLine::Do(step) => push_step(text, step),
        TraceLine::Why { cpu, timer } => {
            push_two(text, b"why", u64::from(cpu.0), u64::from(timer.0))
        }
    }
}

fn push_lines(text: &mut Vec<u8>, lines: &[TraceLine]) -> Result<(), NoMemory>
    ensures { OnOk result
        (text.new.items ≡ text.old.items ++ flat_map ended (map trace_line_text lines.now)) }
{
    for line in lines {
        push_line(text, line)?;
    }
    Ok(())
}

/// How many bytes the first line of a script of version 2 has, and its last at jiffy 0.
const FIRST_BYTES: usize = 7;

const LAST_BYTES: usize = 6;

/// The lines of the machine, as the script with the same machine has them.
#[tactic(auto, using(crate::proofs::Prints::cutting))]
fn push_machine(alloc: Global, text: &mut Vec<u8>, trace: &Trace) -> Result<(), NoMemory>
    requires { IsTrace trace.now }
    ensures { OnOk result
        (text.new.items ≡ text.old.items ++ flat_map ended (machine_lines trace.now)) }
{
    let script = Script {
        version: 2,
        nodes: trace.nodes,
        cpus: trace.cpus,
        timers: trace.timers,
        isolated: trace.isolated.copy(),
        moments: Moments::new(alloc),
        end: 0,
    };
    let printed = print_script(alloc, &script)?;
    let behind = &printed[FIRST_BYTES..];
    let count = behind.len() - LAST_BYTES;
    push_bytes(text, &behind[..count])?;
    Ok(())
}

/// The one text that spells a trace. Reading it gives the trace again.
pub fn print_trace(alloc: Global, trace: &Trace) -> Result<Vec<u8>, NoMemory>
    requires { IsTrace trace.now }
    ensures { IfOk result (λ text. text.items ≡ trace_text trace.now) }
{
    let mut text = Vec::new(alloc);
    push_bytes(&mut text, b"trace 1\n")?;
    push_machine(alloc, &mut text, trace)?;
    push_lines(&mut text, trace.lines.as_slice())?;
    push_bytes(&mut text, b"end\n")?;
    Ok(text)
}
