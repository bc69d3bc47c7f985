//! Writing the text of a script.

ghost use Rattle.std.specs.Prelude.{◌≡◌, ◌*◌, ◌+◌, ◌∷◌, ◌++◌, OnOk};
ghost use Rattle.std.specs.Prelude.{IfOk};
ghost use Rattle.std.specs.Fmt.{decimal};
ghost use Rattle.std.specs.List.{flat_map};
ghost use Rattle.text_words.specs.Words.{ended};
ghost use Rattle.tm_script.specs.Texts.{number_line, what_line, op_line, moment_lines};
ghost use Rattle.tm_script.specs.Texts.{isolated_line, head_lines, script_text};
ghost use Rattle.tm_base.specs.Classes.{class_text};
ghost use Rattle.tm_script.specs.Grammar.{IsScript};

use crate::syntax::{Moment, Op, Script, What};
use std::alloc::Global;
use text_words::{push_bytes, push_number};
use tm_base::{Class, CpuId, CpuSet, NoMemory, TimerId};

/// A word that is a number, behind a space.
#[tactic(auto, using(std::proofs::lemmas::List::append_assoc))]
fn push_next(text: &mut Vec<u8>, n: u64) -> Result<(), NoMemory>
    ensures { OnOk result (text.new.items ≡ text.old.items ++ 32 ∷ decimal n) }
{
    push_bytes(text, b" ")?;
    push_number(text, n)?;
    Ok(())
}

/// A line of a word and a number.
#[tactic(auto, using(std::proofs::lemmas::List::append_assoc))]
fn push_field(text: &mut Vec<u8>, word: &[u8], n: u64) -> Result<(), NoMemory>
    ensures { OnOk result (text.new.items ≡ text.old.items ++ ended (number_line word.now n)) }
{
    push_bytes(text, word)?;
    push_next(text, n)?;
    push_bytes(text, b"\n")?;
    Ok(())
}

/// The line of a cancelling.
#[tactic(auto, using(std::proofs::lemmas::List::append_assoc))]
fn push_cancel(text: &mut Vec<u8>, cpu: CpuId, timer: TimerId) -> Result<(), NoMemory>
    ensures { OnOk result
        (text.new.items ≡ text.old.items ++ ended (what_line cpu.0 (What.Cancel timer))) }
{
    push_bytes(text, b"cancel")?;
    push_next(text, u64::from(cpu.0))?;
    push_next(text, u64::from(timer.0))?;
    push_bytes(text, b"\n")?;
    Ok(())
}

/// The word of a class, behind a space.
#[tactic(auto, using(std::proofs::lemmas::List::append_assoc))]
fn push_class(text: &mut Vec<u8>, class: Class) -> Result<(), NoMemory>
    ensures { OnOk result (text.new.items ≡ text.old.items ++ 32 ∷ class_text class) }
{
    push_bytes(text, b" ")?;
    push_bytes(text, class.word().as_bytes())?;
    Ok(())
}

/// What an arming says.
#[derive(Clone, Copy)]
struct Arming {
    timer: TimerId,
    class: Class,
    delay: u32,
    job: u8,
    arg: u32,
}

/// The line of an arming.
#[tactic(auto, using(std::proofs::lemmas::List::append_assoc))]
fn push_arm(text: &mut Vec<u8>, cpu: CpuId, arming: Arming) -> Result<(), NoMemory>
    ensures { OnOk result (text.new.items ≡ text.old.items ++ ended (what_line cpu.0
        (What.Arm arming.timer arming.class arming.delay arming.job arming.arg))) }
{
    push_bytes(text, b"arm")?;
    push_next(text, u64::from(cpu.0))?;
    push_next(text, u64::from(arming.timer.0))?;
    push_class(text, arming.class)?;
    push_next(text, u64::from(arming.delay))?;
    push_next(text, u64::from(arming.job))?;
    push_next(text, u64::from(arming.arg))?;
    push_bytes(text, b"\n")?;
    Ok(())
}

/// The line of an operation.
fn push_op(text: &mut Vec<u8>, op: &Op) -> Result<(), NoMemory>
    ensures { OnOk result (text.new.items ≡ text.old.items ++ ended (op_line op.now)) }
{
    let cpu = op.cpu;
    let what = op.what;
    match what {
        What::Arm {
            timer,
            class,
            delay,
            job,
            arg,
        } => push_arm(
            text,
            cpu,
            Arming {
                timer,
                class,
                delay,
                job,
                arg,
            },
        ),
        What::Cancel { timer } => push_cancel(text, cpu, timer),
        What::Idle => push_field(text, b"idle", u64::from(cpu.0)),
        What::Wake => push_field(text, b"wake", u64::from(cpu.0)),
        What::Offline => push_field(text, b"offline", u64::from(cpu.0)),
        What::Online => push_field(text, b"online", u64::from(cpu.0)),
    }
}

/// The lines of a moment.
fn push_moment(text: &mut Vec<u8>, moment: &Moment) -> Result<(), NoMemory>
    ensures { OnOk result
        (text.new.items ≡ text.old.items ++ flat_map ended (moment_lines moment.now)) }
{
    push_field(text, b"at", moment.at)?;
    for op in moment.ops.as_slice() {
        push_op(text, op)?;
    }
    Ok(())
}

/// The lines of moments.
#[tactic(auto, using(crate::proofs::PrintLaws::printing))]
fn push_moments(text: &mut Vec<u8>, moments: &[Moment]) -> Result<(), NoMemory>
    ensures { OnOk result
        (text.new.items ≡ text.old.items ++ flat_map ended (flat_map moment_lines moments.now)) }
{
    for moment in moments {
        push_moment(text, moment)?;
    }
    Ok(())
}

/// The line of the isolated CPUs, where there are `count` CPUs.
fn push_isolated(text: &mut Vec<u8>, count: u16, cpus: &CpuSet) -> Result<(), NoMemory>
    ensures { OnOk result
        (text.new.items ≡ text.old.items ++ ended (isolated_line count cpus.now)) }
{
    push_bytes(text, b"isolated")?;
    for cpu in 0..count {
        if cpus.has(CpuId(cpu)) {
            push_next(text, u64::from(cpu))?;
        }
    }
    push_bytes(text, b"\n")?;
    Ok(())
}

/// The lines before the moments.
#[tactic(auto, using(crate::proofs::PrintLaws::printing))]
fn push_head(text: &mut Vec<u8>, script: &Script) -> Result<(), NoMemory>
    ensures { OnOk result
        (text.new.items ≡ text.old.items ++ flat_map ended (head_lines script.now)) }
{
    push_field(text, b"tmig", u64::from(script.version))?;
    push_field(text, b"nodes", u64::from(script.nodes))?;
    push_field(text, b"cpus", u64::from(script.cpus))?;
    push_field(text, b"timers", u64::from(script.timers))?;
    if script.version != 1 {
        push_isolated(
            text,
            u16::from(script.nodes) * u16::from(script.cpus),
            &script.isolated,
        )?;
    }
    Ok(())
}

/// The one text that spells a script. Reading it gives the script again.
#[tactic(auto, using(crate::proofs::PrintLaws::printing))]
pub fn print_script(alloc: Global, script: &Script) -> Result<Vec<u8>, NoMemory>
    requires { IsScript script.now }
    ensures { IfOk result (λ text. text.items ≡ script_text script.now) }
{
    let mut text = Vec::new(alloc);
    push_head(&mut text, script)?;
    push_moments(&mut text, script.moments.as_slice())?;
    push_field(&mut text, b"end", script.end)?;
    Ok(text)
}
