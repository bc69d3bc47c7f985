//! The texts that the program writes beside outputs.

ghost use Rattle.std.specs.Prelude.{◌≡◌, IfOk};
ghost use Rattle.program_texts.specs.Texts.{form_name, job_unknown_text, kind_number};
ghost use Rattle.program_texts.specs.Texts.{program_read_fault_text, program_too_long_text};
ghost use Rattle.program_texts.specs.Texts.{refused_input_text};
ghost use Rattle.program_texts.specs.Texts.{program_usage_text, work_spent_text};

use crate::inputs::Form;
use std::alloc::Global;
use text_words::{push_bytes, push_number};
use tm_base::NoMemory;
use tm_script::{Kind, ScriptFault};

pub(crate) fn usage_text() -> &'static [u8]
    ensures { result.now ≡ program_usage_text }
{
    b"usage: tmig play | run | tree | generate NUMBER CPUS TIMERS MOMENTS \
      | day NUMBER CPUS TIMERS MOMENTS | check | deep | works\n"
}

pub(crate) fn read_fault_text() -> &'static [u8]
    ensures { result.now ≡ program_read_fault_text }
{
    b"read fault\n"
}

pub(crate) fn too_long_text() -> &'static [u8]
    ensures { result.now ≡ program_too_long_text }
{
    b"input too long\n"
}

/// The number of a kind of fault, 1 to 6.
fn kind_number(kind: Kind) -> u8
    ensures { result ≡ kind_number kind }
{
    match kind {
        Kind::BadLine => 1,
        Kind::BadNumber => 2,
        Kind::OutOfRange => 3,
        Kind::OutOfOrder => 4,
        Kind::NoEnd => 5,
        Kind::TooManyLines => 6,
    }
}

/// What a refusal calls an input of this form.
fn form_name(form: Form) -> &'static [u8]
    ensures { result.now ≡ form_name form }
{
    match form {
        Form::Script => b"script",
        Form::Trace => b"trace",
        Form::Works => b"works",
    }
}

#[tactic(auto, using(std::proofs::lemmas::List::append_assoc))]
pub(crate) fn refused_text(
    alloc: Global,
    form: Form,
    fault: ScriptFault,
) -> Result<Vec<u8>, NoMemory>
    ensures { IfOk result (λ text. text.items ≡ refused_input_text form fault) }
{
    let mut text = Vec::new(alloc);
    push_bytes(&mut text, form_name(form))?;
    push_bytes(&mut text, b" refused line ")?;
    push_number(&mut text, u64::from(fault.line))?;
    push_bytes(&mut text, b" kind ")?;
    push_number(&mut text, u64::from(kind_number(fault.kind)))?;
    push_bytes(&mut text, b"\n")?;
    Ok(text)
}

#[tactic(auto, using(std::proofs::lemmas::List::append_assoc))]
pub(crate) fn job_unknown_text(alloc: Global, line: u32, job: u8) -> Result<Vec<u8>, NoMemory>
    ensures { IfOk result (λ text. text.items ≡ job_unknown_text line job) }
{
    let mut text = Vec::new(alloc);
    push_bytes(&mut text, b"job unknown line ")?;
    push_number(&mut text, u64::from(line))?;
    push_bytes(&mut text, b" job ")?;
    push_number(&mut text, u64::from(job))?;
    push_bytes(&mut text, b"\n")?;
    Ok(text)
}

#[tactic(auto, using(std::proofs::lemmas::List::append_assoc))]
pub(crate) fn work_spent_text(alloc: Global, count: u32) -> Result<Vec<u8>, NoMemory>
    ensures { IfOk result (λ text. text.items ≡ work_spent_text count) }
{
    let mut text = Vec::new(alloc);
    push_bytes(&mut text, b"work spent ")?;
    push_number(&mut text, u64::from(count))?;
    push_bytes(&mut text, b"\n")?;
    Ok(text)
}
