//! What is told of an input that can't be read.

ghost use Rattle.std.specs.Prelude.{◌≡◌, IfOk};
ghost use Rattle.view_main.specs.Refusals.{back_text, cause_text, hint_for, kind_text};
ghost use Rattle.view_main.specs.Refusals.{report_text, script_text, steps_text};
ghost use Rattle.view_hints.specs.Hints.{script_hint, steps_hint};

use report_reader::{Kind, ReportFault};
use std::alloc::Global;
use text_words::{push_bytes, push_number};
use tm_base::NoMemory;
use tm_script::ScriptFault;
use view_hints::{script_hint, steps_hint};

/// What is wrong with a line of a report.
fn cause_text(kind: Kind) -> &'static [u8]
    ensures { result.now ≡ cause_text kind }
{
    match kind {
        Kind::UnknownName => b": no line has this name\n",
        Kind::WrongWords => b": these are not the words of such a line\n",
        Kind::NoLineFeed => b": no line feed ends it\n",
    }
}

/// A text that is no report.
#[tactic(auto, using(crate::proofs::Joined::onto), unfolding(crate::specs::Refusals::report_text))]
pub(crate) fn report_refused(alloc: Global, fault: ReportFault) -> Result<Vec<u8>, NoMemory>
    ensures { IfOk result (λ text. text.items ≡ report_text fault) }
{
    let mut text = Vec::new(alloc);
    push_bytes(&mut text, b"report refused line ")?;
    push_number(&mut text, fault.line as u64)?;
    push_bytes(&mut text, cause_text(fault.kind))?;
    Ok(text)
}

/// A report of which the line of this number goes back in time.
#[tactic(auto, using(crate::proofs::Joined::onto), unfolding(crate::specs::Refusals::back_text))]
pub(crate) fn back_refused(alloc: Global, number: usize) -> Result<Vec<u8>, NoMemory>
    ensures { IfOk result (λ text. text.items ≡ back_text number) }
{
    let mut text = Vec::new(alloc);
    push_bytes(&mut text, b"report refused line ")?;
    push_number(&mut text, number as u64)?;
    push_bytes(&mut text, b": it goes back in time\n")?;
    Ok(text)
}

/// What is wrong with a line of a trace of steps.
fn kind_text(kind: tm_script::Kind) -> &'static [u8]
    ensures { result.now ≡ kind_text kind }
{
    match kind {
        tm_script::Kind::BadLine => b" kind 1: no such line may stand here\n",
        tm_script::Kind::BadNumber => b" kind 2: a number is spelled wrong\n",
        tm_script::Kind::OutOfRange => b" kind 3: a number is out of its range\n",
        tm_script::Kind::OutOfOrder => b" kind 4: the numbers don't ascend\n",
        tm_script::Kind::NoEnd => b" kind 5: the end is missing\n",
        tm_script::Kind::TooManyLines => b" kind 6: there are too many lines\n",
    }
}

/// What is said of the line of a script that is at fault: itself, and what may stand there. Where
/// there are too many lines nothing may.
fn script_hint_for(alloc: Global, bytes: &[u8], fault: ScriptFault) -> Result<Vec<u8>, NoMemory>
    ensures { IfOk result (λ text. text.items
        ≡ hint_for fault.kind (script_hint bytes.now fault.line)) }
{
    match fault.kind {
        tm_script::Kind::TooManyLines => Ok(Vec::new(alloc)),
        _ => script_hint(alloc, bytes, fault.line),
    }
}

/// .. and of the line of a trace of steps.
fn steps_hint_for(alloc: Global, bytes: &[u8], fault: ScriptFault) -> Result<Vec<u8>, NoMemory>
    ensures { IfOk result (λ text. text.items
        ≡ hint_for fault.kind (steps_hint bytes.now fault.line)) }
{
    match fault.kind {
        tm_script::Kind::TooManyLines => Ok(Vec::new(alloc)),
        _ => steps_hint(alloc, bytes, fault.line),
    }
}

/// A text that is no script.
#[tactic(auto, using(crate::proofs::Joined::onto), unfolding(crate::specs::Refusals::script_text))]
pub(crate) fn script_refused(
    alloc: Global,
    bytes: &[u8],
    fault: ScriptFault,
) -> Result<Vec<u8>, NoMemory>
    ensures { IfOk result (λ text. text.items ≡ script_text bytes.now fault) }
{
    let hint = script_hint_for(alloc, bytes, fault)?;
    let mut text = Vec::new(alloc);
    push_bytes(&mut text, b"script refused line ")?;
    push_number(&mut text, u64::from(fault.line))?;
    push_bytes(&mut text, kind_text(fault.kind))?;
    push_bytes(&mut text, &hint)?;
    Ok(text)
}

/// A text that is no trace of steps.
#[tactic(auto, using(crate::proofs::Joined::onto), unfolding(crate::specs::Refusals::steps_text))]
pub(crate) fn steps_refused(
    alloc: Global,
    bytes: &[u8],
    fault: ScriptFault,
) -> Result<Vec<u8>, NoMemory>
    ensures { IfOk result (λ text. text.items ≡ steps_text bytes.now fault) }
{
    let hint = steps_hint_for(alloc, bytes, fault)?;
    let mut text = Vec::new(alloc);
    push_bytes(&mut text, b"trace refused line ")?;
    push_number(&mut text, u64::from(fault.line))?;
    push_bytes(&mut text, kind_text(fault.kind))?;
    push_bytes(&mut text, &hint)?;
    Ok(text)
}
