//! What is written besides ends and orders.

ghost use Rattle.std.specs.Prelude.{◌≡◌, ◌++◌, IfOk, OnOk};
ghost use Rattle.std.specs.Fmt.{decimal};
ghost use Rattle.orders_view.specs.Texts.{case_text, fault_line, kind_text, no_end_text};
ghost use Rattle.orders_view.specs.Texts.{stuck_text, too_many_line};

use std::alloc::Global;
use text_words::{push_bytes, push_number};
use tm_base::NoMemory;
use tm_script::{Kind, ScriptFault};

/// That there are more steps than a trace may have.
pub(crate) fn too_many_text() -> &'static [u8]
    ensures { result.now ≡ too_many_line }
{
    b"tmigview: there are more steps than a trace may have\n"
}

/// That the search is at fault.
pub(crate) fn fault_text() -> &'static [u8]
    ensures { result.now ≡ fault_line }
{
    b"tmigview: the search is at fault, a step that it found couldn't be followed\n"
}

/// What is wrong with a line of a case.
fn kind_text(kind: Kind) -> &'static [u8]
    ensures { result.now ≡ kind_text kind }
{
    match kind {
        Kind::BadLine => b" kind 1: no such line may stand here\n",
        Kind::BadNumber => b" kind 2: a number is spelled wrong\n",
        Kind::OutOfRange => b" kind 3: a number is out of its range\n",
        Kind::OutOfOrder => b" kind 4: the numbers don't ascend\n",
        Kind::NoEnd => b" kind 5: the end is missing\n",
        Kind::TooManyLines => b" kind 6: there are too many lines\n",
    }
}

/// A number behind a piece.
#[tactic(auto, using(std::proofs::lemmas::List::append_assoc))]
fn push_after(text: &mut Vec<u8>, front: &[u8], n: u64) -> Result<(), NoMemory>
    ensures { OnOk result (text.new.items ≡ text.old.items ++ (front.now ++ decimal n)) }
{
    push_bytes(text, front)?;
    push_number(text, n)?;
    Ok(())
}

/// A text that is no case.
#[tactic(auto, using(std::proofs::lemmas::List::append_assoc), unfolding(crate::specs::Texts::case_text))]
pub(crate) fn case_refused(alloc: Global, fault: ScriptFault) -> Result<Vec<u8>, NoMemory>
    ensures { IfOk result (λ text. text.items ≡ case_text fault) }
{
    let mut text = Vec::new(alloc);
    push_after(&mut text, b"case refused line ", u64::from(fault.line))?;
    push_bytes(&mut text, kind_text(fault.kind))?;
    Ok(text)
}

/// A case with a step in front of its threads that can't be made: its line, and why.
#[tactic(auto, using(std::proofs::lemmas::List::append_assoc), unfolding(crate::specs::Texts::stuck_text))]
pub(crate) fn case_stuck(alloc: Global, line: u64, cause: &[u8]) -> Result<Vec<u8>, NoMemory>
    ensures { IfOk result (λ text. text.items ≡ stuck_text line cause.now) }
{
    let mut text = Vec::new(alloc);
    push_after(&mut text, b"case stuck line ", line)?;
    push_bytes(&mut text, b": ")?;
    push_bytes(&mut text, cause)?;
    push_bytes(&mut text, b"\n")?;
    Ok(text)
}

/// No end has this number; there are so many.
#[tactic(auto, using(std::proofs::lemmas::List::append_assoc), unfolding(crate::specs::Texts::no_end_text))]
pub(crate) fn no_end(alloc: Global, number: u64, count: u64) -> Result<Vec<u8>, NoMemory>
    ensures { IfOk result (λ text. text.items ≡ no_end_text number count) }
{
    let mut text = Vec::new(alloc);
    push_after(&mut text, b"no end ", number)?;
    push_after(&mut text, b": ends ", count)?;
    push_bytes(&mut text, b"\n")?;
    Ok(text)
}
