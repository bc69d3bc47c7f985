//! What is told of a line at fault.

ghost use Rattle.std.specs.Prelude.{◌≡◌, ◌-◌, ◌++◌, IfOk, OnOk, Some};
ghost use Rattle.std.specs.Option.{option_copied};
ghost use Rattle.view_hints.specs.Hints.{bytes_of, closing_text, heads_of, hint_text, is_line};
ghost use Rattle.view_hints.specs.Hints.{is_unended};
ghost use Rattle.view_hints.specs.Hints.{line_of, or_nothing, script_hint, stands_text};
ghost use Rattle.view_hints.specs.Hints.{steps_hint};

use crate::lines::{is_first_word, line_at, push_line};
use crate::script_forms::script_form;
use crate::steps_forms::trace_form;
use std::alloc::Global;
use text_words::{push_bytes, push_number};
use tm_base::NoMemory;

/// The line of a number from 1.
fn line_of(bytes: &[u8], number: u32) -> Option<&[u8]>
    ensures { option_copied result ≡ line_of bytes.now number }
{
    line_at(bytes, number.saturating_sub(1))
}

/// What a line has, and nothing where there is no line.
fn bytes_of(bytes: &[u8], number: u32) -> &[u8]
    ensures { result.now ≡ bytes_of (line_of bytes.now number) }
{
    match line_of(bytes, number) {
        Some(line) => line,
        None => b"",
    }
}

/// Whether the line of a number is this one.
fn is_line(bytes: &[u8], number: u32, line: &[u8]) -> bool
    ensures { result ≡ is_line (line_of bytes.now number) line.now }
{
    match line_of(bytes, number) {
        Some(other) => other == line,
        None => false,
    }
}

/// How many lines stand in front of a script's moments.
fn heads_of(bytes: &[u8]) -> u32
    ensures { result ≡ heads_of bytes.now }
{
    if is_line(bytes, 1, b"tmig 2") { 5 } else { 4 }
}

/// Whether no line feed ends a line.
fn is_unended(bytes: &[u8], number: u32) -> bool
    ensures { result ≡ is_unended bytes.now number }
{
    line_at(bytes, number).is_none()
}

/// That a line stands there, and whether no line feed ends it.
fn closing_text(is_open: bool) -> &'static [u8]
    ensures { result.now ≡ closing_text is_open }
{
    if is_open {
        b"' stands there, with no line feed behind it\n"
    } else {
        b"' stands there\n"
    }
}

/// What stands on a line.
#[tactic(auto, using(std::proofs::lemmas::List::append_assoc))]
fn push_stands(text: &mut Vec<u8>, line: &[u8], is_open: bool) -> Result<(), NoMemory>
    ensures { OnOk result (text.new.items ≡ text.old.items ++ stands_text line.now is_open) }
{
    if line.is_empty() {
        push_bytes(text, b"nothing stands there\n")?;
        return Ok(());
    }
    push_bytes(text, b"'")?;
    push_line(text, line)?;
    push_bytes(text, closing_text(is_open))?;
    Ok(())
}

/// What is wanted on a line, and what stands there.
#[tactic(auto, using(std::proofs::lemmas::List::append_assoc), unfolding(crate::specs::Hints::hint_text))]
fn hint(
    alloc: Global,
    number: u32,
    wanted: &[u8],
    line: &[u8],
    is_open: bool,
) -> Result<Vec<u8>, NoMemory>
    ensures { IfOk result
        (λ text. text.items ≡ hint_text number wanted.now line.now is_open) }
{
    let mut text = Vec::new(alloc);
    push_bytes(&mut text, b"line ")?;
    push_number(&mut text, u64::from(number))?;
    push_bytes(&mut text, b": ")?;
    push_bytes(&mut text, wanted)?;
    push_bytes(&mut text, b" is wanted here, and ")?;
    push_stands(&mut text, line, is_open)?;
    Ok(text)
}

/// What is wanted, or nothing behind the last line.
fn or_nothing(number: u32, is_behind: bool, wanted: &'static [u8]) -> &'static [u8]
    ensures { result.now ≡ or_nothing number is_behind wanted.now }
{
    if number > 1 && is_behind {
        b"nothing more"
    } else {
        wanted
    }
}

/// What is told of a line of a script that is at fault, by its number from 1: what may stand there,
/// and the line itself, of which at most 60 bytes are printed. The only error is want of memory.
pub fn script_hint(alloc: Global, bytes: &[u8], number: u32) -> Result<Vec<u8>, NoMemory>
    ensures { IfOk result (λ text. text.items ≡ script_hint bytes.now number) }
{
    let line = bytes_of(bytes, number);
    let before = bytes_of(bytes, number.saturating_sub(1));
    let wanted = or_nothing(
        number,
        is_first_word(before, b"end"),
        script_form(heads_of(bytes), number, line),
    );
    hint(alloc, number, wanted, line, is_unended(bytes, number))
}

/// What is told of a line of a trace of steps that is at fault, by its number from 1, in the same
/// way. The only error is want of memory.
pub fn steps_hint(alloc: Global, bytes: &[u8], number: u32) -> Result<Vec<u8>, NoMemory>
    ensures { IfOk result (λ text. text.items ≡ steps_hint bytes.now number) }
{
    let line = bytes_of(bytes, number);
    let wanted = or_nothing(
        number,
        is_line(bytes, number.saturating_sub(1), b"end"),
        trace_form(number, line),
    );
    hint(alloc, number, wanted, line, is_unended(bytes, number))
}
