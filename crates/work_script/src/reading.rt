//! Reading a script of works from its text.

ghost use Rattle.std.specs.Prelude.{◌≡◌, ◌<◌, ◌+◌, ◌-◌, ◌^◌, IfOk, IfErr};
ghost use Rattle.text_words.specs.Words.{lines_of};
ghost use Rattle.work_script.specs.Faults.{counted, known_first, said_in, with_count};
ghost use Rattle.work_script.specs.Grammar.{SpellsWorks};
ghost use Rattle.work_script.specs.Reader.{IsOnlyWorksOf, IsWorksRefusalOf};
ghost use Rattle.work_script.specs.Reading.{body_from, unended, work_closing, work_fault_at};
ghost use Rattle.work_script.specs.Steps.{Gives, with_draft};

use crate::draft::Draft;
use crate::lines::{read_count, read_line};
use crate::syntax::WorkScript;
use crate::words::WorkSaid;
use std::alloc::Global;
use text_words::cut;
use tm_base::Jiffy;
use tm_script::{Kind, ReadScript, ScriptFault};

/// A fault of this kind in this line.
fn refused(line: u32, kind: Kind) -> ReadScript
    ensures { result ≡ ReadScript.Refused (work_fault_at line kind) }
{
    ReadScript::Refused(ScriptFault { line, kind })
}

/// The fault of a line that no line feed ends.
fn unended(line: u32, rest: &[u8]) -> ReadScript
    ensures { result ≡ ReadScript.Refused (unended line rest.now) }
{
    if rest.is_empty() {
        refused(line, Kind::NoEnd)
    } else {
        refused(line, Kind::BadLine)
    }
}

/// The script of a draft, where nothing stands behind the line of the end.
fn close(alloc: Global, draft: Draft, end: Jiffy, rest: &[u8]) -> Result<WorkScript, ReadScript>
    requires { draft.known.line < 2 ^ 32 - 1 }
    ensures { Gives result
        (with_draft draft (work_closing (draft.known.line + 1) end (lines_of rest.now))) }
{
    if !rest.is_empty() {
        return Err(refused(draft.known.line + 1, Kind::BadLine));
    }
    match draft.script(alloc, end) {
        Ok(script) => Ok(script),
        Err(_) => Err(ReadScript::NoMemory),
    }
}

/// The moments and the end of so many works.
fn read_body(alloc: Global, count: u16, bytes: &[u8]) -> Result<WorkScript, ReadScript>
    ensures { Gives result
        (with_count count (body_from (lines_of bytes.now) (known_first count))) }
{
    let mut draft = Draft::new(alloc, count);
    let mut rest = bytes;
    while let Some((line, after)) = cut(rest, b'\n') {
        match read_line(&draft.known, line) {
            Ok(WorkSaid::Opening(at)) => draft.open(alloc, at)?,
            Ok(WorkSaid::Operation(op)) => draft.add(op)?,
            Ok(WorkSaid::Ending(end)) => return close(alloc, draft, end, after),
            Err(kind) => return Err(refused(draft.known.line, kind)),
        }
        rest = after;
    }
    Err(unended(draft.known.line, rest))
}

/// What stands behind the first line.
fn read_counted(alloc: Global, bytes: &[u8]) -> Result<WorkScript, ReadScript>
    ensures { Gives result (counted (lines_of bytes.now)) }
{
    let Some((line, behind)) = cut(bytes, b'\n') else {
        return Err(unended(2, bytes));
    };
    match read_count(line) {
        Ok(count) => read_body(alloc, count, behind),
        Err(kind) => Err(refused(2, kind)),
    }
}

/// What the definition on lists reads.
fn read_text(alloc: Global, bytes: &[u8]) -> Result<WorkScript, ReadScript>
    ensures { Gives result (said_in bytes.now) }
{
    let Some((first, behind)) = cut(bytes, b'\n') else {
        return Err(unended(1, bytes));
    };
    if first != b"works 1".as_slice() {
        return Err(refused(1, Kind::BadLine));
    }
    read_counted(alloc, behind)
}

/// The one script of works that these bytes spell.
///
/// A refusal tells the first line at fault, from 1, and of the kinds that apply to it the first.
/// The bytes are read where they lie, line by line, in time linear in their number.
#[tactic(auto, using(crate::proofs::ScriptLaws::answers))]
pub fn read_works(alloc: Global, bytes: &[u8]) -> Result<WorkScript, ReadScript>
    ensures spelled { IfOk result (SpellsWorks bytes.now) }
    ensures only { IfOk result (IsOnlyWorksOf bytes.now) }
    ensures refused { IfErr result (IsWorksRefusalOf bytes.now) }
{
    read_text(alloc, bytes)
}
