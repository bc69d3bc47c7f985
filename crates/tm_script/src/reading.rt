//! Reading a script from its text.

ghost use Rattle.std.specs.Prelude.{◌≡◌, IfOk, IfErr};
ghost use Rattle.text_words.specs.Words.{lines_of};
ghost use Rattle.tm_script.specs.Grammar.{Spells};
ghost use Rattle.tm_script.specs.Reader.{IsOnlyScriptOf, IsRefusalOf};
ghost use Rattle.tm_script.specs.Reading.{Gives, start, finished, read_from};

use crate::draft::Draft;
use crate::faults::{Kind, ReadScript, ScriptFault};
use crate::known::{Known, Place};
use crate::lines::read_line;
use crate::syntax::Script;
use std::alloc::Global;
use text_words::cut;

/// A fault of this kind in the line that comes next.
fn refused(known: &Known, kind: Kind) -> ReadScript
    ensures { result ≡ ReadScript.Refused (record { line = known.now.line; kind = kind }) }
{
    ReadScript::Refused(ScriptFault {
        line: known.line,
        kind,
    })
}

/// The script of a draft at the end of the input, by what stands behind the last line feed.
#[tactic(auto, unfolding(crate::specs::Reading::finished))]
fn finish(draft: Draft, rest: &[u8]) -> Result<Script, ReadScript>
    ensures { Gives result (finished draft rest.now) }
{
    if !rest.is_empty() {
        return Err(refused(&draft.known, Kind::BadLine));
    }
    if !matches!(draft.known.place, Place::Over) {
        return Err(refused(&draft.known, Kind::NoEnd));
    }
    Ok(draft.script())
}

/// What the function on lists reads.
fn read_lines(alloc: Global, bytes: &[u8]) -> Result<Script, ReadScript>
    ensures { Gives result (read_from (lines_of bytes.now) start) }
{
    let mut draft = Draft::new(alloc);
    let mut rest = bytes;
    while let Some((line, after)) = cut(rest, b'\n') {
        match read_line(&draft.known, line) {
            Ok(said) => draft.take(alloc, said)?,
            Err(kind) => return Err(refused(&draft.known, kind)),
        }
        rest = after;
    }
    finish(draft, rest)
}

/// The one script that these bytes spell, by the grammar of either version.
///
/// A refusal tells the first line at fault, from 1, and of the kinds that apply to it the first.
/// The bytes are read where they lie, line by line, in time linear in their number.
#[tactic(auto, using(crate::proofs::ScriptLaws::answers))]
pub fn read_script(alloc: Global, bytes: &[u8]) -> Result<Script, ReadScript>
    ensures spelled { IfOk result (Spells bytes.now) }
    ensures only { IfOk result (IsOnlyScriptOf bytes.now) }
    ensures refused { IfErr result (IsRefusalOf bytes.now) }
{
    read_lines(alloc, bytes)
}
