//! Reading a trace from its text.

ghost use Rattle.std.specs.Prelude.{◌≡◌, ◌≤◌, ◌∷◌, ◌++◌, [], IfErr, IfNone, IfOk, IfSome, OnOk};
ghost use Rattle.std.specs.Prelude.{length};
ghost use Rattle.text_words.specs.Words.{ended, lines_of};
ghost use Rattle.trace_text.specs.Texts.{SpellsTrace};
ghost use Rattle.trace_text.specs.Reading.{lines_from, trace_closing, trace_fault_at};
ghost use Rattle.trace_text.specs.Reading.{unended_trace};
ghost use Rattle.trace_text.specs.Faults.{machine_text};
ghost use Rattle.trace_text.specs.Reader.{IsOnlyTraceOf, IsTraceRefusalOf};
ghost use Rattle.trace_text.specs.Steps.{FailsAsScript, FailsBehind, Gives, IsReadBehind};
ghost use Rattle.trace_text.specs.Steps.{IsScriptOf, with_front};

use crate::answers::ReadTrace;
use crate::lines::read_line;
use crate::lists::TraceLines;
use crate::traces::Trace;
use crate::words::Limits;
use std::alloc::Global;
use text_words::{cut, push_bytes};
use tm_base::NoMemory;
use tm_script::{Kind, ReadScript, Script, ScriptFault, law_faults, read_script};

/// The number of the first line behind those of the machine.
const FIRST_LINE: u32 = 6;

/// A fault of this kind in this line.
fn refused(line: u32, kind: Kind) -> ReadTrace
    ensures { result ≡ ReadTrace.Refused (trace_fault_at line kind) }
{
    ReadTrace::Refused(ScriptFault { line, kind })
}

/// The fault of a line that no line feed ends.
fn unended(line: u32, rest: &[u8]) -> ReadTrace
    ensures { result ≡ ReadTrace.Refused (unended_trace line rest.now) }
{
    if rest.is_empty() {
        refused(line, Kind::NoEnd)
    } else {
        refused(line, Kind::BadLine)
    }
}

/// These lines, where nothing stands behind the end.
fn close(lines: TraceLines, line: u32, rest: &[u8]) -> Result<TraceLines, ReadTrace>
    ensures { Gives result (with_front lines (trace_closing line (lines_of rest.now))) }
{
    if rest.is_empty() {
        Ok(lines)
    } else {
        Err(refused(line, Kind::BadLine))
    }
}

/// The lines behind those of the machine.
fn read_lines(alloc: Global, limits: Limits, bytes: &[u8]) -> Result<TraceLines, ReadTrace>
    ensures { Gives result (lines_from limits FIRST_LINE (lines_of bytes.now)) }
{
    let mut lines = TraceLines::new(alloc);
    let mut line = FIRST_LINE;
    let mut rest = bytes;
    while let Some((words, after)) = cut(rest, b'\n') {
        match read_line(limits, line, words) {
            Ok(Some(said)) => lines.push(said)?,
            Ok(None) => return close(lines, line + 1, after),
            Err(kind) => return Err(refused(line, kind)),
        }
        line += 1;
        rest = after;
    }
    Err(unended(line, rest))
}

/// The lines of a machine, and what stands behind them.
#[derive(Clone, Copy)]
struct Head<'a> {
    nodes: &'a [u8],
    cpus: &'a [u8],
    timers: &'a [u8],
    isolated: &'a [u8],
    behind: &'a [u8],
}

/// The first four lines.
fn cut_head(bytes: &[u8]) -> Option<Head<'_>>
    ensures found { IfSome result (λ h. lines_of bytes.now ≡ h.nodes.now ∷ h.cpus.now
        ∷ h.timers.now ∷ h.isolated.now ∷ lines_of h.behind.now) }
    ensures few { IfNone result (length (lines_of bytes.now) ≤ 4) }
{
    let (nodes, rest) = cut(bytes, b'\n')?;
    let (cpus, rest) = cut(rest, b'\n')?;
    let (timers, rest) = cut(rest, b'\n')?;
    let (isolated, behind) = cut(rest, b'\n')?;
    Some(Head {
        nodes,
        cpus,
        timers,
        isolated,
        behind,
    })
}

#[tactic(auto, using(std::proofs::lemmas::List::append_assoc))]
fn push_line(text: &mut Vec<u8>, line: &[u8]) -> Result<(), NoMemory>
    ensures { OnOk result (text.new.items ≡ text.old.items ++ ended line.now) }
{
    push_bytes(text, line)?;
    push_bytes(text, b"\n")?;
    Ok(())
}

/// The script of version 2 that has these lines of its machine, and in which nothing happens.
#[tactic(auto, using(std::proofs::lemmas::List::append_assoc))]
fn machine_text(alloc: Global, head: &Head<'_>) -> Result<Vec<u8>, NoMemory>
    ensures { IfOk result (λ text. text.items ≡ machine_text (head.now.nodes.now
        ∷ head.now.cpus.now ∷ head.now.timers.now ∷ head.now.isolated.now ∷ [])) }
{
    let mut text = Vec::new(alloc);
    push_line(&mut text, b"tmig 2")?;
    push_line(&mut text, head.nodes)?;
    push_line(&mut text, head.cpus)?;
    push_line(&mut text, head.timers)?;
    push_line(&mut text, head.isolated)?;
    push_line(&mut text, b"end 0")?;
    Ok(text)
}

/// The script of a text.
fn read_as_script(alloc: Global, text: &[u8]) -> Result<Script, ReadTrace>
    ensures ok { IfOk result (IsScriptOf text.now) }
    ensures err { IfErr result (FailsAsScript text.now) }
{
    match read_script(alloc, text) {
        Ok(script) => Ok(script),
        Err(ReadScript::Refused(fault)) => Err(ReadTrace::Refused(fault)),
        Err(ReadScript::NoMemory) => Err(ReadTrace::NoMemory),
    }
}

/// The fault of a text that ends before there are four lines.
fn refuse_front(alloc: Global, bytes: &[u8]) -> Result<ReadTrace, NoMemory>
    requires { length (lines_of bytes.now) ≤ 4 }
    ensures { IfOk result (FailsBehind (lines_of bytes.now)) }
{
    let mut text = Vec::new(alloc);
    push_line(&mut text, b"tmig 2")?;
    push_bytes(&mut text, bytes)?;
    match read_as_script(alloc, &text) {
        Ok(_) => Ok(ReadTrace::NoMemory),
        Err(fault) => Ok(fault),
    }
}

/// The trace whose lines stand behind its first.
fn read_behind(alloc: Global, bytes: &[u8]) -> Result<Trace, ReadTrace>
    ensures ok { IfOk result (IsReadBehind (lines_of bytes.now)) }
    ensures err { IfErr result (FailsBehind (lines_of bytes.now)) }
{
    law_faults();
    let Some(head) = cut_head(bytes) else {
        return match refuse_front(alloc, bytes) {
            Ok(fault) => Err(fault),
            Err(_) => Err(ReadTrace::NoMemory),
        };
    };
    let text = machine_text(alloc, &head)?;
    let script = match read_as_script(alloc, &text) {
        Ok(script) => script,
        Err(fault) => return Err(fault),
    };
    let Script {
        version: _,
        nodes,
        cpus,
        timers,
        isolated,
        moments: _,
        end: _,
    } = script;
    let limits = Limits {
        cpus: u16::from(nodes) * u16::from(cpus),
        timers,
    };
    match read_lines(alloc, limits, head.behind) {
        Ok(lines) => Ok(Trace {
            nodes,
            cpus,
            timers,
            isolated,
            lines,
        }),
        Err(fault) => Err(fault),
    }
}

/// The one trace that these bytes spell.
///
/// A refusal tells the first line at fault, from 1, and of the kinds that apply to it the first.
/// The machine is read as that of a script of version 2, so its five lines are copied; the others
/// are read where they lie, line by line.
pub fn read_trace(alloc: Global, bytes: &[u8]) -> Result<Trace, ReadTrace>
    ensures spelled { IfOk result (SpellsTrace bytes.now) }
    ensures only { IfOk result (IsOnlyTraceOf bytes.now) }
    ensures refused { IfErr result (IsTraceRefusalOf bytes.now) }
{
    law_faults();
    let Some((first, behind)) = cut(bytes, b'\n') else {
        return Err(unended(1, bytes));
    };
    if first != b"trace 1".as_slice() {
        return Err(refused(1, Kind::BadLine));
    }
    match read_behind(alloc, behind) {
        Ok(trace) => Ok(trace),
        Err(fault) => Err(fault),
    }
}
