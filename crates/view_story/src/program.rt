//! The whole program.

ghost use Rattle.std.specs.Prelude.{◌≡◌, ◌≤◌, IfOk, length};
ghost use Rattle.view_story.specs.Ends.{IsEnd, IsJudged, IsOutputBy, IsReportJudged, IsStoryOutput};
ghost use Rattle.view_story.specs.Ends.{IsTold, Tells};
ghost use Rattle.view_story.specs.Ends.{order_of, status_of};

use crate::judge::{Verdict, judge_lines};
use crate::statuses::{
    FITS, MISFIT, MOST_STORY_BYTES, NO_MEMORY, NO_STORY, READ_FAULT, TOO_LONG, USAGE, WRITE_FAULT,
};
use crate::texts::{
    read_fault_text, report_refused, script_refused, too_long_text, usage_text, verdict_text,
};
use report_reader::{ReadReport, read_report};
use std::alloc::Global;
use text_words::{cut, push_bytes};
use tm_base::NoMemory;
use tm_io::{ReadFault, Sink, Source, WriteCause, read_all, write_all};
use tm_report::Line;
use tm_script::{ReadScript, Script, read_script};

/// A text, and the status where all of it is written.
#[derive(Drop)]
pub struct Output {
    pub text: Vec<u8>,
    pub status: u8,
}

/// An output of these bytes.
fn output_of(alloc: Global, bytes: &[u8], status: u8) -> Result<Output, NoMemory>
    ensures text { IfOk result (λ o. o.text.items ≡ bytes.now) }
    ensures status { IfOk result (λ o. o.status ≡ status) }
{
    let mut text = Vec::new(alloc);
    push_bytes(&mut text, bytes)?;
    Ok(Output { text, status })
}

/// Whether a line is the last of a script.
fn is_end(line: &[u8]) -> bool {
    match cut(line, b' ') {
        Some((word, _)) => word == b"end".as_slice(),
        None => false,
    }
}

/// How many bytes the script has: up to its line `end`, or all.
fn script_size(bytes: &[u8]) -> usize
    ensures { result ≤ length bytes.now }
{
    let mut rest = bytes;
    while let Some((line, after)) = cut(rest, b'\n') {
        rest = after;
        if is_end(line) {
            return bytes.len() - rest.len();
        }
    }
    bytes.len()
}

/// The status of a verdict.
fn status_of(verdict: Verdict) -> u8
    ensures { result ≡ status_of verdict }
{
    match verdict {
        Verdict::Fits { lines: _, runs: _ } => FITS,
        Verdict::Misfit { line: _, fault: _ } => MISFIT,
    }
}

/// What is written of the lines of a report.
fn tell(alloc: Global, script: &Script, lines: &[Line], play: bool) -> Result<Output, NoMemory>
    ensures { IfOk result (λ o. IsTold script.now play lines.now o.text.items o.status) }
{
    let verdict = judge_lines(alloc, script, lines, play)?;
    let text = verdict_text(alloc, verdict)?;
    let status = status_of(verdict);
    Ok(Output { text, status })
}

/// What is written of the bytes of a report.
fn judge_report(
    alloc: Global,
    script: &Script,
    bytes: &[u8],
    play: bool,
) -> Result<Output, NoMemory>
    ensures { IfOk result
        (λ o. IsReportJudged script.now play bytes.now o.text.items o.status) }
{
    match read_report(alloc, bytes) {
        Ok(lines) => tell(alloc, script, &lines, play),
        Err(ReadReport::Refused(fault)) => Ok(Output {
            text: report_refused(alloc, fault)?,
            status: NO_STORY,
        }),
        Err(ReadReport::NoMemory) => Err(NoMemory),
    }
}

/// What is written of the bytes of a script with a report behind it.
pub fn judge_bytes(alloc: Global, bytes: &[u8], play: bool) -> Result<Output, NoMemory>
    ensures { IfOk result (λ o. IsJudged play bytes.now o.text.items o.status) }
{
    let size = script_size(bytes);
    match read_script(alloc, &bytes[..size]) {
        Ok(script) => judge_report(alloc, &script, &bytes[size..], play),
        Err(ReadScript::Refused(fault)) => Ok(Output {
            text: script_refused(alloc, fault)?,
            status: NO_STORY,
        }),
        Err(ReadScript::NoMemory) => Err(NoMemory),
    }
}

/// The order of lines that the words name: none that of `run`, `play` that of `play`.
fn order_of(words: &[String]) -> Option<bool>
    ensures { result ≡ order_of words.now }
{
    match words {
        [] => Some(false),
        [word] => {
            if word.as_bytes() == b"play".as_slice() {
                Some(true)
            } else {
                None
            }
        }
        _ => None,
    }
}

/// What is written of the source, which is read to its end.
fn judge_source<S: Source>(alloc: Global, source: &mut S, play: bool) -> Result<Output, NoMemory>
    ensures { IfOk result
        (λ o. IsStoryOutput play (S.seen source.old) (S.seen source.new) o.text.items o.status) }
{
    match read_all(alloc, source, MOST_STORY_BYTES) {
        Ok(bytes) => judge_bytes(alloc, &bytes, play),
        Err(ReadFault::Read) => output_of(alloc, read_fault_text(), READ_FAULT),
        Err(ReadFault::TooLong) => output_of(alloc, too_long_text(), TOO_LONG),
        Err(ReadFault::NoMemory) => Err(NoMemory),
    }
}

/// What the words say is written.
fn output_for<S: Source>(
    alloc: Global,
    words: &[String],
    source: &mut S,
) -> Result<Output, NoMemory>
    ensures { IfOk result
        (λ o. IsOutputBy (order_of words.now) (S.seen source.old) (S.seen source.new)
        o.text.items o.status) }
{
    match order_of(words) {
        Some(play) => judge_source(alloc, source, play),
        None => output_of(alloc, usage_text(), USAGE),
    }
}

/// Writes an output, and answers the status that says how that went.
fn write_output<K: Sink>(sink: &mut K, output: &Output) -> u8
    ensures { IsEnd output.now.text.items output.now.status
        (K.seen sink.old) (K.seen sink.new) result }
{
    match write_all(sink, &output.text) {
        Ok(()) => output.status,
        Err(fault) => match fault.cause {
            WriteCause::NoMemory => NO_MEMORY,
            _ => WRITE_FAULT,
        },
    }
}

/// Does all that the program does: it reads a script and the report behind it, and writes whether
/// the report can be a story of the script, or the first line that can't stand where it does.
pub fn run_story<S: Source, K: Sink>(
    alloc: Global,
    words: &[String],
    source: &mut S,
    sink: &mut K,
) -> u8
    ensures { Tells words.now (S.seen source.old) (S.seen source.new)
        (K.seen sink.old) (K.seen sink.new) result }
{
    match output_for(alloc, words, source) {
        Ok(output) => write_output(sink, &output),
        Err(_) => NO_MEMORY,
    }
}
