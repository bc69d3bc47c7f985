//! Reading a report from its text.

ghost use Rattle.std.specs.Prelude.{◌≡◌, ◌+◌, ◌<◌, ◌^◌, IfOk, IfErr};
ghost use Rattle.std.specs.Str.{bytes_eq};
ghost use Rattle.tm_report.specs.Lines.{words_text};
ghost use Rattle.report_reader.specs.Reader.{AreOnlyLinesOf, IsReportOf, IsReportRefusalOf};
ghost use Rattle.report_reader.specs.Reading.{ReadsLine};

use crate::candidates::line_of;
use crate::faults::{Kind, ReadReport, ReportFault};
use crate::names::name_of;
use crate::words::Words;
use std::alloc::Global;
use text_words::cut;
use tm_base::NoMemory;
use tm_report::{Line, Report};

/// Whether these are the words of a line; `draft` is room for its text.
fn has_words(draft: &mut Report, line: &Line, words: &[u8]) -> Result<bool, NoMemory>
    ensures { IfOk result (λ same. same ≡ bytes_eq words.now (words_text line.now)) }
{
    draft.truncate(0);
    draft.push(line)?;
    let text = draft.text();
    Ok(words == &text[..text.len() - 1])
}

/// The one line that has these words; `draft` is room for its text.
fn read_line(draft: &mut Report, words: &[u8]) -> Result<Result<Line, Kind>, NoMemory>
    ensures { IfOk result (ReadsLine words.now) }
{
    let mut left = Words::of(words);
    let Some(name) = name_of(left.word()) else {
        return Ok(Err(Kind::UnknownName));
    };
    let line = line_of(name, &mut left);
    if has_words(draft, &line, words)? {
        Ok(Ok(line))
    } else {
        Ok(Err(Kind::WrongWords))
    }
}

/// The lines whose texts these bytes are, one after the other: the inverse of the texts of lines.
///
/// A refusal tells the first line at fault, from 1, and what is wrong with it. The bytes are read
/// where they lie, line by line, in time linear in their number.
pub fn read_report(alloc: Global, bytes: &[u8]) -> Result<Vec<Line>, ReadReport>
    ensures lines { IfOk result (λ lines. IsReportOf bytes.now lines.items) }
    ensures only { IfOk result (λ lines. AreOnlyLinesOf bytes.now lines.items) }
    ensures refused { IfErr result (IsReportRefusalOf bytes.now) }
{
    let mut lines = Vec::new(alloc);
    let mut draft = Report::new(alloc);
    let mut rest = bytes;
    while let Some((words, after)) = cut(rest, b'\n') {
        match read_line(&mut draft, words)? {
            Ok(line) => lines.push(line)?,
            Err(kind) => return Err(refused(lines.len(), kind)),
        }
        rest = after;
    }
    if !rest.is_empty() {
        return Err(refused(lines.len(), Kind::NoLineFeed));
    }
    Ok(lines)
}

// A fault of this kind behind so many lines.
fn refused(before: usize, kind: Kind) -> ReadReport
    requires { before < 2 ^ 63 }
    ensures { result ≡ ReadReport.Refused (record { line = before + 1; kind = kind }) }
{
    ReadReport::Refused(ReportFault {
        line: before + 1,
        kind,
    })
}
