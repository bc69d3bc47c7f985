//! Charts of reports.

ghost use Rattle.std.specs.Prelude.{◌≡◌, ◌≤◌, IfErr, IfOk, None, min, unwrap_or};
ghost use Rattle.tm_base.specs.declared.names.TheConstants.{TIME_LIMIT};
ghost use Rattle.view_chart.specs.Charts.{IsRefusal, back_from, chart_text, cpus_of, end_from};
ghost use Rattle.view_chart.specs.Charts.{is_back, last_cpu, last_jiffy, window_of};
ghost use Rattle.view_chart.specs.Model.{chart_first_point};
ghost use Rattle.view_chart.specs.Said.{line_jiffy};

use crate::drawing::{Chart, draw};
use crate::marks::{folds_of, ticks_of};
use crate::model::{Window, arrows_of, count_of, first_point, last_point, next_point, spans_of};
use crate::news::news_of;
use crate::said::{cpu_in, higher, time_of};
use std::alloc::Global;
use tm_base::{CpuId, Jiffy, NoMemory, TIME_LIMIT};
use tm_report::Line;

/// What is chosen of a report; what isn't chosen is drawn whole.
#[derive(Clone, Copy)]
pub struct Choice {
    /// The first jiffy: 0 where none is chosen.
    pub from: Option<Jiffy>,
    /// The last jiffy: that of the last line where none is chosen.
    pub to: Option<Jiffy>,
    /// The first and the last CPU: 0 and the highest that the lines name where none are chosen.
    pub cpus: Option<(CpuId, CpuId)>,
}

/// Why a report isn't drawn.
#[derive(Clone, Copy, Debug, PartialEq, Eq)]
pub enum NoChart {
    /// The line of this number, from 1, is of a jiffy before that of a line before it.
    BackInTime(usize),
    /// Want of memory.
    NoMemory,
}

/// A number, or another where there is none.
fn or(chosen: Option<Jiffy>, otherwise: Jiffy) -> Jiffy
    ensures { result ≡ unwrap_or chosen otherwise }
{
    chosen.unwrap_or(otherwise)
}

/// The lesser of two numbers.
fn lesser(a: u64, b: u64) -> u64
    ensures { result ≡ min a b }
{
    a.min(b)
}

/// The jiffy of the last line that has one, 0 where none has.
fn last_jiffy(lines: &[Line]) -> Jiffy
    ensures { result ≡ last_jiffy 0 lines.now }
{
    let mut last = 0;
    for line in lines {
        last = or(time_of(*line), last);
    }
    last
}

/// The highest CPU that a line names.
fn last_cpu(lines: &[Line]) -> u16
    ensures { result ≡ last_cpu 0 lines.now }
{
    let mut last = 0;
    for line in lines {
        last = higher(CpuId(last), CpuId(cpu_in(*line)));
    }
    last
}

/// The CPUs that are drawn.
fn cpus_of(choice: Choice, lines: &[Line]) -> (CpuId, CpuId)
    ensures { result ≡ cpus_of choice lines.now }
{
    match choice.cpus {
        Some(cpus) => cpus,
        None => (CpuId(0), CpuId(last_cpu(lines))),
    }
}

/// What of a report is drawn.
pub fn window_of(choice: Choice, lines: &[Line]) -> Window
    ensures window { result ≡ window_of choice lines.now }
    ensures order { result.from ≤ result.to }
    ensures in_time { result.to ≤ TIME_LIMIT }
{
    let to = lesser(or(choice.to, last_jiffy(lines)), TIME_LIMIT);
    let from = lesser(or(choice.from, 0), to);
    let (first, last) = cpus_of(choice, lines);
    Window {
        from,
        to,
        first,
        last,
    }
}

/// Whether a line is of a jiffy before another one.
fn is_back(before: Jiffy, line: Line) -> bool
    ensures { result ≡ is_back before (line_jiffy line) }
{
    match time_of(line) {
        Some(at) => at < before,
        None => false,
    }
}

/// The number, from 1, of the first line of a jiffy before that of a line before it.
fn back_at(lines: &[Line]) -> Option<usize>
    ensures number { result ≡ back_from 1 0 lines.now }
{
    let mut before = 0;
    for (index, line) in lines.iter().enumerate() {
        if is_back(before, *line) {
            return Some(index + 1);
        }
        before = or(time_of(*line), before);
    }
    None
}

/// The column at which a chart ends.
fn end_of(window: &Window, lines: &[Line]) -> u64
    requires order { window.now.from ≤ window.now.to }
    requires in_time { window.now.to ≤ TIME_LIMIT }
    ensures column { result
        ≡ (end_from window.now (chart_first_point window.now) lines.now).column }
    ensures in_time { result ≤ TIME_LIMIT }
{
    let mut point = first_point(window);
    for line in lines {
        point = next_point(window, point, *line);
    }
    last_point(window, point).column
}

/// The picture of a window of a report.
#[tactic(auto, unfolding(crate::specs::Charts::chart_text))]
fn draw_window(
    alloc: Global,
    window: &Window,
    covers: bool,
    lines: &[Line],
) -> Result<Vec<u8>, NoMemory>
    requires order { window.now.from ≤ window.now.to }
    requires in_time { window.now.to ≤ TIME_LIMIT }
    ensures { IfOk result (λ text. text.items ≡ chart_text window.now covers lines.now) }
{
    let begin = first_point(window);
    let chart = Chart {
        columns: end_of(window, lines),
        rows: count_of(window),
        spans: spans_of(alloc, window, lines)?,
        arrows: arrows_of(alloc, window, lines)?,
        covers,
        notes: news_of(alloc, window, covers, lines)?,
        ticks: ticks_of(alloc, window, begin, lines)?,
        folds: folds_of(alloc, window, begin, lines)?,
    };
    draw(alloc, window, &chart)
}

/// Draws a report as SVG: a row for each CPU, time from left to right with long rests folded, an
/// arrow for each expiry, and, if that is chosen, below the lines of sleeping CPUs who answers for
/// them. The lines of a report come in the order of their jiffies; others are refused. It costs a
/// walk over the lines for each CPU that is drawn.
pub fn chart(
    alloc: Global,
    choice: Choice,
    covers: bool,
    lines: &[Line],
) -> Result<Vec<u8>, NoChart>
    ensures text { IfOk result
        (λ text. text.items ≡ chart_text (window_of choice lines.now) covers lines.now) }
    ensures ascends { IfOk result (λ text. back_from 1 0 lines.now ≡ None) }
    ensures refused { IfErr result (IsRefusal lines.now) }
{
    if let Some(number) = back_at(lines) {
        return Err(NoChart::BackInTime(number));
    }
    let window = window_of(choice, lines);
    match draw_window(alloc, &window, covers, lines) {
        Ok(text) => Ok(text),
        Err(_) => Err(NoChart::NoMemory),
    }
}
