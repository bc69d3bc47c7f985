//! Charts of reports as text.

ghost use Rattle.std.specs.Prelude.{◌≡◌, ◌∷◌, ◌++◌, IfErr, IfOk, None, OnOk, unwrap_or};
ghost use Rattle.view_chart.specs.Charts.{IsRefusal, back_from, is_back, window_of};
ghost use Rattle.view_chart.specs.Model.{chart_first_point, points_from};
ghost use Rattle.view_chart.specs.Said.{line_jiffy};
ghost use Rattle.view_text.specs.Texts.{head_text, window_text};

use crate::lists::{push_notes, push_runs};
use crate::pages::push_pages;
use crate::pieces::{push_after, push_words};
use std::alloc::Global;
use tm_base::{Jiffy, NoMemory};
use tm_report::Line;
use view_chart::{
    Choice, NoChart, Point, Window, arrows_of, next_point, notes_of, spans_of, time_of, window_of,
};

/// Whether a line is of a jiffy before another one.
fn is_back(before: Jiffy, line: Line) -> bool
    ensures { result ≡ is_back before (line_jiffy line) }
{
    match time_of(line) {
        Some(at) => at < before,
        None => false,
    }
}

/// The jiffy of a line, or that of a line before it.
fn time_behind(before: Jiffy, line: Line) -> Jiffy
    ensures { result ≡ unwrap_or (line_jiffy line) before }
{
    time_of(line).unwrap_or(before)
}

/// The number, from 1, of the first line of a jiffy before that of a line before it.
fn back_at(lines: &[Line]) -> Option<usize>
    ensures number { result ≡ back_from 1 0 lines.now }
{
    let mut before = 0;
    for (index, line) in lines.iter().enumerate() {
        if is_back(before, *line) {
            return Some(index + 1);
        }
        before = time_behind(before, *line);
    }
    None
}

/// The points of lines, and the one at which a window begins.
fn points_of(alloc: Global, window: &Window, lines: &[Line]) -> Result<Vec<Point>, NoMemory>
    ensures { IfOk result (λ points. points.items
        ≡ chart_first_point window.now
        ∷ points_from window.now (chart_first_point window.now) lines.now) }
{
    let mut points = Vec::new(alloc);
    let mut point = Point {
        at: window.from,
        column: 0,
    };
    points.push(point)?;
    for line in lines {
        point = next_point(window, point, *line);
        points.push(point)?;
    }
    Ok(points)
}

/// The first line.
#[tactic(auto, using(crate::proofs::Steps::onto), unfolding(crate::specs::Texts::head_text))]
fn push_head(text: &mut Vec<u8>, window: &Window) -> Result<(), NoMemory>
    ensures { OnOk result (text.new.items ≡ text.old.items ++ head_text window.now) }
{
    push_after(text, b"jiffies ", window.from)?;
    push_after(text, b" to ", window.to)?;
    push_words(text, b"; # awake, - asleep, . offline\n")?;
    Ok(())
}

/// The text of a window of a report.
#[tactic(auto, using(crate::proofs::Steps::onto), unfolding(crate::specs::Texts::window_text))]
fn draw_window(
    alloc: Global,
    window: &Window,
    covers: bool,
    lines: &[Line],
) -> Result<Vec<u8>, NoMemory>
    ensures { IfOk result (λ text. text.items ≡ window_text window.now covers lines.now) }
{
    let spans = spans_of(alloc, window, lines)?;
    let arrows = arrows_of(alloc, window, lines)?;
    let notes = notes_of(alloc, window, covers, lines)?;
    let points = points_of(alloc, window, lines)?;
    let mut text = Vec::new(alloc);
    push_head(&mut text, window)?;
    push_pages(alloc, &mut text, &points, &spans)?;
    push_runs(&mut text, &arrows)?;
    push_notes(&mut text, &notes)?;
    Ok(text)
}

/// Draws a report as text, for a terminal of 100 columns: the spans and expiries that
/// `view_chart::chart` draws, and, if that is chosen, who answers for idle CPUs. The lines of a
/// report come in the order of their jiffies; others are refused. It costs a walk over the lines
/// for each CPU, and one over the CPUs' spans for each 90 columns.
pub fn text_chart(
    alloc: Global,
    choice: Choice,
    covers: bool,
    lines: &[Line],
) -> Result<Vec<u8>, NoChart>
    ensures text { IfOk result
        (λ text. text.items ≡ window_text (window_of choice lines.now) covers lines.now) }
    ensures ascends { IfOk result (λ text. back_from 1 0 lines.now ≡ None) }
    ensures refused { IfErr result (IsRefusal lines.now) }
{
    if let Some(number) = back_at(lines) {
        return Err(NoChart::BackInTime(number));
    }
    let window = window_of(choice, lines);
    match draw_window(alloc, &window, covers, lines) {
        Ok(text) => Ok(text),
        Err(_) => Err(NoChart::NoMemory),
    }
}
