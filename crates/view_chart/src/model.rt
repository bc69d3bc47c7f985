//! The model of a chart: spans in which a CPU stays what it is, an arrow for each expiry, and a
//! note for each answer.

ghost use Rattle.std.specs.Prelude.{◌≡◌, ◌+◌, ◌≤◌, ◌^◌, ◌++◌, IfOk, OnOk};
ghost use Rattle.std.specs.Prelude.{◌&&◌};
ghost use Rattle.view_chart.specs.Model.{all_spans, arrow_by, arrows_from, point_behind};
ghost use Rattle.view_chart.specs.Model.{window_cpu_count};
ghost use Rattle.view_chart.specs.Model.{chart_first_point, course_by, ended_by, has_cpu};
ghost use Rattle.view_chart.specs.Model.{has_jiffy};
ghost use Rattle.view_chart.specs.Model.{last_point, new_state, next_at, next_point, note_by};
ghost use Rattle.view_chart.specs.Model.{notes_from, notes_where, place, spans_of_cpu, step_of};

use crate::said::{State, answer_in, change_in, run_in, time_of};
use std::alloc::Global;
use tm_base::{CpuId, Jiffy, NoMemory, TimerId};
use tm_report::{Line, ShownCover};

/// So many columns a rest of the machine has at most: a longer one is folded.
pub const LONG_REST: u64 = 12;

/// What of a report is drawn.
#[derive(Clone, Copy)]
pub struct Window {
    /// The jiffy at which the chart begins.
    pub from: Jiffy,
    /// The jiffy at which it ends.
    pub to: Jiffy,
    /// The first CPU.
    pub first: CpuId,
    /// The last CPU.
    pub last: CpuId,
}

/// A jiffy, and its column in the chart.
#[derive(Clone, Copy)]
pub struct Point {
    pub at: Jiffy,
    pub column: u64,
}

/// A CPU stays what it is from one point to another.
#[derive(Clone, Copy)]
pub struct Span {
    pub cpu: CpuId,
    pub state: State,
    pub from: Point,
    pub to: Point,
}

/// A timer that was run, at a point.
#[derive(Clone, Copy)]
pub struct Arrow {
    pub point: Point,
    pub home: CpuId,
    pub runner: CpuId,
    pub timer: TimerId,
}

/// Who answers for an idle CPU, at a point.
#[derive(Clone, Copy)]
pub struct Note {
    pub point: Point,
    /// The idle CPU.
    pub cpu: CpuId,
    /// The wheel expiry of its first global timer, in jiffies.
    pub wheel: Jiffy,
    pub cover: ShownCover,
}

/// How many columns a rest of so many jiffies has.
fn step_of(rest: u64) -> u64
    ensures step { result ≡ step_of rest }
    ensures low { result ≤ rest }
{
    if rest <= LONG_REST { rest } else { LONG_REST }
}

/// A jiffy within a window: one before it is at its begin, and one behind it at its end.
fn place(window: &Window, at: Jiffy) -> Jiffy
    ensures place { result ≡ place window.now at }
    ensures within { window.now.from ≤ window.now.to → result ≤ window.now.to }
{
    if at < window.from {
        return window.from;
    }
    if window.to < at {
        return window.to;
    }
    at
}

/// The jiffy of a line in the chart, which never goes back.
fn next_at(window: &Window, before: Jiffy, line: Line) -> Jiffy
    ensures at { result ≡ next_at window.now before line }
    ensures later { before ≤ result }
    ensures within { window.now.from ≤ window.now.to → before ≤ window.now.to
        → result ≤ window.now.to }
{
    let Some(at) = time_of(line) else {
        return before;
    };
    let at = place(window, at);
    if at < before { before } else { at }
}

/// The point of a jiffy that isn't before another point.
fn behind(before: Point, at: Jiffy) -> Point
    requires later { before.at ≤ at }
    requires low { before.column ≤ before.at }
    ensures point { result ≡ point_behind before at }
    ensures low { result.column ≤ result.at }
{
    Point {
        at,
        column: before.column + step_of(at - before.at),
    }
}

/// The point of a line, behind that of the line before it.
pub fn next_point(window: &Window, before: Point, line: Line) -> Point
    requires { before.column ≤ before.at }
    ensures point { result ≡ next_point window.now before line }
    ensures low { result.column ≤ result.at }
    ensures within { window.now.from ≤ window.now.to → before.at ≤ window.now.to
        → result.at ≤ window.now.to }
{
    behind(before, next_at(window, before.at, line))
}

/// The point at which a chart begins.
pub(crate) fn first_point(window: &Window) -> Point
    ensures point { result ≡ chart_first_point window.now }
    ensures low { result.column ≤ result.at }
{
    Point {
        at: window.from,
        column: 0,
    }
}

/// The point at which it ends, behind that of the last line.
pub(crate) fn last_point(window: &Window, before: Point) -> Point
    requires { before.column ≤ before.at }
    ensures point { result ≡ last_point window.now before }
    ensures low { before.at ≤ window.now.to → result.column ≤ window.now.to }
{
    if window.to < before.at {
        return before;
    }
    behind(before, window.to)
}

/// What a CPU becomes by a line, if the line is of this CPU.
pub(crate) fn new_state(cpu: CpuId, line: Line) -> Option<State>
    ensures { result ≡ new_state cpu.0 line }
{
    match change_in(line) {
        Some(change) => {
            if change.cpu.0 == cpu.0 {
                Some(change.state)
            } else {
                None
            }
        },
        None => None,
    }
}

/// What is known of a CPU behind some lines.
#[derive(Clone, Copy)]
pub struct Course {
    pub state: State,
    /// The point from which it is so.
    pub since: Point,
    /// The point of the last line.
    pub point: Point,
}

/// Goes over a line: a CPU that becomes something by it ends a span.
fn take_line(
    spans: &mut Vec<Span>,
    window: &Window,
    cpu: CpuId,
    course: Course,
    line: Line,
) -> Result<Course, NoMemory>
    requires { course.point.column ≤ course.point.at }
    ensures low { IfOk result (λ next. next.point.column ≤ next.point.at) }
    ensures spans { IfOk result (λ next. spans.new.items
        ≡ spans.old.items ++ ended_by window.now cpu.0 course line) }
    ensures course { IfOk result (λ next. next ≡ course_by window.now cpu.0 course line) }
{
    let point = next_point(window, course.point, line);
    match new_state(cpu, line) {
        Some(state) => {
            spans.push(Span {
                cpu,
                state: course.state,
                from: course.since,
                to: point,
            })?;
            Ok(Course {
                state,
                since: point,
                point,
            })
        },
        None => Ok(Course { point, ..course }),
    }
}

/// Adds the spans of a CPU, from the begin of the window to its end: it is awake at first, and each
/// line that says what it becomes ends one and begins another.
#[tactic(auto, unfolding(crate::specs::Model::spans_of_cpu))]
fn add_spans(
    spans: &mut Vec<Span>,
    window: &Window,
    cpu: CpuId,
    lines: &[Line],
) -> Result<(), NoMemory>
    ensures { OnOk result (spans.new.items
        ≡ spans.old.items ++ spans_of_cpu window.now cpu.0 lines.now) }
{
    let begin = first_point(window);
    let mut course = Course {
        state: State::Awake,
        since: begin,
        point: begin,
    };
    for line in lines {
        course = take_line(spans, window, cpu, course, *line)?;
    }
    spans.push(Span {
        cpu,
        state: course.state,
        from: course.since,
        to: last_point(window, course.point),
    })?;
    Ok(())
}

/// How many CPUs a window has.
pub(crate) fn count_of(window: &Window) -> u32
    ensures count { result ≡ window_cpu_count window.now }
    ensures last { window.now.first.0 + result ≤ 2 ^ 16 }
{
    if window.first.0 <= window.last.0 {
        u32::from(window.last.0 - window.first.0) + 1
    } else {
        0
    }
}

/// The spans of each CPU of a window, by their numbers.
pub fn spans_of(alloc: Global, window: &Window, lines: &[Line]) -> Result<Vec<Span>, NoMemory>
    ensures { IfOk result (λ spans. spans.items ≡ all_spans window.now lines.now) }
{
    let mut spans = Vec::new(alloc);
    for number in 0..count_of(window) {
        let cpu = CpuId((u32::from(window.first.0) + number) as u16);
        add_spans(&mut spans, window, cpu, lines)?;
    }
    Ok(spans)
}

/// Whether a window has this CPU.
fn has_cpu(window: &Window, cpu: CpuId) -> bool
    ensures { result ≡ has_cpu window.now cpu.0 }
{
    window.first.0 <= cpu.0 && cpu.0 <= window.last.0
}

/// Whether a window has this jiffy.
pub(crate) fn has_jiffy(window: &Window, at: Jiffy) -> bool
    ensures { result ≡ has_jiffy window.now at }
{
    window.from <= at && at <= window.to
}

/// The arrow of a line at a point, if the line says that a timer was run, in the window, on one of
/// its CPUs for one of them.
fn take_arrow(
    arrows: &mut Vec<Arrow>,
    window: &Window,
    point: Point,
    line: Line,
) -> Result<(), NoMemory>
    ensures { OnOk result
        (arrows.new.items ≡ arrows.old.items ++ arrow_by window.now point line) }
{
    let Some(run) = run_in(line) else {
        return Ok(());
    };
    if has_jiffy(window, run.at) && (has_cpu(window, run.home) && has_cpu(window, run.runner)) {
        arrows.push(Arrow {
            point,
            home: run.home,
            runner: run.runner,
            timer: run.timer,
        })?;
    }
    Ok(())
}

/// The arrows of a report's expiries, in the order of their lines.
pub fn arrows_of(alloc: Global, window: &Window, lines: &[Line]) -> Result<Vec<Arrow>, NoMemory>
    ensures { IfOk result
        (λ arrows. arrows.items ≡ arrows_from window.now (chart_first_point window.now) lines.now) }
{
    let mut arrows = Vec::new(alloc);
    let mut point = first_point(window);
    for line in lines {
        point = next_point(window, point, *line);
        take_arrow(&mut arrows, window, point, *line)?;
    }
    Ok(arrows)
}

/// The note of a line at a point, if the line tells who answers, in the window, for one of its
/// CPUs.
fn take_note(
    notes: &mut Vec<Note>,
    window: &Window,
    point: Point,
    line: Line,
) -> Result<(), NoMemory>
    ensures { OnOk result
        (notes.new.items ≡ notes.old.items ++ note_by window.now point line) }
{
    let Some(answer) = answer_in(line) else {
        return Ok(());
    };
    if has_jiffy(window, answer.at) && has_cpu(window, answer.cpu) {
        notes.push(Note {
            point,
            cpu: answer.cpu,
            wheel: answer.wheel,
            cover: answer.cover,
        })?;
    }
    Ok(())
}

/// The notes of a report's answers, in the order of their lines.
fn all_notes(alloc: Global, window: &Window, lines: &[Line]) -> Result<Vec<Note>, NoMemory>
    ensures { IfOk result
        (λ notes. notes.items ≡ notes_from window.now (chart_first_point window.now) lines.now) }
{
    let mut notes = Vec::new(alloc);
    let mut point = first_point(window);
    for line in lines {
        point = next_point(window, point, *line);
        take_note(&mut notes, window, point, *line)?;
    }
    Ok(notes)
}

/// The notes of a report's answers, in the order of their lines, if they are chosen.
pub fn notes_of(
    alloc: Global,
    window: &Window,
    covers: bool,
    lines: &[Line],
) -> Result<Vec<Note>, NoMemory>
    ensures { IfOk result (λ notes. notes.items ≡ notes_where window.now covers lines.now) }
{
    if covers {
        all_notes(alloc, window, lines)
    } else {
        Ok(Vec::new(alloc))
    }
}
