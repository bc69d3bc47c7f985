//! The jiffies that are written above a chart, and its folded rests.

ghost use Rattle.std.specs.Prelude.{◌≡◌, ◌≤◌, ◌∷◌, IfOk};
ghost use Rattle.view_chart.specs.Marks.{folds_from, is_folded, ticked, ticks_from};

use crate::model::{LONG_REST, Point, Window, next_point};
use std::alloc::Global;
use tm_base::NoMemory;
use tm_report::Line;

/// So many columns are at least between two jiffies that are written.
pub const TICK_REST: u64 = 6;

/// A folded rest.
#[derive(Clone, Copy)]
pub struct Fold {
    pub from: Point,
    pub to: Point,
}

/// Whether a jiffy is written at a point, where the last that was stands at a column.
fn is_ticked(last: u64, point: Point) -> bool
    ensures { result ≡ ticked last point }
{
    last <= point.column && point.column - last >= TICK_REST
}

/// The points at which the jiffy is written: the first, and then each that is far enough from the
/// one before.
pub(crate) fn ticks_of(
    alloc: Global,
    window: &Window,
    begin: Point,
    lines: &[Line],
) -> Result<Vec<Point>, NoMemory>
    requires { begin.column ≤ begin.at }
    ensures { IfOk result
        (λ ticks. ticks.items ≡ begin ∷ ticks_from window.now begin begin.column lines.now) }
{
    let mut ticks = Vec::new(alloc);
    ticks.push(begin)?;
    let mut point = begin;
    let mut last = begin.column;
    for line in lines {
        point = next_point(window, point, *line);
        if is_ticked(last, point) {
            ticks.push(point)?;
            last = point.column;
        }
    }
    Ok(ticks)
}

/// Whether the rest between two points is folded.
fn is_folded(from: Point, to: Point) -> bool
    ensures { result ≡ is_folded from to }
{
    from.at <= to.at && to.at - from.at > LONG_REST
}

/// The folded rests between lines, in order.
pub(crate) fn folds_of(
    alloc: Global,
    window: &Window,
    begin: Point,
    lines: &[Line],
) -> Result<Vec<Fold>, NoMemory>
    requires { begin.column ≤ begin.at }
    ensures { IfOk result (λ folds. folds.items ≡ folds_from window.now begin lines.now) }
{
    let mut folds = Vec::new(alloc);
    let mut point = begin;
    for line in lines {
        let from = point;
        point = next_point(window, from, *line);
        if is_folded(from, point) {
            folds.push(Fold { from, to: point })?;
        }
    }
    Ok(folds)
}
