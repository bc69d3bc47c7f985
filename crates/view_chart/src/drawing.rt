//! The picture of a chart, as SVG: bars for spans, arrows for expiries, and notes of who answers.
//! One unit is a column of the chart; a row has three.

ghost use Rattle.std.specs.Prelude.{◌≡◌, ◌++◌, ◌+◌, ◌*◌, ◌≤◌, ◌^◌, IfOk, OnOk, max};
ghost use Rattle.std.specs.List.{flat_map};
ghost use Rattle.view_chart.specs.Drawing.{arrow_text, arrow_way, bar_text, fold_text};
ghost use Rattle.view_chart.specs.Drawing.{arrow_title, bar_line, labels_below, row_label, row_of};
ghost use Rattle.view_chart.specs.Drawing.{legend_of_notes, legend_text, span_text, state_text};
ghost use Rattle.view_chart.specs.Drawing.{tick_text, way_across, way_in};
ghost use Rattle.view_chart.specs.Pictures.{body_text, picture_text};

use crate::heading::{push_size, push_title};
use crate::marks::Fold;
use crate::model::{Arrow, Note, Point, Span, Window};
use crate::notes::push_notes;
use crate::pieces::{push_after, push_three, push_time, push_two, push_words};
use crate::said::State;
use std::alloc::Global;
use tm_base::{CpuId, NoMemory};

/// How many units a row has.
pub const ROW: u64 = 3;

/// Where the row of a CPU is, in units from the top.
pub(crate) fn row_of(window: &Window, cpu: CpuId) -> u64
    ensures { result ≡ row_of window.now cpu.0 }
{
    if cpu.0 < window.first.0 {
        return 0;
    }
    ROW * u64::from(cpu.0 - window.first.0)
}

/// How the bar of a state is drawn.
fn bar_text(state: State) -> &'static [u8]
    ensures { result.now ≡ bar_text state }
{
    match state {
        State::Awake => b"<path class=\"a\" d=\"M",
        State::Asleep { .. } => b"<path class=\"s\" d=\"M",
        State::Offline => b"<path class=\"o\" d=\"M",
    }
}

/// What a CPU is, in words.
fn push_state(text: &mut Vec<u8>, state: State) -> Result<(), NoMemory>
    ensures { OnOk result (text.new.items ≡ text.old.items ++ state_text state) }
{
    match state {
        State::Awake => push_words(text, b" awake"),
        State::Asleep { until } => push_time(text, b" asleep, its wakeup", until),
        State::Offline => push_words(text, b" offline"),
    }
}

/// A span that has at least a column: a bar, and its title.
#[tactic(auto, using(crate::proofs::Joined::onto), unfolding(crate::specs::Drawing::bar_line))]
fn push_bar(text: &mut Vec<u8>, window: &Window, span: Span) -> Result<(), NoMemory>
    ensures { OnOk result (text.new.items ≡ text.old.items ++ bar_line window.now span) }
{
    push_words(text, bar_text(span.state))?;
    push_three(
        text,
        b"",
        span.from.column,
        b" ",
        row_of(window, span.cpu),
        b"H",
        span.to.column,
    )?;
    push_two(
        text,
        b"\"><title>jiffies ",
        span.from.at,
        b" to ",
        span.to.at,
    )?;
    push_after(text, b": CPU ", u64::from(span.cpu.0))?;
    push_state(text, span.state)?;
    push_words(text, b"</title></path>\n")?;
    Ok(())
}

/// A span. One that has no column is not drawn.
#[tactic(auto, unfolding(crate::specs::Drawing::span_text))]
fn push_span(text: &mut Vec<u8>, window: &Window, span: Span) -> Result<(), NoMemory>
    ensures { OnOk result (text.new.items ≡ text.old.items ++ span_text window.now span) }
{
    if span.from.column < span.to.column {
        return push_bar(text, window, span);
    }
    Ok(())
}

/// The way of an arrow whose home and runner are one: into their row from above.
#[tactic(auto, using(crate::proofs::Joined::onto))]
fn push_way_in(text: &mut Vec<u8>, window: &Window, arrow: Arrow) -> Result<(), NoMemory>
    ensures { OnOk result (text.new.items ≡ text.old.items ++ way_in window.now arrow) }
{
    push_two(
        text,
        b"<path class=\"w\" d=\"M",
        arrow.point.column,
        b" ",
        row_of(window, arrow.home),
    )?;
    push_words(text, b"m0-1.3v.8")
}

/// The way of one that has a dot at its tail: from the row of its home to that of its runner.
#[tactic(auto, using(crate::proofs::Joined::onto))]
fn push_way_across(text: &mut Vec<u8>, window: &Window, arrow: Arrow) -> Result<(), NoMemory>
    ensures { OnOk result (text.new.items ≡ text.old.items ++ way_across window.now arrow) }
{
    push_two(
        text,
        b"<path class=\"r\" d=\"M",
        arrow.point.column,
        b" ",
        row_of(window, arrow.home),
    )?;
    push_after(text, b"V", row_of(window, arrow.runner))
}

/// The way of an arrow.
#[tactic(auto, unfolding(crate::specs::Drawing::arrow_way))]
fn push_way(text: &mut Vec<u8>, window: &Window, arrow: Arrow) -> Result<(), NoMemory>
    ensures { OnOk result (text.new.items ≡ text.old.items ++ arrow_way window.now arrow) }
{
    if arrow.home.0 == arrow.runner.0 {
        return push_way_in(text, window, arrow);
    }
    push_way_across(text, window, arrow)
}

/// The title of an arrow.
#[tactic(auto, using(crate::proofs::Joined::onto), unfolding(crate::specs::Drawing::arrow_title))]
fn push_run(text: &mut Vec<u8>, arrow: Arrow) -> Result<(), NoMemory>
    ensures { OnOk result (text.new.items ≡ text.old.items ++ arrow_title arrow) }
{
    push_two(
        text,
        b"\"><title>jiffy ",
        arrow.point.at,
        b": CPU ",
        u64::from(arrow.runner.0),
    )?;
    push_two(
        text,
        b" runs timer ",
        u64::from(arrow.timer.0),
        b" of CPU ",
        u64::from(arrow.home.0),
    )?;
    Ok(())
}

/// The arrow of an expiry, and its title.
#[tactic(auto, using(crate::proofs::Joined::onto), unfolding(crate::specs::Drawing::arrow_text))]
fn push_arrow(text: &mut Vec<u8>, window: &Window, arrow: Arrow) -> Result<(), NoMemory>
    ensures { OnOk result (text.new.items ≡ text.old.items ++ arrow_text window.now arrow) }
{
    push_way(text, window, arrow)?;
    push_run(text, arrow)?;
    push_words(text, b"</title></path>\n")?;
    Ok(())
}

/// A jiffy above the chart.
#[tactic(auto, using(crate::proofs::Joined::onto), unfolding(crate::specs::Drawing::tick_text))]
fn push_tick(text: &mut Vec<u8>, point: Point) -> Result<(), NoMemory>
    ensures { OnOk result (text.new.items ≡ text.old.items ++ tick_text point) }
{
    push_two(text, b"<text x=\"", point.column, b"\" y=\"-2\">", point.at)?;
    push_words(text, b"</text>\n")?;
    Ok(())
}

/// A folded rest, which ends at a column.
#[tactic(auto, using(crate::proofs::Joined::onto), unfolding(crate::specs::Drawing::fold_text))]
fn push_fold(text: &mut Vec<u8>, fold: Fold) -> Result<(), NoMemory>
    ensures { OnOk result (text.new.items ≡ text.old.items ++ fold_text fold) }
{
    push_three(
        text,
        b"<text class=\"f\" x=\"",
        fold.to.column,
        b"\" y=\"-1.2\" dx=\"-6\">~<title>folded: jiffies ",
        fold.from.at,
        b" to ",
        fold.to.at,
    )?;
    push_words(text, b"</title></text>\n")?;
    Ok(())
}

/// The label of a row, so many units from the top.
#[tactic(auto, using(crate::proofs::Joined::onto), unfolding(crate::specs::Drawing::row_label))]
fn push_label(text: &mut Vec<u8>, top: u64, cpu: u64) -> Result<(), NoMemory>
    ensures { OnOk result (text.new.items ≡ text.old.items ++ row_label top cpu) }
{
    push_two(
        text,
        b"<text class=\"c\" x=\"-1\" y=\"",
        top,
        b"\" dy=\".4\">CPU ",
        cpu,
    )?;
    push_words(text, b"</text>\n")?;
    Ok(())
}

/// How many units so many rows have.
fn height_of(rows: u32) -> u64
    ensures { result ≡ ROW * rows }
{
    ROW * u64::from(rows)
}

/// The number of the CPU of a row.
fn cpu_at(window: &Window, row: u32) -> u64
    ensures { result ≡ window.now.first.0 + row }
{
    u64::from(window.first.0) + u64::from(row)
}

/// The labels of all rows.
fn push_labels(text: &mut Vec<u8>, window: &Window, rows: u32) -> Result<(), NoMemory>
    ensures { OnOk result
        (text.new.items ≡ text.old.items ++ labels_below window.now rows) }
{
    for row in 0..rows {
        push_label(text, height_of(row), cpu_at(window, row))?;
    }
    Ok(())
}

fn push_spans(text: &mut Vec<u8>, window: &Window, spans: &[Span]) -> Result<(), NoMemory>
    ensures { OnOk result
        (text.new.items ≡ text.old.items ++ flat_map (span_text window.now) spans.now) }
{
    for span in spans {
        push_span(text, window, *span)?;
    }
    Ok(())
}

fn push_arrows(text: &mut Vec<u8>, window: &Window, arrows: &[Arrow]) -> Result<(), NoMemory>
    ensures { OnOk result
        (text.new.items ≡ text.old.items ++ flat_map (arrow_text window.now) arrows.now) }
{
    for arrow in arrows {
        push_arrow(text, window, *arrow)?;
    }
    Ok(())
}

fn push_ticks(text: &mut Vec<u8>, ticks: &[Point]) -> Result<(), NoMemory>
    ensures { OnOk result (text.new.items ≡ text.old.items ++ flat_map tick_text ticks.now) }
{
    for tick in ticks {
        push_tick(text, *tick)?;
    }
    Ok(())
}

fn push_folds(text: &mut Vec<u8>, folds: &[Fold]) -> Result<(), NoMemory>
    ensures { OnOk result (text.new.items ≡ text.old.items ++ flat_map fold_text folds.now) }
{
    for fold in folds {
        push_fold(text, *fold)?;
    }
    Ok(())
}

/// How many units the legend is wide.
pub const LEGEND: u64 = 65;

/// The width of a picture of so many columns, with its margins; it has room for the legend.
fn width_of(columns: u64) -> u64
    requires { columns ≤ 2 ^ 48 }
    ensures { result ≡ max columns LEGEND + 14 }
{
    columns.max(LEGEND) + 14
}

/// The height of a picture of so many rows, with its margins.
fn full_height(rows: u32) -> u64
    ensures { result ≡ ROW * rows + 9 }
{
    height_of(rows) + 9
}

/// What notes are, if there are some.
fn legend_of_notes(covers: bool) -> &'static [u8]
    ensures { result.now ≡ legend_of_notes covers }
{
    if covers {
        return b"<text y=\"2.5\">a number below a line: the CPU that answers for the sleeper</text>";
    }
    b""
}

/// What the marks mean, so many units from the top.
#[tactic(auto, using(crate::proofs::Joined::onto), unfolding(crate::specs::Drawing::legend_text))]
fn push_legend(text: &mut Vec<u8>, top: u64, covers: bool) -> Result<(), NoMemory>
    ensures { OnOk result (text.new.items ≡ text.old.items ++ legend_text top covers) }
{
    push_after(text, b"<g transform=\"translate(0 ", top)?;
    push_words(
        text,
        b")\"><path class=\"a\" d=\"M0 0h3\"/><text x=\"4\" y=\".5\">awake</text>\
          <path class=\"s\" d=\"M10 0h3\"/><text x=\"14\" y=\".5\">asleep</text>\
          <path class=\"o\" d=\"M20 0h3\"/><text x=\"24\" y=\".5\">offline</text>\
          <path class=\"r\" d=\"M31-.8V.8\"/><text x=\"32\" y=\".5\">from a timer's home \
          (dot) to the CPU that ran it</text>",
    )?;
    push_words(text, legend_of_notes(covers))?;
    push_words(text, b"</g>\n")?;
    Ok(())
}

/// Bars, arrows, and notes, if these are chosen.
#[tactic(auto, using(crate::proofs::Joined::onto), unfolding(crate::specs::Pictures::body_text))]
fn push_body(
    text: &mut Vec<u8>,
    window: &Window,
    spans: &[Span],
    arrows: &[Arrow],
    covers: bool,
    notes: &[Note],
) -> Result<(), NoMemory>
    ensures { OnOk result (text.new.items ≡ text.old.items
        ++ body_text window.now spans.now arrows.now covers notes.now) }
{
    push_spans(text, window, spans)?;
    push_arrows(text, window, arrows)?;
    push_notes(text, window, covers, notes)?;
    Ok(())
}

/// The parts of a chart.
#[derive(Drop)]
pub(crate) struct Chart {
    /// So many columns the chart has.
    pub columns: u64,
    /// So many rows.
    pub rows: u32,
    pub spans: Vec<Span>,
    pub arrows: Vec<Arrow>,
    /// Whether it says who answers.
    pub covers: bool,
    pub notes: Vec<Note>,
    pub ticks: Vec<Point>,
    pub folds: Vec<Fold>,
}

/// The picture of a chart.
#[tactic(auto, using(crate::proofs::Joined::onto), unfolding(crate::specs::Pictures::picture_text))]
pub(crate) fn draw(alloc: Global, window: &Window, chart: &Chart) -> Result<Vec<u8>, NoMemory>
    requires { chart.now.columns ≤ 2 ^ 48 }
    ensures { IfOk result (λ text. text.items
        ≡ picture_text window.now chart.now.columns chart.now.rows chart.now.ticks.items
        chart.now.folds.items chart.now.spans.items chart.now.arrows.items chart.now.covers
        chart.now.notes.items) }
{
    let mut text = Vec::new(alloc);
    push_size(&mut text, width_of(chart.columns), full_height(chart.rows))?;
    push_title(&mut text, window, chart.covers)?;
    push_labels(&mut text, window, chart.rows)?;
    push_ticks(&mut text, &chart.ticks)?;
    push_folds(&mut text, &chart.folds)?;
    push_legend(&mut text, height_of(chart.rows), chart.covers)?;
    push_body(
        &mut text,
        window,
        &chart.spans,
        &chart.arrows,
        chart.covers,
        &chart.notes,
    )?;
    push_words(&mut text, b"</svg>\n")?;
    Ok(text)
}
