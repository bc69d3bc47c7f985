//! A chart in pages: a row for each CPU, and a character for each column.

ghost use Rattle.std.specs.Prelude.{◌≡◌, ℕ, ◌+◌, ◌-◌, ◌*◌, ◌^◌, ◌<◌, ◌≤◌, ◌∷◌, ◌++◌, IfOk, OnOk};
ghost use Rattle.std.specs.Prelude.{List, None, codes, length, replicate, true};
ghost use Rattle.std.specs.Fmt.{decimal};
ghost use Rattle.view_text.specs.Pages.{end_of, front_of, has_room, label_text, padded};
ghost use Rattle.view_text.specs.Pages.{page_count, page_text, pages_below, rows_from};
ghost use Rattle.view_text.specs.Pages.{ruler_from, sign_of, signs_of, within};
ghost use Rattle.view_chart.specs.declared.model.Point.{Point};

use crate::pieces::{push_after, push_signs, push_words};
use std::alloc::Global;
use text_words::push_number;
use tm_base::{CpuId, NoMemory};
use view_chart::{Point, Span, State};

/// So many columns of a chart a page has.
pub const WIDTH: u64 = 90;

/// So many characters the label of a row has.
pub const LABEL: u64 = 10;

/// A CPU is awake.
pub const AWAKE: u8 = b'#';

/// It is asleep.
pub const ASLEEP: u8 = b'-';

/// It is offline.
pub const OFFLINE: u8 = b'.';

/// Nothing stands there.
pub const SPACE: u8 = b' ';

/// The character of a state.
fn sign_of(state: State) -> u8
    ensures { result ≡ sign_of state }
{
    match state {
        State::Awake => AWAKE,
        State::Asleep { until: _ } => ASLEEP,
        State::Offline => OFFLINE,
    }
}

/// How far a column is behind the begin of a page, at most as far as a page goes.
fn within(begin: u64, column: u64) -> u64
    ensures { result ≡ within begin column }
{
    column.saturating_sub(begin).min(WIDTH)
}

/// A span in a page.
fn push_span(text: &mut Vec<u8>, begin: u64, span: Span) -> Result<(), NoMemory>
    ensures { OnOk result (text.new.items ≡ text.old.items ++ signs_of begin span) }
{
    let to = within(begin, span.to.column);
    let from = within(begin, span.from.column);
    push_signs(text, to.saturating_sub(from), sign_of(span.state))
}

/// A number of characters.
fn count_of(text: &[u8]) -> u64
    ensures { result ≡ length text.now }
{
    text.len() as u64
}

/// A text, and spaces behind it up to a width.
#[tactic(auto, using(crate::proofs::Steps::onto))]
fn push_padded(text: &mut Vec<u8>, words: &[u8], width: u64) -> Result<(), NoMemory>
    ensures { OnOk result (text.new.items ≡ text.old.items ++ padded width words.now) }
{
    push_words(text, words)?;
    push_signs(text, width.saturating_sub(count_of(words)), SPACE)?;
    Ok(())
}

/// The label of a row.
fn push_label(alloc: Global, text: &mut Vec<u8>, cpu: CpuId) -> Result<(), NoMemory>
    ensures { OnOk result (text.new.items ≡ text.old.items ++ label_text cpu.0) }
{
    let mut label = Vec::new(alloc);
    push_after(&mut label, b"CPU ", u64::from(cpu.0))?;
    push_padded(text, &label, LABEL)?;
    Ok(())
}

/// What stands in front of a span, behind one of this CPU, or of none.
#[tactic(auto, using(crate::proofs::Steps::onto))]
fn push_front(
    alloc: Global,
    text: &mut Vec<u8>,
    before: Option<u16>,
    cpu: CpuId,
) -> Result<(), NoMemory>
    ensures { OnOk result (text.new.items ≡ text.old.items ++ front_of before cpu.0) }
{
    let Some(other) = before else {
        return push_label(alloc, text, cpu);
    };
    if other == cpu.0 {
        return Ok(());
    }
    push_words(text, b"\n")?;
    push_label(alloc, text, cpu)?;
    Ok(())
}

/// A span, and what stands in front of it.
#[tactic(auto, using(crate::proofs::Steps::onto))]
fn push_next(
    alloc: Global,
    text: &mut Vec<u8>,
    begin: u64,
    before: Option<u16>,
    span: Span,
) -> Result<(), NoMemory>
    ensures { OnOk result (text.new.items
        ≡ text.old.items ++ (front_of before span.cpu.0 ++ signs_of begin span)) }
{
    push_front(alloc, text, before, span.cpu)?;
    push_span(text, begin, span)?;
    Ok(())
}

/// The rows of a page.
fn push_rows(alloc: Global, text: &mut Vec<u8>, begin: u64, spans: &[Span]) -> Result<(), NoMemory>
    ensures { OnOk result (text.new.items ≡ text.old.items ++ rows_from begin None spans.now) }
{
    let mut before = None;
    for span in spans {
        push_next(alloc, text, begin, before, *span)?;
        before = Some(span.cpu.0);
    }
    push_words(text, b"\n")?;
    Ok(())
}

/// Whether a text has room in a page from a column on, and a space behind it.
fn has_room(begin: u64, at: u64, column: u64, count: u64) -> bool
    ensures room { result ≡ has_room begin at column count }
    ensures few { result ≡ true → count ≤ WIDTH }
    ensures near { result ≡ true → column - begin ≤ WIDTH }
    ensures behind { result ≡ true → begin ≤ column }
    ensures clear { result ≡ true → at ≤ column - begin }
{
    if column < begin {
        return false;
    }
    let place = column - begin;
    at <= place && (place <= WIDTH && count < WIDTH - place)
}

/// The characters of a number.
fn number_text(alloc: Global, n: u64) -> Result<Vec<u8>, NoMemory>
    ensures { IfOk result (λ text. text.items ≡ decimal n) }
{
    let mut text = Vec::new(alloc);
    push_number(&mut text, n)?;
    Ok(text)
}

/// A jiffy behind so many spaces, and one space behind it.
#[tactic(auto, using(crate::proofs::Steps::onto))]
fn push_mark(text: &mut Vec<u8>, spaces: u64, number: &[u8]) -> Result<(), NoMemory>
    ensures { OnOk result (text.new.items ≡ text.old.items
        ++ (replicate spaces SPACE ++ (number.now ++ codes " "))) }
{
    push_signs(text, spaces, SPACE)?;
    push_words(text, number)?;
    push_words(text, b" ")?;
    Ok(())
}

/// The jiffy of a point above a page, where it has room; how many characters stand there then.
fn push_tick(
    alloc: Global,
    text: &mut Vec<u8>,
    begin: u64,
    at: u64,
    point: Point,
) -> Result<u64, NoMemory>
    ensures { IfOk result (λ next. (rest : List Point) →
        text.new.items ++ ruler_from begin next rest
        ≡ text.old.items ++ ruler_from begin at (point ∷ rest)) }
{
    if !has_room(begin, at, point.column, 0) {
        return Ok(at);
    }
    let number = number_text(alloc, point.at)?;
    let count = count_of(&number);
    if !has_room(begin, at, point.column, count) {
        return Ok(at);
    }
    let place = point.column - begin;
    push_mark(text, place - at, &number)?;
    Ok(place + count + 1)
}

/// The jiffies above a page.
fn push_ruler(
    alloc: Global,
    text: &mut Vec<u8>,
    begin: u64,
    points: &[Point],
) -> Result<(), NoMemory>
    ensures { OnOk result (text.new.items ≡ text.old.items ++ ruler_from begin 0 points.now) }
{
    let mut at = 0;
    for point in points {
        at = push_tick(alloc, text, begin, at, *point)?;
    }
    push_words(text, b"\n")?;
    Ok(())
}

/// A page.
#[tactic(auto, using(crate::proofs::Steps::onto), unfolding(crate::specs::Pages::page_text))]
fn push_page(
    alloc: Global,
    text: &mut Vec<u8>,
    begin: u64,
    points: &[Point],
    spans: &[Span],
) -> Result<(), NoMemory>
    ensures { OnOk result (text.new.items
        ≡ text.old.items ++ page_text begin points.now spans.now) }
{
    push_signs(text, LABEL, SPACE)?;
    push_ruler(alloc, text, begin, points)?;
    push_rows(alloc, text, begin, spans)?;
    Ok(())
}

/// How many pages so many columns need.
fn page_count(columns: u64) -> u64
    ensures count { result ≡ page_count columns }
    ensures low { (page : ℕ) → page < result → WIDTH * page < 2 ^ 64 }
{
    if columns == 0 {
        0
    } else {
        (columns - 1) / WIDTH + 1
    }
}

/// The column at which the last of these spans ends.
fn end_of(spans: &[Span]) -> u64
    ensures { result ≡ end_of 0 spans.now }
{
    let mut end = 0;
    for span in spans {
        end = span.to.column;
    }
    end
}

/// The column at which a page begins, by its number from 0.
fn begin_of(page: u64) -> u64
    requires { WIDTH * page < 2 ^ 64 }
    ensures { result ≡ WIDTH * page }
{
    WIDTH * page
}

/// The pages of a chart.
pub(crate) fn push_pages(
    alloc: Global,
    text: &mut Vec<u8>,
    points: &[Point],
    spans: &[Span],
) -> Result<(), NoMemory>
    ensures { OnOk result (text.new.items ≡ text.old.items
        ++ pages_below (page_count (end_of 0 spans.now)) points.now spans.now) }
{
    for page in 0..page_count(end_of(spans)) {
        push_page(alloc, text, begin_of(page), points, spans)?;
    }
    Ok(())
}
