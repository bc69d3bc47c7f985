//! The notes of a picture: of the answers for a CPU those that say something new of it.

ghost use Rattle.std.specs.Prelude.{◌≡◌, ◌++◌, IfOk, OnOk};
ghost use Rattle.view_chart.specs.News.{is_known, is_led_by_cover, is_same_cover, is_woken};
ghost use Rattle.view_chart.specs.News.{known_by, known_where};
ghost use Rattle.view_chart.specs.News.{new_of, news_below, news_of_cpu, news_where, note_at};
ghost use Rattle.view_chart.specs.News.{told_of};
ghost use Rattle.view_chart.specs.Model.{new_state, window_cpu_count};

use crate::model::{Note, Point, Window, count_of, first_point, has_jiffy, new_state, next_point};
use crate::said::{Answer, State, answer_in};
use std::alloc::Global;
use tm_base::{CpuId, Jiffy, NoMemory};
use tm_report::{Line, ShownCover};

/// Whether it is this CPU, by the migrators of this group, that answers.
fn is_led(level: u8, place: u16, migrator: CpuId, cover: ShownCover) -> bool
    ensures { result ≡ is_led_by_cover level place migrator.0 cover }
{
    match cover {
        ShownCover::Migrator {
            level: other_level,
            place: other_place,
            cpu,
        } => level == other_level && (place == other_place && migrator.0 == cpu.0),
        ShownCover::Wake { .. } => false,
    }
}

/// Whether it is this CPU, which wakes at this jiffy.
fn is_woken(waker: CpuId, until: Jiffy, cover: ShownCover) -> bool
    ensures { result ≡ is_woken waker.0 until cover }
{
    match cover {
        ShownCover::Migrator { .. } => false,
        ShownCover::Wake { cpu, at } => waker.0 == cpu.0 && until == at,
    }
}

/// Whether two covers are the same.
fn is_same(one: ShownCover, other: ShownCover) -> bool
    ensures { result ≡ is_same_cover one other }
{
    match one {
        ShownCover::Migrator { level, place, cpu } => is_led(level, place, cpu, other),
        ShownCover::Wake { cpu, at } => is_woken(cpu, at, other),
    }
}

/// Whether an answer says what is known of its CPU already.
fn is_known(known: Option<Answer>, answer: Answer) -> bool
    ensures { result ≡ is_known known answer }
{
    match known {
        Some(known) => known.wheel == answer.wheel && is_same(known.cover, answer.cover),
        None => false,
    }
}

/// The answer for a CPU at a jiffy of the window that a line tells.
fn told_of(window: &Window, cpu: CpuId, line: Line) -> Option<Answer>
    ensures { result ≡ told_of window.now cpu.0 line }
{
    let Some(answer) = answer_in(line) else {
        return None;
    };
    if has_jiffy(window, answer.at) && answer.cpu.0 == cpu.0 {
        Some(answer)
    } else {
        None
    }
}

/// An answer, where it isn't known.
fn new_of(known: Option<Answer>, told: Option<Answer>) -> Option<Answer>
    ensures { result ≡ new_of known told }
{
    let Some(answer) = told else {
        return None;
    };
    if is_known(known, answer) {
        None
    } else {
        Some(answer)
    }
}

/// What is known of a CPU behind a line: the answer that it tells; nothing, where the CPU becomes
/// something by it.
fn known_where(
    known: Option<Answer>,
    told: Option<Answer>,
    becomes: Option<State>,
) -> Option<Answer>
    ensures { result ≡ known_where known told becomes }
{
    if told.is_some() {
        return told;
    }
    match becomes {
        Some(_) => None,
        None => known,
    }
}

/// The note of an answer at a point.
fn push_note_at(notes: &mut Vec<Note>, point: Point, answer: Option<Answer>) -> Result<(), NoMemory>
    ensures { OnOk result (notes.new.items ≡ notes.old.items ++ note_at point answer) }
{
    if let Some(answer) = answer {
        notes.push(Note {
            point,
            cpu: answer.cpu,
            wheel: answer.wheel,
            cover: answer.cover,
        })?;
    }
    Ok(())
}

/// Goes over a line: an answer that is new has a note at its point. What is known behind it.
fn take_news(
    notes: &mut Vec<Note>,
    window: &Window,
    cpu: CpuId,
    point: Point,
    known: Option<Answer>,
    line: Line,
) -> Result<Option<Answer>, NoMemory>
    ensures notes { IfOk result (λ next. notes.new.items
        ≡ notes.old.items ++ note_at point (new_of known (told_of window.now cpu.0 line))) }
    ensures known { IfOk result (λ next. next ≡ known_by window.now cpu.0 known line) }
{
    let told = told_of(window, cpu, line);
    push_note_at(notes, point, new_of(known, told))?;
    Ok(known_where(known, told, new_state(cpu, line)))
}

/// Adds the news of a CPU.
#[tactic(auto, unfolding(crate::specs::News::news_of_cpu))]
fn add_news(
    notes: &mut Vec<Note>,
    window: &Window,
    cpu: CpuId,
    lines: &[Line],
) -> Result<(), NoMemory>
    ensures { OnOk result (notes.new.items
        ≡ notes.old.items ++ news_of_cpu window.now cpu.0 lines.now) }
{
    let mut point = first_point(window);
    let mut known = None;
    for line in lines {
        point = next_point(window, point, *line);
        known = take_news(notes, window, cpu, point, known, *line)?;
    }
    Ok(())
}

/// The news of each CPU of a window, by their numbers.
fn all_news(alloc: Global, window: &Window, lines: &[Line]) -> Result<Vec<Note>, NoMemory>
    ensures { IfOk result
        (λ notes. notes.items ≡ news_below window.now (window_cpu_count window.now) lines.now) }
{
    let mut notes = Vec::new(alloc);
    for number in 0..count_of(window) {
        let cpu = CpuId((u32::from(window.first.0) + number) as u16);
        add_news(&mut notes, window, cpu, lines)?;
    }
    Ok(notes)
}

/// The notes of a picture, if they are chosen: of each CPU of a window, by their numbers, the
/// answers that say something new of it, in the order of their lines.
pub fn news_of(
    alloc: Global,
    window: &Window,
    covers: bool,
    lines: &[Line],
) -> Result<Vec<Note>, NoMemory>
    ensures { IfOk result (λ notes. notes.items ≡ news_where window.now covers lines.now) }
{
    if covers {
        all_news(alloc, window, lines)
    } else {
        Ok(Vec::new(alloc))
    }
}
