//! Who answers for idle CPUs: in words, and as notes in a picture.

ghost use Rattle.std.specs.Prelude.{◌≡◌, ◌++◌, OnOk};
ghost use Rattle.std.specs.List.{flat_map};
ghost use Rattle.view_chart.specs.Notes.{answer_text, cover_answerer, cover_text, drawn_note_text};
ghost use Rattle.view_chart.specs.Notes.{notes_group};
ghost use Rattle.view_chart.specs.Notes.{note_title, notes_text, number_text};

use crate::drawing::row_of;
use crate::model::{Note, Window};
use crate::pieces::{push_after, push_three, push_two, push_words};
use tm_base::NoMemory;
use tm_report::ShownCover;

/// Who answers, in words.
#[tactic(auto, unfolding(crate::specs::Notes::cover_text))]
fn push_cover(text: &mut Vec<u8>, cover: ShownCover) -> Result<(), NoMemory>
    ensures { OnOk result (text.new.items ≡ text.old.items ++ cover_text cover) }
{
    match cover {
        ShownCover::Migrator { level, place, cpu } => push_three(
            text,
            b": group ",
            u64::from(level),
            b":",
            u64::from(place),
            b", which leads to CPU ",
            u64::from(cpu.0),
        ),
        ShownCover::Wake { cpu, at } => {
            push_two(text, b": CPU ", u64::from(cpu.0), b" wakes at ", at)
        },
    }
}

/// For whom somebody answers, for which time, and who does, in words, behind a jiffy.
#[tactic(auto, using(crate::proofs::Joined::onto), unfolding(crate::specs::Notes::answer_text))]
pub fn push_answer(text: &mut Vec<u8>, note: Note) -> Result<(), NoMemory>
    ensures { OnOk result (text.new.items ≡ text.old.items ++ answer_text note) }
{
    push_two(
        text,
        b": for CPU ",
        u64::from(note.cpu.0),
        b", whose first timer is due at ",
        note.wheel,
    )?;
    push_cover(text, note.cover)?;
    Ok(())
}

/// The number of the CPU that answers.
fn answerer(cover: ShownCover) -> u16
    ensures { result ≡ cover_answerer cover }
{
    match cover {
        ShownCover::Migrator { cpu, .. } => cpu.0,
        ShownCover::Wake { cpu, .. } => cpu.0,
    }
}

/// The number of the CPU that answers, below the line of the one that sleeps.
#[tactic(auto, unfolding(crate::specs::Notes::number_text))]
fn push_number(text: &mut Vec<u8>, window: &Window, note: Note) -> Result<(), NoMemory>
    ensures { OnOk result (text.new.items ≡ text.old.items ++ number_text window.now note) }
{
    push_three(
        text,
        b"<text role=\"img\" x=\"",
        note.point.column,
        b"\" y=\"",
        row_of(window, note.cpu),
        b"\">",
        u64::from(answerer(note.cover)),
    )
}

/// The title of a number.
#[tactic(auto, using(crate::proofs::Joined::onto), unfolding(crate::specs::Notes::note_title))]
fn push_title(text: &mut Vec<u8>, note: Note) -> Result<(), NoMemory>
    ensures { OnOk result (text.new.items ≡ text.old.items ++ note_title note) }
{
    push_after(text, b"<title>jiffy ", note.point.at)?;
    push_answer(text, note)?;
    push_words(text, b"</title></text>\n")?;
    Ok(())
}

/// A note: a number, and its title.
#[tactic(auto, using(crate::proofs::Joined::onto), unfolding(crate::specs::Notes::drawn_note_text))]
fn push_note(text: &mut Vec<u8>, window: &Window, note: Note) -> Result<(), NoMemory>
    ensures { OnOk result (text.new.items ≡ text.old.items ++ drawn_note_text window.now note) }
{
    push_number(text, window, note)?;
    push_title(text, note)?;
    Ok(())
}

/// Notes, in their order.
fn push_each(text: &mut Vec<u8>, window: &Window, notes: &[Note]) -> Result<(), NoMemory>
    ensures { OnOk result
        (text.new.items ≡ text.old.items ++ flat_map (drawn_note_text window.now) notes.now) }
{
    for note in notes {
        push_note(text, window, *note)?;
    }
    Ok(())
}

/// Notes, below the lines of CPUs that sleep.
#[tactic(auto, using(crate::proofs::Joined::onto), unfolding(crate::specs::Notes::notes_group))]
fn push_group(text: &mut Vec<u8>, window: &Window, notes: &[Note]) -> Result<(), NoMemory>
    ensures { OnOk result (text.new.items ≡ text.old.items ++ notes_group window.now notes.now) }
{
    push_words(text, b"<g class=\"n\" transform=\"translate(.2 1.5)\">\n")?;
    push_each(text, window, notes)?;
    push_words(text, b"</g>\n")?;
    Ok(())
}

/// The notes of a picture, if they are chosen.
pub(crate) fn push_notes(
    text: &mut Vec<u8>,
    window: &Window,
    covers: bool,
    notes: &[Note],
) -> Result<(), NoMemory>
    ensures { OnOk result
        (text.new.items ≡ text.old.items ++ notes_text window.now covers notes.now) }
{
    if covers {
        push_group(text, window, notes)
    } else {
        Ok(())
    }
}
