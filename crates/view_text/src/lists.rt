//! What is listed below a chart: expiries, and who answers for idle CPUs.

ghost use Rattle.std.specs.Prelude.{◌≡◌, ◌++◌, OnOk};
ghost use Rattle.std.specs.List.{flat_map};
ghost use Rattle.view_text.specs.Lists.{note_text, run_text};

use crate::pieces::{push_after, push_before, push_words};
use tm_base::NoMemory;
use view_chart::{Arrow, Note, push_answer};

/// An expiry, from its home to its runner.
#[tactic(auto, using(crate::proofs::Steps::onto), unfolding(crate::specs::Lists::run_text))]
fn push_run(text: &mut Vec<u8>, arrow: Arrow) -> Result<(), NoMemory>
    ensures { OnOk result (text.new.items ≡ text.old.items ++ run_text arrow) }
{
    push_before(text, arrow.point.at, b": CPU ")?;
    push_before(text, u64::from(arrow.runner.0), b" runs timer ")?;
    push_before(text, u64::from(arrow.timer.0), b" of CPU ")?;
    push_before(text, u64::from(arrow.home.0), b"\n")?;
    Ok(())
}

/// Expiries, in their order.
pub(crate) fn push_runs(text: &mut Vec<u8>, arrows: &[Arrow]) -> Result<(), NoMemory>
    ensures { OnOk result (text.new.items ≡ text.old.items ++ flat_map run_text arrows.now) }
{
    for arrow in arrows {
        push_run(text, *arrow)?;
    }
    Ok(())
}

/// An answer, behind its jiffy.
#[tactic(auto, using(crate::proofs::Steps::onto), unfolding(crate::specs::Lists::note_text))]
fn push_note(text: &mut Vec<u8>, note: Note) -> Result<(), NoMemory>
    ensures { OnOk result (text.new.items ≡ text.old.items ++ note_text note) }
{
    push_after(text, b"", note.point.at)?;
    push_answer(text, note)?;
    push_words(text, b"\n")?;
    Ok(())
}

/// Answers, in their order.
pub(crate) fn push_notes(text: &mut Vec<u8>, notes: &[Note]) -> Result<(), NoMemory>
    ensures { OnOk result (text.new.items ≡ text.old.items ++ flat_map note_text notes.now) }
{
    for note in notes {
        push_note(text, *note)?;
    }
    Ok(())
}
