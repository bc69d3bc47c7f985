//! Writing the lines of a play.

ghost use Rattle.std.specs.Prelude.{◌≡◌, ◌∷◌, ◌++◌, [], OnOk, Some, codes};
ghost use Rattle.std.specs.Fmt.{decimal};
ghost use Rattle.text_words.specs.Words.{ended, spaced};
ghost use Rattle.delayed_work.specs.Lines.{again_words, cancelled_line, due_word, works_end_line};
ghost use Rattle.delayed_work.specs.Lines.{job_reply_words, left_work_line, queued_line};
ghost use Rattle.delayed_work.specs.Lines.{work_run_line};

use crate::standing::Placed;
use job_table::JobReply;
use text_words::{push_bytes, push_number};
use tm_base::{Jiffy, NoMemory};

/// A word behind a space.
#[tactic(auto, using(std::proofs::lemmas::List::append_assoc))]
fn push_word(text: &mut Vec<u8>, word: &[u8]) -> Result<(), NoMemory>
    ensures { OnOk result (text.new.items ≡ text.old.items ++ 32 ∷ word.now) }
{
    push_bytes(text, b" ")?;
    push_bytes(text, word)?;
    Ok(())
}

/// A number behind a space.
#[tactic(auto, using(std::proofs::lemmas::List::append_assoc))]
fn push_next(text: &mut Vec<u8>, n: u64) -> Result<(), NoMemory>
    ensures { OnOk result (text.new.items ≡ text.old.items ++ 32 ∷ decimal n) }
{
    push_bytes(text, b" ")?;
    push_number(text, n)?;
    Ok(())
}

/// Where a queued work stands, behind a space.
fn push_due(text: &mut Vec<u8>, placed: Placed) -> Result<(), NoMemory>
    ensures { OnOk result (text.new.items ≡ text.old.items ++ 32 ∷ due_word placed) }
{
    match placed {
        Placed::Waiting(due) => push_next(text, due),
        Placed::Ready => push_word(text, b"ready"),
        Placed::Pending => push_word(text, b"pending"),
    }
}

/// A word, a time and a work.
#[tactic(auto, using(std::proofs::lemmas::List::append_assoc))]
fn push_start(text: &mut Vec<u8>, word: &[u8], now: Jiffy, work: u16) -> Result<(), NoMemory>
    ensures { OnOk result (text.new.items
        ≡ text.old.items ++ word.now ++ 32 ∷ decimal now ++ 32 ∷ decimal work) }
{
    push_bytes(text, word)?;
    push_next(text, now)?;
    push_next(text, u64::from(work))?;
    Ok(())
}

/// A line of a word, a time and a work.
#[tactic(auto, using(std::proofs::lemmas::List::append_assoc))]
fn push_plain(text: &mut Vec<u8>, word: &[u8], now: Jiffy, work: u16) -> Result<(), NoMemory>
    ensures { OnOk result (text.new.items ≡ text.old.items
        ++ ended (spaced (word.now ∷ decimal now ∷ decimal work ∷ []))) }
{
    push_start(text, word, now, work)?;
    push_bytes(text, b"\n")?;
    Ok(())
}

/// The line of a queueing that was accepted.
#[tactic(auto, using(std::proofs::lemmas::List::append_assoc))]
fn push_queued(text: &mut Vec<u8>, now: Jiffy, work: u16, placed: Placed) -> Result<(), NoMemory>
    ensures { OnOk result (text.new.items ≡ text.old.items
        ++ ended (spaced (codes "queued" ∷ decimal now ∷ decimal work ∷ due_word placed ∷ []))) }
{
    push_start(text, b"queued", now, work)?;
    push_due(text, placed)?;
    push_bytes(text, b"\n")?;
    Ok(())
}

/// What a queueing came to.
pub(crate) fn tell_queued(
    text: &mut Vec<u8>,
    now: Jiffy,
    work: u16,
    placed: Placed,
) -> Result<(), NoMemory>
    ensures { OnOk result (text.new.items ≡ text.old.items ++ queued_line now work placed) }
{
    match placed {
        Placed::Pending => push_plain(text, b"pending", now, work),
        _ => push_queued(text, now, work, placed),
    }
}

/// Whether a cancelling found the work pending.
pub(crate) fn tell_cancelled(
    text: &mut Vec<u8>,
    now: Jiffy,
    work: u16,
    was_pending: bool,
) -> Result<(), NoMemory>
    ensures { OnOk result
        (text.new.items ≡ text.old.items ++ cancelled_line now work was_pending) }
{
    if was_pending {
        push_plain(text, b"cancelled", now, work)
    } else {
        push_plain(text, b"none", now, work)
    }
}

/// A reply, behind a space.
#[tactic(auto, using(std::proofs::lemmas::List::append_assoc))]
fn push_reply(text: &mut Vec<u8>, reply: JobReply, placed: Option<Placed>) -> Result<(), NoMemory>
    ensures { OnOk result
        (text.new.items ≡ text.old.items ++ 32 ∷ spaced (job_reply_words reply placed)) }
{
    match reply {
        JobReply::Done => push_word(text, b"done"),
        JobReply::Mark(mark) => {
            push_word(text, b"mark")?;
            push_next(text, u64::from(mark))
        }
        JobReply::Again { .. } => push_again(text, placed),
    }
}

/// That a work is queued again, behind a space.
#[tactic(auto, using(std::proofs::lemmas::List::append_assoc))]
fn push_again(text: &mut Vec<u8>, placed: Option<Placed>) -> Result<(), NoMemory>
    ensures { OnOk result (text.new.items ≡ text.old.items ++ 32 ∷ spaced (again_words placed)) }
{
    push_word(text, b"again")?;
    match placed {
        None => Ok(()),
        Some(placed) => push_due(text, placed),
    }
}

/// The run of a work.
#[tactic(auto, using(std::proofs::lemmas::List::append_assoc))]
pub(crate) fn tell_ran(
    text: &mut Vec<u8>,
    now: Jiffy,
    work: u16,
    reply: JobReply,
    placed: Option<Placed>,
) -> Result<(), NoMemory>
    ensures { OnOk result (text.new.items
        ≡ text.old.items ++ work_run_line now (Some (work, reply, placed))) }
{
    push_start(text, b"ran", now, work)?;
    push_reply(text, reply, placed)?;
    push_bytes(text, b"\n")?;
    Ok(())
}

/// Where a pending work is left.
#[tactic(auto, using(std::proofs::lemmas::List::append_assoc))]
fn push_left(text: &mut Vec<u8>, work: u16, placed: Placed) -> Result<(), NoMemory>
    ensures { OnOk result (text.new.items ≡ text.old.items ++ left_work_line work (Some placed)) }
{
    push_bytes(text, b"left")?;
    push_next(text, u64::from(work))?;
    push_due(text, placed)?;
    push_bytes(text, b"\n")?;
    Ok(())
}

/// Where a work is left, if it is pending.
pub(crate) fn tell_left(
    text: &mut Vec<u8>,
    work: u16,
    placed: Option<Placed>,
) -> Result<(), NoMemory>
    ensures { OnOk result (text.new.items ≡ text.old.items ++ left_work_line work placed) }
{
    match placed {
        None => Ok(()),
        Some(placed) => push_left(text, work, placed),
    }
}

/// The last line.
#[tactic(auto, using(std::proofs::lemmas::List::append_assoc))]
pub(crate) fn tell_end(text: &mut Vec<u8>, end: Jiffy) -> Result<(), NoMemory>
    ensures { OnOk result (text.new.items ≡ text.old.items ++ works_end_line end) }
{
    push_bytes(text, b"end")?;
    push_next(text, end)?;
    push_bytes(text, b"\n")?;
    Ok(())
}
