//! The one line whose text some words can be.

ghost use Rattle.std.specs.Prelude.{◌≡◌};
ghost use Rattle.report_reader.specs.Candidates.{cover_read, line_for, reason_of, reply_of};
ghost use Rattle.report_reader.specs.declared.names.Name.TheVariants as names;

use crate::names::Name;
use crate::words::Words;
use tm_report::{Line, ShownCover, ShownReason, ShownReply};

/// The line of this name, by the words behind it.
pub fn line_of(name: Name, words: &mut Words) -> Line
    ensures { result ≡ line_for name words.old }
{
    match name {
        Name::Arm => arm(words),
        Name::Run => run(words),
        Name::Cancel => cancel(words),
        Name::NotQueued => not_queued(words),
        Name::Idle => idle(words),
        Name::Stay => stay(words),
        Name::Wake => wake(words),
        Name::Offline => offline(words),
        Name::Handed => handed(words),
        Name::Online => online(words),
        Name::Control => control(words),
        Name::Moved => moved_timer(words),
        Name::Cover => cover(words),
        Name::Refused => refusal(words),
        Name::Left => left(words),
        Name::End => end(words),
        Name::Why => why(words),
        Name::Yes => yes(words),
        Name::No => no(words),
        Name::Device => device(words),
    }
}

#[tactic(auto, unfolding(crate::specs::Candidates::line_for))]
fn arm(words: &mut Words) -> Line
    ensures { result ≡ line_for names.Arm words.old }
{
    Line::Arm {
        now: words.number(),
        cpu: words.cpu(),
        timer: words.timer(),
        class: words.class(),
        wheel: words.time(),
    }
}

#[tactic(auto, unfolding(crate::specs::Candidates::line_for))]
fn run(words: &mut Words) -> Line
    ensures { result ≡ line_for names.Run words.old }
{
    Line::Run {
        now: words.number(),
        runner: words.cpu(),
        timer: words.timer(),
        home: words.cpu(),
        wheel: words.time(),
        reply: reply(words),
    }
}

#[tactic(auto, unfolding(crate::specs::Candidates::line_for))]
fn cancel(words: &mut Words) -> Line
    ensures { result ≡ line_for names.Cancel words.old }
{
    Line::Cancel {
        now: words.number(),
        cpu: words.cpu(),
        timer: words.timer(),
        home: words.cpu(),
    }
}

#[tactic(auto, unfolding(crate::specs::Candidates::line_for))]
fn not_queued(words: &mut Words) -> Line
    ensures { result ≡ line_for names.NotQueued words.old }
{
    Line::NotQueued {
        now: words.number(),
        cpu: words.cpu(),
        timer: words.timer(),
    }
}

#[tactic(auto, unfolding(crate::specs::Candidates::line_for))]
fn idle(words: &mut Words) -> Line
    ensures { result ≡ line_for names.Idle words.old }
{
    Line::Idle {
        now: words.number(),
        cpu: words.cpu(),
        until: words.time(),
    }
}

#[tactic(auto, unfolding(crate::specs::Candidates::line_for))]
fn stay(words: &mut Words) -> Line
    ensures { result ≡ line_for names.Stay words.old }
{
    Line::Stay {
        now: words.number(),
        cpu: words.cpu(),
        first: words.time(),
    }
}

#[tactic(auto, unfolding(crate::specs::Candidates::line_for))]
fn wake(words: &mut Words) -> Line
    ensures { result ≡ line_for names.Wake words.old }
{
    Line::Wake {
        now: words.number(),
        cpu: words.cpu(),
    }
}

#[tactic(auto, unfolding(crate::specs::Candidates::line_for))]
fn offline(words: &mut Words) -> Line
    ensures { result ≡ line_for names.Offline words.old }
{
    Line::Offline {
        now: words.number(),
        cpu: words.cpu(),
    }
}

#[tactic(auto, unfolding(crate::specs::Candidates::line_for))]
fn handed(words: &mut Words) -> Line
    ensures { result ≡ line_for names.Handed words.old }
{
    Line::Handed {
        now: words.number(),
        cpu: words.cpu(),
        to: words.cpu(),
    }
}

#[tactic(auto, unfolding(crate::specs::Candidates::line_for))]
fn online(words: &mut Words) -> Line
    ensures { result ≡ line_for names.Online words.old }
{
    Line::Online {
        now: words.number(),
        cpu: words.cpu(),
    }
}

#[tactic(auto, unfolding(crate::specs::Candidates::line_for))]
fn control(words: &mut Words) -> Line
    ensures { result ≡ line_for names.Control words.old }
{
    Line::Control {
        now: words.number(),
        cpu: words.cpu(),
    }
}

#[tactic(auto, unfolding(crate::specs::Candidates::line_for))]
fn moved_timer(words: &mut Words) -> Line
    ensures { result ≡ line_for names.Moved words.old }
{
    Line::Moved {
        now: words.number(),
        timer: words.timer(),
        from: words.cpu(),
        to: words.cpu(),
        wheel: words.time(),
    }
}

#[tactic(auto, unfolding(crate::specs::Candidates::line_for))]
fn cover(words: &mut Words) -> Line
    ensures { result ≡ line_for names.Cover words.old }
{
    Line::Cover {
        now: words.number(),
        cpu: words.cpu(),
        wheel: words.time(),
        cover: shown_cover(words),
    }
}

#[tactic(auto, unfolding(crate::specs::Candidates::line_for))]
fn left(words: &mut Words) -> Line
    ensures { result ≡ line_for names.Left words.old }
{
    Line::Left {
        timer: words.timer(),
        cpu: words.cpu(),
        class: words.class(),
        wheel: words.time(),
    }
}

#[tactic(auto, unfolding(crate::specs::Candidates::line_for))]
fn end(words: &mut Words) -> Line
    ensures { result ≡ line_for names.End words.old }
{
    Line::End {
        now: words.number(),
    }
}

#[tactic(auto, unfolding(crate::specs::Candidates::line_for))]
fn why(words: &mut Words) -> Line
    ensures { result ≡ line_for names.Why words.old }
{
    Line::Why {
        steps: words.count(),
        cpu: words.cpu(),
        timer: words.timer(),
        shown: reason(words),
    }
}

#[tactic(auto, unfolding(crate::specs::Candidates::line_for))]
fn yes(words: &mut Words) -> Line
    ensures { result ≡ line_for names.Yes words.old }
{
    Line::Yes {
        steps: words.count(),
    }
}

#[tactic(auto, unfolding(crate::specs::Candidates::line_for))]
fn no(words: &mut Words) -> Line
    ensures { result ≡ line_for names.No words.old }
{
    Line::No {
        index: words.count(),
    }
}

#[tactic(auto, unfolding(crate::specs::Candidates::line_for))]
fn device(words: &mut Words) -> Line
    ensures { result ≡ line_for names.Device words.old }
{
    Line::Device {
        now: words.number(),
        until: words.time(),
    }
}

#[tactic(auto, unfolding(crate::specs::Candidates::line_for, crate::specs::Candidates::refusal_of))]
fn refusal(words: &mut Words) -> Line
    ensures { result ≡ line_for names.Refused words.old }
{
    let now = words.number();
    let cpu = words.cpu();
    let line = words.count();
    let number = words.byte();
    if words.is_over() {
        return Line::Refused {
            now,
            cpu,
            line,
            number,
        };
    }
    Line::RefusedQueued {
        now,
        cpu,
        line,
        number,
        holder: words.cpu(),
    }
}

#[tactic(auto, unfolding(crate::specs::Candidates::reply_of))]
fn reply(words: &mut Words) -> ShownReply
    ensures { result ≡ reply_of words.old }
{
    let word = words.word();
    if word == b"done".as_slice() {
        ShownReply::Done
    } else if word == b"mark".as_slice() {
        ShownReply::Mark(words.count())
    } else if word == b"again".as_slice() {
        ShownReply::Again {
            class: words.class(),
            wheel: words.time(),
        }
    } else {
        ShownReply::Skip { cpu: words.cpu() }
    }
}

#[tactic(auto, unfolding(crate::specs::Candidates::cover_read))]
fn shown_cover(words: &mut Words) -> ShownCover
    ensures { result ≡ cover_read words.old }
{
    if words.word() == b"migrator".as_slice() {
        let (level, place) = words.group();
        ShownCover::Migrator {
            level,
            place,
            cpu: words.cpu(),
        }
    } else {
        ShownCover::Wake {
            cpu: words.cpu(),
            at: words.time(),
        }
    }
}

#[tactic(auto, unfolding(crate::specs::Candidates::reason_of))]
fn reason(words: &mut Words) -> ShownReason
    ensures { result ≡ reason_of words.old }
{
    let word = words.word();
    if word == b"held".as_slice() {
        let (level, place) = words.group();
        ShownReason::Held {
            level,
            place,
            cpu: words.cpu(),
        }
    } else if word == b"woken".as_slice() {
        ShownReason::Woken {
            cpu: words.cpu(),
            at: words.time(),
        }
    } else if word == b"carried".as_slice() {
        ShownReason::Carried { case: words.byte() }
    } else {
        ShownReason::Nothing
    }
}
