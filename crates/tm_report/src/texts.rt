//! The text of each line.
#![tactic(auto, unfolding(crate::specs::Lines::words_text, crate::specs::Lines::line_text))]

ghost use Rattle.std.specs.Prelude.{◌++◌};
ghost use Rattle.tm_report.specs.Words.{number_word, time_word};
ghost use Rattle.tm_report.specs.Replies.{reply_words};
ghost use Rattle.tm_report.specs.Covers.{cover_words};
ghost use Rattle.tm_report.specs.Reasons.{reason_words};
ghost use Rattle.tm_report.specs.Lines.{words_text, line_text};
ghost use Rattle.tm_report.specs.Drafts.{Adds};

use crate::drafts::Draft;
use crate::lines::{Line, ShownCover, ShownReason, ShownReply};
use tm_base::{Class, CpuId, Jiffy, NoMemory, TimerId};

/// Writes a line behind what the draft has begun.
pub fn write_line(draft: &mut Draft, line: &Line) -> Result<(), NoMemory>
    ensures { Adds result draft.old draft.new (line_text line.now) }
{
    write_words(draft, line)?;
    draft.piece(b"\n")
}

fn write_words(draft: &mut Draft, line: &Line) -> Result<(), NoMemory>
    ensures { Adds result draft.old draft.new (words_text line.now) }
{
    match line {
        Line::Arm {
            now,
            cpu,
            timer,
            class,
            wheel,
        } => write_arm(draft, *now, *cpu, *timer, *class, *wheel),
        Line::Run {
            now,
            runner,
            timer,
            home,
            wheel,
            reply,
        } => write_run(draft, *now, *runner, *timer, *home, *wheel, reply),
        Line::Cancel {
            now,
            cpu,
            timer,
            home,
        } => write_cancel(draft, *now, *cpu, *timer, *home),
        Line::NotQueued { now, cpu, timer } => write_not_queued(draft, *now, *cpu, *timer),
        Line::Idle { now, cpu, until } => write_event_at(draft, b"idle", *now, *cpu, *until),
        Line::Stay { now, cpu, first } => write_event_at(draft, b"stay", *now, *cpu, *first),
        Line::Wake { now, cpu } => write_event(draft, b"wake", *now, *cpu),
        Line::Offline { now, cpu } => write_event(draft, b"offline", *now, *cpu),
        Line::Handed { now, cpu, to } => write_handed(draft, *now, *cpu, *to),
        Line::Online { now, cpu } => write_event(draft, b"online", *now, *cpu),
        Line::Control { now, cpu } => write_event(draft, b"control", *now, *cpu),
        Line::Moved {
            now,
            timer,
            from,
            to,
            wheel,
        } => write_moved(draft, *now, *timer, *from, *to, *wheel),
        Line::Cover {
            now,
            cpu,
            wheel,
            cover,
        } => write_cover(draft, *now, *cpu, *wheel, cover),
        Line::Refused {
            now,
            cpu,
            line,
            number,
        } => write_refused(draft, *now, *cpu, *line, *number),
        Line::RefusedQueued {
            now,
            cpu,
            line,
            number,
            holder,
        } => write_refused_queued(draft, *now, *cpu, *line, *number, *holder),
        Line::Left {
            timer,
            cpu,
            class,
            wheel,
        } => write_left(draft, *timer, *cpu, *class, *wheel),
        Line::End { now } => write_end(draft, *now),
        Line::Why {
            steps,
            cpu,
            timer,
            shown,
        } => write_why(draft, *steps, *cpu, *timer, shown),
        Line::Yes { steps } => write_count(draft, b"yes", *steps),
        Line::No { index } => write_count(draft, b"no", *index),
        Line::Device { now, until } => write_device(draft, *now, *until),
    }
}

fn write_arm(
    draft: &mut Draft,
    now: Jiffy,
    cpu: CpuId,
    timer: TimerId,
    class: Class,
    wheel: Jiffy,
) -> Result<(), NoMemory>
    ensures { Adds result draft.old draft.new (words_text (Line.Arm now cpu timer class wheel)) }
{
    write_event(draft, b"arm", now, cpu)?;
    draft.number_word(u64::from(timer.0))?;
    draft.class_word(class)?;
    draft.time_word(wheel)
}

fn write_run(
    draft: &mut Draft,
    now: Jiffy,
    runner: CpuId,
    timer: TimerId,
    home: CpuId,
    wheel: Jiffy,
    reply: &ShownReply,
) -> Result<(), NoMemory>
    ensures { Adds result draft.old draft.new
        (words_text (Line.Run now runner timer home wheel reply.now)) }
{
    write_event(draft, b"run", now, runner)?;
    draft.number_word(u64::from(timer.0))?;
    draft.number_word(u64::from(home.0))?;
    draft.time_word(wheel)?;
    write_reply(draft, reply)
}

fn write_cancel(
    draft: &mut Draft,
    now: Jiffy,
    cpu: CpuId,
    timer: TimerId,
    home: CpuId,
) -> Result<(), NoMemory>
    ensures { Adds result draft.old draft.new (words_text (Line.Cancel now cpu timer home)) }
{
    write_event(draft, b"cancel", now, cpu)?;
    draft.number_word(u64::from(timer.0))?;
    draft.number_word(u64::from(home.0))
}

fn write_not_queued(
    draft: &mut Draft,
    now: Jiffy,
    cpu: CpuId,
    timer: TimerId,
) -> Result<(), NoMemory>
    ensures { Adds result draft.old draft.new (words_text (Line.NotQueued now cpu timer)) }
{
    write_event(draft, b"none", now, cpu)?;
    draft.number_word(u64::from(timer.0))
}

fn write_handed(draft: &mut Draft, now: Jiffy, cpu: CpuId, to: CpuId) -> Result<(), NoMemory>
    ensures { Adds result draft.old draft.new (words_text (Line.Handed now cpu to)) }
{
    write_event(draft, b"handed", now, cpu)?;
    draft.number_word(u64::from(to.0))
}

fn write_moved(
    draft: &mut Draft,
    now: Jiffy,
    timer: TimerId,
    from: CpuId,
    to: CpuId,
    wheel: Jiffy,
) -> Result<(), NoMemory>
    ensures { Adds result draft.old draft.new (words_text (Line.Moved now timer from to wheel)) }
{
    draft.piece(b"moved")?;
    draft.number_word(now)?;
    draft.number_word(u64::from(timer.0))?;
    draft.number_word(u64::from(from.0))?;
    draft.number_word(u64::from(to.0))?;
    draft.time_word(wheel)
}

fn write_cover(
    draft: &mut Draft,
    now: Jiffy,
    cpu: CpuId,
    wheel: Jiffy,
    cover: &ShownCover,
) -> Result<(), NoMemory>
    ensures { Adds result draft.old draft.new (words_text (Line.Cover now cpu wheel cover.now)) }
{
    write_event_at(draft, b"cover", now, cpu, wheel)?;
    write_shown_cover(draft, cover)
}

fn write_refused(
    draft: &mut Draft,
    now: Jiffy,
    cpu: CpuId,
    line: u32,
    number: u8,
) -> Result<(), NoMemory>
    ensures { Adds result draft.old draft.new (words_text (Line.Refused now cpu line number)) }
{
    write_event(draft, b"refused", now, cpu)?;
    draft.number_word(u64::from(line))?;
    draft.number_word(u64::from(number))
}

fn write_refused_queued(
    draft: &mut Draft,
    now: Jiffy,
    cpu: CpuId,
    line: u32,
    number: u8,
    holder: CpuId,
) -> Result<(), NoMemory>
    ensures { Adds result draft.old draft.new
        (words_text (Line.RefusedQueued now cpu line number holder)) }
{
    write_refused(draft, now, cpu, line, number)?;
    draft.number_word(u64::from(holder.0))
}

fn write_left(
    draft: &mut Draft,
    timer: TimerId,
    cpu: CpuId,
    class: Class,
    wheel: Jiffy,
) -> Result<(), NoMemory>
    ensures { Adds result draft.old draft.new (words_text (Line.Left timer cpu class wheel)) }
{
    draft.piece(b"left")?;
    draft.number_word(u64::from(timer.0))?;
    draft.number_word(u64::from(cpu.0))?;
    draft.class_word(class)?;
    draft.time_word(wheel)
}

fn write_end(draft: &mut Draft, now: Jiffy) -> Result<(), NoMemory>
    ensures { Adds result draft.old draft.new (words_text (Line.End now)) }
{
    draft.piece(b"end")?;
    draft.number_word(now)
}

fn write_why(
    draft: &mut Draft,
    steps: u32,
    cpu: CpuId,
    timer: TimerId,
    shown: &ShownReason,
) -> Result<(), NoMemory>
    ensures { Adds result draft.old draft.new (words_text (Line.Why steps cpu timer shown.now)) }
{
    write_event(draft, b"why", u64::from(steps), cpu)?;
    draft.number_word(u64::from(timer.0))?;
    write_reason(draft, shown)
}

// A word and a number.
fn write_count(draft: &mut Draft, name: &[u8], n: u32) -> Result<(), NoMemory>
    ensures { Adds result draft.old draft.new (name.now ++ number_word n) }
{
    draft.piece(name)?;
    draft.number_word(u64::from(n))
}

fn write_device(draft: &mut Draft, now: Jiffy, until: Jiffy) -> Result<(), NoMemory>
    ensures { Adds result draft.old draft.new (words_text (Line.Device now until)) }
{
    draft.piece(b"device")?;
    draft.number_word(now)?;
    draft.time_word(until)
}

// What a job answered.
fn write_reply(draft: &mut Draft, reply: &ShownReply) -> Result<(), NoMemory>
    ensures { Adds result draft.old draft.new (reply_words reply.now) }
{
    match reply {
        ShownReply::Done => draft.piece(b" done"),
        ShownReply::Mark(number) => {
            draft.piece(b" mark")?;
            draft.number_word(u64::from(*number))
        }
        ShownReply::Again { class, wheel } => {
            draft.piece(b" again")?;
            draft.class_word(*class)?;
            draft.time_word(*wheel)
        }
        ShownReply::Skip { cpu } => {
            draft.piece(b" skip")?;
            draft.number_word(u64::from(cpu.0))
        }
    }
}

// What answers for a timer.
fn write_shown_cover(draft: &mut Draft, cover: &ShownCover) -> Result<(), NoMemory>
    ensures { Adds result draft.old draft.new (cover_words cover.now) }
{
    match cover {
        ShownCover::Migrator { level, place, cpu } => {
            draft.piece(b" migrator ")?;
            draft.group(*level, *place)?;
            draft.number_word(u64::from(cpu.0))
        }
        ShownCover::Wake { cpu, at } => {
            draft.piece(b" wake")?;
            draft.number_word(u64::from(cpu.0))?;
            draft.time_word(*at)
        }
    }
}

// Who answers for a timer in the middle of a list of steps.
fn write_reason(draft: &mut Draft, reason: &ShownReason) -> Result<(), NoMemory>
    ensures { Adds result draft.old draft.new (reason_words reason.now) }
{
    match reason {
        ShownReason::Held { level, place, cpu } => {
            draft.piece(b" held ")?;
            draft.group(*level, *place)?;
            draft.number_word(u64::from(cpu.0))
        }
        ShownReason::Woken { cpu, at } => {
            draft.piece(b" woken")?;
            draft.number_word(u64::from(cpu.0))?;
            draft.time_word(*at)
        }
        ShownReason::Carried { case } => {
            draft.piece(b" carried")?;
            draft.number_word(u64::from(*case))
        }
        ShownReason::Nothing => draft.piece(b" none"),
    }
}

// The words with which most lines begin: their name, the jiffy and the CPU.
fn write_event(draft: &mut Draft, name: &[u8], now: Jiffy, cpu: CpuId) -> Result<(), NoMemory>
    ensures { Adds result draft.old draft.new (name.now ++ number_word now ++ number_word cpu.0) }
{
    draft.piece(name)?;
    draft.number_word(now)?;
    draft.number_word(u64::from(cpu.0))
}

// The same for an event with a wakeup or an expiry.
fn write_event_at(
    draft: &mut Draft,
    name: &[u8],
    now: Jiffy,
    cpu: CpuId,
    at: Jiffy,
) -> Result<(), NoMemory>
    ensures { Adds result draft.old draft.new
        (name.now ++ number_word now ++ number_word cpu.0 ++ time_word at) }
{
    write_event(draft, name, now, cpu)?;
    draft.time_word(at)
}
