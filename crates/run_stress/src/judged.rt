//! What is wrong with a report: a timer that comes from nowhere, or is lost.

use crate::drawn::TIMERS;
use report_reader::{ReadReport, read_report};
use std::alloc::{AllocError, Global};
use tm_base::TimerId;
use tm_report::{Line, ShownReply};

/// Why a schedule failed.
#[derive(Clone, Copy, Debug, PartialEq, Eq)]
pub(crate) enum Flaw {
    /// What was drawn is no script.
    NoScript,
    /// The run didn't come to its end.
    BrokenOff,
    /// The report can't be read back.
    NoReport,
    /// After a moment a timer is queued twice, or less than never.
    Uneven,
    /// A timer went out before its wheel expiry.
    Early,
    /// A timer that is queued at the end isn't told as left, or another one is.
    Lost,
}

/// How often each timer is queued, by the lines so far.
type Queued = [i32; TIMERS as usize];

/// One line tells that a timer is queued so much more often.
fn count(queued: &mut Queued, timer: TimerId, by: i32) {
    let place = usize::from(timer.0);
    if place < queued.len() {
        queued[place] = queued[place].wrapping_add(by);
    }
}

/// What a line tells of the queueing of timers; a flaw where a timer ran early.
fn follow(queued: &mut Queued, line: &Line) -> Option<Flaw> {
    match *line {
        Line::Arm { timer, .. } => count(queued, timer, 1),
        Line::Cancel { timer, .. } => count(queued, timer, -1),
        Line::Left { timer, .. } => count(queued, timer, -1),
        Line::Run {
            now,
            timer,
            wheel,
            reply,
            ..
        } => {
            if wheel > now {
                return Some(Flaw::Early);
            }
            if !matches!(reply, ShownReply::Again { .. }) {
                count(queued, timer, -1);
            }
        },
        _ => (),
    }
    None
}

/// The jiffy of a line, for lines of moments.
fn jiffy_of(line: &Line) -> Option<u64> {
    match *line {
        Line::Arm { now, .. } => Some(now),
        Line::Run { now, .. } => Some(now),
        Line::Cancel { now, .. } => Some(now),
        Line::NotQueued { now, .. } => Some(now),
        Line::Idle { now, .. } => Some(now),
        Line::Wake { now, .. } => Some(now),
        _ => None,
    }
}

/// Whether each timer is queued once or not at all.
fn is_even(queued: &Queued) -> bool {
    queued.iter().all(|times| *times == 0 || *times == 1)
}

/// What is wrong with a list of lines: the first flaw, if there is one.
fn judge_lines(lines: &[Line]) -> Option<Flaw> {
    let mut queued: Queued = [0; TIMERS as usize];
    let mut jiffy = 0u64;
    for line in lines {
        if let Some(now) = jiffy_of(line) {
            if now != jiffy && !is_even(&queued) {
                return Some(Flaw::Uneven);
            }
            jiffy = now;
        }
        if let Some(flaw) = follow(&mut queued, line) {
            return Some(flaw);
        }
    }
    if queued.iter().all(|times| *times == 0) {
        None
    } else {
        Some(Flaw::Lost)
    }
}

/// What is wrong with a report's text, if anything.
pub(crate) fn judge(alloc: Global, text: &[u8]) -> Result<Option<Flaw>, AllocError> {
    match read_report(alloc, text) {
        Ok(lines) => Ok(judge_lines(lines.as_slice())),
        Err(ReadReport::NoMemory) => Err(AllocError),
        Err(_) => Ok(Some(Flaw::NoReport)),
    }
}
