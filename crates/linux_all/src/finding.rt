//! The fold over the lines of a trace that goes on after a misfit.

ghost use Rattle.std.specs.Prelude.{◌≡◌, [], IfOk};
ghost use Rattle.text_words.specs.Words.{lines_of};
ghost use Rattle.linux_rules.specs.Judge.{said_of, start_behind, text_verdict};
ghost use Rattle.linux_all.specs.All.{HasTaken, all_of, all_said, first_said, forgotten};

use linux_rules::{Course, Misfit, Verdict, begin_course, last_start, open_at, take_text};
use linux_seen::counts::counted;
use linux_seen::seen::Seen;
use linux_timers::TimersSeen;
use std::alloc::Global;
use text_words::cut;
use tm_base::NoMemory;

/// What was found in a trace.
#[derive(Drop)]
pub struct Found {
    /// The misfits, in the order of the lines at which they were found.
    pub misfits: Vec<Misfit>,
    /// How it ended: with the counts of the lines that fit, or at a line that is none of a trace.
    pub end: Verdict,
}

/// Forgets what was seen, as where lines were lost; the line that it was learnt from is counted.
fn forget(alloc: Global, course: &mut Course)
    ensures { course.new ≡ forgotten course.old.tally }
{
    course.seen = Seen::new(alloc);
    course.timers = TimersSeen::new(alloc);
    course.tally.lines = counted(course.tally.lines);
}

/// Takes a line: a misfit is kept, and what was seen is forgotten. It answers the verdict of a line
/// that is none of a trace.
fn take_next(
    alloc: Global,
    course: &mut Course,
    misfits: &mut Vec<Misfit>,
    text: &[u8],
) -> Result<Option<Verdict>, NoMemory>
    ensures { IfOk result (λ end. HasTaken course.old misfits.old.items
        (text_verdict course.old text.now) text.now course.new misfits.new.items end) }
{
    match take_text(alloc, course, text)? {
        None => Ok(None),
        Some(Verdict::Broken(misfit)) => {
            misfits.push(misfit)?;
            forget(alloc, course);
            Ok(None)
        }
        Some(end) => Ok(Some(end)),
    }
}

/// What the function on lists finds in these lines, behind so many that don't count.
fn find_all(alloc: Global, lost: u64, bytes: &[u8]) -> Result<Found, NoMemory>
    ensures misfits { IfOk result
        (λ found. found.misfits.items
        ≡ (all_of (start_behind lost) [] (lines_of bytes.now)).misfits) }
    ensures end { IfOk result
        (λ found. found.end ≡ (all_of (start_behind lost) [] (lines_of bytes.now)).end) }
{
    let mut course = begin_course(alloc, lost);
    let mut misfits = Vec::new(alloc);
    let mut rest = bytes;
    while let Some((text, after)) = cut(rest, b'\n') {
        if let Some(end) = take_next(alloc, &mut course, &mut misfits, text)? {
            return Ok(Found { misfits, end });
        }
        rest = after;
    }
    if let Some(end) = take_next(alloc, &mut course, &mut misfits, rest)? {
        return Ok(Found { misfits, end });
    }
    let end = Verdict::Fits(course.tally, open_at(&course.seen));
    Ok(Found { misfits, end })
}

/// What the function on lists finds in the lines that count.
fn find_kept(alloc: Global, bytes: &[u8]) -> Result<Found, NoMemory>
    ensures misfits { IfOk result
        (λ found. found.misfits.items ≡ (all_said (lines_of bytes.now)).misfits) }
    ensures end { IfOk result
        (λ found. found.end ≡ (all_said (lines_of bytes.now)).end) }
{
    let (lost, kept) = last_start(bytes);
    find_all(alloc, lost as u64, kept)
}

/// All misfits of a trace, in the lines that count: after each nothing is known, as after lost lines, and what follows is
/// held against what is learnt again from the next line on. The first misfit, or the end where
/// there is none, is the verdict of `check_trace`. The only error is want of memory.
pub fn check_all(alloc: Global, bytes: &[u8]) -> Result<Found, NoMemory>
    ensures misfits { IfOk result
        (λ found. found.misfits.items ≡ (all_said (lines_of bytes.now)).misfits) }
    ensures end { IfOk result
        (λ found. found.end ≡ (all_said (lines_of bytes.now)).end) }
    ensures first { IfOk result
        (λ found. first_said found.misfits.items found.end ≡ said_of (lines_of bytes.now)) }
{
    let found = find_kept(alloc, bytes)?;
    Ok(found)
}
