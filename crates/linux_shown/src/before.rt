//! The line of a misfit, and what was known before it.

ghost use Rattle.std.specs.Prelude.{◌≡◌, ◌-◌, ◌<◌, IfOk, None, Some, [], get_or, true, false};
ghost use Rattle.text_words.specs.Words.{lines_of};
ghost use Rattle.linux_rules.specs.Judge.{start_behind};
ghost use Rattle.linux_shown.specs.Before.{course_behind, known_before, line_at};

use linux_rules::{Course, begin_course, last_start, take_text};
use std::alloc::Global;
use text_words::cut;
use tm_base::NoMemory;

/// The line behind so many; nothing where there is none.
fn line_behind(bytes: &[u8], count: u64) -> &[u8]
    ensures { result.now ≡ get_or (lines_of bytes.now) count [] }
{
    let mut rest = bytes;
    let mut left = count;
    while let Some((text, after)) = cut(rest, b'\n') {
        if left == 0 {
            return text;
        }
        rest = after;
        left -= 1;
    }
    if left == 0 { rest } else { b"" }
}

/// The text of the line of this number, from 1; nothing where there is no such line.
pub fn line_at(bytes: &[u8], line: u64) -> &[u8]
    ensures { result.now ≡ line_at line (lines_of bytes.now) }
{
    line_behind(bytes, line.saturating_sub(1))
}

/// Takes so many lines, where each of them fits and another one follows, and answers whether that
/// was so.
fn pass_lines(
    alloc: Global,
    course: &mut Course,
    bytes: &[u8],
    count: u64,
) -> Result<bool, NoMemory>
    ensures reached { IfOk result (λ is_there. is_there ≡ true
        → course_behind count course.old (lines_of bytes.now) ≡ Some course.new) }
    ensures missed { IfOk result (λ is_there. is_there ≡ false
        → course_behind count course.old (lines_of bytes.now) ≡ None) }
{
    let mut rest = bytes;
    let mut left = count;
    while left > 0 {
        let Some((text, after)) = cut(rest, b'\n') else {
            return Ok(false);
        };
        if take_text(alloc, course, text)?.is_some() {
            return Ok(false);
        }
        rest = after;
        left -= 1;
    }
    Ok(true)
}

/// What is known behind so many of these lines, behind so many that don't count.
fn known_behind(
    alloc: Global,
    lost: u64,
    bytes: &[u8],
    count: u64,
) -> Result<Option<Course>, NoMemory>
    ensures { IfOk result
        (λ k. k ≡ course_behind count (start_behind lost) (lines_of bytes.now)) }
{
    let mut course = begin_course(alloc, lost);
    if pass_lines(alloc, &mut course, bytes, count)? {
        Ok(Some(course))
    } else {
        Ok(None)
    }
}

/// What was known before the line of this number, from 1; None where a line before doesn't fit. The
/// only error is want of memory.
pub fn known_before(alloc: Global, bytes: &[u8], line: u64) -> Result<Option<Course>, NoMemory>
    ensures { IfOk result (λ k. k ≡ known_before line (lines_of bytes.now)) }
{
    let (lost, kept) = last_start(bytes);
    let count = line.saturating_sub(1).saturating_sub(lost as u64);
    let course = known_behind(alloc, lost as u64, kept, count)?;
    Ok(course)
}
