//! Reading a line.

ghost use Rattle.std.specs.Prelude.{◌≡◌, ◌<◌, Some, None, MatchOption};
ghost use Rattle.linux_lines.specs.Parts.{parts_of};
ghost use Rattle.linux_lines.specs.Lines.{bare, begins_with, called_in, cpu_of_number, event_by};
ghost use Rattle.linux_lines.specs.Lines.{head_in, is_aside, is_dropped, is_loss, is_mark, is_stamp};
ghost use Rattle.linux_lines.specs.Lines.{are_digits_or_dots, is_remark, line_of, named_in};
ghost use Rattle.linux_lines.specs.Lines.{number_bracketed, stamped_in};

use crate::happenings::{event_of, read_happening};
use crate::numbers::{Base, number};
use crate::parts::{behind, bracketed, ends_in, next_part, without};
use crate::timers::{read_timer_event, timer_name_of};
use crate::times::stamp_time;
use crate::{Line, LineFault};
use tm_base::{CPU_SET_SIZE, CpuId};

/// Whether the parts of a line say that others were lost: `CPU:N [LOST ..` or `##### CPU N ..`.
#[tactic(auto, unfolding(crate::specs::Lines::is_loss))]
fn is_loss(bytes: &[u8]) -> bool
    ensures { result ≡ is_loss (parts_of bytes.now) }
{
    let Some((first, rest)) = next_part(bytes) else {
        return false;
    };
    let Some((second, _)) = next_part(rest) else {
        return false;
    };
    if first == b"#####".as_slice() {
        second == b"CPU".as_slice()
    } else {
        behind(first, b"CPU:").is_some() && second == b"[LOST".as_slice()
    }
}

/// Whether a part is a time: digits and dots, and a colon at the end.
fn is_stamp(part: &[u8]) -> bool
    ensures { result ≡ is_stamp part.now }
{
    match part.strip_suffix(b":".as_slice()) {
        Some(digits) => !digits.is_empty() && are_digits_or_dots(digits),
        None => false,
    }
}

fn are_digits_or_dots(bytes: &[u8]) -> bool
    ensures { result ≡ are_digits_or_dots bytes.now }
{
    bytes.iter().all(|b| b.is_ascii_digit() || *b == b'.')
}

/// The time, before which there may be flags, and what stands behind it.
fn behind_stamp(bytes: &[u8]) -> Option<(Option<u64>, &[u8])>
    ensures { MatchOption result
        (stamped_in (parts_of bytes.now) ≡ None)
        (λ x. stamped_in (parts_of bytes.now) ≡ Some (x.0, parts_of x.1.now)) }
{
    let (first, rest) = next_part(bytes)?;
    if is_stamp(first) {
        return Some((stamp_time(first), rest));
    }
    let (second, rest) = next_part(rest)?;
    if is_stamp(second) {
        Some((stamp_time(second), rest))
    } else {
        None
    }
}

/// The number in square brackets, where the part is that.
fn number_bracketed(part: &[u8]) -> Option<u64>
    ensures { result ≡ number_bracketed part.now }
{
    match bracketed(part) {
        Some(digits) => number(Base::Ten, digits),
        None => None,
    }
}

/// The first number in square brackets with a time behind it, the time, and what stands behind.
fn read_head(bytes: &[u8]) -> Option<(u64, Option<u64>, &[u8])>
    ensures { MatchOption result
        (head_in (parts_of bytes.now) ≡ None)
        (λ x. head_in (parts_of bytes.now) ≡ Some (x.0, (x.1, parts_of x.2.now))) }
{
    let mut left = bytes;
    while let Some((part, after)) = next_part(left) {
        if let Some(cpu) = number_bracketed(part) {
            if let Some((at, named)) = behind_stamp(after) {
                return Some((cpu, at, named));
            }
        }
        left = after;
    }
    None
}

/// The CPU of a number that a machine may have.
#[tactic(auto, unfolding(crate::specs::Lines::cpu_of_number))]
fn cpu_of_number(cpu: u64) -> Result<CpuId, LineFault>
    ensures { result ≡ cpu_of_number cpu }
{
    if cpu < u64::from(CPU_SET_SIZE) {
        Ok(CpuId(cpu as u16))
    } else {
        Err(LineFault::BadCpu)
    }
}

/// An event's own name: `perf script` puts its system in front.
#[tactic(auto, unfolding(crate::specs::Lines::bare))]
fn bare(name: &[u8]) -> &[u8]
    ensures { result.now ≡ bare name.now }
{
    without(
        without(without(name, b"timer_migration:"), b"timer:"),
        b"irq:",
    )
}

/// What the event of this name says, of this CPU at this time.
fn read_called(cpu: CpuId, at: Option<u64>, name: &[u8], bytes: &[u8]) -> Result<Line, LineFault>
    ensures { result ≡ called_in cpu at name.now (parts_of bytes.now) }
{
    if let Some(event) = event_of(name) {
        return Ok(Line::Told(cpu, at, read_happening(event, bytes)?));
    }
    match timer_name_of(name) {
        Some(event) => Ok(Line::OfTimer(cpu, at, read_timer_event(event, bytes)?)),
        None => Ok(Line::Foreign(cpu, behind(name, b"tmigr_").is_some())),
    }
}

/// What an event of this CPU at this time says, by what stands behind its time.
fn read_named(cpu: CpuId, at: Option<u64>, bytes: &[u8]) -> Result<Line, LineFault>
    ensures { result ≡ named_in cpu at (parts_of bytes.now) }
{
    match next_part(bytes) {
        Some((name, rest)) => read_called(cpu, at, bare(name), rest),
        None => Ok(Line::Foreign(cpu, false)),
    }
}

/// Whether the first part is this word.
fn begins_with(word: &[u8], bytes: &[u8]) -> bool
    ensures { result ≡ begins_with word.now (parts_of bytes.now) }
{
    match next_part(bytes) {
        Some((part, _)) => part == word,
        None => false,
    }
}

/// Whether a line is what `trace-cmd report` says of the whole file, or where a stack goes on.
#[tactic(auto, unfolding(crate::specs::Lines::is_aside))]
fn is_aside(line: &[u8]) -> bool
    ensures { result ≡ is_aside line.now }
{
    behind(line, b"cpus=").is_some()
        || behind(line, b"CPU ").is_some() && ends_in(line, b" is empty")
        || begins_with(b"=>", line)
}

/// Whether a line says by the words of `trace-cmd report` that others were lost.
fn is_dropped(line: &[u8]) -> bool
    ensures { result ≡ is_dropped line.now }
{
    behind(line, b"CPU:").is_some() && ends_in(line, b"EVENTS DROPPED]")
}

/// What an event's line says, or that it stands aside.
fn read_event(line: &[u8]) -> Result<Line, LineFault>
    ensures { result ≡ event_by (head_in (parts_of line.now)) (is_aside line.now) }
{
    let Some((number, at, named)) = read_head(line) else {
        return if is_aside(line) {
            Ok(Line::Remark)
        } else {
            Err(LineFault::NoEvent)
        };
    };
    let cpu = cpu_of_number(number)?;
    read_named(cpu, at, named)
}

/// Whether a line has no part, or begins with `#`.
fn is_remark(line: &[u8]) -> bool
    ensures { result ≡ is_remark line.now }
{
    behind(line, b"#").is_some() || next_part(line).is_none()
}

/// What a line says, or the first fault that it has. Each line of bytes has an answer.
#[tactic(auto, unfolding(crate::specs::Lines::line_of))]
pub fn read_line(line: &[u8]) -> Result<Line, LineFault>
    ensures { result ≡ line_of line.now }
{
    if is_loss(line) || is_dropped(line) {
        Ok(Line::Loss)
    } else if is_remark(line) {
        Ok(Line::Remark)
    } else {
        read_event(line)
    }
}

/// Whether a line, or what begins with one, says that a CPU's buffer begins here, since what it had
/// before was overwritten.
pub fn is_mark(line: &[u8]) -> bool
    ensures { result ≡ is_mark line.now }
{
    behind(line, b"##### CPU ").is_some()
}
