//! Wakeups, each with what stands behind it.

ghost use Rattle.std.specs.Prelude.{◌≡◌, [], ◌∷◌, ◌++◌, IfOk, OnErr, OnOk};
ghost use Rattle.std.specs.Fmt.{decimal};
ghost use Rattle.view_counts.specs.Wakeups.{cause_text, counted, keeper_from, keeper_of};
ghost use Rattle.view_counts.specs.Wakeups.{keeper_text, keeps_event, last_for, reason_at};
ghost use Rattle.view_counts.specs.Wakeups.{reason_text, wakeup_at, wakeup_line, wakeup_lines};
ghost use Rattle.view_counts.specs.Wakeups.{wakeups_text, with_reason};

use crate::counts::{Cause, CpuCounts, woke_at};
use crate::rows::push_field;
use std::alloc::Global;
use text_words::{push_bytes, push_number};
use tm_base::{CpuId, Jiffy, NoMemory};

/// What stands behind a wakeup, by the machine as its moment begins.
#[derive(Clone, Copy)]
pub enum Reason {
    /// The CPU has no wakeup then.
    NoWakeup,
    /// A pinned timer of its own is due.
    OwnPinned,
    /// A global timer of its own is.
    OwnGlobal,
    /// The top group's first event is of this CPU, which has a global timer due.
    TopEvent(CpuId),
    /// The top group's first event is of this CPU, which has none due.
    GoneTimer(CpuId),
    /// The top group has no event due: what the wakeup was programmed for is gone.
    Gone,
}

/// A wakeup of a CPU.
#[derive(Clone, Copy)]
pub struct Wakeup {
    /// When, in jiffies.
    pub at: Jiffy,
    pub cpu: CpuId,
    pub reason: Reason,
    /// The lowest other CPU that wakes in that moment for the same event.
    pub keeper: Option<usize>,
    /// What it counts for, by what it ran.
    pub cause: Cause,
}

/// Whether a CPU wakes for an event of the top group.
fn keeps_event(reason: Reason) -> bool
    ensures { result ≡ keeps_event reason }
{
    match reason {
        Reason::NoWakeup => false,
        Reason::OwnPinned => false,
        Reason::OwnGlobal => false,
        Reason::TopEvent(_) => true,
        Reason::GoneTimer(_) => true,
        Reason::Gone => false,
    }
}

/// The lowest other CPU that wakes for an event of the top group.
#[tactic(auto, unfolding(crate::specs::Wakeups::keeper_from))]
fn other_keeper(cpu: usize, reasons: &[Reason]) -> Option<usize>
    ensures { result ≡ keeper_from 0 cpu reasons.now }
{
    for (other, reason) in reasons.iter().enumerate() {
        if keeps_event(*reason) && other != cpu {
            return Some(other);
        }
    }
    None
}

/// The other keeper of the event for which a CPU wakes.
fn keeper_of(cpu: usize, reason: Reason, reasons: &[Reason]) -> Option<usize>
    ensures { result ≡ keeper_of cpu reason reasons.now }
{
    if keeps_event(reason) {
        other_keeper(cpu, reasons)
    } else {
        None
    }
}

/// What stands behind a wakeup of a CPU of a list.
fn reason_at(reasons: &[Reason], cpu: usize) -> Reason
    ensures { result ≡ reason_at reasons.now cpu }
{
    if cpu < reasons.len() {
        reasons[cpu]
    } else {
        Reason::NoWakeup
    }
}

/// Notes a wakeup, which has run nothing yet. Want of memory leaves the list as before.
pub fn note_wakeup(
    wakeups: &mut Vec<Wakeup>,
    at: Jiffy,
    cpu: CpuId,
    reasons: &[Reason],
) -> Result<(), NoMemory>
    ensures ok { OnOk result
        (wakeups.new.items ≡ wakeups.old.items ++ wakeup_at at cpu.0 reasons.now ∷ []) }
    ensures err { OnErr result (wakeups.new.items ≡ wakeups.old.items) }
{
    let number = usize::from(cpu.0);
    let reason = reason_at(reasons, number);
    let keeper = keeper_of(number, reason, reasons);
    wakeups.push(Wakeup {
        at,
        cpu,
        reason,
        keeper,
        cause: Cause::Nothing,
    })?;
    Ok(())
}

/// The last wakeup was for this.
pub fn last_was_for(wakeups: &mut Vec<Wakeup>, cause: Cause)
    ensures { wakeups.new.items ≡ last_for cause wakeups.old.items }
{
    let count = wakeups.len();
    if count > 0 {
        wakeups[count - 1] = Wakeup {
            cause,
            ..wakeups[count - 1]
        };
    }
}

/// A CPU of a list has this reason.
pub fn set_reason(reasons: &mut Vec<Reason>, cpu: CpuId, reason: Reason)
    ensures { reasons.new.items ≡ with_reason cpu.0 reason reasons.old.items }
{
    let at = usize::from(cpu.0);
    if at < reasons.len() {
        reasons[at] = reason;
    }
}

/// Counts wakeups, each for its CPU.
pub fn count_wakeups(cpus: &mut Vec<CpuCounts>, wakeups: &[Wakeup])
    ensures { cpus.new.items ≡ counted cpus.old.items wakeups.now }
{
    for wakeup in wakeups {
        woke_at(cpus, wakeup.cpu, wakeup.cause);
    }
}

/// A piece of a text.
fn push_piece(text: &mut Vec<u8>, piece: &[u8]) -> Result<(), NoMemory>
    ensures { OnOk result (text.new.items ≡ text.old.items ++ piece.now) }
{
    push_bytes(text, piece)?;
    Ok(())
}

/// A number between two pieces of a text.
#[tactic(auto, using(crate::proofs::Joined::onto))]
fn push_between(text: &mut Vec<u8>, front: &[u8], n: u64, back: &[u8]) -> Result<(), NoMemory>
    ensures { OnOk result
        (text.new.items ≡ text.old.items ++ (front.now ++ (decimal n ++ back.now))) }
{
    push_bytes(text, front)?;
    push_number(text, n)?;
    push_bytes(text, back)?;
    Ok(())
}

/// The words of a reason.
fn push_reason(text: &mut Vec<u8>, reason: Reason) -> Result<(), NoMemory>
    ensures { OnOk result (text.new.items ≡ text.old.items ++ reason_text reason) }
{
    match reason {
        Reason::NoWakeup => push_piece(text, b"nothing"),
        Reason::OwnPinned => push_piece(text, b"a pinned timer of its own"),
        Reason::OwnGlobal => push_piece(text, b"a global timer of its own"),
        Reason::TopEvent(cpu) => {
            push_field(text, b"the top's first event, of CPU ", u64::from(cpu.0))
        }
        Reason::GoneTimer(cpu) => push_between(
            text,
            b"an event of a timer of CPU ",
            u64::from(cpu.0),
            b" that is gone",
        ),
        Reason::Gone => push_piece(text, b"a timer or an event that is gone"),
    }
}

/// The words of another keeper.
#[tactic(auto, using(crate::proofs::Joined::onto))]
fn push_keeper(text: &mut Vec<u8>, keeper: Option<usize>) -> Result<(), NoMemory>
    ensures { OnOk result (text.new.items ≡ text.old.items ++ keeper_text keeper) }
{
    let Some(cpu) = keeper else {
        return Ok(());
    };
    push_bytes(text, b" (CPU ")?;
    push_number(text, cpu as u64)?;
    push_bytes(text, b" keeps it too)")?;
    Ok(())
}

/// The words of what a wakeup counts for.
fn cause_text(cause: Cause) -> &'static [u8]
    ensures { result.now ≡ cause_text cause }
{
    match cause {
        Cause::Pinned => b"; counts for pinned\n",
        Cause::Global => b"; counts for global\n",
        Cause::Others => b"; counts for others\n",
        Cause::Deferrable => b"; counts for deferrable\n",
        Cause::Nothing => b"; counts for nothing\n",
    }
}

/// The line of a wakeup.
#[tactic(auto, using(crate::proofs::Joined::onto), unfolding(crate::specs::Wakeups::wakeup_line))]
fn push_wakeup(text: &mut Vec<u8>, wakeup: Wakeup) -> Result<(), NoMemory>
    ensures { OnOk result (text.new.items ≡ text.old.items ++ wakeup_line wakeup) }
{
    push_number(text, wakeup.at)?;
    push_bytes(text, b" CPU ")?;
    push_number(text, u64::from(wakeup.cpu.0))?;
    push_bytes(text, b": ")?;
    push_reason(text, wakeup.reason)?;
    push_keeper(text, wakeup.keeper)?;
    push_bytes(text, cause_text(wakeup.cause))?;
    Ok(())
}

/// The lines of wakeups.
#[tactic(auto, using(std::proofs::lemmas::List::append_assoc), unfolding(crate::specs::Wakeups::wakeup_lines))]
fn push_wakeups(text: &mut Vec<u8>, wakeups: &[Wakeup]) -> Result<(), NoMemory>
    ensures { OnOk result (text.new.items ≡ text.old.items ++ wakeup_lines wakeups.now) }
{
    for wakeup in wakeups {
        push_wakeup(text, *wakeup)?;
    }
    Ok(())
}

/// The wakeups of a play, a line each, and how many there are.
#[tactic(auto, using(crate::proofs::Joined::onto), unfolding(crate::specs::Wakeups::wakeups_text))]
pub fn print_wakeups(alloc: Global, wakeups: &[Wakeup]) -> Result<Vec<u8>, NoMemory>
    ensures { IfOk result (λ text. text.items ≡ wakeups_text wakeups.now) }
{
    let mut text = Vec::new(alloc);
    push_wakeups(&mut text, wakeups)?;
    push_bytes(&mut text, b"wakeups ")?;
    push_number(&mut text, wakeups.len() as u64)?;
    push_bytes(&mut text, b"\n")?;
    Ok(text)
}
