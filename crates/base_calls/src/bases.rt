//! Any list of calls on the bases of a CPU.

ghost use Rattle.std.specs.Prelude.{◌≡◌, ℕ, ◌≤◌, IfOk, OnOk, OnErr};
ghost use Rattle.base_calls.specs.BasesCalls.{BasesStandAfterSome, IsByRight, MayCallBases};
ghost use Rattle.base_calls.specs.BasesCalls.{MayCallBasesAll};
ghost use Rattle.base_calls.specs.BasesCalls.{StaysLegal, answer_of_bases, bases_after_call};
ghost use Rattle.base_calls.specs.BasesCalls.{bases_after_calls};
ghost use Rattle.base_calls.specs.BasesCalls.{answers_of_bases, bases_call_time};
ghost use Rattle.cpu_bases.specs.CpuBases.{IsConsistent};
ghost use Rattle.cpu_bases.specs.Journals.{LegalUpTo};
ghost use Rattle.cpu_bases.specs.Replay.{AddsReplay, IsPlayed, KeepsReplay};

use cpu_bases::{Bases, NextEvents};
use std::alloc::Global;
use tm_base::{Class, CpuId, Jiffy, NoMemory, TimerId};
use wheel_core::{Item, TimerBase};

/// A call of [`Bases`].
#[derive(Clone, Copy)]
pub enum BasesCall {
    Reserve {
        timers: usize,
        entries: usize,
    },
    Arm {
        now: Jiffy,
        class: Class,
        timer: TimerId,
        expires: Jiffy,
        job: u8,
        arg: u32,
        line: u32,
        by: CpuId,
    },
    Cancel {
        now: Jiffy,
        timer: TimerId,
        line: u32,
        by: CpuId,
    },
    TakeDue {
        now: Jiffy,
        class: Class,
        by: CpuId,
    },
    MoveOut {
        now: Jiffy,
        class: Class,
        by: CpuId,
    },
    MoveIn {
        now: Jiffy,
        class: Class,
        timer: TimerId,
        expires: Jiffy,
        job: u8,
        arg: u32,
        by: CpuId,
    },
    Next,
    WhereIs {
        timer: TimerId,
    },
}

/// What a call of [`Bases`] answers.
#[derive(Clone, Copy, Debug, PartialEq, Eq)]
pub enum BasesAnswer {
    /// Of `reserve`, where there was memory.
    Done,
    /// Of `arm` and `move_in`: the wheel expiry, in jiffies.
    Queued(Jiffy),
    /// Of `cancel`, `take_due` and `move_out`.
    Gone(Option<Item>),
    Events(NextEvents),
    Place(Option<Class>),
}

/// Makes one call.
fn make_call<B: TimerBase>(bases: &mut Bases<B>, call: &BasesCall) -> Result<BasesAnswer, NoMemory>
    requires { MayCallBases call.now bases.old }
    ensures answer { IfOk result (λ answer. answer ≡ answer_of_bases call.now bases.old.plain) }
    ensures after { OnOk result (bases.new ≡ bases_after_call call.now bases.old) }
    ensures err { OnErr result (bases.new ≡ bases.old) }
    ensures replay { AddsReplay bases.old.plain bases.new.plain }
    ensures legal { (cpu time : ℕ) → time ≤ bases_call_time call.now time → IsByRight cpu call.now
        → LegalUpTo cpu time bases.old.plain.journal
        → LegalUpTo cpu (bases_call_time call.now time) bases.new.plain.journal }
{
    Ok(match *call {
        BasesCall::Reserve { timers, entries } => {
            bases.reserve(timers, entries)?;
            BasesAnswer::Done
        }
        BasesCall::Arm {
            now,
            class,
            timer,
            expires,
            job,
            arg,
            line,
            by,
        } => { BasesAnswer::Queued(bases.arm(now, class, timer, expires, job, arg, line, by)) }
        BasesCall::Cancel {
            now,
            timer,
            line,
            by,
        } => { BasesAnswer::Gone(bases.cancel(now, timer, line, by)) }
        BasesCall::TakeDue { now, class, by } => BasesAnswer::Gone(bases.take_due(now, class, by)),
        BasesCall::MoveOut { now, class, by } => BasesAnswer::Gone(bases.move_out(now, class, by)),
        BasesCall::MoveIn {
            now,
            class,
            timer,
            expires,
            job,
            arg,
            by,
        } => { BasesAnswer::Queued(bases.move_in(now, class, timer, expires, job, arg, by)) }
        BasesCall::Next => BasesAnswer::Events(bases.next()),
        BasesCall::WhereIs { timer } => BasesAnswer::Place(bases.where_is(timer)),
    })
}

/// Makes calls in order, and answers what each answered: the same as three plain bases and a
/// journal would. The bases agree with the journal then and are its replay, from empty bases where
/// they were that before; and where the journal was legal, each call is given a time that isn't
/// before the last, and a CPU's pinned and deferrable timers are handed out by itself, it still is.
/// Want of memory comes from a `reserve` or from the list of answers; the calls before it were
/// made.
pub fn make_calls<B: TimerBase>(
    alloc: Global,
    bases: &mut Bases<B>,
    calls: &[BasesCall],
) -> Result<Vec<BasesAnswer>, NoMemory>
    requires { MayCallBasesAll calls.now bases.old }
    ensures answers { IfOk result
        (λ answers. answers.items ≡ answers_of_bases calls.now bases.old) }
    ensures after { OnOk result (bases.new ≡ bases_after_calls calls.now bases.old) }
    ensures consistent { OnOk result (IsConsistent bases.new.plain) }
    ensures legal { OnOk result (StaysLegal calls.now bases.old.plain bases.new.plain) }
    ensures replay { KeepsReplay bases.old.plain bases.new.plain }
    ensures played { IsPlayed bases.old.plain → IsPlayed bases.new.plain }
    ensures err { OnErr result (BasesStandAfterSome calls.now bases.old bases.new) }
{
    let mut answers = Vec::new(alloc);
    answers.reserve(calls.len())?;
    for call in calls {
        let answer = make_call(bases, call)?;
        answers.push(answer)?;
    }
    // For its invariant.
    bases.journal();
    Ok(answers)
}
