//! Any list of calls on a base.

ghost use Rattle.std.specs.Prelude.{◌≡◌, IfOk, OnOk, OnErr};
ghost use Rattle.base_calls.specs.WheelCalls.{BaseStandsAfterSome, MayCallBase, MayCallBaseAll};
ghost use Rattle.base_calls.specs.WheelCalls.{base_after_call};
ghost use Rattle.base_calls.specs.WheelCalls.{answer_of_base, answers_of_base, base_after_calls};

use std::alloc::Global;
use wheel_core::{Item, NoRoom, TimerBase};

/// A call of [`TimerBase`].
#[derive(Clone, Copy)]
pub enum BaseCall {
    Clock,
    Len,
    Get {
        id: u32,
    },
    First,
    Forward {
        now: u64,
    },
    Add {
        id: u32,
        expires: u64,
        job: u8,
        arg: u32,
    },
    Remove {
        id: u32,
    },
    PeekNext {
        now: u64,
    },
    Oldest,
    TakeNext {
        now: u64,
    },
    Reserve {
        n: usize,
    },
}

/// What a call of [`TimerBase`] answers.
#[derive(Clone, Copy, Debug, PartialEq, Eq)]
pub enum BaseAnswer {
    Clock(u64),
    Len(usize),
    /// Of `get`, `remove`, `peek_next` and `take_next`.
    Found(Option<Item>),
    First(Option<u64>),
    Added(Item),
    Oldest(Option<u32>),
    /// Of `forward`, and of `reserve` where there was memory.
    Done,
}

/// Makes one call.
fn make_call<B: TimerBase>(base: &mut B, call: &BaseCall) -> Result<BaseAnswer, NoRoom>
    requires { MayCallBase call.now (B.base base.old) }
    ensures answer { IfOk result
        (λ answer. answer ≡ answer_of_base call.now (B.base base.old).plain) }
    ensures after { OnOk result (B.base base.new ≡ base_after_call call.now (B.base base.old)) }
    ensures err { OnErr result (B.base base.new ≡ B.base base.old) }
{
    Ok(match *call {
        BaseCall::Clock => BaseAnswer::Clock(base.clock()),
        BaseCall::Len => BaseAnswer::Len(base.len()),
        BaseCall::Get { id } => BaseAnswer::Found(base.get(id)),
        BaseCall::First => BaseAnswer::First(base.first()),
        BaseCall::Forward { now } => {
            base.forward(now);
            BaseAnswer::Done
        }
        BaseCall::Add {
            id,
            expires,
            job,
            arg,
        } => BaseAnswer::Added(base.add(id, expires, job, arg)),
        BaseCall::Remove { id } => BaseAnswer::Found(base.remove(id)),
        BaseCall::PeekNext { now } => BaseAnswer::Found(base.peek_next(now)),
        BaseCall::Oldest => BaseAnswer::Oldest(base.oldest()),
        BaseCall::TakeNext { now } => BaseAnswer::Found(base.take_next(now)),
        BaseCall::Reserve { n } => {
            base.reserve(n)?;
            BaseAnswer::Done
        }
    })
}

/// Makes calls in order, and answers what each answered: the same as the plain base would,
/// whichever base it is. Want of memory comes from a `reserve` or from the list of answers; the
/// calls before it were made, and the base stands after them.
pub fn make_calls<B: TimerBase>(
    alloc: Global,
    base: &mut B,
    calls: &[BaseCall],
) -> Result<Vec<BaseAnswer>, NoRoom>
    requires { MayCallBaseAll calls.now (B.base base.old) }
    ensures answers { IfOk result
        (λ told. told.items ≡ answers_of_base calls.now (B.base base.old)) }
    ensures after { OnOk result (B.base base.new ≡ base_after_calls calls.now (B.base base.old)) }
    ensures err { OnErr result (BaseStandsAfterSome calls.now (B.base base.old) (B.base base.new)) }
{
    let mut answers = Vec::new(alloc);
    answers.reserve(calls.len())?;
    for call in calls {
        let answer = make_call(base, call)?;
        answers.push(answer)?;
    }
    Ok(answers)
}
