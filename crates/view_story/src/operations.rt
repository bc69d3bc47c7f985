//! The lines that answer operations.

ghost use Rattle.std.specs.Prelude.{◌≡◌, None, find};
ghost use Rattle.std.specs.List.{list_any};
ghost use Rattle.view_story.specs.Operations.{after_answer, answer_fault, answer_line_fault};
ghost use Rattle.view_story.specs.Operations.{point_answered};
ghost use Rattle.view_story.specs.Operations.{answered_op, arm_fault, changed_cpu, comes_next};
ghost use Rattle.view_story.specs.Operations.{done_fault};
ghost use Rattle.view_story.specs.Operations.{fits_wakeup, idle_fault, is_first_event};
ghost use Rattle.view_story.specs.Operations.{is_first_pinned};
ghost use Rattle.view_story.specs.Operations.{is_last_online, is_nowhere, is_on, is_open};
ghost use Rattle.view_story.specs.Operations.{is_other_active};
ghost use Rattle.view_story.specs.Operations.{is_other_online, is_owed_above, is_pinned_sooner};
ghost use Rattle.view_story.specs.Operations.{is_sooner};
ghost use Rattle.view_story.specs.Operations.{learned_answer, learned_arming, number_of};
ghost use Rattle.view_story.specs.Operations.{queued_fault};
ghost use Rattle.view_story.specs.Operations.{refusal, refused_fault, some_pinned_sooner};
ghost use Rattle.view_story.specs.Operations.{some_sooner};
ghost use Rattle.view_story.specs.Operations.{stay_fault, unless, with_state};

use crate::covers::is_active;
use crate::faults::Fault;
use crate::places::{
    Asked, Fit, ahead, fit_of, is_contested, level_in, ops_now, others_act, requeue, same_class,
};
use crate::runs::is_after;
use crate::seen::{CpuSeen, Point, Queued, Seen, State, TimerSeen, opening_of, up};
use tm_base::{Class, CpuId, Jiffy, NEVER, TimerId};
use tm_script::{Op, Script, What};

/// An answer to an operation, as a line shows it.
#[derive(Clone, Copy)]
pub enum Answer {
    Armed {
        timer: TimerId,
        class: Class,
        wheel: Jiffy,
    },
    Cancelled {
        timer: TimerId,
        home: CpuId,
    },
    NotQueued {
        timer: TimerId,
    },
    Idle {
        until: Jiffy,
    },
    Stay {
        first: Jiffy,
    },
    Woke,
    WentOffline,
    CameOnline,
    Refused {
        line: u32,
        number: u8,
    },
    RefusedQueued {
        line: u32,
        number: u8,
        holder: CpuId,
    },
}

/// The next operation of a CPU.
fn next_of(point: &Point, ops: &[Op], cpu: CpuId) -> Option<Op>
    ensures { result ≡ find (comes_next point.now cpu) ops.now }
{
    ops.iter()
        .copied()
        .find(|op| op.cpu.0 == cpu.0 && is_after(point, op))
}

/// Whether an operation is to be answered before another.
fn is_owed_above(point: &Point, op: &Op, answered: &Op) -> bool
    ensures { result ≡ is_owed_above point.now answered.now op.now }
{
    is_after(point, op)
        && if point.play {
            op.line < answered.line
        } else {
            op.cpu.0 < answered.cpu.0
        }
}

/// Whether some operation is.
fn some_owed_above(point: &Point, ops: &[Op], answered: &Op) -> bool
    ensures { result ≡ list_any (is_owed_above point.now answered.now) ops.now }
{
    ops.iter().any(|op| is_owed_above(point, op, answered))
}

/// The operation that a line of a CPU answers: the next of that CPU, where none of a lower CPU is
/// left; in the order of `play`, the next of all.
#[tactic(auto, unfolding(crate::specs::Operations::answered_op))]
fn answered_op(script: &Script, seen: &Seen, cpu: CpuId) -> Option<Op>
    ensures { result ≡ answered_op script.now seen.now cpu }
{
    let point = seen.point();
    let ops = ops_now(script, seen);
    match next_of(&point, ops, cpu) {
        Some(found) => {
            if some_owed_above(&point, ops, &found) {
                None
            } else {
                Some(found)
            }
        }
        None => None,
    }
}

/// The number of the refusal by a CPU's state, or 0: 1 it is idle, 2 active, 3 offline, 4 online.
fn refusal(what: What, state: State) -> u8
    ensures { result ≡ refusal what state }
{
    match what {
        What::Online => { if state.online { 4 } else { 0 } }
        What::Wake => {
            if !state.online {
                3
            } else if !state.idle {
                2
            } else {
                0
            }
        }
        What::Arm {
            timer: _,
            class: _,
            delay: _,
            job: _,
            arg: _,
        }
        | What::Cancel { timer: _ }
        | What::Idle
        | What::Offline => {
            if !state.online {
                3
            } else if state.idle {
                1
            } else {
                0
            }
        }
    }
}

/// Whether another CPU of the hierarchy is online.
fn is_other_online(script: &Script, cpu: &CpuSeen, own: CpuId) -> bool
    ensures { result ≡ is_other_online script.now own cpu.now }
{
    cpu.cpu.0 != own.0 && cpu.state.online && !script.isolated.has(cpu.cpu)
}

/// Whether some CPU is.
fn some_other_online(script: &Script, cpus: &[CpuSeen], own: CpuId) -> bool
    ensures { result ≡ list_any (is_other_online script.now own) cpus.now }
{
    cpus.iter().any(|c| is_other_online(script, c, own))
}

/// Whether a CPU is the last of the hierarchy that is online.
fn is_last_online(script: &Script, seen: &Seen, cpu: CpuId) -> bool
    ensures { result ≡ is_last_online script.now seen.now cpu }
{
    !script.isolated.has(cpu) && !some_other_online(script, seen.cpus(), cpu)
}

/// The number of the refusal of an operation but for timers that are queued, or 0.
#[tactic(auto, unfolding(crate::specs::Operations::number_of))]
fn number_of(script: &Script, seen: &Seen, op: &Op) -> u8
    ensures { result ≡ number_of script.now seen.now op.now }
{
    let by_state = refusal(op.what, seen.cpu(op.cpu).state);
    if by_state == 0 && matches!(op.what, What::Offline) && is_last_online(script, seen, op.cpu) {
        5
    } else {
        by_state
    }
}

/// Whether a timer is queued on a CPU, as the lines tell.
fn is_on(timer: &TimerSeen, cpu: CpuId) -> bool
    ensures { result ≡ is_on timer.now cpu }
{
    match timer.place {
        Some(queued) => timer.clear && queued.home.0 == cpu.0,
        None => false,
    }
}

/// Whether a timer is queued nowhere, as the lines tell.
fn is_nowhere(timer: &TimerSeen) -> bool
    ensures { result ≡ is_nowhere timer.now }
{
    timer.clear && timer.place.is_none()
}

/// A fault where this doesn't hold.
fn unless(holds: bool, fault: Fault) -> Option<Fault>
    ensures { result ≡ unless holds fault }
{
    if holds { None } else { Some(fault) }
}

/// Whether a timer of a CPU that isn't deferrable has an earlier wheel expiry.
fn is_sooner(timer: &TimerSeen, cpu: CpuId, than: Jiffy) -> bool
    ensures { result ≡ is_sooner cpu than timer.now }
{
    match timer.place {
        Some(queued) => {
            queued.home.0 == cpu.0
                && !same_class(queued.class, Class::Deferrable)
                && queued.wheel < than
        }
        None => false,
    }
}

/// Whether a pinned timer of a CPU has an earlier wheel expiry.
fn is_pinned_sooner(timer: &TimerSeen, cpu: CpuId, than: Jiffy) -> bool
    ensures { result ≡ is_pinned_sooner cpu than timer.now }
{
    match timer.place {
        Some(queued) => {
            queued.home.0 == cpu.0 && same_class(queued.class, Class::Pinned) && queued.wheel < than
        }
        None => false,
    }
}

/// Whether some timer of a CPU that isn't deferrable is due before a time.
fn some_sooner(seen: &Seen, cpu: CpuId, than: Jiffy) -> bool
    ensures { result ≡ some_sooner seen.now cpu than }
{
    seen.timers().iter().any(|t| is_sooner(t, cpu, than))
}

/// Whether some pinned one is.
fn some_pinned_sooner(seen: &Seen, cpu: CpuId, than: Jiffy) -> bool
    ensures { result ≡ some_pinned_sooner seen.now cpu than }
{
    seen.timers().iter().any(|t| is_pinned_sooner(t, cpu, than))
}

/// Whether a time is the first event of a CPU.
fn is_first_event(seen: &Seen, cpu: CpuId, first: Jiffy) -> bool
    ensures { result ≡ is_first_event seen.now cpu first }
{
    !some_sooner(seen, cpu, first) && (first == NEVER || some_sooner(seen, cpu, up(first)))
}

/// Whether a time is the first pinned event of a CPU.
fn is_first_pinned(seen: &Seen, cpu: CpuId, first: Jiffy) -> bool
    ensures { result ≡ is_first_pinned seen.now cpu first }
{
    !some_pinned_sooner(seen, cpu, first)
        && (first == NEVER || some_pinned_sooner(seen, cpu, up(first)))
}

/// Whether the events of a CPU may be others than the lines so far tell: where other CPUs act in
/// the same moment, where it slept as the moment began, and where a timer isn't clear.
fn is_open(script: &Script, seen: &Seen, cpu: CpuId) -> bool
    ensures { result ≡ is_open script.now seen.now cpu }
{
    let point = seen.point();
    seen.point().unclear > 0
        || others_act(script, seen, cpu)
        || !point.play && opening_of(&seen.cpu(cpu), point.time).idle
}

/// Whether another CPU of the hierarchy is active.
fn is_other_active(script: &Script, cpu: &CpuSeen, own: CpuId) -> bool
    ensures { result ≡ is_other_active script.now own cpu.now }
{
    cpu.cpu.0 != own.0 && is_active(script, cpu)
}

/// Whether some CPU is.
fn some_other_active(script: &Script, cpus: &[CpuSeen], own: CpuId) -> bool
    ensures { result ≡ list_any (is_other_active script.now own) cpus.now }
{
    cpus.iter().any(|c| is_other_active(script, c, own))
}

/// Whether a wakeup fits a CPU that goes idle: where another CPU of the hierarchy stays active, its
/// first pinned event; where it is the last or isolated, no later than its first event.
fn fits_wakeup(script: &Script, seen: &Seen, cpu: CpuId, until: Jiffy) -> bool
    ensures { result ≡ fits_wakeup script.now seen.now cpu until }
{
    if script.isolated.has(cpu) {
        is_first_event(seen, cpu, until)
    } else if some_other_active(script, seen.cpus(), cpu) {
        is_first_pinned(seen, cpu, until)
    } else {
        !some_sooner(seen, cpu, until)
    }
}

/// What is wrong with going idle.
fn idle_fault(script: &Script, seen: &Seen, cpu: CpuId, until: Jiffy) -> Option<Fault>
    ensures { result ≡ idle_fault script.now seen.now cpu until }
{
    if is_open(script, seen, cpu) {
        None
    } else if some_sooner(seen, cpu, ahead(seen.point().time, 2)) {
        Some(Fault::Soon)
    } else {
        unless(fits_wakeup(script, seen, cpu, until), Fault::Wakeup)
    }
}

/// What is wrong with staying.
fn stay_fault(script: &Script, seen: &Seen, cpu: CpuId, first: Jiffy) -> Option<Fault>
    ensures { result ≡ stay_fault script.now seen.now cpu first }
{
    if first > ahead(seen.point().time, 1) {
        Some(Fault::Late)
    } else if is_open(script, seen, cpu) {
        None
    } else {
        unless(is_first_event(seen, cpu, first), Fault::First)
    }
}

/// What is wrong with an arming.
fn arm_fault(
    script: &Script,
    seen: &Seen,
    cpu: CpuId,
    timer: TimerId,
    class: Class,
    asked: Asked,
) -> Option<Fault>
    ensures { result ≡ arm_fault script.now seen.now cpu timer class asked }
{
    if !is_nowhere(&seen.timer(timer)) && !is_contested(script, seen, timer, cpu) {
        Some(Fault::StillQueued)
    } else {
        unless(
            level_in(seen, cpu, class, seen.point().time, asked).is_some(),
            Fault::Wheel,
        )
    }
}

/// What is wrong with an answer that isn't a refusal.
#[tactic(auto, unfolding(crate::specs::Operations::done_fault))]
fn done_fault(script: &Script, seen: &Seen, op: &Op, answer: Answer) -> Option<Fault>
    ensures { result ≡ done_fault script.now seen.now op.now answer }
{
    let now = seen.point().time;
    match (op.what, answer) {
        (
            What::Arm {
                timer,
                class,
                delay,
                job: _,
                arg: _,
            },
            Answer::Armed {
                timer: shown,
                class: told,
                wheel,
            },
        ) => {
            if timer.0 != shown.0 || !same_class(class, told) {
                return Some(Fault::NoOperation);
            }
            let expires = ahead(now, delay);
            arm_fault(script, seen, op.cpu, timer, class, Asked { expires, wheel })
        }
        (What::Cancel { timer }, Answer::Cancelled { timer: shown, home }) => {
            if timer.0 != shown.0 {
                return Some(Fault::NoOperation);
            }
            unless(
                is_on(&seen.timer(timer), home) || is_contested(script, seen, timer, op.cpu),
                Fault::NotQueuedThere,
            )
        }
        (What::Cancel { timer }, Answer::NotQueued { timer: shown }) => {
            if timer.0 != shown.0 {
                return Some(Fault::NoOperation);
            }
            unless(
                is_nowhere(&seen.timer(timer)) || is_contested(script, seen, timer, op.cpu),
                Fault::StillQueued,
            )
        }
        (What::Idle, Answer::Idle { until }) => idle_fault(script, seen, op.cpu, until),
        (What::Idle, Answer::Stay { first }) => stay_fault(script, seen, op.cpu, first),
        (What::Wake, Answer::Woke) => None,
        (What::Offline, Answer::WentOffline) => None,
        (What::Online, Answer::CameOnline) => None,
        _ => Some(Fault::NoOperation),
    }
}

/// What is wrong with a refusal of this number.
fn refused_fault(op: &Op, expected: u8, line: u32, number: u8) -> Option<Fault>
    ensures { result ≡ refused_fault op.now expected line number }
{
    if op.line != line {
        Some(Fault::NoOperation)
    } else {
        unless(expected != 0 && expected == number, Fault::MayNotRefuse)
    }
}

/// What is wrong with a refusal since the timer is queued.
#[tactic(auto, unfolding(crate::specs::Operations::queued_fault))]
fn queued_fault(
    script: &Script,
    seen: &Seen,
    op: &Op,
    expected: u8,
    line: u32,
    number: u8,
    holder: CpuId,
) -> Option<Fault>
    ensures { result ≡ queued_fault script.now seen.now op.now expected line number holder }
{
    let What::Arm {
        timer,
        class: _,
        delay: _,
        job: _,
        arg: _,
    } = op.what
    else {
        return Some(Fault::MayNotRefuse);
    };
    if op.line != line {
        Some(Fault::NoOperation)
    } else if number != 6 || expected != 0 {
        Some(Fault::MayNotRefuse)
    } else {
        unless(
            is_on(&seen.timer(timer), holder) || is_contested(script, seen, timer, op.cpu),
            Fault::NotQueuedThere,
        )
    }
}

/// What is wrong with an answer to an operation.
#[tactic(auto, unfolding(crate::specs::Operations::answer_fault))]
fn answer_fault(script: &Script, seen: &Seen, op: &Op, answer: Answer) -> Option<Fault>
    ensures { result ≡ answer_fault script.now seen.now op.now answer }
{
    let expected = number_of(script, seen, op);
    match answer {
        Answer::Refused { line, number } => refused_fault(op, expected, line, number),
        Answer::RefusedQueued {
            line,
            number,
            holder,
        } => queued_fault(script, seen, op, expected, line, number, holder),
        _ => {
            if expected != 0 {
                Some(Fault::MustRefuse)
            } else {
                done_fault(script, seen, op, answer)
            }
        }
    }
}

/// A CPU whose state changes.
pub fn changed_cpu(cpu: CpuSeen, now: Jiffy, state: State) -> CpuSeen
    ensures { result ≡ changed_cpu cpu now state }
{
    CpuSeen {
        before: opening_of(&cpu, now),
        changed: now,
        state,
        ..cpu
    }
}

/// Keeps that a CPU is in another state, with no interrupt before a time.
#[tactic(auto, unfolding(crate::specs::Operations::with_state))]
pub fn put_state(seen: &mut Seen, cpu: CpuId, online: bool, idle: bool, quiet: Jiffy)
    ensures { seen.new ≡ with_state seen.old cpu online idle quiet }
{
    let own = seen.cpu(cpu);
    let now = seen.point().time;
    let after = changed_cpu(own, now, State { online, idle });
    seen.put_cpu(CpuSeen { quiet, ..after });
}

/// Keeps an arming.
#[tactic(auto, unfolding(crate::specs::Operations::learned_arming))]
fn learn_arming(script: &Script, seen: &mut Seen, op: &Op, wheel: Jiffy, turn: u64)
    ensures { seen.new ≡ learned_arming script.now seen.old op.now wheel turn }
{
    let What::Arm {
        timer,
        class,
        delay,
        job,
        arg,
    } = op.what
    else {
        return;
    };
    let now = seen.point().time;
    let expires = ahead(now, delay);
    let level = level_in(seen, op.cpu, class, now, Asked { expires, wheel });
    let in_order = is_nowhere(&seen.timer(timer));
    let queued = Queued {
        home: op.cpu,
        class,
        expires,
        wheel,
        level: level.unwrap_or(0),
        job,
        arg,
        turn,
    };
    let whole = Fit {
        in_order,
        settles: true,
    };
    let fit = fit_of(script, seen, timer, op.cpu, whole);
    requeue(seen, timer, Some(queued), op.cpu, fit);
}

/// Keeps what an answer tells.
#[tactic(auto, unfolding(crate::specs::Operations::learned_answer))]
fn learn_answer(script: &Script, seen: &mut Seen, op: &Op, answer: Answer, turn: u64)
    ensures { seen.new ≡ learned_answer script.now seen.old op.now answer turn }
{
    match answer {
        Answer::Armed {
            timer: _,
            class: _,
            wheel,
        } => learn_arming(script, seen, op, wheel, turn),
        Answer::Cancelled { timer, home } => {
            let whole = Fit {
                in_order: is_on(&seen.timer(timer), home),
                settles: true,
            };
            let fit = fit_of(script, seen, timer, op.cpu, whole);
            requeue(seen, timer, None, op.cpu, fit);
        }
        Answer::Idle { until } => put_state(seen, op.cpu, true, true, until),
        Answer::Woke => put_state(seen, op.cpu, true, false, NEVER),
        Answer::WentOffline => put_state(seen, op.cpu, false, false, NEVER),
        Answer::CameOnline => put_state(seen, op.cpu, true, false, NEVER),
        Answer::NotQueued { timer: _ }
        | Answer::Stay { first: _ }
        | Answer::Refused { line: _, number: _ }
        | Answer::RefusedQueued {
            line: _,
            number: _,
            holder: _,
        } => {}
    }
}

/// The point behind an answer.
fn answered(point: Point, op: &Op, answer: Answer) -> Point
    ensures { result ≡ point_answered point op.now answer }
{
    let gone = match answer {
        Answer::WentOffline => Some(op.cpu),
        _ => None,
    };
    Point {
        answered_cpu: op.cpu,
        answered: op.line,
        leaving: gone,
        dead: if gone.is_some() { gone } else { point.dead },
        ..point
    }
}

/// Takes the line of an answer.
#[tactic(auto, unfolding(crate::specs::Operations::answer_line_fault, crate::specs::Operations::after_answer))]
pub fn take_answer(
    script: &Script,
    seen: &mut Seen,
    cpu: CpuId,
    answer: Answer,
    turn: u64,
) -> Option<Fault>
    ensures fault { result ≡ answer_line_fault script.now seen.old cpu answer }
    ensures after { result ≡ None → seen.new ≡ after_answer script.now seen.old cpu answer turn }
{
    let Some(op) = answered_op(script, seen, cpu) else {
        return Some(Fault::NoOperation);
    };
    if let Some(fault) = answer_fault(script, seen, &op, answer) {
        return Some(fault);
    }
    learn_answer(script, seen, &op, answer, turn);
    seen.set_point(answered(seen.point(), &op, answer));
    None
}
