//! The lines of timers that ran.

ghost use Rattle.std.specs.Prelude.{◌≡◌, None};
ghost use Rattle.std.specs.List.{list_any};
ghost use Rattle.view_story.specs.Runs.{after_run, again_level, armed_again, home_clocks_after};
ghost use Rattle.view_story.specs.Runs.{hand_out_seen, is_its_turn, is_op_after, is_out_before};
ghost use Rattle.view_story.specs.Runs.{is_not_below, is_owed_before, is_reply, learned_run};
ghost use Rattle.view_story.specs.Runs.{may_interrupt, may_run_line, place_after, point_ran};
ghost use Rattle.view_story.specs.Runs.{run_place_fault};
ghost use Rattle.view_story.specs.Runs.{rank_after, rank_in, reply_fault, run_fault};
ghost use Rattle.view_story.specs.Runs.{run_line_fault, run_may_stand, shows_again};
ghost use Rattle.view_story.specs.Runs.{stands_behind, taken_out, told_place};

use crate::faults::Fault;
use crate::places::{
    Asked, Fit, ahead, fit_of, is_met, level_in, ops_now, rank_of, requeue, same_class,
};
use crate::seen::{Clocks, CpuSeen, Out, Point, Queued, Seen, opening_of, up};
use tm_base::{Class, CpuId, Jiffy, TimerId};
use tm_report::ShownReply;
use tm_script::{Op, Script};

/// The line of a timer that ran.
#[derive(Clone, Copy)]
pub struct RunLine {
    pub runner: CpuId,
    pub timer: TimerId,
    pub home: CpuId,
    pub wheel: Jiffy,
    pub reply: ShownReply,
}

/// Where the timer was queued, if the line tells of that place.
#[tactic(auto, unfolding(crate::specs::Runs::told_place))]
fn told_place(seen: &Seen, run: &RunLine) -> Option<Queued>
    ensures { result ≡ told_place seen.now run.now }
{
    let told = seen.timer(run.timer);
    match told.place {
        Some(queued) => {
            if told.clear && queued.home.0 == run.home.0 && queued.wheel == run.wheel {
                Some(queued)
            } else {
                None
            }
        }
        None => None,
    }
}

/// Whether a CPU may have an interrupt by a time: it was active, or its wakeup isn't later.
pub fn may_interrupt(cpu: &CpuSeen, now: Jiffy, by: Jiffy) -> bool
    ensures { result ≡ may_interrupt now by cpu.now }
{
    let opening = opening_of(cpu, now);
    opening.online && (!opening.idle || cpu.quiet <= by)
}

/// Whether the CPU may run timers of that class of that home: its own, or global ones of a CPU that
/// slept, where both are in the hierarchy.
fn may_run(script: &Script, seen: &Seen, run: &RunLine, class: Class) -> bool
    ensures { result ≡ may_run_line script.now seen.now run.now class }
{
    if run.runner.0 == run.home.0 {
        return true;
    }
    same_class(class, Class::Global)
        && !script.isolated.has(run.runner)
        && !script.isolated.has(run.home)
        && opening_of(&seen.cpu(run.home), seen.point().time).idle
}

/// Whether a timer went out of its base before another, by the order of hand-out.
fn is_before(out: &Out, queued: &Queued) -> bool
    ensures { result ≡ is_out_before out.now queued.now }
{
    if out.wheel != queued.wheel {
        out.wheel < queued.wheel
    } else if out.level != queued.level {
        out.level > queued.level
    } else {
        out.turn > queued.turn
    }
}

/// Whether the timer's turn has come in its base.
fn is_its_turn(seen: &Seen, queued: &Queued) -> bool
    ensures { result ≡ is_its_turn seen.now queued.now }
{
    match seen.cpu(queued.home).out {
        Some(out) => {
            out.at != seen.point().time
                || !same_class(out.class, queued.class)
                || is_before(&out, queued)
        }
        None => true,
    }
}

/// Whose timers a CPU runs: 0 its own pinned ones, 1 global, 2 deferrable, 3 those of others.
fn rank_in(run: &RunLine, class: Class) -> u8
    ensures { result ≡ rank_in run.now class }
{
    if run.runner.0 == run.home.0 {
        rank_of(class)
    } else {
        3
    }
}

/// Whether a job that armed its timer again shows the arming: on the CPU that ran it, in that
/// class, that far ahead; or was passed over, where another CPU may have armed it.
fn shows_again(script: &Script, seen: &Seen, run: &RunLine, class: Class, delay: u32) -> bool
    ensures { result ≡ shows_again script.now seen.now run.now class delay run.now.reply }
{
    match run.reply {
        ShownReply::Done | ShownReply::Mark(_) => false,
        ShownReply::Again {
            class: shown,
            wheel,
        } => { same_class(shown, class) && again_level(seen, run, class, delay, wheel).is_some() }
        ShownReply::Skip { cpu: _ } => is_met(script, seen, run.timer, run.runner),
    }
}

/// The level at which the timer is armed again.
fn again_level(seen: &Seen, run: &RunLine, class: Class, delay: u32, wheel: Jiffy) -> Option<u8>
    ensures { result ≡ again_level seen.now run.now class delay wheel }
{
    let now = seen.point().time;
    let expires = ahead(now, delay);
    level_in(seen, run.runner, class, now, Asked { expires, wheel })
}

/// Whether a reply is that of the timer's job.
#[tactic(auto, unfolding(crate::specs::Runs::is_reply))]
fn is_reply(script: &Script, seen: &Seen, run: &RunLine, queued: &Queued) -> bool
    ensures { result ≡ is_reply script.now seen.now run.now queued.now }
{
    match queued.job {
        0 => matches!(run.reply, ShownReply::Done),
        1 => shows_again(script, seen, run, Class::Global, queued.arg),
        2 => shows_again(script, seen, run, Class::Pinned, queued.arg),
        3 => match run.reply {
            ShownReply::Mark(mark) => mark == queued.arg,
            _ => false,
        },
        _ => false,
    }
}

/// What is wrong with the run of a timer that was queued so.
fn place_fault(script: &Script, seen: &Seen, run: &RunLine, queued: &Queued) -> Option<Fault>
    ensures { result ≡ run_place_fault script.now seen.now run.now queued.now }
{
    if !may_run(script, seen, run, queued.class) {
        Some(Fault::NotForRunner)
    } else if !is_its_turn(seen, queued) {
        Some(Fault::Turn)
    } else if !stands_behind(seen, run, queued.class) {
        Some(Fault::Order)
    } else {
        None
    }
}

/// Whether the run stands behind those of the runner's earlier bases.
fn stands_behind(seen: &Seen, run: &RunLine, class: Class) -> bool
    ensures { result ≡ stands_behind seen.now run.now class }
{
    let point = seen.point();
    match point.runner {
        Some(runner) => runner.0 != run.runner.0 || point.rank <= rank_in(run, class),
        None => true,
    }
}

/// Whether an operation comes behind the one that was answered last.
pub fn is_after(point: &Point, op: &Op) -> bool
    ensures { result ≡ is_op_after point.now op.now }
{
    if point.play || op.cpu.0 == point.answered_cpu.0 {
        op.line > point.answered
    } else {
        op.cpu.0 > point.answered_cpu.0 || point.answered == 0
    }
}

/// Whether an operation of a lower CPU is to be answered before a run of this one.
fn is_owed_before(point: &Point, op: &Op, runner: CpuId) -> bool
    ensures { result ≡ is_owed_before point.now runner op.now }
{
    is_after(point, op) && op.cpu.0 < runner.0
}

/// Whether some operation is.
fn some_owed_before(point: &Point, ops: &[Op], runner: CpuId) -> bool
    ensures { result ≡ list_any (is_owed_before point.now runner) ops.now }
{
    ops.iter().any(|op| is_owed_before(point, op, runner))
}

/// Whether a run of this CPU may stand here: behind the lines of lower CPUs, and before the answers
/// of its own operations; in the order of `play` before all answers.
fn run_may_stand(point: &Point, ops: &[Op], runner: CpuId) -> bool
    ensures { result ≡ run_may_stand point.now ops.now runner }
{
    if !is_not_below(point.runner, runner) {
        return false;
    }
    if point.answered == 0 {
        point.play || !some_owed_before(point, ops, runner)
    } else {
        !point.play && point.answered_cpu.0 < runner.0 && !some_owed_before(point, ops, runner)
    }
}

/// Whether a CPU isn't below the one before.
fn is_not_below(before: Option<CpuId>, cpu: CpuId) -> bool
    ensures { result ≡ is_not_below before cpu }
{
    match before {
        Some(other) => other.0 <= cpu.0,
        None => true,
    }
}

/// What is wrong with the line of a timer that ran.
#[tactic(auto, unfolding(crate::specs::Runs::run_fault))]
fn run_fault(script: &Script, seen: &Seen, run: &RunLine) -> Option<Fault>
    ensures { result ≡ run_fault script.now seen.now run.now }
{
    let point = seen.point();
    if !run_may_stand(&point, ops_now(script, seen), run.runner) {
        return Some(Fault::Order);
    }
    if run.wheel > point.time {
        return Some(Fault::Early);
    }
    if !may_interrupt(&seen.cpu(run.runner), point.time, point.time) {
        return Some(Fault::NoInterrupt);
    }
    match told_place(seen, run) {
        Some(queued) => place_fault(script, seen, run, &queued),
        None => {
            if is_met(script, seen, run.timer, run.runner) {
                None
            } else {
                Some(Fault::NotQueuedSo)
            }
        }
    }
}

/// The timer as it is queued behind its run.
fn place_after(seen: &Seen, run: &RunLine, turn: u64) -> Option<Queued>
    ensures { result ≡ place_after seen.now run.now turn }
{
    match run.reply {
        ShownReply::Again { class, wheel } => {
            let told = seen.timer(run.timer);
            Some(armed_again(told.place, seen, run, class, wheel, turn))
        }
        _ => None,
    }
}

/// The timer as it is queued again.
fn armed_again(
    place: Option<Queued>,
    seen: &Seen,
    run: &RunLine,
    class: Class,
    wheel: Jiffy,
    turn: u64,
) -> Queued
    ensures { result ≡ armed_again place seen.now run.now class wheel turn }
{
    let (job, arg) = match place {
        Some(queued) => (queued.job, queued.arg),
        None => (0, 0),
    };
    let level = again_level(seen, run, class, arg, wheel);
    Queued {
        home: run.runner,
        class,
        expires: ahead(seen.point().time, arg),
        wheel,
        level: level.unwrap_or(0),
        job,
        arg,
        turn,
    }
}

/// The clocks of a home behind a hand-out.
fn clocks_after(clocks: Clocks, class: Class, wheel: Jiffy) -> Clocks
    ensures { result ≡ home_clocks_after clocks class wheel }
{
    let clock = up(wheel);
    match class {
        Class::Pinned => Clocks {
            pinned: clocks.pinned.max(clock),
            ..clocks
        },
        Class::Global => Clocks {
            global: clocks.global.max(clock),
            ..clocks
        },
        Class::Deferrable => Clocks {
            deferrable: clocks.deferrable.max(clock),
            ..clocks
        },
    }
}

/// Keeps that a base of a home handed a timer out.
#[tactic(auto, unfolding(crate::specs::Runs::hand_out_seen))]
fn hand_out(seen: &mut Seen, queued: &Queued)
    ensures { seen.new ≡ hand_out_seen seen.old queued.now }
{
    let home = seen.cpu(queued.home);
    let now = seen.point().time;
    seen.put_cpu(CpuSeen {
        clocks: clocks_after(home.clocks, queued.class, queued.wheel),
        out: Some(Out {
            at: now,
            class: queued.class,
            wheel: queued.wheel,
            level: queued.level,
            turn: queued.turn,
        }),
        ..home
    });
}

/// The point behind a run.
fn ran(point: Point, run: &RunLine, rank: u8) -> Point
    ensures { result ≡ point_ran point run.now rank }
{
    Point {
        runner: Some(run.runner),
        rank,
        leaving: None,
        runs: up(point.runs),
        ..point
    }
}

/// Keeps that the timer went out of its base, where the line tells of it.
#[tactic(auto, unfolding(crate::specs::Runs::taken_out))]
fn take_out(seen: &mut Seen, run: &RunLine)
    ensures { seen.new ≡ taken_out seen.old run.now }
{
    if let Some(queued) = told_place(seen, run) {
        hand_out(seen, &queued);
    }
}

/// What is wrong with the reply, behind the hand-out.
#[tactic(auto, unfolding(crate::specs::Runs::reply_fault))]
fn reply_fault(script: &Script, seen: &Seen, run: &RunLine) -> Option<Fault>
    ensures { result ≡ reply_fault script.now seen.now run.now }
{
    match told_place(seen, run) {
        Some(queued) => {
            if is_reply(script, seen, run, &queued) {
                None
            } else {
                Some(Fault::Reply)
            }
        }
        None => None,
    }
}

/// The rank of a run, by where the timer was queued.
fn rank_after(place: Option<Queued>, run: &RunLine) -> u8
    ensures { result ≡ rank_after place run.now }
{
    match place {
        Some(queued) => rank_in(run, queued.class),
        None => 0,
    }
}

/// Keeps what the line of a timer that ran tells, behind the hand-out.
#[tactic(auto, unfolding(crate::specs::Runs::learned_run))]
fn learn_run(script: &Script, seen: &mut Seen, run: &RunLine, turn: u64)
    ensures { seen.new ≡ learned_run script.now seen.old run.now turn }
{
    let place = told_place(seen, run);
    let after = place_after(seen, run, turn);
    let rank = rank_after(place, run);
    let whole = Fit {
        in_order: place.is_some(),
        settles: after.is_none(),
    };
    let fit = fit_of(script, seen, run.timer, run.runner, whole);
    requeue(seen, run.timer, after, run.runner, fit);
    seen.set_point(ran(seen.point(), run, rank));
}

/// Takes the line of a timer that ran.
#[tactic(auto, unfolding(crate::specs::Runs::run_line_fault, crate::specs::Runs::after_run))]
pub fn take_run(script: &Script, seen: &mut Seen, run: &RunLine, turn: u64) -> Option<Fault>
    ensures fault { result ≡ run_line_fault script.now seen.old run.now }
    ensures after { result ≡ None → seen.new ≡ after_run script.now seen.old run.now turn }
{
    if let Some(fault) = run_fault(script, seen, run) {
        return Some(fault);
    }
    take_out(seen, run);
    if let Some(fault) = reply_fault(script, seen, run) {
        return Some(fault);
    }
    learn_run(script, seen, run, turn);
    None
}
