//! Going from one moment to the next: what must have been told by then, and which times are
//! moments.

ghost use Rattle.std.specs.Prelude.{◌≡◌, position};
ghost use Rattle.std.specs.List.{list_any};
ghost use Rattle.view_story.specs.Covers.{is_owed, is_unmoved};
ghost use Rattle.view_story.specs.Moments.{few_come, few_interrupt, gone_to, moments_before};
ghost use Rattle.view_story.specs.Moments.{is_hotplug, is_listed};
ghost use Rattle.view_story.specs.Moments.{is_looked_for, is_missed, is_missed_on, is_moment};
ghost use Rattle.view_story.specs.Moments.{is_plain};
ghost use Rattle.view_story.specs.Moments.{later_by, leave_fault, makes_moment, moments_left};
ghost use Rattle.view_story.specs.Moments.{point_at};
ghost use Rattle.view_story.specs.Moments.{has_ops, is_from, some_ops, time_fault, was_active};

use crate::covers::some_uncovered;
use crate::faults::Fault;
use crate::places::{ahead, ops_now, same_class};
use crate::runs::{is_after, may_interrupt};
use crate::seen::{CpuSeen, Point, Queued, Seen, Stage, TimerSeen, opening_of};
use tm_base::{Class, CpuId, Jiffy};
use tm_script::{Moment, Op, Script, What};

/// More than a script has moments.
const MOST_PLACES: usize = 4_294_967_295;

/// Whether an operation takes a CPU offline or online.
fn is_hotplug(op: &Op) -> bool
    ensures { result ≡ is_hotplug op.now }
{
    matches!(op.what, What::Offline | What::Online)
}

/// Whether some operation does.
fn some_hotplug(ops: &[Op]) -> bool
    ensures { result ≡ list_any is_hotplug ops.now }
{
    ops.iter().any(|op| is_hotplug(op))
}

/// Whether at most one CPU may have an interrupt by a time.
fn few_interrupt(seen: &Seen, by: Jiffy) -> bool
    ensures { result ≡ few_interrupt seen.now by }
{
    let now = seen.point().time;
    seen.cpus()
        .iter()
        .filter(|c| may_interrupt(c, now, by))
        .count()
        <= 1
}

/// Whether at most one CPU may have an interrupt in a later moment, by a time.
fn few_come(seen: &Seen, by: Jiffy) -> bool
    ensures { result ≡ few_come seen.now by }
{
    seen.cpus().iter().filter(|c| makes_moment(c, by)).count() <= 1
}

/// Whether the moment is played as `play` does it, without threads: it has an operation that takes
/// a CPU offline or online, or none and at most one CPU with an interrupt.
#[tactic(auto, unfolding(crate::specs::Moments::is_plain))]
fn is_plain(script: &Script, seen: &Seen) -> bool
    ensures { result ≡ is_plain script.now seen.now }
{
    let point = seen.point();
    let ops = ops_now(script, seen);
    point.play || some_hotplug(ops) || ops.len() == 0 && few_interrupt(seen, point.time)
}

/// Whether a CPU was active as the moment began.
fn was_active(cpu: &CpuSeen, now: Jiffy) -> bool
    ensures { result ≡ was_active cpu.now now }
{
    let opening = opening_of(cpu, now);
    opening.online && !opening.idle
}

/// Whether a global timer of a CPU that sleeps must have run before a time: in a moment that was
/// played without threads, now or since.
#[tactic(auto, unfolding(crate::specs::Moments::is_looked_for))]
fn is_looked_for(script: &Script, seen: &Seen, queued: &Queued, to: Jiffy) -> bool
    ensures { result ≡ is_looked_for script.now seen.now queued.now to }
{
    let now = seen.point().time;
    if queued.wheel <= now && is_plain(script, seen) {
        return true;
    }
    let next = queued.wheel.max(ahead(now, 1));
    next < to && (seen.point().play || few_come(seen, next))
}

/// Whether a timer of an online CPU that is due before a time must have run.
#[tactic(auto, unfolding(crate::specs::Moments::is_missed_on))]
fn is_missed_on(script: &Script, seen: &Seen, cpu: &CpuSeen, queued: &Queued, to: Jiffy) -> bool
    ensures { result ≡ is_missed_on script.now seen.now cpu.now queued.now to }
{
    let now = seen.point().time;
    if same_class(queued.class, Class::Pinned) {
        return true;
    }
    if was_active(cpu, now) && queued.wheel <= now {
        return true;
    }
    if !cpu.state.idle {
        return to > ahead(now, 1);
    }
    same_class(queued.class, Class::Global) && is_looked_for(script, seen, queued, to)
}

/// Whether a timer must have run before a time.
fn is_missed(script: &Script, seen: &Seen, timer: &TimerSeen, to: Jiffy) -> bool
    ensures { result ≡ is_missed script.now seen.now to timer.now }
{
    match timer.place {
        Some(queued) => {
            if !timer.clear || queued.wheel >= to {
                return false;
            }
            let home = seen.cpu(queued.home);
            home.state.online && is_missed_on(script, seen, &home, &queued, to)
        }
        None => false,
    }
}

/// Whether some timer must have.
fn some_missed(script: &Script, seen: &Seen, to: Jiffy) -> bool
    ensures { result ≡ list_any (is_missed script.now seen.now to) seen.now.timers }
{
    seen.timers().iter().any(|t| is_missed(script, seen, t, to))
}

/// The moments of the script from the next one on.
fn moments_left<'a>(script: &'a Script, point: &Point) -> &'a [Moment]
    ensures { result.now ≡ moments_left script.now point.now }
{
    let all = script.moments.as_slice();
    if point.next <= all.len() {
        &all[point.next..]
    } else {
        &[]
    }
}

/// Whether a moment doesn't come before a time.
fn is_from(moment: &Moment, to: Jiffy) -> bool
    ensures { result ≡ is_from to moment.now }
{
    moment.at >= to
}

/// The place of the first moment that doesn't.
fn first_from(moments: &[Moment], to: Jiffy) -> Option<usize>
    ensures { result ≡ position (is_from to) moments.now }
{
    moments.iter().position(|m| is_from(m, to))
}

/// How many of these moments come before a time.
fn count_before(moments: &[Moment], to: Jiffy) -> usize
    ensures { result ≡ moments_before moments.now to }
{
    match first_from(moments, to) {
        Some(count) => count,
        None => moments.len(),
    }
}

/// Whether a moment has operations.
fn has_ops(moment: &Moment) -> bool
    ensures { result ≡ has_ops moment.now }
{
    moment.ops.len() != 0
}

/// Whether some moment has.
fn some_have_ops(moments: &[Moment]) -> bool
    ensures { result ≡ list_any has_ops moments.now }
{
    moments.iter().any(|m| has_ops(m))
}

/// Whether some of the first so many moments has operations.
fn some_ops(moments: &[Moment], count: usize) -> bool
    ensures { result ≡ some_ops moments.now count }
{
    count <= moments.len() && some_have_ops(&moments[..count])
}

/// Whether a CPU that went offline has timers still.
pub fn is_unmoved(seen: &Seen) -> bool
    ensures { result ≡ is_unmoved seen.now }
{
    match seen.point().dead {
        Some(cpu) => seen.cpu(cpu).timers > 0,
        None => false,
    }
}

/// Whether an operation of the moment has no answer yet.
pub fn is_owed(script: &Script, seen: &Seen) -> bool
    ensures { result ≡ is_owed script.now seen.now }
{
    let point = seen.point();
    ops_now(script, seen).iter().any(|op| is_after(&point, op))
}

/// What is missing where the lines leave a moment for a time.
#[tactic(auto, unfolding(crate::specs::Moments::leave_fault))]
pub fn leave_fault(script: &Script, seen: &Seen, to: Jiffy) -> Option<Fault>
    ensures { result ≡ leave_fault script.now seen.now to }
{
    let point = seen.point();
    let left = moments_left(script, &point);
    let count = count_before(left, to);
    if is_owed(script, seen) || some_ops(left, count) {
        Some(Fault::Skipped)
    } else if is_unmoved(seen) {
        Some(Fault::Unmoved)
    } else if point.listed && some_uncovered(seen, point.covered) {
        Some(Fault::Uncovered)
    } else if count > 0 && some_uncovered(seen, 0) {
        Some(Fault::Uncovered)
    } else if some_missed(script, seen, to) {
        Some(Fault::Missed)
    } else {
        None
    }
}

/// Whether a CPU makes a moment of a time: it is active, or its wakeup isn't later.
fn makes_moment(cpu: &CpuSeen, at: Jiffy) -> bool
    ensures { result ≡ makes_moment at cpu.now }
{
    cpu.state.online && (!cpu.state.idle || cpu.quiet <= at)
}

/// Whether some CPU makes a moment of a time.
fn some_make_moment(cpus: &[CpuSeen], at: Jiffy) -> bool
    ensures { result ≡ list_any (makes_moment at) cpus.now }
{
    cpus.iter().any(|c| makes_moment(c, at))
}

/// Whether the script has a moment at this time, among these.
fn is_listed(moments: &[Moment], at: Jiffy) -> bool
    ensures { result ≡ is_listed moments.now at }
{
    match moments.get(count_before(moments, at)) {
        Some(moment) => moment.at == at,
        None => false,
    }
}

/// A place of the script's moments, so many further.
fn later_by(next: usize, count: usize) -> usize
    ensures { result ≡ later_by next count }
{
    if next <= MOST_PLACES && count <= MOST_PLACES {
        next + count
    } else {
        next
    }
}

/// Whether a time is one of a moment.
#[tactic(auto, unfolding(crate::specs::Moments::is_moment))]
fn is_moment(script: &Script, seen: &Seen, at: Jiffy) -> bool
    ensures { result ≡ is_moment script.now seen.now at }
{
    let left = moments_left(script, &seen.point());
    at <= script.end
        && (at == script.end || is_listed(left, at) || some_make_moment(seen.cpus(), at))
}

/// The point as a moment at this time begins.
#[tactic(auto, unfolding(crate::specs::Moments::point_at))]
fn point_at(script: &Script, point: Point, at: Jiffy) -> Point
    ensures { result ≡ point_at script.now point at }
{
    let left = moments_left(script, &point);
    let listed = is_listed(left, at);
    let next = later_by(point.next, count_before(left, at));
    Point {
        time: at,
        listed,
        next: if listed { later_by(next, 1) } else { next },
        stage: Stage::Tellers,
        answered_cpu: CpuId(0),
        answered: 0,
        runner: None,
        rank: 0,
        leaving: None,
        dead: None,
        handed: None,
        control: None,
        moved_rank: 0,
        moved_turn: 0,
        covered: 0,
        ..point
    }
}

/// Goes on to the moment of a time, where it is another one.
#[tactic(auto, unfolding(crate::specs::Moments::gone_to))]
pub fn go_to(script: &Script, seen: &mut Seen, at: Jiffy)
    ensures { seen.new ≡ gone_to script.now seen.old at }
{
    let point = seen.point();
    if at != point.time {
        seen.set_point(point_at(script, point, at));
    }
}

/// What is wrong with a line at a time, before it is looked at.
#[tactic(auto, unfolding(crate::specs::Moments::time_fault))]
pub fn time_fault(script: &Script, seen: &Seen, at: Jiffy) -> Option<Fault>
    ensures { result ≡ time_fault script.now seen.now at }
{
    let point = seen.point();
    match point.stage {
        Stage::Lefts | Stage::Over => Some(Fault::NotTheEnd),
        Stage::Tellers | Stage::Moves | Stage::Covers => {
            if at < point.time {
                Some(Fault::BackInTime)
            } else if at == point.time {
                None
            } else if !is_moment(script, seen, at) {
                Some(Fault::NoMoment)
            } else {
                leave_fault(script, seen, at)
            }
        }
    }
}
