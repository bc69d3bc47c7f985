//! The lines that close a moment in which a CPU went offline, and those behind the last moment.

ghost use Rattle.std.specs.Prelude.{◌≡◌};
ghost use Rattle.std.specs.List.{list_any};
ghost use Rattle.view_story.specs.Closing.{are_ends, control_fault, end_fault, handed_fault};
ghost use Rattle.view_story.specs.Closing.{is_left_queued};
ghost use Rattle.view_story.specs.Closing.{is_lower_active, is_lower_online, is_seen_online};
ghost use Rattle.view_story.specs.Closing.{is_untold};
ghost use Rattle.view_story.specs.Closing.{learned_control, learned_handed, learned_left};
ghost use Rattle.view_story.specs.Closing.{learned_moved};
ghost use Rattle.view_story.specs.Closing.{left_fault, may_control, moved_fault, moves_behind};
ghost use Rattle.view_story.specs.Closing.{place_moved_fault, settled};

use crate::covers::{is_active, some_active};
use crate::faults::Fault;
use crate::moments::is_owed;
use crate::operations::put_state;
use crate::places::{Asked, Fit, ahead, level_in, rank_of, requeue, same_class};
use crate::seen::{CpuSeen, Point, Queued, Seen, Stage, TimerSeen};
use tm_base::{Class, CpuId, Jiffy, NEVER, TimerId};
use tm_script::Script;

/// Whether a CPU of the hierarchy is online.
fn is_placed_online(script: &Script, cpu: &CpuSeen) -> bool
    ensures { result ≡ is_seen_online script.now cpu.now }
{
    cpu.state.online && !script.isolated.has(cpu.cpu)
}

/// Whether a CPU is online, in the hierarchy, and below another.
fn is_lower_online(script: &Script, cpu: &CpuSeen, than: CpuId) -> bool
    ensures { result ≡ is_lower_online script.now than cpu.now }
{
    cpu.cpu.0 < than.0 && is_placed_online(script, cpu)
}

/// Whether a CPU is active, in the hierarchy, and below another.
fn is_lower_active(script: &Script, cpu: &CpuSeen, than: CpuId) -> bool
    ensures { result ≡ is_lower_active script.now than cpu.now }
{
    cpu.cpu.0 < than.0 && is_active(script, cpu)
}

/// Whether some CPU is.
fn some_lower_online(script: &Script, cpus: &[CpuSeen], than: CpuId) -> bool
    ensures { result ≡ list_any (is_lower_online script.now than) cpus.now }
{
    cpus.iter().any(|c| is_lower_online(script, c, than))
}

/// Whether some CPU is active, in the hierarchy, and below another.
fn some_lower_active(script: &Script, cpus: &[CpuSeen], than: CpuId) -> bool
    ensures { result ≡ list_any (is_lower_active script.now than) cpus.now }
{
    cpus.iter().any(|c| is_lower_active(script, c, than))
}

/// What is wrong with the line of a first event that is handed on: it stands behind the `offline`
/// line of its CPU, and the other is the lowest that is online.
#[tactic(auto, unfolding(crate::specs::Closing::handed_fault))]
pub fn handed_fault(script: &Script, seen: &Seen, cpu: CpuId, to: CpuId) -> Option<Fault>
    ensures { result ≡ handed_fault script.now seen.now cpu to }
{
    let point = seen.point();
    match point.leaving {
        Some(gone) => {
            if gone.0 != cpu.0 {
                Some(Fault::Order)
            } else if script.isolated.has(cpu)
                || !is_placed_online(script, &seen.cpu(to))
                || some_lower_online(script, seen.cpus(), to)
            {
                Some(Fault::Control)
            } else {
                None
            }
        }
        None => Some(Fault::Order),
    }
}

/// Keeps that a first event was handed on.
#[tactic(auto, unfolding(crate::specs::Closing::learned_handed))]
pub fn learn_handed(seen: &mut Seen, to: CpuId)
    ensures { seen.new ≡ learned_handed seen.old to }
{
    let point = seen.point();
    seen.set_point(Point {
        leaving: None,
        handed: Some(to),
        ..point
    });
}

/// Keeps that the CPU to which a first event was handed is active, behind all operations of the
/// moment.
#[tactic(auto, unfolding(crate::specs::Closing::settled))]
pub fn settle(seen: &mut Seen)
    ensures { seen.new ≡ settled seen.old }
{
    let point = seen.point();
    if let Some(to) = point.handed {
        put_state(seen, to, true, false, NEVER);
        seen.set_point(Point {
            handed: None,
            ..point
        });
    }
}

/// Whether a CPU takes over timers: the lowest active one of the hierarchy, or where none is active
/// the lowest that is online.
#[tactic(auto, unfolding(crate::specs::Closing::may_control))]
fn may_control(script: &Script, seen: &Seen, cpu: CpuId) -> bool
    ensures { result ≡ may_control script.now seen.now cpu }
{
    let own = seen.cpu(cpu);
    if is_active(script, &own) {
        !some_lower_active(script, seen.cpus(), cpu)
    } else {
        is_placed_online(script, &own)
            && !some_active(script, seen.cpus())
            && !some_lower_online(script, seen.cpus(), cpu)
    }
}

/// What is wrong with the line of the CPU that takes over.
#[tactic(auto, unfolding(crate::specs::Closing::control_fault))]
pub fn control_fault(script: &Script, seen: &Seen, cpu: CpuId) -> Option<Fault>
    ensures { result ≡ control_fault script.now seen.now cpu }
{
    let point = seen.point();
    if is_owed(script, seen) {
        return Some(Fault::Skipped);
    }
    match (point.stage, point.dead) {
        (Stage::Tellers, Some(dead)) => {
            if seen.cpu(dead).timers == 0 || !may_control(script, seen, cpu) {
                Some(Fault::Control)
            } else {
                None
            }
        }
        _ => Some(Fault::Order),
    }
}

/// Keeps who takes over, and that it is active.
#[tactic(auto, unfolding(crate::specs::Closing::learned_control))]
pub fn learn_control(seen: &mut Seen, cpu: CpuId)
    ensures { seen.new ≡ learned_control seen.old cpu }
{
    let point = seen.point();
    put_state(seen, cpu, true, false, NEVER);
    seen.set_point(Point {
        stage: Stage::Moves,
        control: Some(cpu),
        moved_rank: 0,
        moved_turn: 0,
        ..point
    });
}

/// The line of a moved timer.
#[derive(Clone, Copy)]
pub struct MovedLine {
    pub timer: TimerId,
    pub from: CpuId,
    pub to: CpuId,
    pub wheel: Jiffy,
}

/// Whether a timer moves behind the one that moved last: pinned, global, deferrable, and in arming
/// order.
fn moves_behind(point: &Point, queued: &Queued) -> bool
    ensures { result ≡ moves_behind point.now queued.now }
{
    let rank = rank_of(queued.class);
    rank > point.moved_rank || rank == point.moved_rank && queued.turn > point.moved_turn
}

/// Whether the CPUs of a line are the one that went offline and the one that takes over.
fn are_ends(point: &Point, moved: &MovedLine) -> bool
    ensures { result ≡ are_ends point.now moved.now }
{
    match (point.dead, point.control) {
        (Some(dead), Some(control)) => dead.0 == moved.from.0 && control.0 == moved.to.0,
        _ => false,
    }
}

/// What is wrong with a timer that moves from where it is queued.
#[tactic(auto, unfolding(crate::specs::Closing::place_moved_fault))]
fn place_moved_fault(seen: &Seen, moved: &MovedLine, queued: &Queued) -> Option<Fault>
    ensures { result ≡ place_moved_fault seen.now moved.now queued.now }
{
    let point = seen.point();
    let asked = Asked {
        expires: queued.expires,
        wheel: moved.wheel,
    };
    if queued.home.0 != moved.from.0 {
        Some(Fault::Moved)
    } else if !moves_behind(&point, queued) {
        Some(Fault::Turn)
    } else if level_in(seen, moved.to, queued.class, ahead(point.time, 1), asked).is_none() {
        Some(Fault::Wheel)
    } else {
        None
    }
}

/// What is wrong with the line of a moved timer.
#[tactic(auto, unfolding(crate::specs::Closing::moved_fault))]
pub fn moved_fault(seen: &Seen, moved: &MovedLine) -> Option<Fault>
    ensures { result ≡ moved_fault seen.now moved.now }
{
    let point = seen.point();
    let told = seen.timer(moved.timer);
    if !matches!(point.stage, Stage::Moves) {
        return Some(Fault::Order);
    }
    if !are_ends(&point, moved) {
        return Some(Fault::Moved);
    }
    match told.place {
        Some(queued) => {
            if told.clear {
                place_moved_fault(seen, moved, &queued)
            } else {
                None
            }
        }
        None => { if told.clear { Some(Fault::Moved) } else { None } }
    }
}

/// Keeps that a timer was moved.
#[tactic(auto, unfolding(crate::specs::Closing::learned_moved))]
pub fn learn_moved(seen: &mut Seen, moved: &MovedLine, turn: u64)
    ensures { seen.new ≡ learned_moved seen.old moved.now turn }
{
    let told = seen.timer(moved.timer);
    let point = seen.point();
    if let Some(queued) = told.place {
        let asked = Asked {
            expires: queued.expires,
            wheel: moved.wheel,
        };
        let level = level_in(seen, moved.to, queued.class, ahead(point.time, 1), asked);
        let after = Queued {
            home: moved.to,
            wheel: moved.wheel,
            level: level.unwrap_or(0),
            turn,
            ..queued
        };
        let fit = Fit {
            in_order: told.clear,
            settles: false,
        };
        requeue(seen, moved.timer, Some(after), moved.to, fit);
        let point = seen.point();
        seen.set_point(Point {
            moved_rank: rank_of(queued.class),
            moved_turn: queued.turn,
            ..point
        });
    }
}

/// Whether a timer before this one, from another on, is queued and not told as left.
fn is_untold(timer: &TimerSeen, from: u16, to: u16) -> bool
    ensures { result ≡ is_untold from to timer.now }
{
    timer.timer.0 >= from && timer.timer.0 < to && timer.clear && timer.place.is_some()
}

/// Whether some timer is.
fn some_untold(timers: &[TimerSeen], from: u16, to: u16) -> bool
    ensures { result ≡ list_any (is_untold from to) timers.now }
{
    timers.iter().any(|t| is_untold(t, from, to))
}

/// Whether a timer is queued so.
fn is_left(timer: &TimerSeen, cpu: CpuId, class: Class, wheel: Jiffy) -> bool
    ensures { result ≡ is_left_queued timer.now cpu class wheel }
{
    match timer.place {
        Some(queued) => {
            !timer.clear
                || queued.home.0 == cpu.0
                    && same_class(queued.class, class)
                    && queued.wheel == wheel
        }
        None => !timer.clear,
    }
}

/// What is wrong with the line of a timer that is left.
#[tactic(auto, unfolding(crate::specs::Closing::left_fault))]
pub fn left_fault(
    seen: &Seen,
    timer: TimerId,
    cpu: CpuId,
    class: Class,
    wheel: Jiffy,
) -> Option<Fault>
    ensures { result ≡ left_fault seen.now timer cpu class wheel }
{
    let from = seen.point().left;
    if timer.0 < from {
        Some(Fault::Order)
    } else if some_untold(seen.timers(), from, timer.0) {
        Some(Fault::Untold)
    } else if !is_left(&seen.timer(timer), cpu, class, wheel) {
        Some(Fault::Left)
    } else {
        None
    }
}

/// Keeps that a timer was told as left.
#[tactic(auto, unfolding(crate::specs::Closing::learned_left))]
pub fn learn_left(seen: &mut Seen, timer: TimerId)
    ensures { seen.new ≡ learned_left seen.old timer }
{
    let point = seen.point();
    seen.set_point(Point {
        left: if timer.0 < 65535 {
            timer.0 + 1
        } else {
            timer.0
        },
        ..point
    });
}

/// What is wrong with the last line.
#[tactic(auto, unfolding(crate::specs::Closing::end_fault))]
pub fn end_fault(script: &Script, seen: &Seen, now: Jiffy) -> Option<Fault>
    ensures { result ≡ end_fault script.now seen.now now }
{
    let from = seen.point().left;
    if now != script.end {
        Some(Fault::NotTheEnd)
    } else if some_untold(seen.timers(), from, 65535) {
        Some(Fault::Untold)
    } else {
        None
    }
}
