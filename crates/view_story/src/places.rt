//! Where timers are queued, by whom they may be changed, and the wheel's rule.

ghost use Rattle.std.specs.Prelude.{◌≡◌};
ghost use Rattle.std.specs.List.{list_any};
ghost use Rattle.view_story.specs.Places.{ahead, class_clock_of, counted_in, counted_out};
ghost use Rattle.view_story.specs.Places.{place_entered};
ghost use Rattle.view_story.specs.Places.{explains, is_contested, is_hot, is_met, is_other};
ghost use Rattle.view_story.specs.Places.{is_queued_in};
ghost use Rattle.view_story.specs.Places.{arming_level_in, is_settled, left_behind, level_at};
ghost use Rattle.view_story.specs.Places.{level_by};
ghost use Rattle.view_story.specs.Places.{level_late, names_other, ops_at, others_act, rank_of};
ghost use Rattle.view_story.specs.Places.{is_same_class, requeued, timer_named, touched_by};
ghost use Rattle.view_story.specs.Places.{fit_of, is_shared, touched_other, unclear_after};

use crate::seen::{Clocks, CpuSeen, Queued, Seen, TimerSeen, Touch, down, opening_of, up};
use tm_base::{Class, CpuId, Jiffy, TIME_LIMIT, TimerId};
use tm_script::{Op, Script, What};
use wheel_core::wheel_expiry;

/// Whether two classes are the same.
pub fn same_class(one: Class, other: Class) -> bool
    ensures { result ≡ is_same_class one other }
{
    rank_of(one) == rank_of(other)
}

/// The place of a class in the order of an interrupt: 0 pinned, 1 global, 2 deferrable.
pub fn rank_of(class: Class) -> u8
    ensures { result ≡ rank_of class }
{
    match class {
        Class::Pinned => 0,
        Class::Global => 1,
        Class::Deferrable => 2,
    }
}

/// A time ahead of another, in jiffies.
pub fn ahead(now: Jiffy, delay: u32) -> Jiffy
    ensures { result ≡ ahead now delay }
{
    if now < TIME_LIMIT {
        now + u64::from(delay)
    } else {
        now
    }
}

/// Whether a timer is queued in the base of a CPU and a class.
pub fn is_queued_in(timer: &TimerSeen, cpu: CpuId, class: Class) -> bool
    ensures { result ≡ is_queued_in cpu class timer.now }
{
    match timer.place {
        Some(queued) => queued.home.0 == cpu.0 && same_class(queued.class, class),
        None => false,
    }
}

/// The clock of a class.
fn clock_of(clocks: Clocks, class: Class) -> Jiffy
    ensures { result ≡ class_clock_of clocks class }
{
    match class {
        Class::Pinned => clocks.pinned,
        Class::Global => clocks.global,
        Class::Deferrable => clocks.deferrable,
    }
}

/// The level of a timer that asks for an expiry and has this wheel expiry, in a base of a clock.
fn level_at(expires: Jiffy, clock: Jiffy, wheel: Jiffy) -> Option<u8>
    ensures { result ≡ level_at expires clock wheel }
{
    if expires >= TIME_LIMIT || clock >= TIME_LIMIT {
        return None;
    }
    let (found, level) = wheel_expiry(expires, clock);
    if found == wheel { Some(level) } else { None }
}

/// The level by either of two clocks.
fn level_by(expires: Jiffy, one: Jiffy, other: Jiffy, wheel: Jiffy) -> Option<u8>
    ensures { result ≡ level_by expires one other wheel }
{
    match level_at(expires, one, wheel) {
        Some(level) => Some(level),
        None => level_at(expires, other, wheel),
    }
}

/// Whether a timer that is due in the base explains a wheel expiry, by the base's clock at its own.
fn explains(timer: &TimerSeen, cpu: CpuId, class: Class, by: Jiffy, asked: Asked) -> bool
    ensures { result ≡ explains cpu class by asked timer.now }
{
    match timer.place {
        Some(queued) => {
            queued.home.0 == cpu.0
                && same_class(queued.class, class)
                && queued.wheel <= by
                && level_at(asked.expires, queued.wheel, asked.wheel).is_some()
        }
        None => false,
    }
}

/// An asked expiry and a wheel expiry, in jiffies.
#[derive(Clone, Copy)]
pub struct Asked {
    pub expires: Jiffy,
    pub wheel: Jiffy,
}

/// Whether some timer does.
fn some_explains(timers: &[TimerSeen], cpu: CpuId, class: Class, by: Jiffy, asked: Asked) -> bool
    ensures { result ≡ list_any (explains cpu class by asked) timers.now }
{
    timers.iter().any(|t| explains(t, cpu, class, by, asked))
}

/// The level where the CPU has slept up to this moment: its global base may have handed out a timer
/// by now or not, and a timer that is due may hold the base's clock back.
fn level_late(seen: &Seen, cpu: CpuId, class: Class, by: Jiffy, asked: Asked) -> Option<u8>
    ensures { result ≡ level_late seen.now cpu class by asked }
{
    match level_by(asked.expires, by, ahead(by, 1), asked.wheel) {
        Some(level) => Some(level),
        None => {
            if some_explains(seen.timers(), cpu, class, by, asked) {
                Some(0)
            } else {
                None
            }
        }
    }
}

/// The level at which a timer is armed in a base that is forwarded to a time, where the wheel's
/// rule gives the wheel expiry that is shown.
#[tactic(auto, unfolding(crate::specs::Places::arming_level_in))]
pub fn level_in(seen: &Seen, cpu: CpuId, class: Class, by: Jiffy, asked: Asked) -> Option<u8>
    ensures { result ≡ arming_level_in seen.now cpu class by asked }
{
    let own = seen.cpu(cpu);
    let clock = clock_of(own.clocks, class).max(by);
    match level_at(asked.expires, clock, asked.wheel) {
        Some(level) => Some(level),
        None => {
            if opening_of(&own, seen.point().time).idle {
                level_late(seen, cpu, class, by, asked)
            } else {
                None
            }
        }
    }
}

/// The timer that an operation names.
fn timer_named(op: &Op) -> Option<TimerId>
    ensures { result ≡ timer_named op.now }
{
    match op.what {
        What::Arm {
            timer,
            class: _,
            delay: _,
            job: _,
            arg: _,
        } => Some(timer),
        What::Cancel { timer } => Some(timer),
        What::Idle | What::Wake | What::Offline | What::Online => None,
    }
}

/// Whether an operation of another CPU names the timer.
fn names_other(op: &Op, timer: TimerId, cpu: CpuId) -> bool
    ensures { result ≡ names_other timer cpu op.now }
{
    match timer_named(op) {
        Some(named) => named.0 == timer.0 && op.cpu.0 != cpu.0,
        None => false,
    }
}

/// The operations of the script at the time of the lines.
#[tactic(auto, unfolding(crate::specs::Places::ops_at))]
pub fn ops_now<'a>(script: &'a Script, seen: &Seen) -> &'a [Op]
    ensures { result.now ≡ ops_at script.now seen.now.point }
{
    let point = seen.point();
    if !point.listed || point.next == 0 {
        return &[];
    }
    match script.moments.get(point.next - 1) {
        Some(moment) => moment.ops.as_slice(),
        None => &[],
    }
}

/// Whether an operation is that of another CPU.
fn is_other(op: &Op, cpu: CpuId) -> bool
    ensures { result ≡ is_other cpu op.now }
{
    op.cpu.0 != cpu.0
}

/// Whether some operation is.
fn some_others(ops: &[Op], cpu: CpuId) -> bool
    ensures { result ≡ list_any (is_other cpu) ops.now }
{
    ops.iter().any(|op| is_other(op, cpu))
}

/// Whether operations of other CPUs stand in the same moment, which may come before or after.
pub fn others_act(script: &Script, seen: &Seen, cpu: CpuId) -> bool
    ensures { result ≡ others_act script.now seen.now cpu }
{
    !seen.point().play && some_others(ops_now(script, seen), cpu)
}

/// Whether another CPU changed a timer in this moment.
fn touched_other(timer: &TimerSeen, now: Jiffy, cpu: CpuId) -> bool
    ensures { result ≡ touched_other timer.now now cpu }
{
    if timer.touched != now {
        return false;
    }
    match timer.touch {
        Touch::Nobody => false,
        Touch::One(by) => by.0 != cpu.0,
        Touch::Several => true,
    }
}

/// Whether a timer is queued and due, so that a CPU may run it in this moment.
fn is_hot(timer: &TimerSeen, now: Jiffy) -> bool
    ensures { result ≡ is_hot timer.now now }
{
    match timer.place {
        Some(queued) => queued.wheel <= now,
        None => false,
    }
}

/// Whether operations of other CPUs in this moment are of the same timer.
fn is_shared(script: &Script, seen: &Seen, timer: TimerId, cpu: CpuId) -> bool
    ensures { result ≡ is_shared script.now seen.now timer cpu }
{
    ops_now(script, seen)
        .iter()
        .any(|op| names_other(op, timer, cpu))
}

/// Whether operations of other CPUs in this moment may have come before or after the lines of this
/// one, and are of the same timer; or a line before left open where it is.
#[tactic(auto, unfolding(crate::specs::Places::is_met))]
pub fn is_met(script: &Script, seen: &Seen, timer: TimerId, cpu: CpuId) -> bool
    ensures { result ≡ is_met script.now seen.now timer cpu }
{
    let told = seen.timer(timer);
    let point = seen.point();
    if point.play {
        return false;
    }
    !told.clear || touched_other(&told, point.time, cpu) || is_shared(script, seen, timer, cpu)
}

/// Whether the lines of other CPUs in this moment may have come before or after those of this one,
/// and are of the same timer: such operations, or its run.
#[tactic(auto, unfolding(crate::specs::Places::is_contested))]
pub fn is_contested(script: &Script, seen: &Seen, timer: TimerId, cpu: CpuId) -> bool
    ensures { result ≡ is_contested script.now seen.now timer cpu }
{
    let told = seen.timer(timer);
    let point = seen.point();
    is_met(script, seen, timer, cpu) || !point.play && is_hot(&told, point.time)
}

/// Who changed a timer in this moment, with one CPU more.
fn touched_by(timer: &TimerSeen, now: Jiffy, cpu: CpuId) -> Touch
    ensures { result ≡ touched_by timer.now now cpu }
{
    if timer.touched != now {
        return Touch::One(cpu);
    }
    match timer.touch {
        Touch::Nobody => Touch::One(cpu),
        Touch::One(by) => {
            if by.0 == cpu.0 {
                Touch::One(cpu)
            } else {
                Touch::Several
            }
        }
        Touch::Several => Touch::Several,
    }
}

/// A CPU with the queued timer counted in.
fn counted_in(cpu: CpuSeen, class: Class) -> CpuSeen
    ensures { result ≡ counted_in cpu class }
{
    let globals = match class {
        Class::Global => up(cpu.globals),
        Class::Pinned | Class::Deferrable => cpu.globals,
    };
    CpuSeen {
        globals,
        timers: up(cpu.timers),
        ..cpu
    }
}

/// A CPU with the queued timer counted out.
fn counted_out(cpu: CpuSeen, class: Class) -> CpuSeen
    ensures { result ≡ counted_out cpu class }
{
    let globals = match class {
        Class::Global => down(cpu.globals),
        Class::Pinned | Class::Deferrable => cpu.globals,
    };
    CpuSeen {
        globals,
        timers: down(cpu.timers),
        ..cpu
    }
}

/// Counts a place in.
#[tactic(auto, unfolding(crate::specs::Places::place_entered))]
fn enter_place(seen: &mut Seen, place: Option<Queued>)
    ensures { seen.new ≡ place_entered seen.old place }
{
    if let Some(queued) = place {
        let own = seen.cpu(queued.home);
        seen.put_cpu(counted_in(own, queued.class));
    }
}

/// Counts a place out.
#[tactic(auto, unfolding(crate::specs::Places::left_behind))]
fn leave_place(seen: &mut Seen, place: Option<Queued>)
    ensures { seen.new ≡ left_behind seen.old place }
{
    if let Some(queued) = place {
        let own = seen.cpu(queued.home);
        seen.put_cpu(counted_out(own, queued.class));
    }
}

/// How many timers aren't clear, where one changes.
fn unclear_after(unclear: u64, before: bool, after: bool) -> u64
    ensures { result ≡ unclear_after unclear before after }
{
    if before && !after {
        up(unclear)
    } else if !before && after {
        down(unclear)
    } else {
        unclear
    }
}

/// How the line of a change fits to what was told of its timer.
#[derive(Clone, Copy)]
pub struct Fit {
    /// Whether the timer was where the line has it.
    pub in_order: bool,
    /// Whether the line tells all of the timer, so that in a later moment than that which left it
    /// open it settles where it is.
    pub settles: bool,
}

/// The fit of a line of a CPU that tells all of its timer, or not: where operations of other CPUs
/// in the moment are of the same timer it settles nothing.
pub fn fit_of(script: &Script, seen: &Seen, timer: TimerId, cpu: CpuId, whole: Fit) -> Fit
    ensures { result ≡ fit_of script.now seen.now timer cpu whole }
{
    Fit {
        settles: whole.settles && !is_shared(script, seen, timer, cpu),
        ..whole
    }
}

/// Whether a timer is clear behind a line.
fn is_settled(timer: &TimerSeen, now: Jiffy, fit: Fit) -> bool
    ensures { result ≡ is_settled timer.now now fit }
{
    if timer.clear {
        fit.in_order
    } else {
        fit.settles && timer.touched != now
    }
}

/// Keeps that a CPU has changed where a timer is queued, by a line that fits so.
#[tactic(auto, unfolding(crate::specs::Places::requeued))]
pub fn requeue(seen: &mut Seen, timer: TimerId, place: Option<Queued>, cpu: CpuId, fit: Fit)
    ensures { seen.new ≡ requeued seen.old timer place cpu fit }
{
    let told = seen.timer(timer);
    let point = seen.point();
    let clear = is_settled(&told, point.time, fit);
    leave_place(seen, told.place);
    enter_place(seen, place);
    seen.put_timer(TimerSeen {
        place,
        clear,
        touch: touched_by(&told, point.time, cpu),
        touched: point.time,
        ..told
    });
    seen.set_point(crate::seen::Point {
        unclear: unclear_after(point.unclear, told.clear, clear),
        ..point
    });
}
