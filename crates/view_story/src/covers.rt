//! The lines of covers.

ghost use Rattle.std.specs.Prelude.{◌≡◌};
ghost use Rattle.std.specs.List.{list_any};
ghost use Rattle.view_story.specs.Covers.{answers, cover_fault, has_earlier, has_wheel, is_active};
ghost use Rattle.view_story.specs.Covers.{is_first_global, learned_cover, learned_wakeup};
ghost use Rattle.view_story.specs.Covers.{may_be_wakeup, needs_between, needs_cover, needs_from};
ghost use Rattle.view_story.specs.Covers.{some_passed, some_uncovered, wakes_for, wheel_of};

use crate::faults::Fault;
use crate::moments::{is_owed, is_unmoved};
use crate::places::is_queued_in;
use crate::seen::{CpuSeen, Point, Seen, Stage, TimerSeen};
use tm_base::{Class, CpuId, Jiffy};
use tm_report::ShownCover;
use tm_script::Script;

/// Whether a CPU has to be covered: it is online and idle, and global timers are queued on it.
fn needs_cover(cpu: &CpuSeen) -> bool
    ensures { result ≡ needs_cover cpu.now }
{
    cpu.state.online && cpu.state.idle && cpu.globals > 0
}

/// Whether a CPU from this one on has to be covered.
fn needs_from(cpu: &CpuSeen, from: u16) -> bool
    ensures { result ≡ needs_from from cpu.now }
{
    cpu.cpu.0 >= from && needs_cover(cpu)
}

/// Whether a CPU between two has to be.
fn needs_between(cpu: &CpuSeen, from: u16, to: u16) -> bool
    ensures { result ≡ needs_between from to cpu.now }
{
    cpu.cpu.0 >= from && cpu.cpu.0 < to && needs_cover(cpu)
}

/// Whether some CPU from this one on has to be.
fn some_need_from(cpus: &[CpuSeen], from: u16) -> bool
    ensures { result ≡ list_any (needs_from from) cpus.now }
{
    cpus.iter().any(|c| needs_from(c, from))
}

/// Whether some CPU between two has to be.
fn some_need_between(cpus: &[CpuSeen], from: u16, to: u16) -> bool
    ensures { result ≡ list_any (needs_between from to) cpus.now }
{
    cpus.iter().any(|c| needs_between(c, from, to))
}

/// Whether some CPU from this one on has no cover yet; nothing is known where a timer isn't clear.
pub fn some_uncovered(seen: &Seen, from: u16) -> bool
    ensures { result ≡ some_uncovered seen.now from }
{
    seen.point().unclear == 0 && some_need_from(seen.cpus(), from)
}

/// Whether a CPU before this one has no cover yet.
fn some_passed(seen: &Seen, from: u16, to: u16) -> bool
    ensures { result ≡ some_passed seen.now from to }
{
    seen.point().unclear == 0 && some_need_between(seen.cpus(), from, to)
}

/// Whether a global timer of a CPU has this wheel expiry.
fn has_wheel(timer: &TimerSeen, cpu: CpuId, wheel: Jiffy) -> bool
    ensures { result ≡ has_wheel cpu wheel timer.now }
{
    is_queued_in(timer, cpu, Class::Global) && wheel_of(timer) == wheel
}

/// Whether a global timer of a CPU has an earlier one.
fn has_earlier(timer: &TimerSeen, cpu: CpuId, wheel: Jiffy) -> bool
    ensures { result ≡ has_earlier cpu wheel timer.now }
{
    is_queued_in(timer, cpu, Class::Global) && wheel_of(timer) < wheel
}

/// The wheel expiry of a timer, or 0.
pub fn wheel_of(timer: &TimerSeen) -> Jiffy
    ensures { result ≡ wheel_of timer.now }
{
    match timer.place {
        Some(queued) => queued.wheel,
        None => 0,
    }
}

/// Whether some timer has this wheel expiry.
fn some_have_wheel(timers: &[TimerSeen], cpu: CpuId, wheel: Jiffy) -> bool
    ensures { result ≡ list_any (has_wheel cpu wheel) timers.now }
{
    timers.iter().any(|t| has_wheel(t, cpu, wheel))
}

/// Whether some timer has an earlier one.
fn some_have_earlier(timers: &[TimerSeen], cpu: CpuId, wheel: Jiffy) -> bool
    ensures { result ≡ list_any (has_earlier cpu wheel) timers.now }
{
    timers.iter().any(|t| has_earlier(t, cpu, wheel))
}

/// Whether a wheel expiry is the first of a CPU's global timers.
fn is_first_global(seen: &Seen, cpu: CpuId, wheel: Jiffy) -> bool
    ensures { result ≡ is_first_global seen.now cpu wheel }
{
    some_have_wheel(seen.timers(), cpu, wheel) && !some_have_earlier(seen.timers(), cpu, wheel)
}

/// Whether a CPU of the hierarchy is active.
pub fn is_active(script: &Script, cpu: &CpuSeen) -> bool
    ensures { result ≡ is_active script.now cpu.now }
{
    cpu.state.online && !cpu.state.idle && !script.isolated.has(cpu.cpu)
}

/// Whether some CPU of the hierarchy is active.
pub fn some_active(script: &Script, cpus: &[CpuSeen]) -> bool
    ensures { result ≡ list_any (is_active script.now) cpus.now }
{
    cpus.iter().any(|c| is_active(script, c))
}

/// Whether a wakeup may be that of an idle CPU: the one that is known, or any.
fn may_be_wakeup(cpu: &CpuSeen, now: Jiffy, at: Jiffy) -> bool
    ensures { result ≡ may_be_wakeup cpu.now now at }
{
    cpu.state.online && cpu.state.idle && (cpu.quiet <= now || cpu.quiet == at)
}

/// Whether a cover may answer for a timer of a CPU: an active CPU, where the timer's CPU doesn't
/// wake in time by itself; or a CPU that wakes in time, itself or where none is active.
fn answers(script: &Script, seen: &Seen, cpu: CpuId, wheel: Jiffy, cover: ShownCover) -> bool
    ensures { result ≡ answers script.now seen.now cpu wheel cover }
{
    let now = seen.point().time;
    match cover {
        ShownCover::Migrator {
            level: _,
            place: _,
            cpu: migrator,
        } => {
            let own = seen.cpu(cpu);
            is_active(script, &seen.cpu(migrator))
                && !script.isolated.has(cpu)
                && (own.quiet <= now || own.quiet > wheel)
        }
        ShownCover::Wake { cpu: waker, at } => {
            at <= wheel
                && may_be_wakeup(&seen.cpu(waker), now, at)
                && (waker.0 == cpu.0 || wakes_for(script, seen, waker))
        }
    }
}

/// Whether a CPU may wake for others: it is in the hierarchy, and there no CPU is active.
fn wakes_for(script: &Script, seen: &Seen, waker: CpuId) -> bool
    ensures { result ≡ wakes_for script.now seen.now waker }
{
    !script.isolated.has(waker) && !some_active(script, seen.cpus())
}

/// What is wrong with the line of a cover.
#[tactic(auto, unfolding(crate::specs::Covers::cover_fault))]
pub fn cover_fault(
    script: &Script,
    seen: &Seen,
    cpu: CpuId,
    wheel: Jiffy,
    cover: ShownCover,
) -> Option<Fault>
    ensures { result ≡ cover_fault script.now seen.now cpu wheel cover }
{
    let point = seen.point();
    let own = seen.cpu(cpu);
    let clear = point.unclear == 0;
    if is_owed(script, seen) {
        Some(Fault::Skipped)
    } else if is_unmoved(seen) {
        Some(Fault::Unmoved)
    } else if cpu.0 < point.covered {
        Some(Fault::Order)
    } else if some_passed(seen, point.covered, cpu.0) {
        Some(Fault::Uncovered)
    } else if !point.listed || !own.state.online || !own.state.idle || clear && own.globals == 0 {
        Some(Fault::NoCover)
    } else if clear && !is_first_global(seen, cpu, wheel)
        || !answers(script, seen, cpu, wheel, cover)
    {
        Some(Fault::Answer)
    } else {
        None
    }
}

/// Keeps the wakeup that a cover shows.
#[tactic(auto, unfolding(crate::specs::Covers::learned_wakeup))]
fn learn_wakeup(seen: &mut Seen, cover: ShownCover)
    ensures { seen.new ≡ learned_wakeup seen.old cover }
{
    match cover {
        ShownCover::Migrator {
            level: _,
            place: _,
            cpu: _,
        } => {}
        ShownCover::Wake { cpu, at } => {
            let waker = seen.cpu(cpu);
            seen.put_cpu(CpuSeen { quiet: at, ..waker });
        }
    }
}

/// Keeps what the line of a cover tells.
#[tactic(auto, unfolding(crate::specs::Covers::learned_cover))]
pub fn learn_cover(seen: &mut Seen, cpu: CpuId, cover: ShownCover)
    ensures { seen.new ≡ learned_cover seen.old cpu cover }
{
    learn_wakeup(seen, cover);
    let point = seen.point();
    seen.set_point(Point {
        stage: Stage::Covers,
        covered: if cpu.0 < 65535 { cpu.0 + 1 } else { cpu.0 },
        ..point
    });
}
