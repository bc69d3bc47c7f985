//! How late the timers of other CPUs are run.

ghost use Rattle.std.specs.Prelude.{◌≡◌};
ghost use Rattle.std.specs.List.{list_any};
ghost use Rattle.linux_runs.specs.Runs.{counted_late, elsewhere, is_astray, is_before, is_lower};
ghost use Rattle.linux_runs.specs.Runs.{stopped_by, told_by};
ghost use Rattle.linux_runs.specs.Runs.{lateness, no_runs, run_counted, runs_after, word_astray};

use linux_lines::{CpuEvent, CpuKind, Happening, Line, NO_EXPIRY};
use linux_seen::counts::{counted, counted_if};
use linux_seen::rests::known_word;
use linux_seen::seen::{CpuSeen, Seen, Word};
use linux_seen::tree::same_pointer;
use linux_seen::words::{named_by, same_number};
use tm_base::CpuId;

/// One tick of a kernel with HZ = 1000, in nanoseconds.
pub const LATE_1_MS: u64 = 1_000_000;

/// One tick of a kernel with HZ = 250, in nanoseconds.
pub const LATE_4_MS: u64 = 4_000_000;

/// One tick of a kernel with HZ = 100, in nanoseconds.
pub const LATE_10_MS: u64 = 10_000_000;

/// Ten ticks of a kernel with HZ = 100, in nanoseconds.
pub const LATE_100_MS: u64 = 100_000_000;

/// Runs of other CPUs' timers (`tmigr_handle_remote_cpu`), by how long before their line the CPU's
/// event was due.
#[derive(Clone, Copy)]
pub struct Runs {
    /// Less than `LATE_1_MS`.
    pub in_1_ms: u64,
    /// Less than `LATE_4_MS`, and no less than that.
    pub in_4_ms: u64,
    /// Less than `LATE_10_MS`.
    pub in_10_ms: u64,
    /// Less than `LATE_100_MS`.
    pub in_100_ms: u64,
    /// As much as that or more.
    pub later: u64,
    /// The event wasn't seen.
    pub unsure: u64,
    /// Runs, among all of these, by a CPU that comes to a group which another child leads by what
    /// was seen: the exchange that gave it the group may have its line further on.
    pub astray: u64,
    /// Runs by the CPU whose timers they are.
    pub itself: u64,
    /// Runs for a CPU while a lower child of its leaf has an event of the same expiry.
    pub queued: u64,
    /// Walks of CPUs that fall asleep which ended at a group that their update found asleep
    /// (`tmigr_inactive_up`): the group's event may be carried by nobody.
    pub stopped: u64,
    /// Expiries that CPUs tell as they fall asleep, by lines with a time.
    pub told: u64,
    /// Those among them that are past by then: with the clock `mono` there are few.
    pub past: u64,
}

/// No run.
pub fn no_runs() -> Runs
    ensures { result ≡ no_runs }
{
    Runs {
        in_1_ms: 0,
        in_4_ms: 0,
        in_10_ms: 0,
        in_100_ms: 0,
        later: 0,
        unsure: 0,
        astray: 0,
        itself: 0,
        queued: 0,
        stopped: 0,
        told: 0,
        past: 0,
    }
}

/// How long an event has been due, in nanoseconds.
fn lateness(at: Option<u64>, event: Option<u64>) -> Option<u64>
    ensures { result ≡ lateness at event }
{
    let Some(now) = at else {
        return None;
    };
    let Some(expiry) = event else {
        return None;
    };
    if expiry <= now {
        Some(now - expiry)
    } else {
        None
    }
}

/// One run more, by how late it is.
fn counted_late(runs: Runs, late: Option<u64>) -> Runs
    ensures { result ≡ counted_late runs late }
{
    let Some(time) = late else {
        return Runs {
            unsure: counted(runs.unsure),
            ..runs
        };
    };
    if time < LATE_1_MS {
        Runs {
            in_1_ms: counted(runs.in_1_ms),
            ..runs
        }
    } else if time < LATE_4_MS {
        Runs {
            in_4_ms: counted(runs.in_4_ms),
            ..runs
        }
    } else if time < LATE_10_MS {
        Runs {
            in_10_ms: counted(runs.in_10_ms),
            ..runs
        }
    } else if time < LATE_100_MS {
        Runs {
            in_100_ms: counted(runs.in_100_ms),
            ..runs
        }
    } else {
        Runs {
            later: counted(runs.later),
            ..runs
        }
    }
}

/// Whether another child than this one leads a group of this word.
fn word_astray(word: Option<Word>, bit: Option<u8>) -> bool
    ensures { result ≡ word_astray word bit }
{
    let Some(known) = word else {
        return false;
    };
    if bit.is_none() || known.migrator == 0 {
        return false;
    }
    !same_number(named_by(known.migrator), bit)
}

/// Whether a CPU came last to a group which another child leads than the one from which it came
/// (`tmigr_check_migrator`).
fn is_astray(seen: &Seen, cpu: &CpuSeen) -> bool
    ensures { result ≡ is_astray seen.now cpu.now.looks }
{
    match cpu.looks {
        Some(look) => {
            let group = seen.group(look.group);
            word_astray(known_word(&group), look.bit)
        }
        None => false,
    }
}

fn is_before(a: Option<u8>, b: Option<u8>) -> bool
    ensures { result ≡ is_before a b }
{
    match a {
        Some(n) => match b {
            Some(m) => n < m,
            None => false,
        },
        None => false,
    }
}

/// Whether the other CPU is a lower child of the CPU's leaf, with an event of the same expiry.
fn is_lower(cpu: &CpuSeen, other: &CpuSeen) -> bool
    ensures { result ≡ is_lower cpu.now other.now }
{
    cpu.leaf.is_some()
        && cpu.event.is_some()
        && same_pointer(cpu.leaf, other.leaf)
        && same_pointer(cpu.event, other.event)
        && is_before(other.bit, cpu.bit)
}

fn some_lower(cpu: &CpuSeen, cpus: &[CpuSeen]) -> bool
    ensures { result ≡ list_any (is_lower cpu.now) cpus.now }
{
    cpus.iter().any(|other| is_lower(cpu, other))
}

/// One run more, by a line of this CPU with this time.
#[tactic(auto, unfolding(crate::specs::Runs::elsewhere))]
fn elsewhere(runs: Runs, seen: &Seen, own: CpuId, at: Option<u64>, event: &CpuEvent) -> Runs
    ensures { result ≡ elsewhere runs seen.now own at event.now }
{
    let named = seen.cpu(event.cpu);
    let runner = seen.cpu(own);
    let timed = counted_late(runs, lateness(at, named.event));
    Runs {
        astray: counted_if(is_astray(seen, &runner), timed.astray),
        itself: counted_if(event.cpu.0 == own.0, timed.itself),
        queued: counted_if(some_lower(&named, seen.cpus()), timed.queued),
        ..timed
    }
}

/// The counts of runs after a line, by what was seen before it.
#[tactic(auto, unfolding(crate::specs::Runs::runs_after))]
pub fn runs_after(runs: Runs, seen: &Seen, said: &Line) -> Runs
    ensures { result ≡ runs_after runs seen.now said.now }
{
    match said {
        Line::Told(cpu, at, happening) => match happening {
            Happening::CpuTold(event) => run_counted(runs, seen, *cpu, *at, event),
            _ => runs,
        },
        _ => runs,
    }
}

/// The counts of runs after an event of a CPU.
fn run_counted(runs: Runs, seen: &Seen, own: CpuId, at: Option<u64>, event: &CpuEvent) -> Runs
    ensures { result ≡ run_counted event.now.kind runs seen.now own at event.now }
{
    match event.kind {
        CpuKind::RunElsewhere => elsewhere(runs, seen, own, at, event),
        CpuKind::Asleep => told_by(stopped_by(runs, &seen.cpu(own)), at, event.expiry),
        CpuKind::Offline => stopped_by(runs, &seen.cpu(own)),
        _ => runs,
    }
}

/// Whether the walk of a CPU that falls asleep ended at a group that it found asleep is counted.
fn stopped_by(runs: Runs, cpu: &CpuSeen) -> Runs
    ensures { result ≡ stopped_by runs cpu.now }
{
    Runs {
        stopped: counted_if(cpu.slept, runs.stopped),
        ..runs
    }
}

/// An expiry that a CPU tells at this time as it falls asleep is counted.
fn told_by(runs: Runs, at: Option<u64>, expiry: u64) -> Runs
    ensures { result ≡ told_by runs at expiry }
{
    match at {
        Some(now) => Runs {
            told: counted_if(expiry != NO_EXPIRY, runs.told),
            past: counted_if(expiry < now, runs.past),
            ..runs
        },
        None => runs,
    }
}
