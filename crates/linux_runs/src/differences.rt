//! What Linux is known to do otherwise than the rules, and what is no misfit.

ghost use Rattle.std.specs.Prelude.{◌≡◌, ◌||◌};
ghost use Rattle.std.specs.List.{list_all, list_any};
ghost use Rattle.linux_runs.specs.Differences.{cpu_later, differences_after, group_later, is_early};
ghost use Rattle.linux_runs.specs.Differences.{is_later, is_twice, keeps_too, no_differences};
ghost use Rattle.linux_runs.specs.Differences.{twice_by};

use linux_lines::{CpuEvent, CpuKind, Happening, Line, NO_EXPIRY, Update};
use linux_seen::counts::counted_if;
use linux_seen::seen::{CpuSeen, GroupSeen, Seen};
use linux_seen::tree::same_pointer;

/// How often Linux did otherwise.
#[derive(Clone, Copy)]
pub struct Differences {
    /// Updates after which a group's cached first expiry lies before each event that was seen in
    /// it: an ignored event stays in the queue until it comes to the head.
    pub early: u64,
    /// Idle CPUs that told a wakeup which another CPU keeps too.
    pub twice: u64,
}

/// None yet.
pub fn no_differences() -> Differences
    ensures { result ≡ no_differences }
{
    Differences { early: 0, twice: 0 }
}

/// Whether an event is known, and later than this.
fn is_later(first: u64, event: Option<u64>) -> bool
    ensures { result ≡ is_later first event }
{
    match event {
        Some(expiry) => first < expiry,
        None => false,
    }
}

fn cpu_later(group: u64, first: u64, cpu: &CpuSeen) -> bool
    ensures { result ≡ cpu_later group first cpu.now }
{
    !same_pointer(cpu.leaf, Some(group)) || is_later(first, cpu.event)
}

fn group_later(group: u64, first: u64, child: &GroupSeen) -> bool
    ensures { result ≡ group_later group first child.now }
{
    !same_pointer(child.parent, Some(group)) || is_later(first, child.event)
}

fn cpus_later(group: u64, first: u64, cpus: &[CpuSeen]) -> bool
    ensures { result ≡ list_all (cpu_later group first) cpus.now }
{
    cpus.iter().all(|c| cpu_later(group, first, c))
}

fn groups_later(group: u64, first: u64, groups: &[GroupSeen]) -> bool
    ensures { result ≡ list_all (group_later group first) groups.now }
{
    groups.iter().all(|g| group_later(group, first, g))
}

/// Whether a group's cached first expiry lies before each event that was seen in it.
fn is_early(seen: &Seen, update: &Update) -> bool
    ensures { result ≡ is_early seen.now update.now }
{
    let first = update.expiries.first;
    first < update.expiries.stored
        && cpus_later(update.group, first, seen.cpus())
        && groups_later(update.group, first, seen.groups())
}

/// Whether another CPU keeps the wakeup that a CPU tells.
fn keeps_too(event: &CpuEvent, cpu: &CpuSeen) -> bool
    ensures { result ≡ keeps_too event.now cpu.now }
{
    cpu.cpu.0 != event.cpu.0 && same_pointer(cpu.wakeup, Some(event.wakeup))
}

fn some_keeps(event: &CpuEvent, cpus: &[CpuSeen]) -> bool
    ensures { result ≡ list_any (keeps_too event.now) cpus.now }
{
    cpus.iter().any(|c| keeps_too(event, c))
}

fn is_twice(seen: &Seen, event: &CpuEvent) -> bool
    ensures { result ≡ is_twice seen.now event.now }
{
    event.wakeup != NO_EXPIRY && some_keeps(event, seen.cpus())
}

fn twice_by(seen: &Seen, event: &CpuEvent) -> bool
    ensures { result ≡ twice_by event.now.kind seen.now event.now }
{
    match event.kind {
        CpuKind::Asleep | CpuKind::StillAsleep => is_twice(seen, event),
        _ => false,
    }
}

/// The counts of differences after a line, by what is seen then.
#[tactic(auto, unfolding(crate::specs::Differences::differences_after))]
pub fn differences_after(counts: Differences, seen: &Seen, said: &Line) -> Differences
    ensures { result ≡ differences_after counts seen.now said.now }
{
    match said {
        Line::Told(_, _, happening) => match happening {
            Happening::CpuTold(event) => Differences {
                twice: counted_if(twice_by(seen, event), counts.twice),
                ..counts
            },
            Happening::Updated(update) => Differences {
                early: counted_if(is_early(seen, update), counts.early),
                ..counts
            },
            _ => counts,
        },
        _ => counts,
    }
}
