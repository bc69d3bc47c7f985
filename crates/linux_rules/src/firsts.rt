//! An update's child, and the events that other children have in its group.

ghost use Rattle.std.specs.Prelude.{◌≡◌};
ghost use Rattle.std.specs.List.{list_any};
ghost use Rattle.linux_rules.specs.Firsts.{cpu_below, cpu_sooner, group_sooner, is_child, is_of};
ghost use Rattle.linux_rules.specs.Firsts.{is_above, is_on_way, is_sooner, some_sooner};

use linux_lines::Update;
use linux_seen::seen::{CpuSeen, GroupSeen, Look, Run, Seen};
use linux_seen::tree::{parent_fits, same_pointer};
use tm_base::CpuId;

/// Whether the CPU whose timers they are is in this leaf, as far as that is known.
fn cpu_below(run: Run, seen: &Seen, own: CpuId, group: u64) -> bool
    ensures { result ≡ cpu_below run seen.now own group }
{
    match run {
        Run::Unknown => true,
        Run::Own => parent_fits(seen.cpu(own).leaf, group),
        Run::Of(cpu) => parent_fits(seen.cpu(cpu).leaf, group),
    }
}

/// Whether the child of an update is below its group.
pub fn is_child(seen: &Seen, run: Run, own: CpuId, update: &Update) -> bool
    ensures { result ≡ is_child seen.now run own update.now }
{
    if update.child == 0 {
        cpu_below(run, seen, own, update.group)
    } else {
        parent_fits(seen.group(update.child).parent, update.group)
    }
}

/// Whether a group is above the one to which a CPU came last, as far as that is known.
fn is_above(look: Option<Look>, seen: &Seen, group: u64) -> bool
    ensures { result ≡ is_above look seen.now group }
{
    match look {
        Some(look) => parent_fits(seen.group(look.group).parent, group),
        None => true,
    }
}

/// Whether a CPU that looks after others may come to this group: to its leaf, and from there to
/// parents, as far as that is known (`tmigr_handle_remote`).
pub fn is_on_way(seen: &Seen, cpu: &CpuSeen, group: u64) -> bool
    ensures { result ≡ is_on_way seen.now cpu.now group }
{
    parent_fits(cpu.leaf, group) || is_above(cpu.looks, seen, group)
}

/// Whether this is the CPU whose event is stored, or that isn't known.
fn is_of(run: Run, own: CpuId, cpu: &CpuSeen) -> bool
    ensures { result ≡ is_of run own cpu.now }
{
    match run {
        Run::Unknown => true,
        Run::Own => cpu.cpu.0 == own.0,
        Run::Of(other) => cpu.cpu.0 == other.0,
    }
}

/// Whether an event is known, is to come at this time, and comes before this expiry.
fn is_sooner(now: u64, first: u64, event: Option<u64>) -> bool
    ensures { result ≡ is_sooner now first event }
{
    match event {
        Some(expiry) => now < expiry && expiry < first,
        None => false,
    }
}

/// Whether this is another CPU of the leaf, with such an event.
fn cpu_sooner(run: Run, own: CpuId, update: &Update, now: u64, cpu: &CpuSeen) -> bool
    ensures { result ≡ cpu_sooner run own update.now now cpu.now }
{
    !is_of(run, own, cpu)
        && same_pointer(cpu.leaf, Some(update.group))
        && is_sooner(now, update.expiries.first, cpu.event)
}

/// Whether this is another group below this one, with such an event.
fn group_sooner(update: &Update, now: u64, group: &GroupSeen) -> bool
    ensures { result ≡ group_sooner update.now now group.now }
{
    group.pointer != update.child
        && same_pointer(group.parent, Some(update.group))
        && is_sooner(now, update.expiries.first, group.event)
}

fn some_cpu(run: Run, own: CpuId, update: &Update, now: u64, cpus: &[CpuSeen]) -> bool
    ensures { result ≡ list_any (cpu_sooner run own update.now now) cpus.now }
{
    cpus.iter()
        .any(|cpu| cpu_sooner(run, own, update, now, cpu))
}

fn some_group(update: &Update, now: u64, groups: &[GroupSeen]) -> bool
    ensures { result ≡ list_any (group_sooner update.now now) groups.now }
{
    groups.iter().any(|group| group_sooner(update, now, group))
}

/// Whether some other child has an event that is to come, and comes before the group's cached first
/// (`tmigr_next_groupevt`).
pub fn some_sooner(seen: &Seen, run: Run, own: CpuId, update: &Update) -> bool
    ensures { result ≡ some_sooner seen.now run own update.now seen.now.clock }
{
    match seen.clock() {
        Some(now) => {
            some_cpu(run, own, update, now, seen.cpus()) || some_group(update, now, seen.groups())
        }
        None => false,
    }
}
