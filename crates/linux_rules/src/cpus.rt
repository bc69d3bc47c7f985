//! The other events: of CPUs, of queues, of the tree.

ghost use Rattle.std.specs.Prelude.{◌≡◌, OnOk};
ghost use Rattle.linux_rules.specs.Cpus.{active_after, cpu_fault, learned_cpu};
ghost use Rattle.linux_rules.specs.Cpus.{learned_cpu_link, learned_group_link, learned_place};
ghost use Rattle.linux_rules.specs.Cpus.{look_seen, looked, moved_on, number_at, number_from};
ghost use Rattle.linux_rules.specs.Cpus.{with_look};
ghost use Rattle.linux_rules.specs.Cpus.{with_hung, with_leaf, with_link, with_named, with_writer};
ghost use Rattle.linux_rules.specs.Cpus.{hung, is_elsewhere, is_level, must_rise, state_fault};
ghost use Rattle.linux_rules.specs.Cpus.{first_seen, learned_update, slept_at, with_first};
ghost use Rattle.linux_rules.specs.Cpus.{update_fault, walk_told};

use crate::exchanges::spot_of;
use crate::firsts::{is_child, some_sooner};
use crate::queues::{first_after, forget_hidden, learn_event, run_told, spoken, told_fault};
use linux_lines::{CpuEvent, CpuKind, Joining, NO_EXPIRY, Place, Update};
use linux_seen::Rule;
use linux_seen::rests::{is_asleep, is_awake};
use linux_seen::seen::{CpuSeen, GroupSeen, Look, Next, Run, Seen, Spot, Walk};
use linux_seen::tree::{parent_fits, same_pointer};
use linux_seen::walks::{may_end, may_rest, quiet};
use tm_base::{CpuId, NoMemory};

/// The rule that a CPU's event breaks, by what was seen of the CPU that is named and of the CPU's
/// walk that wrote the line.
fn state_fault(kind: CpuKind, active: Option<bool>, walk: Walk) -> Option<Rule>
    ensures { result ≡ state_fault kind active walk }
{
    match kind {
        CpuKind::Asleep | CpuKind::Offline => {
            if !may_end(walk) {
                Some(Rule::Walk)
            } else if is_asleep(active) {
                Some(Rule::Cpu)
            } else {
                None
            }
        }
        CpuKind::Online => {
            if may_rest(walk) {
                None
            } else {
                Some(Rule::Walk)
            }
        }
        CpuKind::Awake | CpuKind::NewTimer | CpuKind::StillAsleep | CpuKind::RunElsewhere => {
            if !may_rest(walk) {
                Some(Rule::Walk)
            } else if is_awake(active) {
                Some(Rule::Cpu)
            } else {
                None
            }
        }
    }
}

/// The rule that an event of a CPU breaks.
pub fn cpu_fault(seen: &Seen, own: CpuId, event: &CpuEvent) -> Option<Rule>
    ensures { result ≡ cpu_fault seen.now own event.now }
{
    let named = seen.cpu(event.cpu);
    let writer = seen.cpu(own);
    if !parent_fits(named.leaf, event.leaf) {
        return Some(Rule::Tree);
    }
    if !is_elsewhere(event.kind) && event.cpu.0 != own.0 {
        return Some(Rule::Cpu);
    }
    if let Some(rule) = state_fault(event.kind, named.active, writer.walk) {
        return Some(rule);
    }
    told_fault(seen.clock(), event, &named)
}

/// Whether the named CPU is awake after its event.
fn active_after(kind: CpuKind) -> Option<bool>
    ensures { result ≡ active_after kind }
{
    match kind {
        CpuKind::Awake => Some(true),
        CpuKind::Online => None,
        CpuKind::Asleep
        | CpuKind::Offline
        | CpuKind::NewTimer
        | CpuKind::StillAsleep
        | CpuKind::RunElsewhere => Some(false),
    }
}

/// The walk of the CPU that wrote an event's line.
fn walk_told(event: &CpuEvent, walk: Walk) -> Walk
    ensures { result ≡ walk_told event.now.kind event.now walk }
{
    match event.kind {
        CpuKind::Awake => Walk::Rising(Next {
            group: event.leaf,
            from: 0,
            surely: true,
        }),
        CpuKind::Asleep | CpuKind::Offline => Walk::Closed,
        CpuKind::Online | CpuKind::NewTimer | CpuKind::StillAsleep | CpuKind::RunElsewhere => {
            quiet(walk)
        }
    }
}

/// Keeps what an event shows of the CPU that it names.
#[tactic(auto, unfolding(crate::specs::Cpus::with_named))]
fn learn_named(seen: &mut Seen, event: &CpuEvent) -> Result<(), NoMemory>
    ensures { OnOk result (seen.new ≡ with_named seen.old event.now) }
{
    let named = seen.cpu(event.cpu);
    let told = CpuSeen {
        leaf: Some(event.leaf),
        active: active_after(event.kind),
        ..named
    };
    seen.put_cpu(spoken(event, told))
}

/// Keeps what an event shows of the CPU that wrote its line.
#[tactic(auto, unfolding(crate::specs::Cpus::with_writer))]
fn learn_writer(seen: &mut Seen, line: u64, own: CpuId, event: &CpuEvent) -> Result<(), NoMemory>
    ensures { OnOk result (seen.new ≡ with_writer seen.old line own event.now) }
{
    let writer = seen.cpu(own);
    seen.put_cpu(CpuSeen {
        walk: walk_told(event, writer.walk),
        last: line,
        run: run_told(event),
        ..writer
    })
}

/// Keeps what an event of a CPU shows.
pub fn learn_cpu(seen: &mut Seen, line: u64, own: CpuId, event: &CpuEvent) -> Result<(), NoMemory>
    ensures { OnOk result (seen.new ≡ learned_cpu seen.old line own event.now) }
{
    learn_named(seen, event)?;
    learn_writer(seen, line, own, event)?;
    Ok(())
}

/// Keeps that a CPU did something else than walk.
#[tactic(auto, unfolding(crate::specs::Cpus::moved_on))]
pub fn move_on(seen: &mut Seen, line: u64, own: CpuId) -> Result<(), NoMemory>
    ensures { OnOk result (seen.new ≡ moved_on seen.old line own) }
{
    let writer = seen.cpu(own);
    seen.put_cpu(CpuSeen {
        walk: quiet(writer.walk),
        last: line,
        run: Run::Own,
        ..writer
    })
}

/// The number of the child from which a CPU comes to a group, by the group to which it came before.
fn number_from(looks: Option<Look>, seen: &Seen, group: u64) -> Option<u8>
    ensures { result ≡ number_from looks seen.now group }
{
    let Some(look) = looks else {
        return None;
    };
    let below = seen.group(look.group);
    if same_pointer(below.parent, Some(group)) {
        below.bit
    } else {
        None
    }
}

/// The number of the child from which a CPU comes to a group.
fn number_at(seen: &Seen, cpu: &CpuSeen, group: u64) -> Option<u8>
    ensures { result ≡ number_at seen.now cpu.now group }
{
    if same_pointer(cpu.leaf, Some(group)) {
        cpu.bit
    } else {
        number_from(cpu.looks, seen, group)
    }
}

/// The group to which a CPU comes, with the number of the child from which it does.
#[tactic(auto, unfolding(crate::specs::Cpus::look_seen))]
fn look_seen(seen: &Seen, own: CpuId, group: u64) -> Look
    ensures { result ≡ look_seen seen.now own group }
{
    let writer = seen.cpu(own);
    let bit = number_at(seen, &writer, group);
    Look { group, bit }
}

/// Keeps that a CPU came there.
#[tactic(auto, unfolding(crate::specs::Cpus::with_look))]
fn learn_look(seen: &mut Seen, line: u64, own: CpuId, look: Look) -> Result<(), NoMemory>
    ensures { OnOk result (seen.new ≡ with_look seen.old line own look) }
{
    let writer = seen.cpu(own);
    seen.put_cpu(CpuSeen {
        walk: quiet(writer.walk),
        last: line,
        run: Run::Own,
        looks: Some(look),
        ..writer
    })
}

/// Keeps that a CPU came to a group to run timers of others.
pub fn look_at(seen: &mut Seen, line: u64, own: CpuId, group: u64) -> Result<(), NoMemory>
    ensures { OnOk result (seen.new ≡ looked seen.old line own group) }
{
    let look = look_seen(seen, own, group);
    learn_look(seen, line, own, look)
}

/// Whether an update finds the group asleep at which the CPU's walk has to end.
fn slept_at(update: &Update, cpu: &CpuSeen) -> bool
    ensures { result ≡ slept_at update.now cpu.now }
{
    update.group_active == 0 && same_pointer(cpu.left, Some(update.group))
}

/// Keeps that a CPU went on in its walk or its run by an update, and the wakeup that it has found.
#[tactic(auto, unfolding(crate::specs::Cpus::with_first))]
fn learn_first(
    seen: &mut Seen,
    line: u64,
    own: CpuId,
    first: Option<u64>,
    update: &Update,
) -> Result<(), NoMemory>
    ensures { OnOk result (seen.new ≡ with_first seen.old line own first update.now) }
{
    let writer = seen.cpu(own);
    seen.put_cpu(CpuSeen {
        walk: quiet(writer.walk),
        last: line,
        first,
        slept: slept_at(update, &writer),
        ..writer
    })
}

/// The wakeup that a CPU's walk has found after its update.
#[tactic(auto, unfolding(crate::specs::Cpus::first_seen))]
fn first_seen(seen: &Seen, own: CpuId, update: &Update) -> Option<u64>
    ensures { result ≡ first_seen seen.now own update.now }
{
    let writer = seen.cpu(own);
    let group = seen.group(update.group);
    first_after(writer.run, group.parent, update, writer.first)
}

/// Keeps what an update of a queue shows.
#[tactic(auto, unfolding(crate::specs::Cpus::learned_update))]
pub fn learn_update(seen: &mut Seen, line: u64, own: CpuId, update: &Update) -> Result<(), NoMemory>
    ensures { OnOk result (seen.new ≡ learned_update seen.old line own update.now) }
{
    let run = seen.cpu(own).run;
    let first = first_seen(seen, own, update);
    learn_event(seen, run, own, update)?;
    forget_hidden(seen, run, update.group)?;
    learn_first(seen, line, own, first, update)?;
    Ok(())
}

/// Whether a group's level is this, where it was seen.
fn is_level(spot: Option<Spot>, level: u8) -> bool
    ensures { result ≡ is_level spot level }
{
    match spot {
        Some(spot) => spot.level == level,
        None => true,
    }
}

/// Whether the CPU's walk of activation has to go on.
fn must_rise(walk: Walk) -> bool
    ensures { result ≡ must_rise walk }
{
    match walk {
        Walk::Rising(next) => next.surely,
        _ => false,
    }
}

/// Whether an event is one that a CPU tells of another.
fn is_elsewhere(kind: CpuKind) -> bool
    ensures { result ≡ is_elsewhere kind }
{
    matches!(kind, CpuKind::RunElsewhere)
}

/// The rule that an update of a group's queue breaks (`tmigr_update_events`).
pub fn update_fault(seen: &Seen, own: CpuId, update: &Update) -> Option<Rule>
    ensures { result ≡ update_fault seen.now own update.now }
{
    let group = seen.group(update.group);
    let writer = seen.cpu(own);
    let times = update.expiries;
    if !is_level(group.spot, update.level) || !is_child(seen, writer.run, own, update) {
        return Some(Rule::Tree);
    }
    if must_rise(writer.walk) {
        return Some(Rule::Walk);
    }
    if update.child_active != 0 {
        return Some(Rule::Event);
    }
    if times.stored == NO_EXPIRY {
        return None;
    }
    if times.stored < times.first || update.child != 0 && times.child_first != times.stored {
        return Some(Rule::Event);
    }
    if some_sooner(seen, writer.run, own, update) {
        return Some(Rule::First);
    }
    None
}

/// The walk of a CPU that has hung a group below a parent.
fn hung(child: u64, joining: &Joining) -> Walk
    ensures { result ≡ hung child joining.now }
{
    Walk::Hung(Next {
        group: joining.parent.group,
        from: child,
        surely: false,
    })
}

/// Keeps where a group stands.
#[tactic(auto, unfolding(crate::specs::Cpus::learned_place))]
pub fn learn_place(seen: &mut Seen, place: &Place) -> Result<(), NoMemory>
    ensures { OnOk result (seen.new ≡ learned_place seen.old place.now) }
{
    let group = seen.group(place.group);
    seen.put_group(GroupSeen {
        spot: Some(spot_of(place)),
        ..group
    })
}

/// Keeps a group's parent and number.
#[tactic(auto, unfolding(crate::specs::Cpus::with_link))]
fn learn_link(seen: &mut Seen, child: u64, joining: &Joining) -> Result<(), NoMemory>
    ensures { OnOk result (seen.new ≡ with_link seen.old child joining.now) }
{
    let group = seen.group(child);
    seen.put_group(GroupSeen {
        parent: Some(joining.parent.group),
        bit: Some(joining.bit),
        told: false,
        event: None,
        ..group
    })
}

/// Keeps that a CPU has hung a group below its parent.
#[tactic(auto, unfolding(crate::specs::Cpus::with_hung))]
fn learn_hung(
    seen: &mut Seen,
    line: u64,
    own: CpuId,
    child: u64,
    joining: &Joining,
) -> Result<(), NoMemory>
    ensures { OnOk result (seen.new ≡ with_hung seen.old line own child joining.now) }
{
    let writer = seen.cpu(own);
    seen.put_cpu(CpuSeen {
        walk: hung(child, joining),
        last: line,
        run: Run::Own,
        ..writer
    })
}

/// Keeps a new link of a group to its parent.
pub fn learn_group_link(
    seen: &mut Seen,
    line: u64,
    own: CpuId,
    child: u64,
    joining: &Joining,
) -> Result<(), NoMemory>
    ensures { OnOk result (seen.new ≡ learned_group_link seen.old line own child joining.now) }
{
    learn_place(seen, &joining.parent)?;
    learn_link(seen, child, joining)?;
    learn_hung(seen, line, own, child, joining)?;
    Ok(())
}

/// Keeps a CPU's leaf and number.
#[tactic(auto, unfolding(crate::specs::Cpus::with_leaf))]
fn learn_leaf(seen: &mut Seen, cpu: CpuId, joining: &Joining) -> Result<(), NoMemory>
    ensures { OnOk result (seen.new ≡ with_leaf seen.old cpu joining.now) }
{
    let known = seen.cpu(cpu);
    seen.put_cpu(CpuSeen {
        leaf: Some(joining.parent.group),
        bit: Some(joining.bit),
        told: false,
        event: None,
        ..known
    })
}

/// Keeps a new link of a CPU to its leaf.
pub fn learn_cpu_link(
    seen: &mut Seen,
    line: u64,
    own: CpuId,
    cpu: CpuId,
    joining: &Joining,
) -> Result<(), NoMemory>
    ensures { OnOk result (seen.new ≡ learned_cpu_link seen.old line own cpu joining.now) }
{
    learn_place(seen, &joining.parent)?;
    learn_leaf(seen, cpu, joining)?;
    move_on(seen, line, own)?;
    Ok(())
}
