//! Queues: the events, the told expiries and the wakeups of which lines speak.

ghost use Rattle.std.specs.Prelude.{◌≡◌, OnOk};
ghost use Rattle.linux_rules.specs.Queues.{due_by, event_after, event_told, first_after, first_at};
ghost use Rattle.linux_rules.specs.Queues.{first_begun, first_found, is_found, is_kept, run_told};
ghost use Rattle.linux_rules.specs.Queues.{spoken, told_fault, with_event, with_group_event};
ghost use Rattle.linux_rules.specs.Queues.{with_hidden, with_leaf_event, words_fault};

use linux_lines::{CpuEvent, CpuKind, Exchange, NO_EXPIRY, Update};
use linux_seen::Rule;
use linux_seen::seen::{CpuSeen, GroupSeen, Run, Seen};
use tm_base::{CpuId, NoMemory};

/// A group's event in its parent after an exchange on the group.
pub fn event_after(exchange: &Exchange, event: Option<u64>) -> Option<u64>
    ensures { result ≡ event_after exchange.now event }
{
    if exchange.joins {
        Some(NO_EXPIRY)
    } else {
        event
    }
}

/// The wakeup that a CPU's walk has found, after its exchange.
pub fn first_begun(exchange: &Exchange, first: Option<u64>) -> Option<u64>
    ensures { result ≡ first_begun exchange.now first }
{
    if !exchange.joins && exchange.place.level == 0 {
        Some(NO_EXPIRY)
    } else {
        first
    }
}

/// A CPU's event in its leaf after it went idle and told this expiry.
fn event_told(expiry: u64, event: Option<u64>) -> Option<u64>
    ensures { result ≡ event_told expiry event }
{
    if expiry == NO_EXPIRY {
        Some(NO_EXPIRY)
    } else {
        event
    }
}

/// A CPU's queue side after an event that names it.
#[tactic(auto, unfolding(crate::specs::Queues::spoken))]
pub fn spoken(event: &CpuEvent, cpu: CpuSeen) -> CpuSeen
    ensures { result ≡ spoken event.now.kind event.now cpu }
{
    match event.kind {
        CpuKind::Online => CpuSeen {
            event: None,
            timer: None,
            wakeup: None,
            first: None,
            ..cpu
        },
        CpuKind::Awake => CpuSeen {
            event: Some(NO_EXPIRY),
            timer: None,
            wakeup: Some(NO_EXPIRY),
            first: None,
            ..cpu
        },
        CpuKind::Asleep => CpuSeen {
            event: event_told(event.expiry, cpu.event),
            timer: Some(event.expiry),
            wakeup: Some(event.wakeup),
            first: None,
            ..cpu
        },
        CpuKind::Offline => CpuSeen {
            event: Some(NO_EXPIRY),
            timer: None,
            wakeup: None,
            first: None,
            ..cpu
        },
        CpuKind::NewTimer => CpuSeen {
            timer: None,
            wakeup: None,
            first: Some(NO_EXPIRY),
            ..cpu
        },
        CpuKind::StillAsleep => CpuSeen {
            timer: Some(event.expiry),
            wakeup: Some(event.wakeup),
            first: None,
            ..cpu
        },
        CpuKind::RunElsewhere => CpuSeen {
            event: None,
            timer: None,
            wakeup: Some(NO_EXPIRY),
            ..cpu
        },
    }
}

/// Whose timers a CPU runs after it wrote an event's line.
pub fn run_told(event: &CpuEvent) -> Run
    ensures { result ≡ run_told event.now.kind event.now }
{
    match event.kind {
        CpuKind::RunElsewhere => Run::Of(event.cpu),
        CpuKind::Online
        | CpuKind::Awake
        | CpuKind::Asleep
        | CpuKind::Offline
        | CpuKind::NewTimer
        | CpuKind::StillAsleep => Run::Own,
    }
}

/// Whether a wakeup is the one that the CPU's walk has found, where that is known.
fn is_found(first: Option<u64>, wakeup: u64) -> bool
    ensures { result ≡ is_found first wakeup }
{
    match first {
        Some(expiry) => expiry == wakeup,
        None => true,
    }
}

/// Whether the leaf has what its CPU tells, where that is known and isn't due.
fn is_kept(clock: Option<u64>, event: Option<u64>, told: u64) -> bool
    ensures { result ≡ is_kept clock event told }
{
    let Some(now) = clock else {
        return true;
    };
    match event {
        Some(expiry) => expiry == told || told == NO_EXPIRY || told <= now,
        None => true,
    }
}

/// The rule that the expiry and the wakeup of an idle CPU break (`tmigr_cpu_deactivate`,
/// `tmigr_cpu_new_timer`).
fn words_fault(clock: Option<u64>, event: &CpuEvent, cpu: &CpuSeen) -> Option<Rule>
    ensures { result ≡ words_fault clock event.now cpu.now }
{
    if !is_found(cpu.first, event.wakeup) {
        Some(Rule::Wakeup)
    } else if !is_kept(clock, cpu.event, event.expiry) {
        Some(Rule::Event)
    } else {
        None
    }
}

/// The rule that a run of a CPU's timers by another CPU breaks (`tmigr_handle_remote_cpu`).
fn due_fault(clock: Option<u64>, event: Option<u64>) -> Option<Rule>
    ensures { result ≡ due_by clock event }
{
    let Some(now) = clock else {
        return None;
    };
    let Some(expiry) = event else {
        return None;
    };
    if expiry <= now {
        None
    } else {
        Some(Rule::Remote)
    }
}

/// The rule that an event of a CPU breaks by what it says of queues.
pub fn told_fault(clock: Option<u64>, event: &CpuEvent, cpu: &CpuSeen) -> Option<Rule>
    ensures { result ≡ told_fault event.now.kind clock event.now cpu.now }
{
    match event.kind {
        CpuKind::Asleep | CpuKind::StillAsleep => words_fault(clock, event, cpu),
        CpuKind::RunElsewhere => due_fault(clock, cpu.event),
        CpuKind::Online | CpuKind::Awake | CpuKind::Offline | CpuKind::NewTimer => None,
    }
}

/// Keeps what an update at a leaf shows.
#[tactic(auto, unfolding(crate::specs::Queues::with_leaf_event))]
fn learn_leaf_event(seen: &mut Seen, run: Run, own: CpuId, stored: u64) -> Result<(), NoMemory>
    ensures { OnOk result (seen.new ≡ with_leaf_event seen.old run own stored) }
{
    match run {
        Run::Unknown => Ok(()),
        Run::Own => {
            let writer = seen.cpu(own);
            seen.put_cpu(CpuSeen {
                event: Some(stored),
                ..writer
            })
        }
        Run::Of(cpu) => {
            let other = seen.cpu(cpu);
            seen.put_cpu(CpuSeen {
                event: Some(stored),
                timer: Some(stored),
                ..other
            })
        }
    }
}

/// Keeps what is known of a group's event in its parent.
#[tactic(auto, unfolding(crate::specs::Queues::with_group_event))]
fn learn_group_event(seen: &mut Seen, group: u64, event: Option<u64>) -> Result<(), NoMemory>
    ensures { OnOk result (seen.new ≡ with_group_event seen.old group event) }
{
    let known = seen.group(group);
    seen.put_group(GroupSeen { event, ..known })
}

/// Keeps the child's event after an update.
pub fn learn_event(seen: &mut Seen, run: Run, own: CpuId, update: &Update) -> Result<(), NoMemory>
    ensures { OnOk result (seen.new ≡ with_event seen.old run own update.now) }
{
    if update.child == 0 {
        learn_leaf_event(seen, run, own, update.expiries.stored)
    } else {
        learn_group_event(seen, update.child, Some(update.expiries.stored))
    }
}

/// Forgets what a run for another CPU may store above without a line.
pub fn forget_hidden(seen: &mut Seen, run: Run, group: u64) -> Result<(), NoMemory>
    ensures { OnOk result (seen.new ≡ with_hidden seen.old run group) }
{
    match run {
        Run::Own => Ok(()),
        Run::Unknown | Run::Of(_) => learn_group_event(seen, group, None),
    }
}

/// The wakeup that a walk finds at a group of this parent.
fn first_at(parent: Option<u64>, update: &Update, first: Option<u64>) -> Option<u64>
    ensures { result ≡ first_at parent update.now first }
{
    match parent {
        Some(pointer) => {
            if pointer == 0 {
                Some(update.expiries.first)
            } else {
                first
            }
        }
        None => None,
    }
}

fn first_found(parent: Option<u64>, update: &Update, first: Option<u64>) -> Option<u64>
    ensures { result ≡ first_found parent update.now first }
{
    if update.group_active == 0 {
        first_at(parent, update, first)
    } else {
        first
    }
}

/// The wakeup that a CPU's walk has found after an update (`tmigr_next_groupevt_expires`).
pub fn first_after(
    run: Run,
    parent: Option<u64>,
    update: &Update,
    first: Option<u64>,
) -> Option<u64>
    ensures { result ≡ first_after run parent update.now first }
{
    match run {
        Run::Own => first_found(parent, update, first),
        Run::Unknown | Run::Of(_) => first,
    }
}
