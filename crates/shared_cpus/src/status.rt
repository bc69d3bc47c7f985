//! What the steps of a CPU share: its word, a walk that begins, and what is kept of the pass that
//! is brought.

ghost use Rattle.std.specs.Prelude.{◌≡◌, ◌+◌, ◌^◌, ◌<◌, Some, is_some, length};
ghost use Rattle.std.specs.Prelude.{option_map, true};
ghost use Rattle.std.specs.Option.{ForSome};
ghost use Rattle.cpu_bases.specs.CpuBases.{CpuBases};
ghost use Rattle.cpu_word.specs.declared.state.TheConstants.{MARKER_LIMIT};
ghost use Rattle.tree_plan.specs.Paths.{group_at_of};
ghost use Rattle.shared_rule.specs.core_state.Shown.{as_cpu};
ghost use Rattle.shared_rule.specs.core_state.Status.{record_of};
ghost use Rattle.shared_rule.specs.Whole.{own_word};
ghost use Rattle.shared_rule.specs.Turns.{begun};
ghost use Rattle.shared_cpus.specs.Guests.{guest_cpu, one_more};

use cpu_word::{CpuState, pack_cpu};
use shared_rule::{BoxPart, CpuStatus, Guest, Run, RunName};
use tm_base::CpuId;
use walk_rules::{Stage, Walk, WalkKind, begun_where};
use wheel_core::TimerBase;

/// The CPU of a number.
fn cpu_of_number(number: Option<u16>) -> Option<CpuId>
    ensures { result ≡ option_map as_cpu number }
{
    match number {
        Some(number) => Some(CpuId(number)),
        None => None,
    }
}

/// The word of a CPU of this status, whatever its timers.
pub(crate) fn status_word(status: CpuStatus) -> u64
    requires wakeup { status.wakeup < 2 ^ 48 }
    requires mark { ForSome status.mark (λ c. c < MARKER_LIMIT) }
    ensures { (bases : CpuBases) → result ≡ own_word (record_of status bases) }
{
    pack_cpu(CpuState {
        online: status.online,
        idle: status.idle,
        inside: status.inside,
        remote: cpu_of_number(status.mark),
        wakeup: status.wakeup,
    })
}

/// Whether a CPU has a group.
fn has_group<N: RunName, B: TimerBase>(run: &Run<N, B>, cpu: CpuId) -> bool
    requires { cpu.0 < length N.opening.cpus }
    ensures { result ≡ is_some (group_at_of N.opening.tree cpu.0 0) }
{
    run.tree.group_at(cpu, 0).is_some()
}

/// The walk with which a part's CPU begins, to tell its first event
/// (`fetch_next_timer_interrupt`).
pub(crate) fn begun<N: RunName, B: TimerBase>(
    run: &Run<N, B>,
    part: &BoxPart<N, B>,
    kind: WalkKind,
    stage: Stage,
) -> Option<Walk>
    ensures { result ≡ begun N.opening part.now.box.cpu part.now.box.own kind stage }
{
    let events = part.bases.next();
    begun_where(
        has_group(run, part.cpu),
        kind,
        stage,
        events.pin,
        events.next,
    )
}

/// The CPU of the pass that is brought.
pub(crate) fn guest_cpu(guest: &Option<Guest>) -> CpuId
    requires { is_some guest.now ≡ true }
    ensures { option_map guest_cpu guest.now ≡ Some result }
{
    match guest {
        Some(guest) => guest.cpu,
        None => unreachable!(),
    }
}

/// One walk more was begun with the pass that is brought.
pub(crate) fn count_walk(guest: &mut Option<Guest>)
    requires { ForSome guest.old (λ g. g.walks + 1 < 2 ^ 32) }
    ensures { guest.new ≡ option_map one_more guest.old }
{
    match guest.take() {
        Some(found) => {
            *guest = Some(Guest {
                walks: found.walks + 1,
                ..found
            });
        },
        None => {},
    }
}
