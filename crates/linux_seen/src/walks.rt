//! The walks of CPUs: where they begin, go on and end.

ghost use Rattle.std.specs.Prelude.{◌≡◌};
ghost use Rattle.linux_seen.specs.Walks.{allows, begins, came_from, fall, is_open, leads, may_end};
ghost use Rattle.linux_seen.specs.Walks.{going_on};
ghost use Rattle.linux_seen.specs.Walks.{may_join, may_leave, may_rest, next_of, quiet, rise};
ghost use Rattle.linux_seen.specs.Walks.{walk_after};

use crate::seen::{CpuSeen, Next, Walk, Word};
use crate::tree::parent_fits;
use crate::words::{named_by, same_number};
use linux_lines::Exchange;

/// Whether a walk of activation may make an exchange on this group.
pub fn may_join(walk: Walk, group: u64) -> bool
    ensures { result ≡ may_join walk group }
{
    match walk {
        Walk::Unknown => true,
        Walk::Rising(next) => next.group == group,
        Walk::Hung(next) => next.group == group,
        Walk::Closed | Walk::Falling(_) | Walk::Ending => false,
    }
}

/// Whether a walk of deactivation may begin here: at the CPU's leaf.
fn begins(cpu: &CpuSeen, exchange: &Exchange) -> bool
    ensures { result ≡ begins cpu.now exchange.now }
{
    exchange.place.level == 0 && parent_fits(cpu.leaf, exchange.place.group)
}

/// Whether a walk of deactivation may make this exchange.
pub fn may_leave(cpu: &CpuSeen, exchange: &Exchange) -> bool
    ensures { result ≡ may_leave cpu.now.walk cpu.now exchange.now }
{
    match cpu.walk {
        Walk::Unknown => true,
        Walk::Falling(next) => next.group == exchange.place.group,
        Walk::Closed | Walk::Hung(_) => begins(cpu, exchange),
        Walk::Rising(next) => !next.surely && begins(cpu, exchange),
        Walk::Ending => false,
    }
}

/// Whether the CPU's walk allows this exchange.
pub fn allows(cpu: &CpuSeen, exchange: &Exchange) -> bool
    ensures { result ≡ allows cpu.now exchange.now }
{
    if exchange.joins {
        may_join(cpu.walk, exchange.place.group)
    } else {
        may_leave(cpu, exchange)
    }
}

/// The group from which an exchange comes, 0 for the CPU itself; None where that isn't known.
pub fn came_from(walk: Walk, exchange: &Exchange) -> Option<u64>
    ensures { result ≡ came_from walk exchange.now }
{
    if exchange.place.level == 0 {
        return Some(0);
    }
    match walk {
        Walk::Rising(next) => Some(next.from),
        Walk::Falling(next) => Some(next.from),
        Walk::Hung(next) => Some(next.from),
        Walk::Unknown | Walk::Closed | Walk::Ending => None,
    }
}

/// Whether the child of an exchange is the migrator after it.
fn leads(exchange: &Exchange) -> bool
    ensures { result ≡ leads exchange.now }
{
    same_number(named_by(exchange.migrator), Some(exchange.bit))
}

fn next_of(exchange: &Exchange, surely: bool) -> Next
    ensures { result ≡ next_of exchange.now surely }
{
    Next {
        group: exchange.parent,
        from: exchange.place.group,
        surely,
    }
}

/// A walk of activation that goes on. One that hung a group stays open over an interrupt, since it
/// is made with interrupts on (`tmigr_setup_groups`).
fn going_on(walk: Walk, next: Next) -> Walk
    ensures { result ≡ going_on walk next }
{
    match walk {
        Walk::Hung(_) => Walk::Hung(next),
        _ => Walk::Rising(next),
    }
}

/// A walk of activation after an exchange on this word: it goes on exactly where there was no
/// migrator.
fn rise(walk: Walk, before: Option<Word>, exchange: &Exchange) -> Walk
    ensures { result ≡ rise walk before exchange.now }
{
    if exchange.parent == 0 {
        return Walk::Closed;
    }
    match before {
        Some(word) => {
            if word.migrator == 0 {
                going_on(walk, next_of(exchange, true))
            } else {
                Walk::Closed
            }
        }
        None => {
            if leads(exchange) {
                going_on(walk, next_of(exchange, false))
            } else {
                Walk::Closed
            }
        }
    }
}

/// A walk of deactivation after an exchange on this word: it goes on exactly where there was a
/// migrator and none is left.
fn fall(before: Option<Word>, exchange: &Exchange) -> Walk
    ensures { result ≡ fall before exchange.now }
{
    if exchange.parent == 0 || exchange.migrator != 0 {
        return Walk::Ending;
    }
    match before {
        Some(word) => {
            if word.migrator == 0 {
                Walk::Ending
            } else {
                Walk::Falling(next_of(exchange, true))
            }
        }
        None => Walk::Falling(next_of(exchange, false)),
    }
}

/// A CPU's walk after an exchange on this word.
pub fn walk_after(walk: Walk, before: Option<Word>, exchange: &Exchange) -> Walk
    ensures { result ≡ walk_after walk before exchange.now }
{
    if exchange.joins {
        rise(walk, before, exchange)
    } else {
        fall(before, exchange)
    }
}

/// Whether the CPU may do something else than walk.
pub fn may_rest(walk: Walk) -> bool
    ensures { result ≡ may_rest walk }
{
    match walk {
        Walk::Unknown | Walk::Closed | Walk::Hung(_) => true,
        Walk::Rising(next) => !next.surely,
        Walk::Falling(_) | Walk::Ending => false,
    }
}

/// Whether the CPU may fall asleep.
pub fn may_end(walk: Walk) -> bool
    ensures { result ≡ may_end walk }
{
    match walk {
        Walk::Unknown | Walk::Ending => true,
        Walk::Falling(next) => !next.surely,
        Walk::Closed | Walk::Hung(_) | Walk::Rising(_) => false,
    }
}

/// Whether a walk is under way.
pub fn is_open(walk: Walk) -> bool
    ensures { result ≡ is_open walk }
{
    match walk {
        Walk::Rising(_) | Walk::Falling(_) | Walk::Ending => true,
        Walk::Unknown | Walk::Closed | Walk::Hung(_) => false,
    }
}

/// A walk after its CPU did something else.
pub fn quiet(walk: Walk) -> Walk
    ensures { result ≡ quiet walk }
{
    match walk {
        Walk::Rising(_) => Walk::Closed,
        _ => walk,
    }
}
