//! Exchanges on groups: the rules that one may break, and what is known after it.

ghost use Rattle.std.specs.Prelude.{◌≡◌, OnOk};
ghost use Rattle.linux_rules.specs.Exchanges.{bit_is_right, child_after, cpu_after, dated};
ghost use Rattle.linux_rules.specs.Exchanges.{exchange_fault, group_after, learned_exchange};
ghost use Rattle.linux_rules.specs.Exchanges.{left_by, place_fault, spot_of, told_by, word_if};
ghost use Rattle.linux_rules.specs.Exchanges.{learned_child, learned_group, learned_walk};
ghost use Rattle.linux_rules.specs.Exchanges.{source_seen, with_word, word_seen};

use crate::orders::{is_next, some_late, take};
use crate::queues::{event_after, first_begun};
use linux_lines::{Exchange, Place};
use linux_seen::Rule;
use linux_seen::seen::{CpuSeen, GroupSeen, Late, Run, Seen, Spot, Word};
use linux_seen::tree::{
    bit_fits, cpus_free, groups_free, is_below, node_fits, parent_fits, spot_fits,
};
use linux_seen::walks::{allows, came_from, walk_after};
use linux_seen::words::{state_of, word_after};
use tm_base::{CpuId, NoMemory};

/// Whether the child of an exchange has the number that it was seen with, and no other has it.
fn bit_is_right(seen: &Seen, cpu: CpuId, exchange: &Exchange) -> bool
    ensures { result ≡ bit_is_right seen.now cpu exchange.now }
{
    let own = seen.cpu(cpu);
    let group = exchange.place.group;
    match came_from(own.walk, exchange) {
        Some(from) => {
            if from == 0 {
                bit_fits(own.bit, exchange.bit) && cpus_free(seen.cpus(), group, exchange.bit, cpu)
            } else {
                let child = seen.group(from);
                bit_fits(child.bit, exchange.bit)
                    && groups_free(seen.groups(), group, exchange.bit, from)
            }
        }
        None => true,
    }
}

/// The rule of the tree that an exchange's line breaks.
fn place_fault(seen: &Seen, exchange: &Exchange) -> Option<Rule>
    ensures { result ≡ place_fault seen.now exchange.now }
{
    let group = seen.group(exchange.place.group);
    let parent = seen.group(exchange.parent);
    if !spot_fits(seen, &exchange.place)
        || !parent_fits(group.parent, exchange.parent)
        || !is_below(exchange.place.level, parent.spot)
    {
        Some(Rule::Tree)
    } else if !node_fits(exchange.place.node, parent.spot) {
        Some(Rule::Node)
    } else {
        None
    }
}

/// The rule that an exchange breaks by its own line, with no regard to the state before.
pub fn exchange_fault(seen: &Seen, cpu: CpuId, exchange: &Exchange) -> Option<Rule>
    ensures { result ≡ exchange_fault seen.now cpu exchange.now }
{
    if state_of(word_after(exchange)).is_none() {
        return Some(Rule::Group);
    }
    if let Some(rule) = place_fault(seen, exchange) {
        return Some(rule);
    }
    let own = seen.cpu(cpu);
    if !allows(&own, exchange) {
        Some(Rule::Walk)
    } else if !bit_is_right(seen, cpu, exchange) {
        Some(Rule::Tree)
    } else {
        None
    }
}

/// An exchange with its line, and the number of its CPU's line before.
fn dated(seen: &Seen, line: u64, cpu: CpuId, exchange: &Exchange) -> Late
    ensures { result ≡ dated seen.now line cpu exchange.now }
{
    Late {
        line,
        before: seen.cpu(cpu).last,
        cpu,
        exchange: *exchange,
    }
}

/// The word before, where the exchange may be made on it.
fn word_if(
    word: Option<Word>,
    cpus: &[CpuSeen],
    own: CpuId,
    group: u64,
    waiting: &[Late],
    late: &Late,
) -> Option<Word>
    ensures { result ≡ word_if word cpus.now own group waiting.now late.now }
{
    match word {
        Some(known) => {
            if is_next(cpus, own, group, known, waiting, late) {
                Some(known)
            } else {
                None
            }
        }
        None => None,
    }
}

/// The word on which an exchange is made, where it is known.
#[tactic(auto, unfolding(crate::specs::Exchanges::word_seen))]
fn word_seen(seen: &Seen, line: u64, cpu: CpuId, exchange: &Exchange) -> Option<Word>
    ensures { result ≡ word_seen seen.now line cpu exchange.now }
{
    let group = seen.group(exchange.place.group);
    let late = dated(seen, line, cpu, exchange);
    let at = exchange.place.group;
    word_if(group.word, seen.cpus(), cpu, at, seen.late(), &late)
}

/// Where a line says that a group stands.
pub fn spot_of(place: &Place) -> Spot
    ensures { result ≡ spot_of place.now }
{
    Spot {
        level: place.level,
        node: place.node,
    }
}

/// What is known of a group after an exchange on it, of this word.
fn group_after(group: GroupSeen, exchange: &Exchange, word: Word, late: bool) -> GroupSeen
    ensures { result ≡ group_after group exchange.now word late }
{
    GroupSeen {
        spot: Some(spot_of(&exchange.place)),
        parent: Some(exchange.parent),
        word: Some(word),
        late,
        event: event_after(exchange, group.event),
        ..group
    }
}

/// What is known of a child after an exchange that came from it.
fn child_after(child: GroupSeen, exchange: &Exchange) -> GroupSeen
    ensures { result ≡ child_after child exchange.now }
{
    GroupSeen {
        parent: Some(exchange.place.group),
        bit: Some(exchange.bit),
        told: true,
        ..child
    }
}

/// A CPU with its leaf and number, where the exchange came from the CPU itself.
fn told_by(own: CpuSeen, from: Option<u64>, exchange: &Exchange) -> CpuSeen
    ensures { result ≡ told_by own from exchange.now }
{
    match from {
        Some(pointer) => {
            if pointer == 0 {
                CpuSeen {
                    leaf: Some(exchange.place.group),
                    bit: Some(exchange.bit),
                    told: true,
                    ..own
                }
            } else {
                own
            }
        }
        None => own,
    }
}

/// The group at which a walk of deactivation has to end, since its exchange there left a migrator.
fn left_by(exchange: &Exchange) -> Option<u64>
    ensures { result ≡ left_by exchange.now }
{
    if !exchange.joins && exchange.migrator != 0 {
        Some(exchange.place.group)
    } else {
        None
    }
}

/// What is known of a CPU after its exchange on this word.
#[tactic(auto, unfolding(crate::specs::Exchanges::cpu_after))]
fn cpu_after(own: CpuSeen, line: u64, before: Option<Word>, exchange: &Exchange) -> CpuSeen
    ensures { result ≡ cpu_after own line before exchange.now }
{
    let told = told_by(own, came_from(own.walk, exchange), exchange);
    CpuSeen {
        walk: walk_after(own.walk, before, exchange),
        last: line,
        run: Run::Own,
        first: first_begun(exchange, own.first),
        left: left_by(exchange),
        slept: false,
        ..told
    }
}

/// Keeps what an exchange shows of the group from which it came.
#[tactic(auto, unfolding(crate::specs::Exchanges::learned_child))]
fn learn_child(seen: &mut Seen, from: Option<u64>, exchange: &Exchange) -> Result<(), NoMemory>
    ensures { OnOk result (seen.new ≡ learned_child seen.old from exchange.now) }
{
    let Some(pointer) = from else {
        return Ok(());
    };
    if pointer == 0 {
        return Ok(());
    }
    let child = seen.group(pointer);
    seen.put_group(child_after(child, exchange))
}

/// Keeps the word of an exchange's group, and whether an exchange on it is late.
#[tactic(auto, unfolding(crate::specs::Exchanges::with_word))]
fn learn_word(seen: &mut Seen, exchange: &Exchange, word: Word) -> Result<(), NoMemory>
    ensures { OnOk result (seen.new ≡ with_word seen.old exchange.now word) }
{
    let group = seen.group(exchange.place.group);
    let late = some_late(seen, exchange.place.group);
    seen.put_group(group_after(group, exchange, word, late))
}

/// Keeps what an exchange shows of its group.
fn learn_group(seen: &mut Seen, line: u64, cpu: CpuId, exchange: &Exchange) -> Result<(), NoMemory>
    ensures { OnOk result (seen.new ≡ learned_group seen.old line cpu exchange.now) }
{
    let group = seen.group(exchange.place.group);
    let late = dated(seen, line, cpu, exchange);
    let word = take(seen, group.word, cpu, exchange.place.group, late)?;
    learn_word(seen, exchange, word)?;
    Ok(())
}

/// Keeps what an exchange on this word shows of its CPU.
#[tactic(auto, unfolding(crate::specs::Exchanges::learned_walk))]
fn learn_walk(
    seen: &mut Seen,
    line: u64,
    cpu: CpuId,
    before: Option<Word>,
    exchange: &Exchange,
) -> Result<(), NoMemory>
    ensures { OnOk result (seen.new ≡ learned_walk seen.old line cpu before exchange.now) }
{
    let own = seen.cpu(cpu);
    seen.put_cpu(cpu_after(own, line, before, exchange))
}

/// The group from which an exchange comes, where it is known.
#[tactic(auto, unfolding(crate::specs::Exchanges::source_seen))]
fn source_seen(seen: &Seen, cpu: CpuId, exchange: &Exchange) -> Option<u64>
    ensures { result ≡ source_seen seen.now cpu exchange.now }
{
    let own = seen.cpu(cpu);
    came_from(own.walk, exchange)
}

/// Keeps what an exchange shows.
pub fn learn_exchange(
    seen: &mut Seen,
    line: u64,
    cpu: CpuId,
    exchange: &Exchange,
) -> Result<(), NoMemory>
    ensures { OnOk result (seen.new ≡ learned_exchange seen.old line cpu exchange.now) }
{
    let before = word_seen(seen, line, cpu, exchange);
    let from = source_seen(seen, cpu, exchange);
    learn_group(seen, line, cpu, exchange)?;
    learn_walk(seen, line, cpu, before, exchange)?;
    learn_child(seen, from, exchange)?;
    Ok(())
}
