//! What a rule wanted of a line.

ghost use Rattle.std.specs.Prelude.{◌≡◌, ◌<◌, ◌++◌, OnOk};
ghost use Rattle.group_word.specs.State.{IsLawfulState};
ghost use Rattle.linux_seen.specs.Words.{exchanged};
ghost use Rattle.linux_rules.specs.Cpus.{is_elsewhere};
ghost use Rattle.linux_shown.specs.Wanted.{cpu_wanted, event_wanted, exchange_wanted};
ghost use Rattle.linux_shown.specs.Wanted.{going_wanted, kind_wanted, plain_wanted, rule_wanted};
ghost use Rattle.linux_shown.specs.Wanted.{state_made, state_wanted, step_wanted, teller_wanted};
ghost use Rattle.linux_shown.specs.Wanted.{walk_wanted};

use crate::facts::push_led;
use crate::pieces::push_known;
use group_word::{GroupState, activated, swapped};
use linux_lines::{CpuEvent, CpuKind, Exchange, Happening};
use linux_seen::Rule;
use linux_seen::seen::{Next, Seen, Walk, Word};
use linux_seen::walks::may_rest;
use linux_seen::words::state_of;
use text_words::push_bytes;
use tm_base::{CpuId, NoMemory};

/// A rule's own words, where no more can be said.
#[tactic(auto, unfolding(crate::specs::Wanted::plain_wanted))]
pub fn plain_wanted(rule: Rule) -> &'static [u8]
    ensures { result.now ≡ plain_wanted rule }
{
    match rule {
        Rule::Group =>
            b"  wanted: a migrator that is an active child, and none only where no child \
              is active\n",
        Rule::Tree => b"  wanted: that level, parent and number, and a parent one level above its \
              child\n",
        Rule::Node => b"  wanted: a parent of that node, or of none\n",
        Rule::Walk => b"  wanted: its leaf, or the parent of the group to which it came last\n",
        Rule::Exchange => b"  wanted: what the exchange makes of that state\n",
        Rule::Order => b"  wanted: an order of at most 40 late exchanges\n",
        Rule::Cpu => b"  wanted: a line that the CPU writes itself\n",
        Rule::Event => b"  wanted: a child that sleeps, its own first event, and next_expiry no \
              later than that\n",
        Rule::First => b"  wanted: next_expiry no later than that\n",
        Rule::Remote => b"  wanted: an event that is there and due\n",
        Rule::Wakeup => b"  wanted: that as the wakeup\n",
        Rule::Rest => b"  wanted: with this line, a bit that is set exactly where its child is \
              active\n",
        Rule::Told =>
            b"  wanted: with this line, a migrator above it that is awake, or a wakeup by \
              then\n",
        Rule::Timer => {
            b"  wanted: its bucket by the wheel, and a run once its base has come to that\n"
        }
    }
}

/// The state that an exchange makes of a lawful one.
fn exchanged(state: GroupState, exchange: &Exchange) -> GroupState
    requires lawful { IsLawfulState state }
    requires start { state.seq ≡ 0 }
    requires a_child { exchange.now.bit < 8 }
    ensures { result ≡ exchanged state exchange.now }
{
    if exchange.joins {
        let (next, _) = activated(state, exchange.bit);
        next
    } else {
        let stays = (exchange.active >> exchange.bit) & 1 == 1;
        swapped(state, exchange.bit, stays)
    }
}

/// The state that an exchange makes of a word that is known.
#[tactic(auto, unfolding(crate::specs::Wanted::state_made))]
fn state_made(word: Option<Word>, exchange: &Exchange) -> Option<GroupState>
    ensures { result ≡ state_made word exchange.now }
{
    let Some(known) = word else {
        return None;
    };
    let Some(state) = state_of(known) else {
        return None;
    };
    if exchange.bit < 8 {
        Some(exchanged(state, exchange))
    } else {
        None
    }
}

/// That state in words.
#[tactic(auto, using(std::proofs::lemmas::List::append_assoc), unfolding(crate::specs::Wanted::state_wanted))]
fn push_state(text: &mut Vec<u8>, state: Option<GroupState>) -> Result<(), NoMemory>
    ensures { OnOk result (text.new.items ≡ text.old.items ++ state_wanted state) }
{
    match state {
        Some(made) => {
            push_bytes(text, b"  wanted: ")?;
            push_led(text, made.migrator, made.active)?;
            push_bytes(text, b"\n")?;
        }
        None => push_bytes(text, plain_wanted(Rule::Exchange))?,
    }
    Ok(())
}

/// What an exchange makes of the group's state.
#[tactic(auto, unfolding(crate::specs::Wanted::exchange_wanted))]
fn push_exchange(text: &mut Vec<u8>, seen: &Seen, happening: &Happening) -> Result<(), NoMemory>
    ensures { OnOk result
        (text.new.items ≡ text.old.items ++ exchange_wanted seen.now happening.now) }
{
    match happening {
        Happening::Exchanged(exchange) => {
            let group = seen.group(exchange.place.group);
            push_state(text, state_made(group.word, exchange))?;
        }
        _ => push_bytes(text, plain_wanted(Rule::Exchange))?,
    }
    Ok(())
}

/// How a walk goes on.
fn going_wanted(next: Next) -> &'static [u8]
    ensures { result.now ≡ going_wanted next }
{
    if next.surely {
        b"  wanted: an exchange on that group\n"
    } else {
        b"  wanted: an exchange on that group, or the end of the walk\n"
    }
}

/// The next step of a walk.
#[tactic(auto, unfolding(crate::specs::Wanted::step_wanted))]
fn step_wanted(walk: Walk) -> &'static [u8]
    ensures { result.now ≡ step_wanted walk }
{
    match walk {
        Walk::Unknown => plain_wanted(Rule::Walk),
        Walk::Closed => b"  wanted: tmigr_cpu_active, or an exchange at its leaf\n",
        Walk::Rising(next) => going_wanted(next),
        Walk::Falling(next) => going_wanted(next),
        Walk::Ending => b"  wanted: the end of the walk (tmigr_cpu_idle, or the CPU leaves)\n",
        Walk::Hung(_) => b"  wanted: an exchange on that group, or at its leaf\n",
    }
}

/// The next step of a CPU's walk that wrote this.
#[tactic(auto, unfolding(crate::specs::Wanted::walk_wanted))]
fn walk_wanted(walk: Walk, happening: &Happening) -> &'static [u8]
    ensures { result.now ≡ walk_wanted walk happening.now }
{
    match happening {
        Happening::Handling(_) => if may_rest(walk) {
            plain_wanted(Rule::Walk)
        } else {
            step_wanted(walk)
        },
        _ => step_wanted(walk),
    }
}

/// Who may write such a line.
fn kind_wanted(kind: CpuKind) -> &'static [u8]
    ensures { result.now ≡ kind_wanted kind }
{
    match kind {
        CpuKind::Asleep | CpuKind::Offline => b"  wanted: a CPU that is awake\n",
        CpuKind::Online
        | CpuKind::Awake
        | CpuKind::NewTimer
        | CpuKind::StillAsleep
        | CpuKind::RunElsewhere => b"  wanted: a CPU that is asleep\n",
    }
}

/// Whether an event is one that a CPU tells of another.
fn is_elsewhere(kind: CpuKind) -> bool
    ensures { result ≡ is_elsewhere kind }
{
    matches!(kind, CpuKind::RunElsewhere)
}

/// Of whom a CPU may write such a line.
#[tactic(auto, unfolding(crate::specs::Wanted::teller_wanted))]
fn teller_wanted(own: CpuId, event: &CpuEvent) -> &'static [u8]
    ensures { result.now ≡ teller_wanted own event.now }
{
    if !is_elsewhere(event.kind) && event.cpu.0 != own.0 {
        plain_wanted(Rule::Cpu)
    } else {
        kind_wanted(event.kind)
    }
}

/// Which CPU a line may name.
#[tactic(auto, unfolding(crate::specs::Wanted::cpu_wanted))]
fn cpu_wanted(own: CpuId, happening: &Happening) -> &'static [u8]
    ensures { result.now ≡ cpu_wanted own happening.now }
{
    match happening {
        Happening::CpuTold(event) => teller_wanted(own, event),
        _ => plain_wanted(Rule::Cpu),
    }
}

/// The event that a CPU has to tell.
#[tactic(auto, using(std::proofs::lemmas::List::append_assoc), unfolding(crate::specs::Wanted::event_wanted))]
fn push_event(text: &mut Vec<u8>, seen: &Seen, happening: &Happening) -> Result<(), NoMemory>
    ensures { OnOk result
        (text.new.items ≡ text.old.items ++ event_wanted seen.now happening.now) }
{
    match happening {
        Happening::CpuTold(event) => {
            let named = seen.cpu(event.cpu);
            push_known(text, b"  wanted: nextevt ", named.event)?;
            push_bytes(text, b"\n")?;
        }
        _ => push_bytes(text, plain_wanted(Rule::Event))?,
    }
    Ok(())
}

/// What a rule wanted of the line of this CPU.
#[tactic(auto, unfolding(crate::specs::Wanted::rule_wanted))]
pub fn push_wanted(
    text: &mut Vec<u8>,
    seen: &Seen,
    rule: Rule,
    own: CpuId,
    happening: &Happening,
) -> Result<(), NoMemory>
    ensures { OnOk result
        (text.new.items ≡ text.old.items ++ rule_wanted rule seen.now own happening.now) }
{
    match rule {
        Rule::Exchange => push_exchange(text, seen, happening)?,
        Rule::Walk => push_bytes(text, walk_wanted(seen.cpu(own).walk, happening))?,
        Rule::Cpu => push_bytes(text, cpu_wanted(own, happening))?,
        Rule::Event => push_event(text, seen, happening)?,
        Rule::Group
        | Rule::Tree
        | Rule::Node
        | Rule::Order
        | Rule::First
        | Rule::Remote
        | Rule::Wakeup
        | Rule::Rest
        | Rule::Told
        | Rule::Timer => push_bytes(text, plain_wanted(rule))?,
    }
    Ok(())
}
