//! What is shown behind a misfit.

ghost use Rattle.std.specs.Prelude.{◌≡◌, ◌==◌, ◌++◌, find, OnOk};
ghost use Rattle.text_words.specs.Words.{lines_of};
ghost use Rattle.linux_lines.specs.Lines.{line_of};
ghost use Rattle.linux_rules.specs.Firsts.{cpu_sooner, group_sooner, is_of, is_sooner};
ghost use Rattle.linux_rules.specs.Judge.{learned};
ghost use Rattle.linux_rules.specs.Cpus.{learned_place, moved_on};
ghost use Rattle.linux_seen.specs.Seen.{timed};
ghost use Rattle.linux_seen.specs.declared.rules.Rule.TheVariants as rules;
ghost use Rattle.linux_shown.specs.Facts.{edge_facts, told_facts};
ghost use Rattle.linux_shown.specs.Shown.{before_facts, before_shown, child_event_facts};
ghost use Rattle.linux_shown.specs.Shown.{child_facts, line_shown, read_shown, said_shown};
ghost use Rattle.linux_shown.specs.Shown.{shown_text, sooner_by, sooner_fact, sooner_facts};
ghost use Rattle.linux_shown.specs.Shown.{text_shown, time_at, time_text, told_shown};
ghost use Rattle.linux_shown.specs.Timers.{timer_facts, timer_wanted};
ghost use Rattle.linux_shown.specs.Wanted.{plain_wanted};

use crate::before::{known_before, line_at};
use crate::facts::{
    push_edge, push_event_fact, push_event_of, push_found_of, push_group_event_fact, push_places,
    push_state_fact, push_state_of, push_told, push_walk_fact, push_word_fact, push_word_of,
};
use crate::pieces::push_nanos;
use crate::timers::{push_timer_facts, timer_wanted};
use crate::wanted::{plain_wanted, push_wanted};
use linux_lines::{Happening, Line, LineFault, Place, TimerEvent, Update, read_line};
use linux_rules::cpus::{
    learn_cpu, learn_cpu_link, learn_group_link, learn_place, learn_update, look_at, move_on,
};
use linux_rules::exchanges::learn_exchange;
use linux_rules::{Course, Misfit};
use linux_seen::seen::{CpuSeen, GroupSeen, Run, Seen};
use linux_seen::tree::same_pointer;
use linux_seen::{Rule, Whom};
use linux_timers::TimersSeen;
use std::alloc::Global;
use text_words::push_bytes;
use tm_base::{CpuId, NoMemory};

/// Whether this is the CPU whose event is stored, or that isn't known.
fn is_of(run: Run, own: CpuId, cpu: &CpuSeen) -> bool
    ensures { result ≡ is_of run own cpu.now }
{
    match run {
        Run::Unknown => true,
        Run::Own => cpu.cpu.0 == own.0,
        Run::Of(other) => cpu.cpu.0 == other.0,
    }
}

/// Whether an event is known, is to come at this time, and comes before this expiry.
fn is_sooner(now: u64, first: u64, event: Option<u64>) -> bool
    ensures { result ≡ is_sooner now first event }
{
    match event {
        Some(expiry) => now < expiry && expiry < first,
        None => false,
    }
}

fn cpu_sooner(run: Run, own: CpuId, update: &Update, now: u64, cpu: &CpuSeen) -> bool
    ensures { result ≡ cpu_sooner run own update.now now cpu.now }
{
    !is_of(run, own, cpu)
        && same_pointer(cpu.leaf, Some(update.group))
        && is_sooner(now, update.expiries.first, cpu.event)
}

fn group_sooner(update: &Update, now: u64, group: &GroupSeen) -> bool
    ensures { result ≡ group_sooner update.now now group.now }
{
    group.pointer != update.child
        && same_pointer(group.parent, Some(update.group))
        && is_sooner(now, update.expiries.first, group.event)
}

/// The first other CPU of the leaf with an event to come before the group's cached first.
fn sooner_cpu(seen: &Seen, run: Run, own: CpuId, update: &Update, now: u64) -> Option<CpuSeen>
    ensures { result ≡ find (cpu_sooner run own update.now now) seen.now.cpus }
{
    seen.cpus()
        .iter()
        .copied()
        .find(|cpu| cpu_sooner(run, own, update, now, cpu))
}

/// The first other group below the group with such an event.
fn sooner_group(seen: &Seen, update: &Update, now: u64) -> Option<GroupSeen>
    ensures { result ≡ find (group_sooner update.now now) seen.now.groups }
{
    seen.groups()
        .iter()
        .copied()
        .find(|group| group_sooner(update, now, group))
}

/// The event of another CPU, or else of another group.
fn push_sooner_of(
    text: &mut Vec<u8>,
    cpu: Option<CpuSeen>,
    group: Option<GroupSeen>,
) -> Result<(), NoMemory>
    ensures { OnOk result (text.new.items ≡ text.old.items ++ sooner_fact cpu group) }
{
    if let Some(found) = cpu {
        push_event_fact(text, &found)?;
    } else if let Some(below) = group {
        push_group_event_fact(text, &below)?;
    }
    Ok(())
}

/// .. that is to come, and comes before the group's cached first.
fn push_sooner_at(
    text: &mut Vec<u8>,
    seen: &Seen,
    run: Run,
    own: CpuId,
    update: &Update,
) -> Result<(), NoMemory>
    ensures { OnOk result
        (text.new.items ≡ text.old.items ++ sooner_by seen.now.clock seen.now run own update.now) }
{
    if let Some(now) = seen.clock() {
        let cpu = sooner_cpu(seen, run, own, update, now);
        let group = sooner_group(seen, update, now);
        push_sooner_of(text, cpu, group)?;
    }
    Ok(())
}

/// .. at an update by this CPU.
#[tactic(auto, unfolding(crate::specs::Shown::sooner_facts))]
fn push_sooner(
    text: &mut Vec<u8>,
    seen: &Seen,
    own: CpuId,
    happening: &Happening,
) -> Result<(), NoMemory>
    ensures { OnOk result
        (text.new.items ≡ text.old.items ++ sooner_facts seen.now own happening.now) }
{
    match happening {
        Happening::Updated(update) => {
            let run = seen.cpu(own).run;
            push_sooner_at(text, seen, run, own, update)?;
        }
        _ => {}
    }
    Ok(())
}

/// Whether the CPU, or the child group, of an update is active.
fn push_child(text: &mut Vec<u8>, seen: &Seen, own: CpuId, update: &Update) -> Result<(), NoMemory>
    ensures { OnOk result (text.new.items ≡ text.old.items ++ child_facts seen.now own update.now) }
{
    if update.child == 0 {
        push_state_fact(text, &seen.cpu(own))?;
    } else {
        push_word_fact(text, &seen.group(update.child))?;
    }
    Ok(())
}

/// What was known of an event.
#[tactic(auto, unfolding(crate::specs::Shown::child_event_facts))]
fn push_child_event(
    text: &mut Vec<u8>,
    seen: &Seen,
    own: CpuId,
    happening: &Happening,
) -> Result<(), NoMemory>
    ensures { OnOk result
        (text.new.items ≡ text.old.items ++ child_event_facts seen.now own happening.now) }
{
    match happening {
        Happening::CpuTold(event) => push_event_fact(text, &seen.cpu(event.cpu))?,
        Happening::Updated(update) => push_child(text, seen, own, update)?,
        _ => {}
    }
    Ok(())
}

/// Keeps where a new group stands.
fn learn_group(seen: &mut Seen, line: u64, cpu: CpuId, place: &Place) -> Result<(), NoMemory>
    ensures { OnOk result (seen.new ≡ moved_on (learned_place seen.old place.now) line cpu) }
{
    learn_place(seen, place)?;
    move_on(seen, line, cpu)?;
    Ok(())
}

/// Keeps what an event shows.
#[tactic(auto, unfolding(linux_rules::specs::Judge::learned))]
fn learn(seen: &mut Seen, line: u64, cpu: CpuId, happening: &Happening) -> Result<(), NoMemory>
    ensures { OnOk result (seen.new ≡ learned seen.old line cpu happening.now) }
{
    match happening {
        Happening::GroupMade(place) => learn_group(seen, line, cpu, place),
        Happening::GroupJoined(child, joining) => {
            learn_group_link(seen, line, cpu, *child, joining)
        }
        Happening::CpuJoined(joined, joining) => {
            learn_cpu_link(seen, line, cpu, *joined, joining)
        }
        Happening::Exchanged(exchange) => learn_exchange(seen, line, cpu, exchange),
        Happening::CpuTold(event) => learn_cpu(seen, line, cpu, event),
        Happening::Updated(update) => learn_update(seen, line, cpu, update),
        Happening::Handling(group) => look_at(seen, line, cpu, *group),
    }
}

/// What was known before a line, as far as the rule speaks of it.
#[tactic(auto, unfolding(crate::specs::Shown::before_facts))]
fn push_facts(
    text: &mut Vec<u8>,
    seen: &Seen,
    rule: Rule,
    whom: Whom,
    own: CpuId,
    happening: &Happening,
) -> Result<(), NoMemory>
    ensures { OnOk result (text.new.items
        ≡ text.old.items ++ before_facts rule seen.now whom own happening.now) }
{
    match rule {
        Rule::Group | Rule::Exchange | Rule::Order => push_word_of(text, seen, whom.group)?,
        Rule::Tree | Rule::Node => push_places(text, seen, whom)?,
        Rule::Walk => push_walk_fact(text, &seen.cpu(own))?,
        Rule::Cpu => push_state_of(text, seen, whom.cpu)?,
        Rule::Event => push_child_event(text, seen, own, happening)?,
        Rule::First => push_sooner(text, seen, own, happening)?,
        Rule::Remote => push_event_of(text, seen, whom.cpu)?,
        Rule::Wakeup => push_found_of(text, seen, whom.cpu)?,
        Rule::Rest | Rule::Told | Rule::Timer => {}
    }
    Ok(())
}

/// .. and what the rule wanted.
#[tactic(auto, using(std::proofs::lemmas::List::append_assoc), unfolding(crate::specs::Shown::before_shown))]
fn push_before(
    text: &mut Vec<u8>,
    seen: &Seen,
    misfit: Misfit,
    own: CpuId,
    happening: &Happening,
) -> Result<(), NoMemory>
    ensures { OnOk result (text.new.items
        ≡ text.old.items ++ before_shown seen.now misfit own happening.now) }
{
    push_facts(text, seen, misfit.rule, misfit.whom, own, happening)?;
    push_wanted(text, seen, misfit.rule, own, happening)?;
    Ok(())
}

/// What a wrong bit is about, with the line.
#[tactic(auto, using(std::proofs::lemmas::List::append_assoc))]
fn push_rest(
    text: &mut Vec<u8>,
    seen: &mut Seen,
    misfit: Misfit,
    own: CpuId,
    happening: &Happening,
) -> Result<(), NoMemory>
    ensures { OnOk result (text.new.items ≡ text.old.items
        ++ edge_facts misfit.whom.cpu misfit.whom.group
        (learned seen.old misfit.line own happening.now) ++ plain_wanted rules.Rest) }
{
    learn(seen, misfit.line, own, happening)?;
    push_edge(text, seen, misfit.whom)?;
    push_bytes(text, plain_wanted(Rule::Rest))?;
    Ok(())
}

/// What the CPU has told for which nobody answers, with the line.
#[tactic(auto, using(std::proofs::lemmas::List::append_assoc))]
fn push_unanswered(
    text: &mut Vec<u8>,
    seen: &mut Seen,
    misfit: Misfit,
    own: CpuId,
    happening: &Happening,
) -> Result<(), NoMemory>
    ensures { OnOk result (text.new.items ≡ text.old.items
        ++ told_facts misfit.whom.cpu (learned seen.old misfit.line own happening.now)
        ++ plain_wanted rules.Told) }
{
    learn(seen, misfit.line, own, happening)?;
    push_told(text, seen, misfit.whom.cpu)?;
    push_bytes(text, plain_wanted(Rule::Told))?;
    Ok(())
}

/// What is shown of an event of timer migration.
#[tactic(auto, unfolding(crate::specs::Shown::told_shown, crate::specs::Shown::shown_by))]
fn push_event_shown(
    text: &mut Vec<u8>,
    seen: &mut Seen,
    misfit: Misfit,
    own: CpuId,
    happening: &Happening,
) -> Result<(), NoMemory>
    ensures { OnOk result (text.new.items
        ≡ text.old.items ++ told_shown seen.old misfit own happening.now) }
{
    match misfit.rule {
        Rule::Rest => push_rest(text, seen, misfit, own, happening),
        Rule::Told => push_unanswered(text, seen, misfit, own, happening),
        Rule::Group
        | Rule::Tree
        | Rule::Node
        | Rule::Walk
        | Rule::Exchange
        | Rule::Order
        | Rule::Cpu
        | Rule::Event
        | Rule::First
        | Rule::Remote
        | Rule::Wakeup
        | Rule::Timer => push_before(text, seen, misfit, own, happening),
    }
}

/// .. once its time has come.
fn push_event_at(
    text: &mut Vec<u8>,
    seen: &mut Seen,
    at: Option<u64>,
    misfit: Misfit,
    own: CpuId,
    happening: &Happening,
) -> Result<(), NoMemory>
    ensures { OnOk result (text.new.items
        ≡ text.old.items ++ told_shown (timed seen.old at) misfit own happening.now) }
{
    seen.pass(at);
    push_event_shown(text, seen, misfit, own, happening)
}

/// What is shown of a timer's line.
#[tactic(auto, using(std::proofs::lemmas::List::append_assoc))]
fn push_timer_shown(
    text: &mut Vec<u8>,
    seen: &TimersSeen,
    event: &TimerEvent,
) -> Result<(), NoMemory>
    ensures { OnOk result (text.new.items
        ≡ text.old.items ++ timer_facts seen.now event.now ++ timer_wanted event.now) }
{
    push_timer_facts(text, seen, event)?;
    push_bytes(text, timer_wanted(event))?;
    Ok(())
}

/// What is shown of a line.
#[tactic(auto, unfolding(crate::specs::Shown::line_shown))]
fn push_read_line(
    text: &mut Vec<u8>,
    course: &mut Course,
    misfit: Misfit,
    said: &Line,
) -> Result<(), NoMemory>
    ensures { OnOk result (text.new.items
        ≡ text.old.items ++ line_shown course.old misfit said.now) }
{
    match said {
        Line::Told(own, at, happening) => {
            push_event_at(text, &mut course.seen, *at, misfit, *own, happening)?;
        }
        Line::OfTimer(_, _, event) => push_timer_shown(text, &course.timers, event)?,
        Line::Remark | Line::Loss | Line::Foreign(_, _) => {}
    }
    Ok(())
}

/// The time at the head of a line.
#[tactic(auto, unfolding(crate::specs::Shown::time_at))]
fn time_at(said: &Line) -> Option<u64>
    ensures { result ≡ time_at said.now }
{
    match said {
        Line::Told(_, at, _) => *at,
        Line::OfTimer(_, at, _) => *at,
        Line::Remark | Line::Loss | Line::Foreign(_, _) => None,
    }
}

/// That time, where there is one.
#[tactic(auto, using(std::proofs::lemmas::List::append_assoc), unfolding(crate::specs::Shown::time_text))]
fn push_time(text: &mut Vec<u8>, at: Option<u64>) -> Result<(), NoMemory>
    ensures { OnOk result (text.new.items ≡ text.old.items ++ time_text at) }
{
    match at {
        Some(nanos) => {
            push_nanos(text, b"  time: ", nanos)?;
            push_bytes(text, b"\n")?;
        }
        None => push_bytes(text, b"  time: none\n")?,
    }
    Ok(())
}

/// What is shown of a line, where it is known what was before it.
#[tactic(auto, using(std::proofs::lemmas::List::append_assoc), unfolding(crate::specs::Shown::said_shown))]
fn push_said(
    text: &mut Vec<u8>,
    before: Option<Course>,
    misfit: Misfit,
    said: &Line,
) -> Result<(), NoMemory>
    ensures { OnOk result (text.new.items ≡ text.old.items ++ said_shown before misfit said.now) }
{
    push_time(text, time_at(said))?;
    if let Some(mut course) = before {
        push_read_line(text, &mut course, misfit, said)?;
    }
    Ok(())
}

/// .. if it is one.
#[tactic(auto, unfolding(crate::specs::Shown::read_shown))]
fn push_read(
    text: &mut Vec<u8>,
    before: Option<Course>,
    misfit: Misfit,
    read: Result<Line, LineFault>,
) -> Result<(), NoMemory>
    ensures { OnOk result (text.new.items ≡ text.old.items ++ read_shown before misfit read) }
{
    if let Ok(said) = read {
        push_said(text, before, misfit, &said)?;
    }
    Ok(())
}

/// A line as it stands in the trace, behind its word.
#[tactic(auto, using(std::proofs::lemmas::List::append_assoc), unfolding(crate::specs::Shown::text_shown))]
pub fn push_line(text: &mut Vec<u8>, line: &[u8]) -> Result<(), NoMemory>
    ensures { OnOk result (text.new.items ≡ text.old.items ++ text_shown line.now) }
{
    push_bytes(text, b"  line: ")?;
    push_bytes(text, line)?;
    push_bytes(text, b"\n")?;
    Ok(())
}

/// What is shown behind a misfit of a trace: its line, the time of the line, what was known before
/// it, and what the rule wanted. The trace is read up to that line again. The only error is want of
/// memory.
#[tactic(auto, using(std::proofs::lemmas::List::append_assoc), unfolding(crate::specs::Shown::shown_text))]
pub fn push_shown(
    alloc: Global,
    text: &mut Vec<u8>,
    bytes: &[u8],
    misfit: Misfit,
) -> Result<(), NoMemory>
    ensures { OnOk result
        (text.new.items ≡ text.old.items ++ shown_text (lines_of bytes.now) misfit) }
{
    let line = line_at(bytes, misfit.line);
    push_line(text, line)?;
    let before = known_before(alloc, bytes, misfit.line)?;
    push_read(text, before, misfit, read_line(line))?;
    Ok(())
}
