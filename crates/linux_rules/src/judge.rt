//! The fold over the lines of a trace.

ghost use Rattle.std.specs.Prelude.{◌≡◌, ◌↔◌, IfOk, OnOk, None, find, is_some, true};
ghost use Rattle.text_words.specs.Words.{lines_of};
ghost use Rattle.linux_rules.specs.Judge.{fault_of, rest_misfit};
ghost use Rattle.linux_rules.specs.Judge.{first_line, is_exchange, is_loss_line, is_strange, is_told};
ghost use Rattle.linux_rules.specs.Judge.{judged, last_line, named, open_at, said_of, start_behind};
ghost use Rattle.linux_rules.specs.Judge.{late_misfit, learned, line_misfit, rests_after};
ghost use Rattle.linux_rules.specs.Judge.{seen_after, stuck_late, stuck_misfit};
ghost use Rattle.linux_rules.specs.Orders.{first_late};
ghost use Rattle.linux_rules.specs.Judge.{tally_after, text_after, text_verdict};
ghost use Rattle.linux_rules.specs.Judge.{told_misfit};
ghost use Rattle.linux_rules.specs.Judge.{EachLineFits, IsFirstFault, IsFitting};
ghost use Rattle.linux_rules.specs.Judge.{handling_fault, noted, timer_misfit};
ghost use Rattle.linux_rules.specs.Agrees.{EachRestAnswers};
ghost use Rattle.linux_rules.specs.Witness.{HasOrders};
ghost use Rattle.linux_rules.specs.Cpus.{learned_place, moved_on};
ghost use Rattle.linux_seen.specs.Rests.{rest_fits};
ghost use Rattle.linux_seen.specs.Walks.{is_open};
ghost use Rattle.linux_told.specs.Told.{told_fits};

use crate::cpus::{
    cpu_fault, learn_cpu, learn_cpu_link, learn_group_link, learn_place, learn_update, look_at,
    move_on, update_fault,
};
use crate::exchanges::{exchange_fault, learn_exchange};
use crate::firsts::is_on_way;
use crate::marks::last_start;
use crate::orders::{first_late, late_on, stuck_rule};
use linux_lines::{Happening, Line, LineFault, Place, read_line};
use linux_runs::{Differences, Runs, differences_after, no_differences, no_runs, runs_after};
use linux_seen::counts::{counted, counted_if};
use linux_seen::rests::{at_rest, rest_fits};
use linux_seen::seen::{CpuSeen, Late, Seen};
use linux_seen::tree::{cpu_joining_fault, group_joining_fault, spot_fits};
use linux_seen::walks::{is_open, may_rest};
use linux_seen::whom::{edge_whom, event_whom};
use linux_seen::{Rule, Whom};
use linux_timers::{
    TimerTally, TimersSeen, no_timer_tally, take_timers, timer_fault, timer_tally_after,
};
use linux_told::told::{answers_if, missing_whom, no_answers, told_fits};
use linux_told::{Answers, law_rests};
use std::alloc::Global;
use text_words::cut;
use tm_base::{CpuId, NoMemory};

/// How much of a trace was read and checked.
#[derive(Clone, Copy)]
pub struct Tally {
    /// Lines of any kind, with what stands behind the last line feed.
    pub lines: u64,
    /// Those before the last line that says that a CPU's buffer begins there: they don't count.
    pub lost: u64,
    /// Events of timer migration.
    pub events: u64,
    /// Exchanges on groups among them.
    pub exchanges: u64,
    /// Events after which no walk was under way.
    pub rests: u64,
    /// The line of the last of these, or 0.
    pub rested: u64,
    /// Places where lines were lost.
    pub losses: u64,
    /// Events whose names begin as those of timer migration do, and that aren't known.
    pub unknown: u64,
    /// The line of the first of these, or 0.
    pub unknown_at: u64,
    /// Who answered for what idle CPUs had told, at each rest.
    pub answers: Answers,
    /// Runs of other CPUs' timers, by how late they were.
    pub runs: Runs,
    /// What Linux does otherwise.
    pub differences: Differences,
    /// Lines that arm timers, and runs of timers.
    pub timers: TimerTally,
}

/// Where a trace leaves the rules.
#[derive(Clone, Copy)]
pub struct Misfit {
    /// The line, from 1.
    pub line: u64,
    /// The rule that it breaks.
    pub rule: Rule,
    /// The CPU and the group at fault.
    pub whom: Whom,
}

/// What is open at the end of a trace.
#[derive(Clone, Copy)]
pub struct Open {
    /// So many exchanges are late; the line of one that comes before them may come after the
    /// trace's end.
    pub late: usize,
    /// The first CPU that is in the middle of a walk.
    pub walker: Option<CpuId>,
}

/// What is said of a trace.
#[derive(Clone, Copy)]
pub enum Verdict {
    /// Each line that counts fits.
    Fits(Tally, Open),
    /// A line breaks a rule.
    Broken(Misfit),
    /// This line, from 1, is none of a trace.
    NoTrace(u64, LineFault),
}

/// What was read of a trace so far.
#[derive(Drop)]
pub struct Course {
    pub seen: Seen,
    pub timers: TimersSeen,
    pub tally: Tally,
}

/// The rule that an event's own line breaks.
#[tactic(auto, unfolding(crate::specs::Judge::fault_of))]
fn fault_of(seen: &Seen, cpu: CpuId, happening: &Happening) -> Option<Rule>
    ensures { result ≡ fault_of seen.now cpu happening.now }
{
    match happening {
        Happening::GroupMade(place) => {
            if spot_fits(seen, place) {
                None
            } else {
                Some(Rule::Tree)
            }
        }
        Happening::GroupJoined(child, joining) => group_joining_fault(seen, *child, joining),
        Happening::CpuJoined(joined, joining) => cpu_joining_fault(seen, *joined, joining),
        Happening::Exchanged(exchange) => exchange_fault(seen, cpu, exchange),
        Happening::CpuTold(event) => cpu_fault(seen, cpu, event),
        Happening::Updated(update) => update_fault(seen, cpu, update),
        Happening::Handling(group) => handling_fault(seen, cpu, *group),
    }
}

/// The rule that looking after others breaks.
fn handling_fault(seen: &Seen, cpu: CpuId, group: u64) -> Option<Rule>
    ensures { result ≡ handling_fault seen.now cpu group }
{
    let own = seen.cpu(cpu);
    if may_rest(own.walk) && is_on_way(seen, &own, group) {
        None
    } else {
        Some(Rule::Walk)
    }
}

/// Keeps where a new group stands.
fn learn_group(seen: &mut Seen, line: u64, cpu: CpuId, place: &Place) -> Result<(), NoMemory>
    ensures { OnOk result (seen.new ≡ moved_on (learned_place seen.old place.now) line cpu) }
{
    learn_place(seen, place)?;
    move_on(seen, line, cpu)?;
    Ok(())
}

/// Keeps what an event shows.
#[tactic(auto, unfolding(crate::specs::Judge::learned))]
fn learn(seen: &mut Seen, line: u64, cpu: CpuId, happening: &Happening) -> Result<(), NoMemory>
    ensures { OnOk result (seen.new ≡ learned seen.old line cpu happening.now) }
{
    match happening {
        Happening::GroupMade(place) => learn_group(seen, line, cpu, place),
        Happening::GroupJoined(child, joining) => {
            learn_group_link(seen, line, cpu, *child, joining)
        }
        Happening::CpuJoined(joined, joining) => {
            learn_cpu_link(seen, line, cpu, *joined, joining)
        }
        Happening::Exchanged(exchange) => learn_exchange(seen, line, cpu, exchange),
        Happening::CpuTold(event) => learn_cpu(seen, line, cpu, event),
        Happening::Updated(update) => learn_update(seen, line, cpu, update),
        Happening::Handling(group) => look_at(seen, line, cpu, *group),
    }
}

/// Keeps what an event shows, and answers where it leaves the rules.
#[tactic(auto, unfolding(crate::specs::Judge::told_misfit))]
fn take_told(
    seen: &mut Seen,
    line: u64,
    cpu: CpuId,
    happening: &Happening,
) -> Result<Option<Misfit>, NoMemory>
    ensures misfit { IfOk result (λ m. m ≡ told_misfit seen.old line cpu happening.now) }
    ensures after { IfOk result (λ m. m ≡ None
        → seen.new ≡ learned seen.old line cpu happening.now) }
{
    if let Some(rule) = fault_of(seen, cpu, happening) {
        let whom = event_whom(cpu, happening);
        return Ok(Some(Misfit { line, rule, whom }));
    }
    learn(seen, line, cpu, happening)?;
    if let Some(misfit) = stuck_misfit(seen, line, happening) {
        return Ok(Some(misfit));
    }
    Ok(rest_misfit(seen, line))
}

/// The misfit of a late exchange that breaks this rule: that of its own line.
fn late_misfit(rule: Option<Rule>, late: &Late) -> Option<Misfit>
    ensures { result ≡ late_misfit rule late.now }
{
    match rule {
        Some(rule) => Some(Misfit {
            line: late.line,
            rule,
            whom: Whom {
                cpu: Some(late.cpu),
                group: Some(late.exchange.place.group),
            },
        }),
        None => None,
    }
}

/// The misfit of the first late exchange on a group.
fn stuck_late(seen: &Seen, line: u64, group: u64) -> Option<Misfit>
    ensures { result ≡ stuck_late (first_late group seen.now.late) seen.now line group }
{
    match first_late(group, seen.late()) {
        Some(late) => {
            let count = late_on(group, seen.late());
            let word = seen.group(group).word;
            late_misfit(stuck_rule(line, count, seen.cpus(), word, &late), &late)
        }
        None => None,
    }
}

/// The misfit of a late exchange that stays late at this event.
#[tactic(auto, unfolding(crate::specs::Judge::stuck_misfit))]
fn stuck_misfit(seen: &Seen, line: u64, happening: &Happening) -> Option<Misfit>
    ensures { result ≡ stuck_misfit seen.now line happening.now }
{
    match happening {
        Happening::Exchanged(exchange) => stuck_late(seen, line, exchange.place.group),
        _ => None,
    }
}

/// Where a line leaves the rules by what is known after it.
fn rest_misfit(seen: &Seen, line: u64) -> Option<Misfit>
    ensures { result ≡ rest_misfit line seen.now }
{
    if !rest_fits(seen) {
        let rule = Rule::Rest;
        let whom = edge_whom(seen);
        Some(Misfit { line, rule, whom })
    } else if !told_fits(seen) {
        let rule = Rule::Told;
        let whom = missing_whom(seen);
        Some(Misfit { line, rule, whom })
    } else {
        None
    }
}

/// Keeps the number of a CPU's last line.
fn note_line(seen: &mut Seen, line: u64, cpu: CpuId) -> Result<(), NoMemory>
    ensures { OnOk result (seen.new ≡ noted seen.old line cpu) }
{
    let own = seen.cpu(cpu);
    seen.put_cpu(CpuSeen { last: line, ..own })
}

/// Keeps what a line shows, and answers where it leaves the rules.
#[tactic(auto, unfolding(crate::specs::Judge::line_misfit, crate::specs::Judge::seen_after))]
fn take_line(
    alloc: Global,
    seen: &mut Seen,
    line: u64,
    said: &Line,
) -> Result<Option<Misfit>, NoMemory>
    ensures misfit { IfOk result (λ m. m ≡ line_misfit seen.old line said.now) }
    ensures after { IfOk result (λ m. m ≡ None → seen.new ≡ seen_after seen.old line said.now) }
{
    match said {
        Line::Remark => Ok(None),
        Line::Loss => {
            *seen = Seen::new(alloc);
            Ok(None)
        }
        Line::Foreign(cpu, _) => {
            note_line(seen, line, *cpu)?;
            Ok(None)
        }
        Line::OfTimer(cpu, _, _) => {
            note_line(seen, line, *cpu)?;
            Ok(None)
        }
        Line::Told(cpu, at, happening) => {
            seen.pass(*at);
            take_told(seen, line, *cpu, happening)
        }
    }
}

fn is_exchange(said: &Line) -> bool
    ensures { result ≡ is_exchange said.now }
{
    match said {
        Line::Told(_, _, happening) => match happening {
            Happening::Exchanged(_) => true,
            _ => false,
        },
        _ => false,
    }
}

fn is_told(said: &Line) -> bool
    ensures { result ≡ is_told said.now }
{
    match said {
        Line::Told(_, _, _) => true,
        _ => false,
    }
}

fn is_strange(said: &Line) -> bool
    ensures { result ≡ is_strange said.now }
{
    match said {
        Line::Foreign(_, strange) => *strange,
        _ => false,
    }
}

/// The first of such lines: this one, unless there was one before.
fn first_line(is_such: bool, line: u64, before: u64) -> u64
    ensures { result ≡ first_line is_such line before }
{
    if is_such && before == 0 { line } else { before }
}

/// The last of such lines.
fn last_line(is_such: bool, line: u64, before: u64) -> u64
    ensures { result ≡ last_line is_such line before }
{
    if is_such { line } else { before }
}

fn is_loss_line(said: &Line) -> bool
    ensures { result ≡ is_loss_line said.now }
{
    match said {
        Line::Loss => true,
        _ => false,
    }
}

fn rests_after(said: &Line, seen: &Seen) -> bool
    ensures { result ≡ rests_after said.now seen.now }
{
    match said {
        Line::Told(_, _, _) => at_rest(seen),
        _ => false,
    }
}

/// The counts after a line; the runs are counted by what was seen before it.
#[tactic(auto, unfolding(crate::specs::Judge::tally_after))]
fn tally_after(tally: Tally, runs: Runs, timers: TimerTally, said: &Line, seen: &Seen) -> Tally
    ensures { result ≡ tally_after tally runs timers said.now seen.now }
{
    Tally {
        lines: counted(tally.lines),
        lost: tally.lost,
        events: counted_if(is_told(said), tally.events),
        exchanges: counted_if(is_exchange(said), tally.exchanges),
        rests: counted_if(rests_after(said, seen), tally.rests),
        rested: last_line(rests_after(said, seen), counted(tally.lines), tally.rested),
        losses: counted_if(is_loss_line(said), tally.losses),
        unknown: counted_if(is_strange(said), tally.unknown),
        unknown_at: first_line(is_strange(said), counted(tally.lines), tally.unknown_at),
        answers: answers_if(rests_after(said, seen), tally.answers, seen),
        runs,
        differences: differences_after(tally.differences, seen, said),
        timers,
    }
}

/// The misfit of a line that breaks the rule of timers, by the CPU that wrote it.
fn timer_misfit(line: u64, fault: Option<CpuId>) -> Option<Misfit>
    ensures { result ≡ timer_misfit line fault }
{
    match fault {
        Some(cpu) => Some(Misfit {
            line,
            rule: Rule::Timer,
            whom: Whom {
                cpu: Some(cpu),
                group: None,
            },
        }),
        None => None,
    }
}

/// Takes a line, and answers what it decides, if it does. Where it does nothing is known of what
/// was seen, and the counts are those of before.
#[tactic(auto, unfolding(crate::specs::Judge::text_verdict, crate::specs::Judge::text_after))]
pub fn take_text(
    alloc: Global,
    course: &mut Course,
    text: &[u8],
) -> Result<Option<Verdict>, NoMemory>
    ensures verdict { IfOk result (λ v. v ≡ text_verdict course.old text.now) }
    ensures after { IfOk result (λ v. v ≡ None → course.new ≡ text_after course.old text.now) }
    ensures counts { IfOk result
        (λ v. is_some v ≡ true → course.new.tally ≡ course.old.tally) }
{
    let line = counted(course.tally.lines);
    match read_line(text) {
        Ok(said) => {
            let runs = runs_after(course.tally.runs, &course.seen, &said);
            let timers = timer_tally_after(course.tally.timers, &course.timers, &said);
            if let Some(misfit) = take_line(alloc, &mut course.seen, line, &said)? {
                return Ok(Some(Verdict::Broken(misfit)));
            }
            if let Some(misfit) = timer_misfit(line, timer_fault(&course.timers, &said)) {
                return Ok(Some(Verdict::Broken(misfit)));
            }
            take_timers(alloc, &mut course.timers, line, &said)?;
            course.tally = tally_after(course.tally, runs, timers, &said, &course.seen);
            Ok(None)
        }
        Err(fault) => Ok(Some(Verdict::NoTrace(line, fault))),
    }
}

/// The CPU of what was seen.
fn named(seen: Option<CpuSeen>) -> Option<CpuId>
    ensures { result ≡ named seen }
{
    match seen {
        Some(cpu) => Some(cpu.cpu),
        None => None,
    }
}

/// The first CPU that is in the middle of a walk.
fn first_walker(cpus: &[CpuSeen]) -> Option<CpuSeen>
    ensures { result ≡ find (λ c. is_open c.walk) cpus.now }
{
    cpus.iter().copied().find(|cpu| is_open(cpu.walk))
}

/// What is open: how many exchanges are late, and the first CPU that is in the middle of a walk.
pub fn open_at(seen: &Seen) -> Open
    ensures { result ≡ open_at seen.now }
{
    Open {
        late: seen.late().len(),
        walker: named(first_walker(seen.cpus())),
    }
}

/// Before the first line that counts, behind so many that don't; takes no memory.
pub fn begin_course(alloc: Global, lost: u64) -> Course
    ensures { result ≡ start_behind lost }
{
    Course {
        seen: Seen::new(alloc),
        timers: TimersSeen::new(alloc),
        tally: Tally {
            lines: lost,
            lost,
            events: 0,
            exchanges: 0,
            rests: 0,
            rested: 0,
            losses: 0,
            unknown: 0,
            unknown_at: 0,
            answers: no_answers(),
            runs: no_runs(),
            differences: no_differences(),
            timers: no_timer_tally(),
        },
    }
}

/// What the function on lists says of these lines, behind so many that don't count.
fn judge_lines(alloc: Global, lost: u64, bytes: &[u8]) -> Result<Verdict, NoMemory>
    ensures { IfOk result (λ v. v ≡ judged (start_behind lost) (lines_of bytes.now)) }
{
    let mut course = begin_course(alloc, lost);
    let mut rest = bytes;
    while let Some((text, after)) = cut(rest, b'\n') {
        if let Some(verdict) = take_text(alloc, &mut course, text)? {
            return Ok(verdict);
        }
        rest = after;
    }
    if let Some(verdict) = take_text(alloc, &mut course, rest)? {
        return Ok(verdict);
    }
    Ok(Verdict::Fits(course.tally, open_at(&course.seen)))
}

/// What the function on lists says of the lines that count.
fn judge_kept(alloc: Global, bytes: &[u8]) -> Result<Verdict, NoMemory>
    ensures { IfOk result (λ v. v ≡ said_of (lines_of bytes.now)) }
{
    let (lost, kept) = last_start(bytes);
    judge_lines(alloc, lost as u64, kept)
}

/// What is said of a trace: of its lines from the last one on that says that a CPU's buffer begins
/// there, since what stands before lacks what was overwritten. A misfit names the first line at which one is found, and the first rule
/// there in the order of `Rule`; an exchange that no other explains is found at the next one on its
/// group, and named by its own line. The only error is want of memory.
pub fn check_trace(alloc: Global, bytes: &[u8]) -> Result<Verdict, NoMemory>
    ensures exact { IfOk result (λ v. v ≡ said_of (lines_of bytes.now)) }
    ensures fits { IfOk result (λ v. IsFitting v ↔ EachLineFits bytes.now) }
    ensures first { IfOk result (λ v. (IsFitting v → ⊥) → IsFirstFault bytes.now v) }
    ensures answered { IfOk result (λ v. IsFitting v → EachRestAnswers bytes.now) }
    ensures ordered { IfOk result (λ v. IsFitting v → HasOrders bytes.now) }
{
    law_rests();
    let verdict = judge_kept(alloc, bytes)?;
    Ok(verdict)
}
