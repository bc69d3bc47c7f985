//! Told expiries at rest: who answers for them, by what was seen.

ghost use Rattle.std.specs.Prelude.{◌≡◌, ◌==◌, find, not};
ghost use Rattle.std.specs.List.{list_all, list_any};
ghost use Rattle.linux_told.specs.Told.{answer_at, answer_by, answer_of, answer_told, answers_if};
ghost use Rattle.linux_told.specs.Told.{answer_here, at_active, at_group, at_sleeping, at_top};
ghost use Rattle.linux_told.specs.Told.{climbed, group_of};
ghost use Rattle.linux_told.specs.Told.{counted_answer, counted_answers, is_by, is_missing, leads};
ghost use Rattle.linux_told.specs.Told.{migrator_in, missing_whom, no_answers, or_itself};
ghost use Rattle.linux_told.specs.Told.{told_fits, wakes};
ghost use Rattle.linux_seen.specs.Tree.{cpu_stands, group_stands};

use linux_lines::NO_EXPIRY;
use linux_seen::Whom;
use linux_seen::counts::counted;
use linux_seen::rests::{at_rest, is_asleep, is_awake, known_word};
use linux_seen::seen::{CpuSeen, GroupSeen, Seen, Word};
use linux_seen::tree::{cpu_stands, group_stands};
use linux_seen::whom::cpu_whom;
use linux_seen::words::named_by;

/// The most levels of a tree that are climbed.
pub const MOST_LEVELS: u8 = 16;

/// Who answers for what a CPU has told.
#[derive(Clone, Copy)]
pub enum Answer {
    /// It is awake, or nothing that it told is known, or it told that it has nothing.
    Nothing,
    /// What it told is due, so that it may have been taken out already.
    Due,
    /// An active group holds the event, and leads to a CPU that is awake.
    Held,
    /// A CPU wakes for the event at the sleeping top.
    Woken,
    /// The CPU itself wakes.
    Itself,
    /// What was seen doesn't tell.
    Open,
    /// Nobody does.
    Missing,
}

/// How often who answered.
#[derive(Clone, Copy)]
pub struct Answers {
    /// An active group.
    pub held: u64,
    /// A CPU that wakes for the top.
    pub woken: u64,
    /// The CPU itself.
    pub itself: u64,
    /// Not known.
    pub unsure: u64,
    /// What was told was due.
    pub due: u64,
}

/// The CPU of this number in a leaf.
fn cpu_below(seen: &Seen, leaf: u64, number: u8) -> Option<CpuSeen>
    ensures { result ≡ find (λ c. cpu_stands c leaf number) seen.now.cpus }
{
    seen.cpus()
        .iter()
        .copied()
        .find(|c| cpu_stands(c, leaf, number))
}

/// The child group of this number in a group.
fn group_below(seen: &Seen, parent: u64, number: u8) -> Option<GroupSeen>
    ensures { result ≡ find (λ g. group_stands g parent number) seen.now.groups }
{
    seen.groups()
        .iter()
        .copied()
        .find(|g| group_stands(g, parent, number))
}

/// The number of the migrator of a word, where it is known.
fn migrator_in(word: Option<Word>) -> Option<u8>
    ensures { result ≡ migrator_in word }
{
    match word {
        Some(word) => named_by(word.migrator),
        None => None,
    }
}

/// Whether from a group down, migrator by migrator, one comes to a CPU that is awake, within so
/// many levels.
fn leads(seen: &Seen, levels: u8, pointer: u64) -> bool
    ensures { result ≡ leads seen.now levels pointer }
{
    if levels == 0 {
        return false;
    }
    let group = seen.group(pointer);
    let Some(number) = migrator_in(known_word(&group)) else {
        return false;
    };
    match cpu_below(seen, pointer, number) {
        Some(cpu) => is_awake(cpu.active),
        None => match group_below(seen, pointer, number) {
            Some(child) => leads(seen, levels - 1, child.pointer),
            None => false,
        },
    }
}

/// Whether a wakeup is there by this time.
fn is_by(time: u64, wakeup: Option<u64>) -> bool
    ensures { result ≡ is_by time wakeup }
{
    match wakeup {
        Some(at) => at <= time && at != NO_EXPIRY,
        None => false,
    }
}

/// Whether a CPU of the tree keeps a wakeup by this time.
fn wakes(time: u64, cpu: &CpuSeen) -> bool
    ensures { result ≡ wakes time cpu.now }
{
    cpu.leaf.is_some() && is_by(time, cpu.wakeup)
}

fn some_wakes(time: u64, cpus: &[CpuSeen]) -> bool
    ensures { result ≡ list_any (wakes time) cpus.now }
{
    cpus.iter().any(|c| wakes(time, c))
}

/// Whether some CPU wakes by the event at a sleeping top.
fn at_top(seen: &Seen, event: u64) -> Answer
    ensures { result ≡ at_top seen.now event }
{
    if some_wakes(event, seen.cpus()) {
        Answer::Woken
    } else {
        Answer::Open
    }
}

/// The answer at a sleeping group of this parent; None where the parent has to give it.
fn at_sleeping(seen: &Seen, event: u64, parent: Option<u64>) -> Option<Answer>
    ensures { result ≡ at_sleeping seen.now event parent }
{
    match parent {
        Some(pointer) => {
            if pointer == 0 {
                Some(at_top(seen, event))
            } else {
                None
            }
        }
        None => Some(Answer::Open),
    }
}

fn at_active(seen: &Seen, pointer: u64) -> Answer
    ensures { result ≡ at_active seen.now pointer }
{
    if leads(seen, MOST_LEVELS, pointer) {
        Answer::Held
    } else {
        Answer::Open
    }
}

/// The answer at a group that has an event in time; None where its parent has to give it.
fn at_group(
    seen: &Seen,
    event: u64,
    pointer: u64,
    group: &GroupSeen,
    word: Option<Word>,
) -> Option<Answer>
    ensures { result ≡ at_group seen.now event pointer group.now word }
{
    match word {
        Some(word) => {
            if word.migrator == 0 {
                at_sleeping(seen, event, group.parent)
            } else {
                Some(at_active(seen, pointer))
            }
        }
        None => Some(Answer::Open),
    }
}

/// The answer at a group in which the child's event is this; None where its parent has to give it.
fn answer_here(
    seen: &Seen,
    now: u64,
    told: u64,
    event: Option<u64>,
    pointer: Option<u64>,
) -> Option<Answer>
    ensures { result ≡ answer_here seen.now now told event pointer }
{
    let Some(expiry) = event else {
        return Some(Answer::Open);
    };
    let Some(place) = pointer else {
        return Some(Answer::Open);
    };
    if place == 0 || expiry <= now {
        return Some(Answer::Open);
    }
    if told < expiry || expiry == NO_EXPIRY {
        return Some(Answer::Missing);
    }
    let group = seen.group(place);
    at_group(seen, expiry, place, &group, known_word(&group))
}

/// What was seen of the group of a pointer.
fn group_of(seen: &Seen, pointer: Option<u64>) -> GroupSeen
    ensures { result ≡ group_of seen.now pointer }
{
    match pointer {
        Some(place) => seen.group(place),
        None => seen.group(0),
    }
}

/// Who answers for what was told, from a group on in which the child's event is this, within so
/// many levels.
fn climb(
    seen: &Seen,
    now: u64,
    told: u64,
    levels: u8,
    event: Option<u64>,
    pointer: Option<u64>,
) -> Answer
    ensures { result ≡ climbed seen.now now told levels event pointer }
{
    if levels == 0 {
        return Answer::Open;
    }
    match answer_here(seen, now, told, event, pointer) {
        Some(answer) => answer,
        None => {
            let above = group_of(seen, pointer);
            climb(seen, now, told, levels - 1, above.event, above.parent)
        }
    }
}

/// The CPU's own wakeup answers, or else this.
fn or_itself(answer: Answer, wakeup: Option<u64>, told: u64) -> Answer
    ensures { result ≡ or_itself answer wakeup told }
{
    if wakeup.is_none() {
        Answer::Open
    } else if is_by(told, wakeup) {
        Answer::Itself
    } else {
        answer
    }
}

fn answer_by(answer: Answer, wakeup: Option<u64>, told: u64) -> Answer
    ensures { result ≡ answer_by answer wakeup told }
{
    match answer {
        Answer::Held => Answer::Held,
        Answer::Woken => Answer::Woken,
        Answer::Missing => or_itself(Answer::Missing, wakeup, told),
        Answer::Open => or_itself(Answer::Open, wakeup, told),
        Answer::Nothing | Answer::Due | Answer::Itself => Answer::Open,
    }
}

fn answer_at(seen: &Seen, cpu: &CpuSeen, told: u64, clock: Option<u64>) -> Answer
    ensures { result ≡ answer_at seen.now cpu.now told clock }
{
    let Some(now) = clock else {
        return Answer::Open;
    };
    if told <= now {
        return Answer::Due;
    }
    let answer = climb(seen, now, told, MOST_LEVELS, cpu.event, cpu.leaf);
    answer_by(answer, cpu.wakeup, told)
}

fn answer_told(seen: &Seen, cpu: &CpuSeen, timer: Option<u64>) -> Answer
    ensures { result ≡ answer_told seen.now cpu.now timer }
{
    let Some(told) = timer else {
        return Answer::Nothing;
    };
    if told == NO_EXPIRY {
        Answer::Nothing
    } else {
        answer_at(seen, cpu, told, seen.clock())
    }
}

/// Who answers for what a CPU has told, by what was seen.
#[tactic(auto, unfolding(crate::specs::Told::answer_of))]
pub fn answer_of(seen: &Seen, cpu: &CpuSeen) -> Answer
    ensures { result ≡ answer_of seen.now cpu.now }
{
    if is_asleep(cpu.active) {
        answer_told(seen, cpu, cpu.timer)
    } else {
        Answer::Nothing
    }
}

fn is_missing(answer: Answer) -> bool
    ensures { result ≡ is_missing answer }
{
    match answer {
        Answer::Missing => true,
        _ => false,
    }
}

/// The first CPU for whose told expiry nobody answers.
fn first_missing(seen: &Seen) -> Option<CpuSeen>
    ensures { result ≡ find (λ c. is_missing (answer_of seen.now c)) seen.now.cpus }
{
    seen.cpus()
        .iter()
        .copied()
        .find(|c| is_missing(answer_of(seen, c)))
}

/// The first CPU for whose told expiry nobody answers, with its leaf.
pub fn missing_whom(seen: &Seen) -> Whom
    ensures { result ≡ missing_whom seen.now }
{
    cpu_whom(first_missing(seen))
}

fn none_is_missing(seen: &Seen) -> bool
    ensures { result ≡ list_all (λ c. not (is_missing (answer_of seen.now c))) seen.now.cpus }
{
    seen.cpus().iter().all(|c| !is_missing(answer_of(seen, c)))
}

/// Whether somebody may answer for what each CPU has told, if no walk is under way.
pub fn told_fits(seen: &Seen) -> bool
    ensures { result ≡ told_fits seen.now }
{
    !at_rest(seen) || none_is_missing(seen)
}

/// No answer.
pub fn no_answers() -> Answers
    ensures { result ≡ no_answers }
{
    Answers {
        held: 0,
        woken: 0,
        itself: 0,
        unsure: 0,
        due: 0,
    }
}

fn counted_answer(answers: Answers, answer: Answer) -> Answers
    ensures { result ≡ counted_answer answers answer }
{
    match answer {
        Answer::Held => Answers {
            held: counted(answers.held),
            ..answers
        },
        Answer::Woken => Answers {
            woken: counted(answers.woken),
            ..answers
        },
        Answer::Itself => Answers {
            itself: counted(answers.itself),
            ..answers
        },
        Answer::Open => Answers {
            unsure: counted(answers.unsure),
            ..answers
        },
        Answer::Due => Answers {
            due: counted(answers.due),
            ..answers
        },
        Answer::Nothing | Answer::Missing => answers,
    }
}

/// The answers for each CPU, counted on.
fn counted_answers(seen: &Seen, answers: Answers) -> Answers
    ensures { result ≡ counted_answers seen.now answers seen.now.cpus }
{
    let mut counts = answers;
    for cpu in seen.cpus() {
        counts = counted_answer(counts, answer_of(seen, cpu));
    }
    counts
}

/// The answers at a rest, counted on.
pub fn answers_if(rests: bool, answers: Answers, seen: &Seen) -> Answers
    ensures { result ≡ answers_if rests answers seen.now }
{
    if rests {
        counted_answers(seen, answers)
    } else {
        answers
    }
}
