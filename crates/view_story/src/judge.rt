//! The fold over the lines of a report.

ghost use Rattle.std.specs.Prelude.{◌≡◌, ◌↔◌, IfOk, None};
ghost use Rattle.view_story.specs.Judge.{EachStoryLineFits, IsFirstFault, IsFittingStory, ending};
ghost use Rattle.view_story.specs.Judge.{active_cpu, after_last, answer_of_line, behind_after};
ghost use Rattle.view_story.specs.Judge.{behind_fault, ended};
ghost use Rattle.view_story.specs.Judge.{closing_after, closing_fault, closing_time, come_to};
ghost use Rattle.view_story.specs.Judge.{first_point};
ghost use Rattle.view_story.specs.Judge.{fresh_cpus, fresh_timers, last_fault, left_for};
ghost use Rattle.view_story.specs.Judge.{story_judged};
ghost use Rattle.view_story.specs.Judge.{line_after, line_fault, start, told_after};
ghost use Rattle.view_story.specs.Judge.{told_moment_fault};
ghost use Rattle.view_story.specs.Judge.{told_of};
ghost use Rattle.view_story.specs.Moments.{time_fault};

use crate::closing::{
    MovedLine, control_fault, end_fault, handed_fault, learn_control, learn_handed, learn_left,
    learn_moved, left_fault, moved_fault, settle,
};
use crate::covers::{cover_fault, learn_cover};
use crate::faults::Fault;
use crate::moments::{go_to, leave_fault, time_fault};
use crate::operations::{Answer, take_answer};
use crate::runs::{RunLine, take_run};
use crate::seen::{CpuSeen, Point, Seen, Stage, State, TimerSeen, absent_cpu, fresh_timer, up};
use std::alloc::Global;
use tm_base::{CpuId, Jiffy, NoMemory, TimerId};
use tm_report::Line;
use tm_script::Script;

/// What is said of a report.
#[derive(Clone, Copy)]
pub enum Verdict {
    /// It can be a story of the script; so many lines, and so many timers that ran.
    Fits { lines: u64, runs: u64 },
    /// This line, from 1, is the first that can't stand there.
    Misfit { line: u64, fault: Fault },
}

/// A line by its place in a moment.
#[derive(Clone, Copy)]
enum Told {
    /// A timer ran.
    Ran(RunLine),
    /// An operation of a CPU has its answer.
    Answered(CpuId, Answer),
    /// A first event was handed on.
    Handed(CpuId, CpuId),
}

/// The answer that a line shows to an operation of a CPU.
fn told_of(line: &Line) -> Option<(Jiffy, Told)>
    ensures { result ≡ told_of line.now }
{
    match *line {
        Line::Run {
            now,
            runner,
            timer,
            home,
            wheel,
            reply,
        } => Some((
            now,
            Told::Ran(RunLine {
                runner,
                timer,
                home,
                wheel,
                reply,
            }),
        )),
        Line::Handed { now, cpu, to } => Some((now, Told::Handed(cpu, to))),
        _ => match answer_of(line) {
            Some((now, cpu, answer)) => Some((now, Told::Answered(cpu, answer))),
            None => None,
        },
    }
}

/// The answer to an operation that a line shows.
fn answer_of(line: &Line) -> Option<(Jiffy, CpuId, Answer)>
    ensures { result ≡ answer_of_line line.now }
{
    match *line {
        Line::Arm {
            now,
            cpu,
            timer,
            class,
            wheel,
        } => Some((
            now,
            cpu,
            Answer::Armed {
                timer,
                class,
                wheel,
            },
        )),
        Line::Cancel {
            now,
            cpu,
            timer,
            home,
        } => Some((now, cpu, Answer::Cancelled { timer, home })),
        Line::NotQueued { now, cpu, timer } => Some((now, cpu, Answer::NotQueued { timer })),
        Line::Idle { now, cpu, until } => Some((now, cpu, Answer::Idle { until })),
        Line::Stay { now, cpu, first } => Some((now, cpu, Answer::Stay { first })),
        Line::Wake { now, cpu } => Some((now, cpu, Answer::Woke)),
        Line::Offline { now, cpu } => Some((now, cpu, Answer::WentOffline)),
        Line::Online { now, cpu } => Some((now, cpu, Answer::CameOnline)),
        Line::Refused {
            now,
            cpu,
            line,
            number,
        } => Some((now, cpu, Answer::Refused { line, number })),
        Line::RefusedQueued {
            now,
            cpu,
            line,
            number,
            holder,
        } => Some((
            now,
            cpu,
            Answer::RefusedQueued {
                line,
                number,
                holder,
            },
        )),
        _ => None,
    }
}

/// Takes a line of an interrupt or an operation, in its moment.
#[tactic(auto, unfolding(crate::specs::Judge::told_moment_fault, crate::specs::Judge::told_after))]
fn take_told(script: &Script, seen: &mut Seen, told: Told, turn: u64) -> Option<Fault>
    ensures fault { result ≡ told_moment_fault script.now seen.old told }
    ensures after { result ≡ None → seen.new ≡ told_after script.now seen.old told turn }
{
    if !matches!(seen.point().stage, Stage::Tellers) {
        return Some(Fault::Order);
    }
    match told {
        Told::Ran(run) => take_run(script, seen, &run, turn),
        Told::Answered(cpu, answer) => take_answer(script, seen, cpu, answer, turn),
        Told::Handed(cpu, to) => {
            if let Some(fault) = handed_fault(script, seen, cpu, to) {
                return Some(fault);
            }
            learn_handed(seen, to);
            None
        }
    }
}

/// Takes a line that closes a moment.
#[tactic(auto, unfolding(crate::specs::Judge::closing_fault, crate::specs::Judge::closing_after))]
fn take_closing(script: &Script, seen: &mut Seen, line: &Line, turn: u64) -> Option<Fault>
    ensures fault { result ≡ closing_fault line.now script.now seen.old }
    ensures after { result ≡ None → seen.new ≡ closing_after line.now seen.old turn }
{
    match *line {
        Line::Control { now: _, cpu } => {
            if let Some(fault) = control_fault(script, seen, cpu) {
                return Some(fault);
            }
            learn_control(seen, cpu);
            None
        }
        Line::Moved {
            now: _,
            timer,
            from,
            to,
            wheel,
        } => {
            let moved = MovedLine {
                timer,
                from,
                to,
                wheel,
            };
            if let Some(fault) = moved_fault(seen, &moved) {
                return Some(fault);
            }
            learn_moved(seen, &moved, turn);
            None
        }
        Line::Cover {
            now: _,
            cpu,
            wheel,
            cover,
        } => {
            if let Some(fault) = cover_fault(script, seen, cpu, wheel, cover) {
                return Some(fault);
            }
            learn_cover(seen, cpu, cover);
            None
        }
        _ => Some(Fault::Foreign),
    }
}

/// Whether a line closes a moment, and its time.
fn closing_time(line: &Line) -> Option<Jiffy>
    ensures { result ≡ closing_time line.now }
{
    match *line {
        Line::Control { now, cpu: _ } => Some(now),
        Line::Moved {
            now,
            timer: _,
            from: _,
            to: _,
            wheel: _,
        } => Some(now),
        Line::Cover {
            now,
            cpu: _,
            wheel: _,
            cover: _,
        } => Some(now),
        _ => None,
    }
}

/// What is missing before the first line behind the last moment.
#[tactic(auto, unfolding(crate::specs::Judge::last_fault))]
fn last_fault(script: &Script, seen: &Seen) -> Option<Fault>
    ensures { result ≡ last_fault script.now seen.now }
{
    match seen.point().stage {
        Stage::Over => Some(Fault::NotTheEnd),
        Stage::Lefts => None,
        Stage::Tellers | Stage::Moves | Stage::Covers => {
            leave_fault(script, seen, up(script.end))
        }
    }
}

/// Keeps that the last moment is closed.
#[tactic(auto, unfolding(crate::specs::Judge::after_last))]
fn close_last(seen: &mut Seen)
    ensures { seen.new ≡ after_last seen.old }
{
    let point = seen.point();
    seen.set_point(Point {
        stage: Stage::Lefts,
        ..point
    });
}

/// Keeps that all is told.
#[tactic(auto, unfolding(crate::specs::Judge::ended))]
fn end(seen: &mut Seen)
    ensures { seen.new ≡ ended seen.old }
{
    let point = seen.point();
    seen.set_point(Point {
        stage: Stage::Over,
        ..point
    });
}

/// Takes a line behind the last moment.
#[tactic(auto, unfolding(crate::specs::Judge::behind_fault, crate::specs::Judge::behind_after))]
fn take_behind(script: &Script, seen: &mut Seen, line: &Line) -> Option<Fault>
    ensures fault { result ≡ behind_fault line.now script.now seen.old }
    ensures after { result ≡ None → seen.new ≡ behind_after line.now seen.old }
{
    match *line {
        Line::Left {
            timer,
            cpu,
            class,
            wheel,
        } => {
            settle(seen);
            if let Some(fault) = last_fault(script, seen) {
                return Some(fault);
            }
            close_last(seen);
            if let Some(fault) = left_fault(seen, timer, cpu, class, wheel) {
                return Some(fault);
            }
            learn_left(seen, timer);
            None
        }
        Line::End { now } => {
            settle(seen);
            if let Some(fault) = last_fault(script, seen) {
                return Some(fault);
            }
            close_last(seen);
            if let Some(fault) = end_fault(script, seen, now) {
                return Some(fault);
            }
            end(seen);
            None
        }
        _ => Some(Fault::Foreign),
    }
}

/// Goes to the moment of a line.
#[tactic(auto, unfolding(crate::specs::Judge::left_for, crate::specs::Judge::come_to))]
fn come_to(script: &Script, seen: &mut Seen, at: Jiffy) -> Option<Fault>
    ensures fault { result ≡ time_fault script.now (left_for seen.old at) at }
    ensures after { result ≡ None → seen.new ≡ come_to script.now seen.old at }
{
    if at != seen.point().time {
        settle(seen);
    }
    if let Some(fault) = time_fault(script, seen, at) {
        return Some(fault);
    }
    go_to(script, seen, at);
    None
}

/// Takes a line, and answers what is wrong with it, if it is. Where something is, nothing is known
/// of what was told.
#[tactic(auto, unfolding(crate::specs::Judge::line_fault, crate::specs::Judge::line_after))]
pub fn take_line(script: &Script, seen: &mut Seen, line: &Line, turn: u64) -> Option<Fault>
    ensures fault { result ≡ line_fault script.now seen.old line.now }
    ensures after { result ≡ None → seen.new ≡ line_after script.now seen.old line.now turn }
{
    if let Some((at, told)) = told_of(line) {
        if let Some(fault) = come_to(script, seen, at) {
            return Some(fault);
        }
        return take_told(script, seen, told, turn);
    }
    if let Some(at) = closing_time(line) {
        if let Some(fault) = come_to(script, seen, at) {
            return Some(fault);
        }
        settle(seen);
        return take_closing(script, seen, line, turn);
    }
    take_behind(script, seen, line)
}

/// The timers of a script, of which nothing was told.
fn fresh_timers(alloc: Global, count: u16) -> Result<Vec<TimerSeen>, NoMemory>
    ensures { IfOk result (λ ts. ts.items ≡ fresh_timers count) }
{
    let mut timers = Vec::new(alloc);
    for number in 0..count {
        timers.push(fresh_timer(TimerId(number)))?;
    }
    Ok(timers)
}

/// A CPU that is active, as each is at the start.
fn active_cpu(cpu: CpuId) -> CpuSeen
    ensures { result ≡ active_cpu cpu }
{
    let state = State {
        online: true,
        idle: false,
    };
    CpuSeen {
        state,
        before: state,
        ..absent_cpu(cpu)
    }
}

/// The CPUs of a script as they start.
fn fresh_cpus(alloc: Global, count: u16) -> Result<Vec<CpuSeen>, NoMemory>
    ensures { IfOk result (λ cs. cs.items ≡ fresh_cpus count) }
{
    let mut cpus = Vec::new(alloc);
    for number in 0..count {
        cpus.push(active_cpu(CpuId(number)))?;
    }
    Ok(cpus)
}

/// The point at the first moment, jiffy 0.
#[tactic(auto, unfolding(crate::specs::Judge::first_point))]
fn first_point(script: &Script, play: bool) -> Point
    ensures { result ≡ first_point script.now play }
{
    let listed = match script.moments.get(0) {
        Some(first) => first.at == 0,
        None => false,
    };
    Point {
        play,
        time: 0,
        listed,
        next: if listed { 1 } else { 0 },
        stage: Stage::Tellers,
        answered_cpu: CpuId(0),
        answered: 0,
        runner: None,
        rank: 0,
        leaving: None,
        dead: None,
        handed: None,
        control: None,
        moved_rank: 0,
        moved_turn: 0,
        covered: 0,
        left: 0,
        unclear: 0,
        runs: 0,
    }
}

/// What is known before the first line.
fn start(alloc: Global, script: &Script, play: bool) -> Result<Seen, NoMemory>
    ensures { IfOk result (λ s. s ≡ start script.now play) }
{
    let count = u16::from(script.nodes) * u16::from(script.cpus);
    let timers = fresh_timers(alloc, script.timers)?;
    let cpus = fresh_cpus(alloc, count)?;
    Ok(Seen::new(timers, cpus, first_point(script, play)))
}

/// What the function on lists says of the lines of a report.
fn judge_from(
    alloc: Global,
    script: &Script,
    lines: &[Line],
    play: bool,
) -> Result<Verdict, NoMemory>
    ensures { IfOk result (λ v. v ≡ story_judged script.now (start script.now play) 0 lines.now) }
{
    let mut seen = start(alloc, script, play)?;
    let mut number = 0;
    for line in lines {
        number = up(number);
        if let Some(fault) = take_line(script, &mut seen, line, number) {
            return Ok(Verdict::Misfit {
                line: number,
                fault,
            });
        }
    }
    Ok(ending(&seen, number))
}

/// What is said behind so many lines.
fn ending(seen: &Seen, lines: u64) -> Verdict
    ensures { result ≡ ending seen.now lines }
{
    let point = seen.point();
    match point.stage {
        Stage::Over => Verdict::Fits {
            lines,
            runs: point.runs,
        },
        Stage::Tellers | Stage::Moves | Stage::Covers | Stage::Lefts => Verdict::Misfit {
            line: up(lines),
            fault: Fault::Unended,
        },
    }
}

/// What is said of the lines of a report: in the order of `run`, or in that of `play`. A misfit
/// names the first line that doesn't fit, from 1, and what is wrong with it. The only error is want
/// of memory.
pub fn judge_lines(
    alloc: Global,
    script: &Script,
    lines: &[Line],
    play: bool,
) -> Result<Verdict, NoMemory>
    ensures exact { IfOk result
        (λ v. v ≡ story_judged script.now (start script.now play) 0 lines.now) }
    ensures fits { IfOk result
        (λ v. IsFittingStory v ↔ EachStoryLineFits script.now (start script.now play) 0 lines.now) }
    ensures first { IfOk result
        (λ v. IsFirstFault script.now (start script.now play) lines.now v) }
{
    let verdict = judge_from(alloc, script, lines, play)?;
    Ok(verdict)
}
