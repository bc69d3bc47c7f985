//! What the lines of a report say of CPUs and expiries, and of who answers.

ghost use Rattle.std.specs.Prelude.{◌≡◌};
ghost use Rattle.view_chart.specs.Said.{answer_in, change_in, cpu_in, higher_cpu, line_jiffy};
ghost use Rattle.view_chart.specs.Said.{run_in};

use tm_base::{CpuId, Jiffy, TimerId};
use tm_report::{Line, ShownCover};

/// What a CPU is.
#[derive(Clone, Copy)]
pub enum State {
    Awake,
    /// It is idle.
    Asleep {
        /// The wakeup that it programmed as it went idle, in jiffies, or `NEVER`.
        until: Jiffy,
    },
    Offline,
}

/// A CPU is such from a line on.
#[derive(Clone, Copy)]
pub struct Change {
    pub cpu: CpuId,
    pub state: State,
}

/// A timer that was run.
#[derive(Clone, Copy)]
pub struct Run {
    /// In jiffies.
    pub at: Jiffy,
    /// The CPU on which it was queued.
    pub home: CpuId,
    /// The CPU that ran it.
    pub runner: CpuId,
    pub timer: TimerId,
}

/// Who answers for the first global timer of an idle CPU.
#[derive(Clone, Copy)]
pub struct Answer {
    /// In jiffies.
    pub at: Jiffy,
    /// The idle CPU.
    pub cpu: CpuId,
    /// The wheel expiry of the timer, in jiffies.
    pub wheel: Jiffy,
    pub cover: ShownCover,
}

/// The jiffy of a line.
#[tactic(auto, unfolding(crate::specs::Said::line_jiffy))]
pub fn time_of(line: Line) -> Option<Jiffy>
    ensures { result ≡ line_jiffy line }
{
    match line {
        Line::Arm { now, .. } => Some(now),
        Line::Run { now, .. } => Some(now),
        Line::Cancel { now, .. } => Some(now),
        Line::NotQueued { now, .. } => Some(now),
        Line::Idle { now, .. } => Some(now),
        Line::Stay { now, .. } => Some(now),
        Line::Wake { now, .. } => Some(now),
        Line::Offline { now, .. } => Some(now),
        Line::Handed { now, .. } => Some(now),
        Line::Online { now, .. } => Some(now),
        Line::Control { now, .. } => Some(now),
        Line::Moved { now, .. } => Some(now),
        Line::Cover { now, .. } => Some(now),
        Line::Refused { now, .. } => Some(now),
        Line::RefusedQueued { now, .. } => Some(now),
        Line::Left { .. } => None,
        Line::End { now } => Some(now),
        Line::Why { .. } => None,
        Line::Yes { .. } => None,
        Line::No { .. } => None,
        Line::Device { now, .. } => Some(now),
    }
}

/// What a CPU becomes by a line. A CPU that gets the timers of one that went offline, or its duty,
/// is made active for it.
#[tactic(auto, unfolding(crate::specs::Said::change_in))]
pub fn change_in(line: Line) -> Option<Change>
    ensures { result ≡ change_in line }
{
    match line {
        Line::Idle { cpu, until, .. } => Some(Change {
            cpu,
            state: State::Asleep { until },
        }),
        Line::Wake { cpu, .. } => Some(Change {
            cpu,
            state: State::Awake,
        }),
        Line::Offline { cpu, .. } => Some(Change {
            cpu,
            state: State::Offline,
        }),
        Line::Handed { to, .. } => Some(Change {
            cpu: to,
            state: State::Awake,
        }),
        Line::Online { cpu, .. } => Some(Change {
            cpu,
            state: State::Awake,
        }),
        Line::Control { cpu, .. } => Some(Change {
            cpu,
            state: State::Awake,
        }),
        Line::Arm { .. } => None,
        Line::Run { .. } => None,
        Line::Cancel { .. } => None,
        Line::NotQueued { .. } => None,
        Line::Stay { .. } => None,
        Line::Moved { .. } => None,
        Line::Cover { .. } => None,
        Line::Refused { .. } => None,
        Line::RefusedQueued { .. } => None,
        Line::Left { .. } => None,
        Line::End { .. } => None,
        Line::Why { .. } => None,
        Line::Yes { .. } => None,
        Line::No { .. } => None,
        Line::Device { .. } => None,
    }
}

/// The timer that a line says was run.
#[tactic(auto, unfolding(crate::specs::Said::run_in))]
pub fn run_in(line: Line) -> Option<Run>
    ensures { result ≡ run_in line }
{
    match line {
        Line::Run {
            now,
            runner,
            timer,
            home,
            ..
        } => Some(Run {
            at: now,
            home,
            runner,
            timer,
        }),
        Line::Arm { .. } => None,
        Line::Cancel { .. } => None,
        Line::NotQueued { .. } => None,
        Line::Idle { .. } => None,
        Line::Stay { .. } => None,
        Line::Wake { .. } => None,
        Line::Offline { .. } => None,
        Line::Handed { .. } => None,
        Line::Online { .. } => None,
        Line::Control { .. } => None,
        Line::Moved { .. } => None,
        Line::Cover { .. } => None,
        Line::Refused { .. } => None,
        Line::RefusedQueued { .. } => None,
        Line::Left { .. } => None,
        Line::End { .. } => None,
        Line::Why { .. } => None,
        Line::Yes { .. } => None,
        Line::No { .. } => None,
        Line::Device { .. } => None,
    }
}

/// The answer that a line tells.
#[tactic(auto, unfolding(crate::specs::Said::answer_in))]
pub fn answer_in(line: Line) -> Option<Answer>
    ensures { result ≡ answer_in line }
{
    match line {
        Line::Cover {
            now,
            cpu,
            wheel,
            cover,
        } => Some(Answer {
            at: now,
            cpu,
            wheel,
            cover,
        }),
        Line::Arm { .. } => None,
        Line::Run { .. } => None,
        Line::Cancel { .. } => None,
        Line::NotQueued { .. } => None,
        Line::Idle { .. } => None,
        Line::Stay { .. } => None,
        Line::Wake { .. } => None,
        Line::Offline { .. } => None,
        Line::Handed { .. } => None,
        Line::Online { .. } => None,
        Line::Control { .. } => None,
        Line::Moved { .. } => None,
        Line::Refused { .. } => None,
        Line::RefusedQueued { .. } => None,
        Line::Left { .. } => None,
        Line::End { .. } => None,
        Line::Why { .. } => None,
        Line::Yes { .. } => None,
        Line::No { .. } => None,
        Line::Device { .. } => None,
    }
}

/// The highest CPU that a line names by what it does, 0 where it names none.
#[tactic(auto, unfolding(crate::specs::Said::cpu_in))]
pub fn cpu_in(line: Line) -> u16
    ensures { result ≡ cpu_in line }
{
    match line {
        Line::Arm { cpu, .. } => cpu.0,
        Line::Run { runner, home, .. } => higher(runner, home),
        Line::Cancel { cpu, home, .. } => higher(cpu, home),
        Line::NotQueued { cpu, .. } => cpu.0,
        Line::Idle { cpu, .. } => cpu.0,
        Line::Stay { cpu, .. } => cpu.0,
        Line::Wake { cpu, .. } => cpu.0,
        Line::Offline { cpu, .. } => cpu.0,
        Line::Handed { cpu, to, .. } => higher(cpu, to),
        Line::Online { cpu, .. } => cpu.0,
        Line::Control { cpu, .. } => cpu.0,
        Line::Moved { from, to, .. } => higher(from, to),
        Line::Cover { cpu, .. } => cpu.0,
        Line::Refused { cpu, .. } => cpu.0,
        Line::RefusedQueued { cpu, holder, .. } => higher(cpu, holder),
        Line::Left { cpu, .. } => cpu.0,
        Line::End { .. } => 0,
        Line::Why { cpu, .. } => cpu.0,
        Line::Yes { .. } => 0,
        Line::No { .. } => 0,
        Line::Device { .. } => 0,
    }
}

/// The higher of two CPUs.
pub(crate) fn higher(one: CpuId, other: CpuId) -> u16
    ensures { result ≡ higher_cpu one.0 other.0 }
{
    if one.0 < other.0 { other.0 } else { one.0 }
}
