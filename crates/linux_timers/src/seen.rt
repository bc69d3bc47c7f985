//! What was seen of timers and of the CPUs that run them.

ghost use Rattle.std.specs.Prelude.{◌≡◌, ◌==◌, ◌<◌, length, find, position, IfSome};
ghost use Rattle.std.specs.Prelude.{OnErr, OnOk};
ghost use Rattle.linux_seen.specs.Seen.{put_at};
ghost use Rattle.linux_timers.specs.Seen.{armed_after, is_open, is_out};
ghost use Rattle.linux_timers.specs.Seen.{left_from, no_timers, put_runner, put_timer, queued_of};
ghost use Rattle.linux_timers.specs.Seen.{removed_after, run_after, runner_at, state_behind};
ghost use Rattle.linux_timers.specs.Seen.{state_left, state_run, state_taken, taken_again};
ghost use Rattle.linux_timers.specs.Seen.{taken_by};
ghost use Rattle.linux_timers.specs.Seen.{timer_at, unknown_runner, unknown_timer, written};

use crate::bases::{Clocks, is_jumbled, unknown_clocks};
use linux_lines::Arming;
use linux_seen::seen::Run;
use std::alloc::Global;
use std::collections::BTreeMap;
use std::marker::Model;
use tm_base::{Class, CpuId, NoMemory};

/// Where a timer is queued.
#[derive(Clone, Copy)]
pub struct Queued {
    /// Its wheel expiry, in jiffies.
    pub bucket: u64,
    /// The CPU whose base it is in.
    pub home: CpuId,
    /// Which of that CPU's bases it is, where it is known.
    pub class: Option<Class>,
}

/// What is known of a timer.
#[derive(Clone, Copy)]
pub enum State {
    Unknown,
    /// It is in no bucket.
    Gone,
    At(Queued),
}

/// The last removal of a timer. The kernel writes one before each run of it.
#[derive(Clone, Copy)]
pub enum Taken {
    /// None since it ran last.
    Untaken,
    /// By this CPU, in the line of this number, from this.
    By(CpuId, u64, State),
    /// By several CPUs, each of which may be about to run it.
    Several,
}

/// What was seen of a timer.
#[derive(Clone, Copy)]
pub struct TimerSeen {
    pub state: State,
    pub taken: Taken,
    /// The time of its last line, where there is one.
    pub at: Option<u64>,
    /// The CPU that wrote it; None where several wrote lines of that time.
    pub by: Option<CpuId>,
}

/// What was seen of a CPU that runs timers.
#[derive(Clone, Copy)]
pub struct Runner {
    pub cpu: CpuId,
    /// Whose timers it runs.
    pub run: Run,
    /// The number of its last line that can't stand between a removal and the run that belongs to
    /// it: another run, or the begin or end of the softirq. 0 for none.
    pub edge: u64,
    /// The clocks of its own bases.
    pub clocks: Clocks,
}

/// A timer of which nothing was seen.
pub fn unknown_timer() -> TimerSeen
    ensures { result ≡ unknown_timer }
{
    TimerSeen {
        state: State::Unknown,
        taken: Taken::Untaken,
        at: None,
        by: None,
    }
}

/// A CPU of which nothing was seen.
pub fn unknown_runner(cpu: CpuId) -> Runner
    ensures { result ≡ unknown_runner cpu }
{
    Runner {
        cpu,
        run: Run::Unknown,
        edge: 0,
        clocks: unknown_clocks(),
    }
}

/// What was seen of timers so far.
#[derive(Drop)]
pub struct TimersSeen {
    timers: BTreeMap<u64, TimerSeen>,
    runners: Vec<Runner>,
}

impl Model for TimersSeen {
    ghost use Rattle.linux_timers.specs.Seen.{TimerSight};

    ghost Value = { TimerSight };

    ghost view = { λ s. record { timers = s.timers.entries; runners = s.runners.items } };
}

fn find_runner(runners: &[Runner], cpu: CpuId) -> Option<Runner>
    ensures { result ≡ find (λ r. r.cpu.0 == cpu.0) runners.now }
{
    runners.iter().copied().find(|r| r.cpu.0 == cpu.0)
}

fn place_of_runner(runners: &[Runner], cpu: CpuId) -> Option<usize>
    ensures value { result ≡ position (λ r. r.cpu.0 == cpu.0) runners.now }
    ensures within { IfSome result (λ at. at < length runners.now) }
{
    runners.iter().position(|r| r.cpu.0 == cpu.0)
}

fn put_runner(runners: &mut Vec<Runner>, runner: Runner) -> Result<(), NoMemory>
    ensures ok { OnOk result
        (runners.new.items ≡ put_at (position (λ q. q.cpu.0 == runner.cpu.0) runners.old.items)
        runners.old.items runner) }
    ensures err { OnErr result (runners.new.items ≡ runners.old.items) }
{
    match place_of_runner(runners.as_slice(), runner.cpu) {
        Some(at) => runners[at] = runner,
        None => runners.push(runner)?,
    }
    Ok(())
}

impl TimersSeen {
    /// Nothing yet; takes no memory.
    pub fn new(alloc: Global) -> TimersSeen
        ensures { result ≡ no_timers }
    {
        TimersSeen {
            timers: BTreeMap::new(alloc),
            runners: Vec::new(alloc),
        }
    }

    /// What was seen of a timer, by its pointer.
    pub fn timer(&self, pointer: u64) -> TimerSeen
        ensures { result ≡ timer_at self.now pointer }
    {
        match self.timers.get(&pointer).copied() {
            Some(timer) => timer,
            None => unknown_timer(),
        }
    }

    /// What was seen of a CPU.
    pub fn runner(&self, cpu: CpuId) -> Runner
        ensures { result ≡ runner_at self.now cpu }
    {
        match find_runner(&self.runners, cpu) {
            Some(runner) => runner,
            None => unknown_runner(cpu),
        }
    }

    /// Keeps what was seen of a timer in place of what was known of it. Want of memory leaves all
    /// as before.
    pub fn put_timer(&mut self, pointer: u64, timer: TimerSeen) -> Result<(), NoMemory>
        ensures ok { OnOk result (self.new ≡ put_timer self.old pointer timer) }
        ensures err { OnErr result (self.new ≡ self.old) }
    {
        self.timers.insert(pointer, timer)?;
        Ok(())
    }

    /// Keeps what was seen of a CPU in place of what was known of it. Want of memory leaves all as
    /// before.
    pub fn put_runner(&mut self, runner: Runner) -> Result<(), NoMemory>
        ensures ok { OnOk result (self.new ≡ put_runner self.old runner) }
        ensures err { OnErr result (self.new ≡ self.old) }
    {
        put_runner(&mut self.runners, runner)
    }
}

/// A timer once a line of this CPU at this time tells of it: where the order of its lines isn't
/// known, nothing is known of it.
#[tactic(auto, unfolding(crate::specs::Seen::written))]
pub fn written(timer: TimerSeen, cpu: CpuId, at: Option<u64>) -> TimerSeen
    ensures { result ≡ written timer cpu at }
{
    if is_jumbled(timer.at, timer.by, cpu, at) {
        TimerSeen {
            state: State::Unknown,
            taken: Taken::Several,
            at,
            by: None,
        }
    } else {
        TimerSeen {
            at,
            by: Some(cpu),
            ..timer
        }
    }
}

fn queued_of(arming: &Arming) -> Queued
    ensures { result ≡ queued_of arming.now }
{
    Queued {
        bucket: arming.bucket,
        home: arming.cpu,
        class: arming.class,
    }
}

/// A timer that was armed (`enqueue_timer`).
#[tactic(auto, unfolding(crate::specs::Seen::armed_after))]
pub fn armed_after(timer: TimerSeen, arming: &Arming) -> TimerSeen
    ensures { result ≡ armed_after timer arming.now }
{
    if timer.by.is_some() {
        TimerSeen {
            state: State::At(queued_of(arming)),
            ..timer
        }
    } else {
        timer
    }
}

fn left_from(state: State) -> State
    ensures { result ≡ left_from state }
{
    match state {
        State::Unknown | State::Gone => State::Unknown,
        State::At(queued) => State::At(queued),
    }
}

/// A second removal, whose timer may still run by the first.
#[tactic(auto, unfolding(crate::specs::Seen::taken_again))]
fn taken_again(taken: Taken, cpu: CpuId, line: u64) -> Taken
    ensures { result ≡ taken_again taken cpu line }
{
    match taken {
        Taken::By(other, _, _) => {
            if other.0 == cpu.0 {
                Taken::By(cpu, line, State::Unknown)
            } else {
                Taken::Several
            }
        }
        _ => Taken::Several,
    }
}

fn taken_by(awaited: bool, timer: &TimerSeen, cpu: CpuId, line: u64) -> Taken
    ensures { result ≡ taken_by awaited timer.now cpu line }
{
    if awaited {
        taken_again(timer.taken, cpu, line)
    } else {
        Taken::By(cpu, line, left_from(timer.state))
    }
}

fn state_taken(taken: Taken) -> State
    ensures { result ≡ state_taken taken }
{
    match taken {
        Taken::By(_, _, state) => state,
        _ => State::Unknown,
    }
}

fn state_left(state: State) -> State
    ensures { result ≡ state_left state }
{
    match state {
        State::Gone => State::Gone,
        _ => State::Unknown,
    }
}

impl TimersSeen {
    ghost use Rattle.linux_timers.specs.Seen.{is_open, is_out, removed_after, run_after};
    ghost use Rattle.linux_timers.specs.Seen.{state_behind, state_run};

    /// Whether the run of a timer that was removed may be to come.
    #[tactic(auto, unfolding(crate::specs::Seen::is_open))]
    fn is_open(&self, taken: Taken) -> bool
        ensures { result ≡ is_open self.now taken }
    {
        match taken {
            Taken::Untaken => false,
            Taken::Several => true,
            Taken::By(cpu, line, _) => self.runner(cpu).edge < line,
        }
    }

    /// A timer that was removed (`detach_timer`).
    #[tactic(auto, unfolding(crate::specs::Seen::removed_after))]
    pub fn removed_after(&self, timer: TimerSeen, cpu: CpuId, line: u64) -> TimerSeen
        ensures { result ≡ removed_after self.now timer cpu line }
    {
        if timer.by.is_some() {
            TimerSeen {
                state: State::Gone,
                taken: taken_by(self.is_open(timer.taken), &timer, cpu, line),
                ..timer
            }
        } else {
            timer
        }
    }

    /// Whether this CPU may run the timer by its removal.
    #[tactic(auto, unfolding(crate::specs::Seen::is_out))]
    fn is_out(&self, taken: Taken, cpu: CpuId) -> bool
        ensures { result ≡ is_out self.now taken cpu }
    {
        match taken {
            Taken::Untaken => false,
            Taken::Several => true,
            Taken::By(other, line, _) => other.0 == cpu.0 && self.runner(cpu).edge < line,
        }
    }

    /// How the timer was queued that this CPU runs.
    #[tactic(auto, unfolding(crate::specs::Seen::state_run))]
    pub fn state_run(&self, timer: TimerSeen, cpu: CpuId) -> State
        ensures { result ≡ state_run self.now timer cpu }
    {
        if self.runner(cpu).edge == 0 {
            State::Unknown
        } else if self.is_out(timer.taken, cpu) {
            state_taken(timer.taken)
        } else {
            state_left(timer.state)
        }
    }

    #[tactic(auto, unfolding(crate::specs::Seen::state_behind))]
    fn state_behind(&self, timer: &TimerSeen, cpu: CpuId) -> State
        ensures { result ≡ state_behind self.now timer.now cpu }
    {
        if self.is_out(timer.taken, cpu) {
            timer.state
        } else {
            State::Unknown
        }
    }

    /// A timer that runs (`call_timer_fn`).
    #[tactic(auto, unfolding(crate::specs::Seen::run_after))]
    pub fn run_after(&self, timer: TimerSeen, cpu: CpuId) -> TimerSeen
        ensures { result ≡ run_after self.now timer cpu }
    {
        TimerSeen {
            state: self.state_behind(&timer, cpu),
            taken: Taken::Untaken,
            ..timer
        }
    }
}
