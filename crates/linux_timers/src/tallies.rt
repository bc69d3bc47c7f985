//! Counts of timers in a trace.

ghost use Rattle.std.specs.Prelude.{◌≡◌};
ghost use Rattle.linux_timers.specs.Tallies.{is_forwarded, is_remote, is_unsure, no_timer_tally};
ghost use Rattle.linux_timers.specs.Tallies.{run_counted, timer_tally_after};

use crate::rule::state_of_run;
use crate::seen::{State, TimersSeen};
use linux_lines::{Expiry, Line, TimerEvent};
use linux_seen::counts::{counted, counted_if};
use tm_base::CpuId;

/// Lines that arm timers, and runs of timers.
#[derive(Clone, Copy)]
pub struct TimerTally {
    /// Timers that went into a bucket.
    pub armed: u64,
    /// Timers that ran.
    pub ran: u64,
    /// Those among them that ran on another CPU than their own.
    pub remote: u64,
    /// Those of which it isn't known how they were queued.
    pub unsure: u64,
    /// Those whose base had gone on from their bucket: it was forwarded while its timers ran.
    pub forwarded: u64,
}

/// Nothing is counted.
pub fn no_timer_tally() -> TimerTally
    ensures { result ≡ no_timer_tally }
{
    TimerTally {
        armed: 0,
        ran: 0,
        remote: 0,
        unsure: 0,
        forwarded: 0,
    }
}

fn is_unsure(state: State) -> bool
    ensures { result ≡ is_unsure state }
{
    match state {
        State::Unknown => true,
        _ => false,
    }
}

fn is_remote(state: State, cpu: CpuId) -> bool
    ensures { result ≡ is_remote state cpu }
{
    match state {
        State::At(queued) => queued.home.0 != cpu.0,
        _ => false,
    }
}

fn is_forwarded(state: State, clock: u64) -> bool
    ensures { result ≡ is_forwarded state clock }
{
    match state {
        State::At(queued) => queued.bucket < clock,
        _ => false,
    }
}

/// The counts after a run.
#[tactic(auto, unfolding(crate::specs::Tallies::run_counted))]
fn run_counted(tally: TimerTally, state: State, cpu: CpuId, expiry: &Expiry) -> TimerTally
    ensures { result ≡ run_counted tally state cpu expiry.now }
{
    TimerTally {
        armed: tally.armed,
        ran: counted(tally.ran),
        remote: counted_if(is_remote(state, cpu), tally.remote),
        unsure: counted_if(is_unsure(state), tally.unsure),
        forwarded: counted_if(is_forwarded(state, expiry.clock), tally.forwarded),
    }
}

/// The counts after a line, by what was known before it.
#[tactic(auto, unfolding(crate::specs::Tallies::timer_tally_after))]
pub fn timer_tally_after(tally: TimerTally, seen: &TimersSeen, said: &Line) -> TimerTally
    ensures { result ≡ timer_tally_after tally seen.now said.now }
{
    match said {
        Line::OfTimer(cpu, at, event) => match event {
            TimerEvent::Armed(_) => TimerTally {
                armed: counted(tally.armed),
                ..tally
            },
            TimerEvent::Ran(expiry) => {
                run_counted(tally, state_of_run(seen, *cpu, *at, expiry), *cpu, expiry)
            }
            _ => tally,
        },
        _ => tally,
    }
}
