//! The rule of timers over the lines of a trace.

ghost use Rattle.std.specs.Prelude.{◌≡◌, OnOk};
ghost use Rattle.linux_timers.specs.Rule.{after_expiry, at_expiry, at_softirq, event_fits};
ghost use Rattle.linux_timers.specs.Rule.{may_run};
ghost use Rattle.linux_timers.specs.Rule.{place_fits, run_begun};
ghost use Rattle.linux_timers.specs.Rule.{run_fits, runs_for, state_fits, state_of_run};
ghost use Rattle.linux_timers.specs.Rule.{timer_fault, timers_after};
ghost use Rattle.linux_timers.specs.Rule.{base_learned, least_known, state_learned, timer_run};
ghost use Rattle.linux_timers.specs.Rule.{timers_learned, timers_told};
ghost use Rattle.linux_timers.specs.Seen.{armed_after, put_timer, removed_after, timer_at, written};

use crate::bases::{clocks_after, least_of};
use crate::seen::{Queued, Runner, State, TimersSeen, armed_after, written};
use crate::wheel::arming_fits;
use linux_lines::{Arming, CpuEvent, CpuKind, Expiry, Happening, Line, TimerEvent};
use linux_seen::counts::counted;
use linux_seen::seen::Run;
use std::alloc::Global;
use tm_base::{Class, CpuId, NoMemory};

/// The softirq that runs timers (`TIMER_SOFTIRQ`).
pub const TIMER_SOFTIRQ: u64 = 1;

/// Whether a CPU with such a run runs the timers of this one.
fn runs_for(run: Run, home: CpuId) -> bool
    ensures { result ≡ runs_for run home }
{
    match run {
        Run::Unknown => true,
        Run::Own => false,
        Run::Of(cpu) => cpu.0 == home.0,
    }
}

/// Whether a CPU that isn't a timer's own may run it.
fn may_run(class: Option<Class>, run: Run, home: CpuId) -> bool
    ensures { result ≡ may_run class run home }
{
    match class {
        None => true,
        Some(Class::Pinned) => false,
        Some(Class::Deferrable) => false,
        Some(Class::Global) => runs_for(run, home),
    }
}

fn place_fits(queued: &Queued, cpu: CpuId, run: Run) -> bool
    ensures { result ≡ place_fits queued.now cpu run }
{
    queued.home.0 == cpu.0 || may_run(queued.class, run, queued.home)
}

/// Whether a timer that was so queued may run here and now.
#[tactic(auto, unfolding(crate::specs::Rule::state_fits))]
fn state_fits(state: State, expiry: &Expiry, cpu: CpuId, run: Run) -> bool
    ensures { result ≡ state_fits state expiry.now cpu run }
{
    match state {
        State::Unknown => true,
        State::Gone => false,
        State::At(queued) => queued.bucket <= expiry.clock && place_fits(&queued, cpu, run),
    }
}

/// How the timer of a run was queued.
#[tactic(auto, unfolding(crate::specs::Rule::state_of_run))]
pub fn state_of_run(seen: &TimersSeen, cpu: CpuId, at: Option<u64>, expiry: &Expiry) -> State
    ensures { result ≡ state_of_run seen.now cpu at expiry.now }
{
    let timer = written(seen.timer(expiry.timer), cpu, at);
    seen.state_run(timer, cpu)
}

#[tactic(auto, unfolding(crate::specs::Rule::run_fits))]
fn run_fits(seen: &TimersSeen, cpu: CpuId, at: Option<u64>, expiry: &Expiry) -> bool
    ensures { result ≡ run_fits seen.now cpu at expiry.now }
{
    let state = state_of_run(seen, cpu, at, expiry);
    let runner = seen.runner(cpu);
    expiry.clock <= expiry.jiffies && state_fits(state, expiry, cpu, runner.run)
}

/// The least clock that the base of an armed timer is known to have, in jiffies.
fn least_known(seen: &TimersSeen, cpu: CpuId, at: Option<u64>, arming: &Arming) -> u64
    ensures { result ≡ least_known seen.now cpu at arming.now }
{
    let base = seen.runner(arming.cpu);
    least_of(&base.clocks, arming.class, cpu, at)
}

#[tactic(auto, unfolding(crate::specs::Rule::event_fits))]
fn event_fits(seen: &TimersSeen, cpu: CpuId, at: Option<u64>, event: &TimerEvent) -> bool
    ensures { result ≡ event_fits seen.now cpu at event.now }
{
    match event {
        TimerEvent::Armed(arming) => arming_fits(least_known(seen, cpu, at, arming), arming),
        TimerEvent::Removed(_) => true,
        TimerEvent::Ran(expiry) => run_fits(seen, cpu, at, expiry),
        TimerEvent::Softirq(_) => true,
    }
}

/// The CPU whose line breaks the rule, if it does: an armed timer's bucket is the wheel's, and a
/// timer runs when its base has come to its bucket, on its own CPU or in a run for that
/// (`calc_wheel_index`, `expire_timers`, `tmigr_handle_remote_cpu`).
#[tactic(auto, unfolding(crate::specs::Rule::timer_fault))]
pub fn timer_fault(seen: &TimersSeen, said: &Line) -> Option<CpuId>
    ensures { result ≡ timer_fault seen.now said.now }
{
    match said {
        Line::OfTimer(cpu, at, event) => {
            if event_fits(seen, *cpu, *at, event) {
                None
            } else {
                Some(*cpu)
            }
        }
        _ => None,
    }
}

/// Keeps that a softirq begins or ends.
#[tactic(auto, unfolding(crate::specs::Rule::at_softirq))]
fn take_softirq(seen: &mut TimersSeen, line: u64, cpu: CpuId, vec: u64) -> Result<(), NoMemory>
    ensures { OnOk result (seen.new ≡ at_softirq seen.old line cpu vec) }
{
    if vec == TIMER_SOFTIRQ {
        let runner = seen.runner(cpu);
        seen.put_runner(Runner {
            run: Run::Own,
            edge: line,
            ..runner
        })?;
    }
    Ok(())
}

/// Keeps that a CPU is in the middle of its softirq.
#[tactic(auto, unfolding(crate::specs::Rule::at_expiry))]
fn take_edge(seen: &mut TimersSeen, line: u64, cpu: CpuId) -> Result<(), NoMemory>
    ensures { OnOk result (seen.new ≡ at_expiry seen.old line cpu) }
{
    let runner = seen.runner(cpu);
    seen.put_runner(Runner {
        edge: line,
        ..runner
    })
}

/// Keeps what an arming shows.
fn take_arming(
    seen: &mut TimersSeen,
    cpu: CpuId,
    at: Option<u64>,
    arming: &Arming,
) -> Result<(), NoMemory>
    ensures { OnOk result (seen.new ≡ put_timer seen.old arming.now.timer
        (armed_after (written (timer_at seen.old arming.now.timer) cpu at) arming.now)) }
{
    let timer = written(seen.timer(arming.timer), cpu, at);
    seen.put_timer(arming.timer, armed_after(timer, arming))
}

/// Keeps what a removal shows.
fn take_removal(
    seen: &mut TimersSeen,
    line: u64,
    cpu: CpuId,
    at: Option<u64>,
    pointer: u64,
) -> Result<(), NoMemory>
    ensures { OnOk result (seen.new ≡ put_timer seen.old pointer
        (removed_after seen.old (written (timer_at seen.old pointer) cpu at) cpu line)) }
{
    let timer = written(seen.timer(pointer), cpu, at);
    let removed = seen.removed_after(timer, cpu, line);
    seen.put_timer(pointer, removed)
}

/// Keeps that a base has come to the jiffy after the expiry that it runs.
#[tactic(auto, unfolding(crate::specs::Rule::base_learned))]
fn take_base(
    seen: &mut TimersSeen,
    cpu: CpuId,
    at: Option<u64>,
    queued: &Queued,
    clock: u64,
) -> Result<(), NoMemory>
    ensures { OnOk result (seen.new ≡ base_learned seen.old cpu at queued.now clock) }
{
    let home = seen.runner(queued.home);
    seen.put_runner(Runner {
        clocks: clocks_after(home.clocks, queued.class, cpu, at, counted(clock)),
        ..home
    })
}

fn take_state(
    seen: &mut TimersSeen,
    cpu: CpuId,
    at: Option<u64>,
    state: State,
    clock: u64,
) -> Result<(), NoMemory>
    ensures { OnOk result (seen.new ≡ state_learned seen.old cpu at state clock) }
{
    match state {
        State::At(queued) => take_base(seen, cpu, at, &queued, clock),
        _ => Ok(()),
    }
}

/// Keeps that a timer runs.
#[tactic(auto, unfolding(crate::specs::Rule::timer_run))]
fn take_run_of(
    seen: &mut TimersSeen,
    cpu: CpuId,
    at: Option<u64>,
    expiry: &Expiry,
) -> Result<(), NoMemory>
    ensures { OnOk result (seen.new ≡ timer_run seen.old cpu at expiry.now) }
{
    let timer = written(seen.timer(expiry.timer), cpu, at);
    let ran = seen.run_after(timer, cpu);
    seen.put_timer(expiry.timer, ran)
}

/// Keeps what a run shows.
#[tactic(auto, unfolding(crate::specs::Rule::after_expiry))]
fn take_expiry(
    seen: &mut TimersSeen,
    line: u64,
    cpu: CpuId,
    at: Option<u64>,
    expiry: &Expiry,
) -> Result<(), NoMemory>
    ensures { OnOk result (seen.new ≡ after_expiry seen.old line cpu at expiry.now) }
{
    let state = state_of_run(seen, cpu, at, expiry);
    take_run_of(seen, cpu, at, expiry)?;
    take_edge(seen, line, cpu)?;
    take_state(seen, cpu, at, state, expiry.clock)
}

/// Keeps what an event of a timer shows.
#[tactic(auto, unfolding(crate::specs::Rule::timers_learned))]
fn take_event(
    seen: &mut TimersSeen,
    line: u64,
    cpu: CpuId,
    at: Option<u64>,
    event: &TimerEvent,
) -> Result<(), NoMemory>
    ensures { OnOk result (seen.new ≡ timers_learned seen.old line cpu at event.now) }
{
    match event {
        TimerEvent::Armed(arming) => take_arming(seen, cpu, at, arming),
        TimerEvent::Removed(pointer) => take_removal(seen, line, cpu, at, *pointer),
        TimerEvent::Ran(expiry) => take_expiry(seen, line, cpu, at, expiry),
        TimerEvent::Softirq(vec) => take_softirq(seen, line, cpu, *vec),
    }
}

/// Keeps whose timers a CPU runs.
#[tactic(auto, unfolding(crate::specs::Rule::run_begun))]
fn take_run(seen: &mut TimersSeen, cpu: CpuId, event: &CpuEvent) -> Result<(), NoMemory>
    ensures { OnOk result (seen.new ≡ run_begun event.now.kind seen.old cpu event.now) }
{
    match event.kind {
        CpuKind::RunElsewhere => {
            let runner = seen.runner(cpu);
            seen.put_runner(Runner {
                run: Run::Of(event.cpu),
                ..runner
            })
        }
        _ => Ok(()),
    }
}

/// Keeps what an event of timer migration shows of timers.
#[tactic(auto, unfolding(crate::specs::Rule::timers_told))]
fn take_told(seen: &mut TimersSeen, cpu: CpuId, happening: &Happening) -> Result<(), NoMemory>
    ensures { OnOk result (seen.new ≡ timers_told seen.old cpu happening.now) }
{
    match happening {
        Happening::CpuTold(event) => take_run(seen, cpu, event),
        _ => Ok(()),
    }
}

/// Keeps what the line of this number shows of timers. Lost lines leave nothing known.
#[tactic(auto, unfolding(crate::specs::Rule::timers_after))]
pub fn take_timers(
    alloc: Global,
    seen: &mut TimersSeen,
    line: u64,
    said: &Line,
) -> Result<(), NoMemory>
    ensures { OnOk result (seen.new ≡ timers_after seen.old line said.now) }
{
    match said {
        Line::Remark => Ok(()),
        Line::Foreign(_, _) => Ok(()),
        Line::Loss => {
            *seen = TimersSeen::new(alloc);
            Ok(())
        }
        Line::Told(cpu, _, happening) => take_told(seen, *cpu, happening),
        Line::OfTimer(cpu, at, event) => take_event(seen, line, *cpu, *at, event),
    }
}
