use core_world::Step;
use job_table::JobTable;
use std::alloc::Global;
use std::process::Abort;
use std::sync::Wait;
use std::sync::atomic::{AtomicU64, Ordering};
use std::test::*;
use std::thread::Threads;
use table_stress::{
    Act, Asked, CPUS, Core, Crew, Draws, Hold, LATEST, MOST_MADE, Plan, Ran, TIMERS, Tally, Turn,
    agrees, drawn_turns, episode, is_active, is_quiet_at, is_settled, judged, no_base_behind,
    run_plan, run_steps, start,
};
use tm_base::{Class, CpuId, CpuSet, FreeGate, GroupId, NEVER, NoMemory, Point, TimerId};
use wheel_base::WheelBase;

// How many episodes are drawn here, of four runs each; the program draws more.
const EPISODES: u64 = 50;

#[test]
fn four_threads_leave_a_core_as_it_has_to_be(rt: HostRuntime) -> Result<(), Fail> {
    let mut tally = Tally::new();
    for seed in 0..EPISODES {
        match episode(&rt, rt.alloc(), seed)? {
            Ok(answered) => tally = tally.with(answered),
            Err(broken) => {
                assert!(&rt; false, "seed {seed} run {}", broken.run);
            },
        }
    }
    assert!(&rt; tally.armed > 0 && tally.queued > 0 && tally.cancelled > 0 && tally.nowhere > 0);
    assert!(&rt; tally.rested > 0 && tally.stayed > 0 && tally.woken > 0 && tally.refused > 0);
    assert!(&rt; tally.interrupted > 0 && tally.ran > 0);
    Ok(())
}

// The rounds over one table, and how many turns a round has.
const ROUNDS: u32 = 10_000;

const TURNS: u16 = 24;

#[test]
fn ten_thousand_rounds_over_one_table_leave_a_core_as_it_has_to_be(
    rt: HostRuntime,
) -> Result<(), Fail> {
    let jobs = JobTable::new(Vec::new(rt.alloc()));
    let core = start(rt.alloc(), 1, CPUS as u8, &CpuSet::new(), TIMERS)?;
    let plan = Plan {
        turns: drawn_turns(rt.alloc(), &mut Draws(1), TURNS)?,
        rounds: ROUNDS,
        crew: Crew::Four(3, 6, 9),
    };
    match judged(&rt, rt.alloc(), core, &plan, &jobs, &FreeGate)? {
        Ok(ran) => assert!(&rt; ran.tally.armed > 0 && ran.tally.interrupted > 0),
        Err(flaw) => assert!(&rt; false, "{flaw:?}"),
    }
    Ok(())
}

// One node of so many CPUs at jiffy 10, on which these have armed a global timer each, for jiffies
// that are asked.
fn machine(alloc: Global, cpus: u8, arms: &[(u16, u64)]) -> Result<Core<WheelBase>, NoMemory> {
    let timers = u16::try_from(arms.len()).map_err(|_| NoMemory)?;
    let mut core = start(alloc, 1, cpus, &CpuSet::new(), timers)?;
    let mut steps = Vec::new(alloc);
    steps.push(Step::Clock { now: 10 })?;
    for (timer, (cpu, expires)) in arms.iter().enumerate() {
        steps.push(Step::Arm {
            cpu: CpuId(*cpu),
            timer: TimerId(timer as u16),
            class: Class::Global,
            expires: *expires,
            job: 0,
            arg: 0,
            line: 0,
        })?;
    }
    match run_steps(&mut core, steps.as_slice()) {
        Ok(()) => Ok(core),
        Err(_) => Err(NoMemory),
    }
}

// These turns of one CPU after another, over a core whose passes have begun so many walks; None
// where it isn't at rest, or these are too many.
fn ran<R: Threads + Wait + Sync>(
    rt: &R,
    alloc: Global,
    core: Core<WheelBase>,
    made: u32,
    acts: &[(u16, Act)],
) -> Result<Option<Ran>, NoMemory> {
    if !is_settled(&core) || !no_base_behind(&core) || core.now() > LATEST || made > MOST_MADE {
        return Ok(None);
    }
    let mut turns = Vec::new(alloc);
    for (cpu, act) in acts {
        turns.push(turn(*cpu, *act))?;
    }
    let plan = Plan {
        turns,
        rounds: 1,
        crew: Crew::One,
    };
    let jobs = JobTable::new(Vec::new(alloc));
    Ok(Some(run_plan(rt, alloc, core, made, &plan, &jobs, &FreeGate)?))
}

// What a run over two active CPUs says: how often one was refused for its walks, of how many, how
// often one went idle, woke and had an interrupt, the soonest wakeup, and whether CPU 0 is active.
fn spent_says<R: Threads + Wait + Sync>(
    rt: &R,
    alloc: Global,
    made: u32,
    acts: &[(u16, Act)],
) -> Result<Option<(u64, u32, [u64; 3], u64, bool)>, NoMemory> {
    let core = machine(alloc, 2, &[])?;
    let Some(
        Ran {
            core,
            receipts,
            tally,
        },
    ) = ran(rt, alloc, core, made, acts)?
    else {
        return Ok(None);
    };
    if !agrees(&core) || receipts.len() as u64 != tally.interrupted.saturating_mul(3) {
        return Ok(None);
    }
    let made = [tally.rested, tally.woken, tally.interrupted];
    let active = is_active(&core, CpuId(0));
    Ok(Some((tally.spent, tally.made, made, tally.soonest, active)))
}

// With 4,294,900,000 walks begun a CPU can't go idle, and has no interrupt; with one fewer it can,
// and then can neither wake nor have one. An interrupt that has nothing to do drains three bases.
// The numbers are the contract's.
#[test]
fn who_has_begun_too_many_walks_is_refused(rt: HostRuntime) -> Result<(), Fail> {
    let alloc = rt.alloc();
    let all = MOST_MADE;
    let rest = [(0, Act::Rest)];
    let found = spent_says(&rt, alloc, all, &rest)?;
    assert_eq!(&rt; found, Some((1, 4_294_900_000, [0, 0, 0], NEVER, true)));
    let found = spent_says(&rt, alloc, all - 1, &rest)?;
    assert_eq!(&rt; found, Some((0, 0, [1, 0, 0], NEVER, false)));
    let interrupt = [(0, Act::Interrupt)];
    let found = spent_says(&rt, alloc, all, &interrupt)?;
    assert_eq!(&rt; found, Some((1, 4_294_900_000, [0, 0, 0], NEVER, true)));
    let found = spent_says(&rt, alloc, all - 1, &interrupt)?;
    assert_eq!(&rt; found, Some((0, 0, [0, 0, 1], NEVER, true)));
    let both = [(0, Act::Rest), (0, Act::Interrupt), (0, Act::Wake)];
    let found = spent_says(&rt, alloc, all - 1, &both)?;
    assert_eq!(&rt; found, Some((2, 4_294_900_000, [1, 0, 0], NEVER, false)));
    Ok(())
}

// A timer that there isn't is passed over; one that is queued on another CPU is refused to be armed
// and is cancelled there.
#[test]
fn a_timer_is_armed_once_and_cancelled_from_another_cpu(rt: HostRuntime) -> Result<(), Fail> {
    let core = machine(rt.alloc(), 2, &[(1, 60)])?;
    let asked = Asked {
        timer: TimerId(0),
        class: Class::Global,
        delay: 50,
        job: 0,
        arg: 0,
    };
    let none = Asked {
        timer: TimerId(1),
        ..asked
    };
    let acts = [
        (0, Act::Arm(none)),
        (0, Act::Arm(asked)),
        (0, Act::Cancel { timer: TimerId(0) }),
        (0, Act::Cancel { timer: TimerId(0) }),
        (0, Act::Cancel { timer: TimerId(1) }),
        (0, Act::Arm(asked)),
    ];
    match ran(&rt, rt.alloc(), core, 0, &acts)? {
        Some(
            Ran {
                core,
                receipts,
                tally,
            },
        ) => {
            assert_eq!(&rt;
                (tally.queued, tally.cancelled, tally.nowhere, tally.armed),
                (1, 1, 1, 1)
            );
            assert_eq!(&rt; receipts.len(), 2);
            assert!(&rt; core.timers() == 1 && core.queued_on(TimerId(0)) == Some(CpuId(0)));
        },
        None => assert!(&rt; false, "not at rest"),
    }
    Ok(())
}

// A turn of a CPU.
fn turn(cpu: u16, act: Act) -> Turn {
    Turn {
        cpu: CpuId(cpu),
        act,
    }
}

// The order of a stale exchange, as two threads are forced to make it: CPU 9 idles; CPU 8 idles
// after it, and is held at its exchange at the top until CPU 9 has woken. It answers the core after
// it, how often CPU 8 came to that exchange, and how often a wait was in vain.
fn forced<R: Threads + Wait + Sync>(
    rt: &R,
    alloc: Global,
    core: Core<WheelBase>,
) -> Result<Option<(Core<WheelBase>, u64, u64)>, NoMemory> {
    let gate = Hold {
        first: turn(9, Act::Rest),
        held: turn(8, Act::Rest),
        place: (CpuId(8), 1, Point::BeforeSwap),
        through: turn(9, Act::Wake),
        made: AtomicU64::new(0),
        came: AtomicU64::new(0),
        went: AtomicU64::new(0),
        late: AtomicU64::new(0),
    };
    let mut turns = Vec::new(alloc);
    for turn in [gate.first, gate.held, gate.through] {
        turns.push(turn)?;
    }
    let plan = Plan {
        turns,
        rounds: 1,
        crew: Crew::Two(9),
    };
    let jobs = JobTable::new(Vec::new(alloc));
    match judged(rt, alloc, core, &plan, &jobs, &gate)? {
        Ok(ran) => {
            let came = gate.came.load(Ordering::SeqCst);
            Ok(Some((ran.core, came, gate.late.load(Ordering::SeqCst))))
        },
        Err(_) => Ok(None),
    }
}

// The interrupts of CPUs 0 and 9 at 100, over this core: how many timers ran, and whether nothing
// that is due is left on CPU 8.
fn ran_later<R: Threads + Wait + Sync>(
    rt: &R,
    alloc: Global,
    core: Core<WheelBase>,
) -> Result<Option<(u64, bool)>, NoMemory> {
    let mut core = core;
    let mut steps = Vec::new(alloc);
    steps.push(Step::Clock { now: 100 })?;
    if run_steps(&mut core, steps.as_slice()).is_err() {
        return Ok(None);
    }
    let acts = [(0, Act::Interrupt), (9, Act::Interrupt)];
    match ran(rt, alloc, core, 0, &acts)? {
        Some(ran) => Ok(Some((
            ran.tally.ran,
            is_quiet_at(&ran.core, CpuId(8)) && agrees(&ran.core),
        ))),
        None => Ok(None),
    }
}

// What a group says: its set.
fn active_in(core: &Core<WheelBase>, group: u16) -> u8 {
    if group < core.tree().group_count() {
        core.active(GroupId(group))
    } else {
        0
    }
}

// CPU 8 has a timer for 60, which expires on the wheel at 61. After the order of a stale exchange
// CPU 9 and both children of the top are active; and at 100 the interrupts of active CPUs run the
// timer of CPU 8, which sleeps. The order is that of the core's row, and the end is worked out from
// it by hand.
#[test]
fn the_timer_of_a_cpu_whose_exchange_was_stale_is_run(rt: HostRuntime) -> Result<(), Fail> {
    let core = machine(rt.alloc(), 10, &[(8, 60)])?;
    match forced(&rt, rt.alloc(), core)? {
        Some((core, came, late)) => {
            assert_eq!(&rt; (came, late), (2, 0));
            assert!(&rt; is_active(&core, CpuId(9)) && !is_active(&core, CpuId(8)));
            assert_eq!(&rt; (active_in(&core, 1), active_in(&core, 2)), (2, 3));
            assert_eq!(&rt; ran_later(&rt, rt.alloc(), core)?, Some((1, true)));
        },
        None => assert!(&rt; false, "not at rest"),
    }
    Ok(())
}
