use crate::by_steps::{Stepped, run_by_steps};
use crate::{Crew, Draws, Hold, Plan, Ran, Tally, Turn, Turnstile, Watch, agrees, run_plan};
use core_world::Step;
use idle_wakeup::Core;
use shared_rows::{facts_of, is_settled, no_base_behind, run_steps, start};
use std::alloc::Global;
use std::process::Abort;
use std::sync::Wait;
use std::sync::atomic::{AtomicU64, Ordering};
use std::test::*;
use std::thread::Threads;
use tm_base::{Class, CpuId, CpuSet, FreeGate, GroupId, NEVER, NoMemory, Point, TimerId};
use wheel_base::WheelBase;

// One node of so many CPUs at jiffy 10, on which these have armed a global timer each, for jiffies
// that are asked.
fn machine(alloc: Global, cpus: u8, arms: &[(u16, u64)]) -> Result<Core<WheelBase>, NoMemory> {
    let timers = u16::try_from(arms.len()).map_err(|_| NoMemory)?;
    let mut core = start(alloc, 1, cpus, &CpuSet::new(), timers)?;
    let mut steps = Vec::new(alloc);
    steps.push(Step::Clock { now: 10 })?;
    for (timer, (cpu, expires)) in arms.iter().enumerate() {
        steps.push(Step::Arm {
            cpu: CpuId(*cpu),
            timer: TimerId(timer as u16),
            class: Class::Global,
            expires: *expires,
            job: 0,
            arg: 0,
            line: 0,
        })?;
    }
    match run_steps(&mut core, steps.as_slice()) {
        Ok(()) => Ok(core),
        Err(_) => Err(NoMemory),
    }
}

// A run over this core; None where it isn't at rest.
fn ran<G: Watch + Sync, R: Threads + Wait + Sync>(
    rt: &R,
    alloc: Global,
    core: Core<WheelBase>,
    plan: &Plan,
    gate: &G,
) -> Result<Option<Ran>, NoMemory> {
    if !is_settled(&core) || !no_base_behind(&core) {
        return Ok(None);
    }
    Ok(Some(run_plan(rt, alloc, core, plan, gate)?))
}

// These turns, once.
fn once(alloc: Global, crew: Crew, turns: &[Turn]) -> Result<Plan, NoMemory> {
    let mut list = Vec::new(alloc);
    for turn in turns {
        list.push(*turn)?;
    }
    Ok(Plan {
        turns: list,
        rounds: 1,
        crew,
    })
}

// What a group says: its set, its migrator, and for one of its children whether its event is there
// and ignored.
fn group_says(core: &Core<WheelBase>, group: u16, child: u8) -> (u8, Option<u8>, bool) {
    if group >= core.tree().group_count() || child >= 8 {
        return (0, None, false);
    }
    let group = GroupId(group);
    let ignored = match core.events(group).get(child) {
        Some(event) => event.ignored,
        None => false,
    };
    (core.active(group), core.migrator(group), ignored)
}

// Whether a CPU is idle, and its wakeup.
fn cpu_says(core: &Core<WheelBase>, cpu: u16) -> (bool, u64) {
    if cpu >= core.count() {
        return (false, 0);
    }
    let state = core.cpu(CpuId(cpu));
    (state.idle, state.wakeup)
}

// CPU 1 tells its timer for 60, which expires on the wheel at 61, to its group, in which CPU 0 is
// active: it sleeps on. CPU 0 finds it there as the top goes idle. CPU 1 wakes, so its event is
// ignored. The row is worked by hand from the stages of the walks.
#[test]
fn the_last_to_go_idle_wakes_for_the_other_one(rt: HostRuntime) -> Result<(), Fail> {
    let core = machine(rt.alloc(), 2, &[(1, 60)])?;
    let turns = [
        Turn::Rest(CpuId(1)),
        Turn::Rest(CpuId(0)),
        Turn::Wake(CpuId(1)),
    ];
    let plan = once(rt.alloc(), Crew::One, &turns)?;
    match ran(&rt, rt.alloc(), core, &plan, &FreeGate)? {
        Some(Ran { core, tally }) => {
            assert_eq!(&rt;
                tally,
                Tally {
                    rested: 2,
                    stayed: 0,
                    woken: 1,
                    refused: 0,
                    soonest: 61,
                    latest: NEVER,
                }
            );
            assert_eq!(&rt; group_says(&core, 0, 1), (2, Some(1), true));
            assert_eq!(&rt; cpu_says(&core, 0), (true, 61));
            assert_eq!(&rt; cpu_says(&core, 1), (false, NEVER));
            assert!(&rt; agrees(&core));
        },
        None => assert!(&rt; false, "not at rest"),
    }
    Ok(())
}

// How often two threads let the two CPUs rest at once.
const MEETINGS: u32 = 1000;

// Two CPUs, of which one has a timer for 61, go idle at once. Whoever is last at the top finds the
// other's event there, if that isn't its own; so one of the two wakes for it.
#[test]
fn of_two_that_go_idle_at_once_one_wakes_for_the_timer(rt: HostRuntime) -> Result<(), Fail> {
    let mut core = machine(rt.alloc(), 2, &[(1, 60)])?;
    let rest = [Turn::Rest(CpuId(0)), Turn::Rest(CpuId(1))];
    let wake = [Turn::Wake(CpuId(0)), Turn::Wake(CpuId(1))];
    let rest = once(rt.alloc(), Crew::Two(1), &rest)?;
    let wake = once(rt.alloc(), Crew::Two(1), &wake)?;
    for _meeting in 0..MEETINGS {
        let Some(idle) = ran(&rt, rt.alloc(), core, &rest, &FreeGate)? else {
            assert!(&rt; false, "not at rest");
            return Ok(());
        };
        let (first, one) = cpu_says(&idle.core, 0);
        let (second, other) = cpu_says(&idle.core, 1);
        assert!(&rt; first && second && (one == 61 || other == 61));
        assert!(&rt; agrees(&idle.core));
        let Some(awake) = ran(&rt, rt.alloc(), idle.core, &wake, &FreeGate)? else {
            assert!(&rt; false, "not at rest");
            return Ok(());
        };
        assert_eq!(&rt; awake.tally.woken, 2);
        assert!(&rt; agrees(&awake.core));
        core = awake.core;
    }
    Ok(())
}

// CPU 9 idles. CPU 8 idles after it and climbs, up to its exchange at the top, where it is held
// while CPU 9 wakes: that makes its reading of the top stale. So its exchange fails, it reads its
// group again, which it finds active, and comes to the exchange once more. The order and its end
// are those of the core's row of a stale exchange.
#[test]
fn a_stale_exchange_is_found_on_the_shared_words(rt: HostRuntime) -> Result<(), Fail> {
    let core = machine(rt.alloc(), 10, &[])?;
    let gate = Hold {
        first: Turn::Rest(CpuId(9)),
        held: Turn::Rest(CpuId(8)),
        place: (CpuId(8), 1, Point::BeforeSwap),
        through: Turn::Wake(CpuId(9)),
        made: AtomicU64::new(0),
        came: AtomicU64::new(0),
        went: AtomicU64::new(0),
        late: AtomicU64::new(0),
    };
    let turns = [gate.first, gate.held, gate.through];
    let plan = once(rt.alloc(), Crew::Two(9), &turns)?;
    match ran(&rt, rt.alloc(), core, &plan, &gate)? {
        Some(Ran { core, tally }) => {
            assert_eq!(&rt; gate.late.load(Ordering::SeqCst), 0);
            assert_eq!(&rt; gate.came.load(Ordering::SeqCst), 2);
            assert_eq!(&rt; (tally.rested, tally.woken, tally.refused), (2, 1, 0));
            assert_eq!(&rt; group_says(&core, 1, 1), (2, Some(1), false));
            assert_eq!(&rt; group_says(&core, 2, 1), (3, Some(0), false));
            assert_eq!(&rt; cpu_says(&core, 8), (true, NEVER));
            assert_eq!(&rt; cpu_says(&core, 9), (false, NEVER));
            assert!(&rt; agrees(&core));
        },
        None => assert!(&rt; false, "not at rest"),
    }
    Ok(())
}

// So many walking steps of a CPU.
fn add_walks(steps: &mut Vec<Step>, count: u8, cpu: u16) -> Result<(), NoMemory> {
    for _ in 0..count {
        steps.push(Step::Walk { cpu: CpuId(cpu) })?;
    }
    Ok(())
}

// The core's row of a stale exchange, and the walk of CPU 8 from there to its end: two locks, a
// look at its child, which is active again, two locks given back, and its end.
fn stale_steps(alloc: Global) -> Result<Vec<Step>, NoMemory> {
    let mut steps = Vec::new(alloc);
    steps.push(Step::Idle { cpu: CpuId(9) })?;
    add_walks(&mut steps, 8, 9)?;
    steps.push(Step::Idle { cpu: CpuId(8) })?;
    add_walks(&mut steps, 9, 8)?;
    steps.push(Step::Wake { cpu: CpuId(9) })?;
    add_walks(&mut steps, 4, 9)?;
    add_walks(&mut steps, 3, 8)?;
    add_walks(&mut steps, 6, 8)?;
    Ok(steps)
}

// The same steps, by one call each: on a core, and on the shared words by one thread that has the
// locks of CPUs 8 and 9. It answers what either core says then, and the second one with how many
// of its steps were made; None where the core isn't at rest, or a step isn't enabled.
fn by_calls<R: Wait>(
    rt: &R,
    alloc: Global,
    steps: &[Step],
) -> Result<Option<(Vec<u64>, Vec<u64>, Stepped)>, NoMemory> {
    let mut plain = machine(alloc, 10, &[])?;
    let core = machine(alloc, 10, &[])?;
    if !is_settled(&core) || !no_base_behind(&core) || run_steps(&mut plain, steps).is_err() {
        return Ok(None);
    }
    let stepped = run_by_steps(rt, alloc, core, steps, (CpuId(8), CpuId(9)))?;
    let facts = facts_of(alloc, &plain)?;
    let others = facts_of(alloc, &stepped.core)?;
    Ok(Some((facts, others, stepped)))
}

// The same order by step calls of one thread: between CPU 8's reading of the top and its exchange
// there CPU 9 wakes, and its exchange leaves the top as it was, but for the sequence. Every step is
// made, and the core of the end is that to which the same steps bring a core.
#[test]
fn one_thread_forces_a_stale_exchange_by_its_steps(rt: HostRuntime) -> Result<(), Fail> {
    let steps = stale_steps(rt.alloc())?;
    match by_calls(&rt, rt.alloc(), steps.as_slice())? {
        Some((facts, others, Stepped { core, made })) => {
            assert_eq!(&rt; made, steps.len() as u64);
            assert_eq!(&rt; facts.as_slice(), others.as_slice());
            assert_eq!(&rt; group_says(&core, 1, 1), (2, Some(1), false));
            assert_eq!(&rt; group_says(&core, 2, 1), (3, Some(0), false));
            assert_eq!(&rt; cpu_says(&core, 8), (true, NEVER));
            assert_eq!(&rt; cpu_says(&core, 9), (false, NEVER));
            assert!(&rt; agrees(&core));
        },
        None => assert!(&rt; false, "a step is not enabled"),
    }
    Ok(())
}

// How many schedules are drawn for each crew.
const SCHEDULES: u64 = 500;

// The CPUs of the machine: a leaf of eight and one of four.
const CPUS: u16 = 12;

// How many turns a schedule has, and how many places in the order of its gates.
const TURNS: u16 = 12;

const PLACES: u16 = 64;

// Turns of CPUs that are drawn among those of some kinds: three of four go idle.
fn drawn_turns(
    alloc: Global,
    draws: &mut Draws,
    kinds: &[u8],
    count: u8,
) -> Result<Vec<Turn>, NoMemory> {
    let mut turns = Vec::new(alloc);
    for _turn in 0..TURNS {
        let cpu = draws.below(CPUS);
        let rests = draws.below(4) != 0;
        if let Some(kind) = kinds.get(usize::from(cpu)) {
            if *kind < count {
                let turn = if rests {
                    Turn::Rest(CpuId(cpu))
                } else {
                    Turn::Wake(CpuId(cpu))
                };
                turns.push(turn)?;
            }
        }
    }
    Ok(turns)
}

// A gate of these kinds, with an order that is drawn.
fn drawn_gate(
    alloc: Global,
    draws: &mut Draws,
    kinds: &[u8],
    count: u8,
) -> Result<Turnstile, NoMemory> {
    let mut order = Vec::new(alloc);
    for _place in 0..PLACES {
        order.push((draws.below(u16::from(count)) % 256) as u8)?;
    }
    let mut all = Vec::new(alloc);
    for kind in kinds {
        all.push(*kind)?;
    }
    Ok(Turnstile {
        kinds: all,
        order,
        over: AtomicU64::new(0),
    })
}

// Whether each CPU is idle after these turns, of which each CPU makes its own in order, if it was
// so or not before; and how many of them are refused.
fn idle_after(idle: &mut [bool], turns: &[Turn]) -> u64 {
    let mut refused = 0u64;
    for turn in turns {
        let (cpu, rests) = match *turn {
            Turn::Rest(cpu) => (usize::from(cpu.0), true),
            Turn::Wake(cpu) => (usize::from(cpu.0), false),
        };
        if cpu < idle.len() {
            if idle[cpu] == rests {
                refused = refused.saturating_add(1);
            }
            idle[cpu] = rests;
        }
    }
    refused
}

// Whether each CPU is idle as it should be.
fn are_idle(core: &Core<WheelBase>, idle: &[bool]) -> bool {
    for (cpu, rests) in idle.iter().enumerate() {
        let (found, _) = cpu_says(core, (cpu % 65_536) as u16);
        if found != *rests {
            return false;
        }
    }
    true
}

// Schedules that are drawn, one after another over one core: so many threads take turns, whose
// walks gates hold and free in an order that is drawn too. After each the core is at rest, and as
// the turns say.
fn schedules<R: Threads + Wait + Sync + Abort>(
    rt: &R,
    alloc: Global,
    crew: Crew,
    kinds: &[u8],
    count: u8,
) -> Result<(), NoMemory> {
    let arms = [(0, 60), (3, 70), (5, 80), (8, 65), (9, 90), (11, 60)];
    let mut core = machine(alloc, CPUS as u8, &arms)?;
    let mut idle = [false; CPUS as usize];
    let mut draws = Draws(u64::from(count));
    for _schedule in 0..SCHEDULES {
        let plan = Plan {
            turns: drawn_turns(alloc, &mut draws, kinds, count)?,
            rounds: 1,
            crew,
        };
        let gate = drawn_gate(alloc, &mut draws, kinds, count)?;
        let refused = idle_after(&mut idle, plan.turns.as_slice());
        let Some(after) = ran(rt, alloc, core, &plan, &gate)? else {
            assert!(rt; false, "not at rest");
            return Ok(());
        };
        assert_eq!(rt; after.tally.refused, refused);
        assert_eq!(rt; after.tally.stayed, 0);
        assert!(rt; are_idle(&after.core, &idle) && agrees(&after.core));
        core = after.core;
    }
    Ok(())
}

#[test]
fn two_threads_that_are_held_anywhere_leave_a_core_at_rest(rt: HostRuntime) -> Result<(), Fail> {
    let kinds = [0, 0, 0, 0, 0, 0, 1, 1, 1, 1, 1, 1];
    schedules(&rt, rt.alloc(), Crew::Two(6), &kinds, 2)?;
    let leaves = [0, 0, 0, 0, 0, 0, 0, 0, 1, 1, 1, 1];
    schedules(&rt, rt.alloc(), Crew::Two(8), &leaves, 2)?;
    Ok(())
}

#[test]
fn three_and_four_threads_that_are_held_anywhere_leave_a_core_at_rest(
    rt: HostRuntime,
) -> Result<(), Fail> {
    let kinds = [0, 0, 0, 1, 1, 1, 2, 2, 2, 3, 3, 3];
    schedules(&rt, rt.alloc(), Crew::Four(3, 6, 9), &kinds, 3)?;
    schedules(&rt, rt.alloc(), Crew::Four(3, 6, 9), &kinds, 4)?;
    Ok(())
}
