use core_world::Step;
use held_gates::{Core, HeldCall, Place, is_settled, run_steps};
use std::alloc::Global;
use std::sync::Wait;
use std::sync::atomic::{AtomicU64, Ordering};
use std::test::Fail;
use std::thread::Threads;
use tm_base::{Class, CpuId, CpuSet, FreeGate, Gate, NoMemory, Point, TimerId};
use walk_rows::{Crew, Plan, Ran, Turn, Watch, agrees, is_active, no_base_behind, run_plan, start};
use wheel_base::WheelBase;

// Holds a turn of a run of turns until another one is over.
#[derive(Drop)]
struct ByTurns {
    held: Turn,
    through: Turn,
    call: HeldCall,
    // how often CPU 9 came to join the top
    rose: AtomicU64,
}

impl Gate for ByTurns {
    fn at(&self, cpu: CpuId, level: u8, point: Point) {
        if (cpu, level, point) == (CpuId(9), 1, Point::BeforeUp) {
            self.rose.fetch_add(1, Ordering::SeqCst);
        }
        self.call.come_to(Place { cpu, level, point });
    }
}

impl Watch for ByTurns {
    fn before(&self, turn: Turn) {
        if turn == self.through {
            self.call.begin();
        }
    }

    fn after(&self, turn: Turn) {
        if turn == self.through {
            self.call.answer();
        } else if turn == self.held {
            self.call.give_back();
        }
    }
}

// Ten CPUs at jiffy 10: a leaf of eight, and one of CPUs 8 and 9, each of which has a global timer.
fn machine(alloc: Global) -> Result<Core<WheelBase>, NoMemory> {
    let mut core = start(alloc, 1, 10, &CpuSet::new(), 2)?;
    let mut steps = Vec::new(alloc);
    steps.push(Step::Clock { now: 10 })?;
    for (timer, cpu, expires) in [(0, 8, 60), (1, 9, 70)] {
        steps.push(Step::Arm {
            cpu: CpuId(cpu),
            timer: TimerId(timer),
            class: Class::Global,
            expires,
            job: 0,
            arg: 0,
            line: 0,
        })?;
    }
    match run_steps(&mut core, steps.as_slice()) {
        Ok(()) => Ok(core),
        Err(_) => Err(NoMemory),
    }
}

// These turns, by two threads of which the second has CPU 9 alone.
fn turns_of(alloc: Global, turns: &[Turn]) -> Result<Plan, NoMemory> {
    let mut list = Vec::new(alloc);
    for turn in turns {
        list.push(*turn)?;
    }
    Ok(Plan {
        turns: list,
        rounds: 1,
        crew: Crew::Two(9),
    })
}

// A run over this core; None where it isn't at rest.
fn ran<G: Watch + Sync, R: Threads + Wait + Sync>(
    rt: &R,
    alloc: Global,
    core: Core<WheelBase>,
    plan: &Plan,
    gate: &G,
) -> Result<Option<Ran>, NoMemory> {
    if !is_settled(&core) || !no_base_behind(&core) {
        return Ok(None);
    }
    Ok(Some(run_plan(rt, alloc, core, plan, gate)?))
}

// CPU 9 goes idle, and CPU 8 too where it is to wake. Then CPU 8 makes its turn and is held there,
// until CPU 9 has woken. How often CPU 9 came to join the top, where the two met so, both calls were
// answered Ok, each CPU is as its turn leaves it, and the groups and answers are right.
fn rises_past<R: Threads + Wait + Sync>(
    rt: &R,
    alloc: Global,
    held: Turn,
    level: u8,
    point: Point,
) -> Result<Option<u64>, NoMemory> {
    let wakes = held == Turn::Wake(CpuId(8));
    let mut before = turns_of(alloc, &[Turn::Rest(CpuId(9))])?;
    if wakes {
        before.turns.push(Turn::Rest(CpuId(8)))?;
    }
    let Some(start) = ran(rt, alloc, machine(alloc)?, &before, &FreeGate)? else {
        return Ok(None);
    };
    let through = Turn::Wake(CpuId(9));
    let gate = ByTurns {
        held,
        through,
        call: HeldCall::new(Place {
            cpu: CpuId(8),
            level,
            point,
        }),
        rose: AtomicU64::new(0),
    };
    let plan = turns_of(alloc, &[held, through])?;
    let Some(Ran { core, tally }) = ran(rt, alloc, start.core, &plan, &gate)? else {
        return Ok(None);
    };
    let answered = (tally.rested, tally.woken) == if wakes { (0, 2) } else { (1, 1) };
    let stand = is_active(&core, CpuId(8)) == wakes && is_active(&core, CpuId(9));
    let right = gate.call.met() && answered && stand && agrees(&core);
    Ok(if right {
        Some(gate.rose.load(Ordering::SeqCst))
    } else {
        None
    })
}

// Whether the two met so, and all of that was right.
fn wakes_past<R: Threads + Wait + Sync>(
    rt: &R,
    alloc: Global,
    held: Turn,
    level: u8,
    point: Point,
) -> Result<bool, NoMemory> {
    Ok(rises_past(rt, alloc, held, level, point)?.is_some())
}

// CPU 8 has joined its leaf, and not yet the top.
#[test]
fn a_cpu_wakes_while_another_one_is_held_between_leaf_and_top(rt: HostRuntime) -> Result<(), Fail> {
    assert!(rt; wakes_past(&rt, rt.alloc(), Turn::Wake(CpuId(8)), 1, Point::BeforeUp)?);
    Ok(())
}

// A gate stands before its exchange. CPU 8 is held before it joins its leaf: so CPU 9 is the first
// one of the leaf that is awake, and goes on to the top. And CPU 8 is held before it joins the top:
// so the leaf has one that is awake, and CPU 9 goes no further. (`tmigr_active_up`: a walk goes on
// where the group was without a migrator.)
#[test]
fn a_cpu_that_is_held_before_it_joins_a_group_has_not_joined_it(
    rt: HostRuntime,
) -> Result<(), Fail> {
    let wake = Turn::Wake(CpuId(8));
    for (level, rose) in [(0, 1), (1, 0)] {
        let found = rises_past(&rt, rt.alloc(), wake, level, Point::BeforeUp)?;
        assert_eq!(&rt; found, Some(rose), "level {level}");
    }
    Ok(())
}

// The walks of CPU 8 past each of their points. At level 1 a walk that is about to store has the
// locks of its leaf and of the top.
#[test]
fn a_cpu_wakes_at_whatever_point_another_ones_walk_is_held(rt: HostRuntime) -> Result<(), Fail> {
    let wake = Turn::Wake(CpuId(8));
    let rest = Turn::Rest(CpuId(8));
    let rows = [
        (wake, 0, Point::BeforeUp),
        (wake, 0, Point::BeforeMark),
        (rest, 1, Point::BeforeChildRead),
        (rest, 1, Point::BeforeSwap),
        (rest, 1, Point::BeforeLock),
        (rest, 1, Point::BeforeStore),
    ];
    for (i, (held, level, point)) in rows.iter().enumerate() {
        let passed = wakes_past(&rt, rt.alloc(), *held, *level, *point)?;
        assert!(rt; passed, "row {i}");
    }
    Ok(())
}
