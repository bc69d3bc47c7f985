ghost use Rattle.std.specs.Prelude.{◌≡◌, ◌≤◌};
ghost use Rattle.tm_base.specs.declared.limits.TheConstants.{MOST_NODE_CPUS};

use super::*;
use core_world::Step;
use std::alloc::Global;
use std::process::Abort;
use std::test::Fail;
use step_core::{Core, one_node_core};
use tm_base::{Class, CpuId, GroupId, NEVER, NoMemory, TimerId};
use walk_rules::Stage;
use wheel_core::ListBase;

fn add_walks(steps: &mut Vec<Step>, times: u8, cpu: u16) -> Result<(), NoMemory> {
    for _walk in 0..times {
        steps.push(Step::Walk { cpu: CpuId(cpu) })?;
    }
    Ok(())
}

/// A global timer on a CPU, for jiffy 60.
fn arm(cpu: u16) -> Step {
    Step::Arm {
        cpu: CpuId(cpu),
        timer: TimerId(0),
        class: Class::Global,
        expires: 60,
        job: 0,
        arg: 0,
        line: 0,
    }
}

/// Makes steps, which has to answer as wanted. What a test knows of the core afterwards it reads.
fn make(
    rt: &impl Abort,
    core: &mut Core<ListBase>,
    steps: &[Step],
    wanted: Result<(), StepsFault>,
) {
    assert_eq!(rt; run_steps(core, steps), wanted);
}

/// The core of one node, of which nothing is known but what a test reads.
fn node_core(alloc: Global, cpus: u8, timers: u16) -> Result<Core<ListBase>, NoMemory>
    requires some { 1 ≤ cpus }
    requires few { cpus ≤ MOST_NODE_CPUS }
{
    one_node_core(alloc, cpus, timers)
}

fn check_group(rt: &impl Abort, core: &Core<ListBase>, g: u16, active: u8, migrator: Option<u8>) {
    assert!(rt; g < core.tree().group_count());
    assert_eq!(rt; core.active(GroupId(g)), active, "of group {g}");
    assert_eq!(rt; core.migrator(GroupId(g)), migrator, "of group {g}");
}

fn stale_steps(alloc: Global) -> Result<Vec<Step>, NoMemory> {
    let mut steps = Vec::new(alloc);
    steps.push(Step::Idle { cpu: CpuId(9) })?;
    add_walks(&mut steps, 8, 9)?;
    steps.push(Step::Idle { cpu: CpuId(8) })?;
    add_walks(&mut steps, 9, 8)?;
    steps.push(Step::Wake { cpu: CpuId(9) })?;
    add_walks(&mut steps, 4, 9)?;
    add_walks(&mut steps, 3, 8)?;
    Ok(steps)
}

// CPU 9 idles; CPU 8 idles after it and climbs, up to its exchange at the top; CPU 9 wakes, which
// makes that reading of the top stale; so CPU 8's exchange fails, and its next one finds its group
// active. The row and what it leaves are those that are computed from the definitions.
#[test]
fn a_stale_exchange_fails(rt: HostRuntime) -> Result<(), Fail> {
    let mut core = node_core(rt.alloc(), 10, 0)?;
    let steps = stale_steps(rt.alloc())?;
    make(&rt, &mut core, steps.as_slice(), Ok(()));
    check_group(&rt, &core, 1, 2, Some(1));
    check_group(&rt, &core, 2, 3, Some(0));
    assert!(&rt; 8 < core.tree().cpu_count());
    assert_eq!(&rt; core.cpu(CpuId(8)).idle, true);
    let stands = match core.walk(CpuId(8)) {
        Some(walk) => walk.level == 1 && matches!(walk.stage, Stage::LockChild),
        None => false,
    };
    assert_eq!(&rt; stands, true);
    Ok(())
}

fn lost_steps(alloc: Global) -> Result<Vec<Step>, NoMemory> {
    let mut steps = Vec::new(alloc);
    steps.push(Step::Idle { cpu: CpuId(8) })?;
    add_walks(&mut steps, 2, 8)?;
    steps.push(Step::Idle { cpu: CpuId(9) })?;
    add_walks(&mut steps, 3, 9)?;
    add_walks(&mut steps, 1, 8)?;
    Ok(steps)
}

// Two CPUs of a leaf idle at once. CPU 8 has read the leaf's word and its own when CPU 9 makes its
// exchange there; so the exchange of CPU 8 fails, and it stands at its own word again, still active
// in its leaf. Two steps later it has made its exchange, and stands before the leaf's lock. The row
// is worked by hand from the stages of a deactivation.
#[test]
fn a_stale_exchange_leaves_the_word_and_reads_again(rt: HostRuntime) -> Result<(), Fail> {
    let mut core = node_core(rt.alloc(), 10, 0)?;
    let steps = lost_steps(rt.alloc())?;
    make(&rt, &mut core, steps.as_slice(), Ok(()));
    check_group(&rt, &core, 1, 1, Some(0));
    assert!(&rt; 8 < core.tree().cpu_count());
    let reads_again = match core.walk(CpuId(8)) {
        Some(walk) => walk.fresh && matches!(walk.stage, Stage::Child),
        None => false,
    };
    assert_eq!(&rt; reads_again, true);
    let more = [Step::Walk { cpu: CpuId(8) }, Step::Walk { cpu: CpuId(8) }];
    make(&rt, &mut core, more.as_slice(), Ok(()));
    check_group(&rt, &core, 1, 0, None);
    assert!(&rt; 8 < core.tree().cpu_count());
    let waits = match core.walk(CpuId(8)) {
        Some(walk) => matches!(walk.stage, Stage::LockGroup),
        None => false,
    };
    assert_eq!(&rt; waits, true);
    Ok(())
}

// An active CPU isn't woken.
#[test]
fn a_step_that_is_not_enabled_is_named(rt: HostRuntime) -> Result<(), Fail> {
    let mut core = node_core(rt.alloc(), 10, 0)?;
    let steps = [Step::Wake { cpu: CpuId(0) }];
    make(
        &rt,
        &mut core,
        steps.as_slice(),
        Err(StepsFault::NotEnabled { index: 0 }),
    );
    Ok(())
}

fn leaving_steps(alloc: Global) -> Result<Vec<Step>, NoMemory> {
    let mut steps = Vec::new(alloc);
    steps.push(Step::Offline { cpu: CpuId(0) })?;
    add_walks(&mut steps, 8, 0)?;
    Ok(steps)
}

// Of two placed CPUs the first goes offline, so the other one may not; once the first is online
// again, the other may.
#[test]
fn the_last_placed_cpu_stays_online(rt: HostRuntime) -> Result<(), Fail> {
    let mut core = node_core(rt.alloc(), 2, 0)?;
    let leaving = leaving_steps(rt.alloc())?;
    make(&rt, &mut core, leaving.as_slice(), Ok(()));
    let last = [Step::Offline { cpu: CpuId(1) }];
    make(
        &rt,
        &mut core,
        last.as_slice(),
        Err(StepsFault::NotEnabled { index: 0 }),
    );
    let again = [
        Step::Online { cpu: CpuId(0) },
        Step::Offline { cpu: CpuId(1) },
    ];
    make(&rt, &mut core, again.as_slice(), Ok(()));
    Ok(())
}

// As docs/USE.md shows it: a CPU goes idle with a global timer, and tells it to the other CPU of
// its group.
#[test]
fn an_idle_cpu_tells_its_timer(rt: HostRuntime) -> Result<(), Fail> {
    // One node of two CPUs, with one timer. At jiffy 10 CPU 1 arms it for 60, and goes idle.
    let mut core = node_core(rt.alloc(), 2, 1)?;
    let mut steps = Vec::new(rt.alloc());
    steps.push(Step::Clock { now: 10 })?;
    steps.push(arm(1))?;
    steps.push(Step::Idle { cpu: CpuId(1) })?;
    // Its walk takes eight steps; steps of other CPUs may come between any two of them.
    add_walks(&mut steps, 8, 1)?;
    assert_eq!(&rt; run_steps(&mut core, steps.as_slice()), Ok(()));
    // The headline holds of every core. Here CPU 1 sleeps on, since its group's migrator is CPU 0.
    law_covered(&core);
    check_group(&rt, &core, 0, 1, Some(0));
    assert!(&rt; 1 < core.tree().cpu_count());
    assert_eq!(&rt; core.walk(CpuId(1)).is_none(), true);
    assert_eq!(&rt; core.cpu(CpuId(1)).wakeup, NEVER);
    assert!(&rt; 0 < core.tree().group_count());
    let told = match core.events(GroupId(0)).get(1) {
        Some(event) => event.expiry == 61 && event.cpu == CpuId(1) && !event.ignored,
        None => false,
    };
    assert_eq!(&rt; told, true);
    Ok(())
}

/// A core of the same world.
fn taken_apart(core: Core<ListBase>) -> Core<ListBase>
    ensures { result ≡ core }
{
    Core::from_parts(core.into_parts())
}

/// CPU 9 goes idle, and has the lock of its leaf; CPU 0 has an armed timer.
fn in_mid_walk(rt: &impl Abort, alloc: Global) -> Result<Core<ListBase>, NoMemory> {
    let mut core = node_core(alloc, 10, 1)?;
    let mut steps = Vec::new(alloc);
    steps.push(Step::Clock { now: 10 })?;
    steps.push(arm(0))?;
    steps.push(Step::Idle { cpu: CpuId(9) })?;
    add_walks(&mut steps, 4, 9)?;
    make(rt, &mut core, steps.as_slice(), Ok(()));
    Ok(core)
}

fn check_leaf(rt: &impl Abort, core: &Core<ListBase>, lock: Option<CpuId>) {
    check_group(rt, core, 1, 1, Some(0));
    assert!(rt; 1 < core.tree().group_count());
    assert_eq!(rt; core.lock_of(GroupId(1)), lock);
    assert_eq!(rt; core.now(), 10);
    assert!(rt; 0 < core.timers());
    assert_eq!(rt; core.queued_on(TimerId(0)), Some(CpuId(0)));
}

// It is put together between two steps of a walk, with a lock held, and then goes on as one that
// was left whole. The row is worked by hand from the stages of a deactivation.
#[test]
fn a_core_taken_apart_in_mid_walk_goes_on(rt: HostRuntime) -> Result<(), Fail> {
    let mut whole = in_mid_walk(&rt, rt.alloc())?;
    let mut again = taken_apart(in_mid_walk(&rt, rt.alloc())?);
    check_leaf(&rt, &again, Some(CpuId(9)));
    let mut more = Vec::new(rt.alloc());
    add_walks(&mut more, 4, 9)?;
    make(&rt, &mut whole, more.as_slice(), Ok(()));
    make(&rt, &mut again, more.as_slice(), Ok(()));
    check_leaf(&rt, &whole, None);
    check_leaf(&rt, &again, None);
    assert!(&rt; 9 < again.tree().cpu_count());
    assert_eq!(&rt; again.walk(CpuId(9)).is_none(), true);
    Ok(())
}

// CPU 1 goes idle with a timer; when that is due CPU 0 marks it.
fn marking_steps(alloc: Global) -> Result<Vec<Step>, NoMemory> {
    let mut steps = Vec::new(alloc);
    steps.push(arm(1))?;
    steps.push(Step::Idle { cpu: CpuId(1) })?;
    add_walks(&mut steps, 8, 1)?;
    steps.push(Step::Clock { now: 70 })?;
    steps.push(Step::Enter { cpu: CpuId(0) })?;
    steps.push(Step::Take {
        cpu: CpuId(1),
        by: CpuId(0),
    })?;
    Ok(steps)
}

// CPU 0 runs CPU 1's timer, and carries its next event upwards.
fn carrying_steps(alloc: Global) -> Result<Vec<Step>, NoMemory> {
    let mut steps = Vec::new(alloc);
    steps.push(Step::Hand {
        cpu: CpuId(1),
        timer: TimerId(0),
        runner: CpuId(0),
    })?;
    steps.push(Step::Carry { cpu: CpuId(1) })?;
    add_walks(&mut steps, 5, 1)?;
    Ok(steps)
}

// CPU 1 goes idle with a global timer. When it is due, CPU 0 marks CPU 1 inside its interrupt, and
// so may not leave it, until the walk that tells CPU 1's next event has taken the mark away.
#[test]
fn a_cpu_that_has_marked_another_stays_inside(rt: HostRuntime) -> Result<(), Fail> {
    let mut core = node_core(rt.alloc(), 2, 1)?;
    let steps = marking_steps(rt.alloc())?;
    make(&rt, &mut core, steps.as_slice(), Ok(()));
    let leave = [Step::Leave { cpu: CpuId(0) }];
    make(
        &rt,
        &mut core,
        leave.as_slice(),
        Err(StepsFault::NotEnabled { index: 0 }),
    );
    let carried = carrying_steps(rt.alloc())?;
    make(&rt, &mut core, carried.as_slice(), Ok(()));
    make(&rt, &mut core, leave.as_slice(), Ok(()));
    Ok(())
}
