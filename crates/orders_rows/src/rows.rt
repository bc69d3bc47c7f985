//! The rows.

use crate::both::{Both, arm};
use core_world::Step;
use orders_world::Answer;
use std::test::Fail;
use tm_base::{Class, CpuId, GroupId, TimerId};

// docs/CHECK.md's walk: CPU 1 goes idle with a global timer, which group 0 then holds, whose
// migrator is CPU 0.
#[test]
fn one_walk_is_the_same_on_both(rt: HostRuntime) -> Result<(), Fail> {
    let mut both = Both::start(rt.alloc(), 2)?;
    both.make(&rt, Step::Clock { now: 10 });
    both.make(&rt, arm(1, Class::Global, 60));
    both.make(&rt, Step::Idle { cpu: CpuId(1) });
    both.walks(&rt, 8, 1);
    let held = Answer::Held {
        level: 0,
        group: GroupId(0),
        cpu: CpuId(0),
    };
    both.end(&rt, 1, 61, held);
    Ok(())
}

// CPU 9 idles; CPU 8 idles after it and climbs, up to its exchange at the top; CPU 9 wakes, which
// makes that reading stale, and then looks after CPU 8's timer in their leaf.
#[test]
fn a_stale_exchange_is_the_same_on_both(rt: HostRuntime) -> Result<(), Fail> {
    let mut both = Both::start(rt.alloc(), 10)?;
    both.make(&rt, arm(8, Class::Global, 60));
    both.make(&rt, Step::Idle { cpu: CpuId(9) });
    both.walks(&rt, 8, 9);
    both.make(&rt, Step::Idle { cpu: CpuId(8) });
    both.walks(&rt, 9, 8);
    both.make(&rt, Step::Wake { cpu: CpuId(9) });
    both.walks(&rt, 4, 9);
    both.walks(&rt, 3, 8);
    let held = Answer::Held {
        level: 0,
        group: GroupId(1),
        cpu: CpuId(9),
    };
    both.end(&rt, 8, 61, held);
    Ok(())
}

// Both CPUs of a group are on their way to idle: the second waits for the lock that the first has.
#[test]
fn a_taken_lock_is_the_same_on_both(rt: HostRuntime) -> Result<(), Fail> {
    let mut both = Both::start(rt.alloc(), 2)?;
    both.make(&rt, arm(0, Class::Global, 60));
    both.make(&rt, Step::Idle { cpu: CpuId(0) });
    both.make(&rt, Step::Idle { cpu: CpuId(1) });
    both.walks(&rt, 4, 0);
    both.walks(&rt, 3, 1);
    both.end(&rt, 0, 61, Answer::UnderWay);
    Ok(())
}

// CPU 1 goes idle with a timer; when that is due CPU 0 marks it, runs its timer, and carries its
// next event upwards.
#[test]
fn a_mark_is_the_same_on_both(rt: HostRuntime) -> Result<(), Fail> {
    let mut both = Both::start(rt.alloc(), 2)?;
    both.make(&rt, arm(1, Class::Global, 60));
    both.make(&rt, Step::Idle { cpu: CpuId(1) });
    both.walks(&rt, 8, 1);
    both.make(&rt, Step::Clock { now: 70 });
    both.make(&rt, Step::Enter { cpu: CpuId(0) });
    both.make(
        &rt,
        Step::Take {
            cpu: CpuId(1),
            by: CpuId(0),
        },
    );
    both.make(
        &rt,
        Step::Hand {
            cpu: CpuId(1),
            timer: TimerId(0),
            runner: CpuId(0),
        },
    );
    both.make(&rt, Step::Carry { cpu: CpuId(1) });
    both.walks(&rt, 5, 1);
    both.make(&rt, Step::Leave { cpu: CpuId(0) });
    both.end(&rt, 1, 61, Answer::Nobody);
    Ok(())
}

// CPU 0 goes offline with a timer, which moves to CPU 1, and comes online again.
#[test]
fn hotplug_is_the_same_on_both(rt: HostRuntime) -> Result<(), Fail> {
    let mut both = Both::start(rt.alloc(), 2)?;
    both.make(&rt, arm(0, Class::Pinned, 60));
    both.make(&rt, Step::Offline { cpu: CpuId(0) });
    both.walks(&rt, 8, 0);
    both.make(
        &rt,
        Step::Move {
            from: CpuId(0),
            to: CpuId(1),
            timer: TimerId(0),
        },
    );
    both.make(&rt, Step::Online { cpu: CpuId(0) });
    both.end(&rt, 0, 60, Answer::UnderWay);
    Ok(())
}

// The only CPU that is awake goes idle with a timer, and wakes for it itself.
#[test]
fn a_wakeup_is_the_same_on_both(rt: HostRuntime) -> Result<(), Fail> {
    let mut both = Both::start(rt.alloc(), 1)?;
    both.make(&rt, arm(0, Class::Global, 60));
    both.make(&rt, Step::Idle { cpu: CpuId(0) });
    both.walks(&rt, 1, 0);
    let woken = Answer::Woken {
        cpu: CpuId(0),
        at: 61,
    };
    both.end(&rt, 0, 61, woken);
    Ok(())
}
