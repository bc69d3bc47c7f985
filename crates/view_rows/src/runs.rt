use linux_lines::{CpuEvent, CpuKind, Happening, Line, NO_EXPIRY};
use linux_runs::*;
use linux_seen::seen::{CpuSeen, Seen, unknown_cpu};
use std::test::Fail;
use tm_base::{CpuId, NoMemory};

/// The run of CPU 1's timers by CPU 0 at this time.
fn run_at(time: u64) -> Line {
    Line::Told(
        CpuId(0),
        Some(time),
        Happening::CpuTold(CpuEvent {
            kind: CpuKind::RunElsewhere,
            cpu: CpuId(1),
            leaf: 160,
            expiry: NO_EXPIRY,
            wakeup: NO_EXPIRY,
        }),
    )
}

/// CPU 1 has an event at one millisecond.
fn with_event(seen: &mut Seen) -> Result<(), NoMemory> {
    seen.put_cpu(CpuSeen {
        event: Some(1_000_000),
        ..unknown_cpu(CpuId(1))
    })
}

// A tick of a kernel with HZ = 250 is 4 ms: a run in the tick after the event is late by up to
// that.
#[test]
fn a_run_is_counted_by_how_late_it_is(rt: HostRuntime) -> Result<(), Fail> {
    let mut seen = Seen::new(rt.alloc());
    let first = runs_after(no_runs(), &seen, &run_at(2_000_000));
    assert_eq!(rt; first.unsure, 1);
    with_event(&mut seen).ok().ok_or("no memory")?;
    let second = runs_after(first, &seen, &run_at(4_999_000));
    assert_eq!(rt; second.in_4_ms, 1);
    let third = runs_after(second, &seen, &run_at(5_000_000));
    assert_eq!(rt; third.in_10_ms, 1);
    assert_eq!(rt; third.unsure, 1);
    assert_eq!(rt; third.itself, 0);
    Ok(())
}

#[test]
fn nothing_but_a_run_is_counted(rt: HostRuntime) -> Result<(), Fail> {
    let seen = Seen::new(rt.alloc());
    let runs = runs_after(no_runs(), &seen, &Line::Foreign(CpuId(3), false));
    assert_eq!(rt; runs.unsure, 0);
    let differences = differences_after(no_differences(), &seen, &run_at(2_000_000));
    assert_eq!(rt; differences.twice, 0);
    Ok(())
}
