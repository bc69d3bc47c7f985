//! What is counted in plays whose numbers are worked out by hand.

use crate::{Form, tell_stat};
use std::alloc::Global;
use std::test::Fail;
use tm_script::read_script;

/// What is written of a script, in rows.
fn rows_of(alloc: Global, bytes: &[u8]) -> Option<Vec<u8>> {
    let Ok(script) = read_script(alloc, bytes) else {
        return None;
    };
    match tell_stat(alloc, Form::Rows, &script) {
        Ok(told) => Some(told.text),
        Err(_) => None,
    }
}

/// The first example of the README: CPU 0 is awake until 40, and wakes at 61 for CPU 1, whose two
/// timers it runs; so its sleeps are of 21 and 39 jiffies. It is migrator of the one group as long
/// as it is awake. CPU 1 sleeps from 10 on, and never wakes.
#[test]
fn of_two_sleepers_one_wakes_once(rt: HostRuntime) -> Result<(), Fail> {
    let script = b"tmig 1\nnodes 1\ncpus 2\ntimers 2\nat 10\narm 1 0 global 20 0 0\n\
        arm 1 1 global 50 0 0\nidle 1\nat 40\nidle 0\nend 100\n";
    let rows = b"cpu 0 awake 40 asleep 60 offline 0 longest 39 wakeups 1 pinned 0 global 0 \
        others 1 deferrable 0 nothing 0 runs_for 2 runs_by 0 migrator 40\n\
        cpu 1 awake 10 asleep 90 offline 0 longest 90 wakeups 0 pinned 0 global 0 \
        others 0 deferrable 0 nothing 0 runs_for 0 runs_by 2 migrator 0\n\
        all awake 50 asleep 150 offline 0 longest 90 wakeups 1 pinned 0 global 0 \
        others 1 deferrable 0 nothing 0 runs_for 2 runs_by 2 migrator 40\nend 100\n";
    let text = rows_of(rt.alloc(), script).ok_or("not counted")?;
    assert_eq!(rt; text.as_slice(), rows.as_slice());
    Ok(())
}
