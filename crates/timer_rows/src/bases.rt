use base_calls::bases::{BasesAnswer, BasesCall, make_calls};
use cpu_bases::*;
use std::process::Abort;
use std::test::Fail;
use tm_base::{Class, CpuId, NEVER, TimerId};
use wheel_core::{Item, ListBase, TimerBase};

const ON: CpuId = CpuId(1);

fn item(id: u32, expires: u64, wheel: u64, level: u8) -> Item {
    Item {
        id,
        expires,
        wheel,
        level,
        job: 0,
        arg: 0,
    }
}

fn entry(
    act: Act,
    line: u32,
    at: u64,
    timer: u16,
    class: Class,
    expires: u64,
    wheel: u64,
) -> Entry {
    Entry {
        act,
        line,
        at,
        timer: TimerId(timer),
        class,
        expires,
        wheel,
        job: 0,
        arg: 0,
        by: ON,
    }
}

fn events(pin: u64, first_global: u64, next: u64) -> BasesAnswer {
    BasesAnswer::Events(NextEvents {
        pin,
        first_global,
        next,
    })
}

fn same_entries(rt: &impl Abort, journal: &Journal, wanted: &[Entry]) -> Result<(), Fail> {
    assert_eq!(rt; journal.len(), wanted.len());
    for (i, want) in wanted.iter().enumerate() {
        assert_eq!(rt; journal.get(i).copied(), Some(*want), "at {i}");
    }
    Ok(())
}

// The wheel expiries are those of the table of levels: a delay below 63 jiffies ends at the next
// jiffy, one of 200 jiffies at the next multiple of 8.
#[test]
#[tactic(auto, unfolding(wheel_core::specs::WheelExpiry::wheel_expiry_of, wheel_core::specs::WheelExpiry::level_of_delay, wheel_core::specs::WheelExpiry::wheel_level_of, wheel_core::specs::PlainBase::first_out))]
fn timers_are_armed_cancelled_and_moved_in(rt: HostRuntime) -> Result<(), Fail> {
    let calls = [
        BasesCall::Reserve {
            timers: 4,
            entries: 16,
        },
        BasesCall::Arm {
            now: 10,
            class: Class::Global,
            timer: TimerId(0),
            expires: 60,
            job: 0,
            arg: 0,
            line: 6,
            by: ON,
        },
        BasesCall::Arm {
            now: 10,
            class: Class::Pinned,
            timer: TimerId(1),
            expires: 210,
            job: 0,
            arg: 0,
            line: 7,
            by: ON,
        },
        BasesCall::Arm {
            now: 10,
            class: Class::Deferrable,
            timer: TimerId(3),
            expires: 30,
            job: 0,
            arg: 0,
            line: 8,
            by: ON,
        },
        BasesCall::Next,
        BasesCall::WhereIs { timer: TimerId(3) },
        BasesCall::Cancel {
            now: 20,
            timer: TimerId(1),
            line: 9,
            by: ON,
        },
        BasesCall::Cancel {
            now: 20,
            timer: TimerId(1),
            line: 10,
            by: ON,
        },
        BasesCall::MoveIn {
            now: 20,
            class: Class::Pinned,
            timer: TimerId(2),
            expires: 30,
            job: 0,
            arg: 0,
            by: ON,
        },
        BasesCall::Next,
    ];
    let pinned = ListBase::new(rt.alloc());
    let global = ListBase::new(rt.alloc());
    let deferrable = ListBase::new(rt.alloc());
    let mut bases = Bases::with(rt.alloc(), pinned, global, deferrable);
    let answers = make_calls(rt.alloc(), &mut bases, &calls)?;
    let wanted = [
        BasesAnswer::Done,
        BasesAnswer::Queued(61),
        BasesAnswer::Queued(216),
        BasesAnswer::Queued(31),
        events(216, 61, 61),
        BasesAnswer::Place(Some(Class::Deferrable)),
        BasesAnswer::Gone(Some(item(1, 210, 216, 1))),
        BasesAnswer::Gone(None),
        BasesAnswer::Queued(31),
        events(31, 61, NEVER),
    ];
    assert_eq!(rt; answers.as_slice(), wanted.as_slice());
    let written = [
        entry(Act::Armed, 6, 10, 0, Class::Global, 60, 61),
        entry(Act::Armed, 7, 10, 1, Class::Pinned, 210, 216),
        entry(Act::Armed, 8, 10, 3, Class::Deferrable, 30, 31),
        entry(Act::Cancelled, 9, 20, 1, Class::Pinned, 210, 216),
        entry(Act::MovedIn, 0, 20, 2, Class::Pinned, 30, 31),
    ];
    same_entries(&rt, bases.journal(), &written)
}

#[test]
#[tactic(auto, unfolding(wheel_core::specs::WheelExpiry::wheel_expiry_of, wheel_core::specs::WheelExpiry::level_of_delay, wheel_core::specs::WheelExpiry::wheel_level_of, wheel_core::specs::PlainBase::first_out))]
fn timers_are_handed_out_and_moved_out(rt: HostRuntime) -> Result<(), Fail> {
    let calls = [
        BasesCall::Reserve {
            timers: 4,
            entries: 16,
        },
        BasesCall::Arm {
            now: 10,
            class: Class::Global,
            timer: TimerId(0),
            expires: 60,
            job: 0,
            arg: 0,
            line: 6,
            by: ON,
        },
        BasesCall::Arm {
            now: 10,
            class: Class::Deferrable,
            timer: TimerId(3),
            expires: 30,
            job: 0,
            arg: 0,
            line: 7,
            by: ON,
        },
        BasesCall::TakeDue {
            now: 61,
            class: Class::Global,
            by: ON,
        },
        BasesCall::TakeDue {
            now: 61,
            class: Class::Global,
            by: ON,
        },
        BasesCall::MoveOut {
            now: 61,
            class: Class::Pinned,
            by: ON,
        },
        BasesCall::MoveOut {
            now: 61,
            class: Class::Deferrable,
            by: ON,
        },
        BasesCall::WhereIs { timer: TimerId(3) },
    ];
    let pinned = ListBase::new(rt.alloc());
    let global = ListBase::new(rt.alloc());
    let deferrable = ListBase::new(rt.alloc());
    let mut bases = Bases::with(rt.alloc(), pinned, global, deferrable);
    let answers = make_calls(rt.alloc(), &mut bases, &calls)?;
    let wanted = [
        BasesAnswer::Done,
        BasesAnswer::Queued(61),
        BasesAnswer::Queued(31),
        BasesAnswer::Gone(Some(item(0, 60, 61, 0))),
        BasesAnswer::Gone(None),
        BasesAnswer::Gone(None),
        BasesAnswer::Gone(Some(item(3, 30, 31, 0))),
        BasesAnswer::Place(None),
    ];
    assert_eq!(rt; answers.as_slice(), wanted.as_slice());
    assert_eq!(rt; bases.base(Class::Global).clock(), 62);
    let written = [
        entry(Act::Armed, 6, 10, 0, Class::Global, 60, 61),
        entry(Act::Armed, 7, 10, 3, Class::Deferrable, 30, 31),
        entry(Act::Handed, 0, 61, 0, Class::Global, 60, 61),
        entry(Act::Ticked, 0, 61, 0, Class::Global, 0, 61),
        entry(Act::MovedOut, 0, 61, 3, Class::Deferrable, 30, 31),
    ];
    same_entries(&rt, bases.journal(), &written)
}

#[test]
fn a_journal_grows_at_its_end(rt: HostRuntime) -> Result<(), Fail> {
    let mut journal = Journal::new(rt.alloc());
    let armed = entry(Act::Armed, 6, 10, 0, Class::Global, 60, 61);
    journal.push(armed)?;
    assert_eq!(rt; journal.len(), 1);
    assert_eq!(rt; journal.get(0).copied(), Some(armed));
    assert_eq!(rt; journal.get(1).copied(), None);
    Ok(())
}
