use std::test::Fail;
use tm_base::{Class, CpuId, NEVER, TimerId};
use tm_report::{Line, ShownCover, ShownReply};
use view_chart::Choice;
use view_text::*;

// The report of examples/two-sleepers, up to jiffy 70.
const LINES: [Line; 7] = [
    Line::Arm {
        now: 10,
        cpu: CpuId(1),
        timer: TimerId(0),
        class: Class::Global,
        wheel: 31,
    },
    Line::Idle {
        now: 10,
        cpu: CpuId(1),
        until: NEVER,
    },
    Line::Cover {
        now: 10,
        cpu: CpuId(1),
        wheel: 31,
        cover: ShownCover::Migrator {
            level: 0,
            place: 0,
            cpu: CpuId(0),
        },
    },
    Line::Run {
        now: 31,
        runner: CpuId(0),
        timer: TimerId(0),
        home: CpuId(1),
        wheel: 31,
        reply: ShownReply::Done,
    },
    Line::Idle {
        now: 40,
        cpu: CpuId(0),
        until: 61,
    },
    Line::Offline {
        now: 45,
        cpu: CpuId(1),
    },
    Line::End { now: 50 },
];

// By hand, from what docs/FORMATS.md says of the lines: the rest from 10 to 31 has 12 columns.
#[test]
fn a_report_is_drawn_for_a_terminal(rt: HostRuntime) -> Result<(), Fail> {
    let choice = Choice {
        from: None,
        to: None,
        cpus: None,
    };
    let Ok(text) = text_chart(rt.alloc(), choice, true, &LINES) else {
        return Err("no chart".into());
    };
    let mut want = Vec::new(rt.alloc());
    want.extend_from_slice(b"jiffies 0 to 50; # awake, - asleep, . offline\n")?;
    want.extend_from_slice(b"          0         10          31       40   45   50 \n")?;
    want.extend_from_slice(b"CPU 0     ###############################----------\n")?;
    want.extend_from_slice(b"CPU 1     ##########--------------------------.....\n")?;
    want.extend_from_slice(b"31: CPU 0 runs timer 0 of CPU 1\n")?;
    want.extend_from_slice(b"10: for CPU 1, whose first timer is due at 31: group 0:0, ")?;
    want.extend_from_slice(b"which leads to CPU 0\n")?;
    assert!(rt; text.as_slice() == want.as_slice());
    Ok(())
}
