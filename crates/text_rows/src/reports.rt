use std::test::Fail;
use tm_base::{Class, CpuId, NEVER, TimerId};
use tm_report::*;

// Each text is written by hand, word by word, from the table of lines in `docs/FORMATS.md`.
#[test]
fn each_line_has_the_text_of_the_table_of_lines(rt: HostRuntime) -> Result<(), Fail> {
    let cases = [
        (arm(10, 1, 1, Class::Pinned, 216), "arm 10 1 1 pinned 216\n"),
        (
            arm(10, 0, 0, Class::Global, 1_056_964_608),
            "arm 10 0 0 global 1056964608\n",
        ),
        (
            arm(10, 511, 4_095, Class::Deferrable, 61),
            "arm 10 511 4095 deferrable 61\n",
        ),
        (run(61, 8, 0, ShownReply::Done), "run 61 8 0 0 61 done\n"),
        (
            run(61, 0, 1, ShownReply::Mark(7)),
            "run 61 0 1 0 61 mark 7\n",
        ),
        (
            run(61, 0, 0, again(Class::Global, 168)),
            "run 61 0 0 0 61 again global 168\n",
        ),
        (
            run(61, 0, 0, again(Class::Pinned, 168)),
            "run 61 0 0 0 61 again pinned 168\n",
        ),
        (
            run(61, 0, 0, ShownReply::Skip { cpu: CpuId(1) }),
            "run 61 0 0 0 61 skip 1\n",
        ),
        (
            Line::Cancel {
                now: 20,
                cpu: CpuId(0),
                timer: TimerId(3),
                home: CpuId(1),
            },
            "cancel 20 0 3 1\n",
        ),
        (
            Line::NotQueued {
                now: 20,
                cpu: CpuId(0),
                timer: TimerId(3),
            },
            "none 20 0 3\n",
        ),
        (idle(10, 8, 61), "idle 10 8 61\n"),
        (idle(10, 1, NEVER), "idle 10 1 never\n"),
        (
            Line::Stay {
                now: 10,
                cpu: CpuId(0),
                first: 11,
            },
            "stay 10 0 11\n",
        ),
        (
            Line::Wake {
                now: 20,
                cpu: CpuId(8),
            },
            "wake 20 8\n",
        ),
        (
            Line::Offline {
                now: 20,
                cpu: CpuId(1),
            },
            "offline 20 1\n",
        ),
        (
            Line::Handed {
                now: 20,
                cpu: CpuId(1),
                to: CpuId(0),
            },
            "handed 20 1 0\n",
        ),
        (
            Line::Online {
                now: 30,
                cpu: CpuId(1),
            },
            "online 30 1\n",
        ),
        (
            Line::Control {
                now: 20,
                cpu: CpuId(0),
            },
            "control 20 0\n",
        ),
        (
            Line::Moved {
                now: 20,
                timer: TimerId(3),
                from: CpuId(1),
                to: CpuId(0),
                wheel: 73,
            },
            "moved 20 3 1 0 73\n",
        ),
        (
            cover(20, 0, migrator(1, 0, 8)),
            "cover 20 0 61 migrator 1:0 8\n",
        ),
        (cover(10, 0, own_wakeup(8, 61)), "cover 10 0 61 wake 8 61\n"),
        (
            Line::Refused {
                now: 20,
                cpu: CpuId(1),
                line: 10,
                number: 2,
            },
            "refused 20 1 10 2\n",
        ),
        (
            Line::RefusedQueued {
                now: 10,
                cpu: CpuId(0),
                line: 7,
                number: 6,
                holder: CpuId(1),
            },
            "refused 10 0 7 6 1\n",
        ),
        (
            Line::Left {
                timer: TimerId(1),
                cpu: CpuId(0),
                class: Class::Global,
                wheel: 73,
            },
            "left 1 0 global 73\n",
        ),
        (Line::End { now: 100 }, "end 100\n"),
        (
            why(ShownReason::Held {
                level: 0,
                place: 0,
                cpu: CpuId(0),
            }),
            "why 11 1 0 held 0:0 0\n",
        ),
        (
            why(ShownReason::Woken {
                cpu: CpuId(8),
                at: 61,
            }),
            "why 11 1 0 woken 8 61\n",
        ),
        (
            why(ShownReason::Carried { case: 1 }),
            "why 11 1 0 carried 1\n",
        ),
        (why(ShownReason::Nothing), "why 11 1 0 none\n"),
        (Line::Yes { steps: 27 }, "yes 27\n"),
        (Line::No { index: 0 }, "no 0\n"),
        (device(20, 61), "device 20 61\n"),
        (device(61, NEVER), "device 61 never\n"),
    ];
    for (line, want) in cases {
        let text = text_of(rt.alloc(), &line)?;
        assert_eq!(rt; text.as_slice(), want.as_bytes(), "{want}");
    }
    Ok(())
}

// By hand from the same table: the last CPU to go idle wakes for the timer of another.
#[test]
fn a_report_is_its_lines_in_order(rt: HostRuntime) -> Result<(), Fail> {
    let lines = [
        arm(10, 0, 0, Class::Global, 61),
        idle(10, 0, NEVER),
        cover(10, 0, migrator(0, 0, 1)),
        idle(20, 1, 61),
        cover(20, 0, own_wakeup(1, 61)),
        run(61, 1, 0, ShownReply::Done),
        Line::End { now: 100 },
    ];
    let mut report = Report::new(rt.alloc());
    assert!(rt; report.text().is_empty());
    for line in lines {
        report.push(&line)?;
    }
    let want = b"arm 10 0 0 global 61\nidle 10 0 never\ncover 10 0 61 migrator 0:0 1\n\
        idle 20 1 61\ncover 20 0 61 wake 1 61\nrun 61 1 0 0 61 done\nend 100\n";
    assert_eq!(rt; report.text(), want.as_slice());
    report.truncate(21);
    assert_eq!(rt; report.text(), b"arm 10 0 0 global 61\n".as_slice());
    report.truncate(99);
    assert_eq!(rt; report.text().len(), 21);
    Ok(())
}

// The lines of two CPUs, one report behind the other.
#[test]
fn reports_are_joined_in_their_order(rt: HostRuntime) -> Result<(), Fail> {
    let mut first = Report::new(rt.alloc());
    first.push(&idle(20, 0, 61))?;
    let mut second = Report::new(rt.alloc());
    second.push(&idle(20, 1, NEVER))?;
    second.push(&Line::End { now: 20 })?;
    first.append(&second)?;
    assert_eq!(rt;
        first.text(),
        b"idle 20 0 61\nidle 20 1 never\nend 20\n".as_slice()
    );
    assert_eq!(rt; second.text(), b"idle 20 1 never\nend 20\n".as_slice());
    Ok(())
}

fn arm(now: u64, cpu: u16, timer: u16, class: Class, wheel: u64) -> Line {
    Line::Arm {
        now,
        cpu: CpuId(cpu),
        timer: TimerId(timer),
        class,
        wheel,
    }
}

// CPU 0's timer runs at its wheel expiry.
fn run(now: u64, runner: u16, timer: u16, reply: ShownReply) -> Line {
    Line::Run {
        now,
        runner: CpuId(runner),
        timer: TimerId(timer),
        home: CpuId(0),
        wheel: now,
        reply,
    }
}

fn again(class: Class, wheel: u64) -> ShownReply {
    ShownReply::Again { class, wheel }
}

fn idle(now: u64, cpu: u16, until: u64) -> Line {
    Line::Idle {
        now,
        cpu: CpuId(cpu),
        until,
    }
}

// Who answers for timer 0 of CPU 1 after eleven steps.
fn why(shown: ShownReason) -> Line {
    Line::Why {
        steps: 11,
        cpu: CpuId(1),
        timer: TimerId(0),
        shown,
    }
}

fn device(now: u64, until: u64) -> Line {
    Line::Device { now, until }
}

// A cover of a timer at 61.
fn cover(now: u64, cpu: u16, cover: ShownCover) -> Line {
    Line::Cover {
        now,
        cpu: CpuId(cpu),
        wheel: 61,
        cover,
    }
}

fn migrator(level: u8, place: u16, cpu: u16) -> ShownCover {
    ShownCover::Migrator {
        level,
        place,
        cpu: CpuId(cpu),
    }
}

fn own_wakeup(cpu: u16, at: u64) -> ShownCover {
    ShownCover::Wake {
        cpu: CpuId(cpu),
        at,
    }
}
