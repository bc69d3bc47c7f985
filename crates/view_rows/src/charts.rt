use std::test::Fail;
use tm_base::{Class, CpuId, NEVER, TimerId};
use tm_report::{Line, ShownCover, ShownReply};
use view_chart::*;

// The report of examples/two-sleepers.
const LINES: [Line; 10] = [
    Line::Arm {
        now: 10,
        cpu: CpuId(1),
        timer: TimerId(0),
        class: Class::Global,
        wheel: 31,
    },
    Line::Idle {
        now: 10,
        cpu: CpuId(1),
        until: NEVER,
    },
    Line::Cover {
        now: 10,
        cpu: CpuId(1),
        wheel: 31,
        cover: ShownCover::Migrator {
            level: 0,
            place: 0,
            cpu: CpuId(0),
        },
    },
    Line::Run {
        now: 31,
        runner: CpuId(0),
        timer: TimerId(0),
        home: CpuId(1),
        wheel: 31,
        reply: ShownReply::Done,
    },
    Line::Idle {
        now: 40,
        cpu: CpuId(0),
        until: 61,
    },
    Line::Cover {
        now: 40,
        cpu: CpuId(1),
        wheel: 61,
        cover: ShownCover::Wake {
            cpu: CpuId(0),
            at: 61,
        },
    },
    Line::Run {
        now: 61,
        runner: CpuId(0),
        timer: TimerId(1),
        home: CpuId(1),
        wheel: 61,
        reply: ShownReply::Done,
    },
    Line::Wake {
        now: 70,
        cpu: CpuId(1),
    },
    Line::Offline {
        now: 71,
        cpu: CpuId(1),
    },
    Line::End { now: 100 },
];

fn letter(state: State) -> u8 {
    match state {
        State::Awake => b'a',
        State::Asleep { .. } => b's',
        State::Offline => b'o',
    }
}

fn shown(span: Span) -> (u16, u8, u64, u64, u64, u64) {
    let from = span.from;
    let to = span.to;
    (
        span.cpu.0,
        letter(span.state),
        from.at,
        from.column,
        to.at,
        to.column,
    )
}

fn told(arrow: Arrow) -> (u64, u64, u16, u16, u16) {
    let point = arrow.point;
    (
        point.at,
        point.column,
        arrow.runner.0,
        arrow.home.0,
        arrow.timer.0,
    )
}

const ALL: Choice = Choice {
    from: None,
    to: None,
    cpus: None,
};

// By hand, from what docs/FORMATS.md says of the lines: each rest of more than 12 jiffies has 12
// columns.
#[test]
fn each_cpu_is_drawn_as_the_report_leaves_it(rt: HostRuntime) -> Result<(), Fail> {
    let spans = spans_of(rt.alloc(), &window_of(ALL, &LINES), &LINES)?;
    let want = [
        (0, b'a', 0, 0, 40, 31),
        (0, b's', 40, 31, 100, 65),
        (1, b'a', 0, 0, 10, 10),
        (1, b's', 10, 10, 70, 52),
        (1, b'a', 70, 52, 71, 53),
        (1, b'o', 71, 53, 100, 65),
    ];
    assert_eq!(rt; spans.len(), want.len());
    for (span, want) in spans.iter().zip(want.iter()) {
        assert_eq!(rt; shown(*span), *want);
    }
    Ok(())
}

// By hand, in the same way.
#[test]
fn each_run_is_drawn_from_its_home_to_its_runner(rt: HostRuntime) -> Result<(), Fail> {
    let arrows = arrows_of(rt.alloc(), &window_of(ALL, &LINES), &LINES)?;
    let want = [(31, 22, 0, 1, 0), (61, 43, 0, 1, 1)];
    assert_eq!(rt; arrows.len(), want.len());
    for (arrow, want) in arrows.iter().zip(want.iter()) {
        assert_eq!(rt; told(*arrow), *want);
    }
    Ok(())
}

// By hand, from the words that docs/FORMATS.md gives such a line.
#[test]
fn an_answer_is_noted_in_words(rt: HostRuntime) -> Result<(), Fail> {
    let notes = notes_of(rt.alloc(), &window_of(ALL, &LINES), true, &LINES)?;
    let mut text = Vec::new(rt.alloc());
    for note in notes.iter() {
        push_answer(&mut text, *note)?;
    }
    let mut want = Vec::new(rt.alloc());
    want.extend_from_slice(b": for CPU 1, whose first timer is due at 31: group 0:0, ")?;
    want.extend_from_slice(b"which leads to CPU 0")?;
    want.extend_from_slice(b": for CPU 1, whose first timer is due at 61: CPU 0 wakes at 61")?;
    assert!(rt; text.as_slice() == want.as_slice());
    Ok(())
}

fn answered_at(now: u64) -> Line {
    Line::Cover {
        now,
        cpu: CpuId(1),
        wheel: 31,
        cover: ShownCover::Wake {
            cpu: CpuId(0),
            at: 31,
        },
    }
}

// By hand: at 12 nothing else is said than at 10, and at 21 the CPU has been awake since.
#[test]
fn an_answer_is_drawn_where_it_is_new(rt: HostRuntime) -> Result<(), Fail> {
    let wake = Line::Wake {
        now: 20,
        cpu: CpuId(1),
    };
    let lines = [answered_at(10), answered_at(12), wake, answered_at(21)];
    let notes = news_of(rt.alloc(), &window_of(ALL, &lines), true, &lines)?;
    let want = [10, 21];
    assert_eq!(rt; notes.len(), want.len());
    for (note, want) in notes.iter().zip(want.iter()) {
        assert_eq!(rt; note.point.at, *want);
    }
    Ok(())
}
