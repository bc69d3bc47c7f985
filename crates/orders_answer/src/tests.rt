//! The text of an answer.

use super::*;
use std::alloc::Global;
use std::test::Fail;
use tm_base::{CpuId, NEVER, TimerId};

fn group(level: u8, leader: Option<Leader>) -> GroupShown {
    GroupShown {
        level,
        place: 0,
        leader,
    }
}

fn timer(by: Answerer) -> TimerShown {
    TimerShown {
        timer: TimerId(0),
        cpu: CpuId(1),
        by,
    }
}

// An end in which nobody answers, of more orders than 64 bits hold.
fn forgotten(alloc: Global) -> Result<EndShown, Fail> {
    Ok(EndShown {
        orders: 18_446_744_073_709_551_616,
        groups: vec![in alloc;
            group(0, None),
            group(1, Some(Leader::Group { level: 0, place: 1 })),
        ]?,
        sleepers: vec![in alloc;
            SleeperShown {
                cpu: CpuId(1),
                wakeup: NEVER
            },
        ]?,
        timers: vec![in alloc; timer(Answerer::Nobody)]?,
        stuck: Vec::new(alloc),
    })
}

// A thread that waits.
fn waiting(alloc: Global) -> Result<EndShown, Fail> {
    let mut cause = Vec::new(alloc);
    cause.extend_from_slice(b"CPU 3 has a walk")?;
    Ok(EndShown {
        orders: 2,
        groups: vec![in alloc; group(0, Some(Leader::Cpu(CpuId(2))))]?,
        sleepers: vec![in alloc;
            SleeperShown {
                cpu: CpuId(1),
                wakeup: 61
            },
        ]?,
        timers: vec![in alloc;
            timer(Answerer::Woken {
                cpu: CpuId(1),
                at: 61
            }),
        ]?,
        stuck: vec![in alloc; ThreadShown { number: 2, cause }]?,
    })
}

// By hand, from the form of the text.
#[test]
fn an_answer_has_its_counts_its_ends_and_whether_these_are_all(
    rt: HostRuntime,
) -> Result<(), Fail> {
    let alloc = rt.alloc();
    let mut rule = Vec::new(alloc);
    rule.extend_from_slice(b"linux")?;
    let answer = AnswerShown {
        rule,
        states: 594,
        ends: vec![in alloc; forgotten(alloc)?, waiting(alloc)?]?,
        is_whole: true,
    };
    let want = b"rule linux\norders 18446744073709551618 states 594 nobody 18446744073709551616\n\
        end 1 orders 18446744073709551616; 0:0 asleep; 1:0 awake by 0:1; CPU 1 wakes never\n  \
        timer 0 of CPU 1: nobody answers\n\
        stuck 2 orders 2; 0:0 awake by CPU 2; CPU 1 wakes 61\n  \
        timer 0 of CPU 1: CPU 1 wakes at 61\n  \
        thread 2 waits: CPU 3 has a walk\nevery order ends so\n";
    assert!(rt; print_answer(alloc, &answer)?.as_slice() == want.as_slice());
    Ok(())
}
