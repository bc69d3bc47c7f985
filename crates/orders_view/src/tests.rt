//! Words, cases and limits, each with its text and status.

use super::*;
use linux_view::{FITS, MISFIT, NO_TRACE, USAGE, WRITE_FAULT, usage_text};
use std::alloc::{AllocError, Global};
use std::test::Fail;
use tm_io::{FullSink, PlainSink, PlainSource};

// CPUs 0 and 1 of a leaf go idle, CPU 0 with a timer; CPU 2 stays awake.
const TWO_GO_IDLE: &[u8] = b"orders 1\nnodes 2\ncpus 2\ntimers 1\nisolated 3\nclock 10\n\
    arm 0 0 global 60 0 0 0\nthread\nidle 0\nwalks 0\nthread\nidle 1\nwalks 1\nend\n";

// One thread, of one step.
const ONE_STEP: &[u8] = b"orders 1\nnodes 1\ncpus 2\ntimers 1\nisolated\nclock 10\nthread\n\
    clock 20\nend\n";

// CPU 0 can't wake, since it isn't idle.
const NO_START: &[u8] = b"orders 1\nnodes 1\ncpus 2\ntimers 1\nisolated\nwake 0\nthread\n\
    idle 0\nend\n";

const FORGOTTEN: &[u8] = b"rule linux\norders 123060 states 594 nobody 210\n\
    end 1 orders 210; 0:0 asleep; 0:1 awake by CPU 2; 1:0 awake by 0:1; \
    CPU 0 wakes never; CPU 1 wakes never\n  timer 0 of CPU 0: nobody answers\n\
    end 2 orders 122850; 0:0 asleep; 0:1 awake by CPU 2; 1:0 awake by 0:1; \
    CPU 0 wakes never; CPU 1 wakes never\n  \
    timer 0 of CPU 0: group 1:0 was told, and leads to CPU 2\nevery order ends so\n";

// The words of a line.
fn split(alloc: Global, line: &str) -> Result<Vec<String>, AllocError> {
    let mut words = Vec::new(alloc);
    for word in line.split(' ') {
        words.push(String::from_str(alloc, word)?)?;
    }
    Ok(words)
}

#[derive(Clone, Copy)]
struct Row {
    words: &'static str,
    input: &'static [u8],
    status: u8,
    text: &'static [u8],
}

// Whether a row comes to its status and text.
fn holds(alloc: Global, row: &Row) -> Result<bool, AllocError> {
    let words = split(alloc, row.words)?;
    let mut source = PlainSource::new(row.input.to_vec(alloc)?);
    let mut sink = PlainSink::new(alloc);
    let status = run_orders(alloc, &words, &mut source, &mut sink);
    Ok(status == row.status && sink.held() == row.text)
}

// The numbers of the case are those of a plain program of the same rules, which was written apart
// from this. The other texts are by hand: with a limit of 1 the start is met, and the state behind
// the first step of each of the two threads.
fn rows() -> [Row; 7] {
    [
        Row {
            words: "orders --rule linux",
            input: TWO_GO_IDLE,
            status: MISFIT,
            text: FORGOTTEN,
        },
        Row {
            words: "orders --states 1",
            input: TWO_GO_IDLE,
            status: NOT_ALL,
            text: b"rule tmig\norders 0 states 3 nobody 0\nnot all: 3 states\n",
        },
        Row {
            words: "orders --states 9 --show 1 --rule tmig",
            input: ONE_STEP,
            status: FITS,
            text: b"trace 1\nnodes 1\ncpus 2\ntimers 1\nisolated\nclock 10\nclock 20\nend\n",
        },
        Row {
            words: "orders --show 2",
            input: ONE_STEP,
            status: USAGE,
            text: b"no end 2: ends 1\n",
        },
        Row {
            words: "orders",
            input: NO_START,
            status: NO_TRACE,
            text: b"case stuck line 6: CPU 0 isn't idle\n",
        },
        Row {
            words: "orders",
            input: b"orders 1\nnodes 01\n",
            status: NO_TRACE,
            text: b"case refused line 2 kind 2: a number is spelled wrong\n",
        },
        Row {
            words: "orders",
            input: b"",
            status: NO_TRACE,
            text: b"case refused line 1 kind 5: the end is missing\n",
        },
    ]
}

#[test]
fn each_case_comes_to_its_status_and_text(rt: HostRuntime) -> Result<(), Fail> {
    for (i, row) in rows().iter().enumerate() {
        let holds = holds(rt.alloc(), row)?;
        assert!(rt; holds, "row {i}");
    }
    Ok(())
}

#[test]
fn other_words_are_refused_with_how_the_program_is_used(rt: HostRuntime) -> Result<(), Fail> {
    let lines = [
        "order",
        "orders --rule",
        "orders --rule ours",
        "orders --rule linux --rule linux",
        "orders --show 01",
        "orders --states 1 2",
    ];
    for words in lines {
        let row = Row {
            words,
            input: ONE_STEP,
            status: USAGE,
            text: usage_text(),
        };
        let holds = holds(rt.alloc(), &row)?;
        assert!(rt; holds, "{words}");
    }
    Ok(())
}

#[test]
fn a_sink_that_is_full_is_told_by_the_status(rt: HostRuntime) -> Result<(), Fail> {
    let words = split(rt.alloc(), "orders")?;
    let mut source = PlainSource::new(ONE_STEP.to_vec(rt.alloc())?);
    let mut sink = FullSink::new(rt.alloc(), 20);
    let status = run_orders(rt.alloc(), &words, &mut source, &mut sink);
    assert_eq!(rt; status, WRITE_FAULT);
    Ok(())
}
