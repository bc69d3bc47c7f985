use std::alloc::Global;
use std::test::Fail;
use step_causes::*;
use tm_base::{Class, CpuId, TimerId};
use tm_script::{Kind, ScriptFault};
use trace_explain::print_trace;
use trace_text::*;

// A timer of an idle CPU, at first carried by that CPU's own walk, and then held.
const HELD: &[u8] = b"trace 1\nnodes 1\ncpus 2\ntimers 1\nisolated\nclock 10\n\
    arm 1 0 global 60 0 0 0\nidle 1\nwhy 1 0\nwalk 1\nwalk 1\nwalk 1\nwalk 1\nwalk 1\nwalk 1\n\
    walk 1\nwalk 1\nwhy 1 0\nend\n";

// A line of each kind, with an isolated CPU.
const EACH: &[u8] = b"trace 1\nnodes 2\ncpus 2\ntimers 3\nisolated 3\nclock 1099511627775\n\
    enter 0\nleave 0\narm 3 2 deferrable 5 255 4294967295 65536\narm 0 1 pinned 0 1 2 3\n\
    cancel 0 1 2 65536\nhand 0 1 2\nticked 0 global 1\nmove 0 1 2\nidle 0\nwake 1\noffline 2\n\
    online 3\nreeval 0\ntake 0 1\ncarry 0\nrelease 0\nwalk 0\nhandon 0 1\nwhy 0 2\nend\n";

// Five lines of a machine of two CPUs and one timer.
const MACHINE: &[u8] = b"trace 1\nnodes 1\ncpus 2\ntimers 1\nisolated\n";

fn refusal(alloc: Global, text: &[u8]) -> Option<ScriptFault> {
    match read_trace(alloc, text) {
        Err(ReadTrace::Refused(fault)) => Some(fault),
        _ => None,
    }
}

fn with_lines(alloc: Global, lines: &[u8]) -> Result<Vec<u8>, Fail> {
    let mut text = Vec::new(alloc);
    text.extend_from_slice(MACHINE)?;
    text.extend_from_slice(lines)?;
    Ok(text)
}

#[test]
fn a_trace_that_is_read_is_printed_again(rt: HostRuntime) -> Result<(), Fail> {
    for text in [HELD, EACH] {
        let again = match read_trace(rt.alloc(), text) {
            Ok(trace) => print_trace(rt.alloc(), &trace)?,
            Err(_) => Vec::new(rt.alloc()),
        };
        assert!(rt; again.as_slice() == text);
    }
    Ok(())
}

// Each line and kind by hand, from the rules of lines and of kinds.
#[test]
fn a_machine_at_fault_is_refused_as_in_a_script(rt: HostRuntime) -> Result<(), Fail> {
    let cases = [
        (b"".as_slice(), 1, Kind::NoEnd),
        (b"trace 1".as_slice(), 1, Kind::BadLine),
        (b"trace 2\nnodes 01\n".as_slice(), 1, Kind::BadLine),
        (b"trace 1\n".as_slice(), 2, Kind::NoEnd),
        (b"trace 1\nnodes 01\n".as_slice(), 2, Kind::BadNumber),
        (
            b"trace 1\nnodes 8\ncpus 65\n".as_slice(),
            3,
            Kind::OutOfRange,
        ),
        (
            b"trace 1\nnodes 1\ncpus 3\ntimers 1\nisolated 1 0\nend\n".as_slice(),
            5,
            Kind::OutOfOrder,
        ),
        (
            b"trace 1\nnodes 1\ncpus 2\ntimers 1\nisolated 0 1\nend\n".as_slice(),
            5,
            Kind::OutOfRange,
        ),
    ];
    for (text, line, kind) in cases {
        assert_eq!(rt;
            refusal(rt.alloc(), text),
            Some(ScriptFault { line, kind }),
            "{line}"
        );
    }
    Ok(())
}

// The same for the lines behind those of the machine.
#[test]
fn a_line_at_fault_is_refused_by_its_first_kind(rt: HostRuntime) -> Result<(), Fail> {
    let cases = [
        (b"".as_slice(), 6, Kind::NoEnd),
        (b"end".as_slice(), 6, Kind::BadLine),
        (b"end\nwalk 0\n".as_slice(), 7, Kind::BadLine),
        (b"walk 0\n".as_slice(), 7, Kind::NoEnd),
        (b"walk\n".as_slice(), 6, Kind::BadLine),
        (b"walk 0 0\n".as_slice(), 6, Kind::BadLine),
        (b"walk 00\n".as_slice(), 6, Kind::BadNumber),
        (b"walk 2\n".as_slice(), 6, Kind::OutOfRange),
        (b"why 2 x\n".as_slice(), 6, Kind::BadNumber),
        (b"clock 1099511627776\n".as_slice(), 6, Kind::OutOfRange),
        (b"arm 2 x soft 60 0 0 0\n".as_slice(), 6, Kind::BadLine),
        (b"arm 2 x global 60 0 0 0\n".as_slice(), 6, Kind::BadNumber),
        (
            b"arm 1 0 global 60 256 0 0\n".as_slice(),
            6,
            Kind::OutOfRange,
        ),
        (
            b"arm 1 0 global 60 0 0 65537\n".as_slice(),
            6,
            Kind::OutOfRange,
        ),
        (b"at 5\n".as_slice(), 6, Kind::BadLine),
    ];
    for (lines, line, kind) in cases {
        let text = with_lines(rt.alloc(), lines)?;
        let want = Some(ScriptFault { line, kind });
        assert_eq!(rt; refusal(rt.alloc(), &text), want, "{line}");
    }
    Ok(())
}

// Forms of lines at line 6, each with the least change that is at fault; by hand, from the table of
// lines: first the number of words and CLASS, then spellings of numbers, then their ranges.
#[test]
fn each_form_of_line_is_refused_by_its_first_kind(rt: HostRuntime) -> Result<(), Fail> {
    let cases = [
        (b"clock 010\n".as_slice(), Kind::BadNumber),
        (b"enter 2\n".as_slice(), Kind::OutOfRange),
        (b"leave\n".as_slice(), Kind::BadLine),
        (
            b"arm 1 0 global 1099511627776 0 0 0\n".as_slice(),
            Kind::OutOfRange,
        ),
        (
            b"arm 1 0 global 60 0 4294967296 0\n".as_slice(),
            Kind::OutOfRange,
        ),
        (b"cancel 1 0 2 0\n".as_slice(), Kind::OutOfRange),
        (b"hand 1 1 0\n".as_slice(), Kind::OutOfRange),
        (b"ticked 1 soft 0\n".as_slice(), Kind::BadLine),
        (b"move 1 0 +0\n".as_slice(), Kind::BadNumber),
        (b"idle  1\n".as_slice(), Kind::BadLine),
        (b"wake x\n".as_slice(), Kind::BadNumber),
        (b"offline 2\n".as_slice(), Kind::OutOfRange),
        (b"online 1 \n".as_slice(), Kind::BadLine),
        (b"reeval -1\n".as_slice(), Kind::BadNumber),
        (b"take 1 2\n".as_slice(), Kind::OutOfRange),
        (b"carry\n".as_slice(), Kind::BadLine),
        (b"release 65536\n".as_slice(), Kind::OutOfRange),
        (b"handon 1\n".as_slice(), Kind::BadLine),
        (b"why 1 1\n".as_slice(), Kind::OutOfRange),
        (b"end 0\n".as_slice(), Kind::BadLine),
    ];
    for (lines, kind) in cases {
        let text = with_lines(rt.alloc(), lines)?;
        let want = Some(ScriptFault { line: 6, kind });
        assert_eq!(rt; refusal(rt.alloc(), &text), want);
    }
    Ok(())
}

// Sentences by hand, from what each cause says; groups as LEVEL:PLACE.
#[test]
fn a_cause_is_told_in_a_sentence(rt: HostRuntime) -> Result<(), Fail> {
    let cpu = CpuId(3);
    let by = CpuId(8);
    let timer = TimerId(5);
    let cases = [
        (
            Cause::Cpu(cpu, CpuFact::HasWalk),
            b"CPU 3 has a walk".as_slice(),
        ),
        (
            Cause::Cpu(cpu, CpuFact::Unmarked),
            b"CPU 3 is marked by nobody".as_slice(),
        ),
        (
            Cause::LockTaken {
                cpu,
                level: 0,
                place: 1,
                by,
            },
            b"CPU 3 waits for the lock of 0:1, taken by CPU 8".as_slice(),
        ),
        (
            Cause::NotNext {
                timer,
                cpu,
                first: 7,
            },
            b"timer 7 goes out before timer 5 on CPU 3".as_slice(),
        ),
        (
            Cause::NoRunner {
                cpu,
                class: Class::Pinned,
                runner: by,
            },
            b"CPU 8 may not run timers of CPU 3, of class pinned".as_slice(),
        ),
    ];
    for (cause, sentence) in cases {
        let text = text_of(rt.alloc(), &cause)?;
        assert!(rt; text.as_slice() == sentence);
    }
    Ok(())
}
