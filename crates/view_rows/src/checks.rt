use core_world::Step;
use std::alloc::Global;
use std::test::Fail;
use step_causes::*;
use step_core::one_node_core;
use tm_base::CpuId;
use tm_report::Report;
use trace_check::*;

// A timer of an idle CPU, at first carried by that CPU's own walk, and then held.
const HELD: &[u8] = b"trace 1\nnodes 1\ncpus 2\ntimers 1\nisolated\nclock 10\n\
    arm 1 0 global 60 0 0 0\nidle 1\nwhy 1 0\nwalk 1\nwalk 1\nwalk 1\nwalk 1\nwalk 1\nwalk 1\n\
    walk 1\nwalk 1\nwhy 1 0\nend\n";

// Five lines of a machine of two CPUs and one timer.
const MACHINE: &[u8] = b"trace 1\nnodes 1\ncpus 2\ntimers 1\nisolated\n";

fn with_lines(alloc: Global, lines: &[u8]) -> Result<Vec<u8>, Fail> {
    let mut text = Vec::new(alloc);
    text.extend_from_slice(MACHINE)?;
    text.extend_from_slice(lines)?;
    Ok(text)
}

/// The line of a step, so many times.
fn add_lines(text: &mut Vec<u8>, times: u8, line: &[u8]) -> Result<(), Fail> {
    for _time in 0..times {
        text.extend_from_slice(line)?;
    }
    Ok(())
}

/// What is answered of a trace, and what is written of it.
fn checked(alloc: Global, text: &[u8]) -> Result<(Option<Verdict>, Report), Fail> {
    let mut report = Report::new(alloc);
    let verdict = match read_trace(alloc, text) {
        Ok(trace) => Some(check(alloc, &trace, &mut report)?),
        Err(_) => None,
    };
    Ok((verdict, report))
}

// A CPU goes idle with a timer: at first its own walk carries that, and after eight steps the
// migrator of its leaf holds it. By the rules of steps, by hand.
#[test]
fn a_timer_is_carried_and_then_held(rt: HostRuntime) -> Result<(), Fail> {
    let (verdict, report) = checked(rt.alloc(), HELD)?;
    assert_eq!(&rt; verdict, Some(Verdict::Yes { steps: 11 }));
    assert!(&rt;
        report.text() == b"why 3 1 0 carried 1\nwhy 11 1 0 held 0:0 0\nyes 11\n".as_slice()
    );
    Ok(())
}

// An active CPU isn't woken; a question counts as no step, and what stands behind the end of the
// run isn't answered.
#[test]
fn the_first_step_that_is_not_enabled_is_named(rt: HostRuntime) -> Result<(), Fail> {
    let alone = with_lines(rt.alloc(), b"wake 0\nend\n")?;
    let (verdict, report) = checked(rt.alloc(), alone.as_slice())?;
    assert_eq!(&rt; verdict, Some(Verdict::No { index: 0 }));
    assert!(&rt; report.text() == b"no 0\n".as_slice());
    let asked = with_lines(
        rt.alloc(),
        b"why 1 0\nclock 5\nwhy 1 0\nwake 0\nwhy 1 0\nend\n",
    )?;
    let (verdict, report) = checked(rt.alloc(), asked.as_slice())?;
    assert_eq!(&rt; verdict, Some(Verdict::No { index: 1 }));
    assert!(&rt; report.text() == b"why 0 1 0 none\nwhy 1 1 0 none\nno 1\n".as_slice());
    Ok(())
}

// CPU 9 idles; CPU 8 idles after it and climbs; CPU 9 wakes, which makes CPU 8's reading of the top
// stale. That row of 27 steps is worked by hand from the stages of walks.
#[test]
fn a_run_with_a_stale_exchange_is_one(rt: HostRuntime) -> Result<(), Fail> {
    let mut text = Vec::new(rt.alloc());
    text.extend_from_slice(b"trace 1\nnodes 1\ncpus 10\ntimers 1\nisolated\nidle 9\n")?;
    add_lines(&mut text, 8, b"walk 9\n")?;
    text.extend_from_slice(b"idle 8\n")?;
    add_lines(&mut text, 9, b"walk 8\n")?;
    text.extend_from_slice(b"wake 9\n")?;
    add_lines(&mut text, 4, b"walk 9\n")?;
    add_lines(&mut text, 3, b"walk 8\n")?;
    text.extend_from_slice(b"end\n")?;
    let (verdict, report) = checked(rt.alloc(), text.as_slice())?;
    assert_eq!(&rt; verdict, Some(Verdict::Yes { steps: 27 }));
    assert!(&rt; report.text() == b"yes 27\n".as_slice());
    Ok(())
}

// By hand from the conditions of the steps: at the start every CPU is active, with no walk and
// outside an interrupt, and there are CPUs 0 and 1.
#[test]
fn what_forbids_a_step_is_named(rt: HostRuntime) -> Result<(), Fail> {
    let core = one_node_core(rt.alloc(), 2, 1)?;
    let cpu = CpuId(0);
    let wake = cause(&core, &Step::Wake { cpu });
    assert!(&rt; matches!(wake, Some(Cause::Cpu(CpuId(0), CpuFact::NotIdle))));
    let missing = cause(&core, &Step::Enter { cpu: CpuId(2) });
    assert!(&rt; matches!(missing, Some(Cause::Cpu(CpuId(2), CpuFact::Missing))));
    let own = cause(&core, &Step::HandOn { cpu, to: cpu });
    assert!(&rt; own.is_some());
    assert!(&rt; cause(&core, &Step::Idle { cpu }).is_none());
    Ok(())
}
