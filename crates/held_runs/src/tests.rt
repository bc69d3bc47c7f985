use held_gates::{ByPoints, Meeting, Place};
use job_table::{JobCall, JobReply, Jobs, StandardJobs};
use script_main::{DONE, run_program};
use std::alloc::{AllocError, Global};
use std::sync::Wait;
use std::sync::atomic::{AtomicU64, Ordering};
use std::test::Fail;
use std::thread::Threads;
use tm_base::{CpuId, FreeGate, Gate, Point};
use tm_io::{PlainSink, PlainSource};

// Whether the program, run past a gate with the word `run` on the bytes of a script, ends well and
// has written this text.
fn writes<J: Jobs + Sync, G: Gate + Sync, R: Threads + Wait + Sync>(
    rt: &R,
    alloc: Global,
    script: &[u8],
    jobs: &J,
    gate: &G,
    text: &[u8],
) -> Result<bool, AllocError> {
    let mut words = Vec::new(alloc);
    words.push(String::from_str(alloc, "run")?)?;
    let mut source = PlainSource::new(script.to_vec(alloc)?);
    let mut sink = PlainSink::new(alloc);
    let status = run_program(rt, alloc, &words, &mut source, &mut sink, jobs, gate);
    Ok(status.0 == DONE && sink.held() == text)
}

// CPUs 8 and 9 are alone in their leaf, and both wake at jiffy 20. Each is held before it joins its
// leaf until the other one stands there too: one thread can't come to both places, and neither can
// two threads with one lock around the tree. The report is by hand: there is no timer.
#[test]
fn two_cpus_that_wake_at_once_stand_before_their_group_together(
    rt: HostRuntime,
) -> Result<(), Fail> {
    let script = b"tmig 1\nnodes 1\ncpus 10\ntimers 1\nat 10\nidle 8\nidle 9\nat 20\nwake 8\n\
        wake 9\nend 30\n";
    let text = b"idle 10 8 never\nidle 10 9 never\nwake 20 8\nwake 20 9\nend 30\n";
    let gate = Meeting::new(CpuId(8), CpuId(9), Point::BeforeUp);
    assert!(rt; writes(&rt, rt.alloc(), script, &StandardJobs, &gate, text)?);
    assert!(rt; gate.met());
    Ok(())
}

// CPU 0 answers for CPU 1, and CPU 8 for CPU 9: at 61 each of them has to take the other one's
// timer. The report is by hand, from the rules of docs/FORMATS.md: a delay of 50 at jiffy 10
// expires at 61.
const TWO_LOOKS: &[u8] = b"tmig 1\nnodes 1\ncpus 10\ntimers 2\nat 10\narm 1 0 global 50 0 0\n\
    idle 1\narm 9 1 global 50 0 0\nidle 9\nend 100\n";

const TWO_LOOKED: &[u8] = b"arm 10 1 0 global 61\nidle 10 1 never\narm 10 9 1 global 61\n\
    idle 10 9 never\ncover 10 1 61 migrator 0:0 0\ncover 10 9 61 migrator 0:1 8\n\
    run 61 0 0 1 61 done\nrun 61 8 1 9 61 done\nend 100\n";

// Each looker is held before it runs the other CPU's timers until the other looker stands there
// too: a round that is made by one thread, or share by share, never comes past it in time.
#[test]
fn two_cpus_look_after_others_at_once(rt: HostRuntime) -> Result<(), Fail> {
    let gate = Meeting::new(CpuId(0), CpuId(8), Point::BeforeRemoteRun);
    assert!(rt; writes(&rt, rt.alloc(), TWO_LOOKS, &StandardJobs, &gate, TWO_LOOKED)?);
    assert!(rt; gate.met());
    Ok(())
}

// The program's jobs, each call of which is counted.
#[derive(Drop)]
struct Counting {
    calls: AtomicU64,
}

impl Jobs for Counting {
    ghost use Rattle.job_table.specs.Standard.{standard_count, standard_reply};

    ghost count = { λ jobs. standard_count };

    ghost replies = { λ jobs. standard_reply };

    fn len(&self) -> usize {
        StandardJobs.len()
    }

    fn run(&self, n: u8, call: &JobCall) -> JobReply {
        self.calls.fetch_add(1, Ordering::SeqCst);
        StandardJobs.run(n, call)
    }
}

// No clause counts how often a job is called: two timers go out, in interrupts of two CPUs, and
// their jobs are called twice.
#[test]
fn the_job_of_each_timer_that_goes_out_is_called_once(rt: HostRuntime) -> Result<(), Fail> {
    let jobs = Counting {
        calls: AtomicU64::new(0),
    };
    assert!(rt; writes(&rt, rt.alloc(), TWO_LOOKS, &jobs, &FreeGate, TWO_LOOKED)?);
    assert_eq!(rt; jobs.calls.load(Ordering::SeqCst), 2);
    Ok(())
}

// CPU 1 sleeps over timers for 61 and for 512, and CPU 0 answers for it. At 61 CPU 0 takes the
// first one, with the lock of CPU 1, and carries the other one upwards; CPU 2 wakes meanwhile. Then
// both go idle, so that CPU 3, which never was, answers. By hand, from docs/FORMATS.md: a delay of
// 500 at jiffy 10 ends in the granule of eight jiffies that ends at 512.
const LOOKS: &[u8] = b"tmig 1\nnodes 1\ncpus 4\ntimers 2\nat 10\narm 1 0 global 50 0 0\n\
    arm 1 1 global 500 0 0\nidle 1\nidle 2\nat 61\nidle 0\nwake 2\nidle 2\nend 61\n";

const LOOKED: &[u8] = b"arm 10 1 0 global 61\narm 10 1 1 global 512\nidle 10 1 never\n\
    idle 10 2 never\ncover 10 1 61 migrator 0:0 0\nrun 61 0 0 1 61 done\nidle 61 0 never\n\
    wake 61 2\nidle 61 2 never\ncover 61 1 512 migrator 0:0 3\nleft 1 1 global 512\nend 61\n";

#[test]
fn a_cpu_wakes_while_another_one_is_held_as_it_looks_after_a_third(
    rt: HostRuntime,
) -> Result<(), Fail> {
    for point in [Point::BeforeRemoteRun, Point::BeforeRemoteCarry] {
        let place = Place {
            cpu: CpuId(0),
            level: 0,
            point,
        };
        let gate = ByPoints::new(CpuId(2), place);
        assert!(rt;
            writes(&rt, rt.alloc(), LOOKS, &StandardJobs, &gate, LOOKED)?,
            "{point:?}"
        );
        assert!(rt; gate.call.met(), "{point:?}");
    }
    Ok(())
}
