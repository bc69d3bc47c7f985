ghost use Rattle.job_table.specs.Standard.{one_shot_reply};

use core_plays::{Core, Player, RunPlayer, deep, play, play_moment, start_core};
use held_gates::{Meeting, is_answered};
use job_table::{Job, JobCall, JobReply, JobTable, StandardJobs};
use play_driver::{DriveFault, having_interrupt};
use run_moments::{Rounded, run_by};
use std::alloc::{AllocError, Global};
use std::sync::atomic::{AtomicU64, Ordering};
use std::sync::{Arc, Wait};
use std::test::Fail;
use std::thread::Threads;
use tm_base::{CpuId, CpuSet, Gate, NoMemory, Point};
use tm_driver::run;
use tm_report::{Line, Report};
use tm_script::{Op, read_script};
use wheel_base::WheelBase;

// A device that goes on as long as a CPU sleeps, and one that fires for a CPU that woke before: a
// script beside its report, worked out by hand from the rules of docs/FORMATS.md.
const ROWS: [(&[u8], &[u8]); 2] = [
    (
        b"tmig 1\nnodes 1\ncpus 2\ntimers 1\nat 10\narm 1 0 global 50 0 0\nidle 1\nat 20\nidle 0\n\
          end 100\n",
        b"arm 10 1 0 global 61\nidle 10 1 never\ncover 10 1 61 migrator 0:0 0\nidle 20 0 61\n\
          cover 20 1 61 wake 0 61\ndevice 20 61\nrun 61 0 0 1 61 done\ndevice 61 never\nend 100\n",
    ),
    (
        b"tmig 1\nnodes 1\ncpus 1\ntimers 1\nat 10\narm 0 0 pinned 50 0 0\nidle 0\nat 20\nwake 0\n\
          end 100\n",
        b"arm 10 0 0 pinned 61\nidle 10 0 61\ndevice 10 61\nwake 20 0\nrun 61 0 0 0 61 done\n\
          device 61 never\nend 100\n",
    ),
];

// Whether a script's play under a device has this text.
fn has_text(alloc: Global, script: &[u8], text: &[u8]) -> Result<bool, AllocError> {
    let mut report = Report::new(alloc);
    let Ok(script) = read_script(alloc, script) else {
        return Ok(false);
    };
    let told = deep(alloc, &script, &StandardJobs, &mut report);
    Ok(told.is_ok() && report.text() == text)
}

#[test]
fn each_row_of_deep_idle_comes_to_its_report(rt: HostRuntime) -> Result<(), Fail> {
    for (script, text) in ROWS {
        assert!(rt; has_text(rt.alloc(), script, text)?);
    }
    Ok(())
}

// A script whose one timer is due at jiffy 51, by the wheel's rule for a delay of 50.
const ONE_TIMER: &[u8] =
    b"tmig 1\nnodes 1\ncpus 1\ntimers 1\nat 0\narm 0 0 global 50 0 0\nend 100\n";

// What the moments at 0 and 51 of that script hand out, where they are played by themselves, and
// whether they come to this text.
fn hand_outs(alloc: Global, text: &[u8]) -> Result<Option<(u32, u32, bool)>, NoMemory> {
    let mut report = Report::new(alloc);
    let Ok(script) = read_script(alloc, ONE_TIMER) else {
        return Ok(None);
    };
    if script.end < 51 {
        return Ok(None);
    }
    let mut player = Player::new(alloc, start_core(alloc, &script)?);
    let due = having_interrupt(&player);
    let first = play_moment(
        alloc,
        &mut player,
        &script,
        &StandardJobs,
        0,
        &due,
        &mut report,
    )?;
    let due = having_interrupt(&player);
    let second = play_moment(
        alloc,
        &mut player,
        &script,
        &StandardJobs,
        51,
        &due,
        &mut report,
    )?;
    Ok(Some((first, second, report.text() == text)))
}

#[test]
fn a_moment_is_played_by_itself(rt: HostRuntime) -> Result<(), Fail> {
    let text = b"arm 0 0 0 global 51\nrun 51 0 0 0 51 done\n";
    assert_eq!(rt; hand_outs(rt.alloc(), text)?, Some((0, 1, true)));
    Ok(())
}

// The same, where the second moment goes on from the core that the first left, as a run does.
fn hand_outs_of_run(alloc: Global, text: &[u8]) -> Result<Option<(u32, u32, bool)>, NoMemory> {
    let mut report = Report::new(alloc);
    let Ok(script) = read_script(alloc, ONE_TIMER) else {
        return Ok(None);
    };
    if script.end < 51 {
        return Ok(None);
    }
    let mut player = Player::new(alloc, start_core(alloc, &script)?);
    let due = having_interrupt(&player);
    let first = play_moment(
        alloc,
        &mut player,
        &script,
        &StandardJobs,
        0,
        &due,
        &mut report,
    )?;
    let mut player = RunPlayer::new(alloc, player.into_core());
    let due = having_interrupt(&player);
    let second = play_moment(
        alloc,
        &mut player,
        &script,
        &StandardJobs,
        51,
        &due,
        &mut report,
    )?;
    Ok(Some((first, second, report.text() == text)))
}

#[test]
fn a_moment_of_a_run_goes_on_from_the_core_of_the_one_before(rt: HostRuntime) -> Result<(), Fail> {
    let text = b"arm 0 0 0 global 51\nrun 51 0 0 0 51 done\n";
    assert_eq!(rt; hand_outs_of_run(rt.alloc(), text)?, Some((0, 1, true)));
    Ok(())
}

// Two CPUs, so that the moment at 10 is a round; and what was told before it.
const TWO_CPUS: &[u8] =
    b"tmig 1\nnodes 1\ncpus 2\ntimers 1\nat 10\narm 1 0 global 50 0 0\nidle 1\nend 100\n";

const BEFORE: &[u8] = b"end 5\n";

// What a run comes to whose rounds are short of memory, and whether its report is as it was.
fn without_rounds(alloc: Global) -> Result<Option<(bool, bool)>, NoMemory> {
    let mut report = Report::new(alloc);
    report.push(&Line::End { now: 5 })?;
    let Ok(script) = read_script(alloc, TWO_CPUS) else {
        return Ok(None);
    };
    let refuse = |core: Core<WheelBase>, _due: &CpuSet, _ops: &[Op]| -> Rounded {
        drop(core);
        Err(NoMemory)
    };
    let ran = run_by(alloc, &script, &StandardJobs, &refuse, &mut report);
    let wants = matches!(ran, Err(DriveFault::NoMemory));
    Ok(Some((wants, report.text() == BEFORE)))
}

#[test]
fn a_run_whose_rounds_want_memory_leaves_the_report_as_it_was(rt: HostRuntime) -> Result<(), Fail> {
    assert_eq!(rt; without_rounds(rt.alloc())?, Some((true, true)));
    Ok(())
}

// A job that writes down its calls: for each the timer's number and one, as a digit.
#[derive(Drop)]
struct Noting {
    calls: Arc<AtomicU64, Global>,
}

impl Job for Noting {
    ghost reply = { λ _ call. one_shot_reply call };

    fn run(&self, call: &JobCall) -> JobReply {
        let noted = self.calls.load(Ordering::SeqCst);
        let digit = u64::from(call.timer.0).wrapping_add(1);
        self.calls.store(noted.wrapping_mul(10).wrapping_add(digit), Ordering::SeqCst);
        JobReply::Done
    }
}

// Three timers of that job: timer 1 is due at jiffy 21, and timers 0 and 2 at 51, by the wheel's
// rule for delays of 20 and 50; in one interrupt pinned timers run before global ones.
const THREE_TIMERS: &[u8] = b"tmig 1\nnodes 1\ncpus 1\ntimers 3\nat 0\n\
    arm 0 0 global 50 0 0\narm 0 1 global 20 0 0\narm 0 2 pinned 50 0 0\nend 100\n";

// What the job wrote down while that script was played to its end.
fn calls_noted(alloc: Global) -> Result<Option<u64>, AllocError> {
    let calls = Arc::new(alloc, AtomicU64::new(0))?;
    let job = Noting {
        calls: Arc::try_clone(&calls)?,
    };
    let mut jobs: Vec<Box<dyn Job + Send + Sync>> = Vec::new(alloc);
    jobs.push(Box::new(alloc, job)?)?;
    let table = JobTable::new(jobs);
    let mut report = Report::new(alloc);
    let Ok(script) = read_script(alloc, THREE_TIMERS) else {
        return Ok(None);
    };
    if play(alloc, &script, &table, &mut report).is_err() {
        return Ok(None);
    }
    Ok(Some(calls.load(Ordering::SeqCst)))
}

#[test]
fn a_job_is_called_once_for_each_hand_out_in_their_order(rt: HostRuntime) -> Result<(), Fail> {
    assert_eq!(rt; calls_noted(rt.alloc())?, Some(231));
    Ok(())
}

// CPU 0 answers for CPU 1, and CPU 8 for CPU 9: at 61 each of them has to take the other one's
// timer. By hand, from docs/FORMATS.md: a delay of 50 at jiffy 10 expires at 61.
const TWO_LOOKS: &[u8] = b"tmig 1\nnodes 1\ncpus 10\ntimers 2\nat 10\narm 1 0 global 50 0 0\n\
    idle 1\narm 9 1 global 50 0 0\nidle 9\nend 100\n";

const TWO_LOOKED: &[u8] = b"arm 10 1 0 global 61\nidle 10 1 never\narm 10 9 1 global 61\n\
    idle 10 9 never\ncover 10 1 61 migrator 0:0 0\ncover 10 9 61 migrator 0:1 8\n\
    run 61 0 0 1 61 done\nrun 61 8 1 9 61 done\nend 100\n";

// Whether the library's run of the two looks past a gate comes to its end with that report, and
// leaves a core in which each sleeper is answered for.
fn has_looked<G: Gate + Sync, R: Threads + Wait + Sync>(
    rt: &R,
    alloc: Global,
    gate: &G,
) -> Result<bool, AllocError> {
    let mut report = Report::new(alloc);
    let Ok(script) = read_script(alloc, TWO_LOOKS) else {
        return Ok(false);
    };
    match run(rt, alloc, &script, &StandardJobs, gate, &mut report) {
        Ok(core) => Ok(is_answered(&core) && report.text() == TWO_LOOKED),
        Err(_) => Ok(false),
    }
}

// Each looker is held before it runs the other CPU's timers until the other looker stands there
// too: the library's call makes its rounds as the program does, whose tests are those of held_runs.
#[test]
fn in_the_library_s_run_two_cpus_look_after_others_at_once(rt: HostRuntime) -> Result<(), Fail> {
    let gate = Meeting::new(CpuId(0), CpuId(8), Point::BeforeRemoteRun);
    assert!(rt; has_looked(&rt, rt.alloc(), &gate)?);
    assert!(rt; gate.met());
    Ok(())
}
