ghost use Rattle.std.specs.Prelude.{IsTrue, ◌+◌, ◌-◌, ◌^◌, ◌<◌, ◌≤◌, length};
ghost use Rattle.tm_base.specs.declared.names.TheConstants.{TIME_LIMIT};

use cpu_bases::Bases;
use delayed_work::*;
use job_table::{JobReply, StandardJobs};
use std::alloc::Global;
use std::test::Fail;
use tm_base::{Jiffy, NoMemory, SCRIPT_TIME_LIMIT};
use wheel_core::ListBase;

// What is answered to a script of works: its output, or its fault.
fn answer(alloc: Global, text: &[u8]) -> Result<Result<Vec<u8>, WorksFault>, Fail> {
    match read_works(alloc, text) {
        Ok(script) => Ok(play_works(alloc, &script, &StandardJobs)),
        Err(_) => Ok(Ok(Vec::new(alloc))),
    }
}

// Wheel expiries by the table of granules: 50 jiffies after 10 is 61, 100 after 61 is 168.
#[test]
fn works_are_played_as_their_rows_say(rt: HostRuntime) -> Result<(), Fail> {
    let rows = [
        (
            b"works 1\ncount 2\nat 10\nqueue 0 50 0 0\nqueue 0 5 0 0\nqueue 1 0 3 7\nat 20\n\
                cancel 0\ncancel 0\nend 100\n"
                .as_slice(),
            b"queued 10 0 61\npending 10 0\nqueued 10 1 ready\nran 10 1 mark 7\n\
                cancelled 20 0\nnone 20 0\nend 100\n"
                .as_slice(),
        ),
        (
            b"works 1\ncount 1\nat 10\nqueue 0 50 1 100\nend 200\n".as_slice(),
            b"queued 10 0 61\nran 61 0 again 168\nran 168 0 again 272\nleft 0 272\nend 200\n".as_slice(),
        ),
        (
            b"works 1\ncount 1\nat 4\nqueue 0 0 1 0\nend 5\n".as_slice(),
            b"queued 4 0 ready\nran 4 0 again ready\nran 5 0 again ready\nleft 0 ready\nend 5\n".as_slice(),
        ),
    ];
    for (text, want) in rows {
        let said = answer(rt.alloc(), text)?;
        assert!(rt; matches!(&said, Ok(output) if output.as_slice() == want));
    }
    Ok(())
}

fn fault(alloc: Global, text: &[u8]) -> Result<Option<WorksFault>, Fail> {
    match answer(alloc, text)? {
        Ok(_) => Ok(None),
        Err(fault) => Ok(Some(fault)),
    }
}

#[test]
fn a_queueing_of_an_unknown_job_is_told(rt: HostRuntime) -> Result<(), Fail> {
    let text = b"works 1\ncount 1\nat 5\nqueue 0 1 3 0\nqueue 0 1 4 0\nend 9\n";
    let told = fault(rt.alloc(), text)?;
    assert_eq!(rt; told, Some(WorksFault::BadJob { line: 5, job: 4 }));
    Ok(())
}

// Whether a call may be made at this time, with this work.
fn may_call(works: &Works<ListBase>, now: Jiffy, work: u16) -> bool
    ensures now { IsTrue result → now ≤ TIME_LIMIT - 2 ^ 32 }
    ensures times { IsTrue result → works.now.time ≤ now }
    ensures work { IsTrue result → work < length works.now.ledger.standings }
{
    now <= SCRIPT_TIME_LIMIT && works.time() <= now && usize::from(work) < works.len()
}

fn queue(
    works: &mut Works<ListBase>,
    now: Jiffy,
    work: u16,
    delay: u32,
    job: u8,
    arg: u32,
) -> Result<Option<Placed>, NoMemory> {
    if !may_call(works, now, work) {
        return Ok(None);
    }
    Ok(Some(works.queue(now, work, delay, job, arg, 1)?))
}

fn cancel(works: &mut Works<ListBase>, now: Jiffy, work: u16) -> Result<Option<bool>, NoMemory> {
    if !may_call(works, now, work) {
        return Ok(None);
    }
    Ok(Some(works.cancel(now, work, 2)?))
}

fn expire(works: &mut Works<ListBase>, now: Jiffy) -> Result<(), NoMemory> {
    if may_call(works, now, 0) {
        works.expire(now)?;
    }
    Ok(())
}

fn run_next(
    works: &mut Works<ListBase>,
    now: Jiffy,
) -> Result<Option<(u16, JobReply, Option<Placed>)>, NoMemory> {
    if !may_call(works, now, 0) {
        return Ok(None);
    }
    works.run_next(now, &StandardJobs)
}

fn left(works: &Works<ListBase>, work: u16) -> Option<Placed> {
    if usize::from(work) < works.len() {
        works.left(work)
    } else {
        None
    }
}

fn two_works(alloc: Global) -> Result<Works<ListBase>, NoMemory> {
    let pinned = ListBase::new(alloc);
    let global = ListBase::new(alloc);
    let deferrable = ListBase::new(alloc);
    Works::new(alloc, Bases::with(alloc, pinned, global, deferrable), 2)
}

// What the calls on two works answer.
#[derive(Clone, Copy)]
struct Answers {
    placed: [Option<Placed>; 3],
    first: Option<Jiffy>,
    cancelled: [Option<bool>; 2],
    ready: usize,
    left: Option<Placed>,
    ran: [Option<(u16, JobReply, Option<Placed>)>; 2],
    time: Jiffy,
    told: usize,
}

fn call_each(works: &mut Works<ListBase>) -> Result<Answers, NoMemory> {
    let placed = [
        queue(works, 10, 0, 50, 3, 7)?,
        queue(works, 10, 0, 5, 0, 0)?,
        queue(works, 10, 1, 0, 0, 0)?,
    ];
    let first = works.first();
    let cancelled = [cancel(works, 20, 1)?, cancel(works, 20, 1)?];
    expire(works, 61)?;
    let ready = works.ready_len();
    let left = left(works, 0);
    let ran = [run_next(works, 61)?, run_next(works, 61)?];
    Ok(Answers {
        placed,
        first,
        cancelled,
        ready,
        left,
        ran,
        time: works.time(),
        told: works.story().len(),
    })
}

fn two_works_played(alloc: Global) -> Result<Answers, NoMemory> {
    let mut works = two_works(alloc)?;
    call_each(&mut works)
}

// The first row of works, call by call.
#[test]
fn a_work_is_queued_expires_runs_and_is_cancelled(rt: HostRuntime) -> Result<(), Fail> {
    let answers = two_works_played(rt.alloc())?;
    let placed = [
        Some(Placed::Waiting(61)),
        Some(Placed::Pending),
        Some(Placed::Ready),
    ];
    assert_eq!(rt; answers.placed, placed);
    assert_eq!(rt; answers.first, Some(61));
    assert_eq!(rt; answers.cancelled, [Some(true), Some(false)]);
    assert_eq!(rt; answers.ready, 1);
    assert_eq!(rt; answers.left, Some(Placed::Ready));
    assert_eq!(rt; answers.ran, [Some((0, JobReply::Mark(7), None)), None]);
    assert_eq!(rt; answers.time, 61);
    assert_eq!(rt; answers.told, 2);
    Ok(())
}
