use super::*;
use std::alloc::{AllocError, Global};
use std::test::Fail;
use tm_base::{Class, CpuId, TimerId};

// The replies are those of the table of jobs in `docs/FORMATS.md`, by hand.
#[test]
fn a_job_of_the_table_is_run_and_a_number_past_it_is_done(rt: HostRuntime) -> Result<(), Fail> {
    let call = JobCall {
        timer: TimerId(5),
        arg: 100,
        now: 61,
        runner: CpuId(1),
    };
    let cases = [
        (0, JobReply::Done),
        (1, again(Class::Global, 100)),
        (2, again(Class::Pinned, 100)),
        (3, JobReply::Mark(100)),
        (4, JobReply::Done),
        (255, JobReply::Done),
    ];
    for (n, want) in cases {
        assert_eq!(rt; StandardJobs.run(n, &call), want, "job {n}");
        assert_eq!(rt;
            table_answer(rt.alloc(), n, &call)?,
            want,
            "job {n} of a table"
        );
    }
    Ok(())
}

#[test]
fn a_table_may_be_lent_to_threads(rt: HostRuntime) -> Result<(), Fail> {
    let mut jobs: Vec<Box<dyn Job + Send + Sync>> = Vec::new(rt.alloc());
    jobs.push(Box::new(rt.alloc(), Marker)?)?;
    let table = JobTable::new(jobs);
    lend(&table);
    assert_eq!(rt; table.len(), 1);
    Ok(())
}

fn lend<T: Sync>(_table: &T) {}

fn again(class: Class, delay: u32) -> JobReply {
    JobReply::Again { class, delay }
}

// What a table of these jobs answers, each stored under its number.
fn table_answer(alloc: Global, n: u8, call: &JobCall) -> Result<JobReply, AllocError> {
    let global = Periodic {
        class: Class::Global,
    };
    let pinned = Periodic {
        class: Class::Pinned,
    };
    let mut jobs: Vec<Box<dyn Job + Send + Sync>> = Vec::new(alloc);
    jobs.push(Box::new(alloc, OneShot)?)?;
    jobs.push(Box::new(alloc, global)?)?;
    jobs.push(Box::new(alloc, pinned)?)?;
    jobs.push(Box::new(alloc, Marker)?)?;
    Ok(JobTable::new(jobs).run(n, call))
}
