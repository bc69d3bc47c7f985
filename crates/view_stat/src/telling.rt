//! What `stat` writes of a script.

ghost use Rattle.std.specs.Prelude.{◌≡◌, IfOk};
ghost use Rattle.tm_script.specs.Grammar.{IsScript};
ghost use Rattle.view_stat.specs.Telling.{IsTold, counts_told, spent_text, unknown_text};

use crate::stats::stat;
use job_table::StandardJobs;
use play_driver::DriveFault;
use std::alloc::Global;
use text_words::{push_bytes, push_number};
use tm_base::{Jiffy, NoMemory};
use tm_script::Script;
use view_counts::{CpuCounts, Wakeup, print_columns, print_rows, print_wakeups};

/// All was counted.
pub const COUNTED: u8 = 0;

/// The work has reached its limit.
pub const WORK_SPENT: u8 = 6;

/// A line names a job that there isn't.
pub const JOB_UNKNOWN: u8 = 8;

/// A text, and the status where all of it is written.
#[derive(Drop)]
pub struct Told {
    pub text: Vec<u8>,
    pub status: u8,
}

/// In which form a play's counts are written.
#[derive(Clone, Copy)]
pub enum Form {
    /// A line for each CPU, in columns for people.
    Columns,
    /// A row for each CPU, in words and numbers for scripts.
    Rows,
    /// A line for each wakeup.
    Wakeups,
}

/// What was counted, in a form.
fn counts_told(
    alloc: Global,
    form: Form,
    end: Jiffy,
    cpus: &[CpuCounts],
    wakeups: &[Wakeup],
) -> Result<Vec<u8>, NoMemory>
    ensures { IfOk result (λ text. text.items ≡ counts_told form end cpus.now wakeups.now) }
{
    match form {
        Form::Columns => print_columns(alloc, cpus),
        Form::Rows => print_rows(alloc, end, cpus),
        Form::Wakeups => print_wakeups(alloc, wakeups),
    }
}

/// A line names a job that there isn't.
#[tactic(auto, using(crate::proofs::Joined::onto), unfolding(crate::specs::Telling::unknown_text))]
pub(crate) fn unknown(alloc: Global, line: u32, job: u8) -> Result<Vec<u8>, NoMemory>
    ensures { IfOk result (λ text. text.items ≡ unknown_text line job) }
{
    let mut text = Vec::new(alloc);
    push_bytes(&mut text, b"job unknown line ")?;
    push_number(&mut text, u64::from(line))?;
    push_bytes(&mut text, b" job ")?;
    push_number(&mut text, u64::from(job))?;
    push_bytes(&mut text, b"\n")?;
    Ok(text)
}

/// The work has reached its limit.
#[tactic(auto, using(crate::proofs::Joined::onto), unfolding(crate::specs::Telling::spent_text))]
pub(crate) fn spent(alloc: Global, count: u32) -> Result<Vec<u8>, NoMemory>
    ensures { IfOk result (λ text. text.items ≡ spent_text count) }
{
    let mut text = Vec::new(alloc);
    push_bytes(&mut text, b"work spent ")?;
    push_number(&mut text, u64::from(count))?;
    push_bytes(&mut text, b"\n")?;
    Ok(text)
}

/// Counts what happens in a script's play, with the program's jobs, and writes it in a form; or why
/// nothing was counted.
pub fn tell_stat(alloc: Global, form: Form, script: &Script) -> Result<Told, NoMemory>
    requires { IsScript script.now }
    ensures { IfOk result (λ told. IsTold form script.now told.text.items told.status) }
{
    match stat(alloc, script, &StandardJobs) {
        Ok(stats) => Ok(Told {
            text: counts_told(alloc, form, script.end, &stats.cpus, &stats.wakeups)?,
            status: COUNTED,
        }),
        Err(DriveFault::BadJob { line, job }) => Ok(Told {
            text: unknown(alloc, line, job)?,
            status: JOB_UNKNOWN,
        }),
        Err(DriveFault::WorkSpent { count }) => Ok(Told {
            text: spent(alloc, count)?,
            status: WORK_SPENT,
        }),
        Err(DriveFault::NoMemory) => Err(NoMemory),
    }
}
