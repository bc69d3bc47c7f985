//! What is replied to an input without threads: to a script, to a trace and to works.

ghost use Rattle.std.specs.Prelude.{ℕ, IfOk};
ghost use Rattle.play_rules.specs.Interrupts.{Replies};
ghost use Rattle.tm_script.specs.Grammar.{IsScript};
ghost use Rattle.trace_text.specs.Texts.{IsTrace};
ghost use Rattle.work_script.specs.Grammar.{IsWorkScript};
ghost use Rattle.program_replies.specs.Replies.{IsReplyTo};

use crate::day_text::print_day;
use delayed_work::{WorksFault, play_works};
use job_table::Jobs;
use play_driver::DriveFault;
use program_texts::tree_text::print_tree;
use program_texts::{Command, Input, Recipe, Reply};
use run_moments::{deep, law_work, play, summary};
use std::alloc::Global;
use tm_base::NoMemory;
use tm_report::Report;
use tm_script::Script;
use trace_check::check;
use trace_text::Trace;
use tree_plan::plan;
use work_script::WorkScript;

/// Plays a script.
pub(crate) fn play_script<J: Jobs>(
    alloc: Global,
    script: &Script,
    jobs: &J,
) -> Result<Reply, NoMemory>
    requires { IsScript script.now }
    ensures { IfOk result
        (IsReplyTo (J.replies jobs.now) (J.count jobs.now) Command.Play
        (Input.Script script.now)) }
{
    law_work();
    let mut report = Report::new(alloc);
    match play(alloc, script, jobs, &mut report) {
        Ok(core) => {
            drop(core);
            Ok(Reply::Played(report))
        }
        Err(DriveFault::BadJob { line, job }) => Ok(Reply::JobUnknown { line, job }),
        Err(DriveFault::WorkSpent { count }) => Ok(Reply::WorkSpent { count }),
        Err(DriveFault::NoMemory) => Err(NoMemory),
    }
}

/// Plays a script under one broadcast device.
pub(crate) fn play_deep<J: Jobs>(
    alloc: Global,
    script: &Script,
    jobs: &J,
) -> Result<Reply, NoMemory>
    requires { IsScript script.now }
    ensures { IfOk result
        (IsReplyTo (J.replies jobs.now) (J.count jobs.now) Command.Deep
        (Input.Script script.now)) }
{
    law_work();
    let mut report = Report::new(alloc);
    match deep(alloc, script, jobs, &mut report) {
        Ok(()) => Ok(Reply::Played(report)),
        Err(DriveFault::BadJob { line, job }) => Ok(Reply::JobUnknown { line, job }),
        Err(DriveFault::WorkSpent { count }) => Ok(Reply::WorkSpent { count }),
        Err(DriveFault::NoMemory) => Err(NoMemory),
    }
}

/// Plays a script, and sums up what that came to.
pub(crate) fn sum_up<J: Jobs>(alloc: Global, script: &Script, jobs: &J) -> Result<Reply, NoMemory>
    requires { IsScript script.now }
    ensures { (recipe : Recipe) → IfOk result
        (IsReplyTo (J.replies jobs.now) (J.count jobs.now) (Command.Day recipe)
        (Input.Script script.now)) }
{
    law_work();
    match summary(alloc, script, jobs) {
        Ok(numbers) => Ok(Reply::Made(print_day(alloc, &numbers)?)),
        Err(DriveFault::BadJob { line, job }) => Ok(Reply::JobUnknown { line, job }),
        Err(DriveFault::WorkSpent { count }) => Ok(Reply::WorkSpent { count }),
        Err(DriveFault::NoMemory) => Err(NoMemory),
    }
}

/// Draws the tree of a script's machine.
pub(crate) fn draw_tree(alloc: Global, script: &Script) -> Result<Reply, NoMemory>
    requires { IsScript script.now }
    ensures { (jobs : Replies) (table : ℕ) → IfOk result
        (IsReplyTo jobs table Command.Tree (Input.Script script.now)) }
{
    let tree = plan(alloc, script.nodes, script.cpus, &script.isolated)?;
    let text = print_tree(alloc, &tree);
    drop(tree);
    Ok(Reply::Made(text?))
}

/// Tells whether a trace is a run, and what it asks.
pub(crate) fn check_trace(alloc: Global, trace: &Trace) -> Result<Reply, NoMemory>
    requires { IsTrace trace.now }
    ensures { (jobs : Replies) (table : ℕ) → IfOk result
        (IsReplyTo jobs table Command.Check (Input.Trace trace.now)) }
{
    let mut report = Report::new(alloc);
    check(alloc, trace, &mut report)?;
    Ok(Reply::Played(report))
}

/// Plays a script of works.
pub(crate) fn play_delayed<J: Jobs>(
    alloc: Global,
    works: &WorkScript,
    jobs: &J,
) -> Result<Reply, NoMemory>
    requires { IsWorkScript works.now }
    ensures { IfOk result
        (IsReplyTo (J.replies jobs.now) (J.count jobs.now) Command.Works (Input.Works works.now)) }
{
    match play_works(alloc, works, jobs) {
        Ok(text) => Ok(Reply::Made(text)),
        Err(WorksFault::BadJob { line, job }) => Ok(Reply::JobUnknown { line, job }),
        Err(WorksFault::WorkSpent { count }) => Ok(Reply::WorkSpent { count }),
        Err(WorksFault::NoMemory) => Err(NoMemory),
    }
}
