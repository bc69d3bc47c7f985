//! How the program comes to what it is about to write: from its words and its input to a reply.

ghost use Rattle.std.specs.Prelude.{◌≡◌, None, IfOk, OnErr};
ghost use Rattle.tm_base.specs.declared.limits.TheConstants.{MOST_BYTES};
ghost use Rattle.tm_io.specs.Seen.{SourceUnbroken};
ghost use Rattle.tm_io.specs.Sources.{TakesUpTo};
ghost use Rattle.tm_script.specs.Grammar.{IsScript};
ghost use Rattle.run_moments.specs.Rounds.{MakesRounds};
ghost use Rattle.program_texts.specs.Inputs.{IsInput};
ghost use Rattle.program_texts.specs.Words.{IsRecipe, Reads, form_of, recipe_in};
ghost use Rattle.program_texts.specs.Brought.{script_by};
ghost use Rattle.program_replies.specs.Replies.{IsProgramReply, IsReplyOf, IsReplyTo};
ghost use Rattle.program_replies.specs.Statuses.{HasRead};
ghost use Rattle.program_replies.specs.Steps.{IsReplyToBytes};

use crate::replies::{check_trace, draw_tree, play_deep, play_delayed, play_script, sum_up};
use job_table::Jobs;
use play_driver::DriveFault;
use program_texts::{Command, Form, Input, Recipe, Reply, read_command, read_input};
use run_laws::law_story_work;
use run_moments::{Core, Rounded, run_by};
use std::alloc::Global;
use tm_base::{CpuSet, MOST_BYTES, NoMemory};
use tm_generate::generate;
use tm_io::{ReadFault, Source, read_all};
use tm_report::Report;
use tm_script::{Op, ReadScript, Script, print_script};
use wheel_base::WheelBase;

/// Runs a script, whose rounds `round` makes.
fn run_script<J: Jobs, F: Fn(Core<WheelBase>, &CpuSet, &[Op]) -> Rounded>(
    alloc: Global,
    script: &Script,
    jobs: &J,
    round: &F,
) -> Result<Reply, NoMemory>
    requires script { IsScript script.now }
    requires rounds { MakesRounds (J.replies jobs.now) (F.pre round.now) (F.post round.now) }
    ensures { IfOk result
        (IsReplyTo (J.replies jobs.now) (J.count jobs.now) Command.Run
        (Input.Script script.now)) }
{
    law_story_work();
    let mut report = Report::new(alloc);
    match run_by(alloc, script, jobs, round, &mut report) {
        Ok(core) => {
            drop(core);
            Ok(Reply::Played(report))
        }
        Err(DriveFault::BadJob { line, job }) => Ok(Reply::JobUnknown { line, job }),
        Err(DriveFault::WorkSpent { count }) => Ok(Reply::WorkSpent { count }),
        Err(DriveFault::NoMemory) => Err(NoMemory),
    }
}

/// Does with its script what the command says.
fn reply_to_script<J: Jobs, F: Fn(Core<WheelBase>, &CpuSet, &[Op]) -> Rounded>(
    alloc: Global,
    command: Command,
    script: &Script,
    jobs: &J,
    round: &F,
) -> Result<Reply, NoMemory>
    requires grammar { IsScript script.now }
    requires form { form_of command ≡ Form.Script }
    requires rounds { MakesRounds (J.replies jobs.now) (F.pre round.now) (F.post round.now) }
    ensures { IfOk result (IsReplyTo (J.replies jobs.now) (J.count jobs.now) command
        (Input.Script script.now)) }
{
    match command {
        Command::Play => play_script(alloc, script, jobs),
        Command::Run => run_script(alloc, script, jobs, round),
        Command::Tree => draw_tree(alloc, script),
        Command::Generate(_) => Ok(Reply::Made(print_script(alloc, script)?)),
        Command::Day(_) => sum_up(alloc, script, jobs),
        Command::Check | Command::Works => unreachable!(),
        Command::Deep => play_deep(alloc, script, jobs),
    }
}

/// Does with its input what the command says.
fn reply_to_input<J: Jobs, F: Fn(Core<WheelBase>, &CpuSet, &[Op]) -> Rounded>(
    alloc: Global,
    command: Command,
    input: &Input,
    jobs: &J,
    round: &F,
) -> Result<Reply, NoMemory>
    requires input { IsInput (form_of command) input.now }
    requires rounds { MakesRounds (J.replies jobs.now) (F.pre round.now) (F.post round.now) }
    ensures { IfOk result
        (IsReplyTo (J.replies jobs.now) (J.count jobs.now) command input.now) }
{
    match input {
        Input::Script(script) => reply_to_script(alloc, command, script, jobs, round),
        Input::Trace(trace) => check_trace(alloc, trace),
        Input::Works(works) => play_delayed(alloc, works, jobs),
    }
}

/// Does with the input that the bytes spell what the command says.
fn reply_to_bytes<J: Jobs, F: Fn(Core<WheelBase>, &CpuSet, &[Op]) -> Rounded>(
    alloc: Global,
    command: Command,
    bytes: &[u8],
    jobs: &J,
    round: &F,
) -> Result<Reply, NoMemory>
    requires rounds { MakesRounds (J.replies jobs.now) (F.pre round.now) (F.post round.now) }
    ensures { IfOk result
        (IsReplyToBytes (J.replies jobs.now) (J.count jobs.now) command bytes.now) }
{
    let form = command.form();
    match read_input(alloc, form, bytes) {
        Ok(input) => reply_to_input(alloc, command, &input, jobs, round),
        Err(ReadScript::Refused(fault)) => Ok(Reply::Refused { form, fault }),
        Err(ReadScript::NoMemory) => Err(NoMemory),
    }
}

/// Reads the input from the source, and does with it what the command says.
fn reply_to_source<S: Source, J: Jobs, F: Fn(Core<WheelBase>, &CpuSet, &[Op]) -> Rounded>(
    alloc: Global,
    command: Command,
    source: &mut S,
    jobs: &J,
    round: &F,
) -> Result<Reply, NoMemory>
    requires no_recipe { recipe_in command ≡ None }
    requires rounds { MakesRounds (J.replies jobs.now) (F.pre round.now) (F.post round.now) }
    ensures reply { IfOk result (IsReplyOf (J.replies jobs.now) (J.count jobs.now) command
        (S.seen source.old) (S.seen source.new)) }
    ensures unbroken { OnErr result (SourceUnbroken (S.seen source.old) (S.seen source.new)) }
    ensures read { OnErr result (TakesUpTo (S.seen source.old) (S.seen source.new) MOST_BYTES) }
{
    match read_all(alloc, source, MOST_BYTES) {
        Ok(bytes) => reply_to_bytes(alloc, command, &bytes, jobs, round),
        Err(ReadFault::Read) => Ok(Reply::ReadFault),
        Err(ReadFault::TooLong) => Ok(Reply::TooLong),
        Err(ReadFault::NoMemory) => Err(NoMemory),
    }
}

/// Generates the script, and does with it what the command says.
fn reply_to_recipe<J: Jobs, F: Fn(Core<WheelBase>, &CpuSet, &[Op]) -> Rounded>(
    alloc: Global,
    command: Command,
    recipe: Recipe,
    jobs: &J,
    round: &F,
) -> Result<Reply, NoMemory>
    requires recipe { IsRecipe recipe }
    requires form { form_of command ≡ Form.Script }
    requires rounds { MakesRounds (J.replies jobs.now) (F.pre round.now) (F.post round.now) }
    ensures { IfOk result (IsReplyTo (J.replies jobs.now) (J.count jobs.now) command
        (Input.Script (script_by recipe))) }
{
    let Recipe {
        number,
        cpus,
        timers,
        moments,
    } = recipe;
    let script = generate(alloc, number, cpus, timers, moments)?;
    reply_to_script(alloc, command, &script, jobs, round)
}

/// Does what the words say, up to what is to be written. It reads the source only where the command
/// has no recipe.
pub fn reply_to<S: Source, J: Jobs, F: Fn(Core<WheelBase>, &CpuSet, &[Op]) -> Rounded>(
    alloc: Global,
    words: &[String],
    source: &mut S,
    jobs: &J,
    round: &F,
) -> Result<Reply, NoMemory>
    requires rounds { MakesRounds (J.replies jobs.now) (F.pre round.now) (F.post round.now) }
    ensures reply { IfOk result (IsProgramReply (J.replies jobs.now) (J.count jobs.now) words.now
        (S.seen source.old) (S.seen source.new)) }
    ensures has_read { OnErr result
        (HasRead words.now (S.seen source.old) (S.seen source.new)) }
    ensures untouched { ¬ Reads words.now → source.new ≡ source.old }
{
    let Some(command) = read_command(words) else {
        return Ok(Reply::Usage);
    };
    match command.recipe() {
        Some(recipe) => reply_to_recipe(alloc, command, recipe, jobs, round),
        None => reply_to_source(alloc, command, source, jobs, round),
    }
}
