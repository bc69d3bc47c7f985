//! The whole program.

ghost use Rattle.std.specs.Prelude.{◌≢◌, ◌≡◌, ◌⊎◌, IfOk, None, Some};
ghost use Rattle.std.specs.Thread.{IsSync};
ghost use Rattle.tm_io.specs.Seen.{SourceFailed, SourceUnbroken};
ghost use Rattle.program_replies.specs.story.Asked.{AsksRound};
ghost use Rattle.program_replies.specs.story.Rounds.{IsRound};
ghost use Rattle.program_texts.specs.Words.{Reads, program_command_of};
ghost use Rattle.program_texts.specs.Ends.{SinkBreaks};
ghost use Rattle.program_texts.specs.Statuses.{IsEither, IsStatus};
ghost use Rattle.program_replies.specs.Statuses.{IsShortDay, SaysDone, SaysJobUnknown, SaysNoMemory};
ghost use Rattle.program_replies.specs.Statuses.{SaysTraceRefused, SaysWorksRefused, SaysReadFault};
ghost use Rattle.program_replies.specs.Statuses.{SaysRefused, SaysTooLong, SaysUsage, SaysWorkSpent};
ghost use Rattle.program_replies.specs.Statuses.{SaysWriteFault};
ghost use Rattle.program_replies.specs.Causes.{IsFine, IsJobUnknown, IsScriptRefused, IsTooLong};
ghost use Rattle.program_replies.specs.Causes.{IsTraceRefused, IsWorkSpent, IsWorksRefused};

use job_table::Jobs;
use program_replies::{Core, Rounded, reply_to};
use program_texts::{
    Command, DONE, JOB_UNKNOWN, NO_MEMORY, READ_FAULT, Recipe, SCRIPT_REFUSED, Status, TOO_LONG,
    TRACE_REFUSED, USAGE, WORK_SPENT, WORKS_REFUSED, WRITE_FAULT, write_reply,
};
use run_rounds::round;
use std::alloc::Global;
use std::sync::Wait;
use std::thread::Threads;
use tm_base::{CpuSet, Gate};
use tm_io::{Sink, Source};
use tm_script::Op;
use wheel_base::WheelBase;

/// Does all that the program does: what the words say, with the input that it reads from the
/// source, or the script that it generates. The first cause that comes decides: the words, a fault
/// of the source, too many bytes, bytes that spell no such input, a job that there isn't, the work
/// of the play, a fault of the sink. Want of memory may come at any place. Everything is written at
/// the end, by one `write_all`.
///
/// The words are `play`, `run`, `tree`, `generate NUMBER CPUS TIMERS MOMENTS`,
/// `day NUMBER CPUS TIMERS MOMENTS`, `check`, `deep` or `works`; of these `play`, `run`, `tree` and
/// `deep` read a script from the source, `check` a trace, and `works` a script of works.
///
/// With `run` threads take part, which meet as the gate lets them go on: what is written is the
/// text of one of the script's stories, and which one is free. The others need no thread and no
/// gate.
///
/// Want of memory with nothing written may come as the input is read, or made, or worked on, or as
/// the sink takes its first bytes. Words that are no command, a source that failed, and one that
/// has too many bytes want no memory for what is told of them: there it is the sink's alone. A
/// front that was written is never all that was due.
pub fn run_program<S: Source, K: Sink, J: Jobs + Sync, G: Gate + Sync, R: Threads + Wait + Sync>(
    rt: &R,
    alloc: Global,
    words: &[String],
    source: &mut S,
    sink: &mut K,
    jobs: &J,
    gate: &G,
) -> Status
    // What each status says.
    ensures done { result.0 ≡ DONE → SaysDone (J.replies jobs.now) (J.count jobs.now) words.now
        (S.seen source.old) (S.seen source.new) (K.seen sink.old) (K.seen sink.new) }
    ensures refused { result.0 ≡ SCRIPT_REFUSED → SaysRefused words.now
        (S.seen source.old) (S.seen source.new) (K.seen sink.old) (K.seen sink.new) }
    ensures usage { result.0 ≡ USAGE → SaysUsage words.now (K.seen sink.old) (K.seen sink.new) }
    ensures read_fault { result.0 ≡ READ_FAULT → SaysReadFault words.now
        (S.seen source.old) (S.seen source.new) (K.seen sink.old) (K.seen sink.new) }
    ensures write_fault { result.0 ≡ WRITE_FAULT → SaysWriteFault
        (J.replies jobs.now) (J.count jobs.now) words.now
        (S.seen source.old) (S.seen source.new) (K.seen sink.old) (K.seen sink.new) }
    ensures no_memory { result.0 ≡ NO_MEMORY → SaysNoMemory
        (J.replies jobs.now) (J.count jobs.now) words.now
        (S.seen source.old) (S.seen source.new) (K.seen sink.old) (K.seen sink.new) }
    ensures work_spent { result.0 ≡ WORK_SPENT → SaysWorkSpent
        (J.replies jobs.now) (J.count jobs.now) words.now
        (S.seen source.old) (S.seen source.new) (K.seen sink.old) (K.seen sink.new) }
    ensures too_long { result.0 ≡ TOO_LONG → SaysTooLong words.now
        (S.seen source.old) (S.seen source.new) (K.seen sink.old) (K.seen sink.new) }
    ensures job_unknown { result.0 ≡ JOB_UNKNOWN → SaysJobUnknown (J.count jobs.now) words.now
        (S.seen source.old) (S.seen source.new) (K.seen sink.old) (K.seen sink.new) }
    ensures trace_refused { result.0 ≡ TRACE_REFUSED → SaysTraceRefused words.now
        (S.seen source.old) (S.seen source.new) (K.seen sink.old) (K.seen sink.new) }
    ensures works_refused { result.0 ≡ WORKS_REFUSED → SaysWorksRefused words.now
        (S.seen source.old) (S.seen source.new) (K.seen sink.old) (K.seen sink.new) }
    ensures no_other { IsStatus result.0 }

    // When they come, in the order of the causes. Each yields to want of memory alone.
    ensures usage_exactly { program_command_of words.now ≡ None
        → IsEither result.0 USAGE NO_MEMORY }
    ensures untouched { ¬ Reads words.now → source.new ≡ source.old }
    ensures read_fault_exactly { ¬ SourceUnbroken (S.seen source.old) (S.seen source.new)
        → IsEither result.0 READ_FAULT NO_MEMORY }
    ensures too_long_exactly { result.0 ≢ READ_FAULT
        → IsTooLong words.now (S.seen source.old).left
        → IsEither result.0 TOO_LONG NO_MEMORY }
    ensures refused_exactly { result.0 ≢ READ_FAULT
        → IsScriptRefused words.now (S.seen source.old).left
        → IsEither result.0 SCRIPT_REFUSED NO_MEMORY }
    ensures trace_refused_exactly { result.0 ≢ READ_FAULT
        → IsTraceRefused words.now (S.seen source.old).left
        → IsEither result.0 TRACE_REFUSED NO_MEMORY }
    ensures works_refused_exactly { result.0 ≢ READ_FAULT
        → IsWorksRefused words.now (S.seen source.old).left
        → IsEither result.0 WORKS_REFUSED NO_MEMORY }
    ensures job_unknown_exactly { result.0 ≢ READ_FAULT
        → IsJobUnknown (J.count jobs.now) words.now (S.seen source.old).left
        → IsEither result.0 JOB_UNKNOWN NO_MEMORY }
    ensures day_ends { (recipe : Recipe) → program_command_of words.now ≡ Some (Command.Day recipe)
        → IsShortDay recipe → result.0 ≢ WORK_SPENT }
    ensures work_spent_exactly { result.0 ≢ READ_FAULT
        → IsWorkSpent (J.replies jobs.now) (J.count jobs.now) words.now (S.seen source.old).left
        → IsEither result.0 WORK_SPENT NO_MEMORY }
    ensures output { result.0 ≢ READ_FAULT
        → IsFine (J.replies jobs.now) (J.count jobs.now) words.now (S.seen source.old).left
        → (result.0 ≡ WRITE_FAULT) ⊎ IsEither result.0 DONE NO_MEMORY }
    ensures complete { ¬ SourceFailed (S.seen source.old) (S.seen source.new)
        → ¬ SinkBreaks (K.seen sink.old) (K.seen sink.new)
        → IsFine (J.replies jobs.now) (J.count jobs.now) words.now (S.seen source.old).left
        → IsEither result.0 DONE NO_MEMORY }
{
    let by_threads = |core: Core<WheelBase>, due: &CpuSet, ops: &[Op]| -> Rounded
        requires { IsSync R.row × IsSync J.row × IsSync G.row × AsksRound core due.now ops.now }
        ensures { IfOk result
            (λ r. IsRound (J.replies jobs.entry.now) core due.now ops.now r.0 r.1.items) }
    { round(rt, alloc, core, due, ops, jobs, gate) };
    match reply_to(alloc, words, source, jobs, &by_threads) {
        Ok(reply) => Status(write_reply(alloc, &reply, sink)),
        Err(_) => Status(NO_MEMORY),
    }
}
