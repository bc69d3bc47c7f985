//! Writing a reply.

ghost use Rattle.std.specs.Prelude.{MatchResult};
ghost use Rattle.program_texts.specs.Ends.{EndsAs, EndsUnwritten, EndsWith};

use crate::replies::{Reply, refused_status};
use crate::texts::{
    job_unknown_text, read_fault_text, refused_text, too_long_text, usage_text, work_spent_text,
};
use crate::{DONE, JOB_UNKNOWN, NO_MEMORY, READ_FAULT, TOO_LONG, USAGE, WORK_SPENT, WRITE_FAULT};
use std::alloc::Global;
use tm_base::NoMemory;
use tm_io::{Sink, WriteCause, write_all};

/// Writes a text, and answers one status where all of it was written, and another where the sink
/// failed or took nothing before.
fn write_text<K: Sink>(text: &[u8], all: u8, broken: u8, sink: &mut K) -> u8
    ensures { EndsWith text.now all broken (K.seen sink.old) (K.seen sink.new) result }
{
    match write_all(sink, text) {
        Ok(()) => all,
        Err(fault) => match fault.cause {
            WriteCause::NoMemory => NO_MEMORY,
            _ => broken,
        },
    }
}

/// Writes a text that says why there is no output, where memory was there to make it.
fn write_made<K: Sink>(text: Result<Vec<u8>, NoMemory>, status: u8, sink: &mut K) -> u8
    ensures { MatchResult text
        (λ made. EndsWith made.items status status (K.seen sink.old) (K.seen sink.new) result)
        (λ _. EndsUnwritten (K.seen sink.old) (K.seen sink.new) result) }
{
    match text {
        Ok(made) => write_text(&made, status, status, sink),
        Err(_) => NO_MEMORY,
    }
}

/// Writes a reply, and answers the status that says how that went.
pub fn write_reply<K: Sink>(alloc: Global, reply: &Reply, sink: &mut K) -> u8
    ensures { EndsAs reply.now (K.seen sink.old) (K.seen sink.new) result }
{
    match reply {
        Reply::Usage => write_text(usage_text(), USAGE, USAGE, sink),
        Reply::ReadFault => write_text(read_fault_text(), READ_FAULT, READ_FAULT, sink),
        Reply::TooLong => write_text(too_long_text(), TOO_LONG, TOO_LONG, sink),
        Reply::Refused { form, fault } => {
            write_made(
                refused_text(alloc, *form, *fault),
                refused_status(*form),
                sink,
            )
        }
        Reply::JobUnknown { line, job } => {
            write_made(job_unknown_text(alloc, *line, *job), JOB_UNKNOWN, sink)
        }
        Reply::WorkSpent { count } => {
            write_made(work_spent_text(alloc, *count), WORK_SPENT, sink)
        }
        Reply::Played(report) => write_text(report.text(), DONE, WRITE_FAULT, sink),
        Reply::Made(text) => write_text(text, DONE, WRITE_FAULT, sink),
    }
}
