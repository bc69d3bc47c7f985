//! The whole program.

ghost use Rattle.std.specs.Prelude.{◌≡◌, IfOk, OnErr};
ghost use Rattle.tm_io.specs.Seen.{SourceUnbroken};
ghost use Rattle.linux_view.specs.Ends.{IsEnd, IsReply, Reads, is_linux, reply_text, status_of};

use crate::statuses::{
    MISFIT, MOST_TRACE_BYTES, NO_MEMORY, NO_TRACE, READ_FAULT, TOO_LONG, USAGE, WRITE_FAULT,
};
use crate::texts::{fits_status, print_verdict, read_fault_text, too_long_text, usage_text};
use linux_all::{Verdict, check_trace};
use std::alloc::Global;
use text_words::push_bytes;
use tm_base::NoMemory;
use tm_io::{ReadFault, Sink, Source, WriteCause, read_all, write_all};

/// What the program is about to write.
#[derive(Clone, Copy)]
pub enum Reply {
    /// The words aren't a command.
    Usage,
    /// The source failed.
    BrokenSource,
    /// The source has too many bytes.
    LongSource,
    /// What is said of a trace.
    Judged(Verdict),
}

/// Whether the words are the command.
fn is_linux(words: &[String]) -> bool
    ensures { result ≡ is_linux words.now }
{
    match words {
        [word] => word.as_bytes() == b"linux".as_slice(),
        _ => false,
    }
}

/// Does what the words say, up to what is to be written. It reads the source only for the command.
fn reply_to<S: Source>(alloc: Global, words: &[String], source: &mut S) -> Result<Reply, NoMemory>
    ensures reply { IfOk result
        (λ reply. IsReply reply words.now (S.seen source.old) (S.seen source.new)) }
    ensures unbroken { OnErr result (SourceUnbroken (S.seen source.old) (S.seen source.new)) }
{
    if !is_linux(words) {
        return Ok(Reply::Usage);
    }
    match read_all(alloc, source, MOST_TRACE_BYTES) {
        Ok(bytes) => Ok(Reply::Judged(check_trace(alloc, &bytes)?)),
        Err(ReadFault::Read) => Ok(Reply::BrokenSource),
        Err(ReadFault::TooLong) => Ok(Reply::LongSource),
        Err(ReadFault::NoMemory) => Err(NoMemory),
    }
}

/// A text of these bytes.
fn text_of(alloc: Global, bytes: &[u8]) -> Result<Vec<u8>, NoMemory>
    ensures { IfOk result (λ text. text.items ≡ bytes.now) }
{
    let mut text = Vec::new(alloc);
    push_bytes(&mut text, bytes)?;
    Ok(text)
}

/// What a reply writes.
#[tactic(auto, unfolding(crate::specs::Ends::reply_text))]
fn make_text(alloc: Global, reply: Reply) -> Result<Vec<u8>, NoMemory>
    ensures { IfOk result (λ text. text.items ≡ reply_text reply) }
{
    match reply {
        Reply::Usage => text_of(alloc, usage_text()),
        Reply::BrokenSource => text_of(alloc, read_fault_text()),
        Reply::LongSource => text_of(alloc, too_long_text()),
        Reply::Judged(verdict) => print_verdict(alloc, verdict),
    }
}

/// The status of a reply that was written whole.
#[tactic(auto, unfolding(crate::specs::Ends::status_of))]
fn status_of(reply: Reply) -> u8
    ensures { result ≡ status_of reply }
{
    match reply {
        Reply::Usage => USAGE,
        Reply::BrokenSource => READ_FAULT,
        Reply::LongSource => TOO_LONG,
        Reply::Judged(Verdict::Fits(tally, _)) => fits_status(&tally),
        Reply::Judged(Verdict::Broken(_)) => MISFIT,
        Reply::Judged(Verdict::NoTrace(_, _)) => NO_TRACE,
    }
}

/// Writes a reply, and answers the status that says how that went: the reply's own where all of
/// it was written.
fn write_reply<K: Sink>(alloc: Global, reply: Reply, sink: &mut K) -> u8
    ensures { IsEnd (reply_text reply) (status_of reply)
        (K.seen sink.old) (K.seen sink.new) result }
{
    let Ok(text) = make_text(alloc, reply) else {
        return NO_MEMORY;
    };
    match write_all(sink, &text) {
        Ok(()) => status_of(reply),
        Err(fault) => match fault.cause {
            WriteCause::NoMemory => NO_MEMORY,
            _ => WRITE_FAULT,
        },
    }
}

/// Does all that the program does: with the one word `linux` it reads a trace from the source to
/// its end, and writes what is said of it.
pub fn run_view<S: Source, K: Sink>(
    alloc: Global,
    words: &[String],
    source: &mut S,
    sink: &mut K,
) -> u8
    ensures { Reads words.now (S.seen source.old) (S.seen source.new)
        (K.seen sink.old) (K.seen sink.new) result }
{
    match reply_to(alloc, words, source) {
        Ok(reply) => write_reply(alloc, reply, sink),
        Err(_) => NO_MEMORY,
    }
}
