//! The whole command.

ghost use Rattle.std.specs.Prelude.{◌≡◌, IfOk};
ghost use Rattle.linux_view.specs.Ends.{IsEnd};
ghost use Rattle.orders_view.specs.Ends.{IsOutput, Orders, Runs};

use crate::outputs::{Output, output_of, tell};
use crate::words::{Asked, asked_in};
use linux_view::{
    MOST_TRACE_BYTES, NO_MEMORY, READ_FAULT, TOO_LONG, USAGE, WRITE_FAULT, read_fault_text,
    too_long_text, usage_text,
};
use std::alloc::Global;
use tm_base::NoMemory;
use tm_io::{ReadFault, Sink, Source, WriteCause, read_all, write_all};

/// What is written of the source, which is read to its end.
fn output_for<S: Source>(alloc: Global, asked: Asked, source: &mut S) -> Result<Output, NoMemory>
    ensures { IfOk result
        (λ o. IsOutput asked (S.seen source.old) (S.seen source.new) o.text.items o.status) }
{
    match read_all(alloc, source, MOST_TRACE_BYTES) {
        Ok(bytes) => tell(alloc, asked, &bytes),
        Err(ReadFault::Read) => output_of(alloc, read_fault_text(), READ_FAULT),
        Err(ReadFault::TooLong) => output_of(alloc, too_long_text(), TOO_LONG),
        Err(ReadFault::NoMemory) => Err(NoMemory),
    }
}

/// Writes a text, and answers the status that says how that went: this one where all of it was
/// written.
fn write_text<K: Sink>(sink: &mut K, text: &[u8], status: u8) -> u8
    ensures { IsEnd text.now status (K.seen sink.old) (K.seen sink.new) result }
{
    match write_all(sink, text) {
        Ok(()) => status,
        Err(fault) => match fault.cause {
            WriteCause::NoMemory => NO_MEMORY,
            _ => WRITE_FAULT,
        },
    }
}

/// Writes an output, and answers the status that says how that went.
fn write_output<K: Sink>(sink: &mut K, output: &Output) -> u8
    ensures { IsEnd output.now.text.items output.now.status
        (K.seen sink.old) (K.seen sink.new) result }
{
    write_text(sink, &output.text, output.status)
}

/// Does what is asked.
fn run_asked<S: Source, K: Sink>(alloc: Global, asked: Asked, source: &mut S, sink: &mut K) -> u8
    ensures { Runs asked (S.seen source.old) (S.seen source.new)
        (K.seen sink.old) (K.seen sink.new) result }
{
    match output_for(alloc, asked, source) {
        Ok(output) => write_output(sink, &output),
        Err(_) => NO_MEMORY,
    }
}

/// Does all that the command does: with the words `orders` and its options it reads a case from the
/// source to its end, follows all orders of its threads' steps, writes the answer at the end, and
/// answers the exit status. With other words it reads nothing, and writes how the program is used.
pub fn run_orders<S: Source, K: Sink>(
    alloc: Global,
    words: &[String],
    source: &mut S,
    sink: &mut K,
) -> u8
    ensures { Orders words.now (S.seen source.old) (S.seen source.new)
        (K.seen sink.old) (K.seen sink.new) result }
{
    match asked_in(words) {
        Some(asked) => run_asked(alloc, asked, source, sink),
        None => write_text(sink, usage_text(), USAGE),
    }
}
