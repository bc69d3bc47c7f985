//! The whole program.

ghost use Rattle.std.specs.Prelude.{◌≡◌, IfOk};
ghost use Rattle.linux_view.specs.Ends.{IsEnd};
ghost use Rattle.view_main.specs.Ends.{IsAnswer, IsOutput, Runs, Views};
ghost use Rattle.view_main.specs.Words.{command_of};
ghost use Rattle.view_main.specs.declared.words.Command.TheVariants as commands;

use crate::outputs::{Output, count, count_alone, draw, tell, tell_all};
use crate::words::{Command, command_of};
use linux_view::{
    MOST_TRACE_BYTES, NO_MEMORY, READ_FAULT, TOO_LONG, WRITE_FAULT, read_fault_text, run_view,
    too_long_text,
};
use std::alloc::Global;
use text_words::push_bytes;
use tm_base::NoMemory;
use tm_io::{ReadFault, Sink, Source, WriteCause, read_all, write_all};

/// An output of these bytes.
pub(crate) fn output_of(alloc: Global, bytes: &[u8], status: u8) -> Result<Output, NoMemory>
    ensures text { IfOk result (λ o. o.text.items ≡ bytes.now) }
    ensures status { IfOk result (λ o. o.status ≡ status) }
{
    let mut text = Vec::new(alloc);
    push_bytes(&mut text, bytes)?;
    Ok(Output { text, status })
}

/// What a command writes of these bytes.
fn answer(alloc: Global, command: Command, bytes: &[u8]) -> Result<Output, NoMemory>
    ensures { IfOk result (λ o. IsAnswer command bytes.now o.text.items o.status) }
{
    match command {
        Command::Chart(look) => draw(alloc, look, bytes),
        Command::Explain => tell(alloc, bytes),
        Command::All => tell_all(alloc, bytes),
        Command::Stat(form) => count(alloc, form, bytes),
        Command::Alone => count_alone(alloc, bytes),
        Command::Other => Err(NoMemory),
    }
}

/// What a command writes of the source, which it reads to its end.
fn output_for<S: Source>(
    alloc: Global,
    command: Command,
    source: &mut S,
) -> Result<Output, NoMemory>
    ensures { IfOk result
        (λ o. IsOutput command (S.seen source.old) (S.seen source.new) o.text.items o.status) }
{
    match read_all(alloc, source, MOST_TRACE_BYTES) {
        Ok(bytes) => answer(alloc, command, &bytes),
        Err(ReadFault::Read) => output_of(alloc, read_fault_text(), READ_FAULT),
        Err(ReadFault::TooLong) => output_of(alloc, too_long_text(), TOO_LONG),
        Err(ReadFault::NoMemory) => Err(NoMemory),
    }
}

/// Writes an output, and answers the status that says how that went: the output's own where all of
/// it was written.
pub(crate) fn write_output<K: Sink>(sink: &mut K, output: &Output) -> u8
    ensures { IsEnd output.now.text.items output.now.status
        (K.seen sink.old) (K.seen sink.new) result }
{
    match write_all(sink, &output.text) {
        Ok(()) => output.status,
        Err(fault) => match fault.cause {
            WriteCause::NoMemory => NO_MEMORY,
            _ => WRITE_FAULT,
        },
    }
}

/// Does what a command says that isn't `Other`.
fn run_command<S: Source, K: Sink>(
    alloc: Global,
    command: Command,
    source: &mut S,
    sink: &mut K,
) -> u8
    ensures { Runs command (S.seen source.old) (S.seen source.new)
        (K.seen sink.old) (K.seen sink.new) result }
{
    match output_for(alloc, command, source) {
        Ok(output) => write_output(sink, &output),
        Err(_) => NO_MEMORY,
    }
}

/// Does all that the program does: `chart` draws a report, `explain` tells a trace of steps,
/// `linux --all` tells all that is wrong with a kernel's trace, `stat` counts what happens in a
/// script's play, `stat --alone` also in the same without the hierarchy, and what other words say is
/// `linux_view::run_view`. It reads the source to its end, writes the answer at the end, and
/// answers the exit status.
pub fn run_views<S: Source, K: Sink>(
    alloc: Global,
    words: &[String],
    source: &mut S,
    sink: &mut K,
) -> u8
    ensures { Views words.now (S.seen source.old) (S.seen source.new)
        (K.seen sink.old) (K.seen sink.new) result }
{
    let command = command_of(words);
    match command {
        Command::Other => run_view(alloc, words, source, sink),
        Command::Chart(_) => run_command(alloc, command, source, sink),
        Command::Explain => run_command(alloc, command, source, sink),
        Command::All => run_command(alloc, command, source, sink),
        Command::Stat(_) => run_command(alloc, command, source, sink),
        Command::Alone => run_command(alloc, command, source, sink),
    }
}
