//! Readers and writers of std as a source and a sink.
//!
//! As a source or a sink they tell nothing of the bytes, since a file or a stream doesn't. The
//! clauses of `take` and `put` here say what goes through where the reader or the writer does tell.

ghost use Rattle.std.specs.Prelude.{◌≡◌, ◌≤◌, ◌<◌, ◌^◌, length, take, IfOk, MatchResult};
ghost use Rattle.std.specs.Io.KnownBytes.{Appends, ReadConsumes};
ghost use Rattle.tm_io.specs.Counts.{counted_up};
ghost use Rattle.tm_io.specs.Seen.{SinkSeen, SourceSeen, sink_untold, source_untold};
ghost use Rattle.tm_io.specs.Sinks.{Puts, refusals_after};
ghost use Rattle.tm_io.specs.Sources.{Takes};

use crate::sinks::count_refusal;
use crate::sources::{ROOM, fill_front};
use crate::{IoFault, Sink, Source};
use std::io;
use std::io::{Read, Write};
use std::marker::Model;

/// A reader as a source. Each error of the reader is a fault.
#[derive(Drop)]
pub struct StdSource<R: Read> {
    reader: R,
    faults: u64,
}

impl<R: Read> Model for StdSource<R> {
    ghost Value = { SourceSeen };

    ghost view = { λ s. record { left = R.remaining s.reader; faults = s.faults } };

    ghost invariant = { λ s. s.faults < 2 ^ 64 };
}

impl<R: Read> StdSource<R> {
    /// The source of what this reader gives from here on.
    pub fn new(reader: R) -> StdSource<R>
        ensures { result ≡ record { left = R.remaining reader; faults = 0 } }
    {
        StdSource { reader, faults: 0 }
    }
}

impl<R: Read> Source for StdSource<R> {
    ghost seen = { source_untold };

    // It reads into a room of its own, since a reader may write past the bytes that it answers.
    fn take(&mut self, room: &mut [u8]) -> Result<usize, IoFault>
        ensures takes { Takes (source_untold self.old) (source_untold self.new)
            result room.old room.new }

        ensures bytes { ReadConsumes self.old.left self.new.left result room.new }
        ensures faults { MatchResult result (λ _. self.new.faults ≡ self.old.faults)
            (λ fault. (fault ≡ IoFault.Failed) × (self.new.faults ≡ counted_up self.old.faults)) }
    {
        let mut own = [0u8; ROOM];
        let most = room.len().min(ROOM);
        match self.reader.read(&mut own[..most]) {
            Ok(count) => Ok(fill_front(room, &own[..count])),
            Err(_) => {
                self.faults = self.faults.saturating_add(1);
                Err(IoFault::Failed)
            }
        }
    }
}

/// A writer as a sink, flushed in each call. Each error of the writer is a fault.
#[derive(Drop)]
pub struct StdSink<W: Write> {
    writer: W,
    faults: u64,
    refusals: u64,
}

impl<W: Write> Model for StdSink<W> {
    ghost Value = { SinkSeen };

    ghost view = { λ s. record {
      held = W.contents s.writer;
      faults = s.faults;
      refusals = s.refusals;
    } };

    ghost invariant = { λ s. (s.faults < 2 ^ 64) × (s.refusals < 2 ^ 64) };
}

impl<W: Write> StdSink<W> {
    /// The sink that puts into this writer.
    pub fn new(writer: W) -> StdSink<W>
        ensures { result ≡ record { held = W.contents writer; faults = 0; refusals = 0 } }
    {
        StdSink {
            writer,
            faults: 0,
            refusals: 0,
        }
    }
}

impl<W: Write> Sink for StdSink<W> {
    ghost seen = { sink_untold };

    fn put(&mut self, bytes: &[u8]) -> Result<usize, IoFault>
        ensures puts { Puts (sink_untold self.old) (sink_untold self.new) result bytes.now }

        // Where the flush fails the writer may hold bytes of a put that failed.
        ensures bytes { IfOk result (λ n. Appends self.old.held self.new.held (take n bytes.now)) }
        ensures faults { MatchResult result (λ _. self.new.faults ≡ self.old.faults)
            (λ fault. (fault ≡ IoFault.Failed) × (self.new.faults ≡ counted_up self.old.faults)) }
        ensures refusals { MatchResult result
            (λ n. self.new.refusals ≡ refusals_after self.old.refusals n bytes.now)
            (λ _. self.new.refusals ≡ self.old.refusals) }
    {
        match write_and_flush(&mut self.writer, bytes) {
            Ok(count) => {
                self.refusals = count_refusal(self.refusals, count, bytes);
                Ok(count)
            }
            Err(_) => {
                self.faults = self.faults.saturating_add(1);
                Err(IoFault::Failed)
            }
        }
    }
}

fn write_and_flush<W: Write>(writer: &mut W, bytes: &[u8]) -> io::Result<usize>
    ensures within { IfOk result (λ n. n ≤ length bytes.now) }
    ensures bytes { IfOk result (λ n.
        Appends (W.contents writer.old) (W.contents writer.new) (take n bytes.now)) }
{
    let count = writer.write(bytes)?;
    writer.flush()?;
    Ok(count)
}
