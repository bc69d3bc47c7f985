//! A source and a sink in memory that never fail.

ghost use Rattle.std.specs.Prelude.{◌≡◌, ◌≤◌, ◌++◌, [], ℕ, List, min, length, take, drop};
ghost use Rattle.std.specs.Prelude.{vec_len, Ok, IfOk, IfErr};
ghost use Rattle.tm_io.specs.Plain.{plain_source_seen, plain_sink_seen};
ghost use Rattle.tm_io.specs.Sinks.{Puts};
ghost use Rattle.tm_io.specs.Sources.{Takes};

use crate::sources::fill_front;
use crate::{IoFault, Sink, Source};
use std::alloc::Global;
use std::marker::Model;

/// A source of given bytes that never fails. Its count of faults is 0.
#[derive(Drop)]
pub struct PlainSource {
    bytes: Vec<u8>,
    at: usize,
}

impl Model for PlainSource {
    ghost Value = { List ℕ };

    ghost view = { λ s. drop s.at s.bytes.items };

    ghost invariant = { λ s. s.at ≤ vec_len s.bytes };
}

impl PlainSource {
    /// A source with all of these bytes left.
    pub fn new(bytes: Vec<u8>) -> PlainSource
        ensures { result ≡ bytes.items }
    {
        PlainSource { bytes, at: 0 }
    }
}

impl Source for PlainSource {
    ghost seen = { plain_source_seen };

    fn take(&mut self, room: &mut [u8]) -> Result<usize, IoFault>
        ensures takes { Takes (plain_source_seen self.old) (plain_source_seen self.new)
            result room.old room.new }
        ensures count { result ≡ Ok (min (length room.old) (length self.old)) }
    {
        let count = fill_front(room, &self.bytes[self.at..]);
        self.at += count;
        Ok(count)
    }
}

/// A sink that takes all that it is handed, and never fails. Both of its counts are 0.
#[derive(Drop)]
pub struct PlainSink {
    bytes: Vec<u8>,
}

impl Model for PlainSink {
    ghost Value = { List ℕ };

    ghost view = { λ s. s.bytes.items };
}

impl PlainSink {
    /// A sink that holds nothing.
    pub fn new(alloc: Global) -> PlainSink
        ensures { result ≡ [] }
    {
        PlainSink {
            bytes: Vec::new(alloc),
        }
    }

    /// The bytes that it holds.
    pub fn held(&self) -> &[u8]
        ensures { result.now ≡ self.now }
    {
        &self.bytes
    }
}

impl Sink for PlainSink {
    ghost seen = { plain_sink_seen };

    fn put(&mut self, bytes: &[u8]) -> Result<usize, IoFault>
        ensures puts { Puts (plain_sink_seen self.old) (plain_sink_seen self.new) result bytes.now }

        ensures ok { IfOk result (λ n.
            (n ≡ length bytes.now) × (self.new ≡ self.old ++ bytes.now)) }
        ensures err { IfErr result (λ fault. (fault ≡ IoFault.NoMemory) × (self.new ≡ self.old)) }
    {
        self.bytes.extend_from_slice(bytes)?;
        Ok(bytes.len())
    }
}
