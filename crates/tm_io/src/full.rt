//! A sink in memory that fills up.

ghost use Rattle.std.specs.Prelude.{◌≡◌, ◌-◌, ◌^◌, ◌<◌, [], min, length, IfOk, IfErr};
ghost use Rattle.tm_io.specs.Plain.{Tank, tank_seen};
ghost use Rattle.tm_io.specs.Sinks.{Puts, refusals_after};

use crate::sinks::count_refusal;
use crate::{IoFault, PlainSink, Sink};
use std::alloc::Global;
use std::marker::Model;

/// A sink that takes so many bytes in all, and then nothing more. Its count of faults is 0.
#[derive(Drop)]
pub struct FullSink {
    sink: PlainSink,
    room: usize,
    refusals: u64,
}

impl Model for FullSink {
    ghost Value = { Tank };

    ghost view = { λ s. record { held = s.sink; room = s.room; refusals = s.refusals } };

    ghost invariant = { λ s. s.refusals < 2 ^ 64 };
}

impl FullSink {
    /// A sink that holds nothing, and takes `room` bytes in all.
    pub fn new(alloc: Global, room: usize) -> FullSink
        ensures { result ≡ record { held = []; room = room; refusals = 0 } }
    {
        FullSink {
            sink: PlainSink::new(alloc),
            room,
            refusals: 0,
        }
    }

    /// The bytes that it holds.
    pub fn held(&self) -> &[u8]
        ensures { result.now ≡ self.now.held }
    {
        self.sink.held()
    }
}

impl Sink for FullSink {
    ghost seen = { tank_seen };

    fn put(&mut self, bytes: &[u8]) -> Result<usize, IoFault>
        ensures puts { Puts (tank_seen self.old) (tank_seen self.new) result bytes.now }

        ensures count { IfOk result (λ n. n ≡ min self.old.room (length bytes.now)) }
        ensures room { IfOk result (λ n. self.new.room ≡ self.old.room - n) }
        ensures refusals { IfOk result (λ n.
            self.new.refusals ≡ refusals_after self.old.refusals n bytes.now) }
        ensures err { IfErr result (λ fault. (fault ≡ IoFault.NoMemory) × (self.new ≡ self.old)) }
    {
        let most = bytes.len().min(self.room);
        let count = self.sink.put(&bytes[..most])?;
        self.room -= count;
        self.refusals = count_refusal(self.refusals, count, bytes);
        Ok(count)
    }
}
