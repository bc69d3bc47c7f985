//! A source and a sink in memory that go by pieces, and fail in the calls that they are told.

ghost use Rattle.std.specs.Prelude.{◌≡◌, ◌==◌, ◌<◌, ◌^◌, ◌↔◌, [], min, length, take};
ghost use Rattle.std.specs.Prelude.{IsTrue, IfOk, IsErrOf};
ghost use Rattle.std.specs.List.{list_any};
ghost use Rattle.tm_io.specs.Counts.{HasRisen};
ghost use Rattle.tm_io.specs.Sources.{Takes};
ghost use Rattle.tm_io.specs.Sinks.{Puts, refusals_after};
ghost use Rattle.tm_io.specs.Memory.{Plan, start, fails_next, after_call};
ghost use Rattle.tm_io.specs.Memory.{Feed, feed_seen, Store, store_seen};

use crate::sinks::count_refusal;
use crate::{IoFault, PlainSink, PlainSource, Sink, Source};
use std::alloc::Global;
use std::marker::Model;

// Which calls fail. The count of calls stands still at its type's end, past every number in
// `fails`.
#[derive(Drop)]
struct FaultPlan {
    fails: Vec<u32>,
    calls: u64,
    faults: u64,
}

impl Model for FaultPlan {
    ghost Value = { Plan };

    ghost view = { λ p. record { fails = p.fails.items; calls = p.calls; faults = p.faults } };

    ghost invariant = { λ p. p.faults < 2 ^ 64 };
}

impl FaultPlan {
    // No call yet.
    fn new(fails: Vec<u32>) -> FaultPlan
        ensures { result ≡ start fails.items }
    {
        FaultPlan {
            fails,
            calls: 0,
            faults: 0,
        }
    }

    // Counts a call, and tells whether it fails.
    fn fails_now(&mut self) -> bool
        ensures fails { result ≡ fails_next self.old }
        ensures after { self.new ≡ after_call self.old }
        ensures risen { IsTrue result → HasRisen self.old.faults self.new.faults }
    {
        let number = self.calls.saturating_add(1);
        self.calls = number;
        let fails = contains_number(&self.fails, number);
        if fails {
            self.faults = self.faults.saturating_add(1);
        }
        fails
    }
}

// Whether a number is among those.
fn contains_number(numbers: &[u32], number: u64) -> bool
    ensures { result ≡ list_any (λ other. other == number) numbers.now }
{
    numbers.iter().any(|&other| u64::from(other) == number)
}

/// A source of given bytes that gives at most so many of them in a call, and fails in given calls.
#[derive(Drop)]
pub struct MemorySource {
    source: PlainSource,
    piece: usize,
    plan: FaultPlan,
}

impl Model for MemorySource {
    ghost Value = { Feed };

    ghost view = { λ s. record { left = s.source; piece = s.piece; plan = s.plan } };

    ghost invariant = { λ s. 0 < s.piece };
}

impl MemorySource {
    /// A source with all of these bytes left. It gives at most `piece` of them in a call; the
    /// calls whose numbers, from 1, stand in `fails` fail and count.
    pub fn new(bytes: Vec<u8>, piece: usize, fails: Vec<u32>) -> MemorySource
        requires { 0 < piece }
        ensures { result ≡ record { left = bytes.items; piece = piece; plan = start fails.items } }
    {
        MemorySource {
            source: PlainSource::new(bytes),
            piece,
            plan: FaultPlan::new(fails),
        }
    }
}

impl Source for MemorySource {
    ghost seen = { feed_seen };

    fn take(&mut self, room: &mut [u8]) -> Result<usize, IoFault>
        ensures takes { Takes (feed_seen self.old) (feed_seen self.new) result room.old room.new }

        ensures fails { IsErrOf result IoFault.Failed ↔ IsTrue (fails_next self.old.plan) }
        ensures count { IfOk result (λ n.
            n ≡ min self.old.piece (min (length room.old) (length self.old.left))) }
        ensures no_memory { IsErrOf result IoFault.NoMemory → ⊥ }
        ensures plan { self.new.plan ≡ after_call self.old.plan }
        ensures piece { self.new.piece ≡ self.old.piece }
    {
        if self.plan.fails_now() {
            return Err(IoFault::Failed);
        }
        let most = room.len().min(self.piece);
        self.source.take(&mut room[..most])
    }
}

/// A sink that takes at most so many bytes in a call, and fails in given calls.
#[derive(Drop)]
pub struct MemorySink {
    sink: PlainSink,
    piece: usize,
    plan: FaultPlan,
    refusals: u64,
}

impl Model for MemorySink {
    ghost Value = { Store };

    ghost view = { λ s. record {
      held = s.sink;
      piece = s.piece;
      plan = s.plan;
      refusals = s.refusals;
    } };

    ghost invariant = { λ s. s.refusals < 2 ^ 64 };
}

impl MemorySink {
    /// A sink that holds nothing. It takes at most `piece` bytes in a call, so nothing at all where
    /// that is 0; the calls whose numbers, from 1, stand in `fails` fail and count.
    pub fn new(alloc: Global, piece: usize, fails: Vec<u32>) -> MemorySink
        ensures { result
            ≡ record { held = []; piece = piece; plan = start fails.items; refusals = 0 } }
    {
        MemorySink {
            sink: PlainSink::new(alloc),
            piece,
            plan: FaultPlan::new(fails),
            refusals: 0,
        }
    }

    /// The bytes that it holds.
    pub fn held(&self) -> &[u8]
        ensures { result.now ≡ self.now.held }
    {
        self.sink.held()
    }
}

impl Sink for MemorySink {
    ghost seen = { store_seen };

    fn put(&mut self, bytes: &[u8]) -> Result<usize, IoFault>
        ensures puts { Puts (store_seen self.old) (store_seen self.new) result bytes.now }

        ensures fails { IsErrOf result IoFault.Failed ↔ IsTrue (fails_next self.old.plan) }
        ensures count { IfOk result (λ n. n ≡ min self.old.piece (length bytes.now)) }
        ensures refusals { IfOk result (λ n.
            self.new.refusals ≡ refusals_after self.old.refusals n bytes.now) }
        ensures plan { self.new.plan ≡ after_call self.old.plan }
        ensures piece { self.new.piece ≡ self.old.piece }
    {
        if self.plan.fails_now() {
            return Err(IoFault::Failed);
        }
        let most = bytes.len().min(self.piece);
        let count = self.sink.put(&bytes[..most])?;
        self.refusals = count_refusal(self.refusals, count, bytes);
        Ok(count)
    }
}
