//! What an interrupt ran.

ghost use Rattle.std.specs.Prelude.{◌≡◌, ◌+◌, ◌<◌, ◌≤◌, ◌∷◌, ◌++◌, [], length, max, slice_get};
ghost use Rattle.std.specs.Prelude.{IsOk, OnOk, OnErr};
ghost use Rattle.std.specs.Option.{option_copied};

use std::alloc::Global;
use std::marker::Model;
use tm_base::{Class, CpuId, Jiffy, NoMemory, TimerId};

/// What became of a timer whose job was run.
#[derive(Clone, Copy, Debug, PartialEq, Eq)]
pub enum RanReply {
    /// The timer is done.
    Done,
    /// The timer is done, and its job left this mark.
    Mark(u32),
    /// The timer was armed again on the CPU that ran it, with this wheel expiry, in jiffies.
    Again { class: Class, wheel: Jiffy },
    /// Its job would have armed it again, and its word named this CPU, where it was queued by then.
    /// The word was found after the timer had been handed out to this run.
    Skip { cpu: CpuId },
}

/// A timer whose job was run.
#[derive(Clone, Copy, Debug, PartialEq, Eq)]
pub struct Ran {
    pub timer: TimerId,
    /// The CPU on which it was queued.
    pub home: CpuId,
    /// Its wheel expiry, in jiffies.
    pub wheel: Jiffy,
    pub reply: RanReply,
}

/// A list of what was run that only grows.
#[derive(Drop)]
pub struct Runs {
    runs: Vec<Ran>,
    capacity: usize,
}

impl Model for Runs {
    ghost use Rattle.std.specs.Prelude.{◌≤◌, vec_capacity, vec_len};
    ghost use Rattle.shared_acts.specs.Runs.{RoomyRuns};

    ghost Value = { RoomyRuns };

    ghost view = { λ j. record { runs = j.runs.items; capacity = j.capacity } };

    ghost invariant = { (λ j. (vec_len j.runs ≤ j.capacity)
        × (j.capacity ≤ vec_capacity j.runs)) };
}

impl Runs {
    /// Nothing run yet, with room for nothing; it takes no memory.
    pub fn new(alloc: Global) -> Runs
        ensures { result ≡ record { runs = []; capacity = 0 } }
    {
        Runs {
            runs: Vec::new(alloc),
            capacity: 0,
        }
    }

    /// How many timers were run.
    pub fn len(&self) -> usize
        ensures { result ≡ length self.now.runs }
    {
        self.runs.len()
    }

    /// What was run at a place, from 0; None exactly where the place is at or past the length.
    pub fn get(&self, i: usize) -> Option<&Ran>
        ensures { option_copied result ≡ slice_get self.now.runs i }
    {
        self.runs.get(i)
    }

    /// Adds one at the end. Want of memory leaves them as they were.
    pub fn push(&mut self, item: Ran) -> Result<(), NoMemory>
        ensures enough { length self.old.runs < self.old.capacity → IsOk result }
        ensures runs { OnOk result (self.new.runs ≡ self.old.runs ++ item ∷ []) }
        ensures capacity { OnOk result
            (self.new.capacity ≡ max self.old.capacity (length self.old.runs + 1)) }
        ensures err { OnErr result (self.new ≡ self.old) }
    {
        self.reserve(1)?;
        self.runs.push(item).unwrap();
        Ok(())
    }

    /// Takes memory for `n` more, where there is less. Want of memory leaves them as they were.
    pub fn reserve(&mut self, n: usize) -> Result<(), NoMemory>
        ensures enough { length self.old.runs + n ≤ self.old.capacity → IsOk result }
        ensures runs { self.new.runs ≡ self.old.runs }
        ensures ok { OnOk result
            (self.new.capacity ≡ max self.old.capacity (length self.old.runs + n)) }
        ensures err { OnErr result (self.new ≡ self.old) }
    {
        self.runs.reserve(n)?;
        self.capacity = self.capacity.max(self.runs.len() + n);
        Ok(())
    }
}
