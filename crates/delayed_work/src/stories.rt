//! The list of queueings.

ghost use Rattle.std.specs.Prelude.{◌≡◌, ◌+◌, ◌<◌, ◌∷◌, ◌++◌, [], length, max, slice_get};
ghost use Rattle.std.specs.Prelude.{OnOk, OnErr, slice_set};
ghost use Rattle.std.specs.Option.{option_copied};

use crate::standing::End;
use std::alloc::Global;
use std::marker::Model;
use tm_base::NoMemory;

/// What became of each accepted queueing: its number from 0, its work, and its end. The number is
/// the place in the list.
#[derive(Drop)]
pub struct Stories {
    entries: Vec<(u64, u16, End)>,
    capacity: usize,
}

impl Model for Stories {
    ghost use Rattle.std.specs.Prelude.{◌≤◌, vec_capacity, vec_len};
    ghost use Rattle.delayed_work.specs.Ledger.{RoomyStories};

    ghost Value = { RoomyStories };

    ghost view = { λ s. record { entries = s.entries.items; capacity = s.capacity } };

    ghost invariant = { (λ s. (vec_len s.entries ≤ s.capacity)
        × (s.capacity ≤ vec_capacity s.entries)) };
}

impl Stories {
    /// An empty list, with room for no entry; it takes no memory.
    pub fn new(alloc: Global) -> Stories
        ensures { result ≡ record { entries = []; capacity = 0 } }
    {
        Stories {
            entries: Vec::new(alloc),
            capacity: 0,
        }
    }

    /// How many entries there are.
    pub fn len(&self) -> usize
        ensures { result ≡ length self.now.entries }
    {
        self.entries.len()
    }

    /// The entry of a number; None exactly where the number is at or past the length.
    pub fn get(&self, i: usize) -> Option<&(u64, u16, End)>
        ensures { option_copied result ≡ slice_get self.now.entries i }
    {
        self.entries.get(i)
    }

    /// Adds an entry at the end. Want of memory leaves the list as it was.
    pub fn push(&mut self, item: (u64, u16, End)) -> Result<(), NoMemory>
        ensures entries { OnOk result (self.new.entries ≡ self.old.entries ++ item ∷ []) }
        ensures capacity { OnOk result
            (self.new.capacity ≡ max self.old.capacity (length self.old.entries + 1)) }
        ensures err { OnErr result (self.new ≡ self.old) }
    {
        self.reserve()?;
        self.write(item);
        Ok(())
    }

    /// Adds an entry for which there is room.
    pub(crate) fn write(&mut self, entry: (u64, u16, End))
        requires { length self.old.entries < self.old.capacity }
        ensures entries { self.new.entries ≡ self.old.entries ++ entry ∷ [] }
        ensures capacity { self.new.capacity ≡ self.old.capacity }
    {
        self.entries.push(entry).unwrap();
    }

    /// Writes an entry over another one.
    pub(crate) fn replace(&mut self, i: usize, entry: (u64, u16, End))
        requires { i < length self.old.entries }
        ensures entries { self.new.entries ≡ slice_set self.old.entries i entry }
        ensures capacity { self.new.capacity ≡ self.old.capacity }
    {
        self.entries[i] = entry;
    }

    /// Takes memory for one more entry, where there is none. Want of memory leaves the list as it
    /// was.
    pub(crate) fn reserve(&mut self) -> Result<(), NoMemory>
        ensures entries { self.new.entries ≡ self.old.entries }
        ensures ok { OnOk result
            (self.new.capacity ≡ max self.old.capacity (length self.old.entries + 1)) }
        ensures err { OnErr result (self.new ≡ self.old) }
    {
        self.entries.reserve(1)?;
        self.capacity = self.capacity.max(self.entries.len() + 1);
        Ok(())
    }
}
