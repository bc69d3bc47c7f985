//! Journals.

ghost use Rattle.std.specs.Prelude.{◌≡◌, ◌+◌, ◌<◌, ◌≤◌, ◌∷◌, ◌++◌, [], length, max, slice_get};
ghost use Rattle.std.specs.Prelude.{IsOk, OnOk, OnErr};
ghost use Rattle.std.specs.Option.{option_copied};

use crate::Entry;
use std::alloc::Global;
use std::marker::Model;
use tm_base::NoMemory;

/// A list of entries that only grows.
#[derive(Drop)]
pub struct Journal {
    entries: Vec<Entry>,
    capacity: usize,
}

impl Model for Journal {
    ghost use Rattle.std.specs.Prelude.{◌≤◌, vec_capacity, vec_len};
    ghost use Rattle.cpu_bases.specs.Journals.{RoomyJournal};

    ghost Value = { RoomyJournal };

    ghost view = { λ j. record { entries = j.entries.items; capacity = j.capacity } };

    ghost invariant = { (λ j. (vec_len j.entries ≤ j.capacity)
        × (j.capacity ≤ vec_capacity j.entries)) };
}

impl Journal {
    /// An empty journal, with room for no entry; it takes no memory.
    pub fn new(alloc: Global) -> Journal
        ensures { result ≡ record { entries = []; capacity = 0 } }
    {
        Journal {
            entries: Vec::new(alloc),
            capacity: 0,
        }
    }

    /// How many entries there are.
    pub fn len(&self) -> usize
        ensures { result ≡ length self.now.entries }
    {
        self.entries.len()
    }

    /// The entry at a place, from 0; None exactly where the place is at or past the length.
    pub fn get(&self, i: usize) -> Option<&Entry>
        ensures { option_copied result ≡ slice_get self.now.entries i }
    {
        self.entries.get(i)
    }

    /// Adds an entry at the end. Want of memory leaves the journal as it was.
    pub fn push(&mut self, item: Entry) -> Result<(), NoMemory>
        ensures enough { length self.old.entries < self.old.capacity → IsOk result }
        ensures entries { OnOk result (self.new.entries ≡ self.old.entries ++ item ∷ []) }
        ensures capacity { OnOk result
            (self.new.capacity ≡ max self.old.capacity (length self.old.entries + 1)) }
        ensures err { OnErr result (self.new ≡ self.old) }
    {
        self.reserve(1)?;
        self.write(item);
        Ok(())
    }

    /// Adds an entry for which there is room.
    pub(crate) fn write(&mut self, entry: Entry)
        requires { length self.old.entries < self.old.capacity }
        ensures entries { self.new.entries ≡ self.old.entries ++ entry ∷ [] }
        ensures capacity { self.new.capacity ≡ self.old.capacity }
    {
        self.entries.push(entry).unwrap();
    }

    /// Takes memory for `n` more entries, where there is less. Want of memory leaves the journal
    /// as it was.
    pub(crate) fn reserve(&mut self, n: usize) -> Result<(), NoMemory>
        ensures enough { length self.old.entries + n ≤ self.old.capacity → IsOk result }
        ensures entries { self.new.entries ≡ self.old.entries }
        ensures ok { OnOk result
            (self.new.capacity ≡ max self.old.capacity (length self.old.entries + n)) }
        ensures err { OnErr result (self.new ≡ self.old) }
    {
        self.entries.reserve(n)?;
        self.capacity = self.capacity.max(self.entries.len() + n);
        Ok(())
    }
}
