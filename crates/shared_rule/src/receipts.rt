//! The receipts of a pass.

ghost use Rattle.std.specs.Prelude.{◌≡◌, ◌+◌, ◌<◌, ◌≤◌, ◌∷◌, ◌++◌, [], length, max, slice_get};
ghost use Rattle.std.specs.Prelude.{IsOk, OnOk, OnErr};
ghost use Rattle.std.specs.Option.{option_copied};

use crate::Receipt;
use std::alloc::Global;
use std::marker::Model;
use std::mem;
use tm_base::NoMemory;

/// A list of receipts that only grows.
#[derive(Drop)]
pub struct Receipts {
    receipts: Vec<Receipt>,
    capacity: usize,
}

impl Model for Receipts {
    ghost use Rattle.std.specs.Prelude.{◌≤◌, vec_capacity, vec_len};
    ghost use Rattle.shared_rule.specs.Receipts.{RoomyReceipts};

    ghost Value = { RoomyReceipts };

    ghost view = { λ j. record { receipts = j.receipts.items; capacity = j.capacity } };

    ghost invariant = { (λ j. (vec_len j.receipts ≤ j.capacity)
        × (j.capacity ≤ vec_capacity j.receipts)) };
}

impl Receipts {
    /// No receipts yet, with room for no receipt; it takes no memory.
    pub fn new(alloc: Global) -> Receipts
        ensures { result ≡ record { receipts = []; capacity = 0 } }
    {
        Receipts {
            receipts: Vec::new(alloc),
            capacity: 0,
        }
    }

    /// How many receipts there are.
    pub fn len(&self) -> usize
        ensures { result ≡ length self.now.receipts }
    {
        self.receipts.len()
    }

    /// The receipt at a place, from 0; None exactly where the place is at or past the length.
    pub fn get(&self, i: usize) -> Option<&Receipt>
        ensures { option_copied result ≡ slice_get self.now.receipts i }
    {
        self.receipts.get(i)
    }

    /// Adds a receipt at the end. Want of memory leaves them as they were.
    pub fn push(&mut self, item: Receipt) -> Result<(), NoMemory>
        ensures enough { length self.old.receipts < self.old.capacity → IsOk result }
        ensures receipts { OnOk result (self.new.receipts ≡ self.old.receipts ++ item ∷ []) }
        ensures capacity { OnOk result
            (self.new.capacity ≡ max self.old.capacity (length self.old.receipts + 1)) }
        ensures err { OnErr result (self.new ≡ self.old) }
    {
        self.reserve(1)?;
        self.write(item);
        Ok(())
    }

    /// Adds a receipt for which there is room.
    pub fn write(&mut self, receipt: Receipt)
        requires { length self.old.receipts < self.old.capacity }
        ensures receipts { self.new.receipts ≡ self.old.receipts ++ receipt ∷ [] }
        ensures capacity { self.new.capacity ≡ self.old.capacity }
    {
        self.receipts.push(receipt).unwrap();
    }

    /// Takes memory for `n` more receipts, where there is less. Want of memory leaves them
    /// as they were.
    pub fn reserve(&mut self, n: usize) -> Result<(), NoMemory>
        ensures enough { length self.old.receipts + n ≤ self.old.capacity → IsOk result }
        ensures receipts { self.new.receipts ≡ self.old.receipts }
        ensures ok { OnOk result
            (self.new.capacity ≡ max self.old.capacity (length self.old.receipts + n)) }
        ensures err { OnErr result (self.new ≡ self.old) }
    {
        self.receipts.reserve(n)?;
        self.capacity = self.capacity.max(self.receipts.len() + n);
        Ok(())
    }

    /// Takes all receipts, with their memory, and leaves none.
    pub(crate) fn take(&mut self) -> Receipts
        ensures taken { result ≡ self.old }
        ensures left { self.new ≡ record { receipts = []; capacity = 0 } }
    {
        let alloc = *self.receipts.allocator();
        mem::replace(self, Receipts::new(alloc))
    }
}
