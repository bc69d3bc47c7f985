//! The base that keeps one list.

ghost use Rattle.std.specs.Prelude.{◌≡◌};
ghost use Rattle.wheel_core.specs.PlainBase.{empty_base};

use crate::scan::{least_left, place_by_id, scan_at, sooner_of};
use crate::{Item, NoRoom, TimerBase, wheel_expiry};
use std::alloc::Global;
use std::marker::Model;

/// A timer base that keeps its items in one list, in arming order. Looking for an id or taking an
/// item out is one pass over the list; `first`, and `peek_next` and `take_next` with nothing due,
/// look at no item.
#[derive(Drop)]
pub struct ListBase {
    items: Vec<Item>,
    clock: u64,
    first: Option<u64>,
    capacity: usize,
}

impl Model for ListBase {
    ghost use Rattle.std.specs.Prelude.{vec_capacity};
    ghost use Rattle.wheel_core.specs.PlainBase.{RoomyBase};
    ghost use Rattle.wheel_core.specs.ListBase.{KeepsList};

    ghost Value = { RoomyBase };

    ghost view = { λ b.
        record {
          plain = record { items = b.items.items; clock = b.clock };
          capacity = b.capacity;
        } };

    ghost invariant = { λ b. KeepsList b.items.items b.first b.capacity (vec_capacity b.items) };
}

impl ListBase {
    /// An empty base at clock 0, with room for no item; it takes no memory.
    pub fn new(alloc: Global) -> ListBase
        ensures { result ≡ record { plain = empty_base; capacity = 0 } }
    {
        ListBase {
            items: Vec::new(alloc),
            clock: 0,
            first: None,
            capacity: 0,
        }
    }
}

impl TimerBase for ListBase {
    ghost base = { λ b. b };

    fn clock(&self) -> u64 {
        self.clock
    }

    fn len(&self) -> usize {
        self.items.len()
    }

    fn get(&self, id: u32) -> Option<Item> {
        let Some(place) = place_by_id(&self.items, id) else {
            return None;
        };
        Some(self.items[place])
    }

    fn first(&self) -> Option<u64> {
        self.first
    }

    fn forward(&mut self, now: u64) {
        if self.clock < now {
            self.clock = sooner_of(now, self.first);
        }
    }

    fn add(&mut self, id: u32, expires: u64, job: u8, arg: u32) -> Item {
        let (wheel, level) = wheel_expiry(expires, self.clock);
        let item = Item {
            id,
            expires,
            wheel,
            level,
            job,
            arg,
        };
        self.items.push(item).unwrap();
        self.first = Some(sooner_of(wheel, self.first));
        item
    }

    fn remove(&mut self, id: u32) -> Option<Item> {
        let Some(place) = place_by_id(&self.items, id) else {
            return None;
        };
        let item = self.items.remove(place);
        self.first = least_left(&self.items, item.wheel, self.first);
        Some(item)
    }

    fn peek_next(&self, now: u64) -> Option<Item> {
        let Some(place) = scan_at(&self.items, self.first, now).out else {
            return None;
        };
        Some(self.items[place])
    }

    fn oldest(&self) -> Option<u32> {
        let item = self.items.first()?;
        Some(item.id)
    }

    fn take_next(&mut self, now: u64) -> Option<Item> {
        let scan = scan_at(&self.items, self.first, now);
        let Some(place) = scan.out else {
            return None;
        };
        let out = self.items.remove(place);
        self.first = scan.others;
        self.clock = self.clock.max(out.wheel + 1);
        Some(out)
    }

    fn reserve(&mut self, n: usize) -> Result<(), NoRoom> {
        self.items.reserve(n)?;
        self.capacity = self.capacity.max(self.items.len() + n);
        Ok(())
    }
}
