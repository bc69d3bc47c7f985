//! The wheel of nine levels.

ghost use Rattle.std.specs.Prelude.{◌≡◌, ◌≤◌, IfOk};
ghost use Rattle.wheel_base.specs.Wheels.{no_base};

use crate::marks::sooner_of;
use crate::moves::grow;
use crate::outs::{first_left, next_entry};
use crate::store::Store;
use std::alloc::Global;
use std::marker::Model;
use wheel_core::{Item, NoRoom, TimerBase, wheel_expiry};

/// For how many items memory is taken at least, where any is.
const LEAST_ROOM: usize = 16;

/// For how many items memory is taken where there is some for `room` and `wanted` have to fit: for
/// twice as many at least.
fn roomier(room: usize, wanted: usize) -> usize
    ensures { wanted ≤ result }
{
    wanted.max(LEAST_ROOM.max(room.saturating_mul(2)))
}

/// A timer base that keeps its items in a wheel of nine levels of 64 buckets, each level eight
/// times as coarse as the one below. No call but `reserve` looks at more items than a few; that
/// moves all of them where it takes memory, which then is for twice as many at least.
#[derive(Drop)]
pub struct WheelBase {
    store: Store,
    first: Option<u64>,
    clock: u64,
    capacity: usize,
    alloc: Global,
}

impl Model for WheelBase {
    ghost use Rattle.wheel_core.specs.PlainBase.{RoomyBase};
    ghost use Rattle.wheel_base.specs.Wheels.{KeepsWheel, seen_as};

    ghost Value = { RoomyBase };

    ghost view = { λ b. seen_as b.store b.clock b.capacity };

    ghost invariant = { λ b. KeepsWheel b.store b.clock b.first b.capacity };
}

impl WheelBase {
    /// An empty base at clock 0, with room for no item. It takes some 5,000 bytes for its buckets.
    pub fn new(alloc: Global) -> Result<WheelBase, NoRoom>
        ensures { IfOk result (λ base. base ≡ no_base) }
    {
        let store = Store::with_room(alloc, 0)?;
        Ok(WheelBase {
            store,
            first: None,
            clock: 0,
            capacity: 0,
            alloc,
        })
    }
}

impl TimerBase for WheelBase {
    ghost base = { λ b. b };

    fn clock(&self) -> u64 {
        self.clock
    }

    fn len(&self) -> usize {
        self.store.len()
    }

    fn get(&self, id: u32) -> Option<Item> {
        let key = self.store.find(id)?;
        Some(self.store.item(key))
    }

    fn first(&self) -> Option<u64> {
        self.first
    }

    fn forward(&mut self, now: u64) {
        if self.clock < now {
            self.clock = sooner_of(now, self.first);
        }
    }

    #[inline(always)]
    fn add(&mut self, id: u32, expires: u64, job: u8, arg: u32) -> Item {
        let (wheel, level) = wheel_expiry(expires, self.clock);
        let item = Item {
            id,
            expires,
            wheel,
            level,
            job,
            arg,
        };
        self.store.insert(item);
        self.first = Some(sooner_of(wheel, self.first));
        item
    }

    #[inline(always)]
    fn remove(&mut self, id: u32) -> Option<Item> {
        let key = self.store.find(id)?;
        let item = self.store.take(key);
        self.first = first_left(&self.store, &item, self.first);
        Some(item)
    }

    fn peek_next(&self, now: u64) -> Option<Item> {
        let (_, item) = next_entry(&self.store, self.first, self.clock, now)?;
        Some(item)
    }

    fn oldest(&self) -> Option<u32> {
        let (_, item) = self.store.oldest()?;
        Some(item.id)
    }

    #[inline(always)]
    fn take_next(&mut self, now: u64) -> Option<Item> {
        let (key, _next) = next_entry(&self.store, self.first, self.clock, now)?;
        let item = self.store.take(key);
        self.first = first_left(&self.store, &item, self.first);
        self.clock = self.clock.max(item.wheel + 1);
        Some(item)
    }

    #[inline(always)]
    fn reserve(&mut self, n: usize) -> Result<(), NoRoom> {
        let wanted = self.store.len().checked_add(n).ok_or(NoRoom)?;
        if wanted <= self.store.room() {
            self.capacity = self.capacity.max(wanted);
            return Ok(());
        }
        let room = roomier(self.store.room(), wanted);
        grow(&mut self.store, self.alloc, room)?;
        self.capacity = wanted;
        Ok(())
    }
}
