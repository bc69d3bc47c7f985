//! What goes out of the wheel, and the least wheel expiry that is left.

ghost use Rattle.std.specs.Prelude.{◌≡◌, ◌%◌, ◌^◌, ◌<◌, ◌≤◌, None, Some, true, MatchOption};
ghost use Rattle.std.specs.Prelude.{IfSome};
ghost use Rattle.wheel_core.specs.WheelExpiry.{granularity};
ghost use Rattle.wheel_core.specs.PlainBase.{least, out_at, sooner};
ghost use Rattle.wheel_base.specs.Files.{IsStored, bucket_of, in_bucket, items_of, last_entry};
ghost use Rattle.wheel_base.specs.Files.{bucket_mark};
ghost use Rattle.wheel_base.specs.Marks.{AreNear};
ghost use Rattle.wheel_base.specs.Outs.{IsNextOut, IsOutOf, NoneAt, at_level};

use crate::marks::first_from;
use crate::place::{top_level, wheel_place};
use crate::store::Store;
use wheel_core::Item;

/// The last armed item of a wheel expiry in a level, with its key.
#[inline(always)]
fn newest_at(store: &Store, wheel: u64, level: u8) -> Option<(usize, Item)>
    requires level { level < 9 }
    requires near { AreNear wheel store.now.filed }
    ensures last { result ≡ last_entry (at_level level wheel store.now.filed) }
    ensures stored { IfSome result (λ e. IsStored store.now.filed e) }
{
    let shift = 3 * level;
    if wheel >> shift << shift != wheel {
        return None;
    }
    store.newest(64 * usize::from(level) + usize::from(wheel_place(level, wheel)))
}

/// The item that goes out first at a wheel expiry, with its key: of the highest level the last
/// armed one.
#[inline(always)]
fn out_of(store: &Store, wheel: u64) -> Option<(usize, Item)>
    requires near { AreNear wheel store.now.filed }
    ensures { MatchOption result (NoneAt wheel store.now.filed) (IsOutOf wheel store.now.filed) }
{
    let top = top_level(wheel);
    for down in 0..top + 1 {
        let entry = newest_at(store, wheel, top - down);
        if entry.is_some() {
            return entry;
        }
    }
    None
}

/// What goes out next at a time, with its key.
#[inline(always)]
pub(crate) fn next_entry(
    store: &Store,
    first: Option<u64>,
    clock: u64,
    now: u64,
) -> Option<(usize, Item)>
    requires first { first ≡ least (items_of store.now.filed) }
    requires near { AreNear (sooner clock first) store.now.filed }
    ensures { MatchOption result
        (out_at now (least (items_of store.now.filed)) (items_of store.now.filed) ≡ None)
        (IsNextOut now store.now.filed) }
{
    let wheel = first?;
    if now < wheel {
        return None;
    }
    out_of(store, wheel)
}

/// Whether the bucket of an item has one still.
#[inline(always)]
fn has_more(store: &Store, item: &Item) -> bool
    requires level { item.now.level < 9 }
    ensures { result ≡ true → bucket_mark (in_bucket (bucket_of item.now) store.now.filed) ≡ 1 }
{
    store.marks(item.level) >> wheel_place(item.level, item.wheel) & 1 == 1
}

/// The least wheel expiry that is left after an item went, given that before. Only where its
/// bucket is empty now is it looked for.
#[inline(always)]
pub(crate) fn first_left(store: &Store, gone: &Item, before: Option<u64>) -> Option<u64>
    requires before { before ≡ Some (sooner gone.now.wheel (least (items_of store.now.filed))) }
    requires near { before ≡ Some gone.now.wheel → AreNear gone.now.wheel store.now.filed }
    requires in_time { gone.now.wheel ≤ 2 ^ 47 }
    requires level { gone.now.level < 9 }
    requires granule { gone.now.wheel % granularity gone.now.level ≡ 0 }
    ensures { result ≡ least (items_of store.now.filed) }
{
    if before != Some(gone.wheel) {
        return before;
    }
    if has_more(store, gone) {
        return before;
    }
    first_from(store, gone.wheel)
}
