//! All items of one store into another.

ghost use Rattle.std.specs.Prelude.{◌≡◌, ◌<◌, ◌≤◌, ◌^◌, [], OnErr, OnOk, length};
ghost use Rattle.wheel_base.specs.Files.{items_of};

use crate::store::Store;
use std::alloc::{AllocError, Global};

/// Moves all items of a store, in arming order, into an empty one that has room for them.
pub(crate) fn move_all(from: &mut Store, into: &mut Store)
    requires empty { into.old.filed ≡ [] }
    requires room { length from.old.filed ≤ into.old.room }
    ensures items { items_of into.new.filed ≡ items_of from.old.filed }
    ensures room { into.new.room ≡ into.old.room }
{
    while let Some((key, item)) = from.oldest() {
        from.take(key);
        into.insert(item);
    }
}

/// Moves all items of a store into memory for so many, of which it has less. Want of memory leaves
/// it as it was. It is kept out of its caller, which mostly finds that there is room.
#[inline(never)]
pub(crate) fn grow(store: &mut Store, alloc: Global, room: usize) -> Result<(), AllocError>
    requires enough { length store.old.filed ≤ room }
    ensures items { OnOk result (items_of store.new.filed ≡ items_of store.old.filed) }
    ensures room { OnOk result (room ≤ store.new.room) }
    ensures fits { OnOk result (store.new.room < 2 ^ 64) }
    ensures err { OnErr result (store.new ≡ store.old) }
{
    let mut more = Store::with_room(alloc, room)?;
    move_all(store, &mut more);
    *store = more;
    Ok(())
}
