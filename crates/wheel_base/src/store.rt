//! Items by their keys, in arming order and in buckets.

ghost use Rattle.std.specs.Prelude.{◌≡◌, ℕ, ◌+◌, ◌*◌, ◌<◌, ◌≤◌, ◌^◌, ◌∷◌, ◌++◌, [], length};
ghost use Rattle.std.specs.Prelude.{Some, None, IfSome, IfOk, MatchOption};
ghost use Rattle.std.specs.Int.{bit_at};
ghost use Rattle.wheel_core.specs.PlainBase.{HasDistinctIds, item_of};
ghost use Rattle.wheel_base.specs.Files.{HasKey, IsKeyOf, IsStored, items_of, item_under};
ghost use Rattle.wheel_base.specs.Files.{first_entry, last_entry, in_bucket, bucket_mark};
ghost use Rattle.wheel_base.specs.Files.{without_key};

use crate::place::wheel_place;
use key_lists::{KeyLists, MOST_PLACES};
use slab::Slab;
use std::alloc::{AllocError, Global};
use std::marker::Model;
use wheel_core::Item;

/// Items by their keys, seen in arming order. A bucket has the number 64 * level + place.
///
/// The three tables of lists hold the same keys: all in one list, in arming order; by their
/// buckets; and by the low bits of their ids (`id & mask`), which is how an id is found.
#[derive(Drop)]
pub(crate) struct Store {
    items: Slab<Item>,
    armed: KeyLists,
    buckets: KeyLists,
    names: KeyLists,
    mask: usize,
    marks: [u64; 9],
}

impl Model for Store {
    ghost use Rattle.wheel_base.specs.Files.{Files, files_of, IsFiled};

    ghost Value = { Files };

    ghost view = { λ s. files_of s.items s.armed };

    ghost invariant = { λ s. IsFiled s.items s.armed s.buckets s.names s.mask s.marks };
}

impl Store {
    /// An empty store with room for so many items. Dense ids fall one to a list.
    pub(crate) fn with_room(alloc: Global, room: usize) -> Result<Store, AllocError>
        ensures empty { IfOk result (λ store. store.filed ≡ []) }
        ensures room { IfOk result (λ store. room ≤ store.room) }
        ensures fits { IfOk result (λ store. store.room < 2 ^ 64) }
    {
        if room > MOST_PLACES {
            return Err(AllocError);
        }
        let lists = room.next_power_of_two().max(1);
        let items = Slab::with_capacity(alloc, room)?;
        let room = items.capacity();
        let mut armed = KeyLists::new(alloc, 1)?;
        armed.grow(room)?;
        let mut buckets = KeyLists::new(alloc, 576)?;
        buckets.grow(room)?;
        let mut names = KeyLists::new(alloc, lists)?;
        names.grow(room)?;
        Ok(Store {
            items,
            armed,
            buckets,
            names,
            mask: lists - 1,
            marks: [0; 9],
        })
    }

    /// The key of an id's item.
    pub(crate) fn find(&self, id: u32) -> Option<usize>
        requires { HasDistinctIds (items_of self.now.filed) }
        ensures { MatchOption result (item_of id (items_of self.now.filed) ≡ None)
            (IsKeyOf id self.now.filed) }
    {
        let mut at = self.names.newest(id as usize & self.mask);
        for step in 0..self.items.len() {
            let key = at?;
            if self.items[key].id == id {
                return Some(key);
            }
            at = self.names.older(key);
        }
        None
    }

    /// The item of a key.
    pub(crate) fn item(&self, key: usize) -> Item
        requires held { HasKey key self.now.filed }
        ensures { Some result ≡ item_under key self.now.filed }
    {
        self.items[key]
    }

    /// How many items there is memory for.
    pub(crate) fn room(&self) -> usize
        ensures { result ≡ self.now.room }
    {
        self.items.capacity()
    }

    /// How many items there are.
    pub(crate) fn len(&self) -> usize
        ensures { result ≡ length self.now.filed }
    {
        self.items.len()
    }

    /// The marks of a level: bit p is set exactly where the bucket at place p has an item.
    #[inline(always)]
    pub(crate) fn marks(&self, level: u8) -> u64
        requires { level < 9 }
        ensures { (place : ℕ) → place < 64
            → bit_at result place ≡ bucket_mark (in_bucket (64 * level + place) self.now.filed) }
    {
        self.marks[usize::from(level)]
    }

    /// The first armed item, with its key.
    pub(crate) fn oldest(&self) -> Option<(usize, Item)>
        ensures first { result ≡ first_entry self.now.filed }
        ensures stored { IfSome result (λ e. IsStored self.now.filed e) }
        ensures level { IfSome result (λ e. e.1.level < 9) }
    {
        let key = self.armed.oldest(0)?;
        Some((key, self.items[key]))
    }

    /// The last armed item of a bucket, with its key.
    #[inline(always)]
    pub(crate) fn newest(&self, bucket: usize) -> Option<(usize, Item)>
        requires { bucket < 576 }
        ensures last { result ≡ last_entry (in_bucket bucket self.now.filed) }
        ensures stored { IfSome result (λ e. IsStored self.now.filed e) }
    {
        let key = self.buckets.newest(bucket)?;
        Some((key, self.items[key]))
    }

    /// Files an item as the last armed one, and answers its key.
    #[inline(always)]
    pub(crate) fn insert(&mut self, item: Item) -> usize
        requires room { length self.old.filed < self.old.room }
        requires level { item.level < 9 }
        ensures filed { self.new.filed ≡ self.old.filed ++ (result, item) ∷ [] }
        ensures room { self.new.room ≡ self.old.room }
    {
        let place = wheel_place(item.level, item.wheel);
        let level = usize::from(item.level);
        let key = self.items.insert_reserved(item);
        self.armed.push(0, key);
        self.buckets.push(64 * level + usize::from(place), key);
        self.names.push(item.id as usize & self.mask, key);
        self.marks[level] |= 1 << place;
        key
    }

    /// Takes the item of a key out.
    #[inline(always)]
    pub(crate) fn take(&mut self, key: usize) -> Item
        requires held { HasKey key self.old.filed }
        ensures item { Some result ≡ item_under key self.old.filed }
        ensures filed { self.new.filed ≡ without_key key self.old.filed }
        ensures room { self.new.room ≡ self.old.room }
    {
        let item = self.items.remove(key);
        self.armed.unlink(key);
        self.buckets.unlink(key);
        self.names.unlink(key);
        let place = wheel_place(item.level, item.wheel);
        let level = usize::from(item.level);
        if self
            .buckets
            .newest(64 * level + usize::from(place))
            .is_none()
        {
            self.marks[level] &= !(1 << place);
        }
        item
    }
}
