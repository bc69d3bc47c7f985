//! Lists of keys, each a ring of links.

ghost use Rattle.std.specs.Prelude.{◌≡◌, ℕ, ◌+◌, ◌<◌, ◌≤◌, ◌^◌, ◌∷◌, ◌++◌, [], List, OnOk, IfOk};
ghost use Rattle.key_lists.specs.Tables.{IsEmptyTable, Lacks, Holds, first_key, last_of, list_of};
ghost use Rattle.key_lists.specs.Tables.{without};
ghost use Rattle.key_lists.specs.Rings.{AreEmptyRings};

use crate::link::{Link, MOST_PLACES};
use std::alloc::{AllocError, Global};
use std::marker::Model;

/// A fixed number of lists of keys, from oldest to newest; a key is in at most one of them. Place
/// `i` below the number of lists is the end of list `i`, and a key's place is that number more than
/// the key.
#[derive(Drop)]
pub struct KeyLists {
    lists: usize,
    links: Vec<Link>,
}

impl Model for KeyLists {
    ghost use Rattle.key_lists.specs.Tables.{KeyTable};
    ghost use Rattle.key_lists.specs.Rings.{table_of, IsRings};

    ghost Value = { KeyTable };

    ghost view = { λ s. table_of s.lists s.links.items };

    ghost invariant = { λ s. IsRings s.lists s.links.items };
}

/// The links of so many empty lists.
fn empty_rings(alloc: Global, lists: usize) -> Result<Vec<Link>, AllocError>
    requires { lists ≤ 2 ^ 32 }
    ensures { IfOk result (λ links. AreEmptyRings lists links.items) }
{
    let mut links = Vec::new(alloc);
    links.reserve(lists)?;
    for list in 0..lists {
        links.push(Link {
            older: list as u32,
            newer: list as u32,
        })?;
    }
    Ok(links)
}

impl KeyLists {
    /// So many empty lists, with room for no key. More than [`MOST_PLACES`] are refused as want of
    /// memory is.
    pub fn new(alloc: Global, lists: usize) -> Result<KeyLists, AllocError>
        ensures { IfOk result (λ table. IsEmptyTable lists table) }
    {
        if lists > MOST_PLACES {
            return Err(AllocError);
        }
        let links = empty_rings(alloc, lists)?;
        Ok(KeyLists { lists, links })
    }

    /// Takes memory for the keys below a number. Where that and the lists are more than
    /// [`MOST_PLACES`], it is refused as want of memory is.
    pub fn grow(&mut self, room: usize) -> Result<(), AllocError>
        ensures ok { OnOk result (room ≤ self.new.room) }
        ensures grows { self.old.room ≤ self.new.room }
        ensures number { self.new.number ≡ self.old.number }
        ensures lists { (c : ℕ) → c < self.old.number → list_of self.new c ≡ list_of self.old c }
    {
        let len = self.lists.checked_add(room).ok_or(AllocError)?;
        if len > MOST_PLACES {
            return Err(AllocError);
        }
        if self.links.len() < len {
            let link = Link { older: 0, newer: 0 };
            self.links.resize(len, link)?;
        }
        Ok(())
    }

    /// The key before a key in its list; None where it is the oldest.
    pub fn older(&self, key: usize) -> Option<usize>
        requires { (c : ℕ) × (c < self.now.number) × Holds key (list_of self.now c) }
        ensures { (c : ℕ) (front back : List ℕ) → c < self.now.number
            → list_of self.now c ≡ front ++ key ∷ back → result ≡ last_of front }
    {
        let last = self.links[self.lists + key].older as usize;
        if last < self.lists {
            return None;
        }
        Some(last - self.lists)
    }

    /// The newest key of a list; None exactly where it is empty.
    pub fn newest(&self, list: usize) -> Option<usize>
        requires { list < self.now.number }
        ensures { result ≡ last_of (list_of self.now list) }
    {
        let last = self.links[list].older as usize;
        if last < self.lists {
            return None;
        }
        Some(last - self.lists)
    }

    /// The oldest key of a list; None exactly where it is empty.
    pub fn oldest(&self, list: usize) -> Option<usize>
        requires { list < self.now.number }
        ensures { result ≡ first_key (list_of self.now list) }
    {
        let first = self.links[list].newer as usize;
        if first < self.lists {
            return None;
        }
        Some(first - self.lists)
    }

    /// Puts a key that no list holds at the end of a list.
    pub fn push(&mut self, list: usize, key: usize)
        requires list { list < self.old.number }
        requires room { key < self.old.room }
        requires free { (c : ℕ) → c < self.old.number → Lacks key (list_of self.old c) }
        ensures number { self.new.number ≡ self.old.number }
        ensures room { self.new.room ≡ self.old.room }
        ensures pushed { list_of self.new list ≡ list_of self.old list ++ key ∷ [] }
        ensures others { (c : ℕ) → c < self.old.number → (c ≡ list → ⊥)
            → list_of self.new c ≡ list_of self.old c }
    {
        let place = self.lists + key;
        let last = self.links[list].older;
        self.links[place] = Link {
            older: last,
            newer: list as u32,
        };
        self.links[last as usize].newer = place as u32;
        self.links[list].older = place as u32;
    }

    /// Takes a key out of the list that holds it.
    pub fn unlink(&mut self, key: usize)
        requires held { (c : ℕ) × (c < self.old.number) × Holds key (list_of self.old c) }
        ensures number { self.new.number ≡ self.old.number }
        ensures room { self.new.room ≡ self.old.room }
        ensures lists { (c : ℕ) → c < self.old.number
            → list_of self.new c ≡ without key (list_of self.old c) }
    {
        let place = self.lists + key;
        let Link { older, newer } = self.links[place];
        self.links[older as usize].newer = newer;
        self.links[newer as usize].older = older;
    }
}
