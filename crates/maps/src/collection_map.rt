ghost use Rattle.std.specs.Prelude.{◌≡◌, IfOk, replicate};
ghost use Rattle.maps.specs.Keyed.{none};
ghost use Rattle.maps.specs.Marked.{AreUnmarkedLists};

use crate::{
    Hint, InsertError, KeyMap, KeyWalk, MarkedCollections, MarkedMap, Steps, Stored, Walk,
};
use std::alloc::{AllocError, Global};
use std::marker::Model;
use terms::Key;

/// A map from places, each the number of a collection and a key, to values. It has a `KeyMap` for each collection.
#[derive(Drop)]
pub struct CollectionMap<V: Stored> {
    collections: Vec<KeyMap<V>>,
}

impl<V: Stored> Model for CollectionMap<V> {
    ghost use Rattle.std.specs.Prelude.{◌≤◌, ◌^◌, length, map};
    ghost use Rattle.std.specs.FinMap.{from_entries};
    ghost use Rattle.maps.specs.Codes.{numbered_code};
    ghost use Rattle.maps.specs.Numbered.{Numbered, all_from};

    ghost Value = { Numbered V };

    ghost coded = { numbered_code V.code };

    ghost view = { λ m. record { items = from_entries (all_from 0 m.collections.items); room = map (λ collection. collection.room) m.collections.items } };

    ghost invariant = { λ m. length m.collections.items ≤ 2 ^ 16 };
}

impl<V: Stored> CollectionMap<V> {
    ghost use Rattle.std.specs.Prelude.{◌≡◌, ◌<◌, ◌≤◌, ◌-◌, ◌^◌, IfOk, IfErr, OnOk, OnErr, length, min, replicate};
    ghost use Rattle.std.specs.FinMap.{entries, get};
    ghost use Rattle.maps.specs.Insertion.{IsRefused};
    ghost use Rattle.maps.specs.Keyed.{ComparesFew};
    ghost use Rattle.maps.specs.Marked.{AreUnmarked};
    ghost use Rattle.maps.specs.Numbered.{none_held, of_number, room_at, AddsAt, OnlyMakesRoom};

    /// A map without entries, for this number of collections.
    pub fn new(alloc: Global, collections: usize) -> Result<Self, AllocError>
        requires { collections ≤ 2 ^ 16 }
        ensures { IfOk result (λ m. m ≡ none_held collections) }
    {
        Ok(CollectionMap {
            collections: empty_maps(alloc, collections)?,
        })
    }

    /// The value at the place, if there is one.
    pub fn get(&self, number: u16, key: Key) -> Option<V>
        ensures { result ≡ get self.now.items (number, key) }
    {
        self.collections.get(number as usize)?.get(key)
    }

    /// The same as `get`. It looks first where the hint says, and sets the hint to where the key is or would be.
    pub fn get_near(&self, number: u16, key: Key, hint: &mut Hint) -> Option<V>
        ensures { result ≡ get self.now.items (number, key) }
    {
        self.collections.get(number as usize)?.get_near(key, hint)
    }

    /// The value at the place, if there is one. It compares keys by `Steps::compare` alone; if the collection has a number
    /// of entries with `d` binary digits, it does so at most `d * (d + 1) / 2` times.
    pub fn find(&self, number: u16, key: &Key, steps: &mut Steps) -> Option<V>
        ensures value { result ≡ get self.now.items (number, key.now) }
        ensures cost { ComparesFew (length (of_number number (entries self.now.items))) steps.old steps.new }
        ensures more { steps.old ≤ steps.new }
    {
        match self.collections.get(number as usize) {
            Some(collection) => collection.find(key, steps),
            None => None,
        }
    }

    /// All entries, in the order of their places.
    pub fn walk(&self) -> Walk<'_, V>
        ensures { result ≡ entries self.now.items }
    {
        match self.collections.split_first() {
            Some((collection, others)) => Walk {
                number: 0,
                entries: collection.walk(),
                collections: others,
            },
            None => Walk {
                number: 0,
                entries: KeyWalk::none(),
                collections: &[],
            },
        }
    }

    /// The entries of one collection, in the order of their keys; none if there is no such collection.
    pub fn walk_of(&self, number: u16) -> Walk<'_, V>
        ensures { result ≡ of_number number (entries self.now.items) }
    {
        match self.collections.get(number as usize) {
            Some(collection) => Walk {
                number,
                entries: collection.walk(),
                collections: &[],
            },
            None => Walk {
                number: 0,
                entries: KeyWalk::none(),
                collections: &[],
            },
        }
    }

    /// The same entries, none of them marked. Their marks take one word for each page of entries.
    pub fn marks(&self, alloc: Global) -> Result<MarkedCollections<'_, V>, AllocError>
        ensures { IfOk result (AreUnmarked self.now.items) }
    {
        match unmarked_maps(alloc, &self.collections) {
            Ok(maps) => Ok(MarkedCollections::of_maps(maps)),
            Err(error) => Err(error),
        }
    }

    /// The number of entries, or the greatest `usize` if there are more.
    pub fn count(&self) -> usize
        ensures { result ≡ min (length (entries self.now.items)) (2 ^ 64 - 1) }
    {
        let mut count = 0usize;
        for number in 0..self.collections.len() {
            count = count.saturating_add(self.collections[number].count());
        }
        count
    }

    /// The number of further entries of the collection that there is room for.
    pub fn room(&self, number: u16) -> usize
        ensures { result ≡ room_at self.now number }
    {
        match self.collections.get(number as usize) {
            Some(collection) => collection.room(),
            None => 0,
        }
    }

    /// Makes room for `count` more entries of the collection. It fails only if there was less room, and then changes
    /// nothing.
    pub fn make_room(&mut self, number: u16, count: usize) -> Result<(), AllocError>
        requires { number < length self.old.room }
        ensures ok { OnOk result (count ≤ room_at self.new number) }
        ensures grows { OnlyMakesRoom self.old self.new number }
        ensures enough { count ≤ room_at self.old number → self.new ≡ self.old }
        ensures refused { OnErr result ((self.new ≡ self.old) × (room_at self.old number < count)) }
    {
        self.collections[number as usize].make_room(count)
    }

    /// Adds an entry at a place that has none. An error changes nothing, and `NoMemory` comes only if there was no
    /// room.
    pub fn insert(&mut self, number: u16, key: Key, value: V) -> Result<(), InsertError<V>>
        requires { number < length self.old.room }
        ensures ok { OnOk result (AddsAt self.old self.new (number, key) value) }
        ensures refused { IfErr result (IsRefused (get self.old.items (number, key)) (room_at self.old number)) }
        ensures unchanged { OnErr result (self.new ≡ self.old) }
    {
        self.collections[number as usize].insert(key, value)
    }
}

/// A vector of `count` empty maps.
fn empty_maps<V: Stored>(alloc: Global, count: usize) -> Result<Vec<KeyMap<V>>, AllocError>
    ensures { IfOk result (λ maps. maps.items ≡ replicate count none) }
{
    let mut maps = Vec::with_capacity(alloc, count)?;
    for _map in 0..count {
        maps.push(KeyMap::new(alloc))?;
    }
    Ok(maps)
}

// The marks of several maps, none of whose entries is marked.
fn unmarked_maps<V: Stored>(
    alloc: Global,
    collections: &[KeyMap<V>],
) -> Result<Vec<MarkedMap<'_, V>>, AllocError>
    ensures { IfOk result (λ maps. AreUnmarkedLists collections.now maps.items) }
{
    let mut maps = Vec::with_capacity(alloc, collections.len())?;
    for collection in collections {
        match collection.marks(alloc) {
            Ok(marks) => maps.push_reserved(marks),
            Err(error) => return Err(error),
        }
    }
    Ok(maps)
}
