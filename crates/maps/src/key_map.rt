use crate::pages::{Found, Pages};
use crate::{Hint, InsertError, KeyWalk, MarkedMap, Plain, Steps, Stored};
use std::alloc::{AllocError, Global};
use std::marker::Model;
use terms::Key;

/// A map from keys to values, in the order of its keys, with room for more. A look-up is a binary search, which begins
/// near the last change. So is the search of an insertion, wherever its key goes, and it moves few entries; for a key greater than all
/// others it takes one comparison.
#[derive(Drop)]
pub struct KeyMap<V: Stored> {
    pages: Pages<V>,
}

impl<V: Stored> Model for KeyMap<V> {
    ghost use Rattle.std.specs.FinMap.{from_entries};
    ghost use Rattle.maps.specs.Keyed.{Keyed};
    ghost use Rattle.maps.specs.Codes.{keyed_code};
    ghost use Rattle.maps.specs.Paged.{all_of};

    ghost Value = { Keyed V };

    ghost coded = { keyed_code V.code };

    ghost view = { λ s. record { items = from_entries (all_of s.pages.pages); room = s.pages.room } };
}

impl<V: Stored> KeyMap<V> {
    ghost use Rattle.std.specs.Prelude.{◌≡◌, ◌<◌, ◌≤◌, IfErr, IfOk, OnOk, OnErr, length};
    ghost use Rattle.std.specs.FinMap.{entries, get};
    ghost use Rattle.maps.specs.Insertion.{IsRefused};
    ghost use Rattle.maps.specs.Keyed.{none, Adds, ComparesFew};
    ghost use Rattle.maps.specs.Marked.{AreUnmarked};

    /// A map without entries and without room.
    pub fn new(alloc: Global) -> Self
        ensures { result ≡ none }
    {
        KeyMap {
            pages: Pages::new(alloc),
        }
    }

    /// The value of the key, if it has one.
    pub fn get(&self, key: Key) -> Option<V>
        ensures { result ≡ get self.now.items key }
    {
        self.pages.value(self.pages.search(key))
    }

    /// The same as `get`. It looks first where the hint says, and sets the hint to where the key is or would be.
    pub fn get_near(&self, key: Key, hint: &mut Hint) -> Option<V>
        ensures { result ≡ get self.now.items key }
    {
        self.pages.value(self.pages.find_near(&key, hint))
    }

    /// The value of the key, if it has one. It compares keys by `Steps::compare` alone; if the map has a number of entries
    /// with `d` binary digits, it does so at most `d * (d + 1) / 2` times.
    pub fn find(&self, key: &Key, steps: &mut Steps) -> Option<V>
        ensures value { result ≡ get self.now.items key.now }
        ensures cost { ComparesFew (length (entries self.now.items)) steps.old steps.new }
        ensures more { steps.old ≤ steps.new }
    {
        self.pages.value(self.pages.find(key, steps))
    }

    /// The entries, in the order of their keys.
    pub fn walk(&self) -> KeyWalk<'_, V>
        ensures { result ≡ entries self.now.items }
    {
        self.pages.walk()
    }

    /// The same entries, none of them marked. Their marks take one word for each page of entries.
    pub fn marks(&self, alloc: Global) -> Result<MarkedMap<'_, V>, AllocError>
        ensures { IfOk result (AreUnmarked self.now.items) }
    {
        MarkedMap::new(alloc, &self.pages)
    }

    /// The number of entries.
    pub fn count(&self) -> usize
        ensures { result ≡ length (entries self.now.items) }
    {
        self.pages.count()
    }

    /// The number of further entries that there is room for.
    pub fn room(&self) -> usize
        ensures { result ≡ self.now.room }
    {
        self.pages.room()
    }

    /// Makes room for `count` more entries. It fails only if there was less room, and then changes nothing.
    pub fn make_room(&mut self, count: usize) -> Result<(), AllocError>
        ensures items { self.new.items ≡ self.old.items }
        ensures ok { OnOk result (count ≤ self.new.room) }
        ensures not_less { self.old.room ≤ self.new.room }
        ensures enough { count ≤ self.old.room → self.new ≡ self.old }
        ensures refused { OnErr result ((self.new ≡ self.old) × (self.old.room < count)) }
    {
        self.pages.make_room(count)
    }

    /// Adds an entry with a key that has none. An error changes nothing, and `NoMemory` comes only if there was no
    /// room.
    pub fn insert(&mut self, key: Key, value: V) -> Result<(), InsertError<V>>
        ensures ok { OnOk result (Adds self.old self.new key value) }
        ensures refused { IfErr result (IsRefused (get self.old.items key) self.old.room) }
        ensures unchanged { OnErr result (self.new ≡ self.old) }
    {
        match self.pages.search(key) {
            Found::At(page, place) => Err(InsertError::Taken(self.pages.value_at(page, place))),
            Found::Gap(page, place) => {
                self.pages.make_room(1)?;
                self.pages.add(page, place, key, value);
                Ok(())
            }
            Found::Behind => {
                self.pages.make_room(1)?;
                self.pages.add_behind(key, value);
                Ok(())
            }
        }
    }
}

impl<V: Plain> KeyMap<V> {
    ghost use Rattle.std.specs.Prelude.{◌≡◌, IsSome};
    ghost use Rattle.std.specs.FinMap.{get, insert};

    /// Gives a new value to a key that has one.
    pub fn set(&mut self, key: Key, value: V)
        requires { IsSome (get self.old.items key) }
        ensures { self.new ≡ record { items = insert self.old.items key value; room = self.old.room } }
    {
        match self.pages.search(key) {
            Found::At(page, place) => self.pages.set(page, place, key, value),
            Found::Gap(_, _) => {}
            Found::Behind => {}
        }
    }
}
