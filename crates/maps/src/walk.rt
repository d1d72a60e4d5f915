use crate::{KeyMap, KeyWalk, Stored};
use std::marker::Model;
use terms::Key;

/// The entries that are left of a walk, in the order of their places. It does not allocate.
#[derive(Drop)]
pub struct Walk<'a, V: Stored> {
    // What is left of the collection with this number, and the collections after it.
    pub(crate) number: u16,
    pub(crate) entries: KeyWalk<'a, V>,
    pub(crate) collections: &'a [KeyMap<V>],
}

impl<'a, V: Stored> Model for Walk<'a, V> {
    ghost use Rattle.std.specs.Prelude.{◌+◌, ◌<◌, ◌^◌, List, length};
    ghost use Rattle.maps.specs.Numbered.{Place, left_of};

    ghost Value = { List (Place × V) };

    ghost view = { λ w. left_of w.number w.entries w.collections.now };

    ghost invariant = { λ w. w.number + length w.collections.now < 2 ^ 16 };
}

impl<'a, V: Stored> Iterator for Walk<'a, V> {
    type Item = ((u16, Key), V);

    ghost use Rattle.std.specs.Iterator.{YieldsFirst, item_count};

    ghost next_gives = { YieldsFirst (λ w. w) };

    ghost remaining = { item_count (λ w. w) };

    fn next(&mut self) -> Option<((u16, Key), V)> {
        loop {
            if let Some((key, value)) = self.entries.next() {
                return Some(((self.number, key), value));
            }
            let (collection, others) = self.collections.split_first()?;
            self.entries = collection.walk();
            self.collections = others;
            self.number += 1;
        }
    }
}
